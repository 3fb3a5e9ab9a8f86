//! A sink of which one push fails.

ghost use Rattle.std.specs.Prelude.{◌≡◌, ◌≢◌, ◌+◌, ◌-◌, ◌%◌, ◌^◌, ◌≤◌, ◌<◌, [], length, take, None, Some, option_map};
ghost use Rattle.std.specs.Prelude.{IfOk, IsErr, OnErr};
ghost use Rattle.std.proofs.{Math.Nat.mod-lt, lemmas.Nat.pow_pos};
ghost use Rattle.cap_streams.specs.{Streams.{CountsFault, next_count}, Wrapped.{inner_sink, own_faults, pushes_left}};

use crate::sinks::{PushFault, Sink};

/// A sink of which one push fails, and all others are the inner one's.
#[derive(Drop)]
pub struct FailingSink<K: Sink> {
    inner: K,
    // How many pushes come before the one that fails. None once it has failed.
    waits: Option<u64>,
}

impl<K: Sink> FailingSink<K> {
    /// The inner sink, except push number `at`, counted from 0: that one fails without asking it.
    pub fn new(inner: K, at: u64) -> FailingSink<K>
        ensures inner { inner_sink result ≡ inner }
        ensures waits { pushes_left result ≡ Some at }
    {
        FailingSink {
            inner,
            waits: Some(at),
        }
    }
}

impl<K: Sink> Sink for FailingSink<K> {
    ghost took = { λ a b xs. K.took a.inner b.inner xs };

    ghost faults = { λ s. (K.faults s.inner + own_faults s.waits) % 2 ^ 64 };

    ghost nothing = { λ s. K.nothing s.inner };

    ghost faults_fit = { λ s. mod-lt (K.faults s.inner + own_faults s.waits) (pow_pos 64) };

    ghost joined = { λ a b c xs ys h k. K.joined a.inner b.inner c.inner xs ys h k };

    fn push(&mut self, piece: &[u8]) -> Result<usize, PushFault>
        ensures fits { IfOk result (λ n. n ≤ length piece.now) }
        ensures some { IfOk result (λ n. 0 < length piece.now → 0 < n) }
        ensures bytes { IfOk result (λ n. K.took (inner_sink self.old) (inner_sink self.new) (take n piece.now)) }
        ensures nothing_taken { OnErr result (K.took (inner_sink self.old) (inner_sink self.new) []) }
        ensures counted { CountsFault ((K.faults (inner_sink self.old) + own_faults (pushes_left self.old)) % 2 ^ 64)
            ((K.faults (inner_sink self.new) + own_faults (pushes_left self.new)) % 2 ^ 64) result }

        // One push fails, and leaves the inner sink as it is. All others are passed on.
        ensures failing { pushes_left self.old ≡ Some 0 → IsErr result × (inner_sink self.new ≡ inner_sink self.old) × (pushes_left self.new ≡ None) }
        ensures waiting { pushes_left self.old ≢ Some 0 → pushes_left self.new ≡ option_map (λ n. n - 1) (pushes_left self.old) }
        ensures inner_fault { OnErr result (pushes_left self.old ≢ Some 0 → K.faults (inner_sink self.new) ≡ next_count (K.faults (inner_sink self.old))) }
    {
        match self.waits {
            Some(0) => {
                self.waits = None;
                return Err(PushFault);
            }
            Some(count) => self.waits = Some(count - 1),
            None => {}
        }
        self.inner.push(piece)
    }
}
