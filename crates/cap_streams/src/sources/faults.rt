//! A source of which one pull fails.

ghost use Rattle.std.specs.Prelude.{◌≡◌, ◌≢◌, ◌+◌, ◌-◌, ◌%◌, ◌^◌, ◌≤◌, [], false, length, take, if◌then◌else◌, None};
ghost use Rattle.std.specs.Prelude.{Some, option_map, IfOk, IsErr, OnErr};
ghost use Rattle.std.proofs.{Math.Nat.mod-lt, lemmas.Nat.pow_pos};
ghost use Rattle.cap_streams.specs.Wrapped.{has_just_failed, inner_source, own_faults, pulls_left};
ghost use Rattle.cap_streams.specs.Streams.{CountsFault, is_end, next_count};

use crate::sources::{PullFault, Source};

/// A source of which one pull fails, and all others are the inner one's.
#[derive(Drop)]
pub struct FailingSource<S: Source> {
    inner: S,
    // How many pulls come before the one that fails. None once it has failed.
    waits: Option<u64>,
    // Whether the last pull was the one that failed.
    is_failed: bool,
}

impl<S: Source> FailingSource<S> {
    /// The inner source, except pull number `at`, counted from 0: that one fails without asking it.
    pub fn new(inner: S, at: u64) -> FailingSource<S>
        ensures inner { inner_source result ≡ inner }
        ensures waits { pulls_left result ≡ Some at }
        ensures begins { has_just_failed result ≡ false }
    {
        FailingSource {
            inner,
            waits: Some(at),
            is_failed: false,
        }
    }
}

impl<S: Source> Source for FailingSource<S> {
    ghost gave = { λ a b xs. S.gave a.inner b.inner xs };

    ghost ended = { λ s. if s.is_failed then false else S.ended s.inner };

    ghost faults = { λ s. (S.faults s.inner + own_faults s.waits) % 2 ^ 64 };

    ghost nothing = { λ s. S.nothing s.inner };

    ghost faults_fit = { λ s. mod-lt (S.faults s.inner + own_faults s.waits) (pow_pos 64) };

    ghost joined = { λ a b c xs ys h k. S.joined a.inner b.inner c.inner xs ys h k };

    fn pull(&mut self, piece: &mut [u8]) -> Result<usize, PullFault>
        ensures fits { IfOk result (λ n. n ≤ length piece.new) }
        ensures bytes { IfOk result (λ n. S.gave (inner_source self.old) (inner_source self.new) (take n piece.new)) }
        ensures end { IfOk result (λ n. (if has_just_failed self.new then false else S.ended (inner_source self.new)) ≡ is_end (length piece.new) n) }
        ensures nothing_given { OnErr result (S.gave (inner_source self.old) (inner_source self.new) []) }
        ensures no_end { OnErr result ((if has_just_failed self.new then false else S.ended (inner_source self.new)) ≡ false) }
        ensures counted { CountsFault ((S.faults (inner_source self.old) + own_faults (pulls_left self.old)) % 2 ^ 64)
            ((S.faults (inner_source self.new) + own_faults (pulls_left self.new)) % 2 ^ 64) result }

        // One pull fails, and leaves the inner source as it is. All others are passed on.
        ensures failing { pulls_left self.old ≡ Some 0 → IsErr result × (inner_source self.new ≡ inner_source self.old) × (pulls_left self.new ≡ None) }
        ensures waiting { pulls_left self.old ≢ Some 0 → pulls_left self.new ≡ option_map (λ n. n - 1) (pulls_left self.old) }
        ensures inner_fault { OnErr result (pulls_left self.old ≢ Some 0 → S.faults (inner_source self.new) ≡ next_count (S.faults (inner_source self.old))) }
    {
        self.is_failed = self.waits == Some(0);
        if self.is_failed {
            self.waits = None;
            return Err(PullFault);
        }
        if let Some(count) = self.waits {
            self.waits = Some(count - 1);
        }
        self.inner.pull(piece)
    }
}
