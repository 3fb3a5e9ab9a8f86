//! Where bytes come from.

ghost use Rattle.std.specs.Prelude.{◌≡◌, ℕ, ◌≤◌, ◌<◌, ◌^◌, Bool, false, List, [], ◌++◌, length, take, IfOk, OnErr, Some, codes};
ghost use Rattle.cap_streams.specs.Streams.{CountsFault, is_end};

pub mod faults;
pub mod readers;
pub mod slices;

use std::{error, fmt};

/// A source that failed.
#[derive(Clone, Copy, Debug, PartialEq, Eq)]
pub struct PullFault;

impl fmt::Display for PullFault {
    ghost output = { λ fault. Some (codes "the source failed") };

    fn fmt<W: fmt::Write>(&self, f: &mut fmt::Formatter<W>) -> fmt::Result {
        f.write_str("the source failed")
    }
}

impl error::Error for PullFault {}

/// Where bytes come from, a piece at a time.
pub trait Source {
    /// The bytes that were handed out between two moments of a source.
    ghost gave: { Self → Self → List ℕ → Type 0 };

    /// Whether the last pull found the end: it gave nothing into a piece that has room.
    ghost ended: { Self → Bool };

    /// How many pulls failed, modulo 2^64.
    ghost faults: { Self → ℕ };

    /// Writes the next bytes to the front of the piece, and answers how many. None for a piece that
    /// has room is the end. After a fault nothing was given.
    fn pull(&mut self, piece: &mut [u8]) -> Result<usize, PullFault>
        ensures fits { IfOk result (λ n. n ≤ length piece.new) }
        ensures bytes { IfOk result (λ n. gave self.old self.new (take n piece.new)) }
        ensures end { IfOk result (λ n. ended self.new ≡ is_end (length piece.new) n) }
        ensures nothing_given { OnErr result (gave self.old self.new []) }
        ensures no_end { OnErr result (ended self.new ≡ false) }
        ensures counted { CountsFault (faults self.old) (faults self.new) result };

    /// Nothing is handed out where nothing is pulled.
    ghost nothing: { (s : Self) → gave s s [] };

    /// The count fits 64 bits.
    ghost faults_fit: { (s : Self) → faults s < 2 ^ 64 };

    /// What is handed out in two calls in a row.
    ghost joined: { (a b c : Self) (xs ys : List ℕ) → gave a b xs → gave b c ys → gave a c (xs ++ ys) };
}
