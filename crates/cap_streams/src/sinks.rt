//! Where bytes go.

ghost use Rattle.std.specs.Prelude.{ℕ, ◌≤◌, ◌<◌, ◌^◌, List, [], ◌++◌, length, take, IfOk, OnErr, OnOk, Some, codes};
ghost use Rattle.cap_streams.specs.Streams.{CountsFault};

pub mod faults;
pub mod slices;
pub mod writers;

use std::{error, fmt};

/// A sink that failed.
#[derive(Clone, Copy, Debug, PartialEq, Eq)]
pub struct PushFault;

impl fmt::Display for PushFault {
    ghost output = { λ fault. Some (codes "the sink failed") };

    fn fmt<W: fmt::Write>(&self, f: &mut fmt::Formatter<W>) -> fmt::Result {
        f.write_str("the sink failed")
    }
}

impl error::Error for PushFault {}

/// Where bytes go, a piece at a time.
pub trait Sink {
    /// The bytes that were taken between two moments of a sink.
    ghost took: { Self → Self → List ℕ → Type 0 };

    /// How many pushes failed, modulo 2^64.
    ghost faults: { Self → ℕ };

    /// Takes bytes from the front of the piece, and returns how many: at least one, unless the piece is empty. A
    /// failed push takes nothing, and is counted.
    fn push(&mut self, piece: &[u8]) -> Result<usize, PushFault>
        ensures fits { IfOk result (λ n. n ≤ length piece.now) }
        ensures some { IfOk result (λ n. 0 < length piece.now → 0 < n) }
        ensures bytes { IfOk result (λ n. took self.old self.new (take n piece.now)) }
        ensures nothing_taken { OnErr result (took self.old self.new []) }
        ensures counted { CountsFault (faults self.old) (faults self.new) result };

    /// Nothing is taken where nothing is pushed.
    ghost nothing: { (s : Self) → took s s [] };

    /// The count fits 64 bits.
    ghost faults_fit: { (s : Self) → faults s < 2 ^ 64 };

    /// What is taken in two calls in a row.
    ghost joined: { (a b c : Self) (xs ys : List ℕ) → took a b xs → took b c ys → took a c (xs ++ ys) };
}

/// Pushes a text until the sink has taken all of it. After a fault the sink took a beginning.
pub fn push_all<K: Sink>(sink: &mut K, text: &[u8]) -> Result<(), PushFault>
    ensures ok { OnOk result (K.took sink.old sink.new text.now) }
    ensures err { OnErr result ((n : ℕ) × K.took sink.old sink.new (take n text.now)) }
    ensures counted { CountsFault (K.faults sink.old) (K.faults sink.new) result }
{
    let mut done = 0;
    while done < text.len() {
        match sink.push(&text[done..]) {
            Ok(count) => done += count,
            Err(PushFault) => return Err(PushFault),
        }
    }
    Ok(())
}
