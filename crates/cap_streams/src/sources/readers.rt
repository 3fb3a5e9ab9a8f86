//! A source over a reader.

ghost use Rattle.std.specs.{Prelude.{◌≡◌, ◌<◌, ◌^◌, ℕ, List, [], true, false, Some}, Io.KnownBytes.Consumes};
ghost use Rattle.cap_streams.specs.KnownLaws.{Consumes-nothing, Consumes-joined};

use crate::sources::{PullFault, Source};
use std::io::Read;

/// The bytes of a reader. Each error of the reader is a fault.
#[derive(Drop)]
pub struct ReadSource<R: Read> {
    reader: R,
    is_ended: bool,
    faults: u64,
    ghost few_faults: { faults < 2 ^ 64 },
    ghost all_given: { is_ended ≡ true → (xs : List ℕ) → R.remaining reader ≡ Some xs → xs ≡ [] },
}

impl<R: Read> ReadSource<R> {
    ghost use Rattle.cap_streams.specs.Wrapped.{reader_of};

    /// The bytes that the reader has left. It has not ended, and has no fault.
    pub fn new(reader: R) -> ReadSource<R>
        ensures reader { reader_of result ≡ reader }
        ensures unended { ⟦<ReadSource<R> as Source>⟧.ended result ≡ false }
        ensures no_fault { ⟦<ReadSource<R> as Source>⟧.faults result ≡ 0 }
    {
        ReadSource {
            reader,
            is_ended: false,
            faults: 0,
        }
    }
}

impl<R: Read> Source for ReadSource<R> {
    ghost gave = { λ a b xs. Consumes (R.remaining a.reader) (R.remaining b.reader) xs };

    ghost ended = { λ s. s.is_ended };

    ghost faults = { λ s. s.faults };

    ghost nothing = { λ s. Consumes-nothing (R.remaining s.reader) };

    ghost faults_fit = { λ s. s.few_faults };

    ghost joined = { λ a b c xs ys h k. Consumes-joined (R.remaining a.reader) (R.remaining b.reader) (R.remaining c.reader) xs ys h k };

    fn pull(&mut self, piece: &mut [u8]) -> Result<usize, PullFault> {
        match self.reader.read(piece) {
            Ok(count) => {
                self.is_ended = count == 0 && !piece.is_empty();
                Ok(count)
            }
            Err(_) => {
                self.is_ended = false;
                self.faults = self.faults.wrapping_add(1);
                Err(PullFault)
            }
        }
    }
}
