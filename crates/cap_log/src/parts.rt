//! The parts of a line: each takes itself from the front of some bytes, with the byte that ends it.

ghost use Rattle.std.specs.Prelude.{ℕ, List, ◌+◌, ◌≤◌, length, IfSome, IfNone};
ghost use Rattle.cap_log.specs.Parts.{Begins, BeginsWithNone, FitBoth, HasNoSpace, IsEnd, spaced};
ghost use Rattle.cap_streams.specs.Written.{Writes};

pub mod decimals;
pub mod fronts;
pub mod headers;
pub mod hexadecimals;
pub mod offsets;
pub mod registers;
pub mod results;
pub mod sized;

use crate::buffers::put;

/// A part of a line: its values in range have one spelling each.
pub trait Part: Drop {
    // The values in range.
    ghost fits: { Self → Type 0 };

    // A value's bytes.
    ghost spelled: { Self → List ℕ };

    /// Takes the part from the front of some bytes, with the byte that ends it: its value, and what
    /// follows that byte. `None` where no value in range and this byte stand there.
    fn take(bytes: &[u8], end: u8) -> Option<(Self, &[u8])>
        requires { IsEnd end }
        ensures some { IfSome result (λ p. Begins fits spelled end bytes.now p.0 p.1.now) }
        ensures none { IfNone result (BeginsWithNone fits spelled end bytes.now) };

    /// Writes the part into the buffer from an index on, and answers where it ends.
    fn write(&self, buffer: &mut [u8], at: usize) -> usize
        requires in_range { fits self.now }
        requires room { at + length (spelled self.now) ≤ length buffer.old }
        ensures written { Writes at (spelled self.now) buffer.old buffer.new result };
}

/// A part that is one word: no value's bytes have a space.
pub trait Single: Part {
    ghost spaceless: { (value : Self) → Self.Part.fits value → HasNoSpace (Self.Part.spelled value) };
}

/// A word, a space, and another part.
impl<A: Single, B: Part> Part for (A, B) {
    ghost fits = { FitBoth A.Part.fits B.fits };

    ghost spelled = { spaced A.Part.spelled B.spelled };

    #[inline(always)]
    fn take(bytes: &[u8], end: u8) -> Option<((A, B), &[u8])> {
        let (first, rest) = A::take(bytes, b' ')?;
        let (second, rest) = B::take(rest, end)?;
        Some(((first, second), rest))
    }

    #[inline(always)]
    fn write(&self, buffer: &mut [u8], at: usize) -> usize {
        let space = self.0.write(buffer, at);
        let next = put(buffer, space, b" ");
        self.1.write(buffer, next)
    }
}
