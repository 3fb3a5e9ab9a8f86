//! Writing lines and places.

ghost use Rattle.std.specs.Prelude.{◌≡◌, ◌≤◌, length, take, drop};
ghost use Rattle.cap_log.specs.Lines.{IsInRange, IsLineAt, IsPlace, place_spelling};
ghost use Rattle.cap_log.specs.declared.lines.Line.TheVariants as line;

use crate::buffers::put;
use crate::kinds::write_words;
use crate::lines::{Line, Place};
use crate::operands::Operands;
use crate::parts::Part;

/// Writes a line and its line feed at the front of the buffer, and answers how many bytes they are.
/// The line's numbers have to be in their ranges. The rest of the buffer stays as it was, and
/// [`read_line`](crate::read_line) of the bytes before the line feed gives the line back.
pub fn write_line(line: &Line, buffer: &mut [u8; 96]) -> usize
    requires { IsInRange line.now }
    ensures line { IsLineAt line.now buffer.old buffer.new result }
{
    let end = write_words(line, buffer);
    put(buffer, end, b"\n")
}

/// Writes the line of a step of one kind, as [`write_line`] does, and asks for no other kind.
#[inline(always)]
pub fn write_step<O: Operands>(step: O, buffer: &mut [u8; 96]) -> usize
    ensures line { IsLineAt (line.Step (O.step step)) buffer.old buffer.new result }
{
    step.in_range();
    let words = step.write(buffer);
    put(buffer, words, b"\n")
}

/// Writes a place as a root names it at the front of the buffer, and answers how many bytes it is.
/// The place's number has to be in its range. The rest of the buffer stays as it was.
pub fn write_place(place: &Place, buffer: &mut [u8; 17]) -> usize
    requires { IsPlace place.now }
    ensures ends { result ≡ length (place_spelling place.now) }
    ensures fits { result ≤ 17 }
    ensures written { take result buffer.new ≡ place_spelling place.now }
    ensures rest { drop result buffer.new ≡ drop result buffer.old }
{
    place.write(buffer, 0)
}
