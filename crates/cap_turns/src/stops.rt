//! Where a judge stops.

ghost use Rattle.std.specs.Prelude.{◌≡◌, true, false};
ghost use Rattle.cap_streams.specs.Front.{IsFront};
ghost use Rattle.cap_turns.specs.Readings.{IsNoLine, IsWholeLine};

use cap_streams::Front;

/// Why a judge stopped.
#[derive(Debug, Clone, Copy, PartialEq, Eq)]
pub enum Stop {
    /// The bytes after those that it took are less than a line, if any.
    Cut,
    /// The line after them is faulty, or one before them was.
    Fault,
    /// There was no memory for what the line after them wants: a granule that is named for the first time, or an object.
    NoMemory,
}

/// What a judge took of the bytes that it was handed.
#[derive(Debug, Clone, Copy, PartialEq, Eq)]
pub struct Taken {
    /// How many bytes, all of them whole lines.
    pub count: usize,
    /// Why it took no more.
    pub stop: Stop,
}

/// Whether some bytes, whose front was found, are one line with its line feed, or more of a line than a line has.
pub fn is_whole(found: Front, line: &[u8]) -> bool
    requires found { IsFront line.now found }
    ensures whole { result ≡ true → IsWholeLine line.now }
    ensures none { result ≡ false → IsNoLine line.now }
{
    match found {
        Front::Line(length) => length + 1 == line.len(),
        Front::TooLong => true,
        Front::Cut => false,
    }
}
