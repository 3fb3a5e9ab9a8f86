//! Where the line at the front of some bytes ends.

ghost use Rattle.cap_streams.specs.Front.{IsFront};

use crate::lines::Front;

/// The most bytes that a line has before its line feed.
pub const LINE_LIMIT: usize = 95;

/// The front of some bytes: the line that they begin with, or that there is none. It looks at the
/// first 96 bytes at most.
pub fn front(bytes: &[u8]) -> Front
    ensures found { IsFront bytes.now result }
{
    let window = bytes.len().min(LINE_LIMIT + 1);
    for index in 0..window {
        if bytes[index] == b'\n' {
            return Front::Line(index);
        }
    }
    if window > LINE_LIMIT {
        Front::TooLong
    } else {
        Front::Cut
    }
}
