//! The line at which a judge stopped.

ghost use Rattle.std.specs.Prelude.{◌≡◌, ◌≤◌, [], length};

use crate::lines::Front;

/// The bytes of the faulty line, without its line feed: the first 96 if no line feed comes by then, or those up to
/// the end of the input.
#[derive(Clone, Copy)]
pub struct FaultLine {
    bytes: [u8; 96],
    length: usize,
    ghost fits: { length ≤ 96 },
}

impl FaultLine {
    ghost use Rattle.cap_streams.specs.{FaultLines.bytes_of, Front.{IsFront, IsFrontText}};

    /// No bytes.
    pub fn new() -> FaultLine
        ensures value { bytes_of result ≡ [] }
    {
        FaultLine {
            bytes: [0; 96],
            length: 0,
        }
    }

    /// The line that was found at the front of some bytes. It stays out of the loop over lines, which runs no slower
    /// for it.
    #[inline(never)]
    pub fn of_front(found: Front, bytes: &[u8]) -> FaultLine
        requires found { IsFront bytes.now found }
        ensures front { IsFrontText bytes.now (bytes_of result) }
    {
        let length = match found {
            Front::Line(length) => length,
            Front::TooLong => 96,
            Front::Cut => bytes.len(),
        };
        let mut line = [0; 96];
        line[..length].copy_from_slice(&bytes[..length]);
        FaultLine {
            bytes: line,
            length,
        }
    }

    /// The bytes.
    pub fn as_slice(&self) -> &[u8]
        ensures value { result.now ≡ bytes_of self.now }
        ensures few { length result.now ≤ 96 }
    {
        &self.bytes[..self.length]
    }
}
