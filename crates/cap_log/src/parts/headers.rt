//! The version and the mode of a log.

ghost use Rattle.std.specs.Prelude.{decimal};
ghost use Rattle.cap_log.specs.{Lines.{IsVersion, mode_spelling}, Parts.IsMode};

use crate::buffers::{put, put_few};
use crate::lines::Mode;
use crate::parts::Part;
use crate::parts::fronts::strip_word;

/// The version of a log, 1 or 2.
#[derive(Clone, Copy)]
pub struct Version(pub u8);

impl Part for Version {
    ghost fits = { λ version. IsVersion version.0 };

    ghost spelled = { λ version. decimal version.0 };

    fn take(bytes: &[u8], end: u8) -> Option<(Version, &[u8])> {
        if let Some(rest) = strip_word(bytes, b"1", end) {
            return Some((Version(1), rest));
        }
        let rest = strip_word(bytes, b"2", end)?;
        Some((Version(2), rest))
    }

    fn write(&self, buffer: &mut [u8], at: usize) -> usize {
        put_few(buffer, at, u16::from(self.0))
    }
}

impl Part for Mode {
    ghost fits = { IsMode };

    ghost spelled = { mode_spelling };

    fn take(bytes: &[u8], end: u8) -> Option<(Mode, &[u8])> {
        if let Some(rest) = strip_word(bytes, b"strict", end) {
            return Some((Mode::Strict, rest));
        }
        let rest = strip_word(bytes, b"clear", end)?;
        Some((Mode::Clear, rest))
    }

    fn write(&self, buffer: &mut [u8], at: usize) -> usize {
        match self {
            Mode::Strict => put(buffer, at, b"strict"),
            Mode::Clear => put(buffer, at, b"clear"),
        }
    }
}
