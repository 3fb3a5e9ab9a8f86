//! Numbers in sixteen hexadecimal digits.

ghost use Rattle.std.specs.Prelude.{◌+◌, ◌≤◌, length};
ghost use Rattle.cap_word.specs.Digits.{hex_digits};
ghost use Rattle.cap_log.specs.{Lines.IsNumber, SpacelessLaws.number-spaceless};
ghost use Rattle.cap_streams.specs.Written.{Writes};

use crate::buffers::put;
use crate::parts::{Part, Single};
use cap_word::{number_text, read_u64};

/// How many digits a number has.
const NUMBER_DIGITS: usize = 16;

/// A length, an address or a mask: sixteen hexadecimal digits.
impl Part for u64 {
    ghost fits = { IsNumber };

    ghost spelled = { hex_digits 16 };

    #[inline(always)]
    fn take(bytes: &[u8], end: u8) -> Option<(u64, &[u8])> {
        if bytes.len() <= NUMBER_DIGITS || bytes[NUMBER_DIGITS] != end {
            return None;
        }
        let number = read_u64(&bytes[..NUMBER_DIGITS])?;
        Some((number, &bytes[NUMBER_DIGITS + 1..]))
    }

    #[inline(always)]
    fn write(&self, buffer: &mut [u8], at: usize) -> usize {
        write_number(buffer, at, *self)
    }
}

impl Single for u64 {
    ghost spaceless = { λ number fits. number-spaceless number };
}

/// Writes a number in sixteen hexadecimal digits.
#[inline(always)]
pub fn write_number(buffer: &mut [u8], at: usize, number: u64) -> usize
    requires { at + 16 ≤ length buffer.old }
    ensures written { Writes at (hex_digits 16 number) buffer.old buffer.new result }
{
    put(buffer, at, &number_text(number))
}
