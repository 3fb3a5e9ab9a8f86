//! The end of an allocator's root.

ghost use Rattle.std.specs.Prelude.{◌≤◌, ◌^◌};
ghost use Rattle.cap_word.specs.Digits.{hex_digits};

use cap_log::buffers::put_hex;
use cap_log::{Part, strip_word};

/// The end of an allocator's root: seventeen hexadecimal digits of a number up to 2^64.
#[derive(Clone, Copy)]
pub struct Top(pub u128);

impl Part for Top {
    ghost fits = { λ top. top.0 ≤ 2 ^ 64 };

    ghost spelled = { λ top. hex_digits 17 top.0 };

    fn take(bytes: &[u8], end: u8) -> Option<(Top, &[u8])> {
        if let Some(low) = bytes.strip_prefix(b"0") {
            let (number, rest) = u64::take(low, end)?;
            return Some((Top(u128::from(number)), rest));
        }
        let rest = strip_word(bytes, b"10000000000000000", end)?;
        Some((Top(1 << 64), rest))
    }

    fn write(&self, buffer: &mut [u8], at: usize) -> usize {
        put_hex(buffer, at, 17, self.0)
    }
}
