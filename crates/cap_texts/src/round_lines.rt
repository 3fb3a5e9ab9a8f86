//! The text of a rounding.

ghost use Rattle.std.specs.Prelude.{◌≡◌, ◌≤◌, length, take, drop};
ghost use Rattle.cap_texts.specs.TextLines.{round_lines};

use crate::text_lines::{put_answer_line, put_decimal_line, put_hex_line};
use cap_bounds::Rounded;

/// Writes the five lines of a rounding at the front of the buffer, and answers their length. The rest of
/// the buffer stays as it was.
///
/// ```rust
/// let mut buffer = [0; 128];
/// let length = round_text(&round(1, 0x1fff), &mut buffer);
/// assert!(rt; buffer[..length].ends_with(b"exact no\n"));
/// ```
pub fn round_text(rounded: &Rounded, buffer: &mut [u8; 128]) -> usize
    ensures lines { take result buffer.new ≡ round_lines rounded.now }
    ensures length { result ≡ length (round_lines rounded.now) }
    ensures fits { result ≤ 128 }
    ensures rest { drop result buffer.new ≡ drop result buffer.old }
{
    let at = put_hex_line(buffer, 0, b"base", 16, u128::from(rounded.base));
    let at = put_hex_line(buffer, at, b"top", 17, rounded.top);
    let at = put_decimal_line(buffer, at, b"ie", u64::from(rounded.ie));
    let at = put_decimal_line(buffer, at, b"e", u64::from(rounded.e));
    put_answer_line(buffer, at, b"exact", rounded.exact)
}
