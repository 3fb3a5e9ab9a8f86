//! Up to sixteen hexadecimal digits, read and written at once as one vector.

ghost use Rattle.std.specs.Prelude.{◌≡◌, ℕ, ◌<◌, ◌≤◌, ◌^◌, take, IfSome, IfNone, ◌+◌, ◌*◌};
ghost use Rattle.cap_word.specs.Digits.{hex_digits};

use std::simd::prelude::*;

// The digit of each value.
const DIGITS: [u8; 16] = *b"0123456789abcdef";

/// The number of `size` bytes, at most eight, that the lower-case digits at the front of a text spell, two for each
/// byte; `None` if there is another byte among them. All sixteen bytes are read, since a vector is read fastest as
/// a whole, and those after the digits are ignored.
#[inline(always)]
pub(crate) fn read_front(text: &[u8; 16], size: u8) -> Option<u64>
    requires at_least { 1 ≤ size }
    requires at_most { size ≤ 8 }
    ensures fits { IfSome result (λ n. n < 256 ^ size) }
    ensures some { IfSome result (λ n. take (2 * size) text.now ≡ hex_digits (2 * size) n) }
    ensures none { IfNone result ((n : ℕ) → n < 256 ^ size → take (2 * size) text.now ≡ hex_digits (2 * size) n → ⊥) }
{
    let bytes = u8x16::from_array(*text);
    // It is nothing for `0` to `9`, and nine for a letter, whose low four bits are nine less than its value.
    let more = bytes
        .saturating_sub(u8x16::splat(b'9'))
        .simd_min(u8x16::splat(9));
    // The value of each byte, if it is a digit.
    let values = (bytes + more) & u8x16::splat(15);
    // Bytes that differ from the digit of their value are no digits.
    let others = u8x16::from_array(DIGITS)
        .swizzle_dyn(values)
        .simd_ne(bytes)
        .to_bitmask();
    if others % (1 << (2 * size)) == 0 {
        // The bytes that pairs of digits spell.
        let high = values.swizzle([0, 2, 4, 6, 8, 10, 12, 14]);
        let low = values.swizzle([1, 3, 5, 7, 9, 11, 13, 15]);
        let spelled = (high << u8x8::splat(4) | low).to_array();
        Some(u64::from_be_bytes(spelled) >> (64 - 8 * size))
    } else {
        None
    }
}

/// The sixteen lower-case hexadecimal digits of a number, most significant first.
#[inline(always)]
pub fn number_text(number: u64) -> [u8; 16]
    ensures digits { result ≡ hex_digits 16 number }
{
    // The most significant first. It is one vector from the start, so that no byte is shifted out by itself.
    let bytes = u64x1::splat(number)
        .to_le_bytes()
        .swizzle([7, 6, 5, 4, 3, 2, 1, 0]);
    let high = bytes >> u8x8::splat(4);
    // One mask serves both digits of each byte.
    let values = high.shuffle(
        bytes,
        [0, 8, 1, 9, 2, 10, 3, 11, 4, 12, 5, 13, 6, 14, 7, 15],
    ) & u8x16::splat(15);
    u8x16::from_array(DIGITS).swizzle_dyn(values).to_array()
}
