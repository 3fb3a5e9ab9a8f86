//! Decimal numbers.

ghost use Rattle.std.specs.Prelude.{◌≡◌, ◌↔◌, IsTrue, ◌<◌, ◌≤◌, ◌^◌, IfSome, IfNone, decimal, length};
ghost use Rattle.cap_log.specs.Parts.{Begins, BeginsWithNone, IsCount, IsEnd, IsFrom, IsFrontNumber};
ghost use Rattle.cap_log.specs.SpacelessLaws.{decimal-spaceless};

use crate::buffers::put_decimal;
use crate::parts::{Part, Single};

/// A count: a decimal number, with no sign and no leading zero.
impl Part for u32 {
    ghost fits = { IsCount };

    ghost spelled = { decimal };

    #[inline(always)]
    fn take(bytes: &[u8], end: u8) -> Option<(u32, &[u8])> {
        take_decimal::<10, 0, 0x1_0000_0000>(bytes, end)
    }

    fn write(&self, buffer: &mut [u8], at: usize) -> usize {
        put_decimal(buffer, at, u64::from(*self))
    }
}

impl Single for u32 {
    ghost spaceless = { decimal-spaceless };
}

/// Takes a decimal number from `LEAST` on and below `BOUND`, which leaves it `MOST` digits at most, with no
/// sign and no leading zero, and the byte that ends it.
#[inline(always)]
pub fn take_decimal<const MOST: usize, const LEAST: u64, const BOUND: u64>(
    bytes: &[u8],
    end: u8,
) -> Option<(u32, &[u8])>
    requires end { IsEnd end }
    requires some { 0 < MOST }
    requires few { MOST ≤ 10 }
    requires bound { BOUND ≤ 10 ^ MOST }
    requires small { BOUND ≤ 2 ^ 32 }
    ensures some { IfSome result (λ p. Begins (IsFrom LEAST BOUND) decimal end bytes.now p.0 p.1.now) }
    ensures none { IfNone result (BeginsWithNone (IsFrom LEAST BOUND) decimal end bytes.now) }
{
    let (value, count) = front_digits(bytes, MOST);
    if count >= bytes.len() {
        return None;
    }
    if !is_number::<LEAST>(
        bytes[0],
        count,
        bytes[count] == end,
        (LEAST <= value) & (value < BOUND),
    ) {
        return None;
    }
    Some((value as u32, &bytes[count + 1..]))
}

// Whether so many digits, of which this is the first, are a number's, where the byte after them ends it or
// not, and it lies in its range or not. In a range without 0 no number has 0 as its first digit.
#[inline(always)]
fn is_number<const LEAST: u64>(first: u8, count: usize, is_ended: bool, is_in_range: bool) -> bool
    requires above_0 { 0 < LEAST → IsTrue is_in_range → (0 < count) × (first ≡ 48 → count ≡ 1 → ⊥) }
    ensures { IsTrue result ↔ (0 < count) × IsTrue is_ended × IsTrue is_in_range × ((first ≡ 48) → (count ≡ 1)) }
{
    if LEAST > 0 {
        is_ended && is_in_range && first != b'0'
    } else {
        count > 0 && is_ended && is_in_range && (first != b'0' || count == 1)
    }
}

// The number that the digits at the front spell, so many at most, and how many they are.
#[inline(always)]
fn front_digits(bytes: &[u8], most: usize) -> (u64, usize)
    requires { most ≤ 10 }
    ensures front { IsFrontNumber most bytes.now result.0 result.1 }
{
    if most == 4 {
        if let Some((front, _)) = bytes.split_first_chunk::<4>() {
            return four_digits(front);
        }
    }
    if most < bytes.len() {
        digits_within(bytes, most)
    } else {
        few_digits(bytes)
    }
}

// The same where as many bytes as digits stand there at most.
#[inline(never)]
fn few_digits(bytes: &[u8]) -> (u64, usize)
    requires { length bytes.now ≤ 10 }
    ensures front { IsFrontNumber (length bytes.now) bytes.now result.0 result.1 }
{
    digits_within(bytes, bytes.len())
}

// The same where so many bytes stand there.
#[inline(always)]
fn digits_within(bytes: &[u8], most: usize) -> (u64, usize)
    requires few { most ≤ 10 }
    requires inside { most ≤ length bytes.now }
    ensures front { IsFrontNumber most bytes.now result.0 result.1 }
{
    let mut value: u64 = 0;
    for index in 0..most {
        if !bytes[index].is_ascii_digit() {
            return (value, index);
        }
        value = value * 10 + u64::from(bytes[index] - b'0');
    }
    (value, most)
}

// What moves so many digits at the front of four bytes to their end.
const SHIFTS: [u32; 5] = [0, 1 << 24, 1 << 16, 1 << 8, 1];

// The same of four bytes, taken as one number: without a branch on how many are digits, which often can't be predicted.
#[inline(always)]
fn four_digits(front: &[u8; 4]) -> (u64, usize)
    ensures front { IsFrontNumber 4 front.now result.0 result.1 }
{
    // Each byte that is a digit is its value, and each other one is more than 9.
    let values = u32::from_le_bytes(*front) ^ 0x3030_3030;
    // The highest bit of each byte is set if it is no digit, up to the first such byte. What follows that has no meaning.
    let wide = u64::from(values);
    let others = (wide + 0x7676_7676 | wide) & 0x8080_8080;
    let count = ((others | 1 << 39).trailing_zeros() / 8) as usize;
    // The digits as the last bytes, with zeros before them; then pairs of them, in every second byte.
    let digits = values.wrapping_mul(SHIFTS[count]);
    let pairs = ((u64::from(digits) * 2561) >> 8).to_le_bytes();
    (100 * u64::from(pairs[0]) + u64::from(pairs[2]), count)
}
