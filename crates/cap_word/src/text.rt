//! Words and numbers of up to 64 bits as text: a fixed number of lower-case hexadecimal digits.

ghost use Rattle.std.specs.Prelude.{◌≡◌, ◌↔◌, ℕ, ◌*◌, ◌<◌, ◌≤◌, ◌^◌, List, ◌++◌, length, take, Some, IsSome, IsSomeAnd};
ghost use Rattle.std.specs.Prelude.{IfSome, IfNone};
ghost use Rattle.cap_word.specs.Digits.{AreHexDigits, hex_digits};

use crate::digits::{number_text, read_front};
use crate::word::Word;

/// Reads a word from its text, the 32 lower-case hexadecimal digits of its register layout, most
/// significant first. Anything else, an upper-case digit among them, is `None`.
#[inline(always)]
pub fn read_word(text: &[u8]) -> Option<Word>
    ensures some { IfSome result (λ word. text.now ≡ hex_digits 32 word.0) }
    ensures none { IfNone result ((n : ℕ) → n < 2 ^ 128 → text.now ≡ hex_digits 32 n → ⊥) }

    // That is: 32 bytes, each of them `0` to `9` or `a` to `f`. The text of a word is read as this word.
    ensures digits { IsSome result ↔ AreHexDigits 32 text.now }
    ensures reads_back { (n : ℕ) → n < 2 ^ 128 → text.now ≡ hex_digits 32 n → IsSomeAnd result (λ word. word.0 ≡ n) }
{
    let (high, rest) = text.split_first_chunk::<16>()?;
    let (low, rest) = rest.split_first_chunk::<16>()?;
    if !rest.is_empty() {
        return None;
    }
    let high = read_front(high, 8)?;
    let low = read_front(low, 8)?;
    Some(Word((u128::from(high) << 64) + u128::from(low)))
}

/// The text of a word: the 32 lower-case hexadecimal digits of its register layout.
#[inline(always)]
pub fn word_text(word: Word) -> [u8; 32]
    ensures digits { result ≡ hex_digits 32 word.0 }
{
    let mut text = [0u8; 32];
    text[..16].copy_from_slice(&number_text((word.0 >> 64) as u64));
    text[16..].copy_from_slice(&number_text((word.0 % (1 << 64)) as u64));
    text
}

/// Reads a number of 64 bits from sixteen lower-case hexadecimal digits, most significant first.
/// Anything else is `None`.
#[inline(always)]
pub fn read_u64(text: &[u8]) -> Option<u64>
    ensures some { IfSome result (λ n. text.now ≡ hex_digits 16 n) }
    ensures none { IfNone result ((n : ℕ) → n < 2 ^ 64 → text.now ≡ hex_digits 16 n → ⊥) }

    // That is: sixteen bytes, each of them `0` to `9` or `a` to `f`. The digits of a number are read as it.
    ensures digits { IsSome result ↔ AreHexDigits 16 text.now }
    ensures reads_back { (n : ℕ) → n < 2 ^ 64 → text.now ≡ hex_digits 16 n → result ≡ Some n }
{
    let (number, rest) = take_bytes(text, 8)?;
    if rest.is_empty() { Some(number) } else { None }
}

/// Takes a number of `size` bytes, at most eight, from the front of some bytes: two lower-case hexadecimal digits
/// for each byte, most significant first. Returns the number and the bytes after it, or `None` if the bytes don't
/// begin with such digits.
#[inline(always)]
pub fn take_bytes(bytes: &[u8], size: u8) -> Option<(u64, &[u8])>
    requires at_least { 1 ≤ size }
    requires at_most { size ≤ 8 }
    ensures fits { IfSome result (λ p. p.0 < 256 ^ size) }
    ensures some { IfSome result (λ p. bytes.now ≡ hex_digits (2 * size) p.0 ++ p.1.now) }
    ensures none { IfNone result ((n : ℕ) (rest : List ℕ) → n < 256 ^ size
        → bytes.now ≡ hex_digits (2 * size) n ++ rest → ⊥) }
{
    let count = usize::from(2 * size);
    if bytes.len() < count {
        return None;
    }
    let number = front_number(bytes, size)?;
    Some((number, &bytes[count..]))
}

// The number that the digits at the front of some bytes spell. They are read in place where sixteen bytes
// stand there, as they mostly do.
#[inline(always)]
fn front_number(bytes: &[u8], size: u8) -> Option<u64>
    requires at_least { 1 ≤ size }
    requires at_most { size ≤ 8 }
    requires long { 2 * size ≤ length bytes.now }
    ensures fits { IfSome result (λ n. n < 256 ^ size) }
    ensures some { IfSome result (λ n. take (2 * size) bytes.now ≡ hex_digits (2 * size) n) }
    ensures none { IfNone result ((n : ℕ) → n < 256 ^ size → take (2 * size) bytes.now ≡ hex_digits (2 * size) n → ⊥) }
{
    if let Some((text, _)) = bytes.split_first_chunk::<16>() {
        read_front(text, size)
    } else {
        read_front(&widened(bytes), size)
    }
}

// A text of sixteen bytes that begins with these.
#[inline(never)]
fn widened(bytes: &[u8]) -> [u8; 16]
    requires { length bytes.now ≤ 16 }
    ensures { take (length bytes.now) result ≡ bytes.now }
{
    let mut text = [0u8; 16];
    text[..bytes.len()].copy_from_slice(bytes);
    text
}
