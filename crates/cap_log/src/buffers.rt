//! Texts in a buffer of the caller's, one piece after another.

ghost use Rattle.std.specs.Prelude.{◌≡◌, ◌+◌, ◌<◌, ◌≤◌, length, decimal};
ghost use Rattle.cap_word.specs.Digits.{hex_digits};
ghost use Rattle.cap_log.specs.Lines.{place_spelling, tag_spelling};
ghost use Rattle.cap_streams.specs.Written.{Writes};

use crate::lines::Place;
use cap_word::{Word, word_text};

/// Writes a text at an index of the buffer, and returns the index after it. Nothing else of the buffer
/// changes.
#[inline(always)]
pub fn put(buffer: &mut [u8], at: usize, text: &[u8]) -> usize
    requires { at + length text.now ≤ length buffer.old }
    ensures written { Writes at text.now buffer.old buffer.new result }
{
    let end = at + text.len();
    buffer[at..end].copy_from_slice(text);
    end
}

/// Writes a number in decimal at an index of the buffer, and returns the index after it. Nothing else
/// of the buffer changes.
pub fn put_decimal(buffer: &mut [u8], at: usize, number: u64) -> usize
    requires { at + length (decimal number) ≤ length buffer.old }
    ensures text { Writes at (decimal number) buffer.old buffer.new result }
    ensures fits { result ≤ at + 20 }
    ensures short { number < 1000 → result ≤ at + 3 }
{
    let mut digits = itoa::Buffer::new();
    put(buffer, at, digits.format(number).as_bytes())
}

/// Writes a number below 10000 in decimal at an index of the buffer, as [`put_decimal`] does.
#[inline(always)]
pub(crate) fn put_few(buffer: &mut [u8], at: usize, number: u16) -> usize
    requires small { number < 10000 }
    requires room { at + length (decimal number) ≤ length buffer.old }
    ensures { Writes at (decimal number) buffer.old buffer.new result }
{
    if number < 10 {
        put(buffer, at, &[digit(number)])
    } else if number < 100 {
        put(buffer, at, &[digit(number / 10), digit(number % 10)])
    } else if number < 1000 {
        let digits = [
            digit(number / 100),
            digit(number / 10 % 10),
            digit(number % 10),
        ];
        put(buffer, at, &digits)
    } else {
        let digits = [
            digit(number / 1000),
            digit(number / 100 % 10),
            digit(number / 10 % 10),
            digit(number % 10),
        ];
        put(buffer, at, &digits)
    }
}

// A decimal digit.
#[inline(always)]
fn digit(value: u16) -> u8
    requires { value < 10 }
    ensures { result ≡ 48 + value }
{
    b'0' + value as u8
}

/// Writes the last lower-case hexadecimal digits of a number, as many as `digits`, at an index of the
/// buffer, and returns the index after them. Nothing else of the buffer changes.
pub fn put_hex(buffer: &mut [u8], at: usize, digits: usize, number: u128) -> usize
    requires few { digits ≤ 32 }
    requires room { at + digits ≤ length buffer.old }
    ensures text { Writes at (hex_digits digits number) buffer.old buffer.new result }
    ensures end { result ≡ at + digits }
{
    // The text of a word is the 32 digits of its number.
    let text = word_text(Word(number));
    put(buffer, at, &text[32 - digits..])
}

/// Writes a tag, or another yes or no, as a digit at an index of the buffer, and returns the index after it. Nothing
/// else of the buffer changes.
pub fn put_flag(buffer: &mut [u8], at: usize, flag: bool) -> usize
    requires { at + 1 ≤ length buffer.old }
    ensures written { Writes at (tag_spelling flag) buffer.old buffer.new result }
    ensures end { result ≡ at + 1 }
{
    put(buffer, at, if flag { b"1" } else { b"0" })
}

/// Writes a place as a log spells it at an index of the buffer, and returns the index after it: any register,
/// and any granule. Nothing else of the buffer changes.
#[tactic(auto, using(crate::proofs::ElementLemmas::few_digits))]
pub fn put_place(buffer: &mut [u8], at: usize, place: Place) -> usize
    requires room { at + 17 ≤ length buffer.old }
    ensures written { Writes at (place_spelling place) buffer.old buffer.new result }
    ensures fits { result ≤ at + 17 }
{
    match place {
        Place::Register(number) => {
            let next = put(buffer, at, b"c");
            put_few(buffer, next, u16::from(number))
        }
        Place::Granule(number) => {
            let next = put(buffer, at, b"@");
            put_hex(buffer, next, 16, 16 * u128::from(number))
        }
    }
}
