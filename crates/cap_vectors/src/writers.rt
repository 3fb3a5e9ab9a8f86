//! Writing the one true line that has given operands.

ghost use Rattle.std.specs.Prelude.{◌≡◌, ◌+◌, ◌^◌, ◌≤◌, ◌++◌, Bool, length, take, codes, decimal};
ghost use Rattle.cap_word.specs.{Digits.hex_digits, Memory.memory_of};
ghost use Rattle.cap_bounds.specs.Bounds.{base_of, top_of};
ghost use Rattle.cap_bounds.specs.Rounding.{rounded_base, rounded_top, rounded_ie, rounded_exponent};
ghost use Rattle.cap_log.specs.Lines.{tag_spelling};
ghost use Rattle.cap_vectors.specs.Vectors.{Bounds, Keeps, Round, Memory, IsLineOf};

use cap_bounds::{Interval, Rounded, bounds, keeps_bounds, round, sound};
use cap_log::buffers::{put, put_decimal, put_flag, put_hex};
use cap_texts::memory_text;
use cap_word::Word;

/// Writes what a word decodes to at the front of the buffer, and answers the line's length.
pub fn write_bounds(word: Word, buffer: &mut [u8; 128]) -> usize
    ensures fits { result ≤ 128 }
    ensures line { (answer : Bool) × IsLineOf (take result buffer.new) (Bounds word.0 (base_of word.0) (top_of word.0) answer) }
{
    let Interval { base, top } = bounds(word);
    let at = put(buffer, 0, b"bounds ");
    let at = put_hex(buffer, at, 32, word.0);
    let at = put(buffer, at, b" = ");
    let at = put_hex(buffer, at, 16, u128::from(base));
    let at = put(buffer, at, b" ");
    let at = put_hex(buffer, at, 17, top);
    let at = put(buffer, at, b" ");
    put_flag(buffer, at, sound(word))
}

/// Writes whether an address keeps a word's bounds at the front of the buffer, and answers the line's length.
pub fn write_keeps(word: Word, address: u64, buffer: &mut [u8; 128]) -> usize
    ensures fits { result ≤ 128 }
    ensures line { (answer : Bool) × IsLineOf (take result buffer.new) (Keeps word.0 address answer) }
{
    let at = put(buffer, 0, b"keeps ");
    let at = put_hex(buffer, at, 32, word.0);
    let at = put(buffer, at, b" ");
    let at = put_hex(buffer, at, 16, u128::from(address));
    let at = put(buffer, at, b" = ");
    put_flag(buffer, at, keeps_bounds(word, address))
}

/// Writes how a request is rounded at the front of the buffer, and answers the line's length.
pub fn write_round(base: u64, length: u64, buffer: &mut [u8; 128]) -> usize
    requires { base + length ≤ 2 ^ 64 }
    ensures fits { result ≤ 128 }
    ensures line { (answer : Bool) × IsLineOf (take result buffer.new)
        (Round base length (rounded_base base length) (rounded_top base length) (rounded_ie length) (rounded_exponent base length) answer) }
{
    let at = put(buffer, 0, b"round ");
    let at = put_hex(buffer, at, 16, u128::from(base));
    let at = put(buffer, at, b" ");
    let at = put_hex(buffer, at, 16, u128::from(length));
    put_rounded(buffer, at, &round(base, length))
}

// Writes what a request is rounded to.
#[tactic(auto, using(cap_log::proofs::ElementLemmas::short_decimal))]
fn put_rounded(buffer: &mut [u8; 128], at: usize, rounded: &Rounded) -> usize
    requires { at ≤ 64 }
    ensures fits { result ≤ at + 64 }
    ensures written { take result buffer.new ≡ take at buffer.old ++ codes " = " ++ hex_digits 16 rounded.now.base ++ codes " "
        ++ hex_digits 17 rounded.now.top ++ codes " " ++ tag_spelling rounded.now.ie ++ codes " " ++ decimal rounded.now.e ++ codes " "
        ++ tag_spelling rounded.now.exact }
{
    let at = put(buffer, at, b" = ");
    let at = put_hex(buffer, at, 16, u128::from(rounded.base));
    let at = put(buffer, at, b" ");
    let at = put_hex(buffer, at, 17, rounded.top);
    let at = put(buffer, at, b" ");
    let at = put_flag(buffer, at, rounded.ie);
    let at = put(buffer, at, b" ");
    let at = put_decimal(buffer, at, u64::from(rounded.e));
    let at = put(buffer, at, b" ");
    put_flag(buffer, at, rounded.exact)
}

/// Writes the bytes of a word in memory at the front of the buffer, and answers the line's length.
pub fn write_memory(word: Word, buffer: &mut [u8; 128]) -> usize
    ensures fits { result ≤ 128 }
    ensures line { IsLineOf (take result buffer.new) (Memory word.0 (memory_of word.0)) }
{
    let at = put(buffer, 0, b"memory ");
    let at = put_hex(buffer, at, 32, word.0);
    let at = put(buffer, at, b" = ");
    put(buffer, at, &memory_text(word))
}
