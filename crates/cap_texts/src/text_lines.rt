//! Lines that name a value: a name, a space, the value and a line feed, one after another in a buffer.

ghost use Rattle.std.specs.Prelude.{◌+◌, ◌<◌, ◌≤◌, length, decimal};
ghost use Rattle.cap_word.specs.Digits.{hex_digits};
ghost use Rattle.cap_streams.specs.Written.{Writes};
ghost use Rattle.cap_texts.specs.TextLines.{says_line, text_line, yes_or_no};

use cap_log::buffers::{put, put_decimal, put_hex};

/// Writes a line whose value is text at an index of the buffer, and returns the index after it. Nothing
/// else of the buffer changes.
#[tactic(auto, unfolding(crate::specs::TextLines::text_line))]
pub fn put_line(buffer: &mut [u8], at: usize, name: &[u8], value: &[u8]) -> usize
    requires { at + length name.now + length value.now + 2 ≤ length buffer.old }
    ensures written { Writes at (text_line name.now value.now) buffer.old buffer.new result }
    ensures fits { result ≤ at + length name.now + length value.now + 2 }
{
    let at = put(buffer, at, name);
    let at = put(buffer, at, b" ");
    let at = put(buffer, at, value);
    put(buffer, at, b"\n")
}

/// Writes a sentence as the last line of a report, as [`put_line`] does.
#[tactic(auto, unfolding(crate::specs::TextLines::says_line))]
pub fn put_says(buffer: &mut [u8], at: usize, sentence: &[u8]) -> usize
    requires { at + length sentence.now + 6 ≤ length buffer.old }
    ensures written { Writes at (says_line sentence.now) buffer.old buffer.new result }
    ensures fits { result ≤ at + length sentence.now + 6 }
{
    let at = put(buffer, at, b"says ");
    let at = put(buffer, at, sentence);
    put(buffer, at, b"\n")
}

/// Writes a line whose value is a number of so many hexadecimal digits, as [`put_line`] does.
#[tactic(auto, unfolding(crate::specs::TextLines::text_line))]
pub fn put_hex_line(buffer: &mut [u8], at: usize, name: &[u8], digits: usize, number: u128) -> usize
    requires few { digits ≤ 32 }
    requires room { at + length name.now + digits + 2 ≤ length buffer.old }
    ensures written { Writes at (text_line name.now (hex_digits digits number)) buffer.old buffer.new result }
    ensures fits { result ≤ at + length name.now + digits + 2 }
{
    let at = put(buffer, at, name);
    let at = put(buffer, at, b" ");
    let at = put_hex(buffer, at, digits, number);
    put(buffer, at, b"\n")
}

/// Writes a line whose value is a number in decimal, as [`put_line`] does.
#[tactic(auto, using(cap_log::proofs::ElementLemmas::short_decimal), unfolding(crate::specs::TextLines::text_line))]
pub fn put_decimal_line(buffer: &mut [u8], at: usize, name: &[u8], number: u64) -> usize
    requires { at + length name.now + 22 ≤ length buffer.old }
    ensures written { Writes at (text_line name.now (decimal number)) buffer.old buffer.new result }
    ensures fits { result ≤ at + length name.now + 22 }
    ensures short { number < 1000 → result ≤ at + length name.now + 5 }
{
    let at = put(buffer, at, name);
    let at = put(buffer, at, b" ");
    let at = put_decimal(buffer, at, number);
    put(buffer, at, b"\n")
}

/// Writes a line whose value is `yes` or `no`, as [`put_line`] does.
pub fn put_answer_line(buffer: &mut [u8], at: usize, name: &[u8], answer: bool) -> usize
    requires { at + length name.now + 5 ≤ length buffer.old }
    ensures written { Writes at (text_line name.now (yes_or_no answer)) buffer.old buffer.new result }
    ensures fits { result ≤ at + length name.now + 5 }
{
    let value: &[u8] = if answer { b"yes" } else { b"no" };
    put_line(buffer, at, name, value)
}
