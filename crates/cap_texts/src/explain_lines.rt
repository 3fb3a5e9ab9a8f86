//! The text that explains a capability.

ghost use Rattle.std.specs.Prelude.{◌≡◌, ◌+◌, ◌≤◌, ◌++◌, codes, length, take, drop};
ghost use Rattle.cap_word.specs.{Digits.hex_digits, Memory.memory_of};
ghost use Rattle.cap_streams.specs.Written.{Writes};
ghost use Rattle.cap_texts.specs.ExplainLines.{bounds_lines, explain_lines, mantissa_lines, permission_lines};
ghost use Rattle.cap_texts.specs.{ExplainLines.{type_name, word_lines}, TextLines.{bytes_text, text_line}};

use crate::text_lines::{put_answer_line, put_decimal_line, put_hex_line, put_line};
use cap_bounds::{Interval, bounds, mantissa, sound};
use cap_log::buffers::{put, put_hex};
use cap_ops::{GREATEST_TYPE, UNSEALED_TYPE, perm_view};
use cap_word::{Word, split, to_memory, word_text};

/// Writes the fifteen lines that explain a capability at the front of the buffer, and answers their
/// length. The rest of the buffer stays as it was.
///
/// ```rust
/// let mut buffer = [0; 512];
/// let length = explain_text(Word(0xffff1ffffc0180040000000000000000), true, &mut buffer);
/// assert!(rt; buffer[..length].starts_with(b"word ffff1ffffc0180040000000000000000\n"));
/// ```
pub fn explain_text(word: Word, tag: bool, buffer: &mut [u8; 512]) -> usize
    ensures lines { take result buffer.new ≡ explain_lines word.0 tag }
    ensures length { result ≡ length (explain_lines word.0 tag) }
    ensures fits { result ≤ 512 }
    ensures rest { drop result buffer.new ≡ drop result buffer.old }
{
    let at = put_word_lines(buffer, 0, word, tag);
    let at = put_permission_lines(buffer, at, word);
    let at = put_mantissa_lines(buffer, at, word);
    put_bounds_lines(buffer, at, word)
}

// Writes the word, its bytes in memory and the tag.
#[tactic(auto, unfolding(crate::specs::ExplainLines::word_lines))]
fn put_word_lines(buffer: &mut [u8], at: usize, word: Word, tag: bool) -> usize
    requires { at + 128 ≤ length buffer.old }
    ensures written { Writes at (word_lines word.0 tag) buffer.old buffer.new result }
    ensures fits { result ≤ at + 128 }
{
    let at = put_line(buffer, at, b"word", &word_text(word));
    let at = put_line(buffer, at, b"memory", &memory_text(word));
    put_decimal_line(buffer, at, b"tag", u64::from(tag))
}

// Writes the permissions, the object type, the flag and the reserved bits.
#[tactic(auto, unfolding(crate::specs::ExplainLines::permission_lines))]
fn put_permission_lines(buffer: &mut [u8], at: usize, word: Word) -> usize
    requires { at + 128 ≤ length buffer.old }
    ensures written { Writes at (permission_lines word.0) buffer.old buffer.new result }
    ensures fits { result ≤ at + 128 }
{
    let fields = split(word);
    let at = put_hex_line(buffer, at, b"perms", 8, u128::from(perm_view(word)));
    let at = put_type_line(buffer, at, fields.otype);
    let at = put_decimal_line(buffer, at, b"flag", u64::from(fields.flag));
    put_decimal_line(buffer, at, b"reserved", u64::from(fields.reserved))
}

// Writes the exponent bit, the exponent and the mantissas.
#[tactic(auto, unfolding(crate::specs::ExplainLines::mantissa_lines))]
fn put_mantissa_lines(buffer: &mut [u8], at: usize, word: Word) -> usize
    requires { at + 128 ≤ length buffer.old }
    ensures written { Writes at (mantissa_lines word.0) buffer.old buffer.new result }
    ensures fits { result ≤ at + 128 }
{
    let fields = split(word);
    let at = put_decimal_line(buffer, at, b"ie", u64::from(fields.ie));
    let at = put_decimal_line(buffer, at, b"e", u64::from(fields.e));
    let at = put_hex_line(buffer, at, b"b", 4, u128::from(fields.b));
    put_hex_line(buffer, at, b"t", 4, u128::from(mantissa(&fields)))
}

// Writes the address, the bounds and whether they are sound.
fn put_bounds_lines(buffer: &mut [u8], at: usize, word: Word) -> usize
    requires { at + 128 ≤ length buffer.old }
    ensures written { Writes at (bounds_lines word.0) buffer.old buffer.new result }
    ensures fits { result ≤ at + 128 }
{
    let Interval { base, top } = bounds(word);
    let at = put_hex_line(buffer, at, b"address", 16, u128::from(split(word).address));
    let at = put_hex_line(buffer, at, b"base", 16, u128::from(base));
    let at = put_hex_line(buffer, at, b"top", 17, top);
    put_answer_line(buffer, at, b"sound", sound(word))
}

// Writes an object type, and what it stands for.
#[tactic(auto, unfolding(crate::specs::TextLines::text_line))]
fn put_type_line(buffer: &mut [u8], at: usize, otype: u32) -> usize
    requires { at + 21 ≤ length buffer.old }
    ensures written { Writes at (text_line (codes "otype") (hex_digits 5 otype ++ codes " " ++ type_name otype)) buffer.old buffer.new result }
    ensures fits { result ≤ at + 21 }
{
    let at = put(buffer, at, b"otype ");
    let at = put_hex(buffer, at, 5, u128::from(otype));
    let at = put(buffer, at, b" ");
    let at = put(buffer, at, type_name(otype).as_bytes());
    put(buffer, at, b"\n")
}

/// What an object type stands for.
pub(crate) fn type_name(otype: u32) -> &'static str
    ensures name { result.now ≡ type_name otype }
    ensures short { length result.now ≤ 8 }
{
    if otype == UNSEALED_TYPE {
        "unsealed"
    } else if otype > GREATEST_TYPE {
        "reserved"
    } else {
        "sealed"
    }
}

/// The bytes of a word in memory, in order of address: two digits for each.
pub fn memory_text(word: Word) -> [u8; 32]
    ensures text { result ≡ bytes_text (memory_of word.0) }
{
    let mut text = [0u8; 32];
    let _written = hex::encode_to_slice(to_memory(word), &mut text);
    text
}
