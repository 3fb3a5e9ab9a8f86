//! The lines that say which word of a line is wrong, and what is expected there.

ghost use Rattle.std.specs.Prelude.{◌≡◌, ◌+◌, ◌-◌, ◌≤◌, ◌++◌, codes, length};
ghost use Rattle.cap_streams.specs.Written.{Writes};
ghost use Rattle.cap_texts.specs.{TextLines.text_line, WrongLines.{end_text, found_line, header_lines, hint_line}};
ghost use Rattle.cap_texts.specs.WrongLines.{count_hint, cut_hint, has_space, hint_of, mark_hint};
ghost use Rattle.cap_texts.specs.WrongLines.{place_hint, wrong_lines};

use crate::fields::{Field, Wrong, expected_text};
use crate::shown_bytes::put_shown_text;
use crate::text_lines::{put_decimal_line, put_line};
use cap_log::buffers::put;

/// The hint for a line that ends with a carriage return.
const CARRIAGE_RETURN: &[u8] = b"a carriage return ends the line: end lines with a line feed alone";

/// The hint for a line that ends with a space.
const LAST_SPACE: &[u8] = b"a space ends the line: end lines with a line feed alone";

/// What is expected of a line that is too long.
pub const SHORT_LINE: &[u8] = b"a line feed after at most 95 bytes";

/// What is expected of a log that is cut.
pub const WHOLE_LOG: &[u8] = b"an end line, and a line feed after each line";

/// Writes which word of a line is wrong at an index of the buffer, and returns the index after it: the column at
/// which the word begins, from 1 on, the line from there on, what is expected there, and a hint if the line ends
/// too early, has a space too many or ends with a carriage return. The length is that of the line with its line feed.
#[tactic(auto, unfolding(crate::specs::WrongLines::wrong_lines))]
pub fn put_wrong_lines(buffer: &mut [u8], at: usize, line_length: usize, wrong: Wrong<'_>) -> usize
    requires line { line_length ≤ 97 }
    requires few { length wrong.rest.now ≤ 97 }
    requires room { at + 768 ≤ length buffer.old }
    ensures written { Writes at (wrong_lines line_length wrong.entry.field wrong.entry.end wrong.entry.rest.now) buffer.old buffer.new result }
    ensures fits { result ≤ at + 768 }
{
    let column = line_length.saturating_sub(wrong.rest.len());
    let at = put_decimal_line(buffer, at, b"column", column as u64 + 1);
    let at = put_found_line(buffer, at, wrong.rest);
    let at = put_expected_line(buffer, at, expected_text(wrong.field), end_text(wrong.end));
    put_hint_line(buffer, at, hint_of(wrong))
}

/// Writes what a line of one form has to be, and a hint if it begins with a byte order mark or ends with a
/// carriage return.
#[tactic(auto, unfolding(crate::specs::WrongLines::header_lines))]
pub fn put_header_lines(buffer: &mut [u8], at: usize, text: &[u8], expected: &[u8]) -> usize
    requires few { length expected.now ≤ 64 }
    requires room { at + 256 ≤ length buffer.old }
    ensures written { Writes at (header_lines text.now expected.now) buffer.old buffer.new result }
    ensures fits { result ≤ at + 256 }
{
    put_hinted_line(buffer, at, expected, mark_hint(text))
}

/// Writes what is expected, and a hint if that isn't empty.
pub fn put_hinted_line(buffer: &mut [u8], at: usize, expected: &[u8], hint: &[u8]) -> usize
    requires few { length expected.now ≤ 64 }
    requires hint { length hint.now ≤ 80 }
    requires room { at + 256 ≤ length buffer.old }
    ensures written { Writes at (text_line (codes "expected") expected.now ++ hint_line hint.now) buffer.old buffer.new result }
    ensures fits { result ≤ at + 256 }
{
    let at = put_line(buffer, at, b"expected", expected);
    put_hint_line(buffer, at, hint)
}

// Writes a line from a wrong word on, if it has more than its line feed.
fn put_found_line(buffer: &mut [u8], at: usize, rest: &[u8]) -> usize
    requires few { length rest.now ≤ 97 }
    requires room { at + 395 ≤ length buffer.old }
    ensures written { Writes at (found_line rest.now) buffer.old buffer.new result }
    ensures fits { result ≤ at + 395 }
{
    if rest.len() > 1 {
        put_shown_text(buffer, at, b"found", &rest[..rest.len() - 1])
    } else {
        at
    }
}

// Writes what is expected, and what has to follow it.
#[tactic(auto, unfolding(crate::specs::TextLines::text_line))]
fn put_expected_line(buffer: &mut [u8], at: usize, field: &[u8], end: &[u8]) -> usize
    requires few { length field.now ≤ 160 }
    requires end { length end.now ≤ 24 }
    requires room { at + 194 ≤ length buffer.old }
    ensures written { Writes at (text_line (codes "expected") (field.now ++ end.now)) buffer.old buffer.new result }
    ensures fits { result ≤ at + 194 }
{
    let at = put(buffer, at, b"expected");
    let at = put(buffer, at, b" ");
    let at = put(buffer, at, field);
    let at = put(buffer, at, end);
    put(buffer, at, b"\n")
}

/// Writes a hint, or nothing if it is empty.
pub fn put_hint_line(buffer: &mut [u8], at: usize, hint: &[u8]) -> usize
    requires few { length hint.now ≤ 80 }
    requires room { at + 86 ≤ length buffer.old }
    ensures written { Writes at (hint_line hint.now) buffer.old buffer.new result }
    ensures fits { result ≤ at + 86 }
{
    if hint.is_empty() {
        at
    } else {
        put_line(buffer, at, b"hint", hint)
    }
}

// What has to follow a word.
fn end_text(end: u8) -> &'static [u8]
    ensures text { result.now ≡ end_text end }
    ensures short { length result.now ≤ 24 }
{
    if end == b'\n' {
        b", then the line's end"
    } else {
        b", then a space"
    }
}

// Whether a line has a space.
#[tactic(auto, unfolding(crate::specs::WrongLines::has_space))]
fn has_space(text: &[u8]) -> bool
    ensures value { result ≡ has_space text.now }
{
    match text.split_first() {
        Some((byte, bytes)) => *byte == b' ' || has_space(bytes),
        None => false,
    }
}

// Whether words are missing or too many.
fn count_hint(wrong: Wrong<'_>) -> &'static [u8]
    ensures text { result.now ≡ count_hint wrong.entry.field wrong.entry.end wrong.entry.rest.now }
    ensures short { length result.now ≤ 80 }
{
    let is_last = wrong.end == b'\n';
    match wrong.field {
        Field::LogName | Field::HeapName => b"",
        _ if is_last != has_space(wrong.rest) => b"",
        _ if is_last => b"the line has more words than its form",
        _ => b"the line ends too early",
    }
}

// What often makes a word wrong.
fn hint_of(wrong: Wrong<'_>) -> &'static [u8]
    ensures text { result.now ≡ hint_of wrong.entry.field wrong.entry.end wrong.entry.rest.now }
    ensures short { length result.now ≤ 80 }
{
    let rest = wrong.rest;
    if rest.len() <= 1 {
        b"the line ends too early"
    } else if rest[0] == b' ' {
        b"a space too many"
    } else if rest[rest.len() - 2] == b'\r' {
        CARRIAGE_RETURN
    } else if rest[rest.len() - 2] == b' ' {
        LAST_SPACE
    } else {
        count_hint(wrong)
    }
}

// What often makes the first line of a log wrong.
fn mark_hint(text: &[u8]) -> &'static [u8]
    ensures text { result.now ≡ mark_hint text.now }
    ensures short { length result.now ≤ 80 }
{
    if text.len() < 3 {
        return b"";
    }
    if text[0] == 0xef && text[1] == 0xbb && text[2] == 0xbf {
        return b"a byte order mark begins the log: write it without one";
    }
    if text[0] == b'#' {
        return b"a log has no comments";
    }
    if (text[0] == 0xff && text[1] == 0xfe) || (text[0] == 0xfe && text[1] == 0xff) {
        return b"the log is UTF-16, as a Windows shell writes it: write ASCII";
    }
    if text[0] == 0x1f && text[1] == 0x8b {
        return b"the log is packed by gzip: unpack it first";
    }
    match text[text.len() - 1] {
        b'\r' => CARRIAGE_RETURN,
        b' ' => LAST_SPACE,
        _ => b"",
    }
}

/// What a log lacks that ends within a line, by the bytes of that line.
pub fn cut_hint(text: &[u8]) -> &'static [u8]
    ensures text { result.now ≡ cut_hint text.now }
    ensures short { length result.now ≤ 80 }
{
    if text.is_empty() {
        b"no line follows: the log was cut, or is still being written"
    } else {
        b"the last line has no line feed"
    }
}

/// Why a line that has one of the forms may not stand where it does, by its bytes: a header, a mode line or a root line too
/// late, or a line after the end line.
pub fn place_hint(text: &[u8]) -> &'static [u8]
    ensures text { result.now ≡ place_hint text.now }
    ensures short { length result.now ≤ 80 }
{
    if text.len() < 3 {
        return b"nothing may follow the end line";
    }
    match (text[0], text[1], text[2]) {
        (b'c', b'a', b'p') | (b'r', b'u', b'n') => {
            b"the first line alone is a header: logs can't be joined"
        }
        (b'm', b'o', b'd') => b"the second line alone is a mode line",
        (b'r', b'o', b'o') => b"root lines come before the steps",
        _ => b"nothing may follow the end line",
    }
}
