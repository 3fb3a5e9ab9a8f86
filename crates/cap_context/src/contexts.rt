//! The context of a line, as lines of a report.

ghost use Rattle.std.specs.Prelude.{◌≡◌, ◌⊎◌, ◌++◌, ◌+◌, ◌<◌, ◌^◌, [], List, ℕ, codes, decimal, if◌then◌else◌, length, nat_lt, ◌&&◌};
ghost use Rattle.std.specs.Prelude.{IsTrue, OnOk, Some, option_map, true};
ghost use Rattle.cap_json.specs.Words.{lines_of};
ghost use Rattle.cap_context.specs.Contexts.{before_lines, before_text, context_of, hart_at, hart_step, last_writer, numbered};
ghost use Rattle.cap_context.specs.Contexts.{refused_line, text_at};
ghost use Rattle.cap_context.specs.{Keepings.{IsKept, hart_kept}, Readings.entry_of, Registers.writes_of, Writers.written};
ghost use Rattle.cap_context.specs.{Contexts.wrote_line, KeptContexts.{kept_wrote, kept_wrote_lines}};

use crate::keepings::{Kept, hart_kept};
use crate::registers::{first_read, hart_after, is_register, number_of, word_at, writes_of};
use crate::writers::written;
use cap_json::{begins, cut};
use std::alloc::AllocError;

// Appends a number and a line after a name.
fn push_entry(report: &mut Vec<u8>, name: &[u8], number: u64, text: &[u8]) -> Result<(), AllocError>
    ensures ok { OnOk result (report.new.items ≡ report.old.items ++ name.now ++ decimal number ++ codes " " ++ text.now ++ codes "\n") }
{
    let mut digits = itoa::Buffer::new();
    report.extend_from_slice(name)?;
    report.extend_from_slice(digits.format(number).as_bytes())?;
    report.push(b' ')?;
    report.extend_from_slice(text)?;
    report.push(b'\n')?;
    Ok(())
}

// Appends a line that is one of at most this many before a line.
fn push_before_line(
    report: &mut Vec<u8>,
    count: u8,
    line: u64,
    at: u64,
    text: &[u8],
) -> Result<(), AllocError>
    ensures ok { OnOk result (report.new.items ≡ report.old.items ++ before_text count line (at, text.now)) }
{
    if at < line && line - at <= u64::from(count) {
        push_entry(report, b"before ", at, text)
    } else {
        Ok(())
    }
}

// Appends at most this many lines before a line, of those from a number on.
fn push_before(
    report: &mut Vec<u8>,
    count: u8,
    line: u64,
    from: u64,
    bytes: &[u8],
) -> Result<(), AllocError>
    requires { from + length bytes.now < 2 ^ 64 }
    ensures ok { OnOk result (report.new.items ≡ report.old.items ++ before_lines count line (numbered from (lines_of bytes.now))) }
{
    let mut at = from;
    let mut rest = bytes;
    while !rest.is_empty() {
        let (text, more) = cut(b'\n', rest);
        push_before_line(report, count, line, at, text)?;
        at += 1;
        rest = more;
    }
    Ok(())
}

// A text if it is the one, or else another.
fn text_if<'a>(is_one: bool, text: &'a [u8], other: &'a [u8]) -> &'a [u8]
    ensures value { result.now ≡ (if is_one then text.now else other.now) }
{
    if is_one { text } else { other }
}

// The text of a line, of those from a number on.
fn text_at(line: u64, from: u64, bytes: &[u8]) -> &[u8]
    requires { from + length bytes.now < 2 ^ 64 }
    ensures value { result.now ≡ text_at line [] (numbered from (lines_of bytes.now)) }
{
    let mut found: &[u8] = &[];
    let mut at = from;
    let mut rest = bytes;
    while !rest.is_empty() {
        let (text, more) = cut(b'\n', rest);
        found = text_if(at == line, text, found);
        at += 1;
        rest = more;
    }
    found
}

// The hart after a line if it is before another, or else the hart before it.
fn hart_step<'a>(line: u64, hart: &'a [u8], at: u64, text: &'a [u8]) -> &'a [u8]
    ensures value { result.now ≡ hart_step line hart.now (at, text.now) }
{
    if at < line {
        hart_after(hart, text)
    } else {
        hart
    }
}

// The hart of a line, after the hart before the lines from a number on.
fn hart_at<'a>(line: u64, before: &'a [u8], from: u64, bytes: &'a [u8]) -> &'a [u8]
    requires { from + length bytes.now < 2 ^ 64 }
    ensures value { result.now ≡ hart_at line before.now (numbered from (lines_of bytes.now)) }
{
    let mut hart = before;
    let mut at = from;
    let mut rest = bytes;
    while !rest.is_empty() {
        let (text, more) = cut(b'\n', rest);
        hart = hart_step(line, hart, at, text);
        at += 1;
        rest = more;
    }
    hart
}

// Whether a line of a hart is before another and writes a register of a hart.
fn writes_before(
    register: &[u8],
    whose: &[u8],
    line: u64,
    hart: &[u8],
    at: u64,
    text: &[u8],
) -> bool
    ensures value { result ≡ (nat_lt at line && writes_of (register.now, whose.now) hart.now text.now) }
{
    at < line && writes_of(register, whose, hart, text)
}

// An entry if it is one, or else the last before it.
fn last_if<'a>(
    is_one: bool,
    entry: (u64, &'a [u8]),
    last: Option<(u64, &'a [u8])>,
) -> Option<(u64, &'a [u8])>
    ensures value { option_map entry_of result ≡ (if is_one then Some (entry_of entry.entry) else option_map entry_of last.entry) }
{
    if is_one { Some(entry) } else { last }
}

// The last line before a line that writes a register of a hart, after one that has been found and the hart before the lines
// from a number on.
fn last_writer<'a>(
    register: &[u8],
    whose: &[u8],
    line: u64,
    before: &'a [u8],
    found: Option<(u64, &'a [u8])>,
    from: u64,
    bytes: &'a [u8],
) -> Option<(u64, &'a [u8])>
    requires { from + length bytes.now < 2 ^ 64 }
    ensures value { option_map entry_of result
        ≡ (last_writer (register.now, whose.now) line (before.now, option_map entry_of found.entry) (numbered from (lines_of bytes.now))).1 }
{
    let mut last = found;
    let mut hart = before;
    let mut at = from;
    let mut rest = bytes;
    while !rest.is_empty() {
        let (text, more) = cut(b'\n', rest);
        let is_one = writes_before(register, whose, line, hart, at, text);
        last = last_if(is_one, (at, text), last);
        hart = hart_after(hart, text);
        at += 1;
        rest = more;
    }
    last
}

// Appends the line that last wrote a register.
fn push_wrote_line(
    report: &mut Vec<u8>,
    register: &[u8],
    last: Option<(u64, &[u8])>,
) -> Result<(), AllocError>
    ensures ok { OnOk result (report.new.items ≡ report.old.items ++ wrote_line register.now (option_map entry_of last.entry)) }
{
    let Some((number, text)) = last else {
        return Ok(());
    };
    report.extend_from_slice(b"wrote ")?;
    report.extend_from_slice(register)?;
    push_entry(report, b" ", number, text)
}

// Appends the line that last wrote an operand that isn't shown yet, if it is a register.
fn push_wrote(
    report: &mut Vec<u8>,
    is_shown: bool,
    word: &[u8],
    line: u64,
    from: u64,
    kept: &Kept,
) -> Result<(), AllocError>
    requires { from + length kept.now.bytes.items < 2 ^ 64 }
    ensures ok { OnOk result (report.new.items ≡ report.old.items
        ++ (if is_shown then [] else kept_wrote word.now line (hart_kept kept.now.hart) (written kept.now.writers) (numbered from (lines_of kept.now.bytes.items)))) }
{
    if is_shown || !is_register(word) {
        return Ok(());
    }
    let before = hart_kept(&kept.hart);
    let bytes = kept.bytes.as_slice();
    let hart = hart_at(line, before, from, bytes);
    let dropped = written(word, hart, &kept.writers);
    let last = last_writer(word, hart, line, before, dropped, from, bytes);
    push_wrote_line(report, word, last)
}

// Appends the lines that last wrote the registers that a line reads.
fn push_writers(report: &mut Vec<u8>, line: u64, from: u64, kept: &Kept) -> Result<(), AllocError>
    requires { from + length kept.now.bytes.items < 2 ^ 64 }
    ensures ok { OnOk result (report.new.items ≡ report.old.items
        ++ kept_wrote_lines line (hart_kept kept.now.hart) (written kept.now.writers) (numbered from (lines_of kept.now.bytes.items))) }
{
    let text = text_at(line, from, kept.bytes.as_slice());
    let first = first_read(text);
    let second = word_at(2, text);
    let third = word_at(3, text);
    push_wrote(report, false, first, line, from, kept)?;
    push_wrote(report, second == first, second, line, from, kept)?;
    push_wrote(
        report,
        third == first || third == second,
        third,
        line,
        from,
        kept,
    )
}

// The number of the line that a report refuses.
fn refused_line(report: &[u8]) -> Option<u64>
    ensures value { result ≡ refused_line report.now }
{
    if !begins(b"no ", report) {
        return None;
    }
    let (digits, _) = cut(b' ', &report[3..]);
    Some(number_of(digits))
}

// Whether what is kept has the context of a line.
fn has_context(kept: &Kept, count: u8, line: u64) -> bool
    ensures yes { IsTrue result → (kept.now.is_whole ≡ true) × ((kept.now.skipped ≡ 0) ⊎ (kept.now.skipped + count < line))
        × (kept.now.skipped + 1 + length kept.now.bytes.items < 2 ^ 64) }
{
    kept.is_whole
        && kept.skipped < 1 << 62
        && (kept.skipped == 0 || kept.skipped + u64::from(count) < line)
}

/// Appends the context of the line that a report refuses, in the bytes of its log that are kept: at most this many lines before
/// it, and then the lines before it that last wrote the registers that it reads, in the order of its operands.
pub fn push_context(report: &mut Vec<u8>, count: u8, kept: &Kept) -> Result<(), AllocError>
    ensures ok { OnOk result ((given : List ℕ) → IsKept kept.now given
        → report.new.items ≡ report.old.items ++ context_of count given report.old.items) }
{
    let Some(line) = refused_line(report.as_slice()) else {
        return Ok(());
    };
    if !has_context(kept, count, line) {
        return Err(AllocError);
    }
    let from = kept.skipped + 1;
    push_before(report, count, line, from, kept.bytes.as_slice())?;
    push_writers(report, line, from, kept)
}
