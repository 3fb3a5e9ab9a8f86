//! What is told of bytes that are no line: which word is wrong.

ghost use Rattle.std.specs.Prelude.{◌≡◌, ℕ, List, ◌+◌, ◌≤◌, IfNone, IfSome, length};
ghost use Rattle.cap_streams.specs.Written.{Writes};
ghost use Rattle.cap_report.specs.BadLines.{AreBadLines, AreFirstLines, HasNoWrongWord, IsWrongWord, fields_of};

use cap_log::buffers::put;
use cap_log::kinds::Shape;
use cap_log::{Head, Part};
use cap_texts::fields::Field::{
    Count, Equals, LogName, LogVersion, Mode, Number, Offset, Place, Register, Size, Tag, Target,
    Value, Word,
};
use cap_texts::fields::{Field, Wrong, first_wrong};
use cap_texts::text_lines::put_line;
use cap_texts::wrong_lines::{put_header_lines, put_hinted_line, put_wrong_lines};

/// What the first line has to be.
const FIRST_LINES: &[u8] = b"capcheck 1 or capcheck 2";

/// Writes what the first line of a log has to be.
pub fn put_bad_header(buffer: &mut [u8], at: usize, text: &[u8]) -> usize
    requires room { at + 256 ≤ length buffer.old }
    ensures written { (told : List ℕ) × AreFirstLines text.now told × Writes at told buffer.old buffer.new result }
    ensures fits { result ≤ at + 256 }
{
    if text == b"heap 1".as_slice() {
        let hint = b"the log of an allocator: capdiag heap judges it";
        put_hinted_line(buffer, at, FIRST_LINES, hint)
    } else if text == b"run 1".as_slice() {
        put_hinted_line(buffer, at, FIRST_LINES, b"a run log: capdiag run judges it")
    } else {
        put_header_lines(buffer, at, text, FIRST_LINES)
    }
}

/// Writes which word of a line is wrong, and what is expected there.
pub fn put_bad_line(buffer: &mut [u8], at: usize, text: &[u8]) -> usize
    requires few { length text.now ≤ 96 }
    requires room { at + 768 ≤ length buffer.old }
    ensures written { (told : List ℕ) × AreBadLines text.now told × Writes at told buffer.old buffer.new result }
    ensures fits { result ≤ at + 768 }
{
    let mut line = [0u8; 97];
    let length = put(&mut line, 0, text);
    let end = put(&mut line, length, b"\n");
    match wrong_word(&line[..end]) {
        Some(wrong) => put_wrong_lines(buffer, at, end, wrong),
        None => put_line(
            buffer,
            at,
            b"expected",
            b"a line of version 1: a root, a step or the end line",
        ),
    }
}

// The first wrong word of a line with its line feed.
fn wrong_word(line: &[u8]) -> Option<Wrong<'_>>
    ensures wrong { IfSome result (λ wrong. IsWrongWord line.now wrong.field wrong.end wrong.rest.now) }
    ensures none { IfNone result (HasNoWrongWord line.now) }
    ensures inside { IfSome result (λ wrong. length wrong.rest.now ≤ length line.now) }
{
    match Head::take(line, b' ') {
        Some((head, operands)) => first_wrong(fields_of(head), 0, operands),
        None => Some(Wrong {
            field: LogName,
            end: b' ',
            rest: line,
        }),
    }
}

// The fields that follow the first word of a line.
fn fields_of(head: Head) -> &'static [Field]
    ensures { result.now ≡ fields_of head }
{
    match head.shape() {
        Shape::Version => &[LogVersion],
        Shape::Mode => &[Mode],
        Shape::Root => &[Place, Word],
        Shape::Plain => &[Target, Register, Equals, Tag, Word],
        Shape::Numbered => &[Target, Register, Number, Equals, Tag, Word],
        Shape::Authorized => &[Target, Register, Register, Equals, Tag, Word],
        Shape::LoadCap => &[Target, Register, Offset, Equals, Tag, Word],
        Shape::StoreCap => &[Register, Register, Offset],
        Shape::Load => &[Register, Offset, Size, Equals, Value],
        Shape::Store => &[Register, Offset, Size, Value],
        Shape::End => &[Count],
    }
}
