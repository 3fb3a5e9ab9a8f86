//! What is told of bytes that are no line: which word is wrong.

ghost use Rattle.std.specs.Prelude.{◌≡◌, ◌++◌, ℕ, List, ◌+◌, ◌≤◌, IfNone, IfSome, codes, false, length, true};
ghost use Rattle.cap_streams.specs.Written.{Writes};
ghost use Rattle.cap_texts.specs.{TextLines.text_line, WrongLines.hint_line};
ghost use Rattle.cap_heap.specs.BadLines.{AreBadLines, AreFirstLines, HasNoWrongWord, IsMachineHeader, IsWrongWord};
ghost use Rattle.cap_heap.specs.BadLines.{fields_of};

use crate::heads::HeapHead;
use cap_log::buffers::put;
use cap_texts::fields::{Field, Wrong, first_wrong};
use cap_texts::text_lines::put_line;
use cap_texts::wrong_lines::{put_header_lines, put_hinted_line, put_wrong_lines};

/// Writes what the first line of a log has to be.
pub(crate) fn put_bad_header(buffer: &mut [u8], at: usize, text: &[u8]) -> usize
    requires room { at + 256 ≤ length buffer.old }
    ensures written { (told : List ℕ) × AreFirstLines text.now told × Writes at told buffer.old buffer.new result }
    ensures fits { result ≤ at + 256 }
{
    if is_machine_header(text) {
        let hint = b"the log of a machine: capdiag why judges it";
        put_hinted_line(buffer, at, b"heap 1", hint)
    } else {
        put_header_lines(buffer, at, text, b"heap 1")
    }
}

// Whether a line is the first of a machine's log.
fn is_machine_header(text: &[u8]) -> bool
    ensures yes { result ≡ true → IsMachineHeader text.now }
    ensures no { result ≡ false → IsMachineHeader text.now → ⊥ }
{
    text == b"capcheck 1".as_slice() || text == b"capcheck 2".as_slice()
}

/// Writes which word of a line is wrong, and what is expected there.
pub(crate) fn put_bad_line(buffer: &mut [u8], at: usize, text: &[u8]) -> usize
    requires few { length text.now ≤ 96 }
    requires room { at + 768 ≤ length buffer.old }
    ensures written { (told : List ℕ) × AreBadLines text.now told × Writes at told buffer.old buffer.new result }
    ensures fits { result ≤ at + 768 }
{
    let mut line = [0u8; 97];
    let length = put(&mut line, 0, text);
    let end = put(&mut line, length, b"\n");
    match wrong_word(&line[..end]) {
        Some(wrong) => put_wrong_lines(buffer, at, end, wrong),
        None => put_line(buffer, at, b"expected", b"a BASE that isn't above TOP"),
    }
}

// The first wrong word of a line with its line feed.
fn wrong_word(line: &[u8]) -> Option<Wrong<'_>>
    ensures wrong { IfSome result (λ wrong. IsWrongWord line.now wrong.field wrong.end wrong.rest.now) }
    ensures none { IfNone result (HasNoWrongWord line.now) }
    ensures inside { IfSome result (λ wrong. length wrong.rest.now ≤ length line.now) }
{
    match HeapHead::take(line) {
        Some((head, operands)) => first_wrong(fields_of(head), 0, operands),
        None => Some(Wrong {
            field: Field::HeapName,
            end: b' ',
            rest: line,
        }),
    }
}

// The fields that follow the first word of a line.
fn fields_of(head: HeapHead) -> &'static [Field]
    ensures { result.now ≡ fields_of head }
{
    match head {
        HeapHead::Header => &[Field::HeapVersion],
        HeapHead::Root => &[Field::Number, Field::Top],
        HeapHead::Malloc => &[Field::Number, Field::Number],
        HeapHead::Free => &[Field::Number],
        HeapHead::End => &[Field::Count],
    }
}
