//! What is told of bytes that are no line of a run log.

ghost use Rattle.std.specs.Prelude.{◌≡◌, ◌+◌, ◌≤◌, ◌∷◌, [], ◌++◌, ℕ, List, length};
ghost use Rattle.cap_streams.specs.Written.{Writes};
ghost use Rattle.cap_log.specs.Parts.{BeginsWithNone};
ghost use Rattle.cap_run_log.specs.RunHeads.{IsRunHead, run_head_spelling};
ghost use Rattle.cap_run_report.specs.BadRunLines.{AreBadRunLines, AreFirstRunLines, AreOtherLines, form_of};

use cap_log::buffers::put;
use cap_log::{Head, Part};
use cap_report::bad_lines::put_bad_line;
use cap_run_log::RunHead;
use cap_texts::text_lines::put_line;
use cap_texts::wrong_lines::{put_header_lines, put_hinted_line};

/// Writes what the first line of a run log has to be.
pub fn put_bad_run_header(buffer: &mut [u8], at: usize, text: &[u8]) -> usize
    requires room { at + 256 ≤ length buffer.old }
    ensures written { (told : List ℕ) × AreFirstRunLines text.now told × Writes at told buffer.old buffer.new result }
    ensures fits { result ≤ at + 256 }
{
    if text == b"capcheck 1".as_slice() || text == b"capcheck 2".as_slice() {
        let hint = b"a log of version 1 or 2: capcheck judge judges it";
        put_hinted_line(buffer, at, b"run 1", hint)
    } else if text == b"heap 1".as_slice() {
        let hint = b"the log of an allocator: capdiag heap judges it";
        put_hinted_line(buffer, at, b"run 1", hint)
    } else {
        put_header_lines(buffer, at, text, b"run 1")
    }
}

/// Writes what is told of a line that has no form.
pub fn put_bad_run_line(buffer: &mut [u8], at: usize, text: &[u8]) -> usize
    requires few { length text.now ≤ 96 }
    requires room { at + 768 ≤ length buffer.old }
    ensures written { (told : List ℕ) × AreBadRunLines text.now told × Writes at told buffer.old buffer.new result }
    ensures fits { result ≤ at + 768 }
{
    let mut line = [0u8; 97];
    let length = put(&mut line, 0, text);
    let end = put(&mut line, length, b"\n");
    match RunHead::take(&line[..end], b' ') {
        Some((head, _)) => put_line(buffer, at, b"expected", form_of(head)),
        None => match Head::take(&line[..end], b' ') {
            Some(_) => put_bad_line(buffer, at, text),
            None => put_line(
                buffer,
                at,
                b"expected",
                b"derive, exchange, invoke, drop, fill, object, free, hart, a step of version 2 or end",
            ),
        },
    }
}

// The form of a line by its first word.
fn form_of(head: RunHead) -> &'static [u8]
    ensures form { result.now ≡ form_of head }
    ensures short { length result.now ≤ 64 }
{
    match head {
        RunHead::Version => b"run 1",
        RunHead::Root => b"root PLACE WORD, PLACE cN, scrN or @ADDRESS",
        RunHead::Derive => b"derive D S = T WORD, D and S cN or scrN",
        RunHead::Exchange => b"exchange cD cS scrN = T WORD T WORD",
        RunHead::Invoke => b"invoke cS cT = WORD WORD",
        RunHead::Drop => b"drop PLACE, PLACE cN, scrN or @ADDRESS",
        RunHead::Fill => b"fill @ADDRESS WORD",
        RunHead::Object => b"object cN, or object cN K",
        RunHead::Free => b"free cN, or free K",
        RunHead::Hart => b"hart H, H 0 to 65535",
    }
}
