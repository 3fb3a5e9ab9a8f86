//! The report of a first fault: the line, and what the machine held before it.

ghost use Rattle.std.specs.Prelude.{ℕ, List, ◌+◌, ◌++◌, ◌≤◌, length};
ghost use Rattle.cap_streams.specs.{FaultLines.bytes_of, Written.Writes};
ghost use Rattle.cap_log.specs.Lines.{IsPlace};
ghost use Rattle.cap_machine.specs.Helds.{account_of};
ghost use Rattle.cap_report.specs.FaultReports.{AreDetails, IsLineReport, count_lines, due_line, root_lines};

use crate::bad_lines::{put_bad_header, put_bad_line};
use crate::root_says::{put_taken_says, put_unsound_says};
use crate::step_lines::put_step_lines;
use cap_bounds::length_of;
use cap_judge::FaultLine;
use cap_log::{Line, Place, read_line};
use cap_machine::{Machine, Refusal};
use cap_texts::cap_lines::{put_cap_lines, put_operand_lines};
use cap_texts::shown_bytes::put_shown_line;
use cap_texts::text_lines::{put_decimal_line, put_hex_line, put_line, put_says};
use cap_texts::wrong_lines::{
    SHORT_LINE, WHOLE_LOG, cut_hint, place_hint, put_header_lines, put_hint_line,
};
use cap_word::{Cap, Word};
use tagmem::TaggedStore;

/// Writes the report of a line that was refused at an index of the buffer, and returns the index after it.
/// The machine is as it was before the line.
pub fn put_report<M: TaggedStore>(
    machine: &Machine<M>,
    line: &FaultLine,
    refusal: Refusal,
    buffer: &mut [u8],
    at: usize,
) -> usize
    requires { at + 3072 ≤ length buffer.old }
    ensures fits { result ≤ length buffer.old }
    ensures report { (report : List ℕ)
        × IsLineReport (account_of machine.now) (bytes_of line.now) refusal report
        × Writes at report buffer.old buffer.new result }
{
    let text = line.as_slice();
    let at = put_shown_line(buffer, at, text);
    put_details(machine, text, refusal, buffer, at)
}

// Writes what is told of a line for its refusal.
fn put_details<M: TaggedStore>(
    machine: &Machine<M>,
    text: &[u8],
    refusal: Refusal,
    buffer: &mut [u8],
    at: usize,
) -> usize
    requires few { length text.now ≤ 96 }
    requires room { at + 2560 ≤ length buffer.old }
    ensures fits { result ≤ at + 2560 }
    ensures written { (details : List ℕ)
        × AreDetails (account_of machine.now) text.now refusal details
        × Writes at details buffer.old buffer.new result }
{
    match refusal {
        Refusal::BadHeader => put_bad_header(buffer, at, text),
        Refusal::LineTooLong => put_line(buffer, at, b"expected", SHORT_LINE),
        Refusal::BadLine => put_bad_line(buffer, at, text),
        Refusal::BadMode => put_header_lines(buffer, at, text, b"mode strict or mode clear"),
        Refusal::Misplaced => {
            let at = put_counted_lines(machine, Refusal::Misplaced, buffer, at);
            put_hint_line(buffer, at, place_hint(text))
        }
        Refusal::WrongCount | Refusal::LimitPassed => {
            put_counted_lines(machine, refusal, buffer, at)
        }
        Refusal::Truncated => {
            let at = put_counted_lines(machine, Refusal::Truncated, buffer, at);
            put_hint_line(buffer, at, cut_hint(text))
        }
        _ => match read_line(text) {
            Some(line) => match line {
                Line::Root(place, word) => {
                    put_root_lines(machine, place, word, refusal, buffer, at)
                }
                Line::Step(step) => put_step_lines(machine, true, &step, refusal, buffer, at),
                _ => at,
            },
            None => at,
        },
    }
}

/// Writes the counts of what was taken so far, and what has to come then.
#[tactic(auto, unfolding(crate::specs::FaultReports::count_lines))]
pub fn put_counted_lines<M: TaggedStore>(
    machine: &Machine<M>,
    refusal: Refusal,
    buffer: &mut [u8],
    at: usize,
) -> usize
    requires room { at + 512 ≤ length buffer.old }
    ensures written { Writes at (count_lines (account_of machine.now) ++ due_line (account_of machine.now) refusal) buffer.old buffer.new result }
    ensures fits { result ≤ at + 256 }
{
    let at = put_decimal_line(buffer, at, b"roots", u64::from(machine.roots()));
    let at = put_decimal_line(buffer, at, b"steps", u64::from(machine.steps()));
    let at = put_decimal_line(buffer, at, b"granules", u64::from(machine.granules()));
    put_due_line(machine, refusal, buffer, at)
}

// Writes what has to come.
fn put_due_line<M: TaggedStore>(
    machine: &Machine<M>,
    refusal: Refusal,
    buffer: &mut [u8],
    at: usize,
) -> usize
    requires room { at + 128 ≤ length buffer.old }
    ensures written { Writes at (due_line (account_of machine.now) refusal) buffer.old buffer.new result }
    ensures fits { result ≤ at + 128 }
{
    match refusal {
        Refusal::Misplaced => put_line(
            buffer,
            at,
            b"expected",
            b"roots before steps, one end line, and nothing after it",
        ),
        Refusal::Truncated => put_line(buffer, at, b"expected", WHOLE_LOG),
        Refusal::WrongCount => {
            put_decimal_line(buffer, at, b"expected end", u64::from(machine.steps()))
        }
        Refusal::LimitPassed => put_says(
            buffer,
            at,
            b"it would pass a limit on roots, steps or granules",
        ),
        _ => at,
    }
}

// Writes what is told of a root: what its place holds, or what its word stands for.
fn put_root_lines<M: TaggedStore>(
    machine: &Machine<M>,
    place: Place,
    word: Word,
    refusal: Refusal,
    buffer: &mut [u8],
    at: usize,
) -> usize
    requires place { IsPlace place }
    requires room { at + 512 ≤ length buffer.old }
    ensures written { Writes at (root_lines (account_of machine.now) place word refusal) buffer.old buffer.new result }
    ensures fits { result ≤ at + 512 }
{
    match refusal {
        Refusal::PlaceTaken => {
            let (held, root) = (machine.holds(place), machine.origin(place));
            let at = put_operand_lines(buffer, at, b"holds", place, held, root);
            put_taken_says(place, buffer, at)
        }
        _ => {
            let at = put_cap_lines(buffer, at, b"root", place, Cap { tag: true, word });
            let at = put_hex_line(buffer, at, b"length", 17, length_of(word));
            put_unsound_says(word, buffer, at)
        }
    }
}
