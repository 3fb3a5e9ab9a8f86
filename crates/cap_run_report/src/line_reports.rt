//! The report of a first fault in a run log: its line, and what the run held before it.

ghost use Rattle.std.specs.Prelude.{◌≡◌, ◌+◌, ◌≤◌, ℕ, List, ◌++◌, length};
ghost use Rattle.cap_streams.specs.{FaultLines.bytes_of, Written.Writes};
ghost use Rattle.cap_report.specs.FaultReports.{count_lines, due_line};
ghost use Rattle.cap_run.specs.RunChanges.{account_in};
ghost use Rattle.cap_run_log.specs.RunLines.{IsRunLineInRange, IsRunPlace};
ghost use Rattle.cap_run_report.specs.LineReports.{AreKnownLines, AreLineDetails, AreRunDetails, AreUsualDetails, IsRunLineReport};
ghost use Rattle.cap_run_report.specs.LineReports.{cut_due, cut_lines, root_lines};
ghost use Rattle.cap_run.specs.Machines.{run_in};

use crate::bad_run_lines::{put_bad_run_header, put_bad_run_line};
use crate::cap_parts::{put_held, put_taken_says};
use crate::step_parts::{put_run_step, put_usual};
use cap_bounds::length_of;
use cap_machine::Refusal;
use cap_report::fault_reports::put_counted_lines;
use cap_report::root_says::put_unsound_says;
use cap_run::{RunMachine, RunRefusal};
use cap_run_judge::RefusedRunLine;
use cap_run_log::{RunLine, RunPlace, read_run_line};
use cap_texts::shown_bytes::put_shown_line;
use cap_texts::text_lines::{put_hex_line, put_line};
use cap_texts::wrong_lines::{
    SHORT_LINE, cut_hint, place_hint, put_header_lines, put_hint_line, put_hinted_line,
};
use cap_word::{Cap, Word};
use tagmem::TaggedStore;

/// Writes the report of a line that was refused at an index of the buffer, and returns the index after it. The machine is
/// as it was before the line.
pub fn put_run_report<M: TaggedStore>(
    machine: &RunMachine<M>,
    fault: &RefusedRunLine,
    buffer: &mut [u8],
    at: usize,
) -> usize
    requires { at + 3072 ≤ length buffer.old }
    ensures fits { result ≤ length buffer.old }
    ensures report { (report : List ℕ) × IsRunLineReport (run_in machine.now) fault.now.line (bytes_of fault.now.text) fault.now.refusal report
        × Writes at report buffer.old buffer.new result }
{
    let text = fault.text.as_slice();
    let at = put_shown_line(buffer, at, text);
    put_details(machine, fault.line, text, fault.refusal, buffer, at)
}

// Writes what is told of a line for its refusal.
fn put_details<M: TaggedStore>(
    machine: &RunMachine<M>,
    line: u64,
    text: &[u8],
    refusal: RunRefusal,
    buffer: &mut [u8],
    at: usize,
) -> usize
    requires few { length text.now ≤ 96 }
    requires room { at + 2560 ≤ length buffer.old }
    ensures fits { result ≤ at + 2560 }
    ensures written { (told : List ℕ) × AreRunDetails (run_in machine.now) line text.now refusal told × Writes at told buffer.old buffer.new result }
{
    match refusal {
        RunRefusal::Usual(usual) => put_usual_details(machine, line, text, usual, buffer, at),
        _ => put_line_details(machine, text, refusal, buffer, at),
    }
}

// Writes what is told of a line for a refusal that other logs have too.
fn put_usual_details<M: TaggedStore>(
    machine: &RunMachine<M>,
    line: u64,
    text: &[u8],
    refusal: Refusal,
    buffer: &mut [u8],
    at: usize,
) -> usize
    requires few { length text.now ≤ 96 }
    requires room { at + 2560 ≤ length buffer.old }
    ensures fits { result ≤ at + 2560 }
    ensures written { (told : List ℕ) × AreUsualDetails (run_in machine.now) line text.now refusal told × Writes at told buffer.old buffer.new result }
{
    match refusal {
        Refusal::BadHeader => put_bad_run_header(buffer, at, text),
        Refusal::LineTooLong => put_line(buffer, at, b"expected", SHORT_LINE),
        Refusal::BadLine => put_bad_run_line(buffer, at, text),
        Refusal::BadMode => put_header_lines(buffer, at, text, b"mode strict or mode clear"),
        Refusal::Misplaced => {
            let at = put_counts(machine, Refusal::Misplaced, buffer, at);
            put_hint_line(buffer, at, place_hint(text))
        }
        Refusal::Truncated => put_cut(machine, line, text, buffer, at),
        Refusal::WrongCount | Refusal::LimitPassed => put_counts(machine, refusal, buffer, at),
        _ => put_line_details(machine, text, RunRefusal::Usual(refusal), buffer, at),
    }
}

// What has to come where a log is cut, by the number of the line that is missing.
fn cut_due(line: u64) -> &'static [u8]
    ensures text { result.now ≡ cut_due line }
    ensures short { length result.now ≤ 64 }
{
    if line == 1 {
        b"run 1, and a line feed after each line"
    } else if line == 2 {
        b"mode strict or mode clear, and a line feed after each line"
    } else {
        b"a step or an end line, and a line feed after each line"
    }
}

// Writes the counts of what was taken so far of a log that is cut, and what has to come then.
fn put_cut<M: TaggedStore>(
    machine: &RunMachine<M>,
    line: u64,
    text: &[u8],
    buffer: &mut [u8],
    at: usize,
) -> usize
    requires { at + 768 ≤ length buffer.old }
    ensures written { Writes at (cut_lines (run_in machine.now) line text.now) buffer.old buffer.new result }
    ensures fits { result ≤ at + 768 }
{
    let at = put_counts(machine, Refusal::BadLine, buffer, at);
    put_hinted_line(buffer, at, cut_due(line), cut_hint(text))
}

// Writes the counts of what was taken so far, and what has to come then, if the refusal says it.
fn put_counts<M: TaggedStore>(
    machine: &RunMachine<M>,
    refusal: Refusal,
    buffer: &mut [u8],
    at: usize,
) -> usize
    requires { at + 512 ≤ length buffer.old }
    ensures written { let account = account_in (run_in machine.now) in
        Writes at (count_lines account ++ due_line account refusal) buffer.old buffer.new result }
    ensures fits { result ≤ at + 256 }
{
    put_counted_lines(machine.machine(), refusal, buffer, at)
}

// Writes what the checks of a line saw, if it has a form.
fn put_line_details<M: TaggedStore>(
    machine: &RunMachine<M>,
    text: &[u8],
    refusal: RunRefusal,
    buffer: &mut [u8],
    at: usize,
) -> usize
    requires { at + 2560 ≤ length buffer.old }
    ensures fits { result ≤ at + 2560 }
    ensures written { (told : List ℕ) × AreLineDetails (run_in machine.now) text.now refusal told × Writes at told buffer.old buffer.new result }
{
    match read_run_line(text) {
        Some(line) => put_known(machine, &line, refusal, buffer, at),
        None => at,
    }
}

// Writes what is told of a line that has a form.
fn put_known<M: TaggedStore>(
    machine: &RunMachine<M>,
    line: &RunLine,
    refusal: RunRefusal,
    buffer: &mut [u8],
    at: usize,
) -> usize
    requires line { IsRunLineInRange line.now }
    requires room { at + 2560 ≤ length buffer.old }
    ensures fits { result ≤ at + 2560 }
    ensures written { (told : List ℕ) × AreKnownLines (run_in machine.now) line.now refusal told × Writes at told buffer.old buffer.new result }
{
    match *line {
        RunLine::Root(place, word) => put_root(machine, buffer, at, place, word, refusal),
        RunLine::Step(step) => put_usual(machine, buffer, at, &step, refusal),
        RunLine::Run(step) => put_run_step(machine, buffer, at, &step, refusal),
        RunLine::Version
        | RunLine::Plain(_)
        | RunLine::Mode(_)
        | RunLine::Hart(_)
        | RunLine::End(_) => at,
    }
}

// Writes what is told of a root: what its place holds, or what its word stands for.
fn put_root<M: TaggedStore>(
    machine: &RunMachine<M>,
    buffer: &mut [u8],
    at: usize,
    place: RunPlace,
    word: Word,
    refusal: RunRefusal,
) -> usize
    requires place { IsRunPlace place }
    requires room { at + 384 ≤ length buffer.old }
    ensures written { Writes at (root_lines (run_in machine.now) place word refusal) buffer.old buffer.new result }
    ensures fits { result ≤ at + 384 }
{
    match refusal {
        RunRefusal::Usual(Refusal::PlaceTaken) => {
            let at = put_held(buffer, at, b"holds", place, machine.holds(place));
            put_taken_says(place, buffer, at)
        }
        _ => {
            let at = put_held(buffer, at, b"root", place, Cap { tag: true, word });
            let at = put_hex_line(buffer, at, b"length", 17, length_of(word));
            put_unsound_says(word, buffer, at)
        }
    }
}
