//! A line read: the inverse of the calls that write lines.

ghost use Rattle.std.specs.{List.All, Prelude.{◌≡◌, ◌≢◌, ◌<◌, ◌≤◌, ◌*◌, drop, length, take, true}};
ghost use Rattle.cap_log.specs.{Lines.{IsInRange, IsPlace, spelling}, Parts.BeginsWithNone};
ghost use Rattle.cap_log.specs.declared.lines.Line.TheVariants as lines;
ghost use Rattle.capcheck_c.specs.LinesRead.{HasNumbers, IsLineRead, ReadsFront, ReadsLines};

use crate::step_lines::step_read;
use crate::values::{LinesCount, capability_line, number_line};
use cap_halves::kinds::{END, MODE, NO_LINE, ROOT, ROOT_AT, VERSION};
use cap_halves::values::PassedLine;
use cap_log::{Line, Mode, Place, Step, take_line};
use cap_word::{Cap, Word};

/// Reads the line at the front of some bytes, with its line feed: its kind, its numbers, and how long it is. If they
/// begin with no line and a line feed, the kind is 0, and so is all else.
#[unsafe(no_mangle)]
pub extern "C" fn capcheck_read_line(bytes: &[u8]) -> PassedLine
    ensures read { ReadsFront bytes.now result }
    ensures tag { result.cap.tag ≤ 1 }
{
    match take_line(bytes) {
        Some((line, rest)) => line_read(line, bytes.len() - rest.len()),
        None => number_line(NO_LINE, 0, 0),
    }
}

/// Reads lines from the front of some bytes, each with its line feed, until one is none or there is no room for more:
/// how many, and how many bytes they have. They stand at the front of `lines`, each as [`capcheck_read_line`] reads it,
/// and the rest of `lines` is as it was.
#[unsafe(no_mangle)]
pub extern "C" fn capcheck_read_lines(bytes: &[u8], lines: &mut [PassedLine]) -> LinesCount
    ensures few { (result.lines ≤ length lines.new) × (result.bytes ≤ length bytes.now) }
    ensures read { ReadsLines bytes.now (take result.lines lines.new) (drop result.bytes bytes.now) }
    ensures tags { All (λ line. line.cap.tag ≤ 1) (take result.lines lines.new) }
    ensures rest { drop result.lines lines.new ≡ drop result.lines lines.old }
    ensures stops { result.lines < length lines.new → BeginsWithNone IsInRange spelling 10 (drop result.bytes bytes.now) }
{
    let mut rest = bytes;
    let mut count = 0;
    while count < lines.len() {
        let line = capcheck_read_line(rest);
        if line.kind == NO_LINE {
            break;
        }
        lines[count] = line;
        rest = rest.split_at(line.length).1;
        count += 1;
    }
    LinesCount {
        lines: count as u64,
        bytes: (bytes.len() - rest.len()) as u64,
    }
}

/// What is read of a line of so many bytes.
pub(crate) fn line_read(line: Line, count: usize) -> PassedLine
    requires { IsInRange line }
    ensures read { IsLineRead line result }
    ensures kind { result.kind ≢ 0 }
    ensures length { result.length ≡ count }
    ensures tag { result.cap.tag ≤ 1 }
{
    match line {
        Line::Version(version) => number_line(VERSION, u64::from(version), count),
        Line::Mode(Mode::Strict) => number_line(MODE, 0, count),
        Line::Mode(Mode::Clear) => number_line(MODE, 1, count),
        Line::Root(place, word) => root_read(place, word, count),
        Line::Step(step) => step_read(step, count),
        Line::End(steps) => number_line(END, u64::from(steps), count),
    }
}

// What is read of a root.
fn root_read(place: Place, word: Word, count: usize) -> PassedLine
    requires { IsPlace place }
    ensures read { IsLineRead (lines.Root place word) result }
    ensures kind { result.kind ≢ 0 }
    ensures length { result.length ≡ count }
    ensures tag { result.cap.tag ≤ 1 }
{
    let cap = Cap { tag: true, word };
    match place {
        Place::Register(register) => capability_line(ROOT, register, cap, count),
        Place::Granule(granule) => PassedLine {
            number: 16 * granule,
            ..capability_line(ROOT_AT, 0, cap, count)
        },
    }
}
