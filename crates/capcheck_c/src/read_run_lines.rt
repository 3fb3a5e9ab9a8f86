//! A line of a run log read: the inverse of the calls that write lines.

ghost use Rattle.std.specs.Prelude.{◌≡◌, ◌≢◌, ◌≤◌};
ghost use Rattle.cap_run_log.specs.RunLines.{IsRunLineInRange, IsRunPlace, IsRunStepInRange};
ghost use Rattle.cap_run_log.specs.declared.lines.RunLine.TheVariants as lines;
ghost use Rattle.cap_halves.specs.{Passed.no_cap, PassedRuns.passed_nowhere};
ghost use Rattle.capcheck_c.specs.{LinesRead.HasNumbers, RunLinesRead.{HasNoPlaces, HasPlaces, IsRunLineRead, IsRunStepRead}};
ghost use Rattle.capcheck_c.specs.RunLinesRead.{ReadsRunFront, tagged_word};

use crate::read_lines::line_read;
use crate::values::{capability_line, number_line};
use cap_halves::halves::{no_capability, to_c};
use cap_halves::kinds::{
    DERIVE, DROP, EXCHANGE, FILL, FREE, HART, INVOKE, NO_LINE, OBJECT, ROOT_SPECIAL, RUN_VERSION,
};
use cap_halves::places::{nowhere, register_to_passed, to_passed};
use cap_halves::values::{PassedLine, PassedRunLine};
use cap_log::{Line, Place};
use cap_run_log::{RunLine, RunPlace, RunStep, take_run_line};
use cap_word::{Cap, Word};

/// Reads the line of a run log at the front of some bytes, with its line feed: its kind, its numbers, and how long it is.
/// If they begin with no such line and a line feed, the kind is 0, and so is all else.
#[unsafe(no_mangle)]
pub extern "C" fn capcheck_read_run_line(bytes: &[u8]) -> PassedRunLine
    ensures read { ReadsRunFront bytes.now result }
    ensures tags { (result.line.cap.tag ≤ 1) × (result.second.tag ≤ 1) }
{
    match take_run_line(bytes) {
        Some((line, rest)) => run_line_read(line, bytes.len() - rest.len()),
        None => alone(number_line(NO_LINE, 0, 0)),
    }
}

// What is read of a line of so many bytes.
fn run_line_read(line: RunLine, count: usize) -> PassedRunLine
    requires { IsRunLineInRange line }
    ensures read { IsRunLineRead line result }
    ensures kind { result.line.kind ≢ 0 }
    ensures length { result.line.length ≡ count }
    ensures tags { (result.line.cap.tag ≤ 1) × (result.second.tag ≤ 1) }
{
    match line {
        RunLine::Version => alone(number_line(RUN_VERSION, 1, count)),
        RunLine::Plain(version) => alone(line_read(Line::Version(version), count)),
        RunLine::Mode(mode) => alone(line_read(Line::Mode(mode), count)),
        RunLine::Root(place, word) => run_root_read(place, word, count),
        RunLine::Hart(hart) => alone(number_line(HART, u64::from(hart), count)),
        RunLine::Step(step) => alone(line_read(Line::Step(step), count)),
        RunLine::Run(step) => run_step_read(step, count),
        RunLine::End(steps) => alone(line_read(Line::End(steps), count)),
    }
}

// What is read of a root.
fn run_root_read(place: RunPlace, word: Word, count: usize) -> PassedRunLine
    requires { IsRunPlace place }
    ensures read { IsRunLineRead (lines.Root place word) result }
    ensures kind { result.line.kind ≢ 0 }
    ensures length { result.line.length ≡ count }
    ensures tags { (result.line.cap.tag ≤ 1) × (result.second.tag ≤ 1) }
{
    let line = match place {
        RunPlace::General(number) => line_read(Line::Root(Place::Register(number), word), count),
        RunPlace::Granule(granule) => line_read(Line::Root(Place::Granule(granule), word), count),
        RunPlace::Special(number) => { capability_line(ROOT_SPECIAL, number, tagged(word), count) }
    };
    PassedRunLine {
        target: to_passed(place),
        ..alone(line)
    }
}

// What is read of a step that only runs have.
fn run_step_read(step: RunStep, count: usize) -> PassedRunLine
    requires { IsRunStepInRange step }
    ensures read { IsRunStepRead step result }
    ensures kind { result.line.kind ≢ 0 }
    ensures length { result.line.length ≡ count }
    ensures tags { (result.line.cap.tag ≤ 1) × (result.second.tag ≤ 1) }
{
    match step {
        RunStep::Derive(step) => PassedRunLine {
            target: register_to_passed(step.target.register()),
            source: register_to_passed(step.source.register()),
            ..alone(capability_line(DERIVE, 0, step.result, count))
        },
        RunStep::Exchange(step) => {
            let line = PassedLine {
                source: step.source.number(),
                number: u64::from(step.special.number()),
                ..capability_line(EXCHANGE, step.target.number(), step.result, count)
            };
            with_second(line, step.special_result)
        }
        RunStep::Invoke(step) => {
            let line = PassedLine {
                source: step.code.number(),
                authority: step.datum.number(),
                ..capability_line(INVOKE, 0, tagged(step.code_word), count)
            };
            with_second(line, tagged(step.datum_word))
        }
        RunStep::Drop(place) => PassedRunLine {
            target: to_passed(place),
            ..alone(number_line(DROP, 0, count))
        },
        RunStep::Fill(granule, word) => {
            let line = PassedLine {
                number: 16 * granule,
                ..capability_line(FILL, 0, Cap { tag: false, word }, count)
            };
            alone(line)
        }
        RunStep::Object(register) => alone(object_read(OBJECT, register, 0, count)),
        RunStep::Widen(register, number) => alone(object_read(OBJECT, register, number, count)),
        RunStep::FreeOwner(register) => alone(object_read(FREE, register, 0, count)),
        RunStep::FreeNumber(number) => alone(object_read(FREE, 0, number, count)),
    }
}

// What is read of a line that names a register or an object, or both.
fn object_read(kind: u8, register: u8, object: u32, count: usize) -> PassedLine
    ensures read { HasNumbers kind 0 register 0 object no_cap result }
    ensures length { result.length ≡ count }
    ensures tag { result.cap.tag ≤ 1 }
{
    PassedLine {
        source: register,
        ..number_line(kind, u64::from(object), count)
    }
}

// A word with a tag.
fn tagged(word: Word) -> Cap
    ensures { result ≡ tagged_word word }
{
    Cap { tag: true, word }
}

// A line without places.
fn alone(line: PassedLine) -> PassedRunLine
    ensures line { result.line ≡ line }
    ensures places { HasNoPlaces result }
    ensures tag { result.second.tag ≤ 1 }
{
    PassedRunLine {
        line,
        second: no_capability(),
        target: nowhere(),
        source: nowhere(),
    }
}

// A line with a second capability.
fn with_second(line: PassedLine, second: Cap) -> PassedRunLine
    ensures line { result.line ≡ line }
    ensures places { HasPlaces passed_nowhere passed_nowhere second result }
    ensures tag { result.second.tag ≤ 1 }
{
    PassedRunLine {
        second: to_c(second),
        ..alone(line)
    }
}
