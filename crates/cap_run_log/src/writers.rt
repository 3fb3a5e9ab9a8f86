//! Writing a line of a run log.

#![tactic(auto, unfolding(crate::specs::RunLines::run_spelling))]

ghost use Rattle.std.specs.Prelude.{◌≡◌, ◌≤◌, ◌∷◌, ◌++◌, length};
ghost use Rattle.cap_streams.specs.Written.{Writes};
ghost use Rattle.cap_run_log.specs.{RunHeads.run_head_spelling, RunLines.{IsRunLineAt, IsRunLineInRange, IsRunStepInRange, run_spelling}};
ghost use Rattle.cap_run_log.specs.declared.lines.RunLine.TheVariants as lines;
ghost use Rattle.cap_run_log.specs.declared.lines.RunStep.TheVariants as steps;

use crate::heads::RunHead;
use crate::lines::{Exchange, RunLine, RunStep};
use crate::operands::{RunSource, RunTarget};
use crate::parts::{EQUALS, Freed, Granule, Handed, HartNumber, ONE};
use crate::results::Results;
use cap_log::buffers::put;
use cap_log::{Line, Part, write_line};

/// Writes a line of a run log and its line feed at the front of the buffer, and returns how many bytes they are. The line's
/// numbers have to be in their ranges. The rest of the buffer stays as it was.
#[inline(always)]
pub fn write_run_line(line: &RunLine, buffer: &mut [u8; 96]) -> usize
    requires { IsRunLineInRange line.now }
    ensures line { IsRunLineAt line.now buffer.old buffer.new result }
{
    match *line {
        RunLine::Plain(version) => write_line(&Line::Version(version), buffer),
        RunLine::Mode(mode) => write_line(&Line::Mode(mode), buffer),
        RunLine::Step(step) => write_line(&Line::Step(step), buffer),
        RunLine::End(steps) => write_line(&Line::End(steps), buffer),
        RunLine::Version => end_line(line, RunHead::Version, ONE, buffer),
        RunLine::Root(place, word) => end_line(line, RunHead::Root, (place, word), buffer),
        RunLine::Hart(hart) => end_line(line, RunHead::Hart, HartNumber(hart), buffer),
        RunLine::Run(step) => write_run_step(line, step, buffer),
    }
}

/// Writes the line of an `exchange` and its line feed, as [`write_run_line`] does, and asks for no other kind.
#[inline(always)]
pub fn write_exchange(exchange: Exchange, buffer: &mut [u8; 96]) -> usize
    ensures line { IsRunLineAt (lines.Run (steps.Exchange exchange)) buffer.old buffer.new result }
{
    let results = Results {
        general: exchange.result,
        special: exchange.special_result,
    };
    let target = RunTarget::general(exchange.target);
    let source = RunSource::general(exchange.source);
    let special = exchange.special;
    special.number();
    target.register();
    source.register();
    let parts = (target, (source, (special, results)));
    let line = RunLine::Run(RunStep::Exchange(exchange));
    end_line(&line, RunHead::Exchange, parts, buffer)
}

// Writes a line by its head and the parts after it, with a line feed.
#[inline(always)]
fn end_line<P: Part>(line: &RunLine, head: RunHead, parts: P, buffer: &mut [u8; 96]) -> usize
    requires in_range { IsRunLineInRange line.now }
    requires fits { P.fits parts }
    requires spelling { run_spelling line.now ≡ run_head_spelling head ++ 32 ∷ P.spelled parts }
    ensures { IsRunLineAt line.now buffer.old buffer.new result }
{
    let end = (head, parts).write(buffer, 0);
    put(buffer, end, b"\n")
}

// Writes a step that only runs have.
#[inline(always)]
fn write_run_step(line: &RunLine, step: RunStep, buffer: &mut [u8; 96]) -> usize
    requires same { line.now ≡ lines.Run step }
    requires in_range { IsRunStepInRange step }
    ensures { IsRunLineAt line.now buffer.old buffer.new result }
{
    match step {
        RunStep::Drop(place) => end_line(line, RunHead::Drop, place, buffer),
        RunStep::Fill(granule, word) => {
            end_line(line, RunHead::Fill, (Granule(granule), word), buffer)
        }
        RunStep::Object(register) => {
            end_line(line, RunHead::Object, Handed::Alone(register), buffer)
        }
        RunStep::Widen(register, number) => {
            let handed = Handed::Numbered(register, number);
            end_line(line, RunHead::Object, handed, buffer)
        }
        RunStep::FreeOwner(register) => {
            end_line(line, RunHead::Free, Freed::Owner(register), buffer)
        }
        RunStep::FreeNumber(number) => {
            end_line(line, RunHead::Free, Freed::Number(number), buffer)
        }
        RunStep::Derive(step) => {
            let parts = (step.target, (step.source, step.result));
            end_line(line, RunHead::Derive, parts, buffer)
        }
        RunStep::Exchange(exchange) => write_exchange(exchange, buffer),
        RunStep::Invoke(step) => {
            let words = (EQUALS, (step.code_word, step.datum_word));
            let datum = RunSource::general(step.datum);
            let code = RunSource::general(step.code);
            end_line(line, RunHead::Invoke, (code, (datum, words)), buffer)
        }
    }
}
