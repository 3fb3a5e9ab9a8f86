//! Steps handed over to a judge of run logs that C holds, without their lines.

ghost use Rattle.std.specs.Prelude.{◌≡◌, ◌⊎◌, [], ◌∷◌, ◌++◌, IfSome, Option, option_map};
ghost use Rattle.cap_log.specs.{Lines.IsStepInRange, declared.kinds.Step.Step as StepIn};
ghost use Rattle.cap_run_log.specs.RunLines.{IsRunLineInRange, IsRunStepInRange, run_spelling};
ghost use Rattle.cap_run_log.specs.declared.lines.RunLine.TheVariants as line;
ghost use Rattle.cap_run_log.specs.declared.lines.RunStep.{RunStep as RunStepIn};
ghost use Rattle.cap_halves.specs.{PassedLines.run_line_passed, PassedRuns.IsStepFrom};
ghost use Rattle.cap_run_judge.specs.Readings.{IsUnmade, stage_of};
ghost use Rattle.capcheck_judge.specs.{Holding.IsNoStep, RunHandles.{HandsOverRunStep, run_held_in}, RunTakings.TakesRunLine};

use crate::run_handle::RunHandle;
use cap_halves::kinds::FIRST_RUN_KIND;
use cap_halves::line_steps::{run_step_from, step_from};
use cap_halves::values::PassedRunLine;
use cap_judge::TakeFault;
use cap_log::Step;
use cap_machine::Instruction;
use cap_report::answers::{GOES_ON, NO, NO_JUDGE, NO_LINE, NO_MEMORY};
use cap_run::RunEnd;
use cap_run_judge::RunJudge;
use cap_run_log::{RunLine, RunStep};
use std::alloc::Global;
use tagmem::PageStore;

/// Hands over the step that a line's kind and numbers name: it answers as `capcheck_run_judge_line` does on the line that
/// spells the step. If they name none, or a number is out of its range, it answers 5, and nothing has changed. What a line
/// of its kind doesn't have isn't looked at.
#[unsafe(no_mangle)]
pub extern "C" fn capcheck_run_step(
    alloc: Global,
    judge: &mut RunHandle,
    line: &PassedRunLine,
) -> u8
    ensures step { HandsOverRunStep (run_line_passed line.now) (run_held_in judge.old) (run_held_in judge.new) result }
{
    if line.line.kind < FIRST_RUN_KIND {
        hand_over_usual(alloc, judge, step_from(&line.line))
    } else {
        hand_over_run(alloc, judge, run_step_from(line))
    }
}

// Hands over the step of version 2 that C's numbers make. If they make none, returns that they are no line, and nothing
// has changed.
fn hand_over_usual(alloc: Global, judge: &mut RunHandle, step: Option<Step>) -> u8
    ensures handed { (passed : Option StepIn) → IsStepFrom IsStepInRange passed step
        → HandsOverRunStep (option_map line.Step passed) (run_held_in judge.old) (run_held_in judge.new) result }
{
    match step {
        Some(step) =>
            ask!(judge, alloc, |held| state = take_usual_step(&mut held, step), state, else NO_JUDGE),
        None => hand_over_none(alloc, judge),
    }
}

// Hands over the step that C's numbers make, and that only runs have, in the same way.
fn hand_over_run(alloc: Global, judge: &mut RunHandle, step: Option<RunStep>) -> u8
    requires range { IfSome step IsRunStepInRange }
    ensures handed { (passed : Option RunStepIn) → IsStepFrom IsRunStepInRange passed step
        → HandsOverRunStep (option_map line.Run passed) (run_held_in judge.old) (run_held_in judge.new) result }
{
    match step {
        Some(step) =>
            ask!(judge, alloc, |held| state = take_run_step(&mut held, step), state, else NO_JUDGE),
        None => hand_over_none(alloc, judge),
    }
}

// Whether a handle holds a judge, if no step is handed over: 5, or 4 if it holds none.
fn hand_over_none(alloc: Global, judge: &mut RunHandle) -> u8
    ensures state { IsNoStep (run_held_in judge.old) result }
    ensures kept { run_held_in judge.new ≡ run_held_in judge.old }
{
    ask!(judge, alloc, |held| state = NO_LINE, state, else NO_JUDGE)
}

// Hands a step of version 2 to a judge of run logs: 0, 2 or 3, as `capcheck_run_judge_line` says of its line.
fn take_usual_step(judge: &mut RunJudge<PageStore>, step: Step) -> u8
    ensures answers { (result ≡ 0) ⊎ (result ≡ 2) ⊎ (result ≡ 3) }
    ensures takes { TakesRunLine judge.old (run_spelling (line.Step step) ++ 10 ∷ []) result judge.new }
{
    by_kind!(step, step => take_step_of_kind(judge, step))
}

// Hands a step of one kind to a judge.
#[inline(always)]
fn take_step_of_kind<I: Instruction>(judge: &mut RunJudge<PageStore>, step: I) -> u8
    ensures answers { (result ≡ 0) ⊎ (result ≡ 2) ⊎ (result ≡ 3) }
    ensures takes { (of : StepIn) → of ≡ I.step step
        → TakesRunLine judge.old (run_spelling (line.Step of) ++ 10 ∷ []) result judge.new }
{
    match judge.make_step(step) {
        Ok(()) => GOES_ON,
        Err(end) => take_unmade_step(judge, step, end),
    }
}

// Hands a step to a judge that did not make it. The call gets a value of its own: so a step needn't stand in memory
// where it is made.
#[inline(always)]
fn take_unmade_step<I: Instruction>(
    judge: &mut RunJudge<PageStore>,
    step: I,
    end: Option<RunEnd>,
) -> u8
    requires ends { IfSome end (IsUnmade (stage_of judge.old) (line.Step (I.step step))) }
    ensures answers { (result ≡ 0) ⊎ (result ≡ 2) ⊎ (result ≡ 3) }
    ensures takes { TakesRunLine judge.old (run_spelling (line.Step (I.step step)) ++ 10 ∷ []) result judge.new }
{
    step.in_range();
    take_unmade_line(judge, &RunLine::Step(step.into_step()), end)
}

// Hands a step that only runs have to a judge.
fn take_run_step(judge: &mut RunJudge<PageStore>, step: RunStep) -> u8
    requires { IsRunStepInRange step }
    ensures answers { (result ≡ 0) ⊎ (result ≡ 2) ⊎ (result ≡ 3) }
    ensures takes { TakesRunLine judge.old (run_spelling (line.Run step) ++ 10 ∷ []) result judge.new }
{
    match judge.make_run_step(&step) {
        Ok(()) => GOES_ON,
        Err(end) => take_unmade_line(judge, &RunLine::Run(step), end),
    }
}

// Hands the line of a step to a judge that did not make it.
fn take_unmade_line(judge: &mut RunJudge<PageStore>, line: &RunLine, end: Option<RunEnd>) -> u8
    requires range { IsRunLineInRange line.now }
    requires ends { IfSome end (IsUnmade (stage_of judge.old) line.now) }
    ensures answers { (result ≡ 0) ⊎ (result ≡ 2) ⊎ (result ≡ 3) }
    ensures takes { TakesRunLine judge.old (run_spelling line.now ++ 10 ∷ []) result judge.new }
{
    state!(judge.take_unmade(line, end), judge.refused())
}
