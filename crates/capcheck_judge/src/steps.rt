//! Steps handed over to a judge that C holds, without their lines.
//!
//! Each call answers as `capcheck_judge_line` does on the line that spells the step. If a number is out of its
//! range no line spells it: it answers 5, and nothing has changed. `capcheck_judge_step` takes any of the twelve.

ghost use Rattle.std.specs.Prelude.{◌≡◌, ◌⊎◌, [], ◌∷◌, ◌++◌, IfSome};
ghost use Rattle.cap_log.specs.Lines.{spelling};
ghost use Rattle.cap_log.specs.declared.lines.Line.TheVariants as line;
ghost use Rattle.cap_judge.specs.Readings.{IsUnmade};
ghost use Rattle.cap_log.specs.declared.kinds.Step.{Step as StepIn};
ghost use Rattle.cap_log.specs.declared.kinds.Step.TheVariants as steps;
ghost use Rattle.cap_halves.specs.PassedLines.{step_passed};
ghost use Rattle.cap_halves.specs.PassedSteps.{authorized_passed, data_passed, lc_passed, numbered_passed, plain_passed, sc_passed};
ghost use Rattle.capcheck_judge.specs.{Handles.{HandsOver, HandsOverStep, held_in}, Takings.TakesLine};

use crate::handle::Handle;
use cap_halves::halves::from_c;
use cap_halves::line_steps::step_from;
use cap_halves::values::{Capability, PassedLine};
use cap_judge::{Judge, TakeFault};
use cap_log::Step;
use cap_log::kinds::{
    AndPerm, ClearTag, Load, LoadCap, Move, Seal, SetAddr, SetBounds, SetBoundsExact, Store,
    StoreCap, Unseal,
};
use cap_machine::{Instruction, StepEnd};
use cap_report::answers::{GOES_ON, NO, NO_JUDGE, NO_LINE, NO_MEMORY};
use std::alloc::Global;
use tagmem::{PageStore, TaggedStore};

/// Hands over a step `move`.
#[unsafe(no_mangle)]
pub extern "C" fn capcheck_judge_move(
    alloc: Global,
    judge: &mut Handle,
    target: u64,
    source: u64,
    recorded: Capability,
) -> u8
    ensures step { HandsOver (line.Step (steps.Move (plain_passed target source recorded))) (held_in judge.old) (held_in judge.new) result }
{
    hand_over::<Move>(alloc, judge, (target, source, from_c(recorded)))
}

/// Hands over a step `cleartag`.
#[unsafe(no_mangle)]
pub extern "C" fn capcheck_judge_cleartag(
    alloc: Global,
    judge: &mut Handle,
    target: u64,
    source: u64,
    recorded: Capability,
) -> u8
    ensures step { HandsOver (line.Step (steps.ClearTag (plain_passed target source recorded))) (held_in judge.old) (held_in judge.new) result }
{
    hand_over::<ClearTag>(alloc, judge, (target, source, from_c(recorded)))
}

/// Hands over a step `setbounds`.
#[unsafe(no_mangle)]
pub extern "C" fn capcheck_judge_setbounds(
    alloc: Global,
    judge: &mut Handle,
    target: u64,
    source: u64,
    length: u64,
    recorded: Capability,
) -> u8
    ensures step { HandsOver (line.Step (steps.SetBounds (numbered_passed target source length recorded))) (held_in judge.old) (held_in judge.new) result }
{
    hand_over::<SetBounds>(alloc, judge, (target, source, length, from_c(recorded)))
}

/// Hands over a step `setboundsexact`.
#[unsafe(no_mangle)]
pub extern "C" fn capcheck_judge_setboundsexact(
    alloc: Global,
    judge: &mut Handle,
    target: u64,
    source: u64,
    length: u64,
    recorded: Capability,
) -> u8
    ensures step { HandsOver (line.Step (steps.SetBoundsExact (numbered_passed target source length recorded))) (held_in judge.old) (held_in judge.new) result }
{
    hand_over::<SetBoundsExact>(alloc, judge, (target, source, length, from_c(recorded)))
}

/// Hands over a step `setaddr`.
#[unsafe(no_mangle)]
pub extern "C" fn capcheck_judge_setaddr(
    alloc: Global,
    judge: &mut Handle,
    target: u64,
    source: u64,
    address: u64,
    recorded: Capability,
) -> u8
    ensures step { HandsOver (line.Step (steps.SetAddr (numbered_passed target source address recorded))) (held_in judge.old) (held_in judge.new) result }
{
    hand_over::<SetAddr>(alloc, judge, (target, source, address, from_c(recorded)))
}

/// Hands over a step `andperm`.
#[unsafe(no_mangle)]
pub extern "C" fn capcheck_judge_andperm(
    alloc: Global,
    judge: &mut Handle,
    target: u64,
    source: u64,
    mask: u64,
    recorded: Capability,
) -> u8
    ensures step { HandsOver (line.Step (steps.AndPerm (numbered_passed target source mask recorded))) (held_in judge.old) (held_in judge.new) result }
{
    hand_over::<AndPerm>(alloc, judge, (target, source, mask, from_c(recorded)))
}

/// Hands over a step `seal`.
#[unsafe(no_mangle)]
pub extern "C" fn capcheck_judge_seal(
    alloc: Global,
    judge: &mut Handle,
    target: u64,
    source: u64,
    authority: u64,
    recorded: Capability,
) -> u8
    ensures step { HandsOver (line.Step (steps.Seal (authorized_passed target source authority recorded))) (held_in judge.old) (held_in judge.new) result }
{
    hand_over::<Seal>(alloc, judge, (target, source, authority, from_c(recorded)))
}

/// Hands over a step `unseal`.
#[unsafe(no_mangle)]
pub extern "C" fn capcheck_judge_unseal(
    alloc: Global,
    judge: &mut Handle,
    target: u64,
    source: u64,
    authority: u64,
    recorded: Capability,
) -> u8
    ensures step { HandsOver (line.Step (steps.Unseal (authorized_passed target source authority recorded))) (held_in judge.old) (held_in judge.new) result }
{
    hand_over::<Unseal>(alloc, judge, (target, source, authority, from_c(recorded)))
}

/// Hands over a step `lc`.
#[unsafe(no_mangle)]
pub extern "C" fn capcheck_judge_lc(
    alloc: Global,
    judge: &mut Handle,
    target: u64,
    authority: u64,
    offset: i64,
    recorded: Capability,
) -> u8
    ensures step { HandsOver (line.Step (steps.LoadCap (lc_passed target authority offset recorded))) (held_in judge.old) (held_in judge.new) result }
{
    hand_over::<LoadCap>(alloc, judge, (target, authority, offset, from_c(recorded)))
}

/// Hands over a step `sc`.
#[unsafe(no_mangle)]
pub extern "C" fn capcheck_judge_sc(
    alloc: Global,
    judge: &mut Handle,
    source: u64,
    authority: u64,
    offset: i64,
) -> u8
    ensures step { HandsOver (line.Step (steps.StoreCap (sc_passed source authority offset))) (held_in judge.old) (held_in judge.new) result }
{
    hand_over::<StoreCap>(alloc, judge, (source, authority, offset))
}

/// Hands over a step `load`: `size` is 1, 2, 4 or 8, and `value` is below 256^size.
#[unsafe(no_mangle)]
pub extern "C" fn capcheck_judge_load(
    alloc: Global,
    judge: &mut Handle,
    authority: u64,
    offset: i64,
    size: u64,
    value: u64,
) -> u8
    ensures step { HandsOver (line.Step (steps.Load (data_passed authority offset size value))) (held_in judge.old) (held_in judge.new) result }
{
    hand_over::<Load>(alloc, judge, (authority, offset, size, value))
}

/// Hands over a step `store`: `size` is 1, 2, 4 or 8, and `value` is below 256^size.
#[unsafe(no_mangle)]
pub extern "C" fn capcheck_judge_store(
    alloc: Global,
    judge: &mut Handle,
    authority: u64,
    offset: i64,
    size: u64,
    value: u64,
) -> u8
    ensures step { HandsOver (line.Step (steps.Store (data_passed authority offset size value))) (held_in judge.old) (held_in judge.new) result }
{
    hand_over::<Store>(alloc, judge, (authority, offset, size, value))
}

/// Hands over the step that a line's kind and numbers name: it answers as `capcheck_judge_line` does on the line that spells
/// the step. If they name none, or a number is out of its range, it answers 5, and nothing has changed. What a line of its
/// kind doesn't have isn't looked at.
#[unsafe(no_mangle)]
pub extern "C" fn capcheck_judge_step(alloc: Global, judge: &mut Handle, line: &PassedLine) -> u8
    ensures step { HandsOverStep (step_passed line.now) (held_in judge.old) (held_in judge.new) result }
{
    match step_from(line) {
        Some(step) =>
            ask!(judge, alloc, |held| state = take_any_step(&mut held, step), state, else NO_JUDGE),
        None => ask!(judge, alloc, |held| state = NO_LINE, state, else NO_JUDGE),
    }
}

// Hands over the step that C's numbers make. If they make none, returns that they are no line, and nothing has changed.
#[inline(always)]
fn hand_over<I: Instruction>(alloc: Global, judge: &mut Handle, numbers: I::Numbers) -> u8
    ensures { HandsOver (line.Step (I.step (I.meant numbers))) (held_in judge.old) (held_in judge.new) result }
{
    match I::from_numbers(numbers) {
        Some(step) =>
            ask!(judge, alloc, |held| state = take_step(&mut held, step), state, else NO_JUDGE),
        None => ask!(judge, alloc, |held| state = NO_LINE, state, else NO_JUDGE),
    }
}

// Hands a step of any kind to a judge.
fn take_any_step(judge: &mut Judge<PageStore>, step: Step) -> u8
    ensures answers { (result ≡ 0) ⊎ (result ≡ 2) ⊎ (result ≡ 3) }
    ensures takes { TakesLine judge.old (spelling (line.Step step) ++ 10 ∷ []) result judge.new }
{
    by_kind!(step, step => take_step(judge, step))
}

// Hands a step of one kind to a judge: 0, 2 or 3, as `capcheck_judge_line` says of its line.
#[inline(always)]
fn take_step<I: Instruction>(judge: &mut Judge<PageStore>, step: I) -> u8
    ensures answers { (result ≡ 0) ⊎ (result ≡ 2) ⊎ (result ≡ 3) }
    ensures takes { (of : StepIn) → of ≡ I.step step → TakesLine judge.old (spelling (line.Step of) ++ 10 ∷ []) result judge.new }
{
    match judge.make_step(step) {
        Ok(()) => GOES_ON,
        Err(end) => take_unmade(judge, step, end),
    }
}

// Hands a step to a judge that did not make it. The call gets a value of its own: so a step needn't stand in memory
// where it is made.
#[inline(always)]
fn take_unmade<I: Instruction>(judge: &mut Judge<PageStore>, step: I, end: Option<StepEnd>) -> u8
    requires ends { IfSome end (IsUnmade judge.old (I.step step)) }
    ensures answers { (result ≡ 0) ⊎ (result ≡ 2) ⊎ (result ≡ 3) }
    ensures takes { TakesLine judge.old (spelling (line.Step (I.step step)) ++ 10 ∷ []) result judge.new }
{
    state!(judge.take_unmade(step.into_step(), end), judge.answer())
}
