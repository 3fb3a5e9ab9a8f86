//! The step that a line's kind and numbers name, as C passes them. What a line of its kind doesn't have isn't looked at.

ghost use Rattle.std.specs.Prelude.{IfSome, Some};
ghost use Rattle.cap_log.specs.Lines.{IsStepInRange};
ghost use Rattle.cap_run_log.specs.RunLines.{IsRunStepInRange};
ghost use Rattle.cap_halves.specs.{PassedLines.{run_step_passed, step_passed}, PassedRuns.IsStepFrom};

use crate::halves::from_c;
use crate::kinds::{
    ANDPERM, CLEARTAG, DERIVE, DROP, EXCHANGE, FILL, FREE, INVOKE, LC, LOAD, MOVE, OBJECT, SC,
    SEAL, SETADDR, SETBOUNDS, SETBOUNDSEXACT, STORE, UNSEAL,
};
use crate::run_steps::{
    derive_from, drop_from, exchange_from, fill_from, free_from, invoke_from, object_from,
};
use crate::values::{PassedLine, PassedRunLine};
use cap_log::kinds::{
    AndPerm, ClearTag, Load, LoadCap, Move, Seal, SetAddr, SetBounds, SetBoundsExact, Store,
    StoreCap, Unseal,
};
use cap_log::{Operands, Step};
use cap_run_log::RunStep;

/// The step of version 2 that a line's numbers make. `None` if it is of another kind, or a number is out of its range.
pub fn step_from(line: &PassedLine) -> Option<Step>
    ensures step { IsStepFrom IsStepInRange (step_passed line.now) result }
{
    let (target, source) = (u64::from(line.target), u64::from(line.source));
    let (authority, offset) = (u64::from(line.authority), i64::from(line.offset));
    let (number, size, recorded) = (line.number, u64::from(line.size), from_c(line.cap));
    match line.kind {
        MOVE => step_of::<Move>((target, source, recorded)),
        CLEARTAG => step_of::<ClearTag>((target, source, recorded)),
        SETBOUNDS => step_of::<SetBounds>((target, source, number, recorded)),
        SETBOUNDSEXACT => step_of::<SetBoundsExact>((target, source, number, recorded)),
        SETADDR => step_of::<SetAddr>((target, source, number, recorded)),
        ANDPERM => step_of::<AndPerm>((target, source, number, recorded)),
        SEAL => step_of::<Seal>((target, source, authority, recorded)),
        UNSEAL => step_of::<Unseal>((target, source, authority, recorded)),
        LC => step_of::<LoadCap>((target, authority, offset, recorded)),
        SC => step_of::<StoreCap>((source, authority, offset)),
        LOAD => step_of::<Load>((authority, offset, size, number)),
        STORE => step_of::<Store>((authority, offset, size, number)),
        _ => None,
    }
}

// The step of one kind that numbers make.
#[inline(always)]
fn step_of<O: Operands>(numbers: O::Numbers) -> Option<Step>
    ensures { IsStepFrom IsStepInRange (Some (O.step (O.meant numbers))) result }
{
    let operands = O::from_numbers(numbers)?;
    Some(operands.into_step())
}

/// The step that only runs have and that a line's numbers make, in the same way.
pub fn run_step_from(passed: &PassedRunLine) -> Option<RunStep>
    ensures step { IsStepFrom IsRunStepInRange (run_step_passed passed.now) result }
    ensures range { IfSome result IsRunStepInRange }
{
    let line = &passed.line;
    let (target, source) = (u64::from(line.target), u64::from(line.source));
    match line.kind {
        DERIVE => derive_from(passed.target, passed.source, line.cap),
        EXCHANGE => exchange_from(target, source, line.number, line.cap, passed.second),
        INVOKE => {
            let datum = u64::from(line.authority);
            invoke_from(source, datum, line.cap.word, passed.second.word)
        }
        DROP => drop_from(passed.target),
        FILL => fill_from(line.number, line.cap.word),
        OBJECT => object_from(source, line.number),
        FREE => free_from(source, line.number),
        _ => None,
    }
}
