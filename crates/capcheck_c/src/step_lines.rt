//! The lines of steps: written from the numbers that C passes, and read as such.
//!
//! Each call answers how many bytes it wrote, the line feed with them, or 0 if a number is out of its
//! range; then the buffer is as it was.

ghost use Rattle.std.specs.Prelude.{◌≡◌, ◌≢◌, ◌≤◌};
ghost use Rattle.cap_log.specs.declared.lines.Line.TheVariants as line;
ghost use Rattle.cap_log.specs.declared.kinds.Step.TheVariants as steps;
ghost use Rattle.cap_halves.specs.PassedSteps.{authorized_passed, data_passed, lc_passed, numbered_passed, plain_passed, sc_passed};
ghost use Rattle.capcheck_c.specs.{LinesRead.IsStepRead, LinesWritten.AnswersLine};

use crate::values::{capability_line, number_line, step_line};
use cap_halves::halves::from_c;
use cap_halves::kinds::{
    ANDPERM, CLEARTAG, LC, LOAD, MOVE, SC, SEAL, SETADDR, SETBOUNDS, SETBOUNDSEXACT, STORE, UNSEAL,
};
use cap_halves::values::{Capability, PassedLine};
use cap_log::kinds::{
    AndPerm, ClearTag, Load, LoadCap, Move, Seal, SetAddr, SetBounds, SetBoundsExact, Store,
    StoreCap, Unseal,
};
use cap_log::{Operands, Step, write_step};

/// Writes the line of a step `move` into the buffer.
#[unsafe(no_mangle)]
pub extern "C" fn capcheck_line_move(
    buffer: &mut [u8; 96],
    target: u64,
    source: u64,
    recorded: Capability,
) -> usize
    ensures line { AnswersLine (line.Step (steps.Move (plain_passed target source recorded))) buffer.old buffer.new result }
{
    put_step::<Move>((target, source, from_c(recorded)), buffer)
}

/// Writes the line of a step `cleartag` into the buffer.
#[unsafe(no_mangle)]
pub extern "C" fn capcheck_line_cleartag(
    buffer: &mut [u8; 96],
    target: u64,
    source: u64,
    recorded: Capability,
) -> usize
    ensures line { AnswersLine (line.Step (steps.ClearTag (plain_passed target source recorded))) buffer.old buffer.new result }
{
    put_step::<ClearTag>((target, source, from_c(recorded)), buffer)
}

/// Writes the line of a step `setbounds` into the buffer.
#[unsafe(no_mangle)]
pub extern "C" fn capcheck_line_setbounds(
    buffer: &mut [u8; 96],
    target: u64,
    source: u64,
    length: u64,
    recorded: Capability,
) -> usize
    ensures line { AnswersLine (line.Step (steps.SetBounds (numbered_passed target source length recorded))) buffer.old buffer.new result }
{
    put_step::<SetBounds>((target, source, length, from_c(recorded)), buffer)
}

/// Writes the line of a step `setboundsexact` into the buffer.
#[unsafe(no_mangle)]
pub extern "C" fn capcheck_line_setboundsexact(
    buffer: &mut [u8; 96],
    target: u64,
    source: u64,
    length: u64,
    recorded: Capability,
) -> usize
    ensures line { AnswersLine (line.Step (steps.SetBoundsExact (numbered_passed target source length recorded))) buffer.old buffer.new result }
{
    put_step::<SetBoundsExact>((target, source, length, from_c(recorded)), buffer)
}

/// Writes the line of a step `setaddr` into the buffer.
#[unsafe(no_mangle)]
pub extern "C" fn capcheck_line_setaddr(
    buffer: &mut [u8; 96],
    target: u64,
    source: u64,
    address: u64,
    recorded: Capability,
) -> usize
    ensures line { AnswersLine (line.Step (steps.SetAddr (numbered_passed target source address recorded))) buffer.old buffer.new result }
{
    put_step::<SetAddr>((target, source, address, from_c(recorded)), buffer)
}

/// Writes the line of a step `andperm` into the buffer.
#[unsafe(no_mangle)]
pub extern "C" fn capcheck_line_andperm(
    buffer: &mut [u8; 96],
    target: u64,
    source: u64,
    mask: u64,
    recorded: Capability,
) -> usize
    ensures line { AnswersLine (line.Step (steps.AndPerm (numbered_passed target source mask recorded))) buffer.old buffer.new result }
{
    put_step::<AndPerm>((target, source, mask, from_c(recorded)), buffer)
}

/// Writes the line of a step `seal` into the buffer.
#[unsafe(no_mangle)]
pub extern "C" fn capcheck_line_seal(
    buffer: &mut [u8; 96],
    target: u64,
    source: u64,
    authority: u64,
    recorded: Capability,
) -> usize
    ensures line { AnswersLine (line.Step (steps.Seal (authorized_passed target source authority recorded))) buffer.old buffer.new result }
{
    put_step::<Seal>((target, source, authority, from_c(recorded)), buffer)
}

/// Writes the line of a step `unseal` into the buffer.
#[unsafe(no_mangle)]
pub extern "C" fn capcheck_line_unseal(
    buffer: &mut [u8; 96],
    target: u64,
    source: u64,
    authority: u64,
    recorded: Capability,
) -> usize
    ensures line { AnswersLine (line.Step (steps.Unseal (authorized_passed target source authority recorded))) buffer.old buffer.new result }
{
    put_step::<Unseal>((target, source, authority, from_c(recorded)), buffer)
}

/// Writes the line of a step `lc` into the buffer.
#[unsafe(no_mangle)]
pub extern "C" fn capcheck_line_lc(
    buffer: &mut [u8; 96],
    target: u64,
    authority: u64,
    offset: i64,
    recorded: Capability,
) -> usize
    ensures line { AnswersLine (line.Step (steps.LoadCap (lc_passed target authority offset recorded))) buffer.old buffer.new result }
{
    put_step::<LoadCap>((target, authority, offset, from_c(recorded)), buffer)
}

/// Writes the line of a step `sc` into the buffer.
#[unsafe(no_mangle)]
pub extern "C" fn capcheck_line_sc(
    buffer: &mut [u8; 96],
    source: u64,
    authority: u64,
    offset: i64,
) -> usize
    ensures line { AnswersLine (line.Step (steps.StoreCap (sc_passed source authority offset))) buffer.old buffer.new result }
{
    put_step::<StoreCap>((source, authority, offset), buffer)
}

/// Writes the line of a step `load` into the buffer: `size` is 1, 2, 4 or 8, and `value` is below 256^size.
#[unsafe(no_mangle)]
pub extern "C" fn capcheck_line_load(
    buffer: &mut [u8; 96],
    authority: u64,
    offset: i64,
    size: u64,
    value: u64,
) -> usize
    ensures line { AnswersLine (line.Step (steps.Load (data_passed authority offset size value))) buffer.old buffer.new result }
{
    put_step::<Load>((authority, offset, size, value), buffer)
}

/// Writes the line of a step `store` into the buffer: `size` is 1, 2, 4 or 8, and `value` is below 256^size.
#[unsafe(no_mangle)]
pub extern "C" fn capcheck_line_store(
    buffer: &mut [u8; 96],
    authority: u64,
    offset: i64,
    size: u64,
    value: u64,
) -> usize
    ensures line { AnswersLine (line.Step (steps.Store (data_passed authority offset size value))) buffer.old buffer.new result }
{
    put_step::<Store>((authority, offset, size, value), buffer)
}

// Writes the line of the step that C's numbers make. If they make none, it answers 0, and the buffer is as it was.
#[inline(always)]
fn put_step<O: Operands>(numbers: O::Numbers, buffer: &mut [u8; 96]) -> usize
    ensures { AnswersLine (line.Step (O.step (O.meant numbers))) buffer.old buffer.new result }
{
    match O::from_numbers(numbers) {
        Some(step) => write_step(step, buffer),
        None => 0,
    }
}

/// What is read of a step, by a line of so many bytes.
pub(crate) fn step_read(step: Step, count: usize) -> PassedLine
    ensures read { IsStepRead step result }
    ensures kind { result.kind ≢ 0 }
    ensures length { result.length ≡ count }
    ensures tag { result.cap.tag ≤ 1 }
{
    match step {
        Step::Move(step) => step_line(MOVE, step.target, step.source, step.result, count),
        Step::ClearTag(step) => step_line(CLEARTAG, step.target, step.source, step.result, count),
        Step::SetBounds(step) => PassedLine {
            number: step.number,
            ..step_line(SETBOUNDS, step.target, step.source, step.result, count)
        },
        Step::SetBoundsExact(step) => PassedLine {
            number: step.number,
            ..step_line(SETBOUNDSEXACT, step.target, step.source, step.result, count)
        },
        Step::SetAddr(step) => PassedLine {
            number: step.number,
            ..step_line(SETADDR, step.target, step.source, step.result, count)
        },
        Step::AndPerm(step) => PassedLine {
            number: step.number,
            ..step_line(ANDPERM, step.target, step.source, step.result, count)
        },
        Step::Seal(step) => PassedLine {
            authority: step.authority.number(),
            ..step_line(SEAL, step.target, step.source, step.result, count)
        },
        Step::Unseal(step) => PassedLine {
            authority: step.authority.number(),
            ..step_line(UNSEAL, step.target, step.source, step.result, count)
        },
        Step::LoadCap(step) => PassedLine {
            authority: step.authority.number(),
            offset: step.offset.number(),
            ..capability_line(LC, step.target.number(), step.result, count)
        },
        Step::StoreCap(step) => PassedLine {
            source: step.source.number(),
            authority: step.authority.number(),
            offset: step.offset.number(),
            ..number_line(SC, 0, count)
        },
        Step::Load(step) => PassedLine {
            authority: step.authority.number(),
            offset: step.offset.number(),
            size: step.datum.size().bytes(),
            ..number_line(LOAD, step.datum.value(), count)
        },
        Step::Store(step) => PassedLine {
            authority: step.authority.number(),
            offset: step.offset.number(),
            size: step.datum.size().bytes(),
            ..number_line(STORE, step.datum.value(), count)
        },
    }
}
