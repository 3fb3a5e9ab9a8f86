//! The lines that only run logs have, written from the numbers that C passes.
//!
//! Each call answers how many bytes it wrote, the line feed with them, or 0 if a number is out of its
//! range; then the buffer is as it was.

ghost use Rattle.std.specs.Prelude.{◌≡◌, ◌≤◌, IfSome, Option, Some};
ghost use Rattle.cap_run_log.specs.declared.lines.RunLine.TheVariants as line;
ghost use Rattle.cap_run_log.specs.declared.lines.RunPlace.TheVariants as place;
ghost use Rattle.cap_run_log.specs.declared.lines.RunStep.{RunStep as StepIn};
ghost use Rattle.cap_run_log.specs.RunLines.{IsRunLineAt, IsRunStepInRange};
ghost use Rattle.cap_halves.specs.Passed.{whole_of};
ghost use Rattle.cap_halves.specs.PassedRuns.{IsStepFrom, derive_passed, drop_passed, exchange_passed, fill_passed, free_passed};
ghost use Rattle.cap_halves.specs.PassedRuns.{invoke_passed, object_passed};
ghost use Rattle.capcheck_c.specs.RunLinesWritten.{AnswersRunLine, AnswersRunStep};

use cap_halves::halves::{from_c, word_of};
use cap_halves::run_steps::{
    derive_from, drop_from, fill_from, free_from, invoke_from, object_from,
};
use cap_halves::values::{Capability, Halves, PassedPlace};
use cap_log::{Register, Target};
use cap_run_log::{Exchange, RunLine, RunPlace, RunStep, Special, write_exchange, write_run_line};

/// Writes the version line of a run log into the buffer.
#[unsafe(no_mangle)]
pub extern "C" fn capcheck_line_run_version(buffer: &mut [u8; 96]) -> usize
    ensures line { IsRunLineAt line.Version buffer.old buffer.new result }
{
    write_run_line(&RunLine::Version, buffer)
}

/// Writes the line of a root in a special register, 0 to 31, into the buffer.
#[unsafe(no_mangle)]
pub extern "C" fn capcheck_line_root_special(
    buffer: &mut [u8; 96],
    special: u64,
    word: Halves,
) -> usize
    ensures line { AnswersRunLine (line.Root (place.Special special) (record { 0 = whole_of word })) buffer.old buffer.new result }
{
    if special > 31 {
        return 0;
    }
    let place = RunPlace::Special(special as u8);
    write_run_line(&RunLine::Root(place, word_of(word)), buffer)
}

/// Writes a hart line into the buffer: the number of a hart, 0 to 65,535.
#[unsafe(no_mangle)]
pub extern "C" fn capcheck_line_hart(buffer: &mut [u8; 96], hart: u64) -> usize
    ensures line { AnswersRunLine (line.Hart hart) buffer.old buffer.new result }
{
    if hart > 0xffff {
        return 0;
    }
    write_run_line(&RunLine::Hart(hart as u16), buffer)
}

/// Writes the line of a step `derive` into the buffer: the target is a register 1 to 31 or a special register, the source
/// a register 0 to 31 or a special register.
#[unsafe(no_mangle)]
pub extern "C" fn capcheck_line_derive(
    buffer: &mut [u8; 96],
    target: PassedPlace,
    source: PassedPlace,
    recorded: Capability,
) -> usize
    ensures line { AnswersRunStep (derive_passed target source recorded) buffer.old buffer.new result }
{
    put_run_step(derive_from(target, source, recorded), buffer)
}

/// Writes the line of a step `exchange` into the buffer: a target 1 to 31, a source 0 to 31, a special register 0 to 31, and
/// what the target and the special register hold then.
#[unsafe(no_mangle)]
pub extern "C" fn capcheck_line_exchange(
    buffer: &mut [u8; 96],
    target: u64,
    source: u64,
    special: u64,
    recorded: Capability,
    special_recorded: Capability,
) -> usize
    ensures line { AnswersRunStep (Some (exchange_passed target source special recorded special_recorded)) buffer.old buffer.new result }
{
    let Some(target) = Target::new(target) else {
        return 0;
    };
    let Some(source) = Register::new(source) else {
        return 0;
    };
    let Some(special) = Special::new(special) else {
        return 0;
    };
    let exchange = Exchange {
        target,
        source,
        special,
        result: from_c(recorded),
        special_result: from_c(special_recorded),
    };
    write_exchange(exchange, buffer)
}

/// Writes the line of a step `invoke` into the buffer: the registers of the code and of the datum, 0 to 31, and the words
/// that scr0 and c31 hold then.
#[unsafe(no_mangle)]
pub extern "C" fn capcheck_line_invoke(
    buffer: &mut [u8; 96],
    code: u64,
    datum: u64,
    code_word: Halves,
    datum_word: Halves,
) -> usize
    ensures line { AnswersRunStep (Some (invoke_passed code datum code_word datum_word)) buffer.old buffer.new result }
{
    put_run_step(invoke_from(code, datum, code_word, datum_word), buffer)
}

/// Writes the line of a step `drop` into the buffer: the place is a register 1 to 31, a special register, or a granule at an
/// address that is a multiple of 16.
#[unsafe(no_mangle)]
pub extern "C" fn capcheck_line_drop(buffer: &mut [u8; 96], place: PassedPlace) -> usize
    ensures line { AnswersRunStep (drop_passed place) buffer.old buffer.new result }
{
    put_run_step(drop_from(place), buffer)
}

/// Writes the line of a step `fill` into the buffer: an address that is a multiple of 16, and the word that the granule
/// gets.
#[unsafe(no_mangle)]
pub extern "C" fn capcheck_line_fill(buffer: &mut [u8; 96], address: u64, word: Halves) -> usize
    ensures line { AnswersRunStep (fill_passed address word) buffer.old buffer.new result }
{
    put_run_step(fill_from(address, word), buffer)
}

/// Writes the line of a step `object` into the buffer: a register 1 to 31, and the number of an object, below 2^32; or 0,
/// if what the register holds is a new object's.
#[unsafe(no_mangle)]
pub extern "C" fn capcheck_line_object(buffer: &mut [u8; 96], register: u64, object: u64) -> usize
    ensures line { AnswersRunStep (Some (object_passed register object)) buffer.old buffer.new result }
{
    put_run_step(object_from(register, object), buffer)
}

/// Writes the line of a step `free` into the buffer: by a register 1 to 31, and then the object's number is 0; or by the
/// number of an object, below 2^32, and then the register is 0.
#[unsafe(no_mangle)]
pub extern "C" fn capcheck_line_free(buffer: &mut [u8; 96], register: u64, object: u64) -> usize
    ensures line { AnswersRunStep (free_passed register object) buffer.old buffer.new result }
{
    put_run_step(free_from(register, object), buffer)
}

// Writes the line of the step that C's numbers make. If they make none, it answers 0, and the buffer is as it was.
#[inline(always)]
fn put_run_step(step: Option<RunStep>, buffer: &mut [u8; 96]) -> usize
    requires range { IfSome step IsRunStepInRange }
    ensures line { (passed : Option StepIn) → IsStepFrom IsRunStepInRange passed step → AnswersRunStep passed buffer.old buffer.new result }
{
    match step {
        Some(step) => write_run_line(&RunLine::Run(step), buffer),
        None => 0,
    }
}
