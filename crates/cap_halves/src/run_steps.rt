//! The steps that only runs have, by the numbers that C passes.

ghost use Rattle.std.specs.Prelude.{IfSome, Some};
ghost use Rattle.cap_run_log.specs.RunLines.{IsRunStepInRange};
ghost use Rattle.cap_halves.specs.PassedRuns.{IsStepFrom, derive_passed, drop_passed, exchange_passed, fill_passed, free_passed, invoke_passed};
ghost use Rattle.cap_halves.specs.PassedRuns.{object_passed};

use crate::halves::{from_c, word_of};
use crate::places::{place_from, source_from, target_from};
use crate::values::{Capability, Halves, PassedPlace};
use cap_log::{Register, Target};
use cap_run_log::{Derive, Exchange, Invoke, RunStep, Special};

/// The step `derive` of C's numbers: the target is a register 1 to 31 or a special register, the source a register 0 to 31
/// or a special register.
pub fn derive_from(
    target: PassedPlace,
    source: PassedPlace,
    recorded: Capability,
) -> Option<RunStep>
    ensures step { IsStepFrom IsRunStepInRange (derive_passed target source recorded) result }
    ensures range { IfSome result IsRunStepInRange }
{
    let target = target_from(target)?;
    let source = source_from(source)?;
    Some(RunStep::Derive(Derive {
        target,
        source,
        result: from_c(recorded),
    }))
}

/// The step `exchange` of C's numbers: a target 1 to 31, a source 0 to 31 and a special register 0 to 31.
pub fn exchange_from(
    target: u64,
    source: u64,
    special: u64,
    recorded: Capability,
    special_recorded: Capability,
) -> Option<RunStep>
    ensures step { IsStepFrom IsRunStepInRange (Some (exchange_passed target source special recorded special_recorded)) result }
    ensures range { IfSome result IsRunStepInRange }
{
    let target = Target::new(target)?;
    let source = Register::new(source)?;
    let special = Special::new(special)?;
    Some(RunStep::Exchange(Exchange {
        target,
        source,
        special,
        result: from_c(recorded),
        special_result: from_c(special_recorded),
    }))
}

/// The step `invoke` of C's numbers: the registers of the code and of the datum, 0 to 31.
pub fn invoke_from(code: u64, datum: u64, code_word: Halves, datum_word: Halves) -> Option<RunStep>
    ensures step { IsStepFrom IsRunStepInRange (Some (invoke_passed code datum code_word datum_word)) result }
    ensures range { IfSome result IsRunStepInRange }
{
    let code = Register::new(code)?;
    let datum = Register::new(datum)?;
    Some(RunStep::Invoke(Invoke {
        code,
        datum,
        code_word: word_of(code_word),
        datum_word: word_of(datum_word),
    }))
}

/// The step `drop` of C's numbers: the place is a register 1 to 31, a special register, or a granule at an address that is a
/// multiple of 16.
pub fn drop_from(place: PassedPlace) -> Option<RunStep>
    ensures step { IsStepFrom IsRunStepInRange (drop_passed place) result }
    ensures range { IfSome result IsRunStepInRange }
{
    Some(RunStep::Drop(place_from(place)?))
}

/// The step `fill` of C's numbers: an address that is a multiple of 16.
pub fn fill_from(address: u64, word: Halves) -> Option<RunStep>
    ensures step { IsStepFrom IsRunStepInRange (fill_passed address word) result }
    ensures range { IfSome result IsRunStepInRange }
{
    if !address.is_multiple_of(16) {
        return None;
    }
    Some(RunStep::Fill(address / 16, word_of(word)))
}

/// The step `object` of C's numbers: a register 1 to 31, and the number of an object, below 2^32; or 0, if what the
/// register holds is a new object's.
pub fn object_from(register: u64, object: u64) -> Option<RunStep>
    ensures step { IsStepFrom IsRunStepInRange (Some (object_passed register object)) result }
    ensures range { IfSome result IsRunStepInRange }
{
    let target = Target::new(register)?;
    if object > 0xffff_ffff {
        return None;
    }
    if object == 0 {
        return Some(RunStep::Object(target.number()));
    }
    Some(RunStep::Widen(target.number(), object as u32))
}

/// The step `free` of C's numbers: by a register 1 to 31, and then the object's number is 0; or by the number of an object,
/// below 2^32, and then the register is 0.
pub fn free_from(register: u64, object: u64) -> Option<RunStep>
    ensures step { IsStepFrom IsRunStepInRange (free_passed register object) result }
    ensures range { IfSome result IsRunStepInRange }
{
    if object == 0 {
        return Some(RunStep::FreeOwner(Target::new(register)?.number()));
    }
    if register != 0 || object > 0xffff_ffff {
        return None;
    }
    Some(RunStep::FreeNumber(object as u32))
}
