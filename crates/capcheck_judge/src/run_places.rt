//! What the machine of an open judge of run logs holds and gives, and which objects own it.

ghost use Rattle.std.specs.Prelude.{◌≡◌, ◌≢◌, ◌⊎◌, ◌↔◌, ◌<◌, ◌≤◌, ◌/◌, ℕ, IfSome, List, MatchOption, None, Some};
ghost use Rattle.cap_run.specs.declared.asks.Asks.{Asks as AsksIn};
ghost use Rattle.cap_run_log.specs.{RunLines.IsRunPlace, declared.lines.RunPlace.RunPlace as PlaceIn};
ghost use Rattle.cap_run.specs.{HartPlaces.place_in, Harts.most_harts, RunChanges.place_key};
ghost use Rattle.cap_halves.specs.{Passed.{cap_of, no_cap}, PassedRuns.passed_nowhere};
ghost use Rattle.capcheck_judge.specs.RunAnswers.{IsObjectTold};
ghost use Rattle.cap_run_judge.specs.Readings.{stage_of};
ghost use Rattle.capcheck_judge.specs.{Handles.IsGiven, RunHandles.{AnswersRunExpected, HoldsRun, run_behind, run_held_in}};
ghost use Rattle.capcheck_judge.specs.RunPlaces.{IsHartTold, IsHolderHartTold, IsHolderTold, IsNextTold, IsOwnerTold, holder_hart_passed, holder_passed, place_asked};

use crate::answers::{OptionalCap, PassedExpected};
use crate::places::{given_of, nothing, there};
use crate::run_answers::{PassedObject, told_object};
use crate::run_handle::RunHandle;
use cap_halves::places::{nowhere, to_passed};
use cap_halves::values::PassedPlace;
use cap_run_log::RunPlace;
use cap_run_report::holder;
use std::alloc::Global;

/// What a place holds after the lines so far, or before the faulty line: a register of the current hart, 1 to 31, a special
/// register, 0 to 31, or the granule that an address lies in. There is none if the numbers name no place, and if the handle holds no
/// judge.
#[unsafe(no_mangle)]
pub extern "C" fn capcheck_run_judge_held(
    alloc: Global,
    judge: &mut RunHandle,
    place: PassedPlace,
) -> OptionalCap
    ensures held { (there : PlaceIn) → place_asked place ≡ Some there → IsRunPlace there → (asks : AsksIn) (bytes : List ℕ)
        → (holds : HoldsRun (run_held_in judge.old) asks bytes)
        → (result.present ≡ 1) × (cap_of result.cap ≡ (let run = run_behind holds in run.state (place_key there))) }
    ensures tag { result.cap.tag ≤ 1 }
    ensures no_place { ((there : PlaceIn) → place_asked place ≡ Some there → ¬ IsRunPlace there)
        → (result.present ≡ 0) × (cap_of result.cap ≡ no_cap) }
    ensures no_judge { run_held_in judge.old ≡ None → (result.present ≡ 0) × (cap_of result.cap ≡ no_cap) }
    ensures kept { run_held_in judge.new ≡ run_held_in judge.old }
{
    let Some(place) = asked(place) else {
        return nothing();
    };
    ask!(judge, alloc, |held| cap = held.machine().holds(place), there(cap), else nothing())
}

/// The hart whose registers the next line names after the lines so far, or the faulty line: 0 if the handle holds no judge.
#[unsafe(no_mangle)]
pub extern "C" fn capcheck_run_judge_hart(alloc: Global, judge: &mut RunHandle) -> u32
    ensures hart { (asks : AsksIn) (bytes : List ℕ) → (holds : HoldsRun (run_held_in judge.old) asks bytes)
        → result ≡ (let run = run_behind holds in let harts = run.harts in harts.current) }
    ensures no_judge { run_held_in judge.old ≡ None → result ≡ 0 }
    ensures kept { run_held_in judge.new ≡ run_held_in judge.old }
{
    ask!(judge, alloc, |held| hart = held.machine().hart(), u32::from(hart), else 0)
}

/// The least number, from a number on, of a hart that was named by the lines so far, or by those before the faulty line;
/// 65,536 if there is none, and if the handle holds no judge.
#[unsafe(no_mangle)]
pub extern "C" fn capcheck_run_judge_next_hart(
    alloc: Global,
    judge: &mut RunHandle,
    from: u32,
) -> u32
    ensures next { (asks : AsksIn) (bytes : List ℕ) → (holds : HoldsRun (run_held_in judge.old) asks bytes)
        → IsHartTold (run_behind holds) from result }
    ensures no_judge { run_held_in judge.old ≡ None → result ≡ 65536 }
    ensures kept { run_held_in judge.new ≡ run_held_in judge.old }
{
    if from > 0xffff {
        return 0x1_0000;
    }
    ask!(judge, alloc, |held| next = held.machine().next_hart(from as u16), match next {
        Some(hart) => u32::from(hart),
        None => 0x1_0000,
    }, else 0x1_0000)
}

/// What a place holds, as [`capcheck_run_judge_held`] says it, where a register is that of a hart, 0 to 65,535. There is none
/// if there is no such hart.
#[unsafe(no_mangle)]
pub extern "C" fn capcheck_run_judge_held_in(
    alloc: Global,
    judge: &mut RunHandle,
    hart: u32,
    place: PassedPlace,
) -> OptionalCap
    ensures held { (there : PlaceIn) → hart < most_harts → place_asked place ≡ Some there → IsRunPlace there → (asks : AsksIn) (bytes : List ℕ)
        → (holds : HoldsRun (run_held_in judge.old) asks bytes)
        → (result.present ≡ 1) × (cap_of result.cap ≡ (let run = run_behind holds in run.state (place_in run.harts hart there))) }
    ensures tag { result.cap.tag ≤ 1 }
    ensures no_hart { most_harts ≤ hart → (result.present ≡ 0) × (cap_of result.cap ≡ no_cap) }
    ensures no_place { ((there : PlaceIn) → place_asked place ≡ Some there → ¬ IsRunPlace there)
        → (result.present ≡ 0) × (cap_of result.cap ≡ no_cap) }
    ensures no_judge { run_held_in judge.old ≡ None → (result.present ≡ 0) × (cap_of result.cap ≡ no_cap) }
    ensures kept { run_held_in judge.new ≡ run_held_in judge.old }
{
    if hart > 0xffff {
        return nothing();
    }
    let Some(place) = asked(place) else {
        return nothing();
    };
    ask!(judge, alloc, |held| kept = held.machine().holds_in(hart as u16, place), there(kept), else nothing())
}

/// The number of the object that owns a place, as [`capcheck_run_judge_owner`] says it, where a register is that of a hart, 0
/// to 65,535; 0 if there is no such hart.
#[unsafe(no_mangle)]
pub extern "C" fn capcheck_run_judge_owner_in(
    alloc: Global,
    judge: &mut RunHandle,
    hart: u32,
    place: PassedPlace,
) -> u32
    ensures owner { (there : PlaceIn) → hart < most_harts → place_asked place ≡ Some there → IsRunPlace there → (asks : AsksIn) (bytes : List ℕ)
        → (holds : HoldsRun (run_held_in judge.old) asks bytes)
        → IsOwnerTold (let run = run_behind holds in run.owners (place_in run.harts hart there)) result }
    ensures no_hart { most_harts ≤ hart → result ≡ 0 }
    ensures no_place { ((there : PlaceIn) → place_asked place ≡ Some there → ¬ IsRunPlace there) → result ≡ 0 }
    ensures no_judge { run_held_in judge.old ≡ None → result ≡ 0 }
    ensures kept { run_held_in judge.new ≡ run_held_in judge.old }
{
    if hart > 0xffff {
        return 0;
    }
    let Some(place) = asked(place) else {
        return 0;
    };
    ask!(judge, alloc, |held| number = held.machine().owner_in(hart as u16, place), number.unwrap_or(0), else 0)
}

/// The number of the object that owns a place after the lines so far, or before the faulty line; 0 if no object owns it,
/// if the numbers name no place, and if the handle holds no judge. The place is named as in
/// [`capcheck_run_judge_held`].
#[unsafe(no_mangle)]
pub extern "C" fn capcheck_run_judge_owner(
    alloc: Global,
    judge: &mut RunHandle,
    place: PassedPlace,
) -> u32
    ensures owner { (there : PlaceIn) → place_asked place ≡ Some there → IsRunPlace there → (asks : AsksIn) (bytes : List ℕ)
        → (holds : HoldsRun (run_held_in judge.old) asks bytes)
        → IsOwnerTold (let run = run_behind holds in run.owners (place_key there)) result }
    ensures no_place { ((there : PlaceIn) → place_asked place ≡ Some there → ¬ IsRunPlace there) → result ≡ 0 }
    ensures no_judge { run_held_in judge.old ≡ None → result ≡ 0 }
    ensures kept { run_held_in judge.new ≡ run_held_in judge.old }
{
    let Some(place) = asked(place) else {
        return 0;
    };
    ask!(judge, alloc, |held| owner = held.machine().owner_number(place), owner.unwrap_or(0), else 0)
}

/// The object with a number after the lines so far, or before the faulty line: its extent, how many places it owns, the
/// line that handed it out, and whether it is live. There is none if no object with this number was handed out, if it
/// was freed and no place holds it, and if the handle holds no judge.
#[unsafe(no_mangle)]
pub extern "C" fn capcheck_run_judge_object(
    alloc: Global,
    judge: &mut RunHandle,
    number: u32,
) -> PassedObject
    ensures object { (asks : AsksIn) (bytes : List ℕ) → (holds : HoldsRun (run_held_in judge.old) asks bytes)
        → (let run = run_behind holds in IsObjectTold run.roots (run.objects number) result) }
    ensures no_judge { run_held_in judge.old ≡ None → IsObjectTold 0 None result }
    ensures kept { run_held_in judge.new ≡ run_held_in judge.old }
{
    match judge.take(alloc) {
        Some(held) => {
            let machine = held.machine();
            let told = told_object(machine.roots(), machine.object_numbered(number));
            judge.put(held);
            told
        }
        None => told_object(0, None),
    }
}

/// The first place that the object with a number owns after the lines so far, or before the faulty line: by hart c1 to c31 and
/// scr0 to scr31, and then the granules, of which the one of the least address; no place if it owns none, if no object with
/// this number was handed out, and if the handle holds no judge.
#[unsafe(no_mangle)]
pub extern "C" fn capcheck_run_judge_holder(
    alloc: Global,
    judge: &mut RunHandle,
    number: u32,
) -> PassedPlace
    ensures holder { (asks : AsksIn) (bytes : List ℕ) → (holds : HoldsRun (run_held_in judge.old) asks bytes)
        → IsHolderTold (run_behind holds) number result }
    ensures no_judge { run_held_in judge.old ≡ None → result ≡ passed_nowhere }
    ensures kept { run_held_in judge.new ≡ run_held_in judge.old }
{
    ask!(judge, alloc, |held| found = holder(held.machine(), number), told_holder(found), else nowhere())
}

/// The hart whose register [`capcheck_run_judge_holder`] names: 0 for a granule, and where that names no place.
#[unsafe(no_mangle)]
pub extern "C" fn capcheck_run_judge_holder_hart(
    alloc: Global,
    judge: &mut RunHandle,
    number: u32,
) -> u32
    ensures hart { (asks : AsksIn) (bytes : List ℕ) → (holds : HoldsRun (run_held_in judge.old) asks bytes)
        → IsHolderHartTold (run_behind holds) number result }
    ensures no_judge { run_held_in judge.old ≡ None → result ≡ 0 }
    ensures kept { run_held_in judge.new ≡ run_held_in judge.old }
{
    ask!(judge, alloc, |held| found = holder(held.machine(), number), told_holder_hart(found), else 0)
}

/// The least number, from a number on, of an object that is live or that a place holds, after the lines so far, or before the
/// faulty line; 0 if there is none, and if the handle holds no judge.
#[unsafe(no_mangle)]
pub extern "C" fn capcheck_run_judge_next_object(
    alloc: Global,
    judge: &mut RunHandle,
    from: u32,
) -> u32
    ensures next { (asks : AsksIn) (bytes : List ℕ) → (holds : HoldsRun (run_held_in judge.old) asks bytes)
        → IsNextTold (run_behind holds) from result }
    ensures no_judge { run_held_in judge.old ≡ None → result ≡ 0 }
    ensures kept { run_held_in judge.new ≡ run_held_in judge.old }
{
    ask!(judge, alloc, |held| next = held.machine().next_object(from), match next {
        Some(object) => object.number,
        None => 0,
    }, else 0)
}

/// What the rules give for the faulty step, if it is one of version 2 and its line records another result. There is none
/// after any other fault, if no line is faulty so far, and if the handle holds no judge.
#[unsafe(no_mangle)]
pub extern "C" fn capcheck_run_judge_expected(
    alloc: Global,
    judge: &mut RunHandle,
) -> PassedExpected
    ensures expected { (asks : AsksIn) (bytes : List ℕ) → (holds : HoldsRun (run_held_in judge.old) asks bytes)
        → AnswersRunExpected (stage_of holds.judge) result }
    ensures tag { result.cap.tag ≤ 1 }
    ensures no_judge { run_held_in judge.old ≡ None → IsGiven None result }
    ensures kept { run_held_in judge.new ≡ run_held_in judge.old }
{
    ask!(judge, alloc, |held| expected = held.expected(), given_of(expected), else given_of(None))
}

// The first place that an object owns, if there is one, as C gets it.
fn told_holder(found: Option<(u16, RunPlace)>) -> PassedPlace
    requires { IfSome found (λ it. IsRunPlace it.1) }
    ensures { result ≡ holder_passed found }
{
    match found {
        Some((_, place)) => to_passed(place),
        None => nowhere(),
    }
}

// Its hart.
fn told_holder_hart(found: Option<(u16, RunPlace)>) -> u32
    ensures { result ≡ holder_hart_passed found }
{
    match found {
        Some((hart, RunPlace::General(_) | RunPlace::Special(_))) => u32::from(hart),
        Some((_, RunPlace::Granule(_))) | None => 0,
    }
}

// The place that C asks about: a granule by any address in it.
fn asked(place: PassedPlace) -> Option<RunPlace>
    ensures { MatchOption result ((there : PlaceIn) → place_asked place ≡ Some there → ¬ IsRunPlace there)
        (λ there. (place_asked place ≡ Some there) × IsRunPlace there) }
{
    match place.kind {
        1 if 0 < place.number && place.number < 32 => {
            Some(RunPlace::General(place.number as u8))
        }
        2 => Some(RunPlace::Granule(place.number / 16)),
        3 if place.number < 32 => Some(RunPlace::Special(place.number as u8)),
        _ => None,
    }
}
