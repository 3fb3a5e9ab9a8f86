//! What the machine of an open judge holds, and what it gives.

ghost use Rattle.std.specs.Prelude.{◌≡◌, ◌≢◌, ◌⊎◌, ◌↔◌, ◌<◌, ◌≤◌, ◌/◌, ℕ, IfSome, IsTrue, List, None, Some};
ghost use Rattle.cap_log.specs.{declared.lines.Place.TheVariants.{Register, Granule}, Lines.IsPlace};
ghost use Rattle.cap_machine.specs.States.{granule_key};
ghost use Rattle.cap_halves.specs.Passed.{cap_of, no_cap};
ghost use Rattle.capcheck_judge.specs.Handles.{AnswersExpected, Holds, IsGiven, IsPassed, held_in, origin_behind};
ghost use Rattle.capcheck_judge.specs.Handles.{state_behind, tag_behind};

use crate::answers::{OptionalCap, PassedExpected};
use crate::handle::Handle;
use cap_halves::halves::{no_capability, to_c};
use cap_halves::values::PassedPlace;
use cap_judge::Expected;
use cap_log::Place;
use cap_word::Cap;
use std::alloc::Global;

// The kinds of places, as C has them, and 0 for none.
const REGISTER: u8 = 1;

const GRANULE: u8 = 2;

/// What a register holds after the lines so far, or before the faulty line: 0 to 31, of which 0 is c0. There is
/// none above 31, and none if the handle holds no judge.
#[unsafe(no_mangle)]
pub extern "C" fn capcheck_judge_register(
    alloc: Global,
    judge: &mut Handle,
    number: u64,
) -> OptionalCap
    ensures register { number ≤ 31 → (bytes : List ℕ) → (holds : Holds (held_in judge.old) bytes)
        → (result.present ≡ 1) × (cap_of result.cap ≡ state_behind holds number) }
    ensures zero { number ≡ 0 → cap_of result.cap ≡ no_cap }
    ensures tag { result.cap.tag ≤ 1 }
    ensures none { (31 < number) ⊎ (held_in judge.old ≡ None) → (result.present ≡ 0) × (cap_of result.cap ≡ no_cap) }
    ensures kept { held_in judge.new ≡ held_in judge.old }
{
    if number > 31 {
        return nothing();
    }
    ask!(judge, alloc, |held| cap = held.register(number as u8), there(cap), else nothing())
}

/// What the sixteen bytes of memory in which an address lies hold after the lines so far, or before the
/// faulty line. There is none if the handle holds no judge.
#[unsafe(no_mangle)]
pub extern "C" fn capcheck_judge_granule(
    alloc: Global,
    judge: &mut Handle,
    address: u64,
) -> OptionalCap
    ensures granule { (bytes : List ℕ) → (holds : Holds (held_in judge.old) bytes)
        → (result.present ≡ 1) × (cap_of result.cap ≡ state_behind holds (granule_key (address / 16))) }
    ensures tag { result.cap.tag ≤ 1 }
    ensures none { held_in judge.old ≡ None → (result.present ≡ 0) × (cap_of result.cap ≡ no_cap) }
    ensures kept { held_in judge.new ≡ held_in judge.old }
{
    ask!(judge, alloc, |held| cap = held.granule(address / 16), there(cap), else nothing())
}

/// The place of the root that the capability in a place descends from, after the lines so far, or before the faulty
/// line. The place is a register, 1 to 31, or the granule that an address lies in. There is none if it holds no tagged
/// capability, if the numbers name no place, and if the handle holds no judge.
#[unsafe(no_mangle)]
pub extern "C" fn capcheck_judge_origin(
    alloc: Global,
    judge: &mut Handle,
    place: PassedPlace,
) -> PassedPlace
    ensures register { place.kind ≡ 1 → 1 ≤ place.number → place.number ≤ 31 → (bytes : List ℕ)
        → (holds : Holds (held_in judge.old) bytes) → IsPassed (origin_behind holds place.number) result }
    ensures granule { place.kind ≡ 2 → (bytes : List ℕ) → (holds : Holds (held_in judge.old) bytes)
        → IsPassed (origin_behind holds (granule_key (place.number / 16))) result }

    // There is one exactly if the place holds a tagged capability.
    ensures register_tag { place.kind ≡ 1 → 1 ≤ place.number → place.number ≤ 31 → (bytes : List ℕ)
        → (holds : Holds (held_in judge.old) bytes) → (result.kind ≢ 0) ↔ IsTrue (tag_behind holds place.number) }
    ensures granule_tag { place.kind ≡ 2 → (bytes : List ℕ) → (holds : Holds (held_in judge.old) bytes)
        → (result.kind ≢ 0) ↔ IsTrue (tag_behind holds (granule_key (place.number / 16))) }
    ensures no_place { (place.kind ≢ 1) × (place.kind ≢ 2) → IsPassed None result }
    ensures no_register { (place.kind ≡ 1) × ((place.number ≡ 0) ⊎ (31 < place.number)) → IsPassed None result }
    ensures no_judge { held_in judge.old ≡ None → IsPassed None result }
    ensures kept { held_in judge.new ≡ held_in judge.old }
{
    let Some(of) = place_of(place) else {
        return passed(None);
    };
    ask!(judge, alloc, |held| root = held.origin(of), passed(root), else passed(None))
}

/// The place that C names.
fn place_of(place: PassedPlace) -> Option<Place>
    ensures in_range { IfSome result IsPlace }
    ensures register { place.kind ≡ 1 → 1 ≤ place.number → place.number ≤ 31 → result ≡ Some (Register place.number) }
    ensures granule { place.kind ≡ 2 → result ≡ Some (Granule (place.number / 16)) }
    ensures no_place { (place.kind ≢ 1) × (place.kind ≢ 2) → result ≡ None }
    ensures no_register { (place.kind ≡ 1) × ((place.number ≡ 0) ⊎ (31 < place.number)) → result ≡ None }
{
    match place.kind {
        REGISTER if 0 < place.number && place.number < 32 => {
            Some(Place::Register(place.number as u8))
        }
        GRANULE => Some(Place::Granule(place.number / 16)),
        _ => None,
    }
}

/// A place as C gets it.
fn passed(place: Option<Place>) -> PassedPlace
    requires { IfSome place IsPlace }
    ensures passed { IsPassed place result }
{
    let (number, kind) = match place {
        Some(Place::Register(register)) => (u64::from(register), REGISTER),
        Some(Place::Granule(granule)) => (16 * granule, GRANULE),
        None => (0, 0),
    };
    PassedPlace { number, kind }
}

/// What the rules give for the faulty step, if its line records another result. There is none after any other
/// fault, if no line is faulty so far, and if the handle holds no judge.
#[unsafe(no_mangle)]
pub extern "C" fn capcheck_judge_expected(alloc: Global, judge: &mut Handle) -> PassedExpected
    ensures expected { (bytes : List ℕ) → Holds (held_in judge.old) bytes → AnswersExpected bytes result }
    ensures tag { result.cap.tag ≤ 1 }
    ensures none { held_in judge.old ≡ None → IsGiven None result }
    ensures kept { held_in judge.new ≡ held_in judge.old }
{
    ask!(judge, alloc, |held| expected = held.expected(), given_of(expected), else given_of(None))
}

/// What the rules give, as C gets it.
pub(crate) fn given_of(expected: Option<Expected>) -> PassedExpected
    ensures given { IsGiven expected result }
    ensures tag { result.cap.tag ≤ 1 }
{
    match expected {
        Some(expected) => given_by(expected),
        None => PassedExpected {
            cap: no_capability(),
            number: 0,
            size: 0,
            kind: 0,
        },
    }
}

/// A capability or a number that the rules give, as C gets it.
fn given_by(expected: Expected) -> PassedExpected
    ensures given { IsGiven (Some expected) result }
    ensures tag { result.cap.tag ≤ 1 }
{
    match expected {
        Expected::Capability(cap) => PassedExpected {
            cap: to_c(cap),
            number: 0,
            size: 0,
            kind: 1,
        },
        Expected::Number { value, size } => PassedExpected {
            cap: no_capability(),
            number: value,
            size: size.bytes(),
            kind: 2,
        },
    }
}

/// A capability as C gets it.
pub(crate) fn there(cap: Cap) -> OptionalCap
    ensures present { result.present ≡ 1 }
    ensures cap { cap_of result.cap ≡ cap }
    ensures tag { result.cap.tag ≤ 1 }
{
    OptionalCap {
        cap: to_c(cap),
        present: 1,
    }
}

/// No capability: NULL without a tag.
pub(crate) fn nothing() -> OptionalCap
    ensures present { result.present ≡ 0 }
    ensures cap { cap_of result.cap ≡ no_cap }
    ensures tag { result.cap.tag ≤ 1 }
{
    OptionalCap {
        cap: no_capability(),
        present: 0,
    }
}
