//! The places of runs that C names.

ghost use Rattle.std.specs.Prelude.{◌≡◌, MatchOption, Some};
ghost use Rattle.cap_run_log.specs.RunLines.{IsRunPlace, IsRunRegister};
ghost use Rattle.cap_run_log.specs.declared.lines.{RunPlace.{RunPlace as PlaceIn}, RunRegister.{RunRegister as RegisterIn}};
ghost use Rattle.cap_halves.specs.PassedRuns.{passed_nowhere, passed_place, passed_register, place_passed, register_passed};

use crate::values::PassedPlace;
use cap_log::{Register, Target};
use cap_run_log::{RunPlace, RunRegister, RunSource, RunTarget, Special};

// The kinds of places, as C has them, and 0 for none.
const GENERAL: u8 = 1;

const GRANULE: u8 = 2;

const SPECIAL: u8 = 3;

/// The register that C names and that a step reads. `None` if it names none.
pub fn source_from(place: PassedPlace) -> Option<RunSource>
    ensures register { MatchOption result
        ((register : RegisterIn) → register_passed place ≡ Some register → ¬ IsRunRegister 0 register)
        (λ register. (register_passed place ≡ Some register) × IsRunRegister 0 register) }
{
    match place.kind {
        GENERAL => Some(RunSource::general(Register::new(place.number)?)),
        SPECIAL => Some(RunSource::special(Special::new(place.number)?)),
        _ => None,
    }
}

/// The register that C names and that a step writes: not c0. `None` if it names none.
pub fn target_from(place: PassedPlace) -> Option<RunTarget>
    ensures register { MatchOption result
        ((register : RegisterIn) → register_passed place ≡ Some register → ¬ IsRunRegister 1 register)
        (λ register. (register_passed place ≡ Some register) × IsRunRegister 1 register) }
{
    match place.kind {
        GENERAL => Some(RunTarget::general(Target::new(place.number)?)),
        SPECIAL => Some(RunTarget::special(Special::new(place.number)?)),
        _ => None,
    }
}

/// The place that C names: a granule by the address of its first byte. `None` if it names none.
pub fn place_from(place: PassedPlace) -> Option<RunPlace>
    ensures place { MatchOption result
        ((there : PlaceIn) → place_passed place ≡ Some there → ¬ IsRunPlace there)
        (λ there. (place_passed place ≡ Some there) × IsRunPlace there) }
{
    match place.kind {
        GENERAL if 0 < place.number && place.number < 32 => {
            Some(RunPlace::General(place.number as u8))
        }
        GRANULE if place.number % 16 == 0 => Some(RunPlace::Granule(place.number / 16)),
        SPECIAL if place.number < 32 => Some(RunPlace::Special(place.number as u8)),
        _ => None,
    }
}

/// A place as C gets it.
pub fn to_passed(place: RunPlace) -> PassedPlace
    requires { IsRunPlace place }
    ensures place { result ≡ passed_place place }
{
    let (number, kind) = match place {
        RunPlace::General(number) => (u64::from(number), GENERAL),
        RunPlace::Special(number) => (u64::from(number), SPECIAL),
        RunPlace::Granule(granule) => (16 * granule, GRANULE),
    };
    PassedPlace { number, kind }
}

/// A register as C gets it.
pub fn register_to_passed(register: RunRegister) -> PassedPlace
    ensures place { result ≡ passed_register register }
{
    let (number, kind) = match register {
        RunRegister::General(number) => (u64::from(number), GENERAL),
        RunRegister::Special(number) => (u64::from(number), SPECIAL),
    };
    PassedPlace { number, kind }
}

/// No place.
pub fn nowhere() -> PassedPlace
    ensures place { result ≡ passed_nowhere }
{
    PassedPlace { number: 0, kind: 0 }
}
