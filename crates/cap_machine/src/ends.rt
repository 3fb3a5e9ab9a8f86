//! Why a root or a step was not made.

ghost use Rattle.std.specs.Prelude.{◌≡◌, Some};
ghost use Rattle.cap_ops.specs.Refusals.{refusal_of};
ghost use Rattle.cap_machine.specs.Ends.{step_end_text};
ghost use Rattle.cap_machine.specs.declared.ends.StepEnd.TheVariants as ends;

use cap_ops::{OpFault, Refusal};
use std::{error, fmt};
use tagmem::NoMemory;

/// Why a machine did not take a root or make a step. It is then as it was before.
#[derive(Debug, Clone, Copy, PartialEq, Eq)]
pub enum StepEnd {
    /// A check of the root or the step fails; this is the first.
    Refused(Refusal),
    /// No check fails, but there was no memory for a granule that is named for the first time.
    NoMemory,
}

impl fmt::Display for StepEnd {
    ghost output = { λ end. Some (step_end_text end) };

    fn fmt<W: fmt::Write>(&self, f: &mut fmt::Formatter<W>) -> fmt::Result {
        f.write_str(match self {
            Self::Refused(refusal) => refusal.name(),
            Self::NoMemory => "out of memory",
        })
    }
}

impl error::Error for StepEnd {}

impl From<OpFault> for StepEnd {
    ghost from_gives = { λ fault end. end ≡ ends.Refused (refusal_of fault) };

    fn from(fault: OpFault) -> StepEnd {
        StepEnd::Refused(Refusal::from(fault))
    }
}

impl From<NoMemory> for StepEnd {
    ghost from_gives = { λ _ end. end ≡ ends.NoMemory };

    fn from(_fault: NoMemory) -> StepEnd {
        StepEnd::NoMemory
    }
}
