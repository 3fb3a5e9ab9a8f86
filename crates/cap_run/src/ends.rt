//! Why a step of a run was not made.

ghost use Rattle.std.specs.Prelude.{Some};
ghost use Rattle.cap_run.specs.Ends.{run_end_text};

use cap_machine::Refusal;
use std::{error, fmt};

/// Why a step of a run is refused.
#[derive(Debug, Clone, Copy, PartialEq, Eq)]
pub enum RunRefusal {
    /// For a reason that a log of version 2 has too.
    Usual(Refusal),
    /// 28: the extent shares an address with that of a live object.
    Overlaps,
    /// 30: the word isn't sound.
    UnsoundResult,
    /// 31: the word's bounds leave the source's, or it has a permission that the source lacks.
    BeyondSource,
    /// 32: the seal isn't kept.
    SealChanged,
    /// 33: the two aren't a pair for CInvoke.
    NotInvokable,
    /// 34: the register has no tag, or is sealed where it has to be unsealed.
    NoCapability,
    /// 35: the register has an owner.
    HasOwner,
    /// 36: the extent shares an address with that of a freed object that a place holds.
    StillHeld,
    /// 37: the register has no owner.
    NoOwner,
    /// 38: the object was freed.
    AlreadyFreed,
    /// 39: the object that owns the authority was freed.
    OwnerFreed,
    /// 40: no object with this number was handed out.
    NoObject,
    /// 41: the authority has no owner, and a byte of a live object is touched.
    NotOwned,
}

/// Why a machine did not make a step of a run. It is then as it was before.
#[derive(Debug, Clone, Copy, PartialEq, Eq)]
pub enum RunEnd {
    /// A check of the step fails; this is the first.
    Refused(RunRefusal),
    /// No check fails, but there was no memory for a granule that is named for the first time, or for an object.
    NoMemory,
}

impl fmt::Display for RunEnd {
    ghost output = { λ end. Some (run_end_text end) };

    fn fmt<W: fmt::Write>(&self, f: &mut fmt::Formatter<W>) -> fmt::Result {
        f.write_str(match self {
            RunEnd::Refused(_) => "a check of the step fails",
            RunEnd::NoMemory => "out of memory",
        })
    }
}

impl error::Error for RunEnd {}
