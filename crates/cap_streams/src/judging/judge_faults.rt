//! Why a judge of lines gave no verdict, or did not write it.

ghost use Rattle.std.specs.Prelude.{◌≡◌, Some};
ghost use Rattle.cap_streams.specs.{declared.judging.judge_faults.JudgeToFault.TheVariants.Push, FaultLines.{fault_text, told_fault}};

use crate::sinks::PushFault;
use std::{error, fmt};

/// Why a judge gave no verdict.
#[derive(Debug, Clone, Copy, PartialEq, Eq)]
pub enum JudgeFault {
    /// The source of the bytes failed.
    Pull,
    /// There was no memory for what a line adds: a granule that the log names for the first time, or an object of an
    /// allocator.
    NoMemory,
}

/// Why a judge that writes its verdict did not, or not all of it.
#[derive(Debug, Clone, Copy, PartialEq, Eq)]
pub enum JudgeToFault {
    /// The source of the bytes failed.
    Pull,
    /// There was no memory for what a line adds, as in [`JudgeFault::NoMemory`].
    NoMemory,
    /// The sink failed.
    Push,
}

impl fmt::Display for JudgeFault {
    ghost output = { λ fault. Some (fault_text (told_fault fault)) };

    fn fmt<W: fmt::Write>(&self, f: &mut fmt::Formatter<W>) -> fmt::Result {
        JudgeToFault::from(*self).fmt(f)
    }
}

impl error::Error for JudgeFault {}

impl fmt::Display for JudgeToFault {
    ghost output = { λ fault. Some (fault_text fault) };

    fn fmt<W: fmt::Write>(&self, f: &mut fmt::Formatter<W>) -> fmt::Result {
        f.write_str(match self {
            JudgeToFault::Pull => "the source failed",
            JudgeToFault::NoMemory => "out of memory",
            JudgeToFault::Push => "the sink failed",
        })
    }
}

impl error::Error for JudgeToFault {}

impl From<JudgeFault> for JudgeToFault {
    ghost from_gives = { λ fault told. told ≡ told_fault fault };

    fn from(fault: JudgeFault) -> JudgeToFault {
        match fault {
            JudgeFault::Pull => JudgeToFault::Pull,
            JudgeFault::NoMemory => JudgeToFault::NoMemory,
        }
    }
}

impl From<PushFault> for JudgeToFault {
    ghost from_gives = { λ _ told. told ≡ Push };

    fn from(_fault: PushFault) -> JudgeToFault {
        JudgeToFault::Push
    }
}
