//! Why a program did not do what it was asked to.

ghost use Rattle.std.specs.Prelude.{◌≡◌};
ghost use Rattle.cap_program.specs.{declared.faults.Fault.TheVariants.{Read, Write}, Judging.fault_of};

use cap_log::{PullFault, PushFault};
use cap_streams::judging::JudgeToFault;

/// Why a program did not do what it was asked to.
#[derive(Debug, Clone, Copy, PartialEq, Eq)]
pub enum Fault {
    /// The words have none of the program's forms.
    BadWords,
    /// A word that stands for a number is not of its form.
    BadWord,
    /// The request to be rounded ends above the address space.
    BadRequest,
    /// The input cannot be opened or read.
    Read,
    /// Standard output failed.
    Write,
    /// There was no memory.
    NoMemory,
}

impl Fault {
    ghost use Rattle.std.specs.Prelude.{◌≡◌, ◌≤◌, length};
    ghost use Rattle.cap_program.specs.Faults.{status_of, fault_text};

    /// The exit status: 2 for what was asked wrongly, 3 for what failed outside.
    pub fn status(&self) -> u8
        ensures value { result ≡ status_of self.now }
    {
        match self {
            Fault::BadWords | Fault::BadWord | Fault::BadRequest => 2,
            Fault::Read | Fault::Write | Fault::NoMemory => 3,
        }
    }

    /// What it is called in the line on standard error.
    pub fn text(&self) -> &'static str
        ensures value { result.now ≡ fault_text self.now }
        ensures short { length result.now ≤ 11 }
    {
        match self {
            Fault::BadWords => "bad words",
            Fault::BadWord => "bad word",
            Fault::BadRequest => "bad request",
            Fault::Read => "read fault",
            Fault::Write => "write fault",
            Fault::NoMemory => "no memory",
        }
    }
}

/// The fault of a program whose judge has one.
pub fn fault_of(fault: JudgeToFault) -> Fault
    ensures value { result ≡ fault_of fault }
{
    match fault {
        JudgeToFault::Pull => Fault::Read,
        JudgeToFault::NoMemory => Fault::NoMemory,
        JudgeToFault::Push => Fault::Write,
    }
}

impl From<PullFault> for Fault {
    ghost from_gives = { λ _ fault. fault ≡ Read };

    fn from(_fault: PullFault) -> Fault {
        Fault::Read
    }
}

impl From<PushFault> for Fault {
    ghost from_gives = { λ _ fault. fault ≡ Write };

    fn from(_fault: PushFault) -> Fault {
        Fault::Write
    }
}
