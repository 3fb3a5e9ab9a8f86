//! What a judge tells of the machine of a log: structs of plain numbers.

ghost use Rattle.std.specs.Prelude.{◌≡◌};
ghost use Rattle.capcheck_judge.specs.Takings.{lines_taken};

use cap_halves::values::Capability;
use cap_judge::{Stop, Taken};
use cap_report::answers::{GOES_ON, NO, NO_MEMORY};

/// A capability, or none (in C `capcheck_optional_cap`).
#[repr(C)]
#[derive(Clone, Copy)]
pub struct OptionalCap {
    /// The capability; NULL without a tag if there is none.
    pub cap: Capability,
    /// 1 if there is a capability, else 0.
    pub present: u8,
}

/// What was taken of some lines (in C `capcheck_taken`).
#[repr(C)]
#[derive(Clone, Copy)]
pub struct LinesTaken {
    /// The number of bytes, all of whole lines.
    pub bytes: u64,
    /// The state, as a call answers it that hands over one line.
    pub state: u8,
}

/// What the rules give for a step (in C `capcheck_expected`).
#[repr(C)]
#[derive(Clone, Copy)]
pub struct PassedExpected {
    /// The capability that the step's register gets; NULL without a tag if there is none.
    pub cap: Capability,
    /// The number that the step loads, else 0.
    pub number: u64,
    /// How many bytes this number has in memory, else 0.
    pub size: u8,
    /// 1 if it is the capability, 2 if it is the number, and 0 if there is none.
    pub kind: u8,
}

/// What a judge took of some lines, in numbers.
pub(crate) fn lines_taken(taken: Taken) -> LinesTaken
    ensures { result ≡ lines_taken taken }
{
    LinesTaken {
        bytes: taken.count as u64,
        state: match taken.stop {
            Stop::Cut => GOES_ON,
            Stop::Fault => NO,
            Stop::NoMemory => NO_MEMORY,
        },
    }
}
