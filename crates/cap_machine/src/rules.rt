//! The rules that a machine follows.

ghost use Rattle.std.specs.Prelude.{◌≡◌};

use crate::limits::Limits;

/// The greatest number of roots of a log (this profile's own): past it comes `LimitPassed`.
pub const MOST_ROOTS: u32 = 4096;

/// Which version of the log a machine follows, and in which mode.
#[derive(Debug, Clone, Copy, PartialEq, Eq)]
pub enum Rules {
    /// Version 1.
    One,
    /// Version 2, strict mode: a step with a failed check is refused.
    TwoStrict,
    /// Version 2, clear mode: if a check of an operation on registers fails, its result loses its tag.
    TwoClear,
}

impl Rules {
    ghost use Rattle.cap_machine.specs.Accounts.{limits_of};

    /// The limits of a log of the version: 4,096 roots, and 65,536 granules in version 1, 1,048,576 in version 2.
    pub fn limits(self) -> Limits
        ensures value { result ≡ limits_of self }
    {
        let granules = match self {
            Rules::One => 65_536,
            Rules::TwoStrict | Rules::TwoClear => 1_048_576,
        };
        Limits {
            roots: MOST_ROOTS,
            granules,
        }
    }
}
