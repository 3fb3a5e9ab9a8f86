//! What a step shows of the machine's state before it.

ghost use Rattle.std.specs.Prelude.{◌≡◌, Some};
ghost use Rattle.cap_machine.specs.declared.shown.Request.TheVariants.{Nothing};

use cap_log::{Place, Register, Size};
use cap_ops::Refusal;
use cap_word::Cap;

/// What a step shows of the state before it: what it reads, asks for and reaches, and what the rules give for the
/// result that its line records.
#[derive(Debug, Clone, Copy, PartialEq, Eq)]
pub struct Shown {
    /// The place that its result comes from, or from which it stores a capability.
    pub source: Option<Place>,
    /// What it asks for.
    pub request: Request,
    /// Its access to memory.
    pub access: Option<Reached>,
    /// What the rules give.
    pub given: Given,
}

impl Shown {
    // What a step shows that reaches memory.
    pub(crate) fn of_access(source: Option<Place>, reached: Reached, given: Given) -> Shown
        ensures value { result ≡ record { source = source; request = Nothing; access = Some reached; given = given } }
    {
        Shown {
            source,
            request: Request::Nothing,
            access: Some(reached),
            given,
        }
    }
}

/// What an operation on registers asks for, beside its source.
#[derive(Debug, Clone, Copy, PartialEq, Eq)]
pub enum Request {
    /// Nothing.
    Nothing,
    /// Bounds of this length.
    Length(u64),
    /// This address.
    Address(u64),
    /// An authority over object types: its register, and the permission that it needs, as a bit of the view.
    Authority(Register, u32),
}

/// An access to memory.
#[derive(Debug, Clone, Copy, PartialEq, Eq)]
pub struct Reached {
    /// The register that is its authority.
    pub authority: Register,
    /// The address of its first byte.
    pub address: u64,
    /// How many bytes it has: 1, 2, 4, 8 or 16.
    pub size: u8,
    /// The permissions that its authority needs, in the view.
    pub needs: u32,
}

/// What the rules give for the result that a line records.
#[derive(Debug, Clone, Copy, PartialEq, Eq)]
pub enum Given {
    /// Nothing: the line records none, or a check refuses the load of a number.
    Nothing,
    /// A capability.
    Capability {
        /// The place that gets it.
        place: Place,
        /// The result in clear mode. If no check fails, it is also that of strict rules.
        cap: Cap,
        /// The first check of an operation on registers that fails, which takes its tag.
        fault: Option<Refusal>,
        /// The recorded one.
        recorded: Cap,
    },
    /// A number in memory.
    Number {
        /// It.
        value: u64,
        /// How many bytes it has.
        size: Size,
        /// The recorded one.
        recorded: u64,
    },
}
