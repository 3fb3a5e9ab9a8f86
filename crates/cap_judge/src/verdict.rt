//! What a judge answers.

ghost use Rattle.std.specs.Prelude.{Some};
ghost use Rattle.cap_judge.specs.VerdictLines.{take_fault_text};

use cap_log::Size;
use cap_machine::Refusal;
use cap_word::Cap;
use std::{error, fmt};

/// The verdict on the bytes of a log.
#[derive(Debug, Clone, Copy, PartialEq, Eq)]
pub enum Verdict {
    /// They are a log whose steps have a run.
    Yes {
        /// How many step lines it has.
        steps: u32,
        /// How many root lines it has.
        roots: u32,
    },
    /// They are none.
    No {
        /// The number of the faulty line, from 1 on.
        line: u64,
        /// The first check that this line fails.
        refusal: Refusal,
    },
}

/// Why a judge that is given lines did not take one.
#[derive(Debug, Clone, Copy, PartialEq, Eq)]
pub enum TakeFault {
    /// The bytes are no line with its line feed.
    NoLine,
    /// There was no memory for a granule that the line names for the first time.
    NoMemory,
}

impl fmt::Display for TakeFault {
    ghost output = { λ fault. Some (take_fault_text fault) };

    fn fmt<W: fmt::Write>(&self, f: &mut fmt::Formatter<W>) -> fmt::Result {
        f.write_str(match self {
            TakeFault::NoLine => "the bytes are no line",
            TakeFault::NoMemory => "out of memory",
        })
    }
}

impl error::Error for TakeFault {}

/// The result that the rules give for a step whose line records another one.
#[derive(Debug, Clone, Copy, PartialEq, Eq)]
pub enum Expected {
    /// The capability that its register gets.
    Capability(Cap),
    /// The number that it loads.
    Number {
        /// It, of at most so many bytes.
        value: u64,
        /// How many bytes it has in memory.
        size: Size,
    },
}
