//! The lines of a log: the version, the roots, the steps and the end.

use crate::kinds::Step;
use cap_word::Word;

/// Where a machine keeps a capability.
#[derive(Clone, Copy, Debug, PartialEq, Eq)]
pub enum Place {
    /// A register, 1 to 31.
    Register(u8),
    /// A granule of memory, below 2^60: the sixteen bytes from sixteen times this number on.
    Granule(u64),
}

/// What a machine does if a check of a register operation fails.
#[derive(Clone, Copy, Debug, PartialEq, Eq)]
pub enum Mode {
    /// It refuses the step.
    Strict,
    /// It clears the tag of the result.
    Clear,
}

/// One line of a log.
#[derive(Clone, Copy, Debug, PartialEq, Eq)]
pub enum Line {
    /// `capcheck 1` or `capcheck 2`: the version of the log.
    Version(u8),
    /// `mode strict` or `mode clear`: the mode of a log of version 2.
    Mode(Mode),
    /// `root`: a place that holds this word, tagged, before the first step.
    Root(Place, Word),
    /// A step.
    Step(Step),
    /// `end`: the number of step lines.
    End(u32),
}
