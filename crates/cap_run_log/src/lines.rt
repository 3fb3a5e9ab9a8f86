//! The lines of a run log, and the places that they name.

use crate::operands::{RunSource, RunTarget, Special};
use cap_log::{Mode, Register, Step, Target};
use cap_word::{Cap, Word};

/// A general-purpose or a special register.
#[derive(Clone, Copy, Debug, PartialEq, Eq)]
pub enum RunRegister {
    /// c0 to c31, by its number.
    General(u8),
    /// scr0 to scr31, by the number with which CSpecialRW names it: 0 is PCC, 1 is DDC.
    Special(u8),
}

/// Where a machine of runs keeps a capability.
#[derive(Clone, Copy, Debug, PartialEq, Eq)]
pub enum RunPlace {
    /// c1 to c31, by its number.
    General(u8),
    /// scr0 to scr31, by its number.
    Special(u8),
    /// A granule of memory, below 2^60: the sixteen bytes from sixteen times this number on.
    Granule(u64),
}

/// `derive`: the target gets what is derived from the source.
#[derive(Clone, Copy, Debug, PartialEq, Eq)]
pub struct Derive {
    /// The register that is written, any but c0.
    pub target: RunTarget,
    /// The register that the result comes from.
    pub source: RunSource,
    /// What the target holds then.
    pub result: Cap,
}

/// `exchange`: a register gets what is derived from a special register, and that what is derived from another register.
#[derive(Clone, Copy, Debug, PartialEq, Eq)]
pub struct Exchange {
    /// The register that is written.
    pub target: Target,
    /// The register that the special register's result comes from.
    pub source: Register,
    /// The special register.
    pub special: Special,
    /// What the target holds then.
    pub result: Cap,
    /// What the special register holds then.
    pub special_result: Cap,
}

/// `invoke`: PCC gets the code's word and c31 the datum's, of two registers.
#[derive(Clone, Copy, Debug, PartialEq, Eq)]
pub struct Invoke {
    /// The register that holds the code.
    pub code: Register,
    /// The register that holds the datum.
    pub datum: Register,
    /// What scr0 holds then, tagged.
    pub code_word: Word,
    /// What c31 holds then, tagged.
    pub datum_word: Word,
}

/// A step that only runs have.
#[derive(Clone, Copy, Debug, PartialEq, Eq)]
pub enum RunStep {
    /// `derive`.
    Derive(Derive),
    /// `exchange`.
    Exchange(Exchange),
    /// `invoke`.
    Invoke(Invoke),
    /// `drop`: the tag of a place goes.
    Drop(RunPlace),
    /// `fill`: a granule gets a word without a tag.
    Fill(u64, Word),
    /// `object cN`: what a register 1 to 31 holds is a new object's.
    Object(u8),
    /// `object cN K`: what a register 1 to 31 holds is also that of the object with this number, from 1.
    Widen(u8, u32),
    /// `free cN`: the owner of a register 1 to 31 is freed.
    FreeOwner(u8),
    /// `free K`: the object with this number, from 1, is freed.
    FreeNumber(u32),
}

/// One line of a run log.
#[derive(Clone, Copy, Debug, PartialEq, Eq)]
pub enum RunLine {
    /// `run 1`.
    Version,
    /// `capcheck`: the version line of another log, of version 1 or 2.
    Plain(u8),
    /// `mode`: the mode of the log.
    Mode(Mode),
    /// `root`: a place that holds this word, tagged, before the first step.
    Root(RunPlace, Word),
    /// `hart`: the hart, 0 to 65,535, whose registers the lines after it name.
    Hart(u16),
    /// A step that every log may have.
    Step(Step),
    /// A step that only runs have.
    Run(RunStep),
    /// `end`: the number of step lines.
    End(u32),
}
