//! The faulty line of a log.

ghost use Rattle.std.specs.Prelude.{◌≡◌};
ghost use Rattle.cap_judge.specs.declared.verdict.Verdict.TheVariants.{No};

use crate::verdict::Verdict;
use cap_machine::Refusal;
use cap_streams::judging::FaultLine;

/// The faulty line of a log.
#[derive(Clone, Copy)]
pub struct RefusedLine {
    /// Its number, from 1 on.
    pub line: u64,
    /// The first check that it fails.
    pub refusal: Refusal,
    /// Its bytes.
    pub text: FaultLine,
}

impl RefusedLine {
    /// The verdict that names it.
    pub fn verdict(&self) -> Verdict
        ensures value { result ≡ No self.now.line self.now.refusal }
    {
        Verdict::No {
            line: self.line,
            refusal: self.refusal,
        }
    }
}
