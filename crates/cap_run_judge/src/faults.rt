//! The faulty line of a run log.

ghost use Rattle.std.specs.Prelude.{◌≡◌};
ghost use Rattle.cap_run_judge.specs.declared.verdict.RunVerdict.TheVariants.{No};

use crate::verdict::RunVerdict;
use cap_run::RunRefusal;
use cap_streams::judging::FaultLine;

/// The faulty line of a run log.
#[derive(Clone, Copy)]
pub struct RefusedRunLine {
    /// Its number, from 1 on.
    pub line: u64,
    /// The first check that it fails.
    pub refusal: RunRefusal,
    /// Its bytes.
    pub text: FaultLine,
}

impl RefusedRunLine {
    /// The verdict that names it.
    pub fn verdict(&self) -> RunVerdict
        ensures value { result ≡ No self.now.line self.now.refusal }
    {
        RunVerdict::No {
            line: self.line,
            refusal: self.refusal,
        }
    }
}
