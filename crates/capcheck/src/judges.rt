//! Judging an input, and pushing the text of the verdict.

ghost use Rattle.std.specs.Prelude.{◌≡◌, ℕ, List, true};
ghost use Rattle.cap_judge.specs.{Judgings.IsAnswerOf, Reports.Tells, VerdictLines.verdict_status};
ghost use Rattle.cap_program.specs.{Doings.{IsCounted, IsDone}, Judging.{ShowsVerdict, StopsJudging, judged}};

use cap_judge::{JudgeToFault, Verdict, judge_origins, judge_to, verdict_status};
use cap_log::{Sink, Source};
use cap_program::{Fault, fault_of};
use std::alloc::Global;

/// Judges what a source gives, pushes the line of the verdict and, if they are asked for, those of origins, and answers
/// the status that goes with the verdict.
pub fn judge_input<S: Source, K: Sink>(
    alloc: Global,
    origins: bool,
    source: &mut S,
    sink: &mut K,
) -> Result<u8, Fault>
    ensures done { (given : List ℕ) × S.gave source.old source.new given
        × IsDone (ShowsVerdict verdict_status (IsAnswerOf given (S.ended source.new)) (Tells origins given))
        (StopsJudging (IsAnswerOf given true)) (K.took sink.old sink.new) result }
    ensures read { IsCounted Fault.Read result (S.faults source.old) (S.faults source.new) }
    ensures written { IsCounted Fault.Write result (K.faults sink.old) (K.faults sink.new) }
{
    if origins {
        judged(judge_origins(alloc, source, sink))
    } else {
        judged(judge_to(alloc, source, sink))
    }
}

// The status that goes with a verdict, or the fault that came instead.
fn judged(answer: Result<Verdict, JudgeToFault>) -> Result<u8, Fault>
    ensures value { result ≡ judged verdict_status answer }
{
    match answer {
        Ok(verdict) => Ok(verdict_status(&verdict)),
        Err(fault) => Err(fault_of(fault)),
    }
}
