//! Checking an input as a vector file, and pushing the line of the verdict.

ghost use Rattle.std.specs.Prelude.{◌≡◌, ℕ, List};
ghost use Rattle.cap_program.specs.Doings.{IsCounted, IsDone};
ghost use Rattle.capcheck.specs.{Answers.vector_status, Doings.{ShowsCheckOf, StopsChecking}};

use cap_log::{PullFault, PushFault, Sink, Source, push_all};
use cap_program::Fault;
use cap_vectors::{VectorVerdict, vector_text, vectors};

/// Checks what a source gives as a vector file, pushes the line of the verdict, and answers the status that goes with it.
pub fn check_source<S: Source, K: Sink>(source: &mut S, sink: &mut K) -> Result<u8, Fault>
    ensures done { (given : List ℕ) × S.gave source.old source.new given
        × IsDone (ShowsCheckOf given (S.ended source.new)) (StopsChecking given) (K.took sink.old sink.new) result }
    ensures read { IsCounted Fault.Read result (S.faults source.old) (S.faults source.new) }
    ensures written { IsCounted Fault.Write result (K.faults sink.old) (K.faults sink.new) }
{
    match vectors(source) {
        Ok(verdict) => {
            let mut text = [0u8; 64];
            let length = vector_text(&verdict, &mut text);
            match push_all(sink, &text[..length]) {
                Ok(()) => Ok(vector_status(&verdict)),
                Err(PushFault) => Err(Fault::Write),
            }
        }
        Err(PullFault) => Err(Fault::Read),
    }
}

// The status that goes with a verdict on a vector file.
fn vector_status(verdict: &VectorVerdict) -> u8
    ensures value { result ≡ vector_status verdict.now }
{
    match verdict {
        VectorVerdict::Pass { .. } => 0,
        VectorVerdict::Fail { .. } => 1,
    }
}
