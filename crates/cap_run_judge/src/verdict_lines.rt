//! The refusals of run logs by number and name, the line of a verdict, and its exit status.

ghost use Rattle.std.specs.Prelude.{◌≡◌, ◌+◌, ◌≤◌, decimal, length, take, drop};
ghost use Rattle.cap_streams.specs.Written.{Writes};
ghost use Rattle.cap_run_judge.specs.VerdictLines.{run_refusal_name, run_refusal_number, run_verdict_line, run_verdict_status};

use crate::verdict::RunVerdict;
use cap_log::buffers::{put, put_decimal};
use cap_ops::refusal_name_at;
use cap_run::RunRefusal;

/// The number that a verdict line shows for a refusal, 1 to 41.
pub fn run_refusal_number(refusal: RunRefusal) -> u8
    ensures number { result ≡ run_refusal_number refusal }
    ensures range { (1 ≤ result) × (result ≤ 41) }
{
    match refusal {
        RunRefusal::Usual(usual) => usual.number(),
        RunRefusal::Overlaps => 28,
        RunRefusal::UnsoundResult => 30,
        RunRefusal::BeyondSource => 31,
        RunRefusal::SealChanged => 32,
        RunRefusal::NotInvokable => 33,
        RunRefusal::NoCapability => 34,
        RunRefusal::HasOwner => 35,
        RunRefusal::StillHeld => 36,
        RunRefusal::NoOwner => 37,
        RunRefusal::AlreadyFreed => 38,
        RunRefusal::OwnerFreed => 39,
        RunRefusal::NoObject => 40,
        RunRefusal::NotOwned => 41,
    }
}

/// The name that a verdict line shows for a refusal, as the variant is spelled.
pub fn run_refusal_name(refusal: RunRefusal) -> &'static str
    ensures name { result.now ≡ run_refusal_name refusal }
    ensures short { length result.now ≤ 20 }
{
    refusal_name_at(run_refusal_number(refusal))
}

/// Writes the line of a verdict, `yes STEPS ROOTS OBJECTS` or `no LINE NUMBER NAME` with its line feed, at the front of
/// the buffer, and answers its length. The rest of the buffer stays as it was.
#[tactic(auto, using(cap_log::proofs::ElementLemmas::short_decimal))]
pub fn run_verdict_text(verdict: &RunVerdict, buffer: &mut [u8; 64]) -> usize
    ensures line { take result buffer.new ≡ run_verdict_line verdict.now }
    ensures length { result ≡ length (run_verdict_line verdict.now) }
    ensures fits { result ≤ 64 }
    ensures rest { drop result buffer.new ≡ drop result buffer.old }
{
    match *verdict {
        RunVerdict::Yes {
            steps,
            roots,
            objects,
        } => {
            let at = put(buffer, 0, b"yes ");
            let at = put_count(buffer, at, steps);
            let at = put(buffer, at, b" ");
            let at = put_count(buffer, at, roots);
            let at = put(buffer, at, b" ");
            let at = put_count(buffer, at, objects);
            put(buffer, at, b"\n")
        }
        RunVerdict::No { line, refusal } => {
            let at = put(buffer, 0, b"no ");
            let at = put_decimal(buffer, at, line);
            let at = put(buffer, at, b" ");
            let at = put_decimal(buffer, at, u64::from(run_refusal_number(refusal)));
            let at = put(buffer, at, b" ");
            let at = put(buffer, at, run_refusal_name(refusal).as_bytes());
            put(buffer, at, b"\n")
        }
    }
}

// Writes a count in decimal at an index of the buffer, and returns the index after it.
#[tactic(auto, using(crate::proofs::TextLemmas::count_digits))]
fn put_count(buffer: &mut [u8], at: usize, count: u32) -> usize
    requires { at + 10 ≤ length buffer.old }
    ensures text { Writes at (decimal count) buffer.old buffer.new result }
    ensures fits { result ≤ at + 10 }
{
    put_decimal(buffer, at, u64::from(count))
}

/// The exit status of a program that answers a verdict: 0 for a `yes`, 1 for a `no`.
pub fn run_verdict_status(verdict: &RunVerdict) -> u8
    ensures value { result ≡ run_verdict_status verdict.now }
{
    match verdict {
        RunVerdict::Yes { .. } => 0,
        RunVerdict::No { .. } => 1,
    }
}
