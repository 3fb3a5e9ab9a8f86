//! The line of a verdict, and its exit status.

ghost use Rattle.std.specs.Prelude.{◌≡◌, ◌≤◌, length, take, drop};
ghost use Rattle.cap_judge.specs.VerdictLines.{verdict_line, verdict_status};

use crate::verdict::Verdict;
use cap_log::buffers::{put, put_decimal};

/// Writes the line of a verdict, `yes STEPS ROOTS` or `no LINE NUMBER NAME` with its line feed, at the
/// front of the buffer, and answers its length. The rest of the buffer stays as it was.
#[tactic(auto, using(cap_log::proofs::ElementLemmas::short_decimal))]
pub fn verdict_text(verdict: &Verdict, buffer: &mut [u8; 64]) -> usize
    ensures line { take result buffer.new ≡ verdict_line verdict.now }
    ensures length { result ≡ length (verdict_line verdict.now) }
    ensures fits { result ≤ 64 }
    ensures rest { drop result buffer.new ≡ drop result buffer.old }
{
    match *verdict {
        Verdict::Yes { steps, roots } => {
            let at = put(buffer, 0, b"yes ");
            let at = put_decimal(buffer, at, u64::from(steps));
            let at = put(buffer, at, b" ");
            let at = put_decimal(buffer, at, u64::from(roots));
            put(buffer, at, b"\n")
        }
        Verdict::No { line, refusal } => {
            let at = put(buffer, 0, b"no ");
            let at = put_decimal(buffer, at, line);
            let at = put(buffer, at, b" ");
            let at = put_decimal(buffer, at, u64::from(refusal.number()));
            let at = put(buffer, at, b" ");
            let at = put(buffer, at, refusal.name().as_bytes());
            put(buffer, at, b"\n")
        }
    }
}

/// The exit status of a program that answers a verdict: 0 for a `yes`, 1 for a `no`.
pub fn verdict_status(verdict: &Verdict) -> u8
    ensures value { result ≡ verdict_status verdict.now }
{
    match verdict {
        Verdict::Yes { .. } => 0,
        Verdict::No { .. } => 1,
    }
}
