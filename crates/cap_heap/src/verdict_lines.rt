//! The line of a verdict, and its exit status.

ghost use Rattle.std.specs.Prelude.{◌≡◌, ◌≤◌, length, take, drop};
ghost use Rattle.cap_heap.specs.VerdictLines.{heap_line, heap_status};

use crate::verdict::HeapVerdict;
use cap_log::buffers::{put, put_decimal};

/// Writes the line of a verdict, `yes EVENTS LIVE` or `no LINE NUMBER NAME` with its line feed, at the front of
/// the buffer, and answers its length. The rest of the buffer stays as it was.
#[tactic(auto, using(cap_log::proofs::ElementLemmas::short_decimal))]
pub fn heap_text(verdict: &HeapVerdict, buffer: &mut [u8; 64]) -> usize
    ensures line { take result buffer.new ≡ heap_line verdict.now }
    ensures length { result ≡ length (heap_line verdict.now) }
    ensures fits { result ≤ 64 }
    ensures rest { drop result buffer.new ≡ drop result buffer.old }
{
    match *verdict {
        HeapVerdict::Yes { events, live } => {
            let at = put(buffer, 0, b"yes ");
            let at = put_decimal(buffer, at, u64::from(events));
            let at = put(buffer, at, b" ");
            let at = put_decimal(buffer, at, live);
            put(buffer, at, b"\n")
        }
        HeapVerdict::No { line, refusal } => {
            let at = put(buffer, 0, b"no ");
            let at = put_decimal(buffer, at, line);
            let at = put(buffer, at, b" ");
            let at = put_decimal(buffer, at, u64::from(refusal.number()));
            let at = put(buffer, at, b" ");
            let at = put(buffer, at, refusal.name().as_bytes());
            put(buffer, at, b"\n")
        }
    }
}

/// The exit status of a program that answers a verdict: 0 for a `yes`, 1 for a `no`.
pub fn heap_status(verdict: &HeapVerdict) -> u8
    ensures value { result ≡ heap_status verdict.now }
{
    match verdict {
        HeapVerdict::Yes { .. } => 0,
        HeapVerdict::No { .. } => 1,
    }
}
