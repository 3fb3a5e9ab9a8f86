//! The judge of a log that lies in memory.

ghost use Rattle.cap_report.specs.Answers.{AnswersBytes, NamesEscapesIn};

use cap_report::answers::{Answer, answer_on};
use std::alloc::Global;
use tagmem::PageStore;

/// Judges the bytes of a log, as `capcheck judge` does: it is a `yes` exactly for a log whose steps have a run from
/// its roots, and otherwise a `no` with the first fault. Memory is taken only if a line names a granule for the
/// first time, and given back before the call ends.
#[unsafe(no_mangle)]
pub extern "C" fn capcheck_judge_bytes(alloc: Global, bytes: &[u8]) -> Answer
    ensures answer { AnswersBytes bytes.now result }
    ensures escape { NamesEscapesIn result }
{
    answer_on(bytes, PageStore::new(alloc))
}
