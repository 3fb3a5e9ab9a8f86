//! The judge of a log that lies in memory.

ghost use Rattle.std.specs.Prelude.{◌≡◌, length};
ghost use Rattle.cap_judge.specs.Logs.{LacksRoom};
ghost use Rattle.cap_report.specs.Answers.{AnswersBytes, NamesEscapesIn};

use cap_report::answers::{Answer, answer_on};
use tagmem_lent::{LentStore, Slot};

/// Judges the bytes of a log, as `capcheck judge` does: it is a `yes` exactly for a log whose steps have a run from
/// its roots, and otherwise a `no` with the first fault. The granules that its lines name are kept in the slots, one
/// in each. What the slots hold before doesn't matter.
#[unsafe(no_mangle)]
pub extern "C" fn capcheck_judge_bytes_in(bytes: &[u8], slots: &mut [Slot]) -> Answer
    ensures answer { AnswersBytes bytes.now result }
    ensures full { result.state ≡ 3 → LacksRoom (length slots.old) bytes.now }
    ensures escape { NamesEscapesIn result }
{
    answer_on(bytes, LentStore::new(slots))
}
