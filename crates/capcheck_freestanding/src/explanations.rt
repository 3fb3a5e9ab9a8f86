//! The judge of a log that lies in memory, with its report.

ghost use Rattle.std.specs.Prelude.{◌≡◌, ℕ, List, length};
ghost use Rattle.cap_judge.specs.Logs.{LacksRoom};
ghost use Rattle.cap_report.specs.{Answers.{AnswersBytes, NamesEscapesIn}, Sinks.Took};
ghost use Rattle.capcheck_freestanding.specs.Whys.{AnswersWhy, IsWhyOf};

use cap_report::answers::{Answer, NO_MEMORY, numbers_of, without_verdict};
use cap_report::judge_why_bytes;
use cap_report::texts::TextSink;
use tagmem_lent::{LentStore, Slot};

/// What a judge answers that explains it (in C `capcheck_why`).
#[repr(C)]
#[derive(Clone, Copy)]
pub struct Why {
    /// The answer.
    pub answer: Answer,
    /// How many bytes the text has: none without a verdict, and 2^64 - 1 for as many and more.
    pub length: u64,
}

/// Judges the bytes of a log, as [`capcheck_judge_bytes_in`](crate::judges::capcheck_judge_bytes_in) does, and
/// writes what `capdiag why` prints of them: the line of the verdict, and after a `no` the report of the faulty line.
/// After a yes the lines of the origins follow if they are asked for. The text stands at the front of its room
/// if it fits. If it doesn't, the room holds anything, and the length says what is needed.
#[unsafe(no_mangle)]
pub extern "C" fn capcheck_judge_why(
    origins: bool,
    bytes: &[u8],
    slots: &mut [Slot],
    text: &mut [u8],
) -> Why
    ensures why { AnswersWhy origins bytes.now text.old text.new result }
    ensures full { result.answer.state ≡ 3 → LacksRoom (length slots.old) bytes.now }
    ensures escape { NamesEscapesIn result.answer }
{
    let mut sink = TextSink::new(text);
    let answer = answer_into(origins, bytes, slots, &mut sink);
    let length = sink.length();
    Why { answer, length }
}

// Judges the bytes of a log, and pushes the text of the answer.
fn answer_into(origins: bool, bytes: &[u8], slots: &mut [Slot], sink: &mut TextSink) -> Answer
    ensures answer { (answer : AnswersBytes bytes.now result) × (text : List ℕ) × IsWhyOf origins bytes.now answer.verdict text
        × Took sink.old sink.new text }
    ensures full { result.state ≡ 3 → LacksRoom (length slots.old) bytes.now }
{
    match judge_why_bytes(origins, bytes, LentStore::new(slots), sink) {
        Ok(verdict) => numbers_of(verdict),
        Err(_) => without_verdict(NO_MEMORY),
    }
}
