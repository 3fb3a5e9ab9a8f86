//! What an open judge tells of the faulty line.

ghost use Rattle.std.specs.Prelude.{◌≡◌, ℕ, List, None};
ghost use Rattle.cap_judge.specs.Readings.{HasRead};
ghost use Rattle.capcheck_judge.specs.Handles.{AnswersEndReport, AnswersReport, Holds, held_in};

use crate::handle::Handle;
use cap_judge::Judge;
use cap_log::PushFault;
use cap_report::texts::TextSink;
use cap_report::{push_ending, push_refused};
use std::alloc::Global;
use tagmem::{PageStore, TaggedStore};

/// Writes what `capdiag why` prints of the lines so far, if one of them is faulty: the line of the `no`, and the
/// report of the first fault. It answers how many bytes the text has: none if no line is faulty, or if the
/// handle holds no judge, and never more than 3,136. The text stands at the front of its room if it fits. If it
/// doesn't, the room holds anything, and the answer says what is needed.
#[unsafe(no_mangle)]
pub extern "C" fn capcheck_judge_report(alloc: Global, judge: &mut Handle, text: &mut [u8]) -> u64
    ensures report { (bytes : List ℕ) → Holds (held_in judge.old) bytes → AnswersReport bytes text.old text.new result }
    ensures none { held_in judge.old ≡ None → result ≡ 0 }
    ensures nothing_written { held_in judge.old ≡ None → text.new ≡ text.old }
    ensures kept { held_in judge.new ≡ held_in judge.old }
{
    ask!(judge, alloc, |held| length = write_report(&held, text), length, else 0)
}

/// Writes what `capdiag why` prints of the lines so far as a whole log: the line of the verdict, and after a `no` the
/// diagnosis of the faulty line. It answers how many bytes the text has, never more than 3,136, and none if the
/// handle holds no judge. The text stands at the front of its room if it fits. If it doesn't, the room holds
/// anything. Further lines may be handed over after it.
#[unsafe(no_mangle)]
pub extern "C" fn capcheck_judge_end_report(
    alloc: Global,
    judge: &mut Handle,
    text: &mut [u8],
) -> u64
    ensures report { (bytes : List ℕ) → Holds (held_in judge.old) bytes → AnswersEndReport bytes text.old text.new result }
    ensures none { held_in judge.old ≡ None → result ≡ 0 }
    ensures nothing_written { held_in judge.old ≡ None → text.new ≡ text.old }
    ensures kept { held_in judge.new ≡ held_in judge.old }
{
    ask!(judge, alloc, |held| length = write_end_report(&held, text), length, else 0)
}

// Writes the text of the verdict on a judge's lines as a whole log, and answers its length.
fn write_end_report(judge: &Judge<PageStore>, text: &mut [u8]) -> u64
    ensures { (bytes : List ℕ) → HasRead judge.now bytes
        → AnswersEndReport bytes text.old text.new result }
{
    text!(text, |sink| push_ending(judge, &[], &mut sink))
}

// Writes the report of a judge's faulty line, and answers its length.
fn write_report(judge: &Judge<PageStore>, text: &mut [u8]) -> u64
    ensures { (bytes : List ℕ) → HasRead judge.now bytes
        → AnswersReport bytes text.old text.new result }
{
    text!(text, |sink| push_refused(judge, &mut sink))
}
