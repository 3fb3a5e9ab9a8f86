//! What an open judge of run logs tells of the faulty line.

ghost use Rattle.std.specs.Prelude.{◌≡◌, ℕ, List, None};
ghost use Rattle.cap_run.specs.declared.asks.Asks.{Asks as AsksIn};
ghost use Rattle.cap_run_judge.specs.{Readings.stage_of, Turns.{unread, run_turns}};
ghost use Rattle.capcheck_judge.specs.RunHandles.{AnswersRunEndReport, AnswersRunReport, HoldsRun, run_held_in};
ghost use Rattle.cap_turns.specs.Readings.{Follows};

use crate::run_handle::RunHandle;
use cap_log::PushFault;
use cap_report::texts::TextSink;
use cap_run_judge::RunJudge;
use cap_run_report::{push_run_ending, push_run_refused};
use std::alloc::Global;
use tagmem::PageStore;

/// Writes what `capdiag run --why` prints of the lines so far, if one of them is faulty: the line of the `no`, and the
/// report of the first fault. It answers how many bytes the text has: none if no line is faulty, or if the
/// handle holds no judge, and never more than 3,136. The text stands at the front of its room if it fits. If it
/// doesn't, the room holds anything, and the answer says what is needed.
#[unsafe(no_mangle)]
pub extern "C" fn capcheck_run_judge_report(
    alloc: Global,
    judge: &mut RunHandle,
    text: &mut [u8],
) -> u64
    ensures report { (asks : AsksIn) (bytes : List ℕ) → HoldsRun (run_held_in judge.old) asks bytes
        → AnswersRunReport asks bytes text.old text.new result }
    ensures none { run_held_in judge.old ≡ None → result ≡ 0 }
    ensures nothing_written { run_held_in judge.old ≡ None → text.new ≡ text.old }
    ensures kept { run_held_in judge.new ≡ run_held_in judge.old }
{
    ask!(judge, alloc, |held| length = write_run_report(&held, text), length, else 0)
}

/// Writes what `capdiag run --why` prints of the lines so far as a whole run log: the line of the verdict, and after a `no`
/// the diagnosis of the faulty line. It answers how many bytes the text has, never more than 3,136, and none if the
/// handle holds no judge. The text stands at the front of its room if it fits. If it doesn't, the room holds
/// anything. Further lines may be handed over after it.
#[unsafe(no_mangle)]
pub extern "C" fn capcheck_run_judge_end_report(
    alloc: Global,
    judge: &mut RunHandle,
    text: &mut [u8],
) -> u64
    ensures report { (asks : AsksIn) (bytes : List ℕ) → HoldsRun (run_held_in judge.old) asks bytes
        → AnswersRunEndReport asks bytes text.old text.new result }
    ensures none { run_held_in judge.old ≡ None → result ≡ 0 }
    ensures nothing_written { run_held_in judge.old ≡ None → text.new ≡ text.old }
    ensures kept { run_held_in judge.new ≡ run_held_in judge.old }
{
    ask!(judge, alloc, |held| length = write_run_end_report(&held, text), length, else 0)
}

// Writes the report of a judge's faulty line, and answers its length.
fn write_run_report(judge: &RunJudge<PageStore>, text: &mut [u8]) -> u64
    ensures { (asks : AsksIn) (bytes : List ℕ) → Follows run_turns (unread asks) bytes (stage_of judge.now)
        → AnswersRunReport asks bytes text.old text.new result }
{
    text!(text, |sink| push_run_refused(judge, &mut sink))
}

// Writes the text of the verdict on a judge's lines as a whole run log, and answers its length.
fn write_run_end_report(judge: &RunJudge<PageStore>, text: &mut [u8]) -> u64
    ensures { (asks : AsksIn) (bytes : List ℕ) → Follows run_turns (unread asks) bytes (stage_of judge.now)
        → AnswersRunEndReport asks bytes text.old text.new result }
{
    text!(text, |sink| push_run_ending(judge, &mut sink))
}
