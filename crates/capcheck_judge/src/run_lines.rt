//! A judge of run logs that C opens, hands the lines of a run log to, and closes.

ghost use Rattle.std.specs.Prelude.{◌≡◌, ◌≢◌, ◌↔◌, ◌⊎◌, ℕ, List, [], None};
ghost use Rattle.cap_run.specs.declared.asks.Asks.{Asks as AsksIn};
ghost use Rattle.capcheck_judge.specs.RunAnswers.{asks_passed, run_without_verdict};
ghost use Rattle.capcheck_judge.specs.RunHandles.{AnswersRunBytes, AnswersRunEnd, AnswersRunSoFar, HandsOverRunLines, HandsOverRunText, HoldsRun};
ghost use Rattle.capcheck_judge.specs.{RunHandles.run_held_in, RunTakings.TakesRunLine};
ghost use Rattle.cap_turns.specs.Readings.{IsNoLine};

use crate::answers::{LinesTaken, lines_taken};
use crate::run_answers::{PassedAsks, RunAnswer, asks_of, run_numbers_of, run_without_verdict};
use crate::run_handle::RunHandle;
use cap_judge::TakeFault;
use cap_report::answers::{GOES_ON, NO, NO_JUDGE, NO_LINE, NO_MEMORY};
use cap_run_judge::{RunJudge, judge_run_bytes};
use std::alloc::Global;
use tagmem::PageStore;

/// Judges the bytes of a run log, as `capdiag run` does: it is a `yes` exactly for a run log of whose lines no check fails,
/// and otherwise a `no` with the first faulty line. All memory is given back before the call ends.
#[unsafe(no_mangle)]
pub extern "C" fn capcheck_run_judge_bytes(
    alloc: Global,
    bytes: &[u8],
    asks: PassedAsks,
) -> RunAnswer
    ensures answer { AnswersRunBytes (asks_passed asks) bytes.now result }
{
    match judge_run_bytes(alloc, asks_of(asks), bytes) {
        Ok(verdict) => run_numbers_of(verdict),
        Err(_) => run_without_verdict(NO_MEMORY),
    }
}

/// Opens a judge of run logs that has taken no line. What the handle held is closed. 0, or 3 if memory for the judge
/// was refused; then the handle holds none.
#[unsafe(no_mangle)]
pub extern "C" fn capcheck_run_judge_open(
    alloc: Global,
    judge: &mut RunHandle,
    asks: PassedAsks,
) -> u8
    ensures answers { (result ≡ 0) ⊎ (result ≡ 3) }
    ensures opened { result ≡ 0 → HoldsRun (run_held_in judge.new) (asks_passed asks) [] }
    ensures no_memory { result ≡ 3 → run_held_in judge.new ≡ None }
{
    capcheck_run_judge_close(alloc, judge);
    let unread = RunJudge::new(alloc, PageStore::new(alloc), asks_of(asks));
    match Box::new(alloc, unread) {
        Ok(opened) => {
            judge.put(opened);
            GOES_ON
        }
        Err(_) => NO_MEMORY,
    }
}

/// Takes the next line, with its line feed. Returns 0 if it was taken and no line so far is faulty, 2 if it was
/// taken and it or an earlier line is faulty, 3 if memory ran out, and 4 if the handle holds no judge. Returns 5 if
/// the bytes aren't one line with its line feed, unless they begin with more bytes than a line has. With 3, 4 and 5
/// nothing has changed, and the line may be handed over again.
#[unsafe(no_mangle)]
pub extern "C" fn capcheck_run_judge_line(alloc: Global, judge: &mut RunHandle, line: &[u8]) -> u8
    ensures handed { HandsOverRunText line.now (run_held_in judge.old) (run_held_in judge.new) result }
    ensures no_line { (result ≡ 5) ↔ ((run_held_in judge.old ≢ None) × IsNoLine line.now) }
{
    ask!(judge, alloc, |held| state = take_run_line(&mut held, line), state, else NO_JUDGE)
}

/// Takes as many whole lines as some bytes begin with, each with its line feed, and answers how many bytes they have.
/// The state is 0 if no line so far is faulty: what is left is less than a line. It is 2 if a line is faulty: the next
/// one after those bytes, or one that was handed over before. It is 3 if memory ran out at the next line, which may be
/// handed over again with all after it; and 4 if the handle holds no judge.
#[unsafe(no_mangle)]
pub extern "C" fn capcheck_run_judge_lines(
    alloc: Global,
    judge: &mut RunHandle,
    bytes: &[u8],
) -> LinesTaken
    ensures handed { HandsOverRunLines bytes.now (run_held_in judge.old) (run_held_in judge.new) result }
{
    ask!(judge, alloc, |held| taken = held.take(bytes), lines_taken(taken), else LinesTaken {
        bytes: 0,
        state: NO_JUDGE,
    })
}

/// How the lines so far stand: the state is 0 while none of them is faulty, and else 2 with the `no` that stays
/// whatever lines follow. It is 4 if the handle holds no judge.
#[unsafe(no_mangle)]
pub extern "C" fn capcheck_run_judge_answer(alloc: Global, judge: &mut RunHandle) -> RunAnswer
    ensures answer { (asks : AsksIn) (bytes : List ℕ) → HoldsRun (run_held_in judge.old) asks bytes → AnswersRunSoFar asks bytes result }
    ensures no_judge { run_held_in judge.old ≡ None → result ≡ run_without_verdict 4 }
    ensures kept { run_held_in judge.new ≡ run_held_in judge.old }
{
    ask!(judge, alloc, |held| answer = held.answer(), match answer {
        Some(no) => run_numbers_of(no),
        None => run_without_verdict(GOES_ON),
    }, else run_without_verdict(NO_JUDGE))
}

/// The verdict on the lines so far as a whole run log: the state is 1 for a `yes` and 2 for a `no`, and 4 if the handle
/// holds no judge. Further lines may be handed over after it.
#[unsafe(no_mangle)]
pub extern "C" fn capcheck_run_judge_end(alloc: Global, judge: &mut RunHandle) -> RunAnswer
    ensures verdict { (asks : AsksIn) (bytes : List ℕ) → HoldsRun (run_held_in judge.old) asks bytes → AnswersRunEnd asks bytes result }
    ensures no_judge { run_held_in judge.old ≡ None → result ≡ run_without_verdict 4 }
    ensures kept { run_held_in judge.new ≡ run_held_in judge.old }
{
    ask!(judge, alloc, |held| verdict = held.end(&[]), run_numbers_of(verdict), else run_without_verdict(NO_JUDGE))
}

/// Closes the judge, and gives its memory back. The handle then holds none.
#[unsafe(no_mangle)]
pub extern "C" fn capcheck_run_judge_close(alloc: Global, judge: &mut RunHandle)
    ensures none { run_held_in judge.new ≡ None }
{
    drop(judge.take(alloc));
}

// Hands a line to a judge of run logs: 0, 2, 3 or 5, as `capcheck_run_judge_line` says.
fn take_run_line(judge: &mut RunJudge<PageStore>, line: &[u8]) -> u8
    ensures answers { (result ≡ 0) ⊎ (result ≡ 2) ⊎ (result ≡ 3) ⊎ (result ≡ 5) }
    ensures takes { TakesRunLine judge.old line.now result judge.new }
    ensures no_line { (result ≡ 5) ↔ IsNoLine line.now }
{
    state!(judge.take_line(line), judge.answer())
}
