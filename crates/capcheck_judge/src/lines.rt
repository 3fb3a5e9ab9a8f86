//! A judge that C opens, hands the lines of a log to, and closes.

ghost use Rattle.std.specs.Prelude.{◌≡◌, ◌≢◌, ◌↔◌, ◌⊎◌, ℕ, List, [], None};
ghost use Rattle.cap_report.specs.Answers.{NamesEscapesIn, without_verdict};
ghost use Rattle.capcheck_judge.specs.Handles.{AnswersEnd, AnswersSoFar, HandsOverLines, HandsOverText, Holds, held_in};
ghost use Rattle.capcheck_judge.specs.Takings.{TakesLine};
ghost use Rattle.cap_turns.specs.Readings.{IsNoLine};

use crate::answers::{LinesTaken, lines_taken};
use crate::handle::Handle;
use cap_judge::{Judge, TakeFault};
use cap_report::answers::{
    Answer, GOES_ON, NO, NO_JUDGE, NO_LINE, NO_MEMORY, numbers_of, without_verdict,
};
use std::alloc::Global;
use tagmem::{PageStore, TaggedStore};

/// Opens a judge that has taken no line. What the handle held is closed. 0, or 3 if memory for the judge was
/// refused; then the handle holds none.
#[unsafe(no_mangle)]
pub extern "C" fn capcheck_judge_open(alloc: Global, judge: &mut Handle) -> u8
    ensures answers { (result ≡ 0) ⊎ (result ≡ 3) }
    ensures opened { result ≡ 0 → Holds (held_in judge.new) [] }
    ensures no_memory { result ≡ 3 → held_in judge.new ≡ None }
{
    capcheck_judge_close(alloc, judge);
    match Box::new(alloc, Judge::over_pages(alloc)) {
        Ok(opened) => {
            judge.put(opened);
            GOES_ON
        }
        Err(_) => NO_MEMORY,
    }
}

/// Takes the next line, with its line feed. Returns 0 if it was taken and no line so far is faulty, 2 if it was
/// taken and it or an earlier line is faulty, 3 if memory ran out, and 4 if the handle holds no judge. Returns 5 if
/// the bytes aren't one line with its line feed, unless they begin with more bytes than a line has. With 3, 4 and 5
/// nothing has changed, and the line may be handed over again.
#[unsafe(no_mangle)]
pub extern "C" fn capcheck_judge_line(alloc: Global, judge: &mut Handle, line: &[u8]) -> u8
    ensures handed { HandsOverText line.now (held_in judge.old) (held_in judge.new) result }
    ensures no_line { (result ≡ 5) ↔ ((held_in judge.old ≢ None) × IsNoLine line.now) }
{
    ask!(judge, alloc, |held| state = take_line(&mut held, line), state, else NO_JUDGE)
}

/// Takes as many whole lines as some bytes begin with, each with its line feed, and answers how many bytes they have.
/// The state is 0 if no line so far is faulty: what is left is less than a line. It is 2 if a line is faulty: the next
/// one after those bytes, or one that was handed over before. It is 3 if memory ran out at the next line, which may be
/// handed over again with all after it; and 4 if the handle holds no judge.
#[unsafe(no_mangle)]
pub extern "C" fn capcheck_judge_lines(
    alloc: Global,
    judge: &mut Handle,
    bytes: &[u8],
) -> LinesTaken
    ensures handed { HandsOverLines bytes.now (held_in judge.old) (held_in judge.new) result }
{
    ask!(judge, alloc, |held| taken = held.take(bytes), lines_taken(taken), else LinesTaken {
        bytes: 0,
        state: NO_JUDGE,
    })
}

/// How the lines so far stand: the state is 0 while none of them is faulty, and else 2 with the `no` that stays
/// whatever lines follow. It is 4 if the handle holds no judge.
#[unsafe(no_mangle)]
pub extern "C" fn capcheck_judge_answer(alloc: Global, judge: &mut Handle) -> Answer
    ensures answer { (bytes : List ℕ) → Holds (held_in judge.old) bytes → AnswersSoFar bytes result }
    ensures escape { NamesEscapesIn result }
    ensures no_judge { held_in judge.old ≡ None → result ≡ without_verdict 4 }
    ensures kept { held_in judge.new ≡ held_in judge.old }
{
    ask!(judge, alloc, |held| answer = held.answer(), match answer {
        Some(no) => numbers_of(no),
        None => without_verdict(GOES_ON),
    }, else without_verdict(NO_JUDGE))
}

/// The verdict on the lines so far as a whole log: the state is 1 for a `yes` and 2 for a `no`, and 4 if the handle
/// holds no judge. Further lines may be handed over after it.
#[unsafe(no_mangle)]
pub extern "C" fn capcheck_judge_end(alloc: Global, judge: &mut Handle) -> Answer
    ensures verdict { (bytes : List ℕ) → Holds (held_in judge.old) bytes → AnswersEnd bytes result }
    ensures escape { NamesEscapesIn result }
    ensures no_judge { held_in judge.old ≡ None → result ≡ without_verdict 4 }
    ensures kept { held_in judge.new ≡ held_in judge.old }
{
    ask!(judge, alloc, |held| verdict = held.end(&[]), numbers_of(verdict), else without_verdict(NO_JUDGE))
}

/// Closes the judge, and gives its memory back. The handle then holds none.
#[unsafe(no_mangle)]
pub extern "C" fn capcheck_judge_close(alloc: Global, judge: &mut Handle)
    ensures none { held_in judge.new ≡ None }
{
    drop(judge.take(alloc));
}

/// Hands a line to a judge: 0, 2, 3 or 5, as [`capcheck_judge_line`] says.
fn take_line(judge: &mut Judge<PageStore>, line: &[u8]) -> u8
    ensures answers { (result ≡ 0) ⊎ (result ≡ 2) ⊎ (result ≡ 3) ⊎ (result ≡ 5) }
    ensures takes { TakesLine judge.old line.now result judge.new }
    ensures no_line { (result ≡ 5) ↔ IsNoLine line.now }
{
    state!(judge.take_line(line), judge.answer())
}
