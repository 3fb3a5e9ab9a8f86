//! What the judge answers to C: structs of plain numbers.

ghost use Rattle.std.specs.Prelude.{◌≡◌};
ghost use Rattle.std.specs.FinMap as map;
ghost use Rattle.cap_judge.specs.Logs.{LacksRoom};
ghost use Rattle.cap_report.specs.Answers.{AnswersBytes, NamesEscapesIn, numbers_of, without_verdict};

use cap_judge::{Verdict, judge_bytes_keeping};
use tagmem::TaggedStore;

/// The state of lines of which none is faulty so far.
pub const GOES_ON: u8 = 0;

/// The state of an answer that is a `yes`.
pub const YES: u8 = 1;

/// The state of an answer that is a `no`.
pub const NO: u8 = 2;

/// The state of an answer without a verdict, since memory ran out.
pub const NO_MEMORY: u8 = 3;

/// The state of an answer of a handle that holds no judge.
pub const NO_JUDGE: u8 = 4;

/// The state of bytes that are no line.
pub const NO_LINE: u8 = 5;

/// What a judge answers (in C `capcheck_answer`).
#[repr(C)]
#[derive(Clone, Copy)]
pub struct Answer {
    /// After a `no` the number of the faulty line, from 1 on, else 0.
    pub line: u64,
    /// After a `yes` how many step lines the log has, else 0.
    pub steps: u32,
    /// After a `yes` how many root lines the log has, else 0.
    pub roots: u32,
    /// 1 for a `yes`, 2 for a `no`, 0 if no line is faulty so far, 3 if memory for a granule was refused, and 4
    /// if there is no judge.
    pub state: u8,
    /// After a `no` the number of the refusal, 1 to 25, else 0.
    pub refusal: u8,
}

/// The answer on the bytes of a log, by a judge over a store that is empty.
#[inline(always)]
pub fn answer_on<M: TaggedStore>(bytes: &[u8], memory: M) -> Answer
    requires { map.len (M.contents memory) ≡ 0 }
    ensures answer { AnswersBytes bytes.now result }
    ensures full { result.state ≡ 3 → LacksRoom (M.least_room memory) bytes.now }
    ensures escape { NamesEscapesIn result }
{
    match judge_bytes_keeping(bytes, memory).answer {
        Ok(verdict) => numbers_of(verdict),
        Err(_) => without_verdict(NO_MEMORY),
    }
}

/// A verdict as C gets it.
pub fn numbers_of(verdict: Verdict) -> Answer
    ensures value { result ≡ numbers_of verdict }
{
    match verdict {
        Verdict::Yes { steps, roots } => Answer {
            steps,
            roots,
            ..without_verdict(YES)
        },
        Verdict::No { line, refusal } => Answer {
            line,
            refusal: refusal.number(),
            ..without_verdict(NO)
        },
    }
}

/// An answer that is no verdict.
pub fn without_verdict(state: u8) -> Answer
    ensures value { result ≡ without_verdict state }
{
    Answer {
        line: 0,
        steps: 0,
        roots: 0,
        state,
        refusal: 0,
    }
}
