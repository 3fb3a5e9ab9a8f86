//! What a judge of run logs answers to C: structs of plain numbers.

ghost use Rattle.std.specs.Prelude.{◌≡◌};
ghost use Rattle.capcheck_judge.specs.RunAnswers.{IsObjectTold, asks_passed, run_numbers_of, run_without_verdict};

use cap_halves::halves::halves_of;
use cap_halves::values::Halves;
use cap_objects::Object;
use cap_report::answers::{NO, YES};
use cap_run::Asks;
use cap_run_judge::{RunVerdict, run_refusal_number};

/// What is asked of freed objects, and of authorities without owner (in C `capcheck_asks`): any number but 0 asks for it.
#[repr(C)]
#[derive(Clone, Copy)]
pub struct PassedAsks {
    /// That memory isn't handed out again while a capability of a freed object reaches it.
    pub held: u8,
    /// That no freed object's capability is used.
    pub used: u8,
    /// That no byte of a live object is accessed through a capability without owner.
    pub owned: u8,
}

/// What the judge of run logs answers (in C `capcheck_run_answer`).
#[repr(C)]
#[derive(Clone, Copy)]
pub struct RunAnswer {
    /// After a `no` the number of the faulty line, from 1 on, else 0.
    pub line: u64,
    /// After a `yes` how many step lines the log has, else 0.
    pub steps: u32,
    /// After a `yes` how many root lines the log has, else 0.
    pub roots: u32,
    /// After a `yes` how many objects were handed out, else 0.
    pub objects: u32,
    /// As in `capcheck_answer`.
    pub state: u8,
    /// After a `no` the number of the refusal, 1 to 41, else 0.
    pub refusal: u8,
}

/// An object, or none (in C `capcheck_object`).
#[repr(C)]
#[derive(Clone, Copy)]
pub struct PassedObject {
    /// The base of its extent.
    pub base: u64,
    /// The top of its extent.
    pub top: Halves,
    /// How many places it owns.
    pub held: u64,
    /// The number of the line that handed it out.
    pub line: u64,
    /// 1 if it is live, 2 if it was freed and a place still holds it, and 0 if there is none.
    pub state: u8,
}

/// What C asks.
pub(crate) fn asks_of(passed: PassedAsks) -> Asks
    ensures value { result ≡ asks_passed passed }
{
    Asks {
        held: passed.held != 0,
        used: passed.used != 0,
        owned: passed.owned != 0,
    }
}

/// A verdict as C gets it.
pub(crate) fn run_numbers_of(verdict: RunVerdict) -> RunAnswer
    ensures value { result ≡ run_numbers_of verdict }
{
    match verdict {
        RunVerdict::Yes {
            steps,
            roots,
            objects,
        } => RunAnswer {
            steps,
            roots,
            objects,
            ..run_without_verdict(YES)
        },
        RunVerdict::No { line, refusal } => RunAnswer {
            line,
            refusal: run_refusal_number(refusal),
            ..run_without_verdict(NO)
        },
    }
}

/// An answer that is no verdict.
pub(crate) fn run_without_verdict(state: u8) -> RunAnswer
    ensures value { result ≡ run_without_verdict state }
{
    RunAnswer {
        line: 0,
        steps: 0,
        roots: 0,
        objects: 0,
        state,
        refusal: 0,
    }
}

/// An object as C gets it, of a log with so many roots.
pub(crate) fn told_object(roots: u32, object: Option<Object>) -> PassedObject
    ensures told { IsObjectTold roots object result }
{
    match object {
        Some(object) => PassedObject {
            base: object.base,
            top: halves_of(object.top()),
            held: object.held,
            line: object.handed_at.line(roots),
            state: if object.freed { 2 } else { 1 },
        },
        None => PassedObject {
            base: 0,
            top: halves_of(0),
            held: 0,
            line: 0,
            state: 0,
        },
    }
}
