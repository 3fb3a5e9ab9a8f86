//! What a judge of run logs is asked: the verdict so far, and what the rules give for a faulty step.

ghost use Rattle.std.specs.Prelude.{◌≡◌, ℕ, List};
ghost use Rattle.cap_streams.specs.Front.{IsCut};
ghost use Rattle.cap_judge.specs.Expectations.{expected_of};
ghost use Rattle.cap_run.specs.declared.asks.Asks.{Asks as AsksIn};
ghost use Rattle.cap_run_judge.specs.Questions.{ExpectsAt, GivesForText, verdict_so_far};
ghost use Rattle.cap_run_judge.specs.Readings.{VerdictAtEnd, stage_of};
ghost use Rattle.cap_run.specs.Machines.{run_in};

use crate::judges::{Due, RunJudge};
use crate::verdict::RunVerdict;
use cap_judge::Expected;
use cap_machine::{Given, Refusal};
use cap_run::{RunMachine, RunRefusal};
use cap_run_log::{RunLine, read_run_line};
use tagmem::TaggedStore;

impl<M: TaggedStore> RunJudge<M> {
    /// `None` exactly while the lines so far begin a run log, and otherwise the `no` that stays whatever lines follow. It is
    /// never a `yes`, since after the end line of a log too a line may follow.
    pub fn answer(&self) -> Option<RunVerdict>
        ensures so_far { result ≡ verdict_so_far (stage_of self.now).due }
    {
        match &self.due {
            Due::Refused(fault) => Some(fault.verdict()),
            _ => None,
        }
    }

    /// The verdict if no other bytes follow than these, which are less than a line.
    pub fn end(&self, rest: &[u8]) -> RunVerdict
        ensures verdict { IsCut rest.now → (text : List ℕ) × VerdictAtEnd (stage_of self.now) rest.now result text }
    {
        match self.ending(rest) {
            Ok(verdict) => verdict,
            Err(fault) => fault.verdict(),
        }
    }

    /// After a `no` for the result of a step of version 2, the result that the rules give for that step; otherwise `None`,
    /// also of an `invoke`, which records two words.
    pub fn expected(&self) -> Option<Expected>
        ensures expects { ExpectsAt (stage_of self.now) result }
    {
        match &self.due {
            Due::Refused(fault) => match fault.refusal {
                RunRefusal::Usual(refusal) => match refusal {
                    Refusal::WrongResult => given_for(&self.machine, fault.text.as_slice()),
                    _ => None,
                },
                _ => None,
            },
            _ => None,
        }
    }
}

// What the rules give for the step of version 2 that a text spells, if it is refused for its result.
fn given_for<M: TaggedStore>(machine: &RunMachine<M>, text: &[u8]) -> Option<Expected>
    ensures gives { (asks : AsksIn) → GivesForText asks (run_in machine.now) text.now result }
{
    match read_run_line(text) {
        Some(line) => match line {
            RunLine::Step(step) => expected_of(machine.machine().shown(&step).given),
            _ => None,
        },
        None => None,
    }
}

// The result, without the recorded one.
fn expected_of(given: Given) -> Option<Expected>
    ensures { result ≡ expected_of given }
{
    match given {
        Given::Nothing => None,
        Given::Capability { cap, .. } => Some(Expected::Capability(cap)),
        Given::Number { value, size, .. } => Some(Expected::Number { value, size }),
    }
}
