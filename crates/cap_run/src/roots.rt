//! The roots of a run.

ghost use Rattle.std.specs.Prelude.{◌≡◌, ◌≤◌, ◌+◌, MatchResult};
ghost use Rattle.cap_ops.specs.Checks.{first_of};
ghost use Rattle.cap_log.specs.Lines.{IsPlace};
ghost use Rattle.cap_log.specs.declared.lines.Place.TheVariants.{Register};
ghost use Rattle.cap_machine.specs.{Accounts.root_checks, Helds.{EndsRoot, account_of}};
ghost use Rattle.cap_run_log.specs.RunLines.{IsRunPlace};
ghost use Rattle.cap_run_log.specs.declared.lines.RunPlace.TheVariants.{Special};
ghost use Rattle.cap_run_log.specs.UsualLines.{in_run};
ghost use Rattle.cap_run.specs.{RunChanges.root_after, RunChecks.{Answers, root_end, root_wants}, RootSteps.{CountsRoot, EndsCount}};
ghost use Rattle.cap_run.specs.Machines.{run_in};

use crate::ends::{RunEnd, RunRefusal};
use crate::lines::usual_ended;
use crate::run_machine::RunMachine;
use cap_log::Place;
use cap_machine::{Machine, Refusal, StepEnd};
use cap_run_log::RunPlace;
use cap_word::{Cap, Word, null};
use tagmem::TaggedStore;

// Counts a root that the machine doesn't hold. c1 holds it for a moment.
fn count_root<M: TaggedStore>(machine: &mut Machine<M>, word: Word) -> Result<(), StepEnd>
    ensures outcome { MatchResult result (λ _. CountsRoot machine.old word machine.new)
        (λ end. EndsCount machine.old word end machine.new) }
{
    machine.kept();
    let place = Place::Register(1);
    let held = machine.register(1);
    let label = machine.label(place);
    let nothing = Cap {
        tag: false,
        word: null(),
    };
    machine.put_labelled(1, nothing, 0);
    let counted = machine.declare_labelled(place, word, 1);
    machine.put_labelled(1, held, label);
    counted
}

impl<M: TaggedStore> RunMachine<M> {
    /// Puts a root, tagged, at its place, and counts it: no object owns it. It is refused for the first of these: a step was
    /// made (`Misplaced`); its place has a capability with a tag (`PlaceTaken`); its word isn't sound (`UnsoundRoot`);
    /// there are 4,294,967,295 roots, or it names a granule past as many (`LimitPassed`). `NoMemory` comes only at a
    /// granule named for the first time. After an error nothing has changed.
    pub fn declare(&mut self, place: RunPlace, word: Word) -> Result<(), RunEnd>
        requires { IsRunPlace place }
        ensures outcome { let old = run_in self.old in
            Answers (root_end old place word) (root_after old place word) (root_wants old place) old result
            (run_in self.new) }
        ensures asks { self.new.asks ≡ self.old.asks }
    {
        if self.machine.steps() > 0 {
            return Err(RunEnd::Refused(RunRefusal::Usual(Refusal::Misplaced)));
        }
        match place {
            RunPlace::General(number) => self.declare_main(Place::Register(number), word),
            RunPlace::Special(number) => self.declare_special(number, word),
            RunPlace::Granule(granule) => self.declare_main(Place::Granule(granule), word),
        }
    }

    // Puts a root into a general-purpose register or a granule.
    fn declare_main(&mut self, place: Place, word: Word) -> Result<(), RunEnd>
        requires place { IsPlace place }
        requires first { self.old.machine.steps ≡ 0 }
        ensures outcome { let old = run_in self.old in
            Answers (root_end old (in_run place) word) (root_after old (in_run place) word) (root_wants old (in_run place)) old result
            (run_in self.new) }
        ensures asks { self.new.asks ≡ self.old.asks }
    {
        self.machine.kept();
        match self.machine.declare_labelled(place, word, 1) {
            Ok(()) => Ok(()),
            Err(end) => Err(usual_ended(end)),
        }
    }

    // Puts a root into a special register.
    fn declare_special(&mut self, number: u8, word: Word) -> Result<(), RunEnd>
        requires number { number ≤ 31 }
        requires first { self.old.machine.steps ≡ 0 }
        ensures outcome { let old = run_in self.old in
            Answers (root_end old (Special number) word) (root_after old (Special number) word) (root_wants old (Special number)) old result
            (run_in self.new) }
        ensures asks { self.new.asks ≡ self.old.asks }
    {
        if self.specials.cap(number).tag {
            return Err(RunEnd::Refused(RunRefusal::Usual(Refusal::PlaceTaken)));
        }
        match count_root(&mut self.machine, word) {
            Ok(()) => {
                self.specials.put(number, Cap { tag: true, word }, 1);
                Ok(())
            }
            Err(end) => Err(usual_ended(end)),
        }
    }
}
