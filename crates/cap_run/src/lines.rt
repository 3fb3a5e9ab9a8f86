//! What the steps that only runs have make of a run, where objects are told by their numbers.

ghost use Rattle.std.specs.Prelude.{◌≡◌, ◌<◌, ◌^◌};
ghost use Rattle.cap_run_log.specs.RunLines.{IsRunPlace, IsRunStepInRange};
ghost use Rattle.cap_run_log.specs.declared.lines.RunPlace.TheVariants.{Granule};
ghost use Rattle.cap_run_log.specs.declared.lines.RunStep.TheVariants.{Drop, Fill};
ghost use Rattle.cap_run.specs.{RunChanges.run_after};
ghost use Rattle.cap_run.specs.RunChecks.{Answers, run_end, run_wants, usual_ended};
ghost use Rattle.cap_run.specs.Machines.{run_in};

use crate::ends::{RunEnd, RunRefusal};
use crate::run_machine::RunMachine;
use cap_machine::StepEnd;
use cap_run_log::{RunPlace, RunRegister, RunStep};
use cap_word::Word;
use tagmem::TaggedStore;

// How a step ends in a run that ends so in the machine without objects.
pub(crate) fn usual_ended(end: StepEnd) -> RunEnd
    ensures { result ≡ usual_ended end }
{
    match end {
        StepEnd::Refused(refusal) => RunEnd::Refused(RunRefusal::Usual(refusal)),
        StepEnd::NoMemory => RunEnd::NoMemory,
    }
}

impl<M: TaggedStore> RunMachine<M> {
    /// Makes a step that only runs have and counts it. After an error nothing has changed. It is refused for the first of
    /// its own checks that fails, and then as `LimitPassed` where there are 4,294,967,295 steps or a granule is named past the
    /// limit:
    ///
    /// - derive, exchange, invoke: a check of a derivation fails (`SourceUntagged`, `UnsoundResult`, `BeyondSource`,
    ///   `SealChanged`), or one of an invocation (`AuthorityUntagged`, `NotInvokable`, `WrongResult`);
    /// - drop, fill: none;
    /// - object: `NoCapability`, `HasOwner`; with a number `NoObject`, `AlreadyFreed`; `Overlaps`, `StillHeld`;
    /// - free: `NoCapability` and `NoOwner`, or with a number `NoObject`; `AlreadyFreed`.
    ///
    /// `NoMemory` comes only at an object, and at a granule named for the first time.
    #[inline(always)]
    pub fn make(&mut self, step: &RunStep) -> Result<(), RunEnd>
        requires { IsRunStepInRange step.now }
        ensures outcome { let old = run_in self.old in
            Answers (run_end self.old.asks old step.now) (run_after old step.now) (run_wants old step.now) old result
            (run_in self.new) }
        ensures asks { self.new.asks ≡ self.old.asks }
    {
        match *step {
            RunStep::Derive(derive) => self.derive(derive),
            RunStep::Exchange(exchange) => self.exchange(exchange),
            RunStep::Invoke(invoke) => self.invoke(invoke),
            RunStep::Drop(place) => self.dropped(place),
            RunStep::Fill(granule, word) => self.filled(granule, word),
            RunStep::Object(register) => self.hand_out(register),
            RunStep::Widen(register, number) => self.widen(register, number),
            RunStep::FreeOwner(register) => self.free_owner(register),
            RunStep::FreeNumber(number) => self.free_by_number(number),
        }
    }

    // A granule gets a word without a tag.
    pub(crate) fn filled(&mut self, granule: u64, word: Word) -> Result<(), RunEnd>
        requires { granule < 2 ^ 60 }
        ensures outcome { let old = run_in self.old in
            let step = Fill granule word in
            Answers (run_end self.old.asks old step) (run_after old step) (run_wants old step) old result
            (run_in self.new) }
        ensures asks { self.new.asks ≡ self.old.asks }
    {
        match self.fill(granule, word) {
            Ok(()) => Ok(()),
            Err(end) => Err(usual_ended(end)),
        }
    }

    // The tag of a place goes.
    pub(crate) fn dropped(&mut self, place: RunPlace) -> Result<(), RunEnd>
        requires { IsRunPlace place }
        ensures outcome { let old = run_in self.old in
            let step = Drop place in
            Answers (run_end self.old.asks old step) (run_after old step) (run_wants old step) old result
            (run_in self.new) }
        ensures asks { self.new.asks ≡ self.old.asks }
    {
        match place {
            RunPlace::General(number) => self.drop_register(RunRegister::General(number)),
            RunPlace::Special(number) => self.drop_register(RunRegister::Special(number)),
            RunPlace::Granule(granule) => self.dropped_granule(granule),
        }
    }

    // The tag of a granule goes. A granule without a tag stays as it is, and isn't named by this.
    fn dropped_granule(&mut self, granule: u64) -> Result<(), RunEnd>
        requires { granule < 2 ^ 60 }
        ensures outcome { let old = run_in self.old in
            let step = Drop (Granule granule) in
            Answers (run_end self.old.asks old step) (run_after old step) (run_wants old step) old result
            (run_in self.new) }
        ensures asks { self.new.asks ≡ self.old.asks }
    {
        if let Some(refusal) = self.step_limit() {
            return Err(RunEnd::Refused(refusal));
        }
        let cap = self.granule_cap(granule);
        if !cap.tag {
            self.count_step();
            return Ok(());
        }
        match self.fill(granule, cap.word) {
            Ok(()) => Ok(()),
            Err(end) => Err(usual_ended(end)),
        }
    }
}
