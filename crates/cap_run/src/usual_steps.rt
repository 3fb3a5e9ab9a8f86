//! The steps of version 2 in a run.

ghost use Rattle.std.specs.Prelude.{◌≡◌, ℕ, Some, false, IfNone, IfSome, MatchResult, OnErr};
ghost use Rattle.cap_run.specs.{RunChanges.usual_after, RunChecks.{Answers, usual_end, usual_wants}};
ghost use Rattle.cap_log.specs.Lines.{IsPlace, IsStepInRange};
ghost use Rattle.cap_machine.specs.{Helds.{EndsStep, state_of}, Places.place_at, Steps.written_by};
ghost use Rattle.cap_objects.specs.HandoutsIn.{objects_of};
ghost use Rattle.cap_run.specs.{Owned.object_by, RunSteps.IsUnstepped, UsualSteps.{MakesUsual, disowned, main_owners, owner_at}};
ghost use Rattle.cap_run.specs.Machines.{run_in};

use crate::ends::{RunEnd, RunRefusal};
use crate::lines::usual_ended;
use crate::puts::recount_labels;
use crate::run_machine::RunMachine;
use cap_bounds::is_empty;
use cap_log::{Place, Step};
use cap_machine::{Instruction, Machine, Making, OfKind, StepEnd, WithStep, by_step};
use tagmem::TaggedStore;

// The label of a place: 0 for none.
#[inline(always)]
fn label_at<M: TaggedStore>(machine: &Machine<M>, place: Option<Place>) -> u64
    requires { IfSome place IsPlace }
    ensures { object_by (place_at result) ≡ owner_at (main_owners machine.now) place }
{
    match place {
        Some(place) => machine.label(place),
        None => 0,
    }
}

// A register that was written has no owner if its bounds are empty.
#[inline(always)]
fn disown<M: TaggedStore>(machine: &mut Machine<M>, written: Option<Place>)
    requires { IfSome written IsPlace }
    ensures state { state_of machine.new ≡ state_of machine.old }
    ensures owners { (key : ℕ) → main_owners machine.new key ≡ disowned written (state_of machine.old) (main_owners machine.old) key }
    ensures rest { IsUnstepped machine.old machine.new }
{
    if let Some(Place::Register(number)) = written {
        let cap = machine.register(number);
        if machine.label(Place::Register(number)) >= 32 && is_empty(cap.word) {
            machine.put_labelled(number, cap, 1);
        }
    }
}

impl<M: TaggedStore> RunMachine<M> {
    /// Makes a step of version 2 and counts it. It is refused for the first of these: a check of its operation or access
    /// fails, where in clear mode those of operations on registers don't refuse it; if that is asked, a freed object owns
    /// the authority of its access (`OwnerFreed`), or none does and it touches a byte of a live object (`NotOwned`); the
    /// line records another result than the machine's (`WrongResult`); there are 4,294,967,295 steps, or it names a granule
    /// past the limit (`LimitPassed`). `NoMemory` comes only at a granule named for the first time. After an error nothing
    /// has changed.
    pub fn make_usual(&mut self, step: &Step) -> Result<(), RunEnd>
        requires { IsStepInRange step.now }
        ensures outcome { let old = run_in self.old in
            Answers (usual_end self.old.asks old step.now) (usual_after old step.now) (usual_wants old step.now) old result
            (run_in self.new) }
        ensures asks { self.new.asks ≡ self.old.asks }
    {
        by_step::<RunMachine<M>, Made>(self, step)
    }

    /// Makes a step of one kind, as [`RunMachine::make_usual`] does. Where no object was handed out, it takes no longer than in
    /// the machine without objects.
    #[inline(always)]
    pub fn make_instruction<I: Instruction>(&mut self, kind: I) -> Result<(), RunEnd>
        ensures outcome { let old = run_in self.old in
            Answers (usual_end self.old.asks old (I.step kind)) (usual_after old (I.step kind)) (usual_wants old (I.step kind)) old result
            (run_in self.new) }
        ensures asks { self.new.asks ≡ self.old.asks }
        ensures range { IsStepInRange (I.step kind) }
    {
        kind.in_range();
        if self.objects.count() == 0 {
            return self.make_alone(kind);
        }
        self.make_among(OfKind(kind))
    }

    // Makes a step where no object was handed out: what is asked then refuses none.
    #[inline(always)]
    fn make_alone<I: Instruction>(&mut self, kind: I) -> Result<(), RunEnd>
        requires none { self.old.objects.count ≡ 0 }
        requires range { IsStepInRange (I.step kind) }
        ensures outcome { let old = run_in self.old in
            Answers (usual_end self.old.asks old (I.step kind)) (usual_after old (I.step kind)) (usual_wants old (I.step kind)) old result
            (run_in self.new) }
        ensures asks { self.new.asks ≡ self.old.asks }
    {
        self.machine.kept();
        match kind.perform(&mut self.machine) {
            Ok(()) => Ok(()),
            Err(end) => Err(usual_ended(end)),
        }
    }

    // Makes a step where objects were handed out.
    #[inline(always)]
    pub(crate) fn make_among<P: Making>(&mut self, making: P) -> Result<(), RunEnd>
        requires ready { P.ready self.old.machine making }
        ensures outcome { let old = run_in self.old in
            Answers (usual_end self.old.asks old (P.step making)) (usual_after old (P.step making)) (usual_wants old (P.step making)) old result
            (run_in self.new) }
        ensures asks { self.new.asks ≡ self.old.asks }
    {
        let step = making.to_step();
        match self.asked_if(&step) {
            Some(refusal) => Err(RunEnd::Refused(refusal)),
            None => self.make_unasked(making),
        }
    }

    // Why what is asked refuses a step that its own checks permit: nothing, where nothing is asked.
    #[inline(always)]
    fn asked_if(&self, step: &Step) -> Option<RunRefusal>
        requires { IsStepInRange step.now }
        ensures some { IfSome result (λ refusal.
            usual_end self.now.asks (run_in self.now) step.now ≡ Some refusal) }
        ensures none { IfNone result (let run = run_in self.now in
            usual_end self.now.asks run step.now ≡ usual_end (record self.now.asks { used = false; owned = false }) run step.now) }
    {
        if !self.asks.used && !self.asks.owned {
            return None;
        }
        self.asked_refusal(step)
    }

    // Makes a step where nothing is asked of its access.
    #[inline(always)]
    fn make_unasked<P: Making>(&mut self, making: P) -> Result<(), RunEnd>
        requires ready { P.ready self.old.machine making }
        requires range { IsStepInRange (P.step making) }
        ensures outcome { let old = run_in self.old in
            Answers (usual_end (record self.old.asks { used = false; owned = false }) old (P.step making)) (usual_after old (P.step making))
            (usual_wants old (P.step making)) old result (run_in self.new) }
        ensures asks { self.new.asks ≡ self.old.asks }
    {
        self.machine.kept();
        match self.make_with_owners(making) {
            Ok(()) => Ok(()),
            Err(end) => Err(usual_ended(end)),
        }
    }

    // Makes a step as the machine without objects does, with the owners that places then have.
    #[inline(always)]
    fn make_with_owners<P: Making>(&mut self, making: P) -> Result<(), StepEnd>
        requires ready { P.ready self.old.machine making }
        requires range { IsStepInRange (P.step making) }
        ensures outcome { MatchResult result
            (λ _. MakesUsual self.old.machine (objects_of self.old.objects) (P.step making) self.new.machine (objects_of self.new.objects))
            (λ end. EndsStep self.old.machine (P.step making) end self.new.machine) }
        ensures specials { self.new.specials ≡ self.old.specials }
        ensures err { OnErr result (self.new.objects ≡ self.old.objects) }
        ensures count { self.new.objects.count ≡ self.old.objects.count }
        ensures asks { self.new.asks ≡ self.old.asks }
    {
        self.machine.kept();
        let written = making.target(&self.machine);
        let from = label_at(&self.machine, written);
        if let Err(end) = making.make(&mut self.machine) {
            return Err(end);
        }
        self.machine.kept();
        disown(&mut self.machine, written);
        let to = label_at(&self.machine, written);
        recount_labels(&mut self.objects, from, to);
        Ok(())
    }
}

// A step is made.
pub(crate) struct Made;

impl<M: TaggedStore> WithStep<RunMachine<M>> for Made {
    type Answer = Result<(), RunEnd>;

    ghost does = { λ old step result new. let run = run_in old in
        Answers (usual_end old.asks run step) (usual_after run step) (usual_wants run step) run result (run_in new) × (new.asks ≡ old.asks) };

    fn with_kind<I: Instruction>(run: &mut RunMachine<M>, kind: I) -> Result<(), RunEnd> {
        run.make_instruction(kind)
    }
}
