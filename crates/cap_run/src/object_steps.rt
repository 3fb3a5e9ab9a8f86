//! Steps of runs that hand out objects and free them.

ghost use Rattle.std.specs.Prelude.{◌≡◌, ◌≤◌, ◌<◌, ◌+◌, ◌-◌, ◌^◌, ℕ, None, Some, false, true, IsTrue, IsSome, IsSomeAnd, OnErr, OnOk, IfErr, IfOk, IfSome, MatchOption, min, max};
ghost use Rattle.cap_bounds.specs.Bounds.{base_of, top_of};
ghost use Rattle.cap_log.specs.Lines.{IsTarget};
ghost use Rattle.cap_objects.specs.Handed.{AddsObject, HasRoom, IsLive, RefusesExtent, handed_out, widened, with_held};
ghost use Rattle.cap_objects.specs.{Counts.at_key, Extents.Sets, HandoutsIn.objects_of, Objects.top_of_extent};
ghost use Rattle.cap_objects.specs.declared.objects.Object.{Object as ObjectIn};
ghost use Rattle.cap_run.specs.Specials.{harts_in};
ghost use Rattle.cap_run.specs.declared.ends.RunRefusal.TheVariants.{Usual};
ghost use Rattle.cap_ops.specs.declared.refusal.Refusal.TheVariants.{LimitPassed};
ghost use Rattle.cap_run_log.specs.declared.lines.RunStep.TheVariants as steps;
ghost use Rattle.cap_run.specs.ObjectSteps.{CanWiden, ExtentEnds, Frees, WidenEnds, Widens, ended, is_capability, object_refusal};
ghost use Rattle.cap_run.specs.{Owned.IsWithin, RunChanges.run_after, RunChecks.{Answers, run_end, run_wants}};
ghost use Rattle.cap_run.specs.{RunOf.{run_owners, run_state}, RunSteps.{IsUnstepped, step_limit}};
ghost use Rattle.cap_run.specs.{Machines.{run_in, slots_in}, Run.moment};

use crate::ends::{RunEnd, RunRefusal};
use crate::puts::put_at;
use crate::run_machine::RunMachine;
use cap_bounds::bounds;
use cap_machine::Refusal;
use cap_objects::{HandOutFault, NumberFault};
use cap_ops::sealed;
use cap_run_log::RunRegister;
use cap_word::Cap;
use tagmem::TaggedStore;

// How a step ends where an interval can't be an extent.
fn ended(fault: HandOutFault) -> RunEnd
    ensures { result ≡ ended fault }
{
    match fault {
        HandOutFault::Overlaps(_) => RunEnd::Refused(RunRefusal::Overlaps),
        HandOutFault::StillHeld(_) => RunEnd::Refused(RunRefusal::StillHeld),
        HandOutFault::NoMemory => RunEnd::NoMemory,
    }
}

// Whether a capability can be handed out: it is tagged and unsealed.
fn is_capability(cap: Cap) -> bool
    ensures { result ≡ is_capability cap }
{
    cap.tag && !sealed(cap.word)
}

impl<M: TaggedStore> RunMachine<M> {
    // An interval becomes the extent of a new object, which no place holds, and a step is counted.
    fn add_object(&mut self, base: u64, top: u128) -> Result<usize, HandOutFault>
        requires long { base ≤ top }
        requires in_memory { top ≤ 2 ^ 64 }
        requires few { self.old.machine.steps < 2 ^ 32 - 1 }
        ensures room { OnOk result (HasRoom self.old.objects.keeps None (objects_of self.old.objects) base top) }
        ensures ok { IfOk result (λ slot. AddsObject (objects_of self.old.objects) slot
            (handed_out (self.old.objects.count + 1) (moment (slots_in self.old)) base top) (objects_of self.new.objects)) }
        ensures low { IfOk result (λ slot. slot < 2 ^ 32) }
        ensures count { OnOk result (self.new.objects.count ≡ self.old.objects.count + 1) }
        ensures held { OnOk result (self.new.machine ≡ record self.old.machine { steps = self.old.machine.steps + 1 }) }
        ensures specials { self.new.specials ≡ self.old.specials }
        ensures fault { IfErr result (RefusesExtent self.old.objects.keeps None (objects_of self.old.objects) base top) }
        ensures err { OnErr result ((slot : ℕ) → objects_of self.new.objects slot ≡ objects_of self.old.objects slot) }
        ensures err_rest { OnErr result ((self.new.machine ≡ self.old.machine) × (self.new.objects.count ≡ self.old.objects.count)) }
        ensures keeps { self.new.objects.keeps ≡ self.old.objects.keeps }
        ensures asks { self.new.asks ≡ self.old.asks }
    {
        let moment = self.moment();
        match self.objects.hand_out(base, top, moment) {
            Ok(slot) => {
                self.machine.count_step();
                Ok(slot)
            }
            Err(fault) => Err(fault),
        }
    }

    // The extent of a live object becomes the least that holds it and an interval, and a step is counted.
    fn widen_object(&mut self, slot: usize, base: u64, top: u128) -> Result<(), HandOutFault>
        requires live { IsSomeAnd (objects_of self.old.objects slot) (λ object. object.freed ≡ false) }
        requires long { base ≤ top }
        requires in_memory { top ≤ 2 ^ 64 }
        requires few { self.old.machine.steps < 2 ^ 32 - 1 }
        ensures ok { OnOk result ((object : ObjectIn) → objects_of self.old.objects slot ≡ Some object
            → Sets (objects_of self.old.objects) slot (Some (widened object base top)) (objects_of self.new.objects)) }
        ensures room { OnOk result ((object : ObjectIn) → objects_of self.old.objects slot ≡ Some object
            → HasRoom self.old.objects.keeps (Some slot) (objects_of self.old.objects) (min object.base base) (max (top_of_extent object) top)) }
        ensures held { OnOk result (self.new.machine ≡ record self.old.machine { steps = self.old.machine.steps + 1 }) }
        ensures specials { self.new.specials ≡ self.old.specials }
        ensures fault { IfErr result (λ fault. (object : ObjectIn) → objects_of self.old.objects slot ≡ Some object
            → RefusesExtent self.old.objects.keeps (Some slot) (objects_of self.old.objects) (min object.base base) (max (top_of_extent object) top) fault) }
        ensures err { OnErr result ((other : ℕ) → objects_of self.new.objects other ≡ objects_of self.old.objects other) }
        ensures err_rest { OnErr result (self.new.machine ≡ self.old.machine) }
        ensures same { (self.new.objects.count ≡ self.old.objects.count) × (self.new.objects.keeps ≡ self.old.objects.keeps) }
        ensures asks { self.new.asks ≡ self.old.asks }
    {
        match self.objects.widen(slot, base, top) {
            Ok(()) => {
                self.machine.count_step();
                Ok(())
            }
            Err(fault) => Err(fault),
        }
    }

    // An object becomes the owner of a register that has none.
    fn give(&mut self, register: u8, slot: usize)
        requires register { IsTarget register }
        requires low { slot < 2 ^ 32 }
        requires within { IsSomeAnd (objects_of self.old.objects slot) (IsWithin (run_state self.old.machine self.old.specials register)) }
        requires unowned { run_owners self.old.machine self.old.specials register ≡ None }
        ensures objects { (object : ObjectIn) → objects_of self.old.objects slot ≡ Some object
            → Sets (objects_of self.old.objects) slot (Some (with_held object (object.held + 1))) (objects_of self.new.objects) }
        ensures state { run_state self.new.machine self.new.specials ≡ run_state self.old.machine self.old.specials }
        ensures owners { (other : ℕ) → run_owners self.new.machine self.new.specials other
            ≡ at_key (run_owners self.old.machine self.old.specials) register (Some slot) other }
        ensures rest { IsUnstepped self.old.machine self.new.machine }
        ensures harts { harts_in self.new.specials ≡ harts_in self.old.specials }
        ensures same { (self.new.objects.count ≡ self.old.objects.count) × (self.new.objects.keeps ≡ self.old.objects.keeps) }
        ensures asks { self.new.asks ≡ self.old.asks }
    {
        let cap = self.machine.register(register);
        self.objects.count_up(slot);
        put_at(
            &mut self.machine,
            &mut self.specials,
            RunRegister::General(register),
            cap,
            slot as u64 + 32,
        );
    }

    // Why a register can't be an object's.
    fn object_refusal(&self, register: u8) -> Option<RunRefusal>
        requires { IsTarget register }
        ensures { result ≡ object_refusal (slots_in self.now) register }
    {
        let register = RunRegister::General(register);
        if !is_capability(self.register(register)) {
            Some(RunRefusal::NoCapability)
        } else if self.owner(register).is_some() {
            Some(RunRefusal::HasOwner)
        } else {
            None
        }
    }

    // How a step ends past the limit on steps, where an interval may not be an extent: that comes first.
    #[cold]
    fn late_end(&self, base: u64, top: u128, left_out: Option<usize>, refusal: Refusal) -> RunEnd
        requires in_memory { top ≤ 2 ^ 64 }
        requires late { step_limit (slots_in self.now) ≡ Some (Usual refusal) }
        ensures { ExtentEnds (slots_in self.now) self.now.objects.keeps left_out base top result }
    {
        match self.objects.extent_fault(base, top, left_out) {
            Some(fault) => ended(fault),
            None => RunEnd::Refused(RunRefusal::Usual(refusal)),
        }
    }

    /// `object cN`: what a register holds is a new object's. It is refused for the first of these: the register has no tag,
    /// or is sealed (`NoCapability`); it has an owner (`HasOwner`); its bounds share an address with the extent of a live
    /// object (`Overlaps`), or with that of a freed object that is held, if those are compared (`StillHeld`); there are
    /// 4,294,967,295 steps (`LimitPassed`). After an error nothing has changed.
    pub(crate) fn hand_out(&mut self, register: u8) -> Result<(), RunEnd>
        requires { IsTarget register }
        ensures outcome { let old = run_in self.old in
            let step = steps.Object register in
            Answers (run_end self.old.asks old step) (run_after old step) (run_wants old step) old result
            (run_in self.new) }
        ensures asks { self.new.asks ≡ self.old.asks }
    {
        if let Some(refusal) = self.object_refusal(register) {
            return Err(RunEnd::Refused(refusal));
        }
        let bounds = bounds(self.register(RunRegister::General(register)).word);
        if self.step_limit().is_some() {
            return Err(self.late_end(bounds.base, bounds.top, None, Refusal::LimitPassed));
        }
        match self.add_object(bounds.base, bounds.top) {
            Err(fault) => Err(ended(fault)),
            Ok(slot) => {
                if u128::from(bounds.base) < bounds.top {
                    self.give(register, slot);
                }
                Ok(())
            }
        }
    }

    /// `object cN K`: what a register holds is the live object's with this number as well, as realloc in place: its
    /// extent becomes the least interval that holds it and the bounds. It is refused for the first of these:
    /// `NoCapability` and `HasOwner` as for `object`; no object with the number was handed out (`NoObject`); it was
    /// freed (`AlreadyFreed`); that interval shares an address with the extent of another live object (`Overlaps`), or
    /// with that of a freed object that is held, if those are compared (`StillHeld`); there are 4,294,967,295 steps
    /// (`LimitPassed`). After an error nothing has changed.
    pub(crate) fn widen(&mut self, register: u8, number: u32) -> Result<(), RunEnd>
        requires { IsTarget register }
        ensures outcome { let old = run_in self.old in
            let step = steps.Widen register number in
            Answers (run_end self.old.asks old step) (run_after old step) (run_wants old step) old result
            (run_in self.new) }
        ensures asks { self.new.asks ≡ self.old.asks }
    {
        if let Some(refusal) = self.object_refusal(register) {
            return Err(RunEnd::Refused(refusal));
        }
        match self.objects.live(number) {
            Err(NumberFault::NoObject) => Err(RunEnd::Refused(RunRefusal::NoObject)),
            Err(NumberFault::AlreadyFreed) => Err(RunEnd::Refused(RunRefusal::AlreadyFreed)),
            Ok(slot) => self.widen_for(register, slot),
        }
    }

    // The live object in a slot becomes the owner of a register as well, and its extent holds the bounds.
    fn widen_for(&mut self, register: u8, slot: usize) -> Result<(), RunEnd>
        requires register { IsTarget register }
        requires low { slot < 2 ^ 32 }
        requires live { IsSomeAnd (objects_of self.old.objects slot) (λ object. object.freed ≡ false) }
        requires can { object_refusal (slots_in self.old) register ≡ None }
        ensures ok { OnOk result (Widens (slots_in self.old) register slot
            (slots_in self.new)) }
        ensures few { OnOk result (step_limit (slots_in self.old) ≡ None) }
        ensures room { OnOk result (CanWiden (slots_in self.old) self.old.objects.keeps register slot) }
        ensures end { IfErr result (WidenEnds (slots_in self.old) self.old.objects.keeps register slot) }
        ensures err { OnErr result (slots_in self.new
            ≡ slots_in self.old) }
        ensures asks { self.new.asks ≡ self.old.asks }
    {
        let bounds = bounds(self.register(RunRegister::General(register)).word);
        if self.step_limit().is_some() {
            return Err(self.late_widening(slot, bounds.base, bounds.top));
        }
        match self.widen_object(slot, bounds.base, bounds.top) {
            Err(fault) => Err(ended(fault)),
            Ok(()) => {
                if bounds.top > u128::from(bounds.base) {
                    self.give(register, slot);
                }
                Ok(())
            }
        }
    }

    // How widening ends past the limit on steps.
    #[cold]
    fn late_widening(&self, slot: usize, base: u64, top: u128) -> RunEnd
        requires there { IsSome (objects_of self.now.objects slot) }
        requires in_memory { top ≤ 2 ^ 64 }
        requires late { step_limit (slots_in self.now) ≡ Some (Usual LimitPassed) }
        ensures { (object : ObjectIn) → objects_of self.now.objects slot ≡ Some object
            → ExtentEnds (slots_in self.now) self.now.objects.keeps (Some slot)
            (min object.base base) (max (top_of_extent object) top) result }
    {
        let object = self.objects.object(slot);
        let low = object.base.min(base);
        let high = object.top().max(top);
        self.late_end(low, high, Some(slot), Refusal::LimitPassed)
    }

    // The live object in a slot is freed, and a step is counted.
    fn free_slot(&mut self, slot: usize)
        requires live { IsSomeAnd (objects_of self.old.objects slot) (λ object. object.freed ≡ false) }
        requires few { self.old.machine.steps < 2 ^ 32 - 1 }
        ensures frees { Frees (slots_in self.old) slot
            (slots_in self.new) }
        ensures asks { self.new.asks ≡ self.old.asks }
    {
        let moment = self.moment();
        self.objects.free(slot, moment);
        self.machine.count_step();
    }

    /// `free K`: the object with a number is freed. It is refused for the first of these: none was handed out (`NoObject`); it was
    /// freed (`AlreadyFreed`); there are 4,294,967,295 steps (`LimitPassed`). Then nothing has changed. It takes no
    /// memory.
    pub(crate) fn free_by_number(&mut self, number: u32) -> Result<(), RunEnd>
        ensures outcome { let old = run_in self.old in
            let step = steps.FreeNumber number in
            Answers (run_end self.old.asks old step) (run_after old step) (run_wants old step) old result
            (run_in self.new) }
        ensures asks { self.new.asks ≡ self.old.asks }
    {
        match self.objects.live(number) {
            Err(NumberFault::NoObject) => Err(RunEnd::Refused(RunRefusal::NoObject)),
            Err(NumberFault::AlreadyFreed) => Err(RunEnd::Refused(RunRefusal::AlreadyFreed)),
            Ok(slot) => {
                if self.step_limit().is_some() {
                    return Err(RunEnd::Refused(RunRefusal::Usual(Refusal::LimitPassed)));
                }
                self.free_slot(slot);
                Ok(())
            }
        }
    }

    /// `free cN`: the object that owns a register is freed. It is refused for the first of these: the register has no tag
    /// (`NoCapability`); it has no owner (`NoOwner`); the owner was freed (`AlreadyFreed`); there are 4,294,967,295 steps
    /// (`LimitPassed`). Then nothing has changed. A sealed capability frees, too. It takes no memory.
    pub(crate) fn free_owner(&mut self, register: u8) -> Result<(), RunEnd>
        requires { IsTarget register }
        ensures outcome { let old = run_in self.old in
            let step = steps.FreeOwner register in
            Answers (run_end self.old.asks old step) (run_after old step) (run_wants old step) old result
            (run_in self.new) }
        ensures asks { self.new.asks ≡ self.old.asks }
    {
        let place = RunRegister::General(register);
        if !self.register(place).tag {
            return Err(RunEnd::Refused(RunRefusal::NoCapability));
        }
        match self.owner(place) {
            None => Err(RunEnd::Refused(RunRefusal::NoOwner)),
            Some(slot) => {
                let freed = self.objects.object(slot).freed;
                if freed {
                    return Err(RunEnd::Refused(RunRefusal::AlreadyFreed));
                }
                if self.step_limit().is_some() {
                    return Err(RunEnd::Refused(RunRefusal::Usual(Refusal::LimitPassed)));
                }
                self.free_slot(slot);
                Ok(())
            }
        }
    }
}
