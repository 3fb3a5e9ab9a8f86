//! Writing registers of a run, with their labels.

ghost use Rattle.std.specs.Prelude.{◌≡◌, ◌≢◌, ◌<◌, ◌≤◌, ◌-◌, ◌+◌, ◌^◌, ℕ, IsTrue, Some, true};
ghost use Rattle.cap_ops.specs.Authority.{StaysWithin};
ghost use Rattle.cap_machine.specs.{Helds.code_in, Parents.IsSoundCap, Places.{IsCoded, place_at}, States.put};
ghost use Rattle.cap_objects.specs.{Counts.{Moves, at_key}, Handed.{IsRecounted, held_of}, HandoutsIn.objects_of};
ghost use Rattle.cap_run_log.specs.RunLines.{IsRunRegister};
ghost use Rattle.cap_run.specs.{Owned.{object_by, owner_for}, Run.register_key};
ghost use Rattle.cap_run.specs.{RunOf.{run_owners, run_state}, RunSteps.{IsUnstepped, Writes, WritesBoth}};
ghost use Rattle.cap_run.specs.{Machines.slots_in, Specials.harts_in};

use crate::run_machine::{RunMachine, slot_by};
use crate::specials::Specials;
use cap_bounds::is_empty;
use cap_machine::Machine;
use cap_objects::{Handouts, recount, recount_both};
use cap_run_log::RunRegister;
use cap_word::Cap;
use tagmem::TaggedStore;

// Puts a capability with a label into a register.
#[inline(always)]
pub(crate) fn put_at<M: TaggedStore>(
    machine: &mut Machine<M>,
    specials: &mut Specials,
    target: RunRegister,
    cap: Cap,
    label: u64,
)
    requires target { IsRunRegister 1 target }
    requires sound { IsSoundCap cap }
    requires coded { IsCoded cap.tag label }
    ensures state { run_state machine.new specials.new ≡ put (run_state machine.old specials.old) (register_key target) cap }
    ensures owners { (other : ℕ) → run_owners machine.new specials.new other
        ≡ at_key (run_owners machine.old specials.old) (register_key target) (object_by (place_at label)) other }
    ensures rest { IsUnstepped machine.old machine.new }
    ensures harts { harts_in specials.new ≡ harts_in specials.old }
{
    match target {
        RunRegister::General(number) => machine.put_labelled(number, cap, label),
        RunRegister::Special(number) => specials.put(number, cap, label),
    }
}

// A place goes from one label to another.
#[inline(always)]
pub(crate) fn recount_labels(objects: &mut Handouts, from: u64, to: u64)
    requires from { (slot : ℕ) → object_by (place_at from) ≡ Some slot → 0 < held_of (objects_of objects.old slot) }
    requires to { (slot : ℕ) → object_by (place_at to) ≡ Some slot → 0 < held_of (objects_of objects.old slot) }
    requires few { (slot : ℕ) → held_of (objects_of objects.old slot) ≤ 2 ^ 61 }
    ensures moves { Moves (λ slot. held_of (objects_of objects.old slot)) (object_by (place_at from)) (object_by (place_at to))
        (λ slot. held_of (objects_of objects.new slot)) }
    ensures rest { IsRecounted (objects_of objects.old) (objects_of objects.new) }
    ensures same { (objects.new.count ≡ objects.old.count) × (objects.new.keeps ≡ objects.old.keeps) }
{
    if from != to {
        recount(objects, slot_by(from), slot_by(to));
    }
}

// The label of what is written, where its parent place has this one: what has no tag has none, and empty bounds have
// no owner.
#[inline(always)]
pub(crate) fn label_for(cap: Cap, label: u64) -> u64
    requires sound { IsSoundCap cap }
    requires coded { IsTrue cap.tag → IsCoded true label }
    ensures coded { IsCoded cap.tag result }
    ensures owner { object_by (place_at result) ≡ owner_for cap (object_by (place_at label)) }
{
    if !cap.tag {
        0
    } else if label >= 32 && is_empty(cap.word) {
        1
    } else {
        label
    }
}

impl<M: TaggedStore> RunMachine<M> {
    // Writes to a register what stays within another one, or has no tag, and counts a step.
    #[inline(always)]
    pub(crate) fn write(&mut self, target: RunRegister, source: RunRegister, cap: Cap)
        requires target { IsRunRegister 1 target }
        requires source { IsRunRegister 0 source }
        requires sound { IsSoundCap cap }
        requires source_sound { IsSoundCap (run_state self.old.machine self.old.specials (register_key source)) }
        requires within { IsTrue cap.tag → StaysWithin cap (run_state self.old.machine self.old.specials (register_key source)) }
        requires few { self.old.machine.steps < 2 ^ 32 - 1 }
        ensures writes { Writes (slots_in self.old) (register_key target) cap
            (owner_for cap (run_owners self.old.machine self.old.specials (register_key source)))
            (slots_in self.new) }
        ensures asks { self.new.asks ≡ self.old.asks }
    {
        let label = label_for(cap, self.label(source));
        let from = self.label(target);
        recount_labels(&mut self.objects, from, label);
        put_at(&mut self.machine, &mut self.specials, target, cap, label);
        self.machine.count_step();
    }
}

impl<M: TaggedStore> RunMachine<M> {
    // Writes to two registers what stays within two others, both as they were before, and counts a step.
    #[inline(always)]
    pub(crate) fn write_both(
        &mut self,
        first: RunRegister,
        first_source: RunRegister,
        first_cap: Cap,
        second: RunRegister,
        second_source: RunRegister,
        second_cap: Cap,
    )
        requires targets { IsRunRegister 1 first × IsRunRegister 1 second × (register_key first ≢ register_key second) }
        requires sources { IsRunRegister 0 first_source × IsRunRegister 0 second_source }
        requires sound { IsSoundCap first_cap × IsSoundCap second_cap }
        requires source_sound { IsSoundCap (run_state self.old.machine self.old.specials (register_key first_source))
            × IsSoundCap (run_state self.old.machine self.old.specials (register_key second_source)) }
        requires first_within { IsTrue first_cap.tag → StaysWithin first_cap (run_state self.old.machine self.old.specials (register_key first_source)) }
        requires second_within { IsTrue second_cap.tag → StaysWithin second_cap (run_state self.old.machine self.old.specials (register_key second_source)) }
        requires few { self.old.machine.steps < 2 ^ 32 - 1 }
        ensures writes { let owners = run_owners self.old.machine self.old.specials in
            WritesBoth (slots_in self.old)
            (register_key first) first_cap (owner_for first_cap (owners (register_key first_source)))
            (register_key second) second_cap (owner_for second_cap (owners (register_key second_source)))
            (slots_in self.new) }
        ensures asks { self.new.asks ≡ self.old.asks }
    {
        let first_label = label_for(first_cap, self.label(first_source));
        let second_label = label_for(second_cap, self.label(second_source));
        let first_from = self.owner(first);
        let second_from = self.owner(second);
        recount_both(
            &mut self.objects,
            first_from,
            slot_by(first_label),
            second_from,
            slot_by(second_label),
        );
        put_at(
            &mut self.machine,
            &mut self.specials,
            first,
            first_cap,
            first_label,
        );
        put_at(
            &mut self.machine,
            &mut self.specials,
            second,
            second_cap,
            second_label,
        );
        self.machine.count_step();
    }
}
