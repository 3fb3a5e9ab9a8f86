//! Writing registers of a run where no object was handed out, so that no place has an owner.

ghost use Rattle.std.specs.Prelude.{◌≡◌, ◌≢◌, ◌<◌, ◌-◌, ◌^◌, None};
ghost use Rattle.cap_machine.specs.{Parents.IsSoundCap, Places.{IsCoded, place_at}};
ghost use Rattle.cap_run_log.specs.RunLines.{IsRunRegister};
ghost use Rattle.cap_run.specs.{Owned.{object_by, owner_for}, Run.register_key};
ghost use Rattle.cap_run.specs.{RunOf.{run_owners}, RunSteps.{Writes, WritesBoth}};
ghost use Rattle.cap_run.specs.Machines.{slots_in};

use crate::puts::put_at;
use crate::run_machine::RunMachine;
use cap_run_log::RunRegister;
use cap_word::Cap;
use tagmem::TaggedStore;

// The label of what no object owns.
#[inline(always)]
fn unowned_label(cap: Cap) -> u64
    ensures coded { IsCoded cap.tag result }
    ensures owner { object_by (place_at result) ≡ None }
{
    if cap.tag { 1 } else { 0 }
}

impl<M: TaggedStore> RunMachine<M> {
    // Writes to a register and counts a step, as `write` does.
    #[inline(always)]
    pub(crate) fn write_alone(&mut self, target: RunRegister, _source: RunRegister, cap: Cap)
        requires alone { self.old.objects.count ≡ 0 }
        requires target { IsRunRegister 1 target }
        requires source { IsRunRegister 0 _source }
        requires sound { IsSoundCap cap }
        requires few { self.old.machine.steps < 2 ^ 32 - 1 }
        ensures writes { Writes (slots_in self.old) (register_key target) cap
            (owner_for cap (run_owners self.old.machine self.old.specials (register_key _source)))
            (slots_in self.new) }
        ensures asks { self.new.asks ≡ self.old.asks }
    {
        put_at(
            &mut self.machine,
            &mut self.specials,
            target,
            cap,
            unowned_label(cap),
        );
        self.machine.count_step();
    }

    // Writes to two registers and counts a step, as `write_both` does.
    #[inline(always)]
    pub(crate) fn write_both_alone(
        &mut self,
        first: RunRegister,
        _first_source: RunRegister,
        first_cap: Cap,
        second: RunRegister,
        _second_source: RunRegister,
        second_cap: Cap,
    )
        requires alone { self.old.objects.count ≡ 0 }
        requires targets { IsRunRegister 1 first × IsRunRegister 1 second × (register_key first ≢ register_key second) }
        requires sources { IsRunRegister 0 _first_source × IsRunRegister 0 _second_source }
        requires sound { IsSoundCap first_cap × IsSoundCap second_cap }
        requires few { self.old.machine.steps < 2 ^ 32 - 1 }
        ensures writes { let owners = run_owners self.old.machine self.old.specials in
            WritesBoth (slots_in self.old)
            (register_key first) first_cap (owner_for first_cap (owners (register_key _first_source)))
            (register_key second) second_cap (owner_for second_cap (owners (register_key _second_source)))
            (slots_in self.new) }
        ensures asks { self.new.asks ≡ self.old.asks }
    {
        put_at(
            &mut self.machine,
            &mut self.specials,
            first,
            first_cap,
            unowned_label(first_cap),
        );
        put_at(
            &mut self.machine,
            &mut self.specials,
            second,
            second_cap,
            unowned_label(second_cap),
        );
        self.machine.count_step();
    }
}
