//! Steps of runs on memory that no authority is needed for.

ghost use Rattle.std.specs.Prelude.{◌≡◌, ◌<◌, ◌-◌, ◌^◌, ℕ, None, IsTrue, true, false, MatchResult, OnOk, OnErr, IfErr};
ghost use Rattle.cap_machine.specs.{Changes.{EndsPut, is_past_limits}, Labels.untagged, Places.place_at, States.granule_key};
ghost use Rattle.cap_run.specs.{GranuleSteps.{Counts, Fills}, Owned.object_by, RunOf.{run_owners, run_state}};
ghost use Rattle.cap_run.specs.Machines.{slots_in};

use crate::run_machine::{RunMachine, slot_by};
use cap_log::Place;
use cap_machine::StepEnd;
use cap_objects::recount;
use cap_word::{Cap, Word};
use tagmem::TaggedStore;

impl<M: TaggedStore> RunMachine<M> {
    /// A granule gets a word without a tag: a kernel, a device or another hart wrote it. It is refused where there are
    /// 4,294,967,295 steps, or it names a granule past the limit (`LimitPassed`). `NoMemory` comes only at a granule
    /// named for the first time. After an error nothing has changed.
    pub(crate) fn fill(&mut self, granule: u64, word: Word) -> Result<(), StepEnd>
        requires { granule < 2 ^ 60 }
        ensures outcome { MatchResult result
            (λ _. (is_past_limits self.old.machine granule ≡ false)
            × Fills (slots_in self.old) granule (record { tag = false; word = word })
            (slots_in self.new))
            (λ end. EndsPut self.old.machine granule end self.new.machine) }
        ensures err { OnErr result ((self.new.specials ≡ self.old.specials) × (self.new.objects ≡ self.old.objects)) }
        ensures asks { self.new.asks ≡ self.old.asks }
    {
        let from = self.granule_owner(granule);
        let cap = Cap { tag: false, word };
        match self.machine.fill(granule, cap, 0) {
            Err(end) => Err(end),
            Ok(()) => {
                recount(&mut self.objects, from, None);
                Ok(())
            }
        }
    }

    /// The slot of the object that owns a granule, if there is one.
    pub(crate) fn granule_owner(&self, granule: u64) -> Option<usize>
        requires { granule < 2 ^ 60 }
        ensures owner { result ≡ run_owners self.now.machine self.now.specials (granule_key granule) }
    {
        slot_by(self.machine.label(Place::Granule(granule)))
    }

    // What a granule holds.
    pub(crate) fn granule_cap(&self, granule: u64) -> Cap
        requires { granule < 2 ^ 60 }
        ensures value { result ≡ run_state self.now.machine self.now.specials (granule_key granule) }
        ensures named { IsTrue result.tag → let run = slots_in self.now in run.is_named granule ≡ true }
        ensures unowned { result.tag ≡ false → run_owners self.now.machine self.now.specials (granule_key granule) ≡ None }
    {
        self.machine.kept();
        self.machine.granule(granule)
    }

    // A step that changes nothing is counted.
    pub(crate) fn count_step(&mut self)
        requires { self.old.machine.steps < 2 ^ 32 - 1 }
        ensures counts { Counts (slots_in self.old)
            (slots_in self.new) }
        ensures asks { self.new.asks ≡ self.old.asks }
    {
        self.machine.count_step();
    }
}
