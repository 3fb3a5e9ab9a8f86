//! What places hold, which objects own them, and the present objects by their numbers.

ghost use Rattle.std.specs.Prelude.{◌≡◌, ◌≤◌, ◌<◌, ◌^◌, ℕ, None, Some, IfNone, IfSome};
ghost use Rattle.cap_machine.specs.States.{granule_key};
ghost use Rattle.cap_run_log.specs.RunLines.{IsRunPlace, IsRunRegister};
ghost use Rattle.cap_run.specs.{Run.register_key, RunChanges.place_key, RunOf.run_owners};
ghost use Rattle.cap_run.specs.Machines.{run_in};

use crate::run_machine::RunMachine;
use cap_objects::Object;
use cap_run_log::{RunPlace, RunRegister};
use cap_word::Cap;
use tagmem::TaggedStore;

impl<M: TaggedStore> RunMachine<M> {
    /// What a place holds.
    pub fn holds(&self, place: RunPlace) -> Cap
        requires { IsRunPlace place }
        ensures value { result ≡ (let run = run_in self.now in run.state (place_key place)) }
    {
        match place {
            RunPlace::General(number) => self.register(RunRegister::General(number)),
            RunPlace::Special(number) => self.register(RunRegister::Special(number)),
            RunPlace::Granule(granule) => self.granule_cap(granule),
        }
    }

    /// The number of the object that owns a place, if there is one.
    pub fn owner_number(&self, place: RunPlace) -> Option<u32>
        requires { IsRunPlace place }
        ensures value { result ≡ (let run = run_in self.now in run.owners (place_key place)) }
    {
        match self.owner_at(place) {
            Some(slot) => Some(self.objects.object(slot).number),
            None => None,
        }
    }

    /// The number of the object that owns a register, if there is one: c0 has none.
    pub fn register_owner(&self, register: RunRegister) -> Option<u32>
        requires { IsRunRegister 0 register }
        ensures value { result ≡ (let run = run_in self.now in run.owners (register_key register)) }
    {
        match self.owner(register) {
            Some(slot) => Some(self.objects.object(slot).number),
            None => None,
        }
    }

    // The slot of the object that owns a place, if there is one.
    pub(crate) fn owner_at(&self, place: RunPlace) -> Option<usize>
        requires { IsRunPlace place }
        ensures value { result ≡ run_owners self.now.machine self.now.specials (place_key place) }
    {
        match place {
            RunPlace::General(number) => self.owner(RunRegister::General(number)),
            RunPlace::Special(number) => self.owner(RunRegister::Special(number)),
            RunPlace::Granule(granule) => self.granule_owner(granule),
        }
    }

    /// The present object with a number, if there is one.
    pub fn object_numbered(&self, number: u32) -> Option<Object>
        ensures value { result ≡ (let run = run_in self.now in run.objects number) }
    {
        match self.objects.next_number(number) {
            None => None,
            Some((found, slot)) => {
                if found != number {
                    return None;
                }
                Some(self.objects.object(slot))
            }
        }
    }

    /// The present object of least number from a number on.
    pub fn next_object(&self, from: u32) -> Option<Object>
        ensures some { IfSome result (λ object. let run = run_in self.now in
            (run.objects object.number ≡ Some object) × (from ≤ object.number)
            × ((number : ℕ) → from ≤ number → number < object.number → run.objects number ≡ None)) }
        ensures none { IfNone result (let run = run_in self.now in
            (number : ℕ) → from ≤ number → run.objects number ≡ None) }
    {
        match self.objects.next_number(from) {
            None => None,
            Some((_, slot)) => Some(self.objects.object(slot)),
        }
    }

    /// The least granule from a number on that was named: no object owns one before it.
    pub fn next_granule(&self, from: u64) -> Option<u64>
        ensures some { IfSome result (λ granule. let run = run_in self.now in
            (from ≤ granule) × (granule < 2 ^ 60)
            × ((other : ℕ) → from ≤ other → other < granule → run.owners (granule_key other) ≡ None)) }
        ensures none { IfNone result (let run = run_in self.now in
            (other : ℕ) → from ≤ other → other < 2 ^ 60 → run.owners (granule_key other) ≡ None) }
    {
        self.machine.next_put(from)
    }
}
