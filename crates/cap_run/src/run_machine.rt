//! A machine of runs: what it holds.

ghost use Rattle.std.specs.Prelude.{◌≡◌, ◌≤◌, ◌<◌, ◌^◌, ℕ, None, IfSome};
ghost use Rattle.std.specs.FinMap as map;
ghost use Rattle.cap_machine.specs.{Parents.IsSoundCap, Places.{IsCoded, place_at}};
ghost use Rattle.cap_objects.specs.{Counts.CountsAre, Handed.held_of, HandoutsIn.objects_of};
ghost use Rattle.cap_run_log.specs.RunLines.{IsRunRegister};
ghost use Rattle.cap_run.specs.{Owned.{AreWithin, object_by}, Run.register_key, RunOf.{run_owners, run_state}};
ghost use Rattle.cap_machine.specs.Helds.{account_of};
ghost use Rattle.cap_run.specs.{Numbers.numbered_run, RunChanges.{account_in, no_run, without_origins}, Safety.IsSafe};

use crate::asks::Asks;
use crate::specials::Specials;
use cap_log::Place;
use cap_machine::{Limits, Machine, Rules};
use cap_objects::Handouts;
use cap_run_log::RunRegister;
use cap_word::Cap;
use std::alloc::Global;
use tagmem::TaggedStore;

// As many roots, and as many distinct granules, as 32 bits can count.
const LIMITS: Limits = Limits {
    roots: u32::MAX,
    granules: u32::MAX,
};

/// A machine, special registers beside it, and the objects that own what its places hold.
#[derive(Drop)]
pub struct RunMachine<M: TaggedStore> {
    pub(crate) machine: Machine<M>,
    pub(crate) specials: Specials,
    pub(crate) objects: Handouts,
    pub(crate) asks: Asks,
    ghost counted: { CountsAre (run_owners machine specials) (λ slot. held_of (objects_of objects slot)) },
    ghost within: { AreWithin (run_state machine specials) (run_owners machine specials) (objects_of objects) },
    ghost few: { objects.count ≤ machine.steps },
    ghost asked: { objects.keeps ≡ asks.held },
}

impl<M: TaggedStore> RunMachine<M> {
    /// A machine that holds NULL without a tag everywhere, over an empty store, and no objects, by strict rules.
    pub fn new(alloc: Global, memory: M, asks: Asks) -> RunMachine<M>
        requires { map.len (M.contents memory) ≡ 0 }
        ensures run { numbered_run result.machine result.specials result.objects ≡ no_run }
        ensures asks { result.asks ≡ asks }
    {
        RunMachine {
            machine: Machine::with_limits(memory, Rules::TwoStrict, LIMITS),
            specials: Specials::new(alloc),
            objects: Handouts::new(alloc, asks.held),
            asks,
        }
    }

    /// What is true at each moment: no address lies in the extents of two present objects, nor in what two capabilities of
    /// two of them reach. If [`Asks::held`] is false, that holds of live objects alone. It does nothing: what it says is its
    /// contract.
    pub fn kept(&self)
        ensures safe { IsSafe self.now.asks.held (numbered_run self.now.machine self.now.specials self.now.objects) }
    {
        self.objects.kept();
    }

    /// The registers and the memory, as steps of version 2 see them: without special registers and objects.
    pub fn machine(&self) -> &Machine<M>
        ensures account { account_in (numbered_run self.now.machine self.now.specials self.now.objects) ≡ without_origins (account_of result.now) }
    {
        self.machine.kept();
        &self.machine
    }

    /// From now on it follows these rules. All else is as before.
    pub fn follow(&mut self, rules: Rules)
        ensures run { numbered_run self.new.machine self.new.specials self.new.objects
            ≡ record (numbered_run self.old.machine self.old.specials self.old.objects) { rules = rules } }
        ensures asks { self.new.asks ≡ self.old.asks }
    {
        self.machine.follow(rules);
    }

    /// How many steps were made.
    pub fn steps(&self) -> u32
        ensures value { result ≡ (let run = numbered_run self.now.machine self.now.specials self.now.objects in run.steps) }
    {
        self.machine.steps()
    }

    /// How many roots were declared.
    pub fn roots(&self) -> u32
        ensures value { result ≡ (let run = numbered_run self.now.machine self.now.specials self.now.objects in run.roots) }
    {
        self.machine.roots()
    }

    /// How many objects were handed out.
    pub fn count(&self) -> u32
        ensures value { result ≡ (let run = numbered_run self.now.machine self.now.specials self.now.objects in run.count) }
    {
        self.objects.count()
    }

    /// What is asked of freed objects, and of authorities that no object owns.
    pub fn asks(&self) -> Asks
        ensures value { result ≡ self.now.asks }
    {
        self.asks
    }

    /// What a register holds.
    #[inline(always)]
    pub fn register(&self, register: RunRegister) -> Cap
        requires { IsRunRegister 0 register }
        ensures value { result ≡ run_state self.now.machine self.now.specials (register_key register) }
        ensures sound { IsSoundCap result }
    {
        match register {
            RunRegister::General(number) => self.machine.register(number),
            RunRegister::Special(number) => self.specials.cap(number),
        }
    }

    // The label of what a register holds: c0 has none.
    #[inline(always)]
    pub(crate) fn label(&self, register: RunRegister) -> u64
        requires { IsRunRegister 0 register }
        ensures owner { object_by (place_at result) ≡ run_owners self.now.machine self.now.specials (register_key register) }
        ensures coded { let cap = run_state self.now.machine self.now.specials (register_key register) in IsCoded cap.tag result }
    {
        match register {
            RunRegister::General(0) => {
                self.machine.kept();
                0
            }
            RunRegister::General(number) => self.machine.label(Place::Register(number)),
            RunRegister::Special(number) => self.specials.label(number),
        }
    }

    /// The slot of the object that owns a register, if there is one.
    #[inline(always)]
    pub(crate) fn owner(&self, register: RunRegister) -> Option<usize>
        requires { IsRunRegister 0 register }
        ensures owner { result ≡ run_owners self.now.machine self.now.specials (register_key register) }
    {
        slot_by(self.label(register))
    }
}

// The slot of the object that a label stands for.
#[inline(always)]
pub(crate) fn slot_by(label: u64) -> Option<usize>
    ensures value { result ≡ object_by (place_at label) }
{
    if label >= 32 {
        Some((label - 32) as usize)
    } else {
        None
    }
}
