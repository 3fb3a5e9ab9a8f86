//! Hart lines of a run, and what the registers of each hart hold.

ghost use Rattle.std.specs.Prelude.{◌≡◌, ◌≤◌, ◌<◌, ◌-◌, ◌^◌, ℕ, None, IfNone, IfSome};
ghost use Rattle.cap_run_log.specs.RunLines.{IsRunPlace};
ghost use Rattle.cap_run.specs.{HartPlaces.{place_in, place_numbered}, Harts.most_harts};
ghost use Rattle.cap_run.specs.{RunChanges.hart_after, RunChecks.{Answers, hart_end, hart_wants}, Run.moment};
ghost use Rattle.cap_run.specs.Machines.{run_in, slots_in};

use crate::ends::{RunEnd, RunRefusal};
use crate::run_machine::{RunMachine, slot_by};
use cap_machine::Refusal;
use cap_objects::Moment;
use cap_run_log::RunPlace;
use cap_word::Cap;
use tagmem::TaggedStore;

impl<M: TaggedStore> RunMachine<M> {
    /// The number of the hart whose registers are told: 0 at first.
    pub fn hart(&self) -> u16
        ensures value { result ≡ (let run = run_in self.now in let harts = run.harts in harts.current) }
    {
        self.specials.current()
    }

    /// How many hart lines were taken.
    pub fn hart_lines(&self) -> u32
        ensures value { result ≡ (let run = run_in self.now in let harts = run.harts in harts.lines) }
    {
        self.specials.lines()
    }

    /// Takes a hart line: from now on a hart's registers are told, which hold NULL without a tag if it wasn't named before. What
    /// those of the hart before held is kept for it, with its owners. It is refused where 4,294,967,295 hart lines were taken
    /// (`LimitPassed`). `NoMemory` comes only at a hart named for the first time. After an error nothing has changed.
    pub fn switch(&mut self, hart: u16) -> Result<(), RunEnd>
        ensures outcome { let old = run_in self.old in
            Answers (hart_end old) (hart_after old hart) (hart_wants old hart) old result (run_in self.new) }
        ensures asks { self.new.asks ≡ self.old.asks }
    {
        if self.specials.lines() == u32::MAX {
            return Err(RunEnd::Refused(RunRefusal::Usual(Refusal::LimitPassed)));
        }
        match self.specials.switch(&mut self.machine, hart) {
            Ok(()) => Ok(()),
            Err(_) => Err(RunEnd::NoMemory),
        }
    }

    /// The first hart from one on that was named: no object owns a register of those before it, or, if there is none, of any.
    pub fn next_hart(&self, from: u16) -> Option<u16>
        ensures some { IfSome result (λ hart. let run = run_in self.now in (from ≤ hart)
            × ((other register : ℕ) → from ≤ other → other < hart → register < 64
            → run.owners (place_in run.harts other (place_numbered register)) ≡ None)) }
        ensures none { IfNone result (let run = run_in self.now in
            (other register : ℕ) → from ≤ other → other < most_harts → register < 64
            → run.owners (place_in run.harts other (place_numbered register)) ≡ None) }
    {
        self.specials.next_named(from)
    }

    /// What a place holds, where a register is that of a hart.
    pub fn holds_in(&self, hart: u16, place: RunPlace) -> Cap
        requires { IsRunPlace place }
        ensures value { result ≡ (let run = run_in self.now in run.state (place_in run.harts hart place)) }
    {
        if hart == self.specials.current() {
            return self.holds(place);
        }
        match place {
            RunPlace::General(number) => self.specials.away(hart, number).0,
            RunPlace::Special(number) => self.specials.away(hart, 32 + number).0,
            RunPlace::Granule(granule) => self.granule_cap(granule),
        }
    }

    /// The number of the object that owns a place, if there is one, where a register is that of a hart.
    pub fn owner_in(&self, hart: u16, place: RunPlace) -> Option<u32>
        requires { IsRunPlace place }
        ensures value { result ≡ (let run = run_in self.now in run.owners (place_in run.harts hart place)) }
    {
        match self.slot_in(hart, place) {
            Some(slot) => Some(self.objects.object(slot).number),
            None => None,
        }
    }

    // The slot of that object.
    fn slot_in(&self, hart: u16, place: RunPlace) -> Option<usize>
        requires { IsRunPlace place }
        ensures value { result ≡ (let run = slots_in self.now in run.owners (place_in run.harts hart place)) }
    {
        if hart == self.specials.current() {
            return self.owner_at(place);
        }
        match place {
            RunPlace::General(number) => slot_by(self.specials.away(hart, number).1),
            RunPlace::Special(number) => slot_by(self.specials.away(hart, 32 + number).1),
            RunPlace::Granule(granule) => self.granule_owner(granule),
        }
    }

    // When the next step is made.
    #[inline(always)]
    pub(crate) fn moment(&self) -> Moment
        requires { self.now.machine.steps < 2 ^ 32 - 1 }
        ensures value { result ≡ moment (slots_in self.now) }
    {
        Moment {
            steps: self.machine.steps() + 1,
            hart_lines: self.specials.lines(),
        }
    }
}

/// A register of a hart by its number in their order: c1 to c31, then scr0 to scr31.
pub fn place_numbered(number: u8) -> RunPlace
    requires { (1 ≤ number) × (number < 64) }
    ensures value { result ≡ place_numbered number }
    ensures in_range { IsRunPlace result }
{
    if number < 32 {
        RunPlace::General(number)
    } else {
        RunPlace::Special(number - 32)
    }
}
