//! The machine: registers and tagged memory, with counts of its roots and steps. What it holds, how roots are
//! declared and steps are made, and its accesses to memory.

ghost use Rattle.std.specs.Prelude.{◌≡◌, ◌↔◌, ◌<◌, ◌≤◌, ◌+◌, ◌-◌, ◌/◌, ◌%◌, ◌^◌, not, is_some, MatchResult, OnOk, OnErr};
ghost use Rattle.std.specs.Prelude.{IfSome, IfOk, IsTrue, None, Ok, Err, true, false};
ghost use Rattle.std.specs.FinMap as map;
ghost use Rattle.cap_word.specs.Memory.{low_bytes, memory_of};
ghost use Rattle.cap_bounds.specs.Bounds.{IsSound};
ghost use Rattle.cap_ops.specs.{Checks.first_of, Sizes.size_fits};
ghost use Rattle.cap_log.specs.Lines.{IsPlace, IsStepInRange, IsTarget};
ghost use Rattle.tagmem.specs.Granules.{AreStored, HasRoom, IsCodeFor, IsNextPut, bytes_at, with_bytes};
ghost use Rattle.tagmem.specs.Granules.{with_cap};
ghost use Rattle.cap_machine.specs.Accounts.{granule_of, is_new, limits_of, no_account, passes_granule_limit, root_checks};
ghost use Rattle.cap_machine.specs.Changes.{AnswersPut, Derives, IsAccess, IsCodeOf, Placed, WritesRegister};
ghost use Rattle.cap_machine.specs.Changes.{address_in, is_past_limits, number_at, with_cap_put, with_value_put};
ghost use Rattle.cap_machine.specs.{Escapes.{ClearsBeyond, Escapes}, Helds.{AnswersStep, EndsRoot, EndsStep, IsFull, IsKept}};
ghost use Rattle.cap_machine.specs.Helds.{TakesRoot, account_of, code_in, state_of};
ghost use Rattle.cap_machine.specs.{Parents.{IsSoundCap, StaysWithinParents}, Places.{IsCoded, place_at}};
ghost use Rattle.cap_machine.specs.{RegisterCaps.{cap_by, label_by}, Registers.{cap_in, caps_of, label_in, labels_of}};
ghost use Rattle.cap_machine.specs.{Shown.{IsShown, shown_of}, States.{granule_key, key_of, untagged_null, value_at}};
ghost use Rattle.cap_machine.specs.{Labels.{filled, labelled, placed_with, with_label, with_labelled_root}, Steps.{address_through, row_of, written_by}};

use crate::ends::StepEnd;
use crate::instructions::{make, show, written_by};
use crate::limits::Limits;
use crate::registers::Registers;
use crate::rules::Rules;
use crate::shown::{Reached, Shown};
use cap_bounds::sound;
use cap_log::{Datum, Offset, Operands, Place, Register, Size, Step, Target};
use cap_ops::{Access, Kind, RecentAuthority, Refusal, may_access_soundly};
use cap_word::{Cap, Word, from_memory, null, to_memory};
use std::marker::Model;
use tagmem::{NoMemory, TaggedStore};

/// The greatest number of steps that a machine makes (this profile's own): past it comes `LimitPassed`.
pub const MOST_STEPS: u32 = u32::MAX;

/// A machine over a store of granules: registers c1 to c31, c0, which is always NULL without a tag, and
/// memory of 2^60 granules. It counts the roots that were declared and the steps that were made. The word of
/// each tagged capability that it holds is sound, and beside each stands the place of the root that it comes
/// from.
#[derive(Drop)]
pub struct Machine<M: TaggedStore> {
    pub(crate) rules: Rules,
    limits: Limits,
    registers: [Cap; 32],
    // The code of the origin of what each register holds; the store has those of granules.
    pub(crate) codes: [u64; 32],
    memory: M,
    roots: u32,
    pub(crate) steps: u32,
    recent: RecentAuthority,
}

impl<M: TaggedStore> Model for Machine<M> {
    ghost use Rattle.cap_machine.specs.Helds.{Held, IsKept, held_code};

    ghost Value = { Held };

    ghost coded = { held_code };

    ghost view = { λ machine. record {
      rules = machine.rules;
      limits = machine.limits;
      registers = machine.registers;
      codes = machine.codes;
      memory = M.contents machine.memory;
      least_room = M.least_room machine.memory;
      roots = machine.roots;
      steps = machine.steps;
    } };

    ghost invariant = { λ machine. IsKept machine.registers machine.codes (M.contents machine.memory) };
}

impl<M: TaggedStore> Machine<M> {
    /// A machine by the rules of version 1, as `with_rules` makes it.
    pub fn new(memory: M) -> Machine<M>
        requires { map.len (M.contents memory) ≡ 0 }
        ensures account { account_of result ≡ no_account Rules.One (limits_of Rules.One) }
        ensures least_room { result.least_room ≡ M.least_room memory }
    {
        Machine::with_rules(memory, Rules::One)
    }

    /// A machine that holds NULL without a tag everywhere, with no root and no step, over an empty store.
    /// It takes no memory.
    pub fn with_rules(memory: M, rules: Rules) -> Machine<M>
        requires { map.len (M.contents memory) ≡ 0 }
        ensures account { account_of result ≡ no_account rules (limits_of rules) }
        ensures least_room { result.least_room ≡ M.least_room memory }
    {
        Machine::with_limits(memory, rules, rules.limits())
    }

    /// A machine as `with_rules` makes it, with limits of the caller's.
    pub fn with_limits(memory: M, rules: Rules, limits: Limits) -> Machine<M>
        requires { map.len (M.contents memory) ≡ 0 }
        ensures account { account_of result ≡ no_account rules limits }
        ensures least_room { result.least_room ≡ M.least_room memory }
    {
        let nothing = Cap {
            tag: false,
            word: null(),
        };
        Machine {
            rules,
            limits,
            registers: [nothing; 32],
            codes: [0; 32],
            memory,
            roots: 0,
            steps: 0,
            recent: RecentAuthority::new(),
        }
    }

    /// From now on it follows these rules. All else is as before, its limits too.
    pub fn follow(&mut self, rules: Rules)
        ensures held { self.new ≡ record self.old { rules = rules } }
    {
        self.rules = rules;
    }

    /// From now on it keeps to these limits. All else is as before.
    pub fn limit(&mut self, limits: Limits)
        ensures held { self.new ≡ record self.old { limits = limits } }
    {
        self.limits = limits;
    }

    /// The rules that it follows.
    pub fn rules(&self) -> Rules
        ensures value { result ≡ self.now.rules }
    {
        self.rules
    }

    /// How many steps were made, at most 4,294,967,295.
    pub fn steps(&self) -> u32
        ensures value { result ≡ self.now.steps }
    {
        self.steps
    }

    /// How many roots were declared.
    pub fn roots(&self) -> u32
        ensures value { result ≡ self.now.roots }
    {
        self.roots
    }

    /// How many distinct granules roots, `sc` and `store` have named.
    pub fn granules(&self) -> u32
        ensures value { result ≡ (let account = account_of self.now in account.granules) }
    {
        self.memory.count()
    }

    /// What is true of every machine. It does nothing: what it says is its contract.
    #[inline(always)]
    pub fn kept(&self)
        ensures kept { IsKept self.now.registers self.now.codes self.now.memory }
        ensures stored { AreStored self.now.memory }
    {
        let _ = &self.memory;
    }

    /// What a place holds.
    pub fn holds(&self, place: Place) -> Cap
        requires { IsPlace place }
        ensures value { result ≡ state_of self.now (key_of place) }
    {
        match place {
            Place::Register(number) => self.register(number),
            Place::Granule(granule) => self.granule(granule),
        }
    }

    /// The number that the bytes of memory from an address on spell, the least significant first: as many as
    /// a load of data takes, all in one granule.
    #[inline(always)]
    pub fn value(&self, address: u64, size: Size) -> u64
        requires { address % 16 + size ≤ 16 }
        ensures value { result ≡ value_at (state_of self.now) address size }
    {
        number_in(&self.memory, address / 16, (address % 16) as u8, size)
    }

    /// What a register holds. Register 0 is c0, which is NULL without a tag.
    #[inline(always)]
    pub fn register(&self, number: u8) -> Cap
        requires { number ≤ 31 }
        ensures holds { result ≡ state_of self.now number }
        ensures sound { IsSoundCap result }
        ensures zero { number ≡ 0 → result ≡ untagged_null }
    {
        self.registers[number as usize]
    }

    /// What a granule holds, which is the sixteen bytes from address `16 * granule` on: NULL without a tag
    /// where nothing was put.
    #[inline(always)]
    pub fn granule(&self, granule: u64) -> Cap
        requires { granule < 2 ^ 60 }
        ensures holds { result ≡ state_of self.now (granule_key granule) }
        ensures sound { IsSoundCap result }
    {
        self.kept();
        self.granule_with_code(granule).0
    }

    /// The place of the root that what a place holds comes from, or `None`, exactly where that has no tag.
    pub fn origin(&self, place: Place) -> Option<Place>
        requires { IsPlace place }
        ensures origin { result ≡ (let account = account_of self.now in account.origin (key_of place)) }
        ensures tagged { is_some result ≡ (let cap = state_of self.now (key_of place) in cap.tag) }
        ensures in_range { IfSome result IsPlace }
    {
        self.kept();
        place_at(self.code(place))
    }

    /// The least granule at or above a number that a root, an `sc` or a `store` has named, or `None` where
    /// there is none: every other granule from there on holds NULL without a tag. Any number does, also one
    /// that is no granule's.
    pub fn next_put(&self, granule: u64) -> Option<u64>
        ensures next { IsNextPut self.now.memory granule result }
        ensures in_memory { IfSome result (λ next. next < 2 ^ 60) }
    {
        self.memory.next_put(granule)
    }

    // The code of the origin of what a place holds.
    fn code(&self, place: Place) -> u64
        requires { IsPlace place }
        ensures { result ≡ code_in self.now (key_of place) }
    {
        match place {
            Place::Register(number) => self.codes[number as usize],
            Place::Granule(granule) => self.memory.code(granule),
        }
    }

    /// Puts a root, tagged, at its place, and counts it; that place is its origin. It is refused for the
    /// first of these that holds: its place has a capability with a tag already (`PlaceTaken`), its word is
    /// not sound (`UnsoundRoot`), there are as many roots as the limits allow, or it names a granule beyond
    /// those that they allow (`LimitPassed`). `NoMemory` comes only at a granule named for the first time. After an error
    /// nothing has changed.
    pub fn declare(&mut self, place: Place, word: Word) -> Result<(), StepEnd>
        requires { IsPlace place }
        ensures outcome { MatchResult result
            (λ _. TakesRoot self.old place word self.new)
            (λ end. EndsRoot self.old place word end self.new) }
    {
        if let Some(refusal) = self.root_fault(place, word) {
            return Err(StepEnd::Refused(refusal));
        }
        self.place_root(place, word)?;
        self.roots += 1;
        Ok(())
    }

    // The first check that refuses a root.
    fn root_fault(&self, place: Place, word: Word) -> Option<Refusal>
        requires { IsPlace place }
        ensures { result ≡ first_of (root_checks (account_of self.now) place word) }
    {
        if self.holds(place).tag {
            Some(Refusal::PlaceTaken)
        } else if !sound(word) {
            Some(Refusal::UnsoundRoot)
        } else if self.roots >= self.limits.roots
            || matches!(place, Place::Granule(granule) if self.granule_passes_limit(granule))
        {
            Some(Refusal::LimitPassed)
        } else {
            None
        }
    }

    // Whether naming a granule passes the limit on granules.
    #[inline(always)]
    pub(crate) fn granule_passes_limit(&self, granule: u64) -> bool
        requires { granule < 2 ^ 60 }
        ensures { result ≡ passes_granule_limit (account_of self.now) (Some granule) }
    {
        self.memory.count() >= self.limits.granules && self.is_unnamed(granule)
    }

    // Whether no root, `sc` or `store` has named a granule.
    #[inline(never)]
    fn is_unnamed(&self, granule: u64) -> bool
        requires { granule < 2 ^ 60 }
        ensures { result ≡ is_new (account_of self.now) (Some granule) }
    {
        self.memory.get(granule).is_none()
    }

    // Puts a root into a place, and counts nothing. A refused put changes nothing.
    fn place_root(&mut self, place: Place, word: Word) -> Result<(), NoMemory>
        requires in_range { IsPlace place }
        requires room { passes_granule_limit (account_of self.old) (granule_of place) ≡ false }
        requires sound { IsSound word.0 }
        ensures ok { OnOk result (Placed self.old place word self.new) }
        ensures err { OnErr result (self.new ≡ self.old) }
        ensures only_new { OnErr result (IsTrue (is_new (account_of self.old) (granule_of place))) }
        ensures full { OnErr result (IsFull self.old) }
    {
        let root = Cap { tag: true, word };
        match place {
            Place::Register(number) => {
                self.registers[number as usize] = root;
                self.codes[number as usize] = u64::from(number);
                Ok(())
            }
            Place::Granule(granule) => put_capability(
                &mut self.memory,
                granule,
                root,
                granule + 32,
            ),
        }
    }

    /// Performs a step and counts it, or refuses it and changes nothing. The refusal is the first of these:
    ///
    /// - a failed check of its operation or access, in their order; in clear mode a failed check of a register
    ///   operation doesn't refuse the step, and its result loses its tag;
    /// - `WrongResult`, if the log records another result or value than the machine's;
    /// - `LimitPassed`, if there are 4,294,967,295 steps, or if it names a granule beyond those that the rules
    ///   allow.
    ///
    /// Also changes nothing and returns `NoMemory` if an allocation fails, which only happens at a granule named
    /// for the first time.
    ///
    /// A tagged result has the origin of the place that it comes from: the step's source, or for `lc` the
    /// granule, and never the authority. So a granule gets with `sc` the origin of the register that is stored,
    /// where that is tagged. What has no tag has no origin: `store` clears its granule's.
    ///
    /// A step keeps every tagged word sound, and each tagged capability after it reaches no more than its parent
    /// place held before. By strict rules a step is refused as `BoundsEscape` if and only if it sets bounds of a
    /// tagged, unsealed source and the requested bounds, before rounding, don't lie inside the source's; that is
    /// the check of the instruction CSetBounds. In clear mode no step is refused so, and `setbounds` of such a
    /// source loses its tag under exactly that condition.
    #[inline(always)]
    pub fn step(&mut self, step: &Step) -> Result<(), StepEnd>
        ensures outcome { AnswersStep self.old step.now result self.new }
        ensures stays_within { OnOk result
            (StaysWithinParents (state_of self.old) step.now (state_of self.new)) }
        ensures escape { (result ≡ Err (StepEnd.Refused Refusal.BoundsEscape))
            ↔ Escapes self.old.rules (state_of self.old) step.now }
        ensures clears { OnOk result
            (ClearsBeyond self.old.rules (state_of self.old) step.now
            (state_of self.new)) }
    {
        self.kept();
        make(step, self)
    }

    /// What a step shows of the machine, which is as it was before the step.
    pub fn shown(&self, step: &Step) -> Shown
        ensures shown { result ≡ shown_of (state_of self.now) step.now }
        ensures in_range { IsShown result }
    {
        show(step, self)
    }

    /// The place that a step writes, if any: a register, or the granule that its access reaches.
    #[inline(always)]
    pub fn written(&self, step: &Step) -> Option<Place>
        ensures place { result ≡ written_by (state_of self.now) step.now }
        ensures in_range { IfSome result IsPlace }
    {
        written_by(step, self)
    }

    /// The label of what a place holds: its code, 0 exactly where it has no tag. A code is a label that descent
    /// carries on: a step gives a tagged result its parent's. `declare` labels a root with the key of its place.
    #[inline(always)]
    pub fn label(&self, place: Place) -> u64
        requires { IsPlace place }
        ensures label { result ≡ code_in self.now (key_of place) }
        ensures coded { let cap = state_of self.now (key_of place) in IsCoded cap.tag result }
    {
        self.kept();
        match place {
            Place::Register(number) => self.codes[number as usize],
            Place::Granule(_) => self.code(place),
        }
    }

    /// Puts a capability with a label into a register, 1 to 31, and counts nothing.
    #[inline(always)]
    pub fn put_labelled(&mut self, target: u8, cap: Cap, label: u64)
        requires target { IsTarget target }
        requires sound { IsSoundCap cap }
        requires coded { IsCoded cap.tag label }
        ensures held { self.new ≡ with_label self.old target cap label }
        ensures account { account_of self.new ≡ labelled (account_of self.old) target cap label }
    {
        overwrite(&mut self.registers[target as usize], cap);
        self.codes[target as usize] = label;
    }

    /// Puts a capability with a label into a granule and counts a step, or refuses it as `LimitPassed`. `NoMemory` comes
    /// only at a granule named for the first time. After an error nothing has changed.
    pub fn fill(&mut self, granule: u64, cap: Cap, label: u64) -> Result<(), StepEnd>
        requires in_memory { granule < 2 ^ 60 }
        requires sound { IsSoundCap cap }
        requires coded { IsCoded cap.tag label }
        ensures outcome { AnswersPut self.old granule (with_cap_put self.old granule cap label) result self.new }
        ensures account { OnOk result (account_of self.new ≡ filled (account_of self.old) granule cap label) }
    {
        self.put_counted(granule, cap, label)
    }

    /// Keeps what the registers hold, with its labels, apart from the machine.
    pub fn save_registers(&self, into: &mut Registers)
        ensures caps { cap_in into.new ≡ cap_by self.now.registers }
        ensures labels { label_in into.new ≡ label_by self.now.codes }
    {
        self.kept();
        into.set(&self.registers, &self.codes);
    }

    /// The registers hold what others do, with its labels, of which c0 is NULL without a tag. All else is as before.
    pub fn load_registers(&mut self, from: &Registers)
        requires { cap_in from.now 0 ≡ untagged_null }
        ensures held { self.new ≡ record self.old { registers = caps_of from.now; codes = labels_of from.now } }
    {
        self.kept();
        self.registers = from.caps;
        self.codes = from.labels;
    }

    /// Counts a step that changes nothing here.
    #[inline(always)]
    pub fn count_step(&mut self)
        requires { self.old.steps < 2 ^ 32 - 1 }
        ensures held { self.new ≡ record self.old { steps = self.old.steps + 1 } }
    {
        self.steps += 1;
    }

    /// Puts a root at its place as `declare` does, but with a label of the caller's.
    pub fn declare_labelled(&mut self, place: Place, word: Word, label: u64) -> Result<(), StepEnd>
        requires in_range { IsPlace place }
        requires coded { IsCoded true label }
        ensures outcome { MatchResult result
            (λ _. (first_of (root_checks (account_of self.old) place word) ≡ None)
            × (account_of self.new ≡ with_labelled_root (account_of self.old) place word label))
            (λ end. EndsRoot self.old place word end self.new) }
    {
        if let Some(refusal) = self.root_fault(place, word) {
            return Err(StepEnd::Refused(refusal));
        }
        self.place_labelled(place, word, label)?;
        let roots = &mut self.roots;
        *roots += 1;
        Ok(())
    }

    // Puts a root with a label into a place, and counts nothing. A refused put changes nothing.
    fn place_labelled(&mut self, place: Place, word: Word, label: u64) -> Result<(), NoMemory>
        requires in_range { IsPlace place }
        requires coded { IsCoded true label }
        requires room { passes_granule_limit (account_of self.old) (granule_of place) ≡ false }
        requires sound { IsSound word.0 }
        ensures ok { OnOk result (self.new ≡ placed_with self.old place word label) }
        ensures err { OnErr result (self.new ≡ self.old) }
        ensures only_new { OnErr result (IsTrue (is_new (account_of self.old) (granule_of place))) }
        ensures full { OnErr result (IsFull self.old) }
    {
        let root = Cap { tag: true, word };
        match place {
            Place::Register(number) => {
                overwrite(&mut self.registers[number as usize], root);
                self.codes[number as usize] = label;
                Ok(())
            }
            Place::Granule(granule) => put_capability(&mut self.memory, granule, root, label),
        }
    }

    // Ends a step that gives a register a capability with this code: if its line records that capability, writes it and
    // counts the step.
    #[inline(always)]
    pub(crate) fn conclude<O: Operands>(
        &mut self,
        step: &O,
        target: Target,
        given: Cap,
        recorded: Cap,
        code: u64,
    ) -> Result<(), StepEnd>
        requires writes { WritesRegister (state_of self.old) (O.step step.now) target recorded }
        requires derives { Derives self.old (O.step step.now) (Ok given) }
        requires code { IsCodeOf self.old (O.step step.now) given code }
        ensures outcome { AnswersStep self.old (O.step step.now) result self.new }
        ensures range { IsStepInRange (O.step step.now) }
    {
        step.in_range();
        if recorded != given {
            return Err(StepEnd::Refused(Refusal::WrongResult));
        }
        if self.steps >= MOST_STEPS {
            return Err(StepEnd::Refused(Refusal::LimitPassed));
        }
        let target = target.number() as usize;
        overwrite(&mut self.registers[target], recorded);
        self.codes[target] = code;
        self.steps += 1;
        Ok(())
    }

    // The address of a step's access through a register, or how the step ends that this doesn't allow. Only the recent
    // authority changes.
    #[inline(always)]
    pub(crate) fn reach<O: Operands>(
        &mut self,
        step: &O,
        authority: Register,
        kind: Kind,
        offset: Offset,
        size: u8,
    ) -> Result<u64, StepEnd>
        requires size { IsTrue (size_fits kind size) }
        requires row { let state = state_of self.old in
            IsAccess (row_of state (O.step step.now)) authority kind offset size state }
        ensures outcome { let held = self.old in
            MatchResult result
            (λ address. let row = row_of (state_of held) (O.step step.now) in
            (first_of row.checks ≡ None) × (address ≡ address_in row.access))
            (λ end. EndsStep held (O.step step.now) end held) }
        ensures in_one_granule { IfOk result (λ address. address % 16 + size ≤ 16) }
        ensures range { IsStepInRange (O.step step.now) }
        ensures same { self.new ≡ self.old }
    {
        step.in_range();
        let access = Access {
            kind,
            offset: offset.number(),
            size,
        };
        let authority = self.register(authority.number());
        match may_access_soundly(authority, access, &mut self.recent) {
            Ok(address) => Ok(address),
            Err(fault) => return Err(StepEnd::from(fault)),
        }
    }

    // An access through a register, whether it is allowed or not.
    #[tactic(auto, unfolding(cap_ops::specs::Accesses::access_address))]
    pub(crate) fn reached(
        &self,
        authority: Register,
        offset: Offset,
        size: u8,
        needs: u32,
    ) -> Reached
        ensures value { result ≡ record {
          authority = authority;
          address = address_through (state_of self.now) authority offset;
          size = size;
          needs = needs;
        } }
    {
        let word = self.register(authority.number()).word;
        Reached {
            authority,
            address: word
                .address()
                .wrapping_add_signed(i64::from(offset.number())),
            size,
            needs,
        }
    }

    // What a granule holds, and the code of its origin: NULL without a tag, and 0, where it was never put.
    #[inline(always)]
    pub(crate) fn granule_with_code(&self, granule: u64) -> (Cap, u64)
        requires { granule < 2 ^ 60 }
        ensures holds { result.0 ≡ state_of self.now (granule_key granule) }
        ensures code { result.1 ≡ code_in self.now (granule_key granule) }
    {
        match self.memory.entry(granule) {
            Some(entry) => {
                let cap = Cap {
                    tag: entry.0,
                    word: from_memory(&entry.1),
                };
                (cap, entry.2)
            }
            None => {
                let cap = Cap {
                    tag: false,
                    word: null(),
                };
                (cap, 0)
            }
        }
    }

    // Whether one step more that names a granule passes a limit.
    #[inline(always)]
    fn is_past_limits(&self, granule: u64) -> bool
        requires { granule < 2 ^ 60 }
        ensures { result ≡ is_past_limits self.now granule }
    {
        self.steps >= MOST_STEPS || self.granule_passes_limit(granule)
    }

    // Puts a capability, and the code of its origin, into a granule and counts the step.
    #[inline(always)]
    pub(crate) fn put_counted(
        &mut self,
        granule: u64,
        stored: Cap,
        code: u64,
    ) -> Result<(), StepEnd>
        requires in_memory { granule < 2 ^ 60 }
        requires sound { IsSoundCap stored }
        requires coded { IsCoded stored.tag code }
        ensures { AnswersPut self.old granule (with_cap_put self.old granule stored code) result self.new }
    {
        if self.is_past_limits(granule) {
            return Err(StepEnd::Refused(Refusal::LimitPassed));
        }
        put_capability(&mut self.memory, granule, stored, code)?;
        self.steps += 1;
        Ok(())
    }

    // Puts a value's bytes into a granule and counts the step.
    #[inline(always)]
    pub(crate) fn put_value_counted(
        &mut self,
        granule: u64,
        byte_index: u8,
        datum: Datum,
    ) -> Result<(), StepEnd>
        requires in_memory { granule < 2 ^ 60 }
        requires inside { byte_index + datum.size ≤ 16 }
        ensures { AnswersPut self.old granule
            (with_value_put self.old granule byte_index datum.size datum.value) result self.new }
    {
        if self.is_past_limits(granule) {
            return Err(StepEnd::Refused(Refusal::LimitPassed));
        }
        put_number(&mut self.memory, granule, byte_index, datum)?;
        self.steps += 1;
        Ok(())
    }
}

// Writes a capability over another, field by field: a copy of the whole would move the bytes between the fields too.
#[inline(always)]
pub(crate) fn overwrite(place: &mut Cap, cap: Cap)
    ensures { place.new ≡ cap }
{
    place.tag = cap.tag;
    place.word = cap.word;
}

// The place of the root that a code of an origin is of, or `None` for 0. A code is the key of the root's place: a
// register's own number, or a granule's and 32 more.
fn place_at(code: u64) -> Option<Place>
    ensures value { result ≡ place_at code }
{
    if code == 0 {
        None
    } else if code < 32 {
        Some(Place::Register(code as u8))
    } else {
        Some(Place::Granule(code - 32))
    }
}

// Puts a capability, and the code of its origin, into a granule. A refused put changes nothing.
#[inline(always)]
fn put_capability<M: TaggedStore>(
    memory: &mut M,
    granule: u64,
    cap: Cap,
    code: u64,
) -> Result<(), NoMemory>
    requires in_memory { granule < 2 ^ 60 }
    requires coded { IsCodeFor cap.tag code }
    requires room { HasRoom (M.contents memory.old) granule }
    ensures ok { OnOk result (M.contents memory.new ≡ with_cap (M.contents memory.old) granule cap.tag (memory_of cap.word.0) code) }
    ensures err { OnErr result (M.contents memory.new ≡ M.contents memory.old) }
    ensures only_new { OnErr result (map.get (M.contents memory.old) granule ≡ None) }
    ensures no_room { OnErr result (M.least_room memory.old ≤ map.len (M.contents memory.old)) }
    ensures same_room { M.least_room memory.new ≡ M.least_room memory.old }
{
    memory.put_cap(granule, cap.tag, to_memory(cap.word), code)
}

// The number that `size` bytes of a granule spell from a byte index on, the least significant first.
#[inline(always)]
fn number_in<M: TaggedStore>(memory: &M, granule: u64, byte_index: u8, size: Size) -> u64
    requires in_memory { granule < 2 ^ 60 }
    requires inside { byte_index + size ≤ 16 }
    ensures value { result ≡ number_at (bytes_at (M.contents memory.now) granule) byte_index size }
{
    match memory.get(granule) {
        Some(entry) => number_from(&entry.1, byte_index, size),
        None => 0,
    }
}

// Writes the bytes of a number into a granule, the least significant first, from a byte index on, and clears its
// tag. A refused put changes nothing.
#[inline(always)]
fn put_number<M: TaggedStore>(
    memory: &mut M,
    granule: u64,
    byte_index: u8,
    datum: Datum,
) -> Result<(), NoMemory>
    requires in_memory { granule < 2 ^ 60 }
    requires inside { byte_index + datum.size ≤ 16 }
    requires room { HasRoom (M.contents memory.old) granule }
    ensures ok { OnOk result (M.contents memory.new ≡ with_bytes (M.contents memory.old) granule byte_index (low_bytes datum.size datum.value)) }
    ensures err { OnErr result (M.contents memory.new ≡ M.contents memory.old) }
    ensures only_new { OnErr result (map.get (M.contents memory.old) granule ≡ None) }
    ensures no_room { OnErr result (M.least_room memory.old ≤ map.len (M.contents memory.old)) }
    ensures same_room { M.least_room memory.new ≡ M.least_room memory.old }
{
    let size = datum.size().bytes();
    let bytes = datum.value().to_le_bytes();
    memory.put_bytes(granule, byte_index, &bytes[..size as usize])
}

// The number that `size` of sixteen bytes spell from a byte index on.
#[inline(always)]
fn number_from(bytes: &[u8; 16], byte_index: u8, size: Size) -> u64
    requires { byte_index + size ≤ 16 }
    ensures { result ≡ number_at bytes.now byte_index size }
{
    let rest = u128::from_le_bytes(*bytes) >> (8 * u32::from(byte_index));
    let mask = u64::MAX >> (64 - 8 * u32::from(size.bytes()));
    (rest & u128::from(mask)) as u64
}
