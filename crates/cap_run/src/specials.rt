//! What a machine of runs holds beside the registers and the memory of a log's: special registers, and the registers of harts
//! that aren't the current one.

ghost use Rattle.std.specs.Prelude.{◌≡◌, ◌≤◌, ◌≢◌, ◌<◌, ◌+◌, ◌-◌, ◌*◌, ◌^◌, ◌==◌, ◌||◌, ℕ, OnOk, OnErr, false, true, is_some};
ghost use Rattle.std.specs.Ordering.{nat_cmp};
ghost use Rattle.std.specs.BTreeMap as tree;
ghost use Rattle.cap_machine.specs.{Parents.IsSoundCap, Places.IsCoded, RegisterCaps.{cap_by, label_by}, Registers.{cap_in as cap_at, caps_of, label_in as label_at, labels_of}, States.{put, untagged_null}};

use cap_machine::{Machine, Registers};
use cap_word::{Cap, null};
use std::alloc::{AllocError, Global};
use std::collections::BTreeMap;
use tagmem::TaggedStore;

/// The registers of one hart, c0 to c31 and scr0 to scr31.
#[derive(Drop)]
pub struct Bank {
    general: Registers,
    special: Registers,
    ghost zero: { cap_at general 0 ≡ untagged_null },
}

impl Bank {
    ghost use Rattle.cap_run.specs.Specials.{in_bank};

    // NULL without a tag in each.
    fn new() -> Bank
        ensures general { (number : ℕ) → (cap_at result.general number ≡ untagged_null) × (label_at result.general number ≡ 0) }
        ensures special { (number : ℕ) → (cap_at result.special number ≡ untagged_null) × (label_at result.special number ≡ 0) }
    {
        Bank {
            general: Registers::new(),
            special: Registers::new(),
        }
    }

    // What a register holds, and its label: c0 to c31 are 0 to 31, scr0 to scr31 are 32 to 63.
    fn at(&self, register: u8) -> (Cap, u64)
        requires { register < 64 }
        ensures cap { result.0 ≡ in_bank cap_at register self.now }
        ensures label { result.1 ≡ in_bank label_at register self.now }
    {
        if register < 32 {
            (self.general.cap(register), self.general.label(register))
        } else {
            let number = register - 32;
            (self.special.cap(number), self.special.label(number))
        }
    }

    // Keeps what a machine's registers and special registers hold.
    fn save<M: TaggedStore>(&mut self, machine: &Machine<M>, special: &Registers)
        ensures caps { cap_at self.new.general ≡ cap_by machine.now.registers }
        ensures labels { label_at self.new.general ≡ label_by machine.now.codes }
        ensures special { self.new.special ≡ special.now }
    {
        machine.kept();
        machine.save_registers(&mut self.general);
        self.special.copy(special);
    }

    // A machine's registers and special registers hold what these do.
    fn load<M: TaggedStore>(&self, machine: &mut Machine<M>, special: &mut Registers)
        ensures general { machine.new ≡ record machine.old { registers = caps_of self.now.general; codes = labels_of self.now.general } }
        ensures special { special.new ≡ self.now.special }
    {
        machine.load_registers(&self.general);
        special.copy(&self.special);
    }
}

/// The special registers of the current hart, scr0 to scr31, which hold NULL without a tag at first, and all registers of each
/// other hart that was named.
#[derive(Drop)]
pub struct Specials {
    registers: Registers,
    current: u16,
    // How many hart lines came.
    lines: u32,
    // The registers of each hart that was named. Those of the current one say nothing: a machine has what it holds.
    banks: BTreeMap<u16, Box<Bank>>,
    alloc: Global,
    // If registers are kept for any hart, some are for the current one.
    ghost named: { (hart : ℕ) → is_some (tree.get nat_cmp banks hart) ≡ true → is_some (tree.get nat_cmp banks current) ≡ true },
}

impl Specials {
    ghost use Rattle.cap_run.specs.{Harts.no_harts, Specials.{cap_in, harts_in, label_in}};

    /// NULL without a tag in each register of hart 0, the only one that is named. It takes no memory.
    pub fn new(alloc: Global) -> Specials
        ensures caps { (number : ℕ) → cap_in result number ≡ untagged_null }
        ensures labels { (number : ℕ) → label_in result number ≡ 0 }
        ensures harts { harts_in result ≡ no_harts }
    {
        Specials {
            registers: Registers::new(),
            current: 0,
            lines: 0,
            banks: BTreeMap::new(alloc),
            alloc,
        }
    }

    /// What a special register of the current hart holds.
    #[inline(always)]
    pub fn cap(&self, number: u8) -> Cap
        requires { number ≤ 31 }
        ensures value { result ≡ cap_in self.now number }
        ensures sound { IsSoundCap result }
    {
        self.registers.cap(number)
    }

    /// The label of what a special register of the current hart holds.
    #[inline(always)]
    pub fn label(&self, number: u8) -> u64
        requires { number ≤ 31 }
        ensures value { result ≡ label_in self.now number }
        ensures coded { let cap = cap_in self.now number in IsCoded cap.tag result }
    {
        self.registers.label(number)
    }

    /// Puts a capability with a label into a special register of the current hart.
    #[inline(always)]
    pub fn put(&mut self, number: u8, cap: Cap, label: u64)
        requires range { number ≤ 31 }
        requires sound { IsSoundCap cap }
        requires coded { IsCoded cap.tag label }
        ensures caps { cap_in self.new ≡ put (cap_in self.old) number cap }
        ensures labels { label_in self.new ≡ put (label_in self.old) number label }
        ensures harts { harts_in self.new ≡ harts_in self.old }
    {
        self.registers.put(number, cap, label);
    }
}

impl Specials {
    ghost use Rattle.cap_run.specs.{HartPlaces.IsNextNamed, Harts.{came_from, harts_after}, RunOf.{run_owners, run_state}, RunSteps.IsUnstepped};
    ghost use Rattle.cap_run.specs.Specials.{Keeps, Names, Restores, banks_at, cap_in, harts_in, is_named_in, label_in};

    // The number of the current hart.
    pub(crate) fn current(&self) -> u16
        ensures value { result ≡ (let harts = harts_in self.now in harts.current) }
    {
        self.current
    }

    // How many hart lines came.
    pub(crate) fn lines(&self) -> u32
        ensures value { result ≡ (let harts = harts_in self.now in harts.lines) }
    {
        self.lines
    }

    // What a register of a hart that isn't the current one holds, and its label: NULL without a tag if the hart wasn't named.
    pub(crate) fn away(&self, hart: u16, register: u8) -> (Cap, u64)
        requires register { register < 64 }
        requires away { hart ≢ (let harts = harts_in self.now in harts.current) }
        ensures cap { result.0 ≡ cap_in self.now (64 * (hart + 1) + register) }
        ensures label { result.1 ≡ label_in self.now (64 * (hart + 1) + register) }
    {
        let Some(bank) = self.banks.get(&hart) else {
            let nothing = Cap {
                tag: false,
                word: null(),
            };
            return (nothing, 0);
        };
        bank.at(register)
    }

    // The first hart from one on that has registers of its own.
    fn next_kept(&self, from: u16) -> Option<u16>
        ensures { IsNextNamed (λ hart. is_some (banks_at self.now hart)) from result }
    {
        match self.banks.range(from..).next() {
            Some((hart, _)) => Some(*hart),
            None => None,
        }
    }

    // The first hart from one on that was named.
    pub(crate) fn next_named(&self, from: u16) -> Option<u16>
        ensures { let harts = harts_in self.now in IsNextNamed harts.is_named from result }
    {
        let kept = self.next_kept(from);
        if from > self.current {
            return kept;
        }
        match kept {
            Some(hart) if hart < self.current => Some(hart),
            _ => Some(self.current),
        }
    }

    // Has registers for a hart, which hold NULL without a tag if it had none.
    fn name(&mut self, hart: u16) -> Result<(), AllocError>
        requires { ((hart == self.old.current) || is_some (banks_at self.old self.old.current)) ≡ true }
        ensures caps { (number : ℕ) → cap_in self.new number ≡ cap_in self.old number }
        ensures labels { (number : ℕ) → label_in self.new number ≡ label_in self.old number }
        ensures ok { OnOk result (Names self.old hart self.new) }
        ensures err { OnErr result ((is_some (banks_at self.old hart) ≡ false) × (harts_in self.new ≡ harts_in self.old)) }
    {
        if self.banks.contains_key(&hart) {
            return Ok(());
        }
        let Ok(bank) = Box::new(self.alloc, Bank::new()) else {
            return Err(AllocError);
        };
        match self.banks.insert(hart, bank) {
            Ok(_) => Ok(()),
            Err(_) => Err(AllocError),
        }
    }

    // Keeps what the registers of the current hart hold.
    fn keep<M: TaggedStore>(&mut self, machine: &Machine<M>)
        requires { is_some (banks_at self.old self.old.current) ≡ true }
        ensures { Keeps self.old machine.now self.new }
    {
        if let Some(bank) = self.banks.get_mut(&self.current) {
            bank.save(machine, &self.registers);
        }
    }

    // Makes a hart the current one: the registers hold what was kept for it.
    fn restore<M: TaggedStore>(&mut self, machine: &mut Machine<M>, hart: u16)
        requires { is_some (banks_at self.old hart) ≡ true }
        ensures { Restores self.old machine.old hart self.new machine.new }
    {
        let Some(bank) = self.banks.get(&hart) else {
            return;
        };
        bank.load(machine, &mut self.registers);
        self.current = hart;
    }

    // Makes a hart the current one, and counts no line.
    fn go<M: TaggedStore>(&mut self, machine: &mut Machine<M>, hart: u16) -> Result<(), AllocError>
        ensures state { OnOk result ((key : ℕ) → run_state machine.new self.new key
            ≡ run_state machine.old self.old (came_from self.old.current hart key)) }
        ensures owners { OnOk result ((key : ℕ) → run_owners machine.new self.new key
            ≡ run_owners machine.old self.old (came_from self.old.current hart key)) }
        ensures current { OnOk result (self.new.current ≡ hart) }
        ensures named { OnOk result ((other : ℕ) → is_named_in self.new other ≡ ((other == hart) || is_named_in self.old other)) }
        ensures lines { self.new.lines ≡ self.old.lines }
        ensures rest { IsUnstepped machine.old machine.new }
        ensures err { OnErr result ((machine.new ≡ machine.old) × (is_named_in self.old hart ≡ false)) }
        ensures err_caps { OnErr result ((number : ℕ) → cap_in self.new number ≡ cap_in self.old number) }
        ensures err_labels { OnErr result ((number : ℕ) → label_in self.new number ≡ label_in self.old number) }
        ensures err_harts { OnErr result (harts_in self.new ≡ harts_in self.old) }
    {
        let current = self.current;
        if hart == current {
            return Ok(());
        }
        self.name(current)?;
        self.name(hart)?;
        self.keep(machine);
        self.restore(machine, hart);
        Ok(())
    }

    /// Makes a hart the current one, and counts a hart line: what the registers of the machine and the special registers hold is
    /// kept for the hart that was current, and what is kept for that one comes in its place. Memory is wanted only where the hart
    /// is named for the first time; without it nothing has changed.
    pub(crate) fn switch<M: TaggedStore>(
        &mut self,
        machine: &mut Machine<M>,
        hart: u16,
    ) -> Result<(), AllocError>
        requires few { (let harts = harts_in self.old in harts.lines) < 2 ^ 32 - 1 }
        ensures state { OnOk result ((key : ℕ) → run_state machine.new self.new key
            ≡ run_state machine.old self.old (came_from (let harts = harts_in self.old in harts.current) hart key)) }
        ensures owners { OnOk result ((key : ℕ) → run_owners machine.new self.new key
            ≡ run_owners machine.old self.old (came_from (let harts = harts_in self.old in harts.current) hart key)) }
        ensures harts { OnOk result (harts_in self.new ≡ harts_after (harts_in self.old) hart) }
        ensures rest { IsUnstepped machine.old machine.new }
        ensures err { OnErr result ((machine.new ≡ machine.old) × ((let harts = harts_in self.old in harts.is_named hart) ≡ false)) }
        ensures err_caps { OnErr result ((number : ℕ) → cap_in self.new number ≡ cap_in self.old number) }
        ensures err_labels { OnErr result ((number : ℕ) → label_in self.new number ≡ label_in self.old number) }
        ensures err_harts { OnErr result (harts_in self.new ≡ harts_in self.old) }
    {
        self.go(machine, hart)?;
        self.lines += 1;
        Ok(())
    }
}
