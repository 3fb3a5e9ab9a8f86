//! Registers that are kept apart from a machine.

ghost use Rattle.std.specs.Prelude.{◌≡◌, ◌≤◌, ◌<◌, ℕ, true, false, length};
ghost use Rattle.cap_machine.specs.{Parents.IsSoundCap, Places.IsCoded, States.{put, untagged_null}};
ghost use Rattle.cap_machine.specs.RegisterCaps.{cap_by, label_by};

use crate::machine::overwrite;
use cap_word::{Cap, null};

/// 32 registers, which hold NULL without a tag at first. The word of each tagged capability that they hold is sound, and each
/// has a label, which is 0 exactly where it has no tag.
#[derive(Drop)]
pub struct Registers {
    pub(crate) caps: [Cap; 32],
    pub(crate) labels: [u64; 32],
    ghost sized: { (length caps ≡ 32) × (length labels ≡ 32) },
    ghost sound: { (number : ℕ) → IsSoundCap (cap_by caps number) },
    ghost coded: { (number : ℕ) → number < 32 → let cap = cap_by caps number in IsCoded cap.tag (label_by labels number) },
}

impl Registers {
    ghost use Rattle.cap_machine.specs.Registers.{cap_in, label_in};

    /// NULL without a tag in each.
    pub fn new() -> Registers
        ensures caps { (number : ℕ) → cap_in result number ≡ untagged_null }
        ensures labels { (number : ℕ) → label_in result number ≡ 0 }
    {
        let nothing = Cap {
            tag: false,
            word: null(),
        };
        Registers {
            caps: [nothing; 32],
            labels: [0; 32],
        }
    }

    /// What a register holds.
    #[inline(always)]
    pub fn cap(&self, number: u8) -> Cap
        requires { number ≤ 31 }
        ensures value { result ≡ cap_in self.now number }
        ensures sound { IsSoundCap result }
    {
        self.caps[number as usize]
    }

    /// The label of what a register holds.
    #[inline(always)]
    pub fn label(&self, number: u8) -> u64
        requires { number ≤ 31 }
        ensures value { result ≡ label_in self.now number }
        ensures coded { let cap = cap_in self.now number in IsCoded cap.tag result }
    {
        self.labels[number as usize]
    }

    /// Puts a capability with a label into a register.
    #[inline(always)]
    pub fn put(&mut self, number: u8, cap: Cap, label: u64)
        requires range { number ≤ 31 }
        requires sound { IsSoundCap cap }
        requires coded { IsCoded cap.tag label }
        ensures caps { cap_in self.new ≡ put (cap_in self.old) number cap }
        ensures labels { label_in self.new ≡ put (label_in self.old) number label }
    {
        overwrite(&mut self.caps[number as usize], cap);
        self.labels[number as usize] = label;
    }

    /// What other registers hold, with its labels.
    pub fn copy(&mut self, from: &Registers)
        ensures held { self.new ≡ from.now }
    {
        self.set(&from.caps, &from.labels);
    }

    // These capabilities, with these labels.
    pub(crate) fn set(&mut self, caps: &[Cap; 32], labels: &[u64; 32])
        requires sound { (number : ℕ) → IsSoundCap (cap_by caps.now number) }
        requires coded { (number : ℕ) → number < 32 → let cap = cap_by caps.now number in IsCoded cap.tag (label_by labels.now number) }
        ensures caps { self.new.caps ≡ caps.now }
        ensures labels { self.new.labels ≡ labels.now }
    {
        self.caps = *caps;
        self.labels = *labels;
    }
}
