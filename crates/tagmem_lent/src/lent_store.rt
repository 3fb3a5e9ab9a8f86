//! A store in memory that is lent to it.
ghost use Rattle.std.specs.Prelude.{◌≡◌, ◌^◌, ◌<◌, ◌*◌, ◌+◌, ◌-◌, ◌≤◌, length, take, None, IsErr, ◌↔◌, OnOk, OnErr};
ghost use Rattle.std.specs.{Prelude.{IfOk, IfErr, IfSome, if◌then◌else◌, IsPermutation}, List.Sorted.IsNonDecreasingBy};
ghost use Rattle.std.specs.FinMap as map;
ghost use Rattle.tagmem.specs.Granules.{with_bytes, with_cap, with_write, HasRoom, IsCodeFor, IsStored};
ghost use Rattle.tagmem.{specs.Listed.{IsEntryAt, contents_of, entry_of}, proofs.ListLaws.AreStored-contents_of};
ghost use Rattle.tagmem_lent.specs.Lent.{AreRuns, IsGapIn, IsLastAtMost, IsLesser, IsNextIn, IsUnused, entries_of};
ghost use Rattle.tagmem_lent.specs.{Lent.{listed_of, part, run_end}, LentLaws.few_entries};

use tagmem::{NoMemory, TaggedStore, overwrite};

/// Memory for one granule, that is lent to a `LentStore`: 32 bytes, from C too.
#[repr(C)]
#[derive(Clone, Copy)]
pub struct Slot {
    granule: u64,
    // 0 just where it has no tag.
    code: u64,
    bytes: [u8; 16],
}

impl Slot {
    /// A slot of which nothing was kept yet. It doesn't matter what slots hold when they are lent.
    pub const EMPTY: Slot = Slot {
        granule: 0,
        code: 0,
        bytes: [0; 16],
    };
}

/// A store that keeps its entries in lent slots, and never allocates. Putting a new granule fails with `NoMemory`
/// if and only if all slots are in use.
///
/// The slots in use form sorted runs, one for each digit of their number in base 16; a run has as many slots as its
/// digit is worth. A new slot is merged with the runs that its carry joins. So a granule is found by a search in
/// each run, and in total each slot is moved about 8 times per digit, in whatever order granules come.
#[derive(Drop)]
pub struct LentStore<'a> {
    slots: &'a mut [Slot],
    used: usize,
    ghost fits: { used ≤ length slots.now },
    ghost counted: { used < 2 ^ 32 },
    ghost runs: { AreRuns (entries_of used slots.now) },
}

impl<'a> LentStore<'a> {
    ghost use Rattle.tagmem_lent.specs.LentStores.{capacity_of, in_use};

    /// An empty store over slots.
    pub fn new(slots: &'a mut [Slot]) -> LentStore<'a>
        ensures empty { ⟦<LentStore<'a> as TaggedStore>⟧.contents result ≡ map.empty }
        ensures capacity { capacity_of result ≡ length slots.old }
    {
        LentStore { slots, used: 0 }
    }

    // Where a granule stands in the run of a digit of the number of slots in use, or where it would.
    fn search(&self, level: u32, granule: u64) -> Result<usize, usize>
        requires few { level < 8 }
        ensures found { IfOk result (IsEntryAt (in_use self.now) granule) }
        ensures absent { IfErr result (IsGapIn (in_use self.now) (run_end self.now.used (level + 1)) (run_end self.now.used level) granule) }
    {
        let (start, end) = run(self.used, level);
        if start == end {
            return Err(start);
        }
        let index = start + last_at_most(&self.slots[start..end], granule);
        let found = self.slots[index].granule;
        if found == granule {
            Ok(index)
        } else {
            Err(index + (found < granule) as usize)
        }
    }

    // The index of a granule's slot. The run of the highest digit, which has half of the slots or more, comes first.
    fn index_of(&self, granule: u64) -> Option<usize>
        ensures found { IfSome result (IsEntryAt (in_use self.now) granule) }
        ensures absent { result ≡ None → IsUnused (in_use self.now) granule }
    {
        let mut level = levels(self.used);
        while level > 0 {
            level -= 1;
            if let Ok(index) = self.search(level, granule) {
                return Some(index);
            }
        }
        None
    }

    // The least granule at or above a number in the run of a digit.
    fn next_in_run(&self, level: u32, granule: u64) -> Option<u64>
        requires few { level < 8 }
        ensures least { IsNextIn (in_use self.now) (run_end self.now.used (level + 1)) (run_end self.now.used level) granule result }
    {
        match self.search(level, granule) {
            Ok(_) => Some(granule),
            Err(index) => {
                if index == run(self.used, level).1 {
                    None
                } else {
                    Some(self.slots[index].granule)
                }
            }
        }
    }

    // Puts a slot at the index of its granule's own.
    fn replace(&mut self, index: usize, slot: Slot)
        requires stored { IsStored slot.granule (entry_of (listed_of slot)) }
        requires found { IsEntryAt (in_use self.old) slot.granule index }
        ensures capacity { capacity_of self.new ≡ capacity_of self.old }
        ensures contents { contents_of (in_use self.new)
            ≡ map.insert (contents_of (in_use self.old)) slot.granule (entry_of (listed_of slot)) }
    {
        self.slots[index] = slot;
    }

    // Puts a slot of a granule that has none after the others, and sorts the run that ends there now.
    fn add(&mut self, slot: Slot) -> Result<(), NoMemory>
        requires stored { IsStored slot.granule (entry_of (listed_of slot)) }
        requires absent { IsUnused (in_use self.old) slot.granule }
        requires room { self.old.used < 4294967295 }
        ensures capacity { capacity_of self.new ≡ capacity_of self.old }
        ensures ok { OnOk result (contents_of (in_use self.new)
            ≡ map.insert (contents_of (in_use self.old)) slot.granule (entry_of (listed_of slot))) }
        ensures err { OnErr result (in_use self.new ≡ in_use self.old) }
        ensures full { IsErr result ↔ (length (in_use self.old) ≡ capacity_of self.old) }
    {
        if self.used == self.slots.len() {
            return Err(NoMemory);
        }
        append(self.slots, self.used, slot);
        self.used += 1;
        Ok(())
    }

    // Writes bytes inside a granule from a byte index on, over zeros where it was never put, and sets
    // its code.
    fn put(
        &mut self,
        granule: u64,
        tag: bool,
        byte_index: u8,
        bytes: &[u8],
        code: u64,
    ) -> Result<(), NoMemory>
        requires in_memory { granule < 2 ^ 60 }
        requires coded { IsCodeFor tag code }
        requires inside { byte_index + length bytes.now ≤ 16 }
        requires room { HasRoom (contents_of (in_use self.old)) granule }
        ensures capacity { capacity_of self.new ≡ capacity_of self.old }
        ensures ok { OnOk result (contents_of (in_use self.new)
            ≡ with_write (contents_of (in_use self.old)) granule tag byte_index bytes.now code) }
        ensures err { OnErr result (in_use self.new ≡ in_use self.old) }
        ensures only_new { OnErr result (map.get (contents_of (in_use self.old)) granule ≡ None) }
        ensures full { IsErr result ↔ ((map.get (contents_of (in_use self.old)) granule ≡ None)
            × (map.len (contents_of (in_use self.old)) ≡ capacity_of self.old)) }
    {
        match self.index_of(granule) {
            Some(index) => {
                let mut written = self.slots[index].bytes;
                overwrite(&mut written, byte_index, bytes);
                let slot = Slot {
                    granule,
                    code,
                    bytes: written,
                };
                self.replace(index, slot);
                Ok(())
            }
            None => {
                let mut written = [0; 16];
                overwrite(&mut written, byte_index, bytes);
                let slot = Slot {
                    granule,
                    code,
                    bytes: written,
                };
                self.add(slot)
            }
        }
    }
}

impl<'a> TaggedStore for LentStore<'a> {
    ghost use Rattle.tagmem_lent.specs.LentStores.{capacity_of, in_use};

    ghost contents = { λ s. contents_of (in_use s) };

    ghost least_room = { capacity_of };

    ghost are_stored = { λ s. AreStored-contents_of (in_use s) s.runs.stored };

    ghost count_fits = { λ s. few_entries s.used s.slots.now s.runs.apart s.counted };

    fn get(&self, granule: u64) -> Option<(bool, [u8; 16])> {
        match self.index_of(granule) {
            Some(index) => {
                let slot = self.slots[index];
                let bytes = slot.bytes;
                Some((slot.code != 0, bytes))
            }
            None => None,
        }
    }

    fn code(&self, granule: u64) -> u64 {
        match self.index_of(granule) {
            Some(index) => self.slots[index].code,
            None => 0,
        }
    }

    fn next_put(&self, granule: u64) -> Option<u64> {
        let mut least = None;
        let mut level = levels(self.used);
        while level > 0 {
            level -= 1;
            least = lesser(least, self.next_in_run(level, granule));
        }
        least
    }

    fn put_cap(
        &mut self,
        granule: u64,
        tag: bool,
        bytes: [u8; 16],
        code: u64,
    ) -> Result<(), NoMemory>
        requires in_memory { granule < 2 ^ 60 }
        requires coded { IsCodeFor tag code }
        requires room { HasRoom (contents_of (in_use self.old)) granule }
        ensures ok { OnOk result (contents_of (in_use self.new) ≡ with_cap (contents_of (in_use self.old)) granule tag bytes code) }
        ensures err { OnErr result (contents_of (in_use self.new) ≡ contents_of (in_use self.old)) }
        ensures only_new { OnErr result (map.get (contents_of (in_use self.old)) granule ≡ None) }
        ensures full { IsErr result ↔ ((map.get (contents_of (in_use self.old)) granule ≡ None)
            × (map.len (contents_of (in_use self.old)) ≡ capacity_of self.old)) }
        ensures no_room { OnErr result (capacity_of self.old ≤ map.len (contents_of (in_use self.old))) }
        ensures same_room { capacity_of self.new ≡ capacity_of self.old }
    {
        self.put(granule, tag, 0, &bytes, code)
    }

    fn put_bytes(&mut self, granule: u64, byte_index: u8, bytes: &[u8]) -> Result<(), NoMemory>
        requires in_memory { granule < 2 ^ 60 }
        requires some { 0 < length bytes.now }
        requires inside { byte_index + length bytes.now ≤ 16 }
        requires room { HasRoom (contents_of (in_use self.old)) granule }
        ensures ok { OnOk result (contents_of (in_use self.new) ≡ with_bytes (contents_of (in_use self.old)) granule byte_index bytes.now) }
        ensures err { OnErr result (contents_of (in_use self.new) ≡ contents_of (in_use self.old)) }
        ensures only_new { OnErr result (map.get (contents_of (in_use self.old)) granule ≡ None) }
        ensures full { IsErr result ↔ ((map.get (contents_of (in_use self.old)) granule ≡ None)
            × (map.len (contents_of (in_use self.old)) ≡ capacity_of self.old)) }
        ensures no_room { OnErr result (capacity_of self.old ≤ map.len (contents_of (in_use self.old))) }
        ensures same_room { capacity_of self.new ≡ capacity_of self.old }
    {
        self.put(granule, false, byte_index, bytes, 0)
    }

    fn count(&self) -> u32 {
        self.used as u32
    }
}

// Where the last granule is that isn't above a number, or the first one. No processor can foretell in which quarter of
// the slots that is, so the quarters are counted, without a branch.
fn last_at_most(run: &[Slot], granule: u64) -> usize
    requires some { 0 < length run.now }
    requires fits { length run.now < 2 ^ 32 }
    requires rises { IsNonDecreasingBy (λ slot. slot.granule) run.now }
    ensures { IsLastAtMost run.now granule result }
{
    // The windows of 2^turns slots at both ends cover the run.
    let mut turns = 63 - run.len().leading_zeros();
    let last = run.len() - (1 << turns);
    let mut start = if run[last].granule <= granule {
        last
    } else {
        0
    };
    while turns > 1 {
        turns -= 2;
        let quarter = 1 << turns;
        let second = run[start + quarter].granule <= granule;
        let third = run[start + 2 * quarter].granule <= granule;
        let fourth = run[start + 3 * quarter].granule <= granule;
        start += (second as usize + third as usize + fourth as usize) << turns;
    }
    if turns == 1 && run[start + 1].granule <= granule {
        start += 1;
    }
    start
}

// Puts a slot of a granule that has none after those in use, and sorts the run that ends there now.
fn append(slots: &mut [Slot], used: usize, slot: Slot)
    requires free { used < length slots.old }
    requires few { used < 4294967295 }
    requires runs { AreRuns (entries_of used slots.old) }
    requires absent { IsUnused (entries_of used slots.old) slot.granule }
    requires stored { IsStored slot.granule (entry_of (listed_of slot)) }
    ensures len { length slots.new ≡ length slots.old }
    ensures runs { AreRuns (entries_of (used + 1) slots.new) }
    ensures contents { contents_of (entries_of (used + 1) slots.new)
        ≡ map.insert (contents_of (entries_of used slots.old)) slot.granule (entry_of (listed_of slot)) }
{
    slots[used] = slot;
    let end = used + 1;
    let mut start = used;
    for level in 0..lowest_level(end) + 1 {
        let from = run(used, level).0;
        merge(&mut slots[from..], start - from, end - from);
        start = from;
    }
}

// Makes one run of the two at the front of slots. The slots after them are overwritten.
fn merge(slots: &mut [Slot], middle: usize, end: usize)
    requires ordered { middle ≤ end }
    requires inside { end ≤ length slots.old }
    requires left { IsNonDecreasingBy (λ slot. slot.granule) (take middle slots.old) }
    requires right { IsNonDecreasingBy (λ slot. slot.granule) (part middle end slots.old) }
    ensures len { length slots.new ≡ length slots.old }
    ensures permuted { IsPermutation (take end slots.old) (take end slots.new) }
    ensures rises { IsNonDecreasingBy (λ slot. slot.granule) (take end slots.new) }
{
    if slots.len() - end < end - middle {
        slots[..end].sort_unstable_by_key(|slot| slot.granule);
    } else {
        merge_down(slots, middle, end);
    }
}

// Merges two runs from their ends on. The second goes after them first, so that the place of the next slot is free.
fn merge_down(slots: &mut [Slot], middle: usize, end: usize)
    requires ordered { middle ≤ end }
    requires room { end + (end - middle) ≤ length slots.old }
    requires left { IsNonDecreasingBy (λ slot. slot.granule) (take middle slots.old) }
    requires right { IsNonDecreasingBy (λ slot. slot.granule) (part middle end slots.old) }
    ensures len { length slots.new ≡ length slots.old }
    ensures permuted { IsPermutation (take end slots.old) (take end slots.new) }
    ensures rises { IsNonDecreasingBy (λ slot. slot.granule) (take end slots.new) }
{
    slots.copy_within(middle..end, end);
    let mut left = middle;
    let mut right = end - middle;
    while left > 0 && right > 0 {
        let is_left = slots[end + right - 1].granule < slots[left - 1].granule;
        slots[left + right - 1] = slots[pick(is_left, left - 1, end + right - 1)];
        left -= is_left as usize;
        right -= !is_left as usize;
    }
    slots.copy_within(end..end + right, left);
}

// One of two indexes, without a branch.
fn pick(is_first: bool, first: usize, second: usize) -> usize
    ensures { result ≡ (if is_first then first else second) }
{
    if is_first { first } else { second }
}

// The lowest digit of a number that isn't 0: all runs up to it end where the number does, and its own is not empty.
fn lowest_level(number: usize) -> u32
    requires some { 0 < number }
    requires fits { number < 2 ^ 60 }
    ensures ends { run_end number result ≡ number }
    ensures begins { run_end number (result + 1) < number }
    ensures few { result < 15 }
{
    number.trailing_zeros() / 4
}

// How many digits a number has in base 16.
fn levels(number: usize) -> u32
    requires fits { number < 2 ^ 32 }
    ensures above { number < 2 ^ (4 * result) }
    ensures few { result ≤ 8 }
{
    (67 - number.leading_zeros()) / 4
}

// Where the run of a digit of a number begins, and where it ends.
fn run(number: usize, level: u32) -> (usize, usize)
    requires few { level < 15 }
    ensures from { result.0 ≡ run_end number (level + 1) }
    ensures to { result.1 ≡ run_end number level }
    ensures ordered { result.0 ≤ result.1 }
    ensures inside { result.1 ≤ number }
{
    let low = 4 * level;
    let high = 4 * (level + 1);
    (number >> high << high, number >> low << low)
}

// The lesser of two numbers that may be missing.
fn lesser(one: Option<u64>, other: Option<u64>) -> Option<u64>
    ensures { IsLesser one other result }
{
    match (one, other) {
        (Some(a), Some(b)) => Some(a.min(b)),
        (None, found) | (found, None) => found,
    }
}
