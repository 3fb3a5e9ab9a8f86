//! An index: slots by keys, in the order of the keys.
//!
//! A search halves the blocks, and then the entries of one. A new key moves the later entries of its block; only a block that is
//! split or joined moves the later blocks.

ghost use Rattle.std.specs.Prelude.{◌≡◌, ◌<◌, ◌≤◌, ◌+◌, ℕ, Some, None, length, take, drop, OnOk, OnErr};
ghost use Rattle.cap_objects.specs.{Blocks.{AreBlocks, AreBlocks-prop, Each}, Indexes.{Drops, IsFirstFrom, IsLastAtOrBelow, Rekeys}};

use crate::entries::{Block, both_parts, first_from, last_to, put, take_out, upper_part};
use std::alloc::{AllocError, Global};

// How many entries a block has at most, while there are few blocks.
const MOST: usize = 128;

// Where there are more blocks than this for each entry of a block, a block has more entries.
const BLOCKS: usize = 8;

// How many entries must have left a block before it is joined to a neighbour.
const STEP: usize = 16;

/// Slots by keys. The entries lie in blocks, each of which has some of the keys from its first one on.
#[derive(Drop)]
pub(crate) struct Index {
    blocks: Vec<Block>,
    alloc: Global,
    ghost ordered: { AreBlocks blocks.items } by { AreBlocks-prop blocks.items },
}

impl Index {
    ghost use Rattle.cap_objects.specs.IndexIn.{at};

    /// No keys. It takes no memory.
    pub(crate) fn new(alloc: Global) -> Index
        ensures { (key : ℕ) → at result key ≡ None }
    {
        Index {
            blocks: Vec::new(alloc),
            alloc,
        }
    }

    // How many blocks begin at or below a number.
    #[inline(always)]
    fn count_to(&self, key: u64) -> usize
        ensures within { result ≤ length self.now.blocks.items }
        ensures low { Each (λ block. block.first ≤ key) (take result self.now.blocks.items) }
        ensures high { Each (λ block. key < block.first) (drop result self.now.blocks.items) }
    {
        let mut low = 0;
        let mut high = self.blocks.len();
        if high > 0 && self.blocks[high - 1].first <= key {
            return high;
        }
        'halves: loop {
            if low >= high {
                return low;
            }
            let middle = low + (high - low) / 2;
            if self.blocks[middle].first <= key {
                low = middle + 1;
            } else {
                high = middle;
            }
        }
    }

    /// The entry with the last key at or below a number.
    pub(crate) fn last_to(&self, key: u64) -> Option<(u64, u32)>
        ensures { IsLastAtOrBelow (at self.now) key result }
    {
        let mut count = self.count_to(key);
        'down: loop {
            if count == 0 {
                return None;
            }
            count -= 1;
            if let Some(entry) = last_to(&self.blocks[count].entries, key) {
                return Some(entry);
            }
        }
    }

    /// The entry with the first key from a number on.
    pub(crate) fn first_from(&self, key: u64) -> Option<(u64, u32)>
        ensures { IsFirstFrom (at self.now) key result }
    {
        let mut place = self.count_to(key).saturating_sub(1);
        'up: loop {
            if place >= self.blocks.len() {
                return None;
            }
            if let Some(entry) = first_from(&self.blocks[place].entries, key) {
                return Some(entry);
            }
            place += 1;
        }
    }

    /// The slot of a key.
    pub(crate) fn get(&self, key: u64) -> Option<u32>
        ensures { result ≡ at self.now key }
    {
        match self.last_to(key) {
            Some((last, slot)) if last == key => Some(slot),
            _ => None,
        }
    }

    /// Gives a key a slot. An error leaves the index as it was.
    pub(crate) fn insert(&mut self, key: u64, slot: u32) -> Result<(), AllocError>
        ensures ok { OnOk result (Rekeys (at self.old) slot None (Some key) (at self.new)) }
        ensures err { OnErr result ((k : ℕ) → at self.new k ≡ at self.old k) }
    {
        let count = self.count_to(key);
        let most = MOST.max(self.blocks.len() / BLOCKS);
        if count > 0 && self.blocks[count - 1].entries.len() < most {
            return self.put_within(count, key, slot);
        }
        if self.make_room(count).is_err() {
            return Err(AllocError);
        }
        let count = self.count_to(key);
        self.put_within(count, key, slot)
    }

    // Gives a key a slot in the last of so many blocks, which is its own.
    #[inline(always)]
    fn put_within(&mut self, count: usize, key: u64, slot: u32) -> Result<(), AllocError>
        requires some { 0 < count }
        requires within { count ≤ length self.old.blocks.items }
        requires low { Each (λ block. block.first ≤ key) (take count self.old.blocks.items) }
        requires high { Each (λ block. key < block.first) (drop count self.old.blocks.items) }
        ensures ok { OnOk result (Rekeys (at self.old) slot None (Some key) (at self.new)) }
        ensures err { OnErr result ((k : ℕ) → at self.new k ≡ at self.old k) }
    {
        put(&mut self.blocks[count - 1].entries, key, slot)
    }

    // Splits the last of so many blocks, or begins the first one. An error leaves the index as it was.
    #[cold]
    #[inline(never)]
    fn make_room(&mut self, count: usize) -> Result<(), AllocError>
        requires within { count ≤ length self.old.blocks.items }
        ensures same { (k : ℕ) → at self.new k ≡ at self.old k }
        ensures begins { OnOk result ((key : ℕ) → Each (λ block. block.first ≤ key) (take count self.old.blocks.items)
            → Each (λ block. key < block.first) self.new.blocks.items → ⊥) }
    {
        if count == 0 {
            return self.begin();
        }
        self.split(count - 1)
    }

    // Begins a block of all keys below the other ones.
    fn begin(&mut self) -> Result<(), AllocError>
        ensures same { (k : ℕ) → at self.new k ≡ at self.old k }
        ensures begins { OnOk result ((key : ℕ) → Each (λ block. key < block.first) self.new.blocks.items → ⊥) }
    {
        let block = Block {
            first: 0,
            entries: Vec::new(self.alloc),
        };
        match self.blocks.insert(0, block) {
            Ok(()) => Ok(()),
            Err(_) => Err(AllocError),
        }
    }

    // Splits a block: in halves, or the last one before its last entry, since keys often come in order.
    fn split(&mut self, place: usize) -> Result<(), AllocError>
        requires within { place < length self.old.blocks.items }
        ensures same { (k : ℕ) → at self.new k ≡ at self.old k }
        ensures begins { OnOk result ((key : ℕ) → Each (λ block. block.first ≤ key) (take (place + 1) self.old.blocks.items)
            → Each (λ block. key < block.first) self.new.blocks.items → ⊥) }
    {
        let count = self.blocks[place].entries.len();
        if count == 0 {
            return Ok(());
        }
        let half = if place + 1 < self.blocks.len() {
            count / 2
        } else {
            count - 1
        };
        let upper = match upper_part(&self.blocks[place], half, self.alloc) {
            Ok(upper) => upper,
            Err(error) => return Err(error),
        };
        if self.blocks.insert(place + 1, upper).is_err() {
            return Err(AllocError);
        }
        self.blocks[place].entries.truncate(half);
        Ok(())
    }

    /// Removes a key, if it has a slot.
    pub(crate) fn remove(&mut self, key: u64)
        ensures { Drops (at self.old) (Some key) (at self.new) }
    {
        let count = self.count_to(key);
        if count == 0 {
            return;
        }
        take_out(&mut self.blocks[count - 1].entries, key);
        if self.blocks[count - 1].entries.len() % STEP == 0 {
            self.join_around(count - 1);
        }
    }

    // Joins a block to its neighbours, where they have few entries.
    #[cold]
    #[inline(never)]
    fn join_around(&mut self, place: usize)
        ensures { (k : ℕ) → at self.new k ≡ at self.old k }
    {
        self.join(place);
        if place > 0 {
            self.join(place - 1);
        }
    }

    // Joins a block and the next one, if they have few entries and there is memory.
    fn join(&mut self, place: usize)
        ensures { (k : ℕ) → at self.new k ≡ at self.old k }
    {
        if place >= self.blocks.len() || place + 1 >= self.blocks.len() {
            return;
        }
        let most = MOST.max(self.blocks.len() / BLOCKS);
        let lower = self.blocks[place].entries.len();
        if lower.saturating_add(self.blocks[place + 1].entries.len()) > most / 4 * 3 {
            return;
        }
        let Ok(entries) = both_parts(&self.blocks[place], &self.blocks[place + 1], self.alloc)
        else {
            return;
        };
        self.blocks[place].entries = entries;
        self.blocks.remove(place + 1);
    }
}
