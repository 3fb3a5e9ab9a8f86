//! Entries in the order of their keys.

ghost use Rattle.std.specs.Prelude.{◌≡◌, ◌<◌, ◌≤◌, ◌++◌, length, take, drop, slice_index_or, IfOk, OnOk, OnErr};
ghost use Rattle.cap_objects.specs.declared.entries.Entry.{Entry as EntryIn};
ghost use Rattle.cap_objects.specs.{Blocks.{AreSorted, Each, Puts, Takes, find}, Indexes.{IsFirstFrom, IsLastAtOrBelow}};

use std::alloc::{AllocError, Global};

/// A key, and the slot that it leads to.
#[derive(Clone, Copy)]
pub(crate) struct Entry {
    pub(crate) key: u64,
    pub(crate) slot: u32,
}

/// Entries whose keys lie from a first one on.
#[derive(Drop)]
pub(crate) struct Block {
    pub(crate) first: u64,
    pub(crate) entries: Vec<Entry>,
}

// How many entries have keys at or below a number.
#[inline(always)]
fn count_to(entries: &[Entry], key: u64) -> usize
    requires { AreSorted entries.now }
    ensures within { result ≤ length entries.now }
    ensures low { Each (λ entry. entry.key ≤ key) (take result entries.now) }
    ensures high { Each (λ entry. key < entry.key) (drop result entries.now) }
{
    let mut low = 0;
    let mut high = entries.len();
    // Keys often come in order.
    if high > 0 && entries[high - 1].key <= key {
        return high;
    }
    'halves: loop {
        if low >= high {
            return low;
        }
        let middle = low + (high - low) / 2;
        if entries[middle].key <= key {
            low = middle + 1;
        } else {
            high = middle;
        }
    }
}

/// The entry with the last key at or below a number.
pub(crate) fn last_to(entries: &[Entry], key: u64) -> Option<(u64, u32)>
    requires { AreSorted entries.now }
    ensures { IsLastAtOrBelow (λ k. find k entries.now) key result }
{
    let count = count_to(entries, key);
    if count == 0 {
        return None;
    }
    let last = entries[count - 1];
    Some((last.key, last.slot))
}

/// The entry with the first key from a number on.
pub(crate) fn first_from(entries: &[Entry], key: u64) -> Option<(u64, u32)>
    requires { AreSorted entries.now }
    ensures { IsFirstFrom (λ k. find k entries.now) key result }
{
    let count = count_to(entries, key);
    if count > 0 {
        let last = entries[count - 1];
        if last.key == key {
            return Some((key, last.slot));
        }
    }
    if count == entries.len() {
        return None;
    }
    let next = entries[count];
    Some((next.key, next.slot))
}

/// Gives a key a slot. An error leaves the entries as they were.
#[inline(always)]
pub(crate) fn put(entries: &mut Vec<Entry>, key: u64, slot: u32) -> Result<(), AllocError>
    requires { AreSorted entries.old.items }
    ensures ok { OnOk result (Puts entries.old.items key slot entries.new.items) }
    ensures err { OnErr result (entries.new.items ≡ entries.old.items) }
{
    let count = count_to(entries, key);
    if count > 0 && entries[count - 1].key == key {
        entries[count - 1] = Entry { key, slot };
        return Ok(());
    }
    if count == entries.len() {
        return match entries.push(Entry { key, slot }) {
            Ok(()) => Ok(()),
            Err(_) => Err(AllocError),
        };
    }
    match entries.insert(count, Entry { key, slot }) {
        Ok(()) => Ok(()),
        Err(_) => Err(AllocError),
    }
}

/// Removes the entry of a key, if there is one.
pub(crate) fn take_out(entries: &mut Vec<Entry>, key: u64)
    requires { AreSorted entries.old.items }
    ensures { Takes entries.old.items key entries.new.items }
{
    let count = count_to(entries, key);
    if count > 0 && entries[count - 1].key == key {
        entries.remove(count - 1);
    }
}

/// A block of the entries of another one from a place on.
pub(crate) fn upper_part(block: &Block, place: usize, alloc: Global) -> Result<Block, AllocError>
    requires { place < length block.now.entries.items }
    ensures first { IfOk result (λ upper. (e : EntryIn) → upper.first ≡ (slice_index_or block.now.entries.items place e).key) }
    ensures rest { IfOk result (λ upper. upper.entries.items ≡ drop place block.now.entries.items) }
{
    let mut entries = match Vec::with_capacity(alloc, block.entries.len()) {
        Ok(entries) => entries,
        Err(error) => return Err(error),
    };
    let first = block.entries[place].key;
    if entries.extend_from_slice(&block.entries[place..]).is_err() {
        return Err(AllocError);
    }
    Ok(Block { first, entries })
}

/// The entries of two blocks.
pub(crate) fn both_parts(
    lower: &Block,
    upper: &Block,
    alloc: Global,
) -> Result<Vec<Entry>, AllocError>
    ensures { IfOk result (λ both. both.items ≡ lower.now.entries.items ++ upper.now.entries.items) }
{
    let mut entries = Vec::new(alloc);
    if entries.extend_from_slice(&lower.entries).is_err() {
        return Err(AllocError);
    }
    if entries.extend_from_slice(&upper.entries).is_err() {
        return Err(AllocError);
    }
    Ok(entries)
}
