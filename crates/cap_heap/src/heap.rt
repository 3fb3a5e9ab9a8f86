//! A heap: the objects of an allocator that live.

ghost use Rattle.std.specs.Prelude.{◌≡◌, ◌<◌, ◌+◌, ℕ, true, false, Some, None, IfErr, IfNone, OnOk, OnErr, IsSome};
ghost use Rattle.std.specs.{Prelude.{MatchBool, MatchOption, [], ◌∷◌}, Ordering.nat_cmp};
ghost use Rattle.std.specs.BTreeMap as tree;
ghost use Rattle.std.specs.BTreeSet as set;
ghost use Rattle.cap_bounds.specs.Rounding.{rounded_base, rounded_top};
ghost use Rattle.cap_heap.specs.declared.events.{Event.TheVariants.{Malloc, Free}, EventEnd.TheVariants.NoMemory};
ghost use Rattle.cap_heap.specs.Events.{CanHappen, HasRoom, IsEndOf, RefusesEvent, after_event, frees, mallocs};
ghost use Rattle.cap_heap.specs.{Kept.kept, Objects.{IsApart, LieApart, Shares, no_objects}};

use crate::events::{Event, EventEnd};
use crate::neighbours::{first_from, last_below, reaching_down, reaching_up};
use crate::refusal::HeapRefusal;
use cap_bounds::{Interval, Rounded, round};
use std::alloc::Global;
use std::collections::{BTreeMap, BTreeSet};

/// The live objects of an allocator, whose rounded bounds lie apart from one another and inside the heap's.
#[derive(Drop)]
pub struct Heap {
    bounds: Interval,
    // The length of each object of a byte or more, by its address.
    lengths: BTreeMap<u64, u64>,
    // The addresses of the others, whose bounds have no address.
    empty: BTreeSet<u64>,
    // If it is true, no object's rounded bounds begin below its address.
    straight: bool,
    ghost apart: { IsApart bounds (kept lengths empty) },
    ghost long: { (address length : ℕ) → tree.get nat_cmp lengths address ≡ Some length → 0 < length },
    ghost once: { (address length : ℕ) → tree.get nat_cmp lengths address ≡ Some length → set.contains nat_cmp empty address ≡ false },
    ghost begins: { straight ≡ true → (address length : ℕ) → tree.get nat_cmp lengths address ≡ Some length → rounded_base address length ≡ address },
}

impl Heap {
    ghost use Rattle.cap_heap.specs.Heaps.{live_in, objects_in};

    /// A heap of no objects, which lie inside these bounds. It takes no memory.
    pub fn new(alloc: Global, bounds: Interval) -> Heap
        ensures bounds { result.bounds ≡ bounds }
        ensures objects { objects_in result ≡ no_objects }
        ensures count { live_in result ≡ 0 }
    {
        Heap {
            bounds,
            lengths: BTreeMap::new(alloc),
            empty: BTreeSet::new(alloc),
            straight: true,
        }
    }

    /// The bounds inside which objects lie.
    pub fn bounds(&self) -> Interval
        ensures value { result ≡ self.now.bounds }
    {
        self.bounds
    }

    /// How many objects live.
    pub fn live(&self) -> usize
        ensures count { result ≡ live_in self.now }
    {
        self.lengths.len() + self.empty.len()
    }

    /// An event happens, or it can't and nothing changes.
    pub fn happen(&mut self, event: Event) -> Result<(), EventEnd>
        ensures can { OnOk result (CanHappen self.old.bounds (objects_in self.old) event) }
        ensures ok { OnOk result (objects_in self.new ≡ after_event (objects_in self.old) event) }
        ensures count { OnOk result (live_in self.new + frees (event ∷ []) ≡ live_in self.old + mallocs (event ∷ [])) }
        ensures end { IfErr result (IsEndOf self.old.bounds (objects_in self.old) event) }
        ensures err { OnErr result (objects_in self.new ≡ objects_in self.old) }
        ensures err_count { OnErr result (live_in self.new ≡ live_in self.old) }
        ensures bounds { self.new.bounds ≡ self.old.bounds }
    {
        match event {
            Event::Malloc { address, length } => self.malloc(address, length),
            Event::Free { address } => self.free(address),
        }
    }

    /// A live object and its length, whose rounded bounds have an address in common with those of a request, or `None`
    /// if no object's have.
    pub fn overlapped(&self, address: u64, length: u64) -> Option<(u64, u64)>
        ensures shared { MatchOption result
            ((other size : ℕ) → objects_in self.now other ≡ Some size → LieApart address length other size)
            (λ entry. Shares rounded_base rounded_top (objects_in self.now) address length entry.0 entry.1) }
    {
        self.reaching(address, length, round(address, length))
    }

    // The same, if the rounded bounds of the request are these. The last object that begins below their top tells of
    // all, except one that begins above and whose bounds begin below its address.
    fn reaching(&self, address: u64, length: u64, rounded: Rounded) -> Option<(u64, u64)>
        requires base { rounded.base ≡ rounded_base address length }
        requires top { rounded.top ≡ rounded_top address length }
        ensures { MatchOption result
            ((other size : ℕ) → objects_in self.now other ≡ Some size → LieApart address length other size)
            (λ entry. Shares rounded_base rounded_top (objects_in self.now) address length entry.0 entry.1) }
    {
        if length == 0 {
            return None;
        }
        match reaching_up(last_below(&self.lengths, rounded.top), rounded.base) {
            Some(entry) => Some(entry),
            None => {
                if self.straight {
                    None
                } else {
                    reaching_down(first_from(&self.lengths, address), rounded.top)
                }
            }
        }
    }

    // Whether an object lives at an address, if the rounded bounds of a request there reach those of this object,
    // or of none.
    fn is_taken(&self, address: u64, length: u64, overlapped: Option<(u64, u64)>) -> bool
        requires { IfNone overlapped ((other size : ℕ) → objects_in self.now other ≡ Some size → LieApart address length other size) }
        ensures { MatchBool result (IsSome (objects_in self.now address)) (objects_in self.now address ≡ None) }
    {
        if length > 0 && overlapped.is_none() {
            return self.empty.contains(&address);
        }
        self.lengths.contains_key(&address) || self.empty.contains(&address)
    }

    // The first check of a request that fails, or `None` if it can be met; its rounded bounds are these.
    fn refusal(&self, address: u64, length: u64, rounded: Rounded) -> Option<HeapRefusal>
        requires base { rounded.base ≡ rounded_base address length }
        requires top { rounded.top ≡ rounded_top address length }
        ensures { MatchOption result (HasRoom self.now.bounds (objects_in self.now) address length)
            (RefusesEvent self.now.bounds (objects_in self.now) (Malloc address length)) }
    {
        let overlapped = self.reaching(address, length, rounded);
        if self.is_taken(address, length, overlapped) {
            return Some(HeapRefusal::AddressTaken);
        }
        if !self.bounds.contains(rounded.base, rounded.top) {
            return Some(HeapRefusal::OutsideHeap);
        }
        match overlapped {
            Some(_) => Some(HeapRefusal::Overlaps),
            None => None,
        }
    }

    // An object of no bytes is allocated if there is room for it.
    fn keep_empty(&mut self, address: u64) -> Result<(), EventEnd>
        requires { HasRoom self.old.bounds (objects_in self.old) address 0 }
        ensures ok { OnOk result ((other : ℕ) → objects_in self.new other ≡ after_event (objects_in self.old) (Malloc address 0) other) }
        ensures count { OnOk result (live_in self.new ≡ live_in self.old + 1) }
        ensures end { IfErr result (λ end. end ≡ NoMemory) }
        ensures err { OnErr result ((other : ℕ) → objects_in self.new other ≡ objects_in self.old other) }
        ensures err_count { OnErr result (live_in self.new ≡ live_in self.old) }
        ensures bounds { self.new.bounds ≡ self.old.bounds }
    {
        match self.empty.insert(address) {
            Ok(_) => Ok(()),
            Err(_) => Err(EventEnd::NoMemory),
        }
    }

    // Whether no object's rounded bounds begin below its address, with one more at this address whose bounds begin at
    // this base.
    fn stays_straight(&self, address: u64, base: u64) -> bool
        ensures { result ≡ true → (self.now.straight ≡ true) × (base ≡ address) }
    {
        self.straight && base == address
    }

    // A longer object is allocated if there is room for it; its rounded bounds begin at this base.
    fn keep_long(&mut self, address: u64, length: u64, base: u64) -> Result<(), EventEnd>
        requires some { 0 < length }
        requires base { base ≡ rounded_base address length }
        requires room { HasRoom self.old.bounds (objects_in self.old) address length }
        ensures ok { OnOk result ((other : ℕ) → objects_in self.new other ≡ after_event (objects_in self.old) (Malloc address length) other) }
        ensures count { OnOk result (live_in self.new ≡ live_in self.old + 1) }
        ensures end { IfErr result (λ end. end ≡ NoMemory) }
        ensures err { OnErr result ((other : ℕ) → objects_in self.new other ≡ objects_in self.old other) }
        ensures err_count { OnErr result (live_in self.new ≡ live_in self.old) }
        ensures bounds { self.new.bounds ≡ self.old.bounds }
    {
        self.straight = self.stays_straight(address, base);
        match self.lengths.insert(address, length) {
            Ok(_) => Ok(()),
            Err(_) => Err(EventEnd::NoMemory),
        }
    }

    /// An object is allocated at an address, or the first check that refuses it is the answer and nothing changes.
    /// Memory is taken for an object that no check refuses; `NoMemory` comes only there. An object of a byte or more
    /// takes two walks down the map of such objects, one more once one came whose rounded bounds begin below its
    /// address, and one down the set of those of no bytes if any live.
    pub fn malloc(&mut self, address: u64, length: u64) -> Result<(), EventEnd>
        ensures room { OnOk result (HasRoom self.old.bounds (objects_in self.old) address length) }
        ensures ok { OnOk result ((other : ℕ) → objects_in self.new other ≡ after_event (objects_in self.old) (Malloc address length) other) }
        ensures count { OnOk result (live_in self.new ≡ live_in self.old + 1) }
        ensures end { IfErr result (IsEndOf self.old.bounds (objects_in self.old) (Malloc address length)) }
        ensures err { OnErr result ((other : ℕ) → objects_in self.new other ≡ objects_in self.old other) }
        ensures err_count { OnErr result (live_in self.new ≡ live_in self.old) }
        ensures bounds { self.new.bounds ≡ self.old.bounds }
    {
        let rounded = round(address, length);
        if let Some(refusal) = self.refusal(address, length, rounded) {
            return Err(EventEnd::Refused(refusal));
        }
        if length > 0 {
            self.keep_long(address, length, rounded.base)
        } else {
            self.keep_empty(address)
        }
    }

    /// The object at an address lives no more, or none lived there and nothing changes.
    pub fn free(&mut self, address: u64) -> Result<(), EventEnd>
        ensures live { OnOk result (IsSome (objects_in self.old address)) }
        ensures ok { OnOk result ((other : ℕ) → objects_in self.new other ≡ after_event (objects_in self.old) (Free address) other) }
        ensures count { OnOk result (live_in self.old ≡ live_in self.new + 1) }
        ensures end { IfErr result (IsEndOf self.old.bounds (objects_in self.old) (Free address)) }
        ensures err { OnErr result ((other : ℕ) → objects_in self.new other ≡ objects_in self.old other) }
        ensures err_count { OnErr result (live_in self.new ≡ live_in self.old) }
        ensures bounds { self.new.bounds ≡ self.old.bounds }
    {
        if self.lengths.remove(&address).is_some() {
            return Ok(());
        }
        if self.empty.remove(&address) {
            return Ok(());
        }
        Err(EventEnd::Refused(HeapRefusal::NotLive))
    }
}
