//! The objects that are present, by their slots, their numbers and their extents.

ghost use Rattle.std.specs.Prelude.{◌≡◌, ◌≢◌, ◌<◌, ◌≤◌, ◌+◌, ◌-◌, ◌^◌, ◌&&◌, not, ℕ, Bool, Option, Some, None, true, false, min, max, IsSome, IsSomeAnd, OnOk};
ghost use Rattle.std.specs.Prelude.{OnErr, IfOk, IfErr, IfSome, IfNone, MatchOption};
ghost use Rattle.cap_objects.specs.{Extents.{IsFirstMet, MeetsNone, Sets, is_compared}, FreeSlots.UsesSlots};
ghost use Rattle.cap_objects.specs.Handed.{AddsObject, AreKept, ArePresent, HasNoLive, HasRoom, IsLive, IsNextNumber, RefusesExtent};
ghost use Rattle.cap_objects.specs.Handed.{freed_in, hand_out_fault_text, handed_out, widened, with_held};
ghost use Rattle.cap_objects.specs.{Counts.is_owner, IndexIn.at, Indexes.kept, Objects.top_of_extent, SlotsIn.present_in};
ghost use Rattle.cap_objects.specs.declared.objects.Object.{Object as ObjectIn};
ghost use Rattle.cap_objects.specs.declared.handouts.HandOutFault.TheVariants.{NoMemory};

use crate::bases::{
    first_from, first_within, insert_keys, remove_freed, remove_keys, replace_key, slot_by,
};
use crate::index::Index;
use crate::moments::Moment;
use crate::objects::Object;
use crate::slots::Slots;
use std::alloc::{AllocError, Global};
use std::{error, fmt};

// Before any step.
const NEVER: Moment = Moment {
    steps: 0,
    hart_lines: 0,
};

/// Why an interval becomes no object's extent.
#[derive(Debug, Clone, Copy, PartialEq, Eq)]
pub enum HandOutFault {
    /// It shares an address with the extent of a live object: that in this slot, of several that of the least base.
    Overlaps(usize),
    /// It shares none with a live object's, but with the extent of a freed object that is held: that in this slot, of
    /// several that of the least base.
    StillHeld(usize),
    /// There was no memory.
    NoMemory,
}

impl fmt::Display for HandOutFault {
    ghost output = { λ fault. Some (hand_out_fault_text fault) };

    fn fmt<W: fmt::Write>(&self, f: &mut fmt::Formatter<W>) -> fmt::Result {
        f.write_str(match self {
            HandOutFault::Overlaps(_) => "the extent overlaps that of a live object",
            HandOutFault::StillHeld(_) => "the extent overlaps that of a freed object that is held",
            HandOutFault::NoMemory => "out of memory",
        })
    }
}

impl error::Error for HandOutFault {}

/// Why no live object has a number.
#[derive(Debug, Clone, Copy, PartialEq, Eq)]
pub enum NumberFault {
    /// No object with this number was handed out.
    NoObject,
    /// It was freed.
    AlreadyFreed,
}

/// The present objects. Each is in a slot, which is used again once the object isn't present: so memory is bounded by
/// the objects that are present at once. An object is present while it is live, or held by a place.
#[derive(Drop)]
pub struct Handouts {
    slots: Slots,
    // The slots by the objects' numbers.
    numbers: Index,
    // The slots by the bases of the extents that new ones are compared with.
    bases: Index,
    count: u32,
    keeps: bool,
    ghost kept: { AreKept keeps count (present_in slots) (at numbers) (at bases) },
}

impl Handouts {
    ghost use Rattle.cap_objects.specs.HandoutsIn.{objects_of, slots_of};

    /// Nothing was handed out. `keeps` says whether new extents are compared with those of freed objects that are held.
    /// It takes no memory.
    pub fn new(alloc: Global, keeps: bool) -> Handouts
        ensures empty { (slot : ℕ) → objects_of result slot ≡ None }
        ensures count { result.count ≡ 0 }
        ensures keeps { result.keeps ≡ keeps }
    {
        Handouts {
            slots: Slots::new(alloc),
            numbers: Index::new(alloc),
            bases: Index::new(alloc),
            count: 0,
            keeps,
        }
    }

    /// How many objects were handed out.
    pub fn count(&self) -> u32
        ensures value { result ≡ self.now.count }
    {
        self.count
    }

    /// Whether new extents are compared with those of freed objects that are held.
    pub fn keeps(&self) -> bool
        ensures value { result ≡ self.now.keeps }
    {
        self.keeps
    }

    /// What is true of the present objects. It does nothing: what it says is its contract.
    #[inline(always)]
    pub fn kept(&self)
        ensures kept { ArePresent self.now.keeps self.now.count (objects_of self.now) }
    {}

    /// The present object in a slot.
    #[inline(always)]
    pub fn object(&self, slot: usize) -> Object
        requires { IsSome (objects_of self.now slot) }
        ensures there { objects_of self.now slot ≡ Some result }
    {
        self.slots.get(slot)
    }

    /// The slot of the live object with a number.
    pub fn live(&self, number: u32) -> Result<usize, NumberFault>
        ensures ok { IfOk result (IsLive (objects_of self.now) number) }
        ensures low { IfOk result (λ slot. slot < 2 ^ 32) }
        ensures fault { IfErr result (HasNoLive self.now.count (objects_of self.now) number) }
    {
        if number == 0 || number > self.count {
            return Err(NumberFault::NoObject);
        }
        match slot_by(&self.numbers, number) {
            Some(slot) if !self.slots.get(slot as usize).freed => Ok(slot as usize),
            _ => Err(NumberFault::AlreadyFreed),
        }
    }

    /// The present object of least number from a number on: the number and the slot.
    pub fn next_number(&self, from: u32) -> Option<(u32, usize)>
        ensures next { IsNextNumber (objects_of self.now) from result }
    {
        first_from(&self.numbers, from, self.count)
    }

    // The object of least base among those that are compared and share an address with the addresses from a base to a
    // last one: without the one left out, and live ones alone if that is asked.
    fn first_met(&self, base: u64, last: u64, left_out: Option<usize>, live: bool) -> Option<usize>
        requires { base ≤ last }
        ensures { MatchOption result (MeetsNone self.now.keeps left_out live (objects_of self.now) base last)
            (IsFirstMet self.now.keeps left_out live (objects_of self.now) base last) }
    {
        let mut from = self.first_reaching(base);
        'up: loop {
            match first_within(&self.bases, from, last) {
                None => return None,
                Some((other, slot)) => {
                    if self.is_asked(slot as usize, left_out, live) {
                        return Some(slot as usize);
                    }
                    if other == last {
                        return None;
                    }
                    from = other + 1;
                }
            }
        }
    }

    // Whether the last extent that begins at or below an address ends before some others, so that none shares one of the
    // addresses from these to that one.
    fn is_clear(&self, base: u64, last: u64) -> bool
        ensures { result ≡ true → (left_out : Option ℕ) (live : Bool) → MeetsNone self.now.keeps left_out live (objects_of self.now) base last }
    {
        match self.bases.last_to(last) {
            Some((_, slot)) if base <= self.slots.get(slot as usize).last => false,
            _ => true,
        }
    }

    // The first base from which on to look for extents that share an address with a base or one above it.
    fn first_reaching(&self, base: u64) -> u64
        ensures low { result ≤ base }
        ensures reached { (slot : ℕ) (object : ObjectIn) → objects_of self.now slot ≡ Some object → is_compared self.now.keeps object ≡ true
            → result ≤ object.base → base ≤ object.last }
        ensures all { (slot : ℕ) (object : ObjectIn) → objects_of self.now slot ≡ Some object → is_compared self.now.keeps object ≡ true
            → base ≤ object.last → result ≤ object.base }
    {
        match self.bases.last_to(base) {
            Some((other, slot)) if base <= self.slots.get(slot as usize).last => other,
            _ => base,
        }
    }

    // Whether the object in a slot isn't the one left out, and is live if that is asked.
    fn is_asked(&self, slot: usize, left_out: Option<usize>, live: bool) -> bool
        requires { IsSome (objects_of self.now slot) }
        ensures { (object : ObjectIn) → objects_of self.now slot ≡ Some object
            → result ≡ (not (is_owner slot left_out) && not (live && object.freed)) }
    {
        left_out != Some(slot) && !(live && self.slots.get(slot).freed)
    }

    /// Why an interval can't be an extent: that of an object that is left out isn't compared.
    pub fn extent_fault(
        &self,
        base: u64,
        top: u128,
        left_out: Option<usize>,
    ) -> Option<HandOutFault>
        requires { top ≤ 2 ^ 64 }
        ensures none { IfNone result (HasRoom self.now.keeps left_out (objects_of self.now) base top) }
        ensures some { IfSome result (λ fault. (fault ≢ NoMemory) × RefusesExtent self.now.keeps left_out (objects_of self.now) base top fault) }
    {
        if u128::from(base) >= top {
            return None;
        }
        let last = (top - 1) as u64;
        if self.is_clear(base, last) {
            return None;
        }
        match self.first_met(base, last, left_out, false) {
            None => None,
            Some(freed) => match self.first_met(base, last, left_out, true) {
                Some(slot) => Some(HandOutFault::Overlaps(slot)),
                None => Some(HandOutFault::StillHeld(freed)),
            },
        }
    }

    /// An interval becomes the extent of a new object, in the slot that is the answer, which no place holds. Or it shares
    /// an address with the extent of a live object, or else with that of a freed one that is held, if those are compared;
    /// or there is no memory. Then nothing changes. The interval may be empty: it shares no address.
    pub fn hand_out(&mut self, base: u64, top: u128, moment: Moment) -> Result<usize, HandOutFault>
        requires long { base ≤ top }
        requires in_memory { top ≤ 2 ^ 64 }
        requires few { self.old.count < 2 ^ 32 - 1 }
        ensures room { OnOk result (HasRoom self.old.keeps None (objects_of self.old) base top) }
        ensures ok { IfOk result (λ slot. AddsObject (objects_of self.old) slot (handed_out (self.old.count + 1) moment base top) (objects_of self.new)) }
        ensures low { IfOk result (λ slot. slot < 2 ^ 32) }
        ensures count { OnOk result (self.new.count ≡ self.old.count + 1) }
        ensures fault { IfErr result (RefusesExtent self.old.keeps None (objects_of self.old) base top) }
        ensures err { OnErr result ((slot : ℕ) → objects_of self.new slot ≡ objects_of self.old slot) }
        ensures err_count { OnErr result (self.new.count ≡ self.old.count) }
        ensures keeps { self.new.keeps ≡ self.old.keeps }
        ensures slots { UsesSlots (objects_of self.old) (slots_of self.old) (slots_of self.new) }
    {
        if let Some(fault) = self.extent_fault(base, top, None) {
            return Err(fault);
        }
        let long = u128::from(base) < top;
        let object = Object {
            base,
            last: if long { (top - 1) as u64 } else { base },
            held: 0,
            number: self.count + 1,
            handed_at: moment,
            freed_at: NEVER,
            long,
            freed: false,
        };
        match self.keep(object) {
            Ok(slot) => Ok(slot),
            Err(_) => Err(HandOutFault::NoMemory),
        }
    }

    // Keeps an object that is handed out next.
    fn keep(&mut self, object: Object) -> Result<usize, AllocError>
        requires next { (object.number ≡ self.old.count + 1) × (object.freed ≡ false) }
        requires few { self.old.count < 2 ^ 32 - 1 }
        requires long { object.long ≡ true → object.base ≤ object.last }
        requires room { object.long ≡ true → MeetsNone self.old.keeps None false (objects_of self.old) object.base object.last }
        ensures ok { IfOk result (λ slot. AddsObject (objects_of self.old) slot object (objects_of self.new)) }
        ensures rest { IfOk result (λ slot. (slot < 2 ^ 32) × (self.new.count ≡ self.old.count + 1)) }
        ensures err { OnErr result (((slot : ℕ) → objects_of self.new slot ≡ objects_of self.old slot) × (self.new.count ≡ self.old.count)) }
        ensures keeps { self.new.keeps ≡ self.old.keeps }
        ensures slots { UsesSlots (objects_of self.old) (slots_of self.old) (slots_of self.new) }
    {
        let slot = match self.slots.insert(object) {
            Ok(slot) => slot,
            Err(error) => return Err(error),
        };
        if insert_keys(&mut self.numbers, &mut self.bases, object, slot).is_err() {
            self.slots.remove(slot as usize);
            return Err(AllocError);
        }
        self.count += 1;
        Ok(slot as usize)
    }

    /// The extent of a live object becomes the least interval that holds it and another one. Or that shares an address
    /// with the extent of another live object, or else with that of a freed one that is held, if those are compared; or
    /// there is no memory. Then nothing changes.
    pub fn widen(&mut self, slot: usize, base: u64, top: u128) -> Result<(), HandOutFault>
        requires live { IsSomeAnd (objects_of self.old slot) (λ object. object.freed ≡ false) }
        requires long { base ≤ top }
        requires in_memory { top ≤ 2 ^ 64 }
        ensures room { OnOk result ((object : ObjectIn) → objects_of self.old slot ≡ Some object
            → HasRoom self.old.keeps (Some slot) (objects_of self.old) (min object.base base) (max (top_of_extent object) top)) }
        ensures ok { OnOk result ((object : ObjectIn) → objects_of self.old slot ≡ Some object
            → Sets (objects_of self.old) slot (Some (widened object base top)) (objects_of self.new)) }
        ensures fault { IfErr result (λ fault. (object : ObjectIn) → objects_of self.old slot ≡ Some object
            → RefusesExtent self.old.keeps (Some slot) (objects_of self.old) (min object.base base) (max (top_of_extent object) top) fault) }
        ensures err { OnErr result ((slot : ℕ) → objects_of self.new slot ≡ objects_of self.old slot) }
        ensures rest { (self.new.count ≡ self.old.count) × (self.new.keeps ≡ self.old.keeps) }
        ensures slots { slots_of self.new ≡ slots_of self.old }
    {
        let object = self.slots.get(slot);
        let low = object.base.min(base);
        let high = object.top().max(top);
        if let Some(fault) = self.extent_fault(low, high, Some(slot)) {
            return Err(fault);
        }
        if u128::from(low) >= high {
            return Ok(());
        }
        let wider = Object {
            base: low,
            last: (high - 1) as u64,
            long: true,
            ..object
        };
        match self.move_base(slot, object, wider) {
            Ok(()) => Ok(()),
            Err(_) => Err(HandOutFault::NoMemory),
        }
    }

    /// One more place holds an object.
    #[inline(always)]
    pub fn count_up(&mut self, slot: usize)
        requires { IsSomeAnd (objects_of self.old slot) (λ object. object.held + 1 < 2 ^ 64) }
        ensures set { (object : ObjectIn) → objects_of self.old slot ≡ Some object
            → Sets (objects_of self.old) slot (Some (with_held object (object.held + 1))) (objects_of self.new) }
        ensures rest { (self.new.count ≡ self.old.count) × (self.new.keeps ≡ self.old.keeps) }
        ensures slots { slots_of self.new ≡ slots_of self.old }
    {
        let mut object = self.slots.get(slot);
        object.held += 1;
        self.slots.set(slot, object);
    }

    /// One place less holds an object. One that was freed is gone with the last place.
    #[inline(always)]
    pub fn count_down(&mut self, slot: usize)
        requires { IsSomeAnd (objects_of self.old slot) (λ object. 0 < object.held) }
        ensures set { (object : ObjectIn) → objects_of self.old slot ≡ Some object
            → Sets (objects_of self.old) slot (kept (with_held object (object.held - 1))) (objects_of self.new) }
        ensures rest { (self.new.count ≡ self.old.count) × (self.new.keeps ≡ self.old.keeps) }
        ensures slots { slots_of self.new ≡ slots_of self.old }
    {
        let mut object = self.slots.get(slot);
        object.held -= 1;
        if object.is_present() {
            self.slots.set(slot, object);
        } else {
            self.let_go(slot);
        }
    }

    /// A live object is freed at a moment. It is gone where no place holds it. This takes no memory.
    pub fn free(&mut self, slot: usize, moment: Moment)
        requires { IsSomeAnd (objects_of self.old slot) (λ object. object.freed ≡ false) }
        ensures set { (object : ObjectIn) → objects_of self.old slot ≡ Some object
            → Sets (objects_of self.old) slot (kept (freed_in moment object)) (objects_of self.new) }
        ensures rest { (self.new.count ≡ self.old.count) × (self.new.keeps ≡ self.old.keeps) }
        ensures slots { slots_of self.new ≡ slots_of self.old }
    {
        let mut object = self.slots.get(slot);
        object.freed = true;
        object.freed_at = moment;
        if object.is_present() {
            self.slots.set(slot, object);
            remove_freed(&mut self.bases, object, self.keeps);
        } else {
            self.let_go(slot);
        }
    }

    // The object in a slot is present no more.
    #[cold]
    #[inline(never)]
    fn let_go(&mut self, slot: usize)
        requires { IsSome (objects_of self.old slot) }
        ensures set { Sets (objects_of self.old) slot None (objects_of self.new) }
        ensures rest { (self.new.count ≡ self.old.count) × (self.new.keeps ≡ self.old.keeps) }
        ensures slots { slots_of self.new ≡ slots_of self.old }
    {
        let object = self.slots.get(slot);
        remove_keys(&mut self.numbers, &mut self.bases, object, self.keeps);
        self.slots.remove(slot);
    }

    // The object in a slot, which is live, gets another extent of an address or more.
    fn move_base(&mut self, slot: usize, object: Object, wider: Object) -> Result<(), AllocError>
        requires was { (objects_of self.old slot ≡ Some object) × (object.freed ≡ false) }
        requires wider { (wider ≡ record object { base = wider.base; last = wider.last; long = true }) × (wider.base ≤ wider.last) }
        requires room { MeetsNone self.old.keeps (Some slot) false (objects_of self.old) wider.base wider.last }
        ensures ok { OnOk result (Sets (objects_of self.old) slot (Some wider) (objects_of self.new)) }
        ensures err { OnErr result ((slot : ℕ) → objects_of self.new slot ≡ objects_of self.old slot) }
        ensures rest { (self.new.count ≡ self.old.count) × (self.new.keeps ≡ self.old.keeps) }
        ensures slots { slots_of self.new ≡ slots_of self.old }
    {
        let Ok(narrow) = u32::try_from(slot) else {
            return Err(AllocError);
        };
        if replace_key(&mut self.bases, narrow, object, wider.base).is_err() {
            return Err(AllocError);
        }
        self.slots.set(slot, wider);
        Ok(())
    }
}
