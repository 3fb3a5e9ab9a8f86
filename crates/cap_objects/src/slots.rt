//! Slots of present objects, which are used again once their objects are gone.

ghost use Rattle.std.specs.Prelude.{◌≡◌, ℕ, Some, None, true, false, IsSome, MatchOption, OnErr, IfOk, slice_get};
ghost use Rattle.cap_objects.specs.{declared.objects.Object.{Object as ObjectIn}, Extents.{Sets, is_present}, FreeSlots.{AreFree, UsesSlots}, Handed.AddsObject};

use crate::objects::Object;
use std::alloc::{AllocError, Global};

/// Objects by their slots. A slot whose object isn't present is free, and its `number` is the next free slot, if there
/// is any: so giving a slot back takes no memory.
#[derive(Drop)]
pub(crate) struct Slots {
    objects: Vec<Object>,
    // The first free slot, if there is any.
    free: u32,
    ghost linked: { AreFree objects.items free },
}

impl Slots {
    ghost use Rattle.cap_objects.specs.SlotsIn.{present_in, slots_in};

    /// No objects. It takes no memory.
    pub(crate) fn new(alloc: Global) -> Slots
        ensures { (slot : ℕ) → present_in result slot ≡ None }
    {
        Slots {
            objects: Vec::new(alloc),
            free: u32::MAX,
        }
    }

    /// The object in a slot.
    #[inline(always)]
    pub(crate) fn get(&self, slot: usize) -> Object
        requires { IsSome (present_in self.now slot) }
        ensures { present_in self.now slot ≡ Some result }
    {
        self.objects[slot]
    }

    /// Puts an object in place of the one in a slot.
    #[inline(always)]
    pub(crate) fn set(&mut self, slot: usize, object: Object)
        requires there { IsSome (present_in self.old slot) }
        requires present { is_present object ≡ true }
        ensures set { Sets (present_in self.old) slot (Some object) (present_in self.new) }
        ensures slots { slots_in self.new ≡ slots_in self.old }
    {
        self.objects[slot] = object;
    }

    /// Frees a slot.
    pub(crate) fn remove(&mut self, slot: usize)
        requires { IsSome (present_in self.old slot) }
        ensures set { Sets (present_in self.old) slot None (present_in self.new) }
        ensures slots { slots_in self.new ≡ slots_in self.old }
    {
        let mut object = self.objects[slot];
        object.number = self.free;
        object.freed = true;
        object.held = 0;
        self.objects[slot] = object;
        // Each slot's number fits, since none is made past them.
        self.free = u32::try_from(slot).unwrap_or(u32::MAX);
    }

    /// Puts an object in a free slot, or in a new one if there is none.
    pub(crate) fn insert(&mut self, object: Object) -> Result<u32, AllocError>
        requires { is_present object ≡ true }
        ensures ok { IfOk result (λ slot. AddsObject (present_in self.old) slot object (present_in self.new)) }
        ensures err { OnErr result ((slot : ℕ) → present_in self.new slot ≡ present_in self.old slot) }
        ensures slots { UsesSlots (present_in self.old) (slots_in self.old) (slots_in self.new) }
    {
        match self.next_free() {
            Some(next) => {
                let slot = self.free;
                self.objects[slot as usize] = object;
                self.free = next;
                Ok(slot)
            }
            None => self.push(object),
        }
    }

    // The free slot after the first one, if there is a first.
    fn next_free(&self) -> Option<u32>
        ensures { MatchOption result
            ((object : ObjectIn) → slice_get self.now.objects.items self.now.free ≡ Some object → is_present object ≡ true)
            (λ next. (object : ObjectIn) × (slice_get self.now.objects.items self.now.free ≡ Some object) × (is_present object ≡ false)
            × (object.number ≡ next)) }
    {
        match self.objects.get(self.free as usize) {
            Some(object) if !object.is_present() => Some(object.number),
            _ => None,
        }
    }

    // Puts an object in a new slot, where each one has an object.
    fn push(&mut self, object: Object) -> Result<u32, AllocError>
        requires present { is_present object ≡ true }
        requires full { (slot : ℕ) (object : ObjectIn) → slice_get self.old.objects.items slot ≡ Some object → is_present object ≡ true }
        ensures ok { IfOk result (λ slot. AddsObject (present_in self.old) slot object (present_in self.new)) }
        ensures err { OnErr result ((slot : ℕ) → present_in self.new slot ≡ present_in self.old slot) }
        ensures slots { UsesSlots (present_in self.old) (slots_in self.old) (slots_in self.new) }
    {
        let slot = self.objects.len();
        if slot >= u32::MAX as usize {
            return Err(AllocError);
        }
        match self.objects.push(object) {
            Ok(()) => Ok(slot as u32),
            Err(_) => Err(AllocError),
        }
    }
}
