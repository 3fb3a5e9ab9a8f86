//! Counting a place from one owner to another.

ghost use Rattle.std.specs.Prelude.{◌≡◌, ◌<◌, ◌≤◌, ◌+◌, ◌^◌, ℕ, Option, Some};
ghost use Rattle.cap_objects.specs.{Counts.{Moves, one_for}, Handed.{IsRecounted, held_of}, HandoutsIn.{objects_of, slots_of}};

use crate::handouts::Handouts;

/// A place goes from one owner to another. It is counted up before it is counted down, so that no object is gone
/// between.
#[inline(never)]
pub fn recount(objects: &mut Handouts, from: Option<usize>, to: Option<usize>)
    requires from { (slot : ℕ) → from ≡ Some slot → 0 < held_of (objects_of objects.old slot) }
    requires to { (slot : ℕ) → to ≡ Some slot → 0 < held_of (objects_of objects.old slot) }
    requires few { (slot : ℕ) → held_of (objects_of objects.old slot) ≤ 2 ^ 61 }
    ensures moves { Moves (λ slot. held_of (objects_of objects.old slot)) from to (λ slot. held_of (objects_of objects.new slot)) }
    ensures rest { IsRecounted (objects_of objects.old) (objects_of objects.new) }
    ensures same { (objects.new.count ≡ objects.old.count) × (objects.new.keeps ≡ objects.old.keeps) }
    ensures slots { slots_of objects.new ≡ slots_of objects.old }
{
    count_up_for(objects, to);
    count_down_for(objects, from);
}

// One place more is an object's, if it is any's.
#[inline(always)]
fn count_up_for(objects: &mut Handouts, to: Option<usize>)
    requires to { (slot : ℕ) → to ≡ Some slot → 0 < held_of (objects_of objects.old slot) }
    requires few { (slot : ℕ) → held_of (objects_of objects.old slot) ≤ 2 ^ 61 + 1 }
    ensures moves { (slot : ℕ) → held_of (objects_of objects.new slot) ≡ held_of (objects_of objects.old slot) + one_for slot to }
    ensures rest { IsRecounted (objects_of objects.old) (objects_of objects.new) }
    ensures same { (objects.new.count ≡ objects.old.count) × (objects.new.keeps ≡ objects.old.keeps) }
    ensures slots { slots_of objects.new ≡ slots_of objects.old }
{
    if let Some(slot) = to {
        objects.count_up(slot);
    }
}

// One place less is an object's, if it was any's.
#[inline(always)]
fn count_down_for(objects: &mut Handouts, from: Option<usize>)
    requires from { (slot : ℕ) → from ≡ Some slot → 0 < held_of (objects_of objects.old slot) }
    ensures moves { (slot : ℕ) → held_of (objects_of objects.new slot) + one_for slot from ≡ held_of (objects_of objects.old slot) }
    ensures rest { IsRecounted (objects_of objects.old) (objects_of objects.new) }
    ensures same { (objects.new.count ≡ objects.old.count) × (objects.new.keeps ≡ objects.old.keeps) }
    ensures slots { slots_of objects.new ≡ slots_of objects.old }
{
    if let Some(slot) = from {
        objects.count_down(slot);
    }
}

/// Two places go each from one owner to another, at once: both are counted up before either is counted down.
#[inline(always)]
pub fn recount_both(
    objects: &mut Handouts,
    first_from: Option<usize>,
    first_to: Option<usize>,
    second_from: Option<usize>,
    second_to: Option<usize>,
)
    requires from { (slot : ℕ) → one_for slot first_from + one_for slot second_from ≤ held_of (objects_of objects.old slot) }
    requires first_to { (slot : ℕ) → first_to ≡ Some slot → 0 < held_of (objects_of objects.old slot) }
    requires second_to { (slot : ℕ) → second_to ≡ Some slot → 0 < held_of (objects_of objects.old slot) }
    requires few { (slot : ℕ) → held_of (objects_of objects.old slot) ≤ 2 ^ 61 }
    ensures moves { (slot : ℕ) → held_of (objects_of objects.new slot) + one_for slot first_from + one_for slot second_from
        ≡ held_of (objects_of objects.old slot) + one_for slot first_to + one_for slot second_to }
    ensures rest { IsRecounted (objects_of objects.old) (objects_of objects.new) }
    ensures same { (objects.new.count ≡ objects.old.count) × (objects.new.keeps ≡ objects.old.keeps) }
    ensures slots { slots_of objects.new ≡ slots_of objects.old }
{
    // Mostly no object is involved, and one test tells so.
    if first_from.is_none() & first_to.is_none() & second_from.is_none() & second_to.is_none() {
        return;
    }
    count_up_for(objects, first_to);
    count_up_for(objects, second_to);
    count_down_for(objects, first_from);
    count_down_for(objects, second_from);
}
