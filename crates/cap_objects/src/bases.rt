//! The indexes of objects by number and by base.

ghost use Rattle.std.specs.{Prelude.{◌≡◌, ◌&&◌, ◌≤◌, not, ℕ, Some, None, true, false, if◌then◌else◌, OnOk, OnErr}};
ghost use Rattle.cap_objects.specs.{Extents.is_compared, IndexIn.at, Indexes.{Drops, IsFirstFrom, IsFirstWithin, Rekeys, base_key}};

use crate::index::Index;
use crate::objects::{Object, is_compared};
use std::alloc::AllocError;

/// The entry with the first base from one address to another.
pub(crate) fn first_within(bases: &Index, from: u64, last: u64) -> Option<(u64, u32)>
    ensures { IsFirstWithin (at bases.now) from last result }
{
    match bases.first_from(from) {
        Some((base, slot)) if base <= last => Some((base, slot)),
        _ => None,
    }
}

/// The entry with the first number from a number on, where none is above a count.
pub(crate) fn first_from(numbers: &Index, from: u32, count: u32) -> Option<(u32, usize)>
    requires { (number slot : ℕ) → at numbers.now number ≡ Some slot → number ≤ count }
    ensures { IsFirstFrom (at numbers.now) from result }
{
    match numbers.first_from(u64::from(from)) {
        Some((number, slot)) => Some((number as u32, slot as usize)),
        None => None,
    }
}

/// The slot of an object by its number.
pub(crate) fn slot_by(numbers: &Index, number: u32) -> Option<u32>
    ensures { result ≡ at numbers.now number }
{
    numbers.get(u64::from(number))
}

/// Puts a live object's slot into the indexes. An error leaves both as they were.
pub(crate) fn insert_keys(
    numbers: &mut Index,
    bases: &mut Index,
    object: Object,
    slot: u32,
) -> Result<(), AllocError>
    requires new_number { at numbers.old object.number ≡ None }
    ensures ok { OnOk result (Rekeys (at numbers.old) slot None (Some object.number) (at numbers.new)) }
    ensures ok_base { OnOk result (Rekeys (at bases.old) slot None (if object.long then Some object.base else None) (at bases.new)) }
    ensures err { OnErr result ((key : ℕ) → at numbers.new key ≡ at numbers.old key) }
    ensures err_base { OnErr result ((key : ℕ) → at bases.new key ≡ at bases.old key) }
{
    if numbers.insert(u64::from(object.number), slot).is_err() {
        return Err(AllocError);
    }
    if object.long {
        if bases.insert(object.base, slot).is_err() {
            numbers.remove(u64::from(object.number));
            return Err(AllocError);
        }
    }
    Ok(())
}

/// Puts a live object's slot at another base. An error leaves the index as it was.
pub(crate) fn replace_key(
    bases: &mut Index,
    slot: u32,
    object: Object,
    base: u64,
) -> Result<(), AllocError>
    requires { object.long ≡ true → at bases.old object.base ≡ Some slot }
    ensures ok { OnOk result (Rekeys (at bases.old) slot (if object.long then Some object.base else None) (Some base) (at bases.new)) }
    ensures err { OnErr result ((key : ℕ) → at bases.new key ≡ at bases.old key) }
{
    if bases.insert(base, slot).is_err() {
        return Err(AllocError);
    }
    if object.long && object.base != base {
        bases.remove(object.base);
    }
    Ok(())
}

/// Takes an object out of the indexes; `keeps` says whether extents of freed objects are compared.
pub(crate) fn remove_keys(numbers: &mut Index, bases: &mut Index, object: Object, keeps: bool)
    ensures number { Drops (at numbers.old) (Some object.number) (at numbers.new) }
    ensures base { Drops (at bases.old) (base_key keeps object) (at bases.new) }
{
    numbers.remove(u64::from(object.number));
    if is_compared(object, keeps) {
        bases.remove(object.base);
    }
}

/// Takes the base of an object that was freed out of the index, unless extents of freed objects are compared.
pub(crate) fn remove_freed(bases: &mut Index, object: Object, keeps: bool)
    ensures { Drops (at bases.old) (if object.long && not keeps then Some object.base else None) (at bases.new) }
{
    if object.long && !keeps {
        bases.remove(object.base);
    }
}
