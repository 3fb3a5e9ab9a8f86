//! Room in lists, and links in tables.
ghost use Rattle.std.specs.Prelude.{◌≡◌, ◌<◌, ◌≤◌, OnErr, OnOk, slice_index, vec_len, vec_capacity};

use crate::store::NoMemory;

// The link at a place of a table. A table that isn't made yet has none.
#[inline(always)]
pub(crate) fn link_at(table: &[u32], place: usize) -> u32
    ensures { result ≡ slice_index table.now place }
{
    match table.get(place) {
        Some(link) => *link,
        None => 0,
    }
}

// Takes the memory of so many items in all.
#[inline(always)]
pub(crate) fn make_room<T>(list: &mut Vec<T>, count: usize) -> Result<(), NoMemory>
    ensures items { list.new.items ≡ list.old.items }
    ensures len { vec_len list.new ≡ vec_len list.old }
    ensures capacity { vec_capacity list.old ≤ vec_capacity list.new }
    ensures most { vec_capacity list.old < vec_capacity list.new → vec_capacity list.new ≤ count }
    ensures refused { OnErr result (vec_capacity list.new ≡ vec_capacity list.old) }
    ensures ok { OnOk result (count ≤ vec_capacity list.new) }
{
    if count <= list.capacity() {
        return Ok(());
    }
    match list.reserve_exact(count - list.len()) {
        Ok(()) => Ok(()),
        Err(_) => Err(NoMemory),
    }
}
