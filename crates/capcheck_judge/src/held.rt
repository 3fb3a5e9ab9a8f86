//! A box whose value stays where it is, while only its address is kept.

ghost use Rattle.std.specs.{Prelude.{◌≡◌}, Box.Ownership.box_owns};

use std::alloc::Allocator;
use std::marker::Model;

/// What a box of a value held: the address of the value, and the allocator that gave its memory. If it is dropped, the
/// value isn't.
#[derive(Drop)]
pub(crate) struct KeptBox<T, A: Allocator> {
    pub(crate) at: *mut T,
    pub(crate) alloc: A,
    pub(crate) ghost value: { T },
}

impl<T, A: Allocator> Model for KeptBox<T, A> {
    ghost also_owns = { λ held. box_owns (A.dealloc_token held.alloc) T.row held.at held.value };
}

/// Gives up a box, and keeps its value where it is.
pub(crate) fn keep<T: Drop, A: Allocator>(owner: Box<T, A>) -> KeptBox<T, A>
    ensures { result.value ≡ owner.value }
{
    let (at, alloc) = Box::into_raw_with_allocator(owner);
    KeptBox { at, alloc }
}

/// A box of the value that was kept.
pub(crate) fn own<T: Drop, A: Allocator>(kept: KeptBox<T, A>) -> Box<T, A>
    ensures { result.value ≡ kept.value }
{
    let KeptBox { at, alloc } = kept;
    unsafe { Box::from_raw(alloc, at) }
}
