//! What is done with the line of a step by the kind that its head names.

ghost use Rattle.std.specs.Prelude.{ℕ, List, ◌∷◌, ◌++◌};
ghost use Rattle.cap_log.specs.Heads.{head_spelling};

use crate::instructions::Instruction;
use crate::recorded::Derived;
use cap_log::Head;
use cap_log::kinds::{
    AndPerm, ClearTag, Load, LoadCap, Move, Seal, SetAddr, SetBounds, SetBoundsExact, Store,
    StoreCap, Unseal,
};
use cap_streams::LINE_LIMIT;

/// The most bytes that a line has, with its line feed.
pub const MOST_BYTES: usize = LINE_LIMIT + 1;

/// So many bytes at least follow a head and its space, where a line of any length has room: a head has 14 at most.
pub const ROOM_AFTER_HEAD: usize = MOST_BYTES - 15;

/// What is done with the operands of a step, whatever its kind, to something.
pub trait ByKind<'a, T> {
    /// What it answers.
    type Answer;

    // What it does, by the bytes of the line: its head, a space and the operands.
    ghost does: { T → List ℕ → Self.Answer → T → Type 0 };

    /// Does it with the operands of a step of one kind.
    fn with_kind<I: Instruction>(on: &mut T, operands: &'a [u8]) -> Self::Answer
        ensures done { does on.old (head_spelling I.HEAD ++ 32 ∷ operands.now) result on.new };

    /// Does it with those of a step of a kind whose line ends with a result that is quickly derived.
    fn with_derived<D: Derived>(on: &mut T, operands: &'a [u8]) -> Self::Answer
        ensures done { does on.old (head_spelling D.HEAD ++ 32 ∷ operands.now) result on.new };

    /// Does it with those of a step of a kind that takes much code to make.
    fn with_large<I: Instruction>(on: &mut T, operands: &'a [u8]) -> Self::Answer
        ensures done { does on.old (head_spelling I.HEAD ++ 32 ∷ operands.now) result on.new };

    /// Does it with those of a step of a kind that few lines of a log are of.
    fn with_rare<I: Instruction>(on: &mut T, operands: &'a [u8]) -> Self::Answer
        ensures done { does on.old (head_spelling I.HEAD ++ 32 ∷ operands.now) result on.new };

    /// Does it with a line that is no step's.
    fn with_none(on: &mut T) -> Self::Answer
        ensures done { (bytes : List ℕ) → does on.old bytes result on.new };
}

/// Does it by a line's head: the operands are taken from the bytes after it.
#[inline(always)]
pub fn by_head<'a, T, K: ByKind<'a, T>>(on: &mut T, head: Head, operands: &'a [u8]) -> K::Answer
    ensures done { K.does on.old (head_spelling head ++ 32 ∷ operands.now) result on.new }
{
    match head {
        Head::Move => K::with_derived::<Move>(on, operands),
        Head::ClearTag => K::with_derived::<ClearTag>(on, operands),
        Head::SetBounds => K::with_large::<SetBounds>(on, operands),
        Head::SetBoundsExact => K::with_rare::<SetBoundsExact>(on, operands),
        Head::SetAddr => K::with_derived::<SetAddr>(on, operands),
        Head::AndPerm => K::with_derived::<AndPerm>(on, operands),
        Head::Seal => K::with_rare::<Seal>(on, operands),
        Head::Unseal => K::with_rare::<Unseal>(on, operands),
        Head::LoadCap => K::with_derived::<LoadCap>(on, operands),
        Head::StoreCap => K::with_kind::<StoreCap>(on, operands),
        Head::Load => K::with_kind::<Load>(on, operands),
        Head::Store => K::with_kind::<Store>(on, operands),
        Head::Version | Head::Mode | Head::Root | Head::End => K::with_none(on),
    }
}
