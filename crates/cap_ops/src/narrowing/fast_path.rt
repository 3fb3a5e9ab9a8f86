//! New bounds for a source that is sound if it is tagged, as [`set_bounds`] gives them, computed in 64 bits.

ghost use Rattle.std.specs.Prelude.{◌≡◌, ◌<◌, ◌↔◌, IfOk, IfNone, IfSome, IsFalse, IsTrue, true, false};
ghost use Rattle.cap_word.specs.Fields.{address_of};
ghost use Rattle.cap_bounds.specs.{Bounds.IsSound, Rounding.{HasRounding, rounded_base, rounded_top}};
ghost use Rattle.cap_ops.specs.{Authority.StaysWithin, Checks.Ends, Operations.{HasRoomFor, covers, is_exact}};
ghost use Rattle.cap_ops.specs.{Operations.{set_bounds_result, set_bounds_checks}, Permissions.is_sealed};

use crate::faults::OpFault;
use crate::narrowing::{narrowed_to, set_bounds};
use crate::sealing::sealed;
use cap_bounds::{Rounded, round_inside, sound_word_holds_more};
use cap_word::{Cap, Word};

/// The rounding of the length from a sound word's address on, where it lies inside the word's bounds.
#[inline(always)]
fn rounding_inside(word: Word, length: u64) -> Option<Rounded>
    requires sound { IsSound word.0 }
    requires some { 0 < length }
    ensures covered { IfSome result (λ _. covers word.0 (rounded_base (address_of word.0) length)
        (rounded_top (address_of word.0) length) ≡ true) }
    ensures fields { IfSome result (λ rounded. HasRounding rounded.ie rounded.e rounded.b rounded.t (address_of word.0) length) }
    ensures exact { IfSome result (λ rounded. rounded.exact ≡ is_exact (address_of word.0) length) }
    ensures none { IfNone result (covers word.0 (rounded_base (address_of word.0) length)
        (rounded_top (address_of word.0) length) ≡ false) }
{
    let address = word.address();
    if sound_word_holds_more(word, address, length - 1) {
        Some(round_inside(address, length))
    } else {
        None
    }
}

/// As [`permitted`], for a tagged source with a sound word and a length above 0, computed in 64 bits.
#[tactic(auto, unfolding(crate::specs::Operations::set_bounds_checks))]
#[inline(always)]
fn permitted_soundly(source: Cap, length: u64, exact: bool) -> Result<Rounded, OpFault>
    requires tagged { IsTrue source.tag }
    requires sound { IsSound source.word.0 }
    requires some { 0 < length }
    ensures { Ends result (set_bounds_checks source length exact)
        (λ rounded. HasRounding rounded.ie rounded.e rounded.b rounded.t (address_of source.word.0) length) }
{
    if sealed(source.word) {
        return Err(OpFault::SourceSealed);
    }
    match rounding_inside(source.word, length) {
        None => Err(OpFault::BoundsEscape),
        Some(rounded) => {
            if exact && !rounded.exact {
                Err(OpFault::NotExact)
            } else {
                Ok(rounded)
            }
        }
    }
}

/// As [`set_bounds`], for a source that is sound if it is tagged, as every capability of a machine is. For a tagged
/// source and a length above 0 it computes in 64 bits.
#[inline(always)]
pub fn set_bounds_soundly(source: Cap, length: u64, exact: bool) -> Result<Cap, OpFault>
    requires sound { IsTrue source.tag → IsSound source.word.0 }
    ensures outcome { Ends result (set_bounds_checks source length exact) (λ cap. cap ≡ set_bounds_result source length) }
    ensures stays_within { IfOk result (λ cap. StaysWithin cap source) }
    ensures escape { IsTrue source.tag → IsFalse (is_sealed source.word.0) → IsSound source.word.0
        → (result ≡ Err OpFault.BoundsEscape) ↔ (¬ HasRoomFor source length) }
{
    if source.tag && length > 0 {
        let permitted = permitted_soundly(source, length, exact);
        narrowed_to(permitted, source, length, exact)
    } else {
        set_bounds_apart(source, length, exact)
    }
}

/// [`set_bounds`], out of line. The callee gets its own copy of the source, so the caller needn't keep the source
/// in memory if it doesn't call.
#[inline(always)]
fn set_bounds_apart(source: Cap, length: u64, exact: bool) -> Result<Cap, OpFault>
    ensures outcome { Ends result (set_bounds_checks source length exact) (λ cap. cap ≡ set_bounds_result source length) }
    ensures stays_within { IfOk result (λ cap. StaysWithin cap source) }
    ensures escape { IsTrue source.tag → IsFalse (is_sealed source.word.0) → IsSound source.word.0
        → (result ≡ Err OpFault.BoundsEscape) ↔ (¬ HasRoomFor source length) }
{
    let Cap { tag, word } = source;
    set_bounds_called(Cap { tag, word }, length, exact)
}

/// [`set_bounds`], in a function of its own.
#[inline(never)]
fn set_bounds_called(source: Cap, length: u64, exact: bool) -> Result<Cap, OpFault>
    ensures outcome { Ends result (set_bounds_checks source length exact) (λ cap. cap ≡ set_bounds_result source length) }
    ensures stays_within { IfOk result (λ cap. StaysWithin cap source) }
    ensures escape { IsTrue source.tag → IsFalse (is_sealed source.word.0) → IsSound source.word.0
        → (result ≡ Err OpFault.BoundsEscape) ↔ (¬ HasRoomFor source length) }
{
    set_bounds(source, length, exact)
}
