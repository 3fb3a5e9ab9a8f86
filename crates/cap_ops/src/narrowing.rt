//! New bounds, inside those of a source.

ghost use Rattle.std.specs.Prelude.{◌≡◌, ◌↔◌, IfOk, IsFalse, IsTrue};
ghost use Rattle.cap_word.specs.Fields.{address_of};
ghost use Rattle.cap_bounds.specs.{Bounds.IsSound, Rounding.{HasRounding, rounded_base, rounded_top}};
ghost use Rattle.cap_ops.specs.{Authority.StaysWithin, Checks.Ends, Operations.{HasRoomFor, covers, is_exact}};
ghost use Rattle.cap_ops.specs.{Operations.{set_bounds_result, set_bounds_checks}, Permissions.is_sealed};

mod fast_path;

use crate::faults::OpFault;
pub use crate::narrowing::fast_path::set_bounds_soundly;
use crate::sealing::sealed;
use cap_bounds::{Rounded, bounds, round, with_bounds};
use cap_word::{Cap, Word};

/// Whether the addresses from a base up to a top lie in a word's bounds.
#[tactic(auto, unfolding(crate::specs::Operations::covers))]
#[inline(always)]
pub(crate) fn covers(word: Word, base: u64, top: u128) -> bool
    ensures { result ≡ covers word.0 base top }
{
    bounds(word).contains(base, top)
}

/// The rounding of the length from a word's address on.
#[inline(always)]
fn rounding_of(word: Word, length: u64) -> Rounded
    ensures base { result.base ≡ rounded_base (address_of word.0) length }
    ensures top { result.top ≡ rounded_top (address_of word.0) length }
    ensures fields { HasRounding result.ie result.e result.b result.t (address_of word.0) length }
    ensures exact { result.exact ≡ is_exact (address_of word.0) length }
{
    round(word.address(), length)
}

/// The rounding of the length from the source's address on, or the first check that refuses it.
#[tactic(auto, unfolding(crate::specs::Operations::set_bounds_checks))]
#[inline(always)]
fn permitted(source: Cap, length: u64, exact: bool) -> Result<Rounded, OpFault>
    ensures { Ends result (set_bounds_checks source length exact)
        (λ rounded. HasRounding rounded.ie rounded.e rounded.b rounded.t (address_of source.word.0) length) }
{
    let rounded = rounding_of(source.word, length);
    if !source.tag {
        Ok(rounded)
    } else if sealed(source.word) {
        Err(OpFault::SourceSealed)
    } else if !covers(source.word, rounded.base, rounded.top) {
        Err(OpFault::BoundsEscape)
    } else if exact && !rounded.exact {
        Err(OpFault::NotExact)
    } else {
        Ok(rounded)
    }
}

/// Narrows the source's bounds to the length from its address on, rounded (CSetBounds; with `exact`,
/// CSetBoundsExact).
///
/// A tagged source is refused where it is sealed, then where the rounded bounds do not lie inside its own,
/// then where they are to be exact and are not. For a sound source the second check is that of the
/// instruction: the requested bounds do not lie inside its own.
#[inline(always)]
pub fn set_bounds(source: Cap, length: u64, exact: bool) -> Result<Cap, OpFault>
    ensures outcome { Ends result (set_bounds_checks source length exact) (λ cap. cap ≡ set_bounds_result source length) }
    ensures stays_within { IfOk result (λ cap. StaysWithin cap source) }
    ensures escape { IsTrue source.tag → IsFalse (is_sealed source.word.0) → IsSound source.word.0
        → (result ≡ Err OpFault.BoundsEscape) ↔ (¬ HasRoomFor source length) }
{
    narrowed_to(permitted(source, length, exact), source, length, exact)
}

/// The source with the rounded bounds of the length from its address on, if they are permitted.
#[inline(always)]
fn narrowed_to(
    permitted: Result<Rounded, OpFault>,
    source: Cap,
    length: u64,
    exact: bool,
) -> Result<Cap, OpFault>
    requires { Ends permitted (set_bounds_checks source length exact)
        (λ rounded. HasRounding rounded.ie rounded.e rounded.b rounded.t (address_of source.word.0) length) }
    ensures outcome { Ends result (set_bounds_checks source length exact) (λ cap. cap ≡ set_bounds_result source length) }
    ensures stays_within { IfOk result (λ cap. StaysWithin cap source) }
    ensures escape { IsTrue source.tag → IsFalse (is_sealed source.word.0) → IsSound source.word.0
        → (result ≡ Err OpFault.BoundsEscape) ↔ (¬ HasRoomFor source length) }
{
    match permitted {
        Err(fault) => Err(fault),
        Ok(rounded) => Ok(Cap {
            tag: source.tag,
            word: with_bounds(source.word, &rounded, source.word.address()),
        }),
    }
}

/// The source with the rounded bounds of the length from its address on.
pub(crate) fn narrowed(source: Cap, length: u64) -> Cap
    ensures { result ≡ set_bounds_result source length }
{
    let rounded = rounding_of(source.word, length);
    Cap {
        tag: source.tag,
        word: with_bounds(source.word, &rounded, source.word.address()),
    }
}
