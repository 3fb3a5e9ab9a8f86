//! The operations in clear mode, as hardware has it that clears tags instead of trapping (Morello and
//! current CHERI-RISC-V do): each gives what the strict operation gives, and where that refuses, the
//! same result without its tag.

ghost use Rattle.std.specs.Prelude.{◌≡◌, ◌↔◌, IsFalse, IsTrue, false};
ghost use Rattle.cap_bounds.specs.Bounds.{IsSound};
ghost use Rattle.cap_ops.specs.{Authority.StaysWithin, Operations.{Clears, HasRoomFor, IsStrictWhereTagged}};
ghost use Rattle.cap_ops.specs.Operations.{and_perm_result, and_perm_checks, clear_result, seal_result, seal_checks};
ghost use Rattle.cap_ops.specs.Operations.{set_addr_result, set_addr_checks, set_bounds_result, set_bounds_checks};
ghost use Rattle.cap_ops.specs.{Operations.{unseal_result, unseal_checks}, Permissions.is_sealed};

use crate::addresses::{moved, set_addr};
use crate::faults::OpFault;
use crate::narrowing::{narrowed, set_bounds};
use crate::permissions::{and_perm, clear_tag, masked};
use crate::sealing::{seal, unseal, with_authority_type, without_type};
use cap_word::Cap;

/// What a call gave, or, where it refused, the result without its tag.
fn or_cleared(outcome: Result<Cap, OpFault>, unchecked: Cap) -> Cap
    ensures { Clears outcome unchecked result }
{
    match outcome {
        Ok(cap) => cap,
        Err(_) => clear_tag(unchecked),
    }
}

/// [`set_bounds`] in clear mode. The source's bounds become the length from its address on, rounded; of a
/// tagged source the result loses its tag where it is sealed, where the rounded bounds do not lie inside
/// its own, and with `exact` where they were rounded.
// Never inlined, so that the path by strict rules stands alone where a judge makes a step.
#[inline(never)]
pub fn set_bounds_clear(source: Cap, length: u64, exact: bool) -> Cap
    ensures result_is { result ≡ clear_result (set_bounds_checks source length exact) (set_bounds_result source length) }
    ensures strict { IsStrictWhereTagged (set_bounds_checks source length exact) (set_bounds_result source length) result }
    ensures stays_within { StaysWithin result source }
    ensures escape { exact ≡ false → IsTrue source.tag → IsFalse (is_sealed source.word.0) → IsSound source.word.0
        → IsFalse result.tag ↔ (¬ HasRoomFor source length) }
{
    or_cleared(set_bounds(source, length, exact), narrowed(source, length))
}

/// [`set_addr`] in clear mode. The source gets another address; a tagged one loses its tag where it is
/// sealed, and where the address does not keep its bounds.
// Never inlined, for the same reason.
#[inline(never)]
pub fn set_addr_clear(source: Cap, address: u64) -> Cap
    ensures result_is { result ≡ clear_result (set_addr_checks source address) (set_addr_result source address) }
    ensures strict { IsStrictWhereTagged (set_addr_checks source address) (set_addr_result source address) result }
    ensures stays_within { StaysWithin result source }
{
    or_cleared(set_addr(source, address), moved(source, address))
}

/// [`and_perm`] in clear mode. The source keeps those of its permissions that the mask has too; a tagged
/// one loses its tag where it is sealed.
// Never inlined, for the same reason.
#[inline(never)]
pub fn and_perm_clear(source: Cap, mask: u64) -> Cap
    ensures result_is { result ≡ clear_result (and_perm_checks source) (and_perm_result source mask) }
    ensures strict { IsStrictWhereTagged (and_perm_checks source) (and_perm_result source mask) result }
    ensures stays_within { StaysWithin result source }
{
    or_cleared(and_perm(source, mask), masked(source, mask))
}

/// [`seal`] in clear mode. The source gets the low 18 bits of the authority's address as its object type,
/// whatever the authority is, and loses its tag if a check of sealing fails.
// Never inlined, for the same reason.
#[inline(never)]
pub fn seal_clear(source: Cap, authority: Cap) -> Cap
    ensures result_is { result ≡ clear_result (seal_checks source authority) (seal_result source authority) }
    ensures strict { IsStrictWhereTagged (seal_checks source authority) (seal_result source authority) result }
    ensures stays_within { StaysWithin result source }
{
    or_cleared(
        seal(source, authority),
        with_authority_type(source, authority),
    )
}

/// [`unseal`] in clear mode. The source becomes unsealed, and stays Global only if the authority, tagged or not, is
/// Global too. It loses its tag if a check of unsealing fails.
// Never inlined, for the same reason.
#[inline(never)]
pub fn unseal_clear(source: Cap, authority: Cap) -> Cap
    ensures result_is { result ≡ clear_result (unseal_checks source authority) (unseal_result source authority) }
    ensures strict { IsStrictWhereTagged (unseal_checks source authority) (unseal_result source authority) result }
    ensures stays_within { StaysWithin result source }
{
    or_cleared(unseal(source, authority), without_type(source, authority))
}
