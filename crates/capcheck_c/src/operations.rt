//! The operations on capabilities, each with the number of its refusal.

ghost use Rattle.std.specs.Prelude.{◌≡◌, ◌≢◌, ◌≤◌, ◌+◌, ◌&&◌, ◌↔◌, true, MatchOption, MatchResult, IsFalse, IsTrue, bit_and};
ghost use Rattle.cap_word.specs.Fields.{address_of, otype_of};
ghost use Rattle.cap_bounds.specs.{Bounds.{IsInside, IsSound, base_of, top_of}, Range.IsRepresentable};
ghost use Rattle.cap_ops.specs.{Authority.StaysWithin, Checks.first_of, DerivedWords.derive_checks, Refusals.fault_number};
ghost use Rattle.cap_ops.specs.Permissions.{permit_global, has_permission, is_sealed, perm_view_of};
ghost use Rattle.cap_ops.specs.Operations as ops;
ghost use Rattle.cap_halves.specs.Passed.{cap_of, is_set, no_cap, whole_of};
ghost use Rattle.capcheck_c.specs.Answers.{IsMadeBy, derive_number};

use crate::values::Made;
use cap_halves::halves::{from_c, no_capability, to_c, word_of};
use cap_halves::values::{Capability, Halves};
use cap_ops::{DeriveFault, OpFault, and_perm, derive_fault, seal, set_addr, set_bounds, unseal};
use cap_word::Cap;

/// An operation's outcome as C gets it.
fn made_from(outcome: Result<Cap, OpFault>) -> Made
    ensures outcome { MatchResult outcome
        (λ cap. (result.refusal ≡ 0) × (cap_of result.cap ≡ cap))
        (λ fault. (result.refusal ≡ fault_number fault) × (cap_of result.cap ≡ no_cap)) }
    ensures tag { result.cap.tag ≤ 1 }
{
    match outcome {
        Ok(cap) => Made {
            cap: to_c(cap),
            refusal: 0,
        },
        Err(fault) => Made {
            cap: no_capability(),
            refusal: fault.number(),
        },
    }
}

/// Narrows the source's bounds to the length from its address on, rounded; with `exact` only if nothing is rounded.
///
/// A tagged source is refused if it is sealed (10), then if the rounded bounds do not lie inside its
/// own (11), then if they are to be exact and are not (12).
#[unsafe(no_mangle)]
pub extern "C" fn capcheck_set_bounds(source: Capability, length: u64, exact: u8) -> Made
    ensures outcome { IsMadeBy (ops.set_bounds_checks (cap_of source) length (is_set exact)) (ops.set_bounds_result (cap_of source) length) result }
    ensures tag { result.cap.tag ≤ 1 }
    ensures stays_within { StaysWithin (cap_of result.cap) (cap_of source) }
    ensures escape { source.tag ≢ 0 → IsFalse (is_sealed (whole_of source.word)) → IsSound (whole_of source.word)
        → ((result.refusal ≡ 11) ↔ (¬ IsInside (address_of (whole_of source.word))
        (address_of (whole_of source.word) + length) (base_of (whole_of source.word)) (top_of (whole_of source.word)))) }
{
    made_from(set_bounds(from_c(source), length, exact != 0))
}

/// Gives the source another address.
///
/// A tagged source is refused if it is sealed (10), and then if the address does not keep its bounds (13).
#[unsafe(no_mangle)]
pub extern "C" fn capcheck_set_addr(source: Capability, address: u64) -> Made
    ensures outcome { IsMadeBy (ops.set_addr_checks (cap_of source) address) (ops.set_addr_result (cap_of source) address) result }
    ensures tag { result.cap.tag ≤ 1 }
    ensures moved_so { result.refusal ≡ 0 → ((cap_of result.cap).tag ≡ is_set source.tag)
        × (address_of (whole_of result.cap.word) ≡ address) }
    ensures stays_within { StaysWithin (cap_of result.cap) (cap_of source) }
    ensures range { source.tag ≢ 0 → IsFalse (is_sealed (whole_of source.word))
        → ((result.refusal ≡ 13) ↔ (¬ IsRepresentable (whole_of source.word) address)) }
    ensures near { base_of (whole_of source.word) ≤ address → address ≤ top_of (whole_of source.word)
        → result.refusal ≢ 13 }
{
    made_from(set_addr(from_c(source), address))
}

/// Takes permissions away: those of the view that the mask lacks. A tagged source that is sealed is refused (10).
#[unsafe(no_mangle)]
pub extern "C" fn capcheck_and_perm(source: Capability, mask: u64) -> Made
    ensures outcome { IsMadeBy (ops.and_perm_checks (cap_of source)) (ops.and_perm_result (cap_of source) mask) result }
    ensures tag { result.cap.tag ≤ 1 }
    ensures view { result.refusal ≡ 0
        → perm_view_of (whole_of result.cap.word) ≡ bit_and (perm_view_of (whole_of source.word)) mask }
    ensures stays_within { StaysWithin (cap_of result.cap) (cap_of source) }
{
    made_from(and_perm(from_c(source), mask))
}

/// Seals the source with the authority's address as its object type.
///
/// It is refused, in this order, if the authority is untagged (14), is sealed (15), lacks Seal (16), or
/// does not hold its own address (17), if that address is above `0x3fffb` (18), and if the source is
/// untagged (9) or sealed (10).
#[unsafe(no_mangle)]
pub extern "C" fn capcheck_seal(source: Capability, authority: Capability) -> Made
    ensures outcome { IsMadeBy (ops.seal_checks (cap_of source) (cap_of authority)) (ops.seal_result (cap_of source) (cap_of authority)) result }
    ensures tag { result.cap.tag ≤ 1 }
    ensures sealed_so { result.refusal ≡ 0 → (result.cap.tag ≡ 1) × IsTrue (is_sealed (whole_of result.cap.word))
        × (otype_of (whole_of result.cap.word) ≡ address_of (whole_of authority.word))
        × (address_of (whole_of result.cap.word) ≡ address_of (whole_of source.word)) }
    ensures stays_within { StaysWithin (cap_of result.cap) (cap_of source) }
{
    made_from(seal(from_c(source), from_c(authority)))
}

/// Unseals the source, which is sealed with the authority's address.
///
/// It is refused, in this order, if the authority is untagged (14), is sealed (15), lacks Unseal (16), or does not
/// hold its own address (17), and if the source is untagged (9) or has another object type or a reserved one (19).
#[unsafe(no_mangle)]
pub extern "C" fn capcheck_unseal(source: Capability, authority: Capability) -> Made
    ensures outcome { IsMadeBy (ops.unseal_checks (cap_of source) (cap_of authority)) (ops.unseal_result (cap_of source) (cap_of authority)) result }
    ensures tag { result.cap.tag ≤ 1 }
    ensures unsealed_so { result.refusal ≡ 0 → (result.cap.tag ≡ 1) × IsFalse (is_sealed (whole_of result.cap.word))
        × (has_permission (whole_of result.cap.word) permit_global
        ≡ (has_permission (whole_of source.word) permit_global && has_permission (whole_of authority.word) permit_global))
        × (address_of (whole_of result.cap.word) ≡ address_of (whole_of source.word)) }
    ensures stays_within { StaysWithin (cap_of result.cap) (cap_of source) }
{
    made_from(unseal(from_c(source), from_c(authority)))
}

/// Why a run log's `derive` of a tagged word from the source is refused; 0 if it isn't. `opens` says that PCC gets the word.
///
/// It is refused, in this order, if the source is untagged (9), the word isn't sound (30), has bounds or permissions beyond
/// the source's (31), or hasn't kept its seal (32).
#[unsafe(no_mangle)]
pub extern "C" fn capcheck_derive_fault(source: Capability, word: Halves, opens: u8) -> u8
    ensures checks { MatchOption (first_of (derive_checks (cap_of source) (whole_of word) (is_set opens)))
        (result ≡ 0)
        (λ fault. result ≡ derive_number fault) }
    ensures within { result ≡ 0 → StaysWithin (record { tag = true; word = record { 0 = whole_of word } }) (cap_of source) }
{
    match derive_fault(from_c(source), word_of(word), opens != 0) {
        None => 0,
        Some(DeriveFault::SourceUntagged) => 9,
        Some(DeriveFault::UnsoundResult) => 30,
        Some(DeriveFault::BeyondSource) => 31,
        Some(DeriveFault::SealChanged) => 32,
    }
}
