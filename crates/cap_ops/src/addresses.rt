//! New addresses.

ghost use Rattle.std.specs.Prelude.{◌≡◌, ◌≢◌, ◌≤◌, ◌↔◌, IfOk, IsFalse, IsTrue, option_map};
ghost use Rattle.cap_word.specs.Fields.{address_of};
ghost use Rattle.cap_bounds.specs.{Bounds.{base_of, top_of}, Range.{IsRepresentable, with_address}};
ghost use Rattle.cap_ops.specs.{Authority.StaysWithin, Checks.{Ends, first_of}};
ghost use Rattle.cap_ops.specs.{Operations.{is_kept_at, set_addr_result, set_addr_checks}, Permissions.is_sealed};
ghost use Rattle.cap_ops.specs.Refusals.{refusal_of};

use crate::faults::OpFault;
use crate::sealing::sealed;
use cap_bounds::keeps_bounds;
use cap_word::{Cap, Word};

/// Whether an address keeps a word's bounds.
#[inline(always)]
fn is_kept(word: Word, address: u64) -> bool
    ensures { result ≡ is_kept_at word.0 address }
{
    keeps_bounds(word, address)
}

/// The word with another address.
#[inline(always)]
fn replace_address(word: Word, address: u64) -> Word
    ensures { result.0 ≡ with_address word.0 address }
{
    Word(((word.0 >> 64) << 64) + u128::from(address))
}

/// The first check that refuses a new address.
#[tactic(auto, unfolding(crate::specs::Operations::set_addr_checks))]
#[inline(always)]
fn set_addr_fault(source: Cap, address: u64) -> Option<OpFault>
    ensures { option_map refusal_of result ≡ first_of (set_addr_checks source address) }
{
    if !source.tag {
        None
    } else if sealed(source.word) {
        Some(OpFault::SourceSealed)
    } else if !is_kept(source.word, address) {
        Some(OpFault::NotRepresentable)
    } else {
        None
    }
}

/// The source with another address.
#[tactic(auto, unfolding(crate::specs::Operations::set_addr_result))]
#[inline(always)]
pub(crate) fn moved(source: Cap, address: u64) -> Cap
    ensures { result ≡ set_addr_result source address }
{
    Cap {
        tag: source.tag,
        word: replace_address(source.word, address),
    }
}

/// Gives the source another address (CSetAddr).
///
/// A tagged source is refused where it is sealed, and then where the address does not keep its bounds:
/// exactly outside its representable range, and so never from its base to its top.
// Inlined, since a result in memory is copied with the bytes between its fields.
#[inline(always)]
pub fn set_addr(source: Cap, address: u64) -> Result<Cap, OpFault>
    ensures outcome { Ends result (set_addr_checks source address) (λ cap. cap ≡ set_addr_result source address) }
    ensures moved_so { IfOk result (λ cap. (cap.tag ≡ source.tag) × (address_of cap.word.0 ≡ address)) }
    ensures stays_within { IfOk result (λ cap. StaysWithin cap source) }
    ensures range { IsTrue source.tag → IsFalse (is_sealed source.word.0)
        → (result ≡ Err OpFault.NotRepresentable) ↔ (¬ IsRepresentable source.word.0 address) }
    ensures near { base_of source.word.0 ≤ address → address ≤ top_of source.word.0
        → result ≢ Err OpFault.NotRepresentable }
{
    match set_addr_fault(source, address) {
        Some(fault) => Err(fault),
        None => Ok(moved(source, address)),
    }
}
