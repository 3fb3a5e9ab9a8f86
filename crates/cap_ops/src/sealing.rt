//! Object types: sealing and unsealing.

ghost use Rattle.std.specs.Prelude.{◌≡◌, ◌+◌, ◌<◌, ◌==◌, ◌&&◌, nat_le, IfOk, IsFalse, IsTrue, option_map};
ghost use Rattle.cap_word.specs.Fields.{address_of, otype_of};
ghost use Rattle.cap_ops.specs.{Authority.StaysWithin, Checks.{Ends, first_of}, Operations.covers};
ghost use Rattle.cap_ops.specs.Operations.{perms_with_common_global, seal_result, seal_checks, type_authority_checks};
ghost use Rattle.cap_ops.specs.{Operations.{unseal_result, unseal_checks}, Permissions.{greatest_type, has_permission}};
ghost use Rattle.cap_ops.specs.{Permissions.{is_sealed, permit_global}, Refusals.refusal_of};

use crate::bits::{GLOBAL, PERMIT_SEAL, PERMIT_UNSEAL, permits, replace_permissions, replace_type};
use crate::faults::OpFault;
use cap_bounds::bounds;
use cap_word::{Cap, Word};

/// The object type of a word that is not sealed.
pub const UNSEALED_TYPE: u32 = 0x3_ffff;

/// The greatest object type for sealing. Those above it are reserved.
pub const GREATEST_TYPE: u32 = 0x3_fffb;

/// Whether a word is sealed: its object type is not `0x3ffff` (Sail CHERI-RISC-V: `isCapSealed`).
#[tactic(auto, unfolding(crate::specs::Permissions::is_sealed))]
pub fn sealed(word: Word) -> bool
    ensures value { result ≡ is_sealed word.0 }
{
    word.object_type() != UNSEALED_TYPE
}

/// Whether an address lies in a word's bounds.
#[tactic(auto, unfolding(crate::specs::Operations::covers))]
#[inline(always)]
fn holds(word: Word, address: u64) -> bool
    ensures { result ≡ covers word.0 address (address + 1) }
{
    bounds(word).holds(address)
}

/// The first check that refuses an authority for object types.
#[inline(always)]
fn authority_fault(authority: Cap, permission: u32) -> Option<OpFault>
    requires { permission < 12 }
    ensures { option_map refusal_of result ≡ first_of (type_authority_checks authority permission) }
{
    let word = authority.word;
    if !authority.tag {
        Some(OpFault::AuthorityUntagged)
    } else if sealed(word) {
        Some(OpFault::AuthoritySealed)
    } else if !permits(word, permission) {
        Some(OpFault::AuthorityPermission)
    } else if !holds(word, word.address()) {
        Some(OpFault::AuthorityBounds)
    } else {
        None
    }
}

/// The first check that refuses a sealing.
#[tactic(auto, unfolding(crate::specs::Operations::seal_checks))]
#[inline(always)]
fn seal_fault(source: Cap, authority: Cap) -> Option<OpFault>
    ensures { option_map refusal_of result ≡ first_of (seal_checks source authority) }
{
    if let Some(fault) = authority_fault(authority, PERMIT_SEAL) {
        return Some(fault);
    }
    if authority.word.address() > u64::from(GREATEST_TYPE) {
        Some(OpFault::TypeOutOfRange)
    } else if !source.tag {
        Some(OpFault::SourceUntagged)
    } else if sealed(source.word) {
        Some(OpFault::SourceSealed)
    } else {
        None
    }
}

/// The source with the low 18 bits of the authority's address as its object type.
#[tactic(auto, unfolding(crate::specs::Operations::seal_result))]
#[inline(always)]
pub(crate) fn with_authority_type(source: Cap, authority: Cap) -> Cap
    ensures { result ≡ seal_result source authority }
{
    let object_type = (authority.word.address() & 0x3_ffff) as u32;
    Cap {
        tag: source.tag,
        word: replace_type(source.word, object_type),
    }
}

/// Seals the source with the authority's address as its object type (CSeal).
///
/// The checks come in this order: the authority is tagged, unsealed, has Seal, holds its own address in its
/// bounds, and that address is at most `0x3fffb`; the source is tagged and unsealed.
#[inline(always)]
pub fn seal(source: Cap, authority: Cap) -> Result<Cap, OpFault>
    ensures outcome { Ends result (seal_checks source authority) (λ cap. cap ≡ seal_result source authority) }
    ensures sealed_so { IfOk result (λ cap. IsTrue cap.tag × IsTrue (is_sealed cap.word.0)
        × (otype_of cap.word.0 ≡ address_of authority.word.0) × (address_of cap.word.0 ≡ address_of source.word.0)) }
    ensures stays_within { IfOk result (λ cap. StaysWithin cap source) }
{
    match seal_fault(source, authority) {
        Some(fault) => Err(fault),
        None => Ok(with_authority_type(source, authority)),
    }
}

/// Whether a word is sealed with an object type that is not reserved.
#[inline(always)]
fn sealed_with(word: Word, address: u64) -> bool
    ensures { result ≡ (otype_of word.0 == address && nat_le (otype_of word.0) greatest_type) }
{
    let object_type = word.object_type();
    u64::from(object_type) == address && object_type <= GREATEST_TYPE
}

/// The first check that refuses an unsealing.
#[tactic(auto, unfolding(crate::specs::Operations::unseal_checks))]
#[inline(always)]
fn unseal_fault(source: Cap, authority: Cap) -> Option<OpFault>
    ensures { option_map refusal_of result ≡ first_of (unseal_checks source authority) }
{
    if let Some(fault) = authority_fault(authority, PERMIT_UNSEAL) {
        return Some(fault);
    }
    if !source.tag {
        Some(OpFault::SourceUntagged)
    } else if !sealed_with(source.word, authority.word.address()) {
        Some(OpFault::TypeMismatch)
    } else {
        None
    }
}

/// The permissions of a word, Global only where another word has it too.
#[inline(always)]
fn with_common_global(word: Word, other: Word) -> u16
    ensures { result ≡ perms_with_common_global word.0 other.0 }
{
    let global = permits(word, GLOBAL) && permits(other, GLOBAL);
    (word.permissions() & 0xfffe) + u16::from(global)
}

/// The source unsealed, and global only where the authority is.
#[tactic(auto, unfolding(crate::specs::Operations::unseal_result))]
#[inline(always)]
pub(crate) fn without_type(source: Cap, authority: Cap) -> Cap
    ensures { result ≡ unseal_result source authority }
{
    let permissions = with_common_global(source.word, authority.word);
    let word = replace_permissions(source.word, permissions);
    Cap {
        tag: source.tag,
        word: replace_type(word, UNSEALED_TYPE),
    }
}

/// Unseals the source, which is sealed with the authority's address (CUnseal). The result is global only
/// where both are.
///
/// The checks come in this order: the authority is tagged, unsealed, has Unseal, and holds its own address
/// in its bounds; the source is tagged, and its object type is that address and not reserved.
#[inline(always)]
pub fn unseal(source: Cap, authority: Cap) -> Result<Cap, OpFault>
    ensures outcome { Ends result (unseal_checks source authority) (λ cap. cap ≡ unseal_result source authority) }
    ensures unsealed_so { IfOk result (λ cap. IsTrue cap.tag × IsFalse (is_sealed cap.word.0)
        × (has_permission cap.word.0 permit_global ≡ (has_permission source.word.0 permit_global && has_permission authority.word.0 permit_global))
        × (address_of cap.word.0 ≡ address_of source.word.0)) }
    ensures stays_within { IfOk result (λ cap. StaysWithin cap source) }
{
    match unseal_fault(source, authority) {
        Some(fault) => Err(fault),
        None => Ok(without_type(source, authority)),
    }
}
