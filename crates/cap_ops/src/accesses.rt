//! Accesses to memory through an authority.

ghost use Rattle.std.specs.Prelude.{◌≡◌, ◌==◌, ◌<◌, ◌≤◌, ◌%◌, ◌+◌, ◌∷◌, ◌↔◌, not, IfOk, IsTrue, option_map};
ghost use Rattle.cap_ops.specs.declared.refusal.Refusal.TheVariants.{Misaligned};
ghost use Rattle.cap_ops.specs.Accesses.{IsAllowed, access_address, access_checks, loaded_result, permission_for};
ghost use Rattle.cap_ops.specs.{Accesses.stored_checks, Authority.StaysWithin, Checks.{Ends, first_of}};
ghost use Rattle.cap_ops.specs.{Operations.{authority_checks, covers}, Refusals.refusal_of};

mod fast_path;

use crate::access::Access;
pub use crate::accesses::fast_path::may_access_soundly;
use crate::bits::{
    GLOBAL, PERMIT_LOAD, PERMIT_LOAD_CAPABILITY, PERMIT_STORE, PERMIT_STORE_CAPABILITY,
    PERMIT_STORE_LOCAL_CAPABILITY, permits,
};
use crate::faults::OpFault;
use crate::kinds::Kind;
use crate::narrowing::covers;
use crate::sealing::sealed;
use cap_word::{Cap, Word};

/// The number of the permission that a kind of access needs.
#[inline(always)]
fn needed(kind: Kind) -> u32
    ensures value { result ≡ permission_for kind }
    ensures small { result < 12 }
{
    match kind {
        Kind::LoadData | Kind::LoadCap => PERMIT_LOAD,
        Kind::StoreData | Kind::StoreCap(_) => PERMIT_STORE,
    }
}

/// Whether an address is a multiple of the size of an access, which is a power of two.
#[inline(always)]
fn is_aligned(address: u64, access: Access) -> bool
    ensures { IsTrue result ↔ (address % access.size ≡ 0) }
{
    address & u64::from(access.size - 1) == 0
}

/// The first check that refuses an access after those of its authority: of its address, and of what it stores.
#[inline(always)]
fn other_fault(authority: Word, access: Access, address: u64) -> Option<OpFault>
    ensures { option_map refusal_of result
        ≡ first_of ((not (address % access.size == 0), Misaligned) ∷ stored_checks authority.0 access.kind) }
{
    if !is_aligned(address, access) {
        return Some(OpFault::Misaligned);
    }
    let Kind::StoreCap(stored) = access.kind else {
        return None;
    };
    if !stored.tag {
        None
    } else if !permits(authority, PERMIT_STORE_CAPABILITY) {
        Some(OpFault::StoreCapPermission)
    } else if !permits(stored.word, GLOBAL) && !permits(authority, PERMIT_STORE_LOCAL_CAPABILITY) {
        Some(OpFault::StoreLocalPermission)
    } else {
        None
    }
}

/// The address at an offset from an authority's, modulo 2^64.
#[tactic(auto, unfolding(crate::specs::Accesses::access_address))]
#[inline(always)]
fn target_of(authority: Word, offset: i16) -> u64
    ensures { result ≡ access_address authority.0 offset }
{
    authority.address().wrapping_add_signed(i64::from(offset))
}

/// The first check of an authority that refuses an access to these bytes.
fn authority_fault(
    tag: bool,
    word: Word,
    permission: u32,
    address: u64,
    size: u8,
) -> Option<OpFault>
    requires { permission < 12 }
    ensures { option_map refusal_of result
        ≡ first_of (authority_checks (record { tag = tag; word = word }) permission address (address + size)) }
{
    if !tag {
        Some(OpFault::AuthorityUntagged)
    } else if sealed(word) {
        Some(OpFault::AuthoritySealed)
    } else if !permits(word, permission) {
        Some(OpFault::AuthorityPermission)
    } else if !covers(word, address, u128::from(address) + u128::from(size)) {
        Some(OpFault::AuthorityBounds)
    } else {
        None
    }
}

/// The first check that refuses an access at an address.
#[tactic(auto, unfolding(crate::specs::Accesses::access_checks))]
#[inline(always)]
fn access_fault(authority: Cap, access: Access, address: u64) -> Option<OpFault>
    requires address { address ≡ access_address authority.word.0 access.offset }
    ensures { option_map refusal_of result ≡ first_of (access_checks authority access.kind access.offset access.size) }
{
    let word = authority.word;
    let permission = needed(access.kind);
    if let Some(fault) = authority_fault(authority.tag, word, permission, address, access.size) {
        return Some(fault);
    }
    other_fault(word, access, address)
}

/// Whether an authority permits an access. If it does, returns the address: the authority's plus the offset, modulo
/// 2^64.
///
/// The checks, in order: the authority is tagged, is unsealed, has Load or Store, and holds all bytes in its
/// bounds; the address is a multiple of the size; and if a tagged capability is stored, the authority has Store
/// Capability, and Store Local Capability if the capability isn't global.
#[inline(always)]
pub fn may_access(authority: Cap, access: Access) -> Result<u64, OpFault>
    ensures outcome { Ends result (access_checks authority access.kind access.offset access.size)
        (λ address. address ≡ access_address authority.word.0 access.offset) }
    ensures allowed { IfOk result (λ address. IsAllowed authority.word.0 address access.size (permission_for access.kind)) }
    ensures in_one_granule { IfOk result (λ address. address % 16 + access.size ≤ 16) }
{
    let address = target_of(authority.word, access.offset);
    answer(
        authority,
        access,
        address,
        access_fault(authority, access, address),
    )
}

/// The answer to both, by the first check that refuses the access.
#[inline(always)]
fn answer(
    authority: Cap,
    access: Access,
    address: u64,
    fault: Option<OpFault>,
) -> Result<u64, OpFault>
    requires address { address ≡ access_address authority.word.0 access.offset }
    requires fault { option_map refusal_of fault ≡ first_of (access_checks authority access.kind access.offset access.size) }
    ensures outcome { Ends result (access_checks authority access.kind access.offset access.size)
        (λ address. address ≡ access_address authority.word.0 access.offset) }
    ensures allowed { IfOk result (λ address. IsAllowed authority.word.0 address access.size (permission_for access.kind)) }
    ensures in_one_granule { IfOk result (λ address. address % 16 + access.size ≤ 16) }
{
    let _ = (authority, access);
    match fault {
        Some(fault) => Err(fault),
        None => Ok(address),
    }
}

/// What a load of a stored capability gives: its tag goes where the authority lacks Load Capability.
#[tactic(auto, unfolding(crate::specs::Accesses::loaded_result))]
#[inline(always)]
pub fn loaded(authority: Cap, stored: Cap) -> Cap
    ensures result_is { result ≡ loaded_result authority stored }
    ensures stays_within { StaysWithin result stored }
{
    Cap {
        tag: stored.tag && permits(authority.word, PERMIT_LOAD_CAPABILITY),
        word: stored.word,
    }
}
