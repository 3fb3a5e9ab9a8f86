//! Accesses through an authority that is sound if it is tagged, as [`may_access`](super::may_access) answers them. Most are
//! through the recent authority, and decode no bounds.

ghost use Rattle.std.specs.Prelude.{◌≡◌, ◌<◌, ◌≤◌, ◌%◌, ◌+◌, IfOk, IsTrue, option_map};
ghost use Rattle.cap_bounds.specs.Bounds.{IsSound};
ghost use Rattle.cap_ops.specs.Accesses.{IsAllowed, access_address, access_checks, permission_for};
ghost use Rattle.cap_ops.specs.{Checks.{Ends, first_of}, Operations.authority_checks, Refusals.refusal_of};

use crate::access::Access;
use crate::accesses::{answer, authority_fault, needed, other_fault, target_of};
use crate::bits::permits;
use crate::faults::OpFault;
use crate::recent::RecentAuthority;
use cap_word::{Cap, Word};

/// The same for an authority that is sound if it is tagged; it is kept, if it is unsealed. By a function of its own, of
/// numbers alone: most accesses don't call it.
#[inline(never)]
fn fault_anew(
    recent: &mut RecentAuthority,
    tag: bool,
    word: Word,
    permission: u32,
    address: u64,
    size: u8,
) -> Option<OpFault>
    requires permission { permission < 12 }
    requires some { 0 < size }
    requires sound { IsTrue tag → IsSound word.0 }
    ensures { option_map refusal_of result
        ≡ first_of (authority_checks (record { tag = tag; word = word }) permission address (address + size)) }
{
    if tag && recent.holds_anew(word, address, u64::from(size - 1)) && permits(word, permission) {
        return None;
    }
    authority_fault(tag, word, permission, address, size)
}

/// The first check that refuses an access at an address through an authority that is sound if it is tagged. Most accesses
/// are through the recent authority.
#[tactic(auto, unfolding(crate::specs::Accesses::access_checks))]
#[inline(always)]
fn sound_access_fault(
    authority: Cap,
    access: Access,
    address: u64,
    recent: &mut RecentAuthority,
) -> Option<OpFault>
    requires sound { IsTrue authority.tag → IsSound authority.word.0 }
    requires address { address ≡ access_address authority.word.0 access.offset }
    ensures { option_map refusal_of result ≡ first_of (access_checks authority access.kind access.offset access.size) }
{
    let Cap { tag, word } = authority;
    let permission = needed(access.kind);
    if !tag || !recent.holds(word, access, address) || !permits(word, permission) {
        if let Some(fault) = fault_anew(recent, tag, word, permission, address, access.size) {
            return Some(fault);
        }
    }
    other_fault(word, access, address)
}

/// Answers as [`may_access`] does for an authority whose word is sound where it is tagged, as each that a machine
/// holds is. The authority is kept: the next access through it decodes no bounds.
#[inline(always)]
pub fn may_access_soundly(
    authority: Cap,
    access: Access,
    recent: &mut RecentAuthority,
) -> Result<u64, OpFault>
    requires sound { IsTrue authority.tag → IsSound authority.word.0 }
    ensures outcome { Ends result (access_checks authority access.kind access.offset access.size)
        (λ address. address ≡ access_address authority.word.0 access.offset) }
    ensures allowed { IfOk result (λ address. IsAllowed authority.word.0 address access.size (permission_for access.kind)) }
    ensures in_one_granule { IfOk result (λ address. address % 16 + access.size ≤ 16) }
{
    let address = target_of(authority.word, access.offset);
    let fault = sound_access_fault(authority, access, address, recent);
    answer(authority, access, address, fault)
}
