//! Permissions, and the tag.

ghost use Rattle.std.specs.Prelude.{◌≡◌, IfOk, bit_and, option_map};
ghost use Rattle.cap_ops.specs.{Authority.StaysWithin, Checks.{Ends, first_of}};
ghost use Rattle.cap_ops.specs.Operations.{and_perm_result, and_perm_checks, cleared};
ghost use Rattle.cap_ops.specs.{Permissions.{perm_view_of, perms_from_view}, Refusals.refusal_of};

use crate::bits::BELOW_PERMISSIONS;
use crate::faults::OpFault;
use crate::sealing::sealed;
use cap_word::{Cap, Word};

/// The permissions in the architectural view: bits 0 to 11 as in the word's field, and the four for users
/// at bits 15 to 18 (Sail CHERI-RISC-V: `getCapPerms`).
pub fn perm_view(word: Word) -> u32
    ensures value { result ≡ perm_view_of word.0 }
{
    let field = u32::from(word.permissions());
    (field & 0xfff) + ((field >> 12) << 15)
}

/// The field of permissions for those of a view.
pub(crate) fn field_of(view: u64) -> u16
    ensures { result ≡ perms_from_view view }
{
    (view & 0xfff) as u16 + ((((view >> 15) & 0xf) as u16) << 12)
}

/// The capability without its tag (CClearTag).
pub fn clear_tag(source: Cap) -> Cap
    ensures result_is { result ≡ cleared source }
    ensures stays_within { StaysWithin result source }
{
    Cap {
        tag: false,
        word: source.word,
    }
}

/// The first check that refuses to take permissions from a source.
#[tactic(auto, unfolding(crate::specs::Operations::and_perm_checks))]
fn and_perm_fault(source: Cap) -> Option<OpFault>
    ensures { option_map refusal_of result ≡ first_of (and_perm_checks source) }
{
    if source.tag && sealed(source.word) {
        Some(OpFault::SourceSealed)
    } else {
        None
    }
}

/// The source with those of its permissions that a mask has too.
pub(crate) fn masked(source: Cap, mask: u64) -> Cap
    ensures { result ≡ and_perm_result source mask }
{
    let kept = (u128::from(field_of(mask)) << 112) + BELOW_PERMISSIONS;
    Cap {
        tag: source.tag,
        word: Word(source.word.0 & kept),
    }
}

/// Takes permissions away: those of the view that the mask lacks (CAndPerm). Bits of the mask that stand
/// for no permission have no effect.
///
/// A tagged source that is sealed is refused, as `SourceSealed`.
// Inlined, since a result in memory is copied with the bytes between its fields.
#[inline(always)]
pub fn and_perm(source: Cap, mask: u64) -> Result<Cap, OpFault>
    ensures outcome { Ends result (and_perm_checks source) (λ cap. cap ≡ and_perm_result source mask) }
    ensures view { IfOk result (λ cap. perm_view_of cap.word.0 ≡ bit_and (perm_view_of source.word.0) mask) }
    ensures stays_within { IfOk result (λ cap. StaysWithin cap source) }
{
    match and_perm_fault(source) {
        Some(fault) => Err(fault),
        None => Ok(masked(source, mask)),
    }
}
