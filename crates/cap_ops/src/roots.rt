//! The words that a machine starts from.

ghost use Rattle.std.specs.Prelude.{◌≡◌, ◌<◌, ◌+◌, ◌*◌, ◌/◌, ◌%◌, ◌^◌, MatchOption, IsTrue, ◌↔◌};
ghost use Rattle.cap_ops.specs.Roots.{IsRoot, IsRootRequest};

use crate::bits::replace_permissions;
use crate::permissions::{field_of, perm_view};
use cap_bounds::{round, with_bounds};
use cap_word::{Word, null};

/// The size of the address space.
const WHOLE: u128 = 1 << 64;

/// A root over the whole address space.
fn whole_root(view: u32) -> Word
    requires { view % 2 ^ 12 + view / 2 ^ 15 % 2 ^ 4 * 2 ^ 15 ≡ view }
    ensures { IsRoot result.0 0 (2 ^ 64) view }
{
    replace_permissions(null(), field_of(u64::from(view)))
}

/// A root over less than the whole address space.
fn bounded_root(base: u64, length: u64, view: u32) -> Word
    requires { IsRootRequest base length view }
    ensures { IsRoot result.0 base length view }
{
    let word = replace_permissions(null(), field_of(u64::from(view)));
    with_bounds(word, &round(base, length), base)
}

/// Whether each bit of a number stands for a permission of the view.
fn is_view(view: u32) -> bool
    ensures { IsTrue result ↔ (view % 2 ^ 12 + view / 2 ^ 15 % 2 ^ 4 * 2 ^ 15 ≡ view) }
{
    (view & 0xfff) + (((view >> 15) & 0xf) << 15) == view
}

/// The word of a root: unsealed, with the flag and the reserved bits 0, these permissions in the architectural
/// view, and the rounded bounds of `length` bytes from `base`, which is its address. The length may be 2^64 at base
/// 0: the whole address space.
///
/// Returns `None` if the request ends past 2^64, or if a bit of the view stands for no permission. Nothing grants
/// this authority: the function is for whoever makes a machine's first capabilities.
pub fn root_word(base: u64, length: u128, view: u32) -> Option<Word>
    ensures root { IsRootRequest base length view → MatchOption result ⊥ (λ word. IsRoot word.0 base length view) }
    ensures none { (result ≡ None) ↔ (¬ IsRootRequest base length view) }
{
    if length > WHOLE - u128::from(base) || !is_view(view) {
        None
    } else if length == WHOLE {
        Some(whole_root(view))
    } else {
        Some(bounded_root(base, length as u64, view))
    }
}
