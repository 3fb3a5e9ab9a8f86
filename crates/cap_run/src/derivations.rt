//! Derivations that no check refuses, told without decoding bounds.

ghost use Rattle.std.specs.Prelude.{◌≡◌, ◌⊎◌, ◌+◌, ◌/◌, ◌%◌, ◌^◌, None, true};
ghost use Rattle.cap_word.specs.Fields.{address_of};
ghost use Rattle.cap_bounds.specs.Range.{KeepsBounds};
ghost use Rattle.cap_machine.specs.Parents.{IsSoundCap};
ghost use Rattle.cap_ops.specs.{Authority.StaysWithin, Checks.first_of, DerivedWords.derive_checks};
ghost use Rattle.cap_run.specs.Moved.{IsMoved, IsOpenSentry};

use cap_bounds::keeps_bounds;
use cap_ops::{SENTRY_TYPE, UNSEALED_TYPE};
use cap_word::{Cap, Word};

// How far the type of a sentry lies below that of an unsealed word, in the half above the address.
const SENTRY_BELOW: u64 = 1 << 27;

// All of a word but its address.
#[inline(always)]
fn high_half(word: Word) -> u64
    ensures { result ≡ word.0 / 2 ^ 64 }
{
    (word.0 >> 64) as u64
}

// Whether two addresses lie in the same 2048 aligned bytes: there a word keeps its bounds, whatever they are.
#[inline(always)]
fn is_near(source: Word, word: Word) -> bool
    ensures { result ≡ true → KeepsBounds source.0 (address_of word.0) }
{
    word.address() >> 11 == source.address() >> 11
}

// Whether a word is an unsealed one at an address that keeps its bounds, unsealed too or as a sentry. Only if it may be `FAR`,
// an address is looked for that isn't near.
#[inline(always)]
fn is_moved<const FAR: bool>(source: Word, word: Word) -> bool
    ensures { result ≡ true → IsMoved source.0 word.0 }
{
    source.object_type() == UNSEALED_TYPE
        && is_same_or_sentry(high_half(source), high_half(word))
        && (is_near(source, word) || (FAR && keeps_bounds(source, word.address())))
}

// Whether half of a word is that of another, or of its sentry. The difference is rotated, so that one comparison tells both.
#[inline(always)]
fn is_same_or_sentry(source: u64, high: u64) -> bool
    ensures { result ≡ true → (high ≡ source) ⊎ ((high + 2 ^ 27) % 2 ^ 64 ≡ source) }
{
    let below = source.wrapping_sub(high);
    (below >> 27) + (below << 37) <= 1
}

// Whether a word is a sentry without its seal.
#[inline(always)]
fn is_open_sentry(source: Word, word: Word) -> bool
    ensures { result ≡ true → IsOpenSentry source.0 word.0 }
{
    source.object_type() == SENTRY_TYPE
        && word.address() == source.address()
        && high_half(word) == high_half(source).wrapping_add(SENTRY_BELOW)
}

/// Whether a word is derived from a capability, where it has the same bounds and permissions: no check then refuses it.
/// `false` says nothing. Unless an address may be `FAR`, it takes no call.
#[inline(always)]
pub(crate) fn is_plainly_derived<const FAR: bool>(source: Cap, word: Word, opens: bool) -> bool
    requires sound { IsSoundCap source }
    ensures checks { result ≡ true → first_of (derive_checks source word.0 opens) ≡ None }
    ensures within { result ≡ true → StaysWithin (record { tag = true; word = word }) source }
{
    if !source.tag {
        return false;
    }
    if source.word.object_type() == UNSEALED_TYPE {
        return is_moved::<FAR>(source.word, word);
    }
    (opens && is_open_sentry(source.word, word)) || word.0 == source.word.0
}
