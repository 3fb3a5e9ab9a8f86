//! Least rounding, and the lengths that need none.

ghost use Rattle.std.specs.Prelude.{◌≡◌, ◌<◌, ◌≤◌, ◌+◌, ◌-◌, ◌%◌, ◌^◌, ◌↔◌, ℕ, IsTrue};
ghost use Rattle.cap_bounds.specs.Bounds.{IsInside, IsSound, base_of, top_of};
ghost use Rattle.cap_bounds.specs.Rounding.{IsExact, alignment_of, rounded_base, rounded_top};

use crate::decoding::bounds;
use crate::rounding::{Rounded, requested_top, round};
use cap_word::Word;

/// Whether a request lies in the bounds of a sound word. That is exactly where the rounded request does:
/// so rounding is least, and no sound word that contains a request has a base or a top that is closer to
/// it than the rounded one.
pub fn least_law(word: Word, base: u64, length: u64) -> bool
    requires { IsSound word.0 }
    ensures requested { IsTrue result ↔ IsInside base (base + length) (base_of word.0) (top_of word.0) }
    ensures rounded { IsTrue result ↔ IsInside (rounded_base base length) (rounded_top base length) (base_of word.0) (top_of word.0) }
{
    bounds(word).contains(base, requested_top(base, length))
}

/// The least length from `length` on that is exact at base 0, or 2^64 where none is (this profile's
/// CRRL). No length from `length` to below it is exact at any base.
pub fn round_length(length: u64) -> u128
    ensures value { result ≡ rounded_top 0 length }
    ensures at_least { length ≤ result }
    ensures within { result ≤ 2 ^ 64 }
    ensures exact { result < 2 ^ 64 → IsExact 0 result }
    ensures least { (shorter base : ℕ) → length ≤ shorter → shorter < result → base < 2 ^ 64 → ¬ IsExact base shorter }
{
    round(0, length).top
}

/// The mask that clears the bits below the alignment of a length. It is a function of its own because the other
/// clauses of [`align_mask`] are proved from this one.
fn mask_of(length: u64) -> u64
    ensures { result + alignment_of length ≡ 2 ^ 64 }
{
    let Rounded { ie, e, .. } = round(0, length);
    if ie { u64::MAX << (e + 3) } else { u64::MAX }
}

/// 2^64 less the alignment of a length, which is a power of two (this profile's CRAM). Where the rounded
/// length is below 2^64, it is exact at just the bases that are multiples of the alignment; where it is
/// 2^64, the alignment is 2^55.
pub fn align_mask(length: u64) -> u64
    ensures value { result + alignment_of length ≡ 2 ^ 64 }
    ensures power { (k : ℕ) × (k ≤ 55) × (2 ^ 64 - result ≡ 2 ^ k) }
    ensures exact { rounded_top 0 length < 2 ^ 64 → (base : ℕ) → base < 2 ^ 64
        → (IsExact base (rounded_top 0 length) ↔ (base % (2 ^ 64 - result) ≡ 0)) }
    ensures past { rounded_top 0 length ≡ 2 ^ 64 → 2 ^ 64 - result ≡ 2 ^ 55 }
{
    mask_of(length)
}
