//! Requests for bounds, and the addresses that keep a word's bounds.

ghost use Rattle.std.specs.Prelude.{◌≡◌, ◌<◌, ◌≤◌, ◌+◌, ◌-◌, ◌*◌, ◌/◌, ◌%◌, ◌^◌, ◌↔◌, ℕ, IsTrue};
ghost use Rattle.cap_word.specs.Fields.{address_of, b_of, e_of, ie_of, t_of};
ghost use Rattle.cap_bounds.specs.Bounds.{IsInside, IsSound, IsWindow, base_of, cut_exponent_of, top_of, unit_of};
ghost use Rattle.cap_bounds.specs.{Bounds.window_size, Range.{KeepsBounds, window_start}};
ghost use Rattle.cap_bounds.specs.Rounding.{IsExact, IsLeastExponent, alignment_of, div_up, rounded_b, rounded_base};
ghost use Rattle.cap_bounds.specs.Rounding.{rounded_exponent, rounded_ie, rounded_t, rounded_top, rounded_word};
ghost use Rattle.cap_bounds.specs.SailRounding.{sail_b, sail_exact, sail_exponent, sail_ie, sail_t};
ghost use Rattle.cap_ops.specs.Roots.{IsRoot, IsRootRequest};
ghost use Rattle.cap_halves.specs.Passed.{is_set, whole_of};
ghost use Rattle.capcheck_c.specs.WordFields.{IsNoWord};

use crate::values::{AddressRange, OptionalWord, RoundedRequest};
use crate::words::{no_word, some_word};
use cap_bounds::{
    align_mask, keeps_bounds, least_law, reach, round, round_length, sound, with_bounds,
};
use cap_halves::halves::{halves_of, whole, word_of};
use cap_halves::values::Halves;
use cap_ops::root_word;

/// Rounds a request for `length` addresses from `base` on, for every base and length.
#[unsafe(no_mangle)]
pub extern "C" fn capcheck_round(base: u64, length: u64) -> RoundedRequest
    ensures base { result.base ≡ rounded_base base length }
    ensures top { whole_of result.top ≡ rounded_top base length }
    ensures ie { is_set result.ie ≡ rounded_ie length }
    ensures e { result.e ≡ rounded_exponent base length }
    ensures b { result.b ≡ rounded_b base length }
    ensures t { result.t ≡ rounded_t base length }
    ensures exact { IsTrue (is_set result.exact) ↔ IsExact base length }
    ensures bits { (result.ie ≤ 1) × (result.exact ≤ 1) }

    // What these are: a short request is kept, and a long one has the least exponent.
    ensures short { length < 4096 → (result.e ≡ 0) × (result.base ≡ base) × (whole_of result.top ≡ base + length) }
    ensures least { 4096 ≤ length → IsLeastExponent base length result.e }
    ensures rounded_down { 4096 ≤ length → result.base ≡ base / 2 ^ (result.e + 3) * 2 ^ (result.e + 3) }
    ensures rounded_up { 4096 ≤ length
        → whole_of result.top ≡ div_up (base + length) (2 ^ (result.e + 3)) * 2 ^ (result.e + 3) }

    // The same fields as the Sail model rounds to.
    ensures model_ie { is_set result.ie ≡ sail_ie length }
    ensures model_e { result.e ≡ sail_exponent base length }
    ensures model_b { result.b ≡ sail_b base length }
    ensures model_t { result.t ≡ sail_t base length }
    ensures model_exact { is_set result.exact ≡ sail_exact base length }
{
    let rounded = round(base, length);
    RoundedRequest {
        base: rounded.base,
        top: halves_of(rounded.top),
        b: rounded.b,
        t: rounded.t,
        e: rounded.e,
        ie: u8::from(rounded.ie),
        exact: u8::from(rounded.exact),
    }
}

/// The least length from `length` on that is exact at base 0, or 2^64 if none is. No length from
/// `length` to below it is exact at any base.
#[unsafe(no_mangle)]
pub extern "C" fn capcheck_round_length(length: u64) -> Halves
    ensures value { whole_of result ≡ rounded_top 0 length }
    ensures at_least { length ≤ whole_of result }
    ensures within { whole_of result ≤ 2 ^ 64 }
    ensures exact { whole_of result < 2 ^ 64 → IsExact 0 (whole_of result) }
    ensures least { (shorter base : ℕ) → length ≤ shorter → shorter < whole_of result → base < 2 ^ 64
        → ¬ IsExact base shorter }
{
    halves_of(round_length(length))
}

/// 2^64 less the alignment of a length, which is a power of two. If the rounded length is below 2^64, it is exact at
/// just the bases that are multiples of the alignment; if it is 2^64, the alignment is 2^55.
#[unsafe(no_mangle)]
pub extern "C" fn capcheck_align_mask(length: u64) -> u64
    ensures value { result + alignment_of length ≡ 2 ^ 64 }
    ensures power { (k : ℕ) × (k ≤ 55) × (2 ^ 64 - result ≡ 2 ^ k) }
    ensures exact { rounded_top 0 length < 2 ^ 64 → (base : ℕ) → base < 2 ^ 64
        → (IsExact base (rounded_top 0 length) ↔ (base % (2 ^ 64 - result) ≡ 0)) }
    ensures past { rounded_top 0 length ≡ 2 ^ 64 → 2 ^ 64 - result ≡ 2 ^ 55 }
{
    align_mask(length)
}

/// Whether a word is sound and a request lies in its bounds. Of a sound word that is exactly if the
/// rounded request does, so rounding is least.
#[unsafe(no_mangle)]
pub extern "C" fn capcheck_least_law(word: Halves, base: u64, length: u64) -> bool
    ensures unsound { ¬ IsSound (whole_of word) → ¬ IsTrue result }
    ensures requested { IsSound (whole_of word)
        → (IsTrue result ↔ IsInside base (base + length) (base_of (whole_of word)) (top_of (whole_of word))) }
    ensures rounded { IsSound (whole_of word)
        → (IsTrue result ↔ IsInside (rounded_base base length) (rounded_top base length)
        (base_of (whole_of word)) (top_of (whole_of word))) }
{
    let word = word_of(word);
    if !sound(word) {
        return false;
    }
    least_law(word, base, length)
}

/// A word's representable range, as its start and its size: an address keeps the word's bounds exactly
/// if it is less than the size above the start, modulo 2^64; or that every address keeps them.
#[unsafe(no_mangle)]
pub extern "C" fn capcheck_reach(word: Halves) -> AddressRange
    ensures bit { result.every ≤ 1 }
    ensures none { (result.every ≡ 1) ↔ (50 ≤ cut_exponent_of (whole_of word)) }
    ensures every { (result.every ≡ 1) ↔ ((address : ℕ) → address < 2 ^ 64 → KeepsBounds (whole_of word) address) }
    ensures window { IsWindow (whole_of word) (window_start (whole_of word)) }
    ensures unique { (start : ℕ) → IsWindow (whole_of word) start → start ≡ window_start (whole_of word) }
    ensures start { result.every ≡ 0 → result.start ≡ window_start (whole_of word) % 2 ^ 64 }
    ensures size { result.every ≡ 0 → result.size ≡ window_size (whole_of word) }
    ensures exact { result.every ≡ 0 → (address : ℕ) → address < 2 ^ 64
        → (KeepsBounds (whole_of word) address ↔ ((address + 2 ^ 64 - result.start) % 2 ^ 64 < result.size)) }
    ensures zero { result.every ≡ 1 → (result.start ≡ 0) × (result.size ≡ 0) }

    // Addresses here are 2^64 higher, so that those below 0 are numbers too.
    ensures margins { (address : ℕ)
        → base_of (whole_of word) + 2 ^ 64 ≤ address + 2 ^ 11 * unit_of (whole_of word)
        → address ≤ top_of (whole_of word) + 2 ^ 64 + 2 ^ 12 * unit_of (whole_of word)
        → KeepsBounds (whole_of word) (address % 2 ^ 64) }
{
    match reach(word_of(word)) {
        None => AddressRange {
            start: 0,
            size: 0,
            every: 1,
        },
        Some((start, size)) => AddressRange {
            start,
            size,
            every: 0,
        },
    }
}

/// Whether the word with another address has the same base and top.
#[unsafe(no_mangle)]
pub extern "C" fn capcheck_keeps_bounds(word: Halves, address: u64) -> bool
    ensures keeps { IsTrue result ↔ KeepsBounds (whole_of word) address }
{
    keeps_bounds(word_of(word), address)
}

/// A word with the rounded bounds of a request, and the request's base as its address. Its other fields stay as they
/// are. If the request ends at or below 2^64, the word has exactly the rounded bounds, and is sound.
#[unsafe(no_mangle)]
pub extern "C" fn capcheck_with_bounds(word: Halves, base: u64, length: u64) -> Halves
    ensures word { whole_of result ≡ rounded_word (whole_of word) base length }
    ensures kept { whole_of result / 2 ^ 91 ≡ whole_of word / 2 ^ 91 }
    ensures address { address_of (whole_of result) ≡ base }

    // The fields that bounds are made of.
    ensures ie { ie_of (whole_of result) ≡ rounded_ie length }
    ensures e { e_of (whole_of result) ≡ rounded_exponent base length }
    ensures b { b_of (whole_of result) ≡ rounded_b base length }
    ensures t { t_of (whole_of result) ≡ rounded_t base length % 2 ^ 12 }
    ensures decodes { base + length ≤ 2 ^ 64
        → (base_of (whole_of result) ≡ rounded_base base length)
        × (top_of (whole_of result) ≡ rounded_top base length) × IsSound (whole_of result) }
{
    halves_of(with_bounds(word_of(word), &round(base, length), base).0)
}

/// The word of a root: unsealed, with the flag and the reserved bits 0, these permissions in the
/// architectural view, and the rounded bounds of `length` bytes from `base` on, which is its address. There
/// is none if the request ends past 2^64, or if a bit of the view stands for no permission.
#[unsafe(no_mangle)]
pub extern "C" fn capcheck_root(base: u64, length: Halves, permissions: u32) -> OptionalWord
    ensures root { IsRootRequest base (whole_of length) permissions
        → (result.present ≡ 1) × IsRoot (whole_of result.word) base (whole_of length) permissions }
    ensures none { ¬ IsRootRequest base (whole_of length) permissions → IsNoWord result }
{
    match root_word(base, whole(length), permissions) {
        Some(word) => some_word(word),
        None => no_word(),
    }
}
