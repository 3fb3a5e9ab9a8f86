//! The rounding of a request that ends at or below 2^64, as [`round`](super::round) gives it, by numbers of 64 bits alone.

ghost use Rattle.std.specs.Prelude.{◌≡◌, ◌<◌, ◌≤◌, ◌+◌, ◌%◌, ◌^◌, ◌↔◌, IsTrue};
ghost use Rattle.cap_bounds.specs.Rounding.{HasRounding, IsExact, IsLeastExponent, units_of};
ghost use Rattle.cap_bounds.specs.Rounding.{rounded_b, rounded_base, rounded_exponent, rounded_ie, rounded_t, rounded_top};

use crate::rounding::{FIRST_LONG, Rounded, mantissa_from, round_short, units_down};

/// The exponent that counting leading zeros gives a long request.
#[inline(always)]
fn first_exponent(length: u64) -> u32
    requires { 4096 ≤ length }
    ensures within { result ≤ 51 }
    ensures low { 2 ^ (result + 12) ≤ length }
    ensures high { length < 2 ^ (result + 13) }
{
    51 - length.leading_zeros()
}

/// Whether a long request that ends at or below 2^64 covers less than 1024 units of 2^(e + 3).
#[inline(always)]
fn covers_few(base: u64, length: u64, e: u32) -> bool
    requires long { 4096 ≤ length }
    requires ends { base + length ≤ 2 ^ 64 }
    requires e_fits { e ≤ 52 }
    ensures { IsTrue result ↔ (units_of base length e < 1024) }
{
    units_down(base + (length - 1), e) - units_down(base, e) < 1023
}

/// Whether the base and the length of a request are multiples of 2^(e + 3).
#[inline(always)]
fn are_multiples(base: u64, length: u64, e: u32) -> bool
    requires { e ≤ 52 }
    ensures { IsTrue result ↔ (base % 2 ^ (e + 3) ≡ 0) × (length % 2 ^ (e + 3) ≡ 0) }
{
    let unit = 1 << (e + 3);
    base % unit == 0 && length % unit == 0
}

/// Rounds a long request that ends at or below 2^64, with its least exponent.
#[inline(always)]
fn round_with(base: u64, length: u64, e: u32) -> Rounded
    requires long { 4096 ≤ length }
    requires ends { base + length ≤ 2 ^ 64 }
    requires least { IsLeastExponent base length e }
    ensures base { result.base ≡ rounded_base base length }
    ensures top { result.top ≡ rounded_top base length }
    ensures fields { HasRounding result.ie result.e result.b result.t base length }
    ensures exact { IsTrue result.exact ↔ IsExact base length }
{
    let low = units_down(base, e);
    let high = units_down(base + (length - 1), e) + 1;
    Rounded {
        base: low << (e + 3),
        top: u128::from(high) << (e + 3),
        ie: true,
        e: e as u8,
        b: mantissa_from(u128::from(low)),
        t: mantissa_from(u128::from(high)),
        exact: are_multiples(base, length, e),
    }
}

/// Rounds a request for some addresses that ends at or below 2^64. It says what [`round`] says, by numbers of 64 bits
/// alone.
#[inline(always)]
pub fn round_inside(base: u64, length: u64) -> Rounded
    requires some { 0 < length }
    requires ends { base + length ≤ 2 ^ 64 }
    ensures base { result.base ≡ rounded_base base length }
    ensures top { result.top ≡ rounded_top base length }
    ensures ie { result.ie ≡ rounded_ie length }
    ensures e { result.e ≡ rounded_exponent base length }
    ensures b { result.b ≡ rounded_b base length }
    ensures t { result.t ≡ rounded_t base length }
    ensures exact { IsTrue result.exact ↔ IsExact base length }
{
    if length < FIRST_LONG {
        return round_short(base, length);
    }
    let e = first_exponent(length);
    if covers_few(base, length, e) {
        round_with(base, length, e)
    } else {
        round_with(base, length, e + 1)
    }
}
