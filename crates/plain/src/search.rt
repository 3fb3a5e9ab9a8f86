//! The rounding of a request, as the definitions have it: by trying each exponent.

ghost use Rattle.std.specs.Prelude.{◌≡◌, ◌<◌, ◌≤◌, ◌+◌, ◌^◌, ◌↔◌, IsTrue};
ghost use Rattle.cap_bounds.specs.Rounding.{HasRounding, IsExact, IsLeastExponent, div_up, rounded_base, rounded_top};
ghost use Rattle.cap_bounds.specs.Rounding.{units_of};

use cap_bounds::Rounded;

/// The unit at an exponent: 2^(e + 3).
fn unit_at(e: u32) -> u128
    requires { e ≤ 52 }
    ensures value { result ≡ 2 ^ (e + 3) }
    ensures some { 0 < result }
    ensures small { result < 2 ^ 56 }
{
    1 << (e + 3)
}

/// How many units a top makes, rounded up.
fn units_up(top: u128, unit: u128) -> u128
    requires some { 0 < unit }
    requires small { unit < 2 ^ 56 }
    requires top_fits { top < 2 ^ 65 }
    ensures { result ≡ div_up top unit }
{
    (top + unit - 1) / unit
}

/// How many units a request covers at an exponent.
fn covered(base: u64, length: u64, e: u32) -> u128
    requires { e ≤ 52 }
    ensures { result ≡ units_of base length e }
{
    let unit = unit_at(e);
    units_up(u128::from(base) + u128::from(length), unit) - u128::from(base) / unit
}

/// The first exponent from 0 on at which a request covers less than 1024 units.
fn first_exponent(base: u64, length: u64) -> u32
    ensures { IsLeastExponent base length result }
{
    for e in 0..52 {
        if covered(base, length, e) < 1024 {
            return e;
        }
    }
    52
}

/// A request of less than 4096 bytes, which is kept.
fn round_short(base: u64, length: u64) -> Rounded
    requires { length < 4096 }
    ensures rounding { HasRounding result.ie result.e result.b result.t base length }
    ensures base { result.base ≡ rounded_base base length }
    ensures top { result.top ≡ rounded_top base length }
    ensures exact { IsTrue result.exact ↔ IsExact base length }
{
    let top = u128::from(base) + u128::from(length);
    Rounded {
        base,
        top,
        ie: false,
        e: 0,
        b: (base % 0x4000) as u16,
        t: (top % 0x4000) as u16,
        exact: true,
    }
}

/// A longer one, rounded at its exponent.
fn round_at(base: u64, length: u64, e: u32) -> Rounded
    requires long { 4096 ≤ length }
    requires least { IsLeastExponent base length e }
    ensures rounding { HasRounding result.ie result.e result.b result.t base length }
    ensures base { result.base ≡ rounded_base base length }
    ensures top { result.top ≡ rounded_top base length }
    ensures exact { IsTrue result.exact ↔ IsExact base length }
    ensures e { result.e ≡ e }
{
    let top = u128::from(base) + u128::from(length);
    let unit = unit_at(e);
    let down = u128::from(base) / unit;
    let up = units_up(top, unit);
    let rounded_top = up * unit;
    Rounded {
        base: (down * unit) as u64,
        top: rounded_top,
        ie: true,
        e: e as u8,
        b: (8 * down % 0x4000) as u16,
        t: (8 * up % 0x4000) as u16,
        exact: down * unit == u128::from(base) && rounded_top == top,
    }
}

/// A request for bounds, rounded.
pub fn plain_round(base: u64, length: u64) -> Rounded
    ensures least { 4096 ≤ length → IsLeastExponent base length result.e }
    ensures rounding { HasRounding result.ie result.e result.b result.t base length }
    ensures base { result.base ≡ rounded_base base length }
    ensures top { result.top ≡ rounded_top base length }
    ensures exact { IsTrue result.exact ↔ IsExact base length }
{
    if length < 4096 {
        round_short(base, length)
    } else {
        round_at(base, length, first_exponent(base, length))
    }
}
