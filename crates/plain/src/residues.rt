//! Numbers of an interval that are congruent to a value.

ghost use Rattle.std.specs.Prelude.{◌≡◌, ◌+◌, ◌*◌, ◌%◌, ◌<◌, ◌≤◌, ◌^◌, pos};
ghost use Rattle.cap_bounds.specs.Bounds.{IsResidue};
ghost use Rattle.plain.specs.Raised.{IsNear, raised};

/// 2 to the power of so many bits.
pub(crate) fn power(bits: u32) -> i128
    requires { bits ≤ 66 }
    ensures { result ≡ pos (2 ^ bits) }
{
    (1u128 << bits) as i128
}

/// The number of `low .. low + 2^bits` that is congruent to a value modulo 2^bits, by a division that rounds down.
/// Each of the three may be below 0.
pub(crate) fn residue(low: i128, bits: u32, value: i128) -> i128
    requires bits_fit { bits ≤ 66 }
    requires low_near { IsNear (2 ^ 64) low }
    requires value_near { IsNear (2 ^ 67) value }
    ensures residue { IsResidue (raised low) (2 ^ bits) (raised value) (raised result) }
    ensures near { IsNear (2 ^ 67) result }
{
    low + (value - low).rem_euclid(power(bits))
}

/// So many units of 2 to the exponent.
pub(crate) fn scaled(units: u16, exponent: u32) -> i128
    requires units_fit { units < 2 ^ 14 }
    requires exponent_fits { exponent ≤ 52 }
    ensures value { result ≡ pos (units * 2 ^ exponent) }
    ensures small { units * 2 ^ exponent < 2 ^ 66 }
{
    (u128::from(units) << exponent) as i128
}

/// The number from a base on, and below 2^64 above it, that is congruent to a value modulo 2^64.
pub(crate) fn following(base: u64, value: i128) -> u128
    requires value_near { IsNear (2 ^ 67) value }
    ensures { IsResidue base (2 ^ 64) (raised value) result }
{
    residue(i128::from(base), 64, value) as u128
}

/// A value modulo 2^bits.
pub(crate) fn cut(value: i128, bits: u32) -> u128
    requires bits_fit { bits ≤ 66 }
    requires value_near { IsNear (2 ^ 67) value }
    ensures { result ≡ raised value % 2 ^ bits }
{
    residue(0, bits, value) as u128
}
