//! The bounds of a word, as the definitions have them: by its window, and the numbers there that are congruent to B
//! and to T units.

ghost use Rattle.std.specs.Prelude.{◌≡◌, ◌+◌, ◌*◌, ◌/◌, ◌%◌, ◌<◌, ◌≤◌, ◌^◌, ◌↔◌, IsTrue, min};
ghost use Rattle.cap_bounds.specs.{Bounds.{AreBounds, IsMantissa, IsResidue, IsSound, length_of}, Range.KeepsBounds};
ghost use Rattle.plain.specs.Raised.{IsNear, raised};

use crate::residues::{cut, following, power, residue, scaled};
use cap_bounds::Interval;
use cap_word::{Fields, Word, split};

/// The mantissa T: the least number that lies far enough above B and has the word's low twelve bits, cut to 14 bits.
pub fn plain_mantissa(fields: &Fields) -> u16
    ensures relation { IsMantissa fields.now.b fields.now.t fields.now.ie result }
{
    let least = fields.b + u16::from(fields.ie) * 0x1000;
    (least + (fields.t + 0x8000 - least) % 0x1000) % 0x4000
}

/// The cut exponent.
fn exponent_of(fields: &Fields) -> u32
    ensures value { result ≡ min fields.now.e 52 }
    ensures small { result ≤ 52 }
{
    u32::from(fields.e).min(52)
}

/// Where the window of an address starts: the last number up to the address that is congruent, modulo the window's
/// size, to as many times 2^11 units as B's three high bits less one say.
fn window_start(exponent: u32, b: u16, address: u64) -> i128
    requires exponent_fits { exponent ≤ 52 }
    requires b_fits { b < 2 ^ 14 }
    ensures near { IsNear (2 ^ 64) result }
    ensures begins { raised result ≤ address + 2 ^ 66 }
    ensures ends { address + 2 ^ 66 < raised result + 2 ^ (exponent + 14) }
    ensures aligned { raised result % 2 ^ (exponent + 14) ≡ (b / 2 ^ 11 + 7) % 8 * 2 ^ 11 * 2 ^ exponent }
{
    let offset = scaled((b / 0x800 + 7) % 8 * 0x800, exponent);
    let low = i128::from(address) + 1 - power(exponent + 14);
    residue(low, exponent + 14, offset)
}

/// The number of a window that is congruent to so many units.
fn raw_bound(exponent: u32, start: i128, units: u16) -> i128
    requires exponent_fits { exponent ≤ 52 }
    requires start_near { IsNear (2 ^ 64) start }
    requires units_fit { units < 2 ^ 14 }
    ensures near { IsNear (2 ^ 67) result }
    ensures residue { IsResidue (raised start) (2 ^ (exponent + 14)) (units * 2 ^ exponent) (raised result) }
{
    residue(start, exponent + 14, scaled(units, exponent))
}

/// The top, from the raw one: up to exponent 50 it follows the base, and from the next on it is cut to 65 bits.
fn top_from(exponent: u32, base: u64, raw_top: i128) -> u128
    requires { IsNear (2 ^ 67) raw_top }
    ensures corrected { exponent ≤ 50 → IsResidue base (2 ^ 64) (raised raw_top) result }
    ensures uncorrected { 51 ≤ exponent → result ≡ raised raw_top % 2 ^ 65 }
{
    if exponent <= 50 {
        following(base, raw_top)
    } else {
        cut(raw_top, 65)
    }
}

/// The bounds of a word.
pub fn plain_bounds(word: Word) -> Interval
    ensures relation { AreBounds word.0 result.base result.top }
{
    let fields = split(word);
    let exponent = exponent_of(&fields);
    let start = window_start(exponent, fields.b, fields.address);
    let raw_base = raw_bound(exponent, start, fields.b);
    let raw_top = raw_bound(exponent, start, plain_mantissa(&fields));
    let base = cut(raw_base, 64) as u64;
    Interval {
        base,
        top: top_from(exponent, base, raw_top),
    }
}

/// The length of a word: how far T lies above B, modulo 2^14, in units.
fn plain_length(word: Word) -> u128
    ensures value { result ≡ length_of word.0 }
    ensures small { result < 2 ^ 66 }
{
    let fields = split(word);
    let span = (plain_mantissa(&fields) + 0x4000 - fields.b) % 0x4000;
    u128::from(span) << exponent_of(&fields)
}

/// Whether a word is sound: its base and its length make its top, which lies in the address space.
pub fn plain_sound(word: Word) -> bool
    ensures sound { IsTrue result ↔ IsSound word.0 }
{
    let Interval { base, top } = plain_bounds(word);
    u128::from(base) + plain_length(word) == top && top <= 1 << 64
}

/// Whether the word with another address has the same bounds.
pub fn plain_keeps(word: Word, address: u64) -> bool
    ensures keeps { IsTrue result ↔ KeepsBounds word.0 address }
{
    let moved = Word(word.0 / (1 << 64) * (1 << 64) + u128::from(address));
    plain_bounds(moved) == plain_bounds(word)
}
