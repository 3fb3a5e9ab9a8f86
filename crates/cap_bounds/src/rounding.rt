//! A request for bounds, rounded to bounds that a word can have.

ghost use Rattle.std.specs.Prelude.{◌≡◌, ◌<◌, ◌≤◌, ◌+◌, ◌*◌, ◌/◌, ◌%◌, ◌^◌, ◌↔◌, ℕ, IsTrue, true, false};
ghost use Rattle.cap_word.specs.Fields.{address_of, b_of, e_of, ie_of, t_of};
ghost use Rattle.cap_bounds.specs.{Bounds.{IsSound, base_of, top_of}, Rounding.{HasRounding, bounded_word, IsExact}};
ghost use Rattle.cap_bounds.specs.Rounding.{IsLeastExponent, div_up, rounded_b, rounded_base};
ghost use Rattle.cap_bounds.specs.Rounding.{rounded_exponent, rounded_ie, rounded_t, rounded_top};
ghost use Rattle.cap_bounds.specs.SailRounding.{sail_b, sail_exact, sail_exponent, sail_ie, sail_t};

mod fast_path;

pub use crate::rounding::fast_path::round_inside;
use cap_word::Word;

/// The first length that needs an exponent. A shorter one is kept as it is.
const FIRST_LONG: u64 = 4096;

/// A request for bounds after rounding: the bounds, and the fields of a word that has them.
#[derive(Debug, Clone, Copy, PartialEq, Eq)]
pub struct Rounded {
    /// The requested base, rounded down.
    pub base: u64,
    /// The requested top, rounded up. It may pass 2^64 where the requested one does.
    pub top: u128,
    /// Whether the exponent stands in the word: from a length of 4096 on.
    pub ie: bool,
    /// The exponent: the least at which the rounded bounds are less than 1024 units of 2^(e + 3) apart.
    pub e: u8,
    /// B: the base in units of 2^e, modulo 2^14.
    pub b: u16,
    /// T: the top in units of 2^e, modulo 2^14.
    pub t: u16,
    /// Whether both bounds are the requested ones.
    pub exact: bool,
    pub ghost top_fits: { top ≤ 2 ^ 65 },
    pub ghost e_fits: { e ≤ 52 },
    pub ghost b_fits: { b < 2 ^ 14 },
    pub ghost t_fits: { t < 2 ^ 14 },
    pub ghost no_exponent: { ie ≡ false → e ≡ 0 },
    pub ghost b_aligned: { ie ≡ true → b % 8 ≡ 0 },
    pub ghost t_aligned: { ie ≡ true → t % 8 ≡ 0 },
}

/// The top that a request asks for.
#[inline(always)]
pub(crate) fn requested_top(base: u64, length: u64) -> u128
    ensures value { result ≡ base + length }
    ensures small { result < 2 ^ 65 }
{
    u128::from(base) + u128::from(length)
}

/// An address in units of 2^(e + 3), rounded down.
#[inline(always)]
fn units_down(address: u64, e: u32) -> u64
    requires { e ≤ 52 }
    ensures { result ≡ address / 2 ^ (e + 3) }
{
    address >> (e + 3)
}

/// A top in units of 2^(e + 3), rounded up.
#[inline(always)]
fn units_up(top: u128, e: u32) -> u128
    requires top_fits { top < 2 ^ 65 }
    requires e_fits { e ≤ 52 }
    ensures { result ≡ div_up top (2 ^ (e + 3)) }
{
    (top + (1 << (e + 3)) - 1) >> (e + 3)
}

/// The least exponent of a long request. Counting leading zeros gives one that is too small by one at
/// most.
#[inline(always)]
fn least_exponent(base: u64, length: u64) -> u32
    requires { 4096 ≤ length }
    ensures { IsLeastExponent base length result }
{
    let start = 51 - length.leading_zeros();
    let top = requested_top(base, length);
    if units_up(top, start) - u128::from(units_down(base, start)) < 1024 {
        start
    } else {
        start + 1
    }
}

/// An end in units of 2^(e + 3), as a mantissa: in units of 2^e, modulo 2^14.
#[inline(always)]
fn mantissa_from(units: u128) -> u16
    ensures value { result ≡ 8 * units % 2 ^ 14 }
    ensures aligned { result % 8 ≡ 0 }
    ensures fits { result < 2 ^ 14 }
{
    ((units % 0x800) as u16) << 3
}

/// Rounds a short request: it is kept.
#[inline(always)]
fn round_short(base: u64, length: u64) -> Rounded
    requires { length < 4096 }
    ensures base { result.base ≡ rounded_base base length }
    ensures top { result.top ≡ rounded_top base length }
    ensures fields { HasRounding result.ie result.e result.b result.t base length }
    ensures exact { IsTrue result.exact ↔ IsExact base length }
{
    let top = requested_top(base, length);
    Rounded {
        base,
        top,
        ie: false,
        e: 0,
        b: (base & 0x3fff) as u16,
        t: (top & 0x3fff) as u16,
        exact: true,
    }
}

/// Rounds a long request.
#[inline(always)]
fn round_long(base: u64, length: u64) -> Rounded
    requires { 4096 ≤ length }
    ensures base { result.base ≡ rounded_base base length }
    ensures top { result.top ≡ rounded_top base length }
    ensures fields { HasRounding result.ie result.e result.b result.t base length }
    ensures exact { IsTrue result.exact ↔ IsExact base length }
    ensures least { IsLeastExponent base length result.e }
{
    let e = least_exponent(base, length);
    let top = requested_top(base, length);
    let low = units_down(base, e);
    let high = units_up(top, e);
    let rounded_base = low << (e + 3);
    let rounded_top = high << (e + 3);
    Rounded {
        base: rounded_base,
        top: rounded_top,
        ie: true,
        e: e as u8,
        b: mantissa_from(u128::from(low)),
        t: mantissa_from(high),
        exact: rounded_base == base && rounded_top == top,
    }
}

/// Rounds a request: a short one is kept, and a long one has the least exponent.
#[inline(always)]
fn round_by_length(base: u64, length: u64) -> Rounded
    ensures base { result.base ≡ rounded_base base length }
    ensures top { result.top ≡ rounded_top base length }
    ensures fields { HasRounding result.ie result.e result.b result.t base length }
    ensures exact { IsTrue result.exact ↔ IsExact base length }
    ensures least { 4096 ≤ length → IsLeastExponent base length result.e }
{
    if length < FIRST_LONG {
        round_short(base, length)
    } else {
        round_long(base, length)
    }
}

/// Rounds a request for `length` addresses from `base`, for every base and length (Sail CHERI-RISC-V:
/// `setCapBounds`). If their sum exceeds 2^64, the fields follow the same rule, but a word with them has other
/// bounds.
#[inline(always)]
pub fn round(base: u64, length: u64) -> Rounded
    ensures base { result.base ≡ rounded_base base length }
    ensures top { result.top ≡ rounded_top base length }
    ensures ie { result.ie ≡ rounded_ie length }
    ensures e { result.e ≡ rounded_exponent base length }
    ensures b { result.b ≡ rounded_b base length }
    ensures t { result.t ≡ rounded_t base length }
    ensures exact { IsTrue result.exact ↔ IsExact base length }

    // What these are: a short request is kept, and a long one has the least exponent.
    ensures short { length < 4096 → (result.e ≡ 0) × (result.base ≡ base) × (result.top ≡ base + length) }
    ensures least { 4096 ≤ length → IsLeastExponent base length result.e }
    ensures rounded_down { 4096 ≤ length → result.base ≡ base / 2 ^ (result.e + 3) * 2 ^ (result.e + 3) }
    ensures rounded_up { 4096 ≤ length → result.top ≡ div_up (base + length) (2 ^ (result.e + 3)) * 2 ^ (result.e + 3) }

    // The Sail model finds the same fields, by leading zeros, lost bits and one raise of the exponent.
    ensures model_ie { result.ie ≡ sail_ie length }
    ensures model_e { result.e ≡ sail_exponent base length }
    ensures model_b { result.b ≡ sail_b base length }
    ensures model_t { result.t ≡ sail_t base length }
    ensures model_exact { result.exact ≡ sail_exact base length }
{
    round_by_length(base, length)
}

/// Replaces the fields that bounds are made of. It stands apart from [`with_bounds`], whose other clauses are
/// proved from these.
#[inline(always)]
fn replace_bounds(word: Word, rounded: &Rounded, address: u64) -> Word
    ensures word { result.0 ≡ bounded_word word.0 rounded.now.ie rounded.now.e rounded.now.b rounded.now.t address }
{
    let e = u64::from(rounded.e);
    let high = ((word.0 >> 91) as u64) << 27;
    let t_field = u64::from(rounded.t & 0xfff) + (e >> 3);
    let b_field = u64::from(rounded.b) + (e & 7);
    let upper = high + (u64::from(rounded.ie) << 26) + (t_field << 14) + b_field;
    Word((u128::from(upper) << 64) + u128::from(address))
}

/// A word with the bounds of a rounding and an address. Its other fields stay as they are, the reserved
/// bits and the flag too.
///
/// Where the rounding is that of a request that ends at or below 2^64, and the address is its base, the
/// word has exactly the rounded bounds, and is sound.
#[inline(always)]
pub fn with_bounds(word: Word, rounded: &Rounded, address: u64) -> Word
    ensures word { result.0 ≡ bounded_word word.0 rounded.now.ie rounded.now.e rounded.now.b rounded.now.t address }
    ensures kept { result.0 / 2 ^ 91 ≡ word.0 / 2 ^ 91 }
    ensures address { address_of result.0 ≡ address }

    // The fields of the result: those of the rounding, T's low twelve bits.
    ensures ie { ie_of result.0 ≡ rounded.now.ie }
    ensures e { e_of result.0 ≡ rounded.now.e }
    ensures b { b_of result.0 ≡ rounded.now.b }
    ensures t { t_of result.0 ≡ rounded.now.t % 2 ^ 12 }

    // What the word of a request decodes to.
    ensures decodes { (base length : ℕ) → base < 2 ^ 64 → length < 2 ^ 64 → base + length ≤ 2 ^ 64 → address ≡ base
        → HasRounding rounded.now.ie rounded.now.e rounded.now.b rounded.now.t base length
        → (base_of result.0 ≡ rounded_base base length) × (top_of result.0 ≡ rounded_top base length) × IsSound result.0 }
{
    replace_bounds(word, rounded, address)
}
