//! The bounds that a word has.

ghost use Rattle.std.specs.Prelude.{◌≡◌, ◌<◌, ◌≤◌, ◌+◌, ◌*◌, ◌%◌, ◌^◌, ◌↔◌, ℕ, IsTrue, IfSome, None, nat_le};
ghost use Rattle.cap_word.specs.Fields.{b_of, ie_of, t_of};
ghost use Rattle.cap_bounds.specs.Bounds.{AreBounds, IsInside, IsMantissa, IsSound, base_of, cut_exponent_of};
ghost use Rattle.cap_bounds.specs.Bounds.{length_of, mantissa_of, raw_base_at, span_at, span_of, top_of, unit_of};
ghost use Rattle.cap_bounds.specs.{Bounds.window_start_at, SailDecoding.{sail_base, sail_top}};

use cap_word::{Fields, Word, split};

/// The greatest cut exponent: a greater E counts as this one (Sail CHERI-RISC-V: `cap_max_E`).
const MAX_EXPONENT: u32 = 52;

/// The last cut exponent at which the top is corrected: up to it the top follows the base, less than 2^64 above it.
/// From the next exponent on the top is truncated to 65 bits.
const LAST_CORRECTED_EXPONENT: u32 = 50;

/// The bounds of a word: the addresses from `base` up to, but not with, `top`.
///
/// The top is at most 2^64 where the word is sound, and below 2^65 else. In a word that is not sound it
/// may lie below the base.
#[derive(Debug, Clone, Copy, PartialEq, Eq)]
pub struct Interval {
    /// The lowest address.
    pub base: u64,
    /// The address after the highest one.
    pub top: u128,
}

impl Interval {
    /// Whether the bounds from a base up to a top lie inside these.
    #[inline(always)]
    pub fn contains(self, base: u64, top: u128) -> bool
        ensures inside { IsTrue result ↔ IsInside base top self.base self.top }
    {
        self.base <= base && top <= self.top
    }

    /// Whether an address is one of these bounds: from the base up to, but not with, the top.
    #[inline(always)]
    pub fn holds(self, address: u64) -> bool
        ensures inside { IsTrue result ↔ (self.base ≤ address) × (address < self.top) }
    {
        self.base <= address && u128::from(address) < self.top
    }
}

/// How far T lies above B, modulo 2^14: IE, and below it twelve bits that the word's fields determine.
#[inline(always)]
fn span_from(fields: &Fields) -> u16
    ensures value { result ≡ span_at fields.now.b fields.now.t fields.now.ie }
    ensures fits { result < 2 ^ 13 }
{
    (u16::from(fields.ie) << 12) + ((fields.t + 0x4000 - fields.b) & 0xfff)
}

/// The mantissa T of the top, 14 bits: the word has the low twelve, and the two others follow from B and
/// IE (Sail CHERI-RISC-V: `capBitsToCapability`).
pub fn mantissa(fields: &Fields) -> u16
    ensures value { result ≡ mantissa_of fields.now.b fields.now.t fields.now.ie }
    ensures relation { IsMantissa fields.now.b fields.now.t fields.now.ie result }
    ensures unique { (t : ℕ) → IsMantissa fields.now.b fields.now.t fields.now.ie t → t ≡ result }
{
    (fields.b + span_from(fields)) & 0x3fff
}

/// What the bounds of a word come from, beside its address: the cut exponent, B, and the length in units.
#[derive(Clone, Copy)]
pub(crate) struct Scale {
    pub(crate) cut_exponent: u32,
    pub(crate) b: u64,
    pub(crate) span: u64,
}

/// The cut exponent, B, and T less B modulo 2^14.
#[inline(always)]
pub(crate) fn scale_of(word: Word) -> Scale
    ensures cut_exponent { result.cut_exponent ≡ cut_exponent_of word.0 }
    ensures b { result.b ≡ b_of word.0 }
    ensures span { result.span ≡ span_at (b_of word.0) (t_of word.0) (ie_of word.0) }
    ensures span_fits { result.span < 2 ^ 13 }
{
    let fields = split(word);
    Scale {
        cut_exponent: u32::from(fields.e).min(MAX_EXPONENT),
        b: u64::from(fields.b),
        span: u64::from(span_from(&fields)),
    }
}

/// The start of the window of an address, modulo 2^64.
#[inline(always)]
pub(crate) fn window_from(cut_exponent: u32, b: u64, address: u64) -> u64
    requires exponent_fits { cut_exponent ≤ 52 }
    requires b_fits { b < 2 ^ 14 }
    ensures { result ≡ window_start_at cut_exponent b address % 2 ^ 64 }
{
    // In units, of which the window has 2^14.
    let units = address >> cut_exponent;
    let start = (((b >> 11) + 7) & 7) << 11;
    let above_start = units.wrapping_sub(start) & 0x3fff;
    units.wrapping_sub(above_start) << cut_exponent
}

/// The base of a word: in units, the window's start plus B. The start is a multiple of 2^14 units if the address is
/// first raised by 2^11 units and lowered by those of B's three high bits.
#[inline(always)]
fn base_from(cut_exponent: u32, b: u64, address: u64) -> u64
    requires exponent_fits { cut_exponent ≤ 52 }
    requires b_fits { b < 2 ^ 14 }
    ensures { result ≡ raw_base_at cut_exponent b address % 2 ^ 64 }
{
    let raised = (address >> cut_exponent)
        .wrapping_add(0x800)
        .wrapping_sub(b - b % 0x800);
    (raised - raised % 0x4000).wrapping_add(b) << cut_exponent
}

/// The top from the cut exponent 51 on, where it doesn't depend on the address: it is truncated to 65 bits.
#[inline(always)]
fn uncorrected_top(cut_exponent: u32, b: u64, span: u64) -> u128
    requires exponent_fits { cut_exponent ≤ 52 }
    requires b_fits { b < 2 ^ 14 }
    requires span_fits { span < 2 ^ 13 }
    ensures { result ≡ (b + span) * 2 ^ cut_exponent % 2 ^ 65 }
{
    (u128::from(b + span) << cut_exponent) & 0x1_ffff_ffff_ffff_ffff
}

/// A length: its units, scaled by the cut exponent.
#[inline(always)]
fn scaled(cut_exponent: u32, units: u64) -> u128
    requires exponent_fits { cut_exponent ≤ 52 }
    requires units_fit { units < 2 ^ 13 }
    ensures value { result ≡ units * 2 ^ cut_exponent }
    ensures small { result < 2 ^ 65 }
{
    u128::from(units) << cut_exponent
}

/// A length up to the cut exponent 50, where it needs 63 bits.
#[inline(always)]
fn scaled_short(cut_exponent: u32, units: u64) -> u64
    requires exponent_fits { cut_exponent ≤ 50 }
    requires units_fit { units < 2 ^ 13 }
    ensures value { result ≡ units * 2 ^ cut_exponent }
    ensures small { result < 2 ^ 63 }
{
    units << cut_exponent
}

/// Base, top and length of a word.
#[derive(Clone, Copy)]
struct Decoded {
    base: u64,
    top: u128,
    length: u128,
}

/// Decodes a word: up to the cut exponent 50 the top follows the base.
#[inline(always)]
fn decode(word: Word) -> Decoded
    ensures base { result.base ≡ base_of word.0 }
    ensures top { result.top ≡ top_of word.0 }
    ensures length { result.length ≡ length_of word.0 }
    ensures small { result.length < 2 ^ 65 }
{
    let Scale {
        cut_exponent,
        b,
        span,
    } = scale_of(word);
    let base = base_from(cut_exponent, b, word.address());
    if cut_exponent <= LAST_CORRECTED_EXPONENT {
        let length = u128::from(scaled_short(cut_exponent, span));
        Decoded {
            base,
            top: u128::from(base) + length,
            length,
        }
    } else {
        Decoded {
            base,
            top: uncorrected_top(cut_exponent, b, span),
            length: scaled(cut_exponent, span),
        }
    }
}

/// The bounds of a word, for all 2^128 of them.
#[inline(always)]
pub fn bounds(word: Word) -> Interval
    ensures base { result.base ≡ base_of word.0 }
    ensures top { result.top ≡ top_of word.0 }
    ensures relation { AreBounds word.0 result.base result.top }
    ensures top_fits { result.top < 2 ^ 65 }

    // They are also those that the Sail model finds, by shifts, comparisons and corrections.
    ensures model_base { result.base ≡ sail_base word.0 }
    ensures model_top { result.top ≡ sail_top word.0 }
{
    let Decoded { base, top, .. } = decode(word);
    Interval { base, top }
}

/// The addresses that a sound word holds, at least one.
#[derive(Clone, Copy)]
pub struct Extent {
    /// The lowest address.
    pub base: u64,
    /// How far the highest address lies above it.
    pub last: u64,
    pub ghost fits: { base + last < 2 ^ 64 },
}

impl Extent {
    /// Whether an address and the `more` addresses after it are among them.
    #[inline(always)]
    pub fn holds(self, address: u64, more: u64) -> bool
        ensures inside { IsTrue result ↔ IsInside address (address + (more + 1)) self.base (self.base + (self.last + 1)) }
    {
        let first = address.wrapping_sub(self.base);
        if first > self.last {
            return false;
        }
        self.last - first >= more
    }
}

/// The addresses that a sound word holds, computed in 64 bits, or `None` if it holds none.
#[inline(always)]
pub fn extent_of(word: Word) -> Option<Extent>
    requires sound { IsSound word.0 }
    ensures some { IfSome result (λ extent. (extent.base ≡ base_of word.0) × (extent.base + (extent.last + 1) ≡ top_of word.0)) }
    ensures none { result ≡ None → base_of word.0 ≡ top_of word.0 }
{
    let Scale {
        cut_exponent,
        b,
        span,
    } = scale_of(word);
    if span == 0 {
        return None;
    }
    Some(Extent {
        base: base_from(cut_exponent, b, word.address()),
        last: (span << cut_exponent).wrapping_sub(1),
    })
}

/// Whether an address and the `more` addresses after it lie in the bounds of a sound word, computed in 64 bits.
#[inline(always)]
pub fn sound_word_holds_more(word: Word, address: u64, more: u64) -> bool
    requires sound { IsSound word.0 }
    ensures inside { IsTrue result ↔ IsInside address (address + (more + 1)) (base_of word.0) (top_of word.0) }
{
    match extent_of(word) {
        Some(extent) => extent.holds(address, more),
        None => false,
    }
}

/// Whether a word is sound: its top is its base plus its length, and is at most 2^64.
pub fn sound(word: Word) -> bool
    ensures sound { IsTrue result ↔ IsSound word.0 }
{
    let Decoded { base, top, length } = decode(word);
    u128::from(base) + length == top && top <= 1 << 64
}

/// The length of a word: its units, scaled by the cut exponent. It is the top less the base where the word is sound.
pub fn length_of(word: Word) -> u128
    ensures value { result ≡ length_of word.0 }
{
    decode(word).length
}

/// Whether the bounds of a sound word hold no address: exactly where its mantissa T doesn't lie above B.
#[inline(always)]
pub fn is_empty(word: Word) -> bool
    ensures value { IsSound word.0 → result ≡ nat_le (top_of word.0) (base_of word.0) }
{
    scale_of(word).span == 0
}

/// A word has exactly one base and top, and its length is how far its mantissa T lies above B, in units. This
/// does nothing: its contract is the law.
pub fn bounds_are_unique(word: Word)
    ensures exists { AreBounds word.0 (base_of word.0) (top_of word.0) }
    ensures unique { (base top : ℕ) → AreBounds word.0 base top → (base ≡ base_of word.0) × (top ≡ top_of word.0) }
    ensures length { (mantissa : ℕ) → IsMantissa (b_of word.0) (t_of word.0) (ie_of word.0) mantissa
        → length_of word.0 ≡ span_of (b_of word.0) mantissa * unit_of word.0 }
{
    let _ = word;
}
