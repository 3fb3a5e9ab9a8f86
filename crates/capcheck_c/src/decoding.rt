//! The bounds that a word has.

ghost use Rattle.std.specs.Prelude.{◌≡◌, ◌<◌, ◌^◌, ◌↔◌, ℕ, IsTrue};
ghost use Rattle.cap_word.specs.Fields.{b_of, ie_of, t_of};
ghost use Rattle.cap_bounds.specs.Bounds.{AreBounds, IsMantissa, IsSound, base_of, length_of, top_of};
ghost use Rattle.cap_bounds.specs.SailDecoding.{sail_base, sail_top};
ghost use Rattle.cap_halves.specs.Passed.{whole_of};

use crate::values::Bounds;
use cap_bounds::{bounds, mantissa, sound};
use cap_halves::halves::{halves_of, word_of};
use cap_halves::values::Halves;
use cap_word::split;

/// The bounds of a word, for all 2^128 of them.
#[unsafe(no_mangle)]
pub extern "C" fn capcheck_decode(word: Halves) -> Bounds
    ensures base { result.base ≡ base_of (whole_of word) }
    ensures top { whole_of result.top ≡ top_of (whole_of word) }
    ensures relation { AreBounds (whole_of word) result.base (whole_of result.top) }
    ensures top_fits { whole_of result.top < 2 ^ 65 }

    // The same bounds as the Sail model decodes them.
    ensures model_base { result.base ≡ sail_base (whole_of word) }
    ensures model_top { whole_of result.top ≡ sail_top (whole_of word) }
{
    let interval = bounds(word_of(word));
    Bounds {
        base: interval.base,
        top: halves_of(interval.top),
    }
}

/// The mantissa T of a word's top, all fourteen bits: the word has the low twelve, and the two others follow from B
/// and IE.
#[unsafe(no_mangle)]
pub extern "C" fn capcheck_mantissa(word: Halves) -> u16
    ensures relation { IsMantissa (b_of (whole_of word)) (t_of (whole_of word)) (ie_of (whole_of word)) result }
    ensures unique { (t : ℕ) → IsMantissa (b_of (whole_of word)) (t_of (whole_of word)) (ie_of (whole_of word)) t → t ≡ result }
{
    mantissa(&split(word_of(word)))
}

/// Whether a word is sound: its top is its base plus its length, and is at most 2^64.
#[unsafe(no_mangle)]
pub extern "C" fn capcheck_sound(word: Halves) -> bool
    ensures sound { IsTrue result ↔ IsSound (whole_of word) }
{
    sound(word_of(word))
}

/// The length of a sound word, its top less its base, at most 2^64; 0 for a word that isn't sound.
#[unsafe(no_mangle)]
pub extern "C" fn capcheck_length(word: Halves) -> Halves
    ensures sound { IsSound (whole_of word) → whole_of result ≡ length_of (whole_of word) }
    ensures unsound { ¬ IsSound (whole_of word) → whole_of result ≡ 0 }
{
    let word = word_of(word);
    if !sound(word) {
        return halves_of(0);
    }
    let interval = bounds(word);
    halves_of(interval.top.saturating_sub(u128::from(interval.base)))
}
