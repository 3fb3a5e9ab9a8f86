//! What C passes, made into words and capabilities, and back.

ghost use Rattle.std.specs.Prelude.{◌≡◌, ◌≤◌};
ghost use Rattle.cap_halves.specs.Passed.{cap_of, no_cap, whole_of};

use crate::values::{Capability, Halves};
use cap_word::{Cap, Word, null};

/// The number that two halves make.
#[tactic(auto, unfolding(crate::specs::Passed::whole_of))]
pub fn whole(halves: Halves) -> u128
    ensures value { result ≡ whole_of halves }
{
    (u128::from(halves.high) << 64) + u128::from(halves.low)
}

/// The halves of a number.
#[tactic(auto, unfolding(crate::specs::Passed::whole_of))]
pub fn halves_of(number: u128) -> Halves
    ensures value { whole_of result ≡ number }
{
    Halves {
        high: (number >> 64) as u64,
        low: (number & 0xffff_ffff_ffff_ffff) as u64,
    }
}

/// The word that two halves make.
pub fn word_of(halves: Halves) -> Word
    ensures value { result.0 ≡ whole_of halves }
{
    Word(whole(halves))
}

/// A capability that C passes.
pub fn from_c(passed: Capability) -> Cap
    ensures value { result ≡ cap_of passed }
{
    Cap {
        tag: passed.tag != 0,
        word: word_of(passed.word),
    }
}

/// A capability as C gets it.
pub fn to_c(cap: Cap) -> Capability
    ensures cap { cap_of result ≡ cap }
    ensures tag { result.tag ≤ 1 }
{
    Capability {
        word: halves_of(cap.word.0),
        tag: u8::from(cap.tag),
    }
}

/// NULL without a tag.
pub fn no_capability() -> Capability
    ensures cap { cap_of result ≡ no_cap }
    ensures tag { result.tag ≤ 1 }
{
    to_c(Cap {
        tag: false,
        word: null(),
    })
}
