//! The bounds of a capability word: how they are decoded, which words are sound, how a request is rounded to bounds
//! that a word can have, and which addresses keep a word's bounds. Nothing here allocates.
#![tactic(auto)]

mod decoding;
mod lengths;
mod range;
mod rounding;

pub use crate::decoding::{
    Extent, Interval, bounds, bounds_are_unique, extent_of, is_empty, length_of, mantissa, sound,
    sound_word_holds_more,
};
pub use crate::lengths::{align_mask, least_law, round_length};
pub use crate::range::{keeps_bounds, reach};
pub use crate::rounding::{Rounded, round, round_inside, with_bounds};
