//! The definitions of bounds and roundings as plain programs, slow and short: by divisions of signed numbers and by
//! search. Tests compare the fast functions with them.
#![tactic(auto)]

mod decoding;
mod residues;
mod search;

pub use crate::decoding::{plain_bounds, plain_keeps, plain_mantissa, plain_sound};
pub use crate::search::plain_round;
