//! Objects that are handed out and freed: their extents, and how many places hold each. Nothing here knows what a place
//! is: its owner is counted up and down.
#![tactic(auto)]

mod bases;
mod entries;
mod handouts;
mod index;
mod laws;
mod moments;
mod objects;
mod recounting;
mod slots;

pub use crate::handouts::{HandOutFault, Handouts, NumberFault};
pub use crate::laws::{counts_move, meeting_is_sharing};
pub use crate::moments::Moment;
pub use crate::objects::Object;
pub use crate::recounting::{recount, recount_both};
