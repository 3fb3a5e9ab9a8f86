//! The context of a line that a judge refuses: the lines before it, and those that last wrote the registers that it reads.
//!
//! A [`Recorder`] is a source that keeps what a context needs of what another gives, as [`Kept`], and [`push_context`] appends
//! the lines that show the context to a report.
#![tactic(auto)]

mod contexts;
mod keepings;
mod recorders;
mod registers;
mod writers;

pub use crate::contexts::push_context;
pub use crate::keepings::Kept;
pub use crate::recorders::Recorder;
