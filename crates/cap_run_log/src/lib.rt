//! The lines of a run log: their grammar, and how they are read and written. Nothing here allocates.
//!
//! A run log has the steps of `cap_log`, word for word, and seven kinds of line more. [`take_run_line`] takes a line with its
//! line feed from the front of some bytes, and [`write_run_line`] writes a line's one spelling.
#![tactic(auto)]

mod heads;
mod laws;
mod lines;
mod operands;
mod parts;
mod readers;
mod results;
mod writers;

pub use crate::heads::RunHead;
pub use crate::laws::usual_lines_are_run_lines;
pub use crate::lines::{Derive, Exchange, Invoke, RunLine, RunPlace, RunRegister, RunStep};
pub use crate::operands::{RunSource, RunTarget, Special};
pub use crate::readers::{
    read_run_line, run_spellings_are_distinct, take_derive, take_exchange, take_run_line, take_step,
};
pub use crate::writers::{write_exchange, write_run_line};
