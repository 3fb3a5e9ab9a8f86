//! The texts of `explain`, `round` and reports, and which word of a line is wrong. Each line of a text is a name and its
//! value.
#![tactic(auto)]

pub mod cap_lines;
mod explain_lines;
pub mod fields;
mod round_lines;
pub mod shown_bytes;
pub mod text_lines;
pub mod tops;
pub mod wrong_lines;

pub use crate::explain_lines::{explain_text, memory_text};
pub use crate::round_lines::round_text;
