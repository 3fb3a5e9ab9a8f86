//! Vector files: lines that state what a word decodes to, whether an address keeps its bounds, how a request is
//! rounded or what a word's bytes in memory are; and whether all lines are true.
#![tactic(auto)]

mod files;
mod operands;
mod statements;
mod texts;
mod writers;

pub use crate::files::{VectorVerdict, vectors};
pub use crate::statements::is_true_line;
pub use crate::texts::vector_text;
