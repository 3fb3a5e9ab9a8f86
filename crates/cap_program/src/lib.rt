//! Code shared by the two programs: arguments, orders and how they are carried out, inputs and outputs, and faults
//! with their statuses and lines.
#![tactic(auto)]

mod answers;
mod commands;
mod faults;
mod inputs;
mod outputs;
mod runs;
mod words;

pub use crate::answers::{exit_status, hand_on, tell, tell_of};
pub use crate::commands::Command;
pub use crate::faults::{Fault, fault_of};
pub use crate::inputs::opened;
pub use crate::outputs::{Output, show};
pub use crate::runs::{carry_out, run};
pub use crate::words::{collect_words, is_operand, take_option};
