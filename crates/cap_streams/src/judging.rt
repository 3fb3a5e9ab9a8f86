//! What those who judge lines report: the line at which they stopped, and why they gave no verdict.

mod fault_lines;
mod judge_faults;

pub use crate::judging::fault_lines::FaultLine;
pub use crate::judging::judge_faults::{JudgeFault, JudgeToFault};
