//! The diagnosis after a `no`: the refused line, what the machine held before it, what its step asked for and from
//! which root that descends, and, if the line records another result, what the rules give.
//!
//! [`judge_why`] judges what a source gives, and pushes the verdict, after a `no` with its diagnosis.
//! [`judge_why_bytes`] judges bytes in memory. [`push_refused`] pushes the `no` of a judge that is handed lines,
//! and [`push_ending`] its verdict on these lines as a whole log.
//!
//! The libraries that judge for C stand on it too: [`answers`] are verdicts as C gets them, and [`texts`] writes a
//! text into the room that C has for it.
#![tactic(auto)]

pub mod answers;
pub mod bad_lines;
mod explanations;
pub mod fault_reports;
mod operands;
mod parts;
pub mod root_says;
pub mod says;
pub mod sentences;
pub mod step_lines;
pub mod texts;

pub use crate::explanations::{judge_why, judge_why_bytes, push_ending, push_refused};
