//! The diagnosis after a `no` on a run log: the refused line, what the run held before it, and what its step asked for. Of
//! an object it shows the line that handed it out, its extent, the line that freed it, and the first place that holds it.
//!
//! [`judge_run_why`] judges what a source gives, and pushes the verdict, after a `no` with its diagnosis. [`push_run_refused`]
//! and [`push_run_ending`] push it for the lines handed to a judge; [`holder`] finds the first place that an object owns.
#![tactic(auto)]

mod bad_run_lines;
mod cap_parts;
mod derive_sentences;
mod explanations;
mod invoked_pairs;
mod line_reports;
mod object_parts;
mod object_steps;
mod run_sentences;
mod step_parts;

pub use crate::explanations::{judge_run_why, push_run_ending, push_run_refused};
pub use crate::object_parts::holder;
