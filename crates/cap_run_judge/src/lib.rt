//! The judge of run logs: how a log is judged line by line, the verdicts and their texts, and the objects and owned
//! places of a log's last state.
//!
//! Hand the bytes of a run log to a [`RunJudge`], cut anywhere. [`judge_run`] judges what a source gives,
//! [`judge_run_bytes`] bytes in memory. [`judge_run_to`] also writes the verdict, and the owners if asked.
//! [`judge_run_keeping`] returns the machine with the answer, and after a `no` the refused line.
#![tactic(auto)]

mod faults;
mod judges;
mod laws;
mod output;
mod owners;
mod questions;
mod steps;
mod streams;
mod verdict;
mod verdict_lines;

pub use crate::faults::RefusedRunLine;
pub use crate::judges::RunJudge;
pub use crate::laws::{
    logs_are_run_logs, one_run_verdict, run_logs_are_accepted_without_objects,
    run_logs_are_guarded, some_run_verdict, stages_are_of_run_logs, verdicts_differ_by_choice,
};
pub use crate::output::{judge_run_to, push_run_report, push_run_verdict};
pub use crate::owners::{object_text, owner_text, push_owners, put_hart_place};
pub use crate::streams::{
    RunJudgeEnd, judge_run, judge_run_bytes, judge_run_in, judge_run_keeping,
};
pub use crate::verdict::RunVerdict;
pub use crate::verdict_lines::{
    run_refusal_name, run_refusal_number, run_verdict_status, run_verdict_text,
};
