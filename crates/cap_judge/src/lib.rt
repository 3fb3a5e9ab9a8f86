//! The judge: the grammar of whole logs, how a log is judged line by line, the verdicts and their texts, the laws
//! of both, and the origins of what the last state of a log holds.
//!
//! Hand the bytes of a log to a [`Judge`], cut anywhere. [`judge`] judges what a source gives, [`judge_bytes`]
//! bytes in memory. [`judge_to`] and [`judge_origins`] also write the verdict. [`judge_keeping`] returns the
//! machine with the answer, and after a `no` the refused line.
#![tactic(auto)]

mod expectation;
mod faults;
mod judges;
mod laws;
mod origins;
mod output;
mod steps;
mod streams;
mod verdict;
mod verdict_lines;

pub use crate::faults::RefusedLine;
pub use crate::judges::Judge;
pub use crate::laws::{
    accepted_in_turn, escapes_are_named_exactly, logs_are_guarded, logs_clear_exactly, one_verdict,
    other_bytes_are_of_version_one, some_verdict, stages_are_of_logs,
};
pub use crate::origins::origin_text;
pub use crate::output::{judge_origins, judge_to, push_report, push_verdict};
pub use crate::steps::take_steps;
pub use crate::streams::{
    JudgeEnd, judge, judge_bytes, judge_bytes_keeping, judge_in, judge_keeping,
};
pub use crate::verdict::{Expected, TakeFault, Verdict};
pub use crate::verdict_lines::{verdict_status, verdict_text};
pub use cap_streams::judging::{FaultLine, JudgeFault, JudgeToFault};
pub use cap_turns::{Stop, Taken};
