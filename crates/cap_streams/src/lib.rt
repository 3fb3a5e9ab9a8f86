//! Streams of bytes that hold lines: where the bytes come from, where a line ends, where a text goes, and what those
//! who read lines report. Nothing here allocates.
//!
//! A [`Source`] gives bytes a piece at a time, and [`ReadBuffer`] holds those not yet taken. [`front`] finds the line at
//! the front of some bytes, and [`Lines`] are the lines of what a source gives, however it is cut. A [`Sink`] takes
//! bytes a piece at a time, and [`push_all`] pushes a whole text.
//!
//! A judge of lines reports the [`FaultLine`](judging::FaultLine) at which it stopped, and why it gave no verdict:
//! [`JudgeFault`](judging::JudgeFault), or [`JudgeToFault`](judging::JudgeToFault) if it writes one.
#![tactic(auto)]

mod fronts;
pub mod judging;
mod lines;
mod read_buffer;
mod sinks;
mod sources;

pub use crate::fronts::{LINE_LIMIT, front};
pub use crate::lines::{Front, Lines, Next};
pub use crate::read_buffer::ReadBuffer;
pub use crate::sinks::faults::FailingSink;
pub use crate::sinks::slices::SliceSink;
pub use crate::sinks::writers::WriteSink;
pub use crate::sinks::{PushFault, Sink, push_all};
pub use crate::sources::faults::FailingSource;
pub use crate::sources::readers::ReadSource;
pub use crate::sources::slices::SliceSource;
pub use crate::sources::{PullFault, Source};
