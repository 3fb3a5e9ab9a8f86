//! Lines of a log that are judged one at a time, each allowed in its turn, whatever the lines say. Both judges, that of
//! logs of versions 1 and 2 and that of run logs, read lines so: its definitions are here, over a record of what lines
//! are judged by, and what a judge answers where it stops.
#![tactic(auto)]

mod stops;

pub use crate::stops::{Stop, Taken, is_whole};
