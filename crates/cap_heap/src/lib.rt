//! The judge of an allocator's log: whether capabilities can guard its live objects, with bounds that lie apart.
//!
//! A capability can only have rounded bounds, and those of a long object may reach beyond it. A [`Heap`] keeps the
//! live objects of an allocator. It refuses an object whose rounded bounds leave the heap's, or share an address
//! with those of another object. [`judge_heap`] judges the log of an allocator from a source, line by line.
//! [`judge_heap_to`] also writes the verdict and, if it is asked for, after a `yes` what exact bounds would cost, and
//! after a `no` what the checks of the refused line compared.
#![tactic(auto)]

mod bad_lines;
mod events;
mod heads;
mod heap;
mod judge;
mod laws;
mod lines;
mod log_parts;
mod neighbours;
mod output;
mod progress;
mod readers;
mod refusal;
mod report;
mod verdict;
mod verdict_lines;
mod whys;

pub use crate::events::{Event, EventEnd};
pub use crate::heap::Heap;
pub use crate::judge::judge_heap;
pub use crate::laws::{apart_is_guarded, logs_have_no_fault};
pub use crate::lines::HeapLine;
pub use crate::output::judge_heap_to;
pub use crate::readers::read_heap_line;
pub use crate::refusal::HeapRefusal;
pub use crate::report::{HeapReport, put_report};
pub use crate::verdict::HeapVerdict;
pub use crate::verdict_lines::{heap_status, heap_text};
