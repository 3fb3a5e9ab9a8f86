//! The lines of a log of capability operations: their grammar, and how they are read and written. The streams of
//! bytes that hold them are those of `cap_streams`, whose items this crate passes on. Nothing here allocates.
//!
//! A line is a list of words with one space between each two. [`read_line`] returns the line that some bytes spell.
//! [`take_line`] takes a line with its line feed from the front of some bytes, and [`write_line`] writes a line's
//! one spelling.
//!
//! A line can also be taken in two steps: its first word, the [`Head`], and then the operands, by
//! [`take_operands`]. Each kind of step has its own type, such as [`Move`](kinds::Move), which implements
//! [`Operands`]. [`Step`] is the enum of all kinds.
//!
//! The numbers of a step have their own types, whose values are always in range: [`Register`], [`Target`],
//! [`Offset`], [`Size`], and [`Datum`], the number that a load or a store takes.
//!
//! The parts of a line are [`Part`]s. Each takes itself from the front of some bytes, with the byte that ends it.
//! Two parts with a space between them are a part, too.
//!
//! The functions of [`buffers`] put texts and numbers into a buffer, one after the other.
#![tactic(auto)]

pub mod buffers;
pub mod kinds;
mod lines;
mod operands;
mod parts;
mod readers;
mod writers;

pub use crate::kinds::{Head, Step, take_operands};
pub use crate::lines::{Line, Mode, Place};
pub use crate::operands::Operands;
pub use crate::parts::decimals::take_decimal;
pub use crate::parts::fronts::{are_four, strip_word};
pub use crate::parts::offsets::Offset;
pub use crate::parts::registers::{Register, Target};
pub use crate::parts::results::strip_result;
pub use crate::parts::sized::{Datum, Size};
pub use crate::parts::{Part, Single};
pub use crate::readers::{read_line, spellings_are_distinct, take_line};
pub use crate::writers::{write_line, write_place, write_step};
pub use cap_streams::{
    FailingSink, FailingSource, Lines, Next, PullFault, PushFault, ReadSource, Sink, SliceSink,
    SliceSource, Source, WriteSink, push_all,
};
