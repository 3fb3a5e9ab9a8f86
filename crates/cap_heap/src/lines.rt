//! The lines of an allocator's log.

use crate::events::Event;
use cap_bounds::Interval;

/// A line of an allocator's log.
#[derive(Clone, Copy, Debug, PartialEq, Eq)]
pub enum HeapLine {
    /// `heap 1`: the first line.
    Header,
    /// `root BASE TOP`: the second line, the bounds inside which objects lie.
    Root(Interval),
    /// `malloc ADDRESS LENGTH` or `free ADDRESS`.
    Happens(Event),
    /// `end COUNT`: the last line, how many events there were.
    End(u32),
}
