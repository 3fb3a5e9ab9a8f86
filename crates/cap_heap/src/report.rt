//! What the objects of a log reach, and what exact bounds would cost.

ghost use Rattle.std.specs.Prelude.{◌≡◌, ◌+◌, ◌-◌, ◌^◌, ◌<◌, ◌≤◌, length};
ghost use Rattle.cap_bounds.specs.Rounding.{alignment_of};
ghost use Rattle.cap_streams.specs.Written.{Writes};
ghost use Rattle.cap_heap.specs.declared.events.Event.TheVariants.{Malloc};
ghost use Rattle.cap_heap.specs.HeapReports.{capped, excess_of, gap_of, padding_of, report_lines};

use cap_bounds::{align_mask, round, round_length};
use cap_texts::text_lines::put_decimal_line;

/// What the author of an allocator wants to know of an accepted log. A sum that does not fit 64 bits is the
/// greatest number of 64 bits.
#[derive(Clone, Copy, Debug, PartialEq, Eq)]
pub struct HeapReport {
    /// How many objects were allocated.
    pub objects: u64,
    /// How many lived at once, at most.
    pub most: u64,
    /// How many have bounds that are not exact.
    pub inexact: u64,
    /// How many bytes the bounds of all reach beyond them.
    pub excess: u64,
    /// The padding in bytes that all objects would need so that their lengths can be exact.
    pub padding: u64,
    /// How many bytes all would have to be moved up, each to where such a length is exact.
    pub gaps: u64,
}

impl HeapReport {
    ghost use Rattle.std.specs.Prelude.{[]};
    ghost use Rattle.cap_heap.specs.HeapReports.{Adds, IsReportOf};

    /// The report of no events.
    pub(crate) fn new() -> HeapReport
        ensures { IsReportOf result [] }
    {
        HeapReport {
            objects: 0,
            most: 0,
            inexact: 0,
            excess: 0,
            padding: 0,
            gaps: 0,
        }
    }

    /// Adds a new object, with which so many live.
    pub(crate) fn add(&mut self, address: u64, length: u64, live: u64)
        ensures { Adds self.old (Malloc address length) live self.new }
    {
        let excess = excess(address, length);
        self.objects = plus(self.objects, 1);
        self.inexact = plus(self.inexact, if excess == 0 { 0 } else { 1 });
        self.excess = plus(self.excess, excess);
        self.padding = plus(self.padding, padding(length));
        self.gaps = plus(self.gaps, gap(address, length));
        self.most = self.most.max(live);
    }
}

/// Writes the lines of a report at an index of the buffer, and returns the index after them.
#[tactic(auto, unfolding(crate::specs::HeapReports::report_lines))]
pub fn put_report(report: &HeapReport, buffer: &mut [u8], at: usize) -> usize
    requires { at + 192 ≤ length buffer.old }
    ensures written { Writes at (report_lines report.now) buffer.old buffer.new result }
    ensures fits { result ≤ at + 192 }
{
    let at = put_decimal_line(buffer, at, b"objects", report.objects);
    let at = put_decimal_line(buffer, at, b"most", report.most);
    let at = put_decimal_line(buffer, at, b"inexact", report.inexact);
    let at = put_decimal_line(buffer, at, b"excess", report.excess);
    let at = put_decimal_line(buffer, at, b"padding", report.padding);
    put_decimal_line(buffer, at, b"gaps", report.gaps)
}

// A sum as a number of 64 bits.
fn plus(sum: u64, more: u128) -> u64
    requires { more ≤ 2 ^ 66 }
    ensures { result ≡ capped (sum + more) }
{
    (u128::from(sum) + more).min(u128::from(u64::MAX)) as u64
}

// How many bytes the bounds of an object reach beyond it.
fn excess(address: u64, length: u64) -> u128
    ensures value { result ≡ excess_of (Malloc address length) }
    ensures fits { result ≤ 2 ^ 66 }
{
    let rounded = round(address, length);
    rounded.top - (u128::from(rounded.base) + u128::from(length))
}

// How many bytes more a length would need to be one that can be exact.
fn padding(length: u64) -> u128
    ensures value { result ≡ padding_of (Malloc 0 length) }
    ensures fits { result ≤ 2 ^ 66 }
{
    round_length(length) - u128::from(length)
}

/// The unit of which the addresses at which a length is exact are multiples.
pub(crate) fn alignment(length: u64) -> u128
    ensures value { result ≡ alignment_of length }
    ensures some { 0 < result }
    ensures fits { result ≤ 2 ^ 64 }
{
    (1 << 64) - u128::from(align_mask(length))
}

// How many bytes an object would have to be moved up, to where such a length is exact.
fn gap(address: u64, length: u64) -> u128
    ensures value { result ≡ gap_of (Malloc address length) }
    ensures fits { result ≤ 2 ^ 66 }
{
    let unit = alignment(length);
    let over = u128::from(address) % unit;
    if over == 0 { 0 } else { unit - over }
}
