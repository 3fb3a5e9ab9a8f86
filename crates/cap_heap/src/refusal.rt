//! The reasons for which a line of an allocator's log is refused, and their numbers.

ghost use Rattle.std.specs.Prelude.{◌≡◌, ◌≤◌, length};

use cap_ops::refusal_name_at;

/// Why an allocator's log is refused: the first check that a line fails. The numbers and names are this
/// profile's own, and the first seven are those of the log of operations.
#[derive(Debug, Clone, Copy, PartialEq, Eq)]
pub enum HeapRefusal {
    /// 1: The first line is not `heap 1`.
    BadHeader = 1,
    /// 2: 96 bytes come without a line feed.
    LineTooLong = 2,
    /// 3: A line after the header has none of the forms.
    BadLine = 3,
    /// 4: The second line is no root, a later one is a root or a header, or anything comes after the end line.
    Misplaced = 4,
    /// 5: The bytes end before a line feed, or before the end line.
    Truncated = 5,
    /// 6: The end line's number is not the number of events.
    WrongCount = 6,
    /// 24: The limit on events is passed.
    LimitPassed = 24,
    /// 26: An object lives at the new one's very address.
    AddressTaken = 26,
    /// 27: The rounded bounds do not lie inside the root's.
    OutsideHeap = 27,
    /// 28: The rounded bounds have an address in common with those of a live object.
    Overlaps = 28,
    /// 29: No object lives at the address that is freed.
    NotLive = 29,
}

impl HeapRefusal {
    ghost use Rattle.cap_heap.specs.Refusals.{heap_refusal_name, heap_refusal_number};

    /// The number that a verdict line shows.
    pub fn number(&self) -> u8
        ensures number { result ≡ heap_refusal_number self.now }
        ensures range { (1 ≤ result) × (result ≤ 29) }
    {
        *self as u8
    }

    /// The name that a verdict line shows, as the variant is spelled.
    pub fn name(&self) -> &'static str
        ensures name { result.now ≡ heap_refusal_name self.now }
        ensures short { length result.now ≤ 12 }
    {
        refusal_name_at(self.number())
    }
}
