//! What an allocator does, and why it can't.

use crate::refusal::HeapRefusal;

/// An event of an allocator.
#[derive(Clone, Copy, Debug, PartialEq, Eq)]
pub enum Event {
    /// An object is allocated.
    Malloc {
        /// If it begins.
        address: u64,
        /// How many bytes were requested.
        length: u64,
    },
    /// An object lives no more.
    Free {
        /// If it began.
        address: u64,
    },
}

/// Why an event did not happen.
#[derive(Clone, Copy, Debug, PartialEq, Eq)]
pub enum EventEnd {
    /// A check refuses it.
    Refused(HeapRefusal),
    /// There was no memory for a new object.
    NoMemory,
}
