//! What a judge of an allocator's log answers.

use crate::refusal::HeapRefusal;

/// The verdict on the bytes of an allocator's log.
#[derive(Debug, Clone, Copy, PartialEq, Eq)]
pub enum HeapVerdict {
    /// They are a log of objects whose rounded bounds lie apart and inside the root at every moment.
    Yes {
        /// How many events it has.
        events: u32,
        /// How many objects live at its end.
        live: u64,
    },
    /// They are none.
    No {
        /// The number of the faulty line, from 1 on.
        line: u64,
        /// The first check that this line fails.
        refusal: HeapRefusal,
    },
}
