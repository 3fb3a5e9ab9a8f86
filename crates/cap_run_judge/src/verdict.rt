//! The verdict on a run log.

use cap_run::RunRefusal;

/// The verdict on the bytes of a run log.
#[derive(Debug, Clone, Copy, PartialEq, Eq)]
pub enum RunVerdict {
    /// They are a run log, and no check of its lines fails.
    Yes {
        /// How many step lines it has.
        steps: u32,
        /// How many root lines it has.
        roots: u32,
        /// How many objects were handed out.
        objects: u32,
    },
    /// They are none.
    No {
        /// The number of the faulty line, from 1 on.
        line: u64,
        /// The first check that this line fails.
        refusal: RunRefusal,
    },
}
