//! The kinds of access to memory.

use cap_word::Cap;

/// What an access does.
#[derive(Debug, Clone, Copy, PartialEq, Eq)]
pub enum Kind {
    /// Reads data.
    LoadData,
    /// Writes data.
    StoreData,
    /// Reads a capability.
    LoadCap,
    /// Writes this capability.
    StoreCap(Cap),
}
