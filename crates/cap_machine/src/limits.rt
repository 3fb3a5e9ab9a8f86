//! The limits that a machine keeps to.

/// The greatest numbers of roots and of distinct granules that a machine takes: past one comes `LimitPassed`.
#[derive(Debug, Clone, Copy, PartialEq, Eq)]
pub struct Limits {
    /// The greatest number of roots.
    pub roots: u32,
    /// The greatest number of distinct granules that roots, `sc` and `store` name.
    pub granules: u32,
}
