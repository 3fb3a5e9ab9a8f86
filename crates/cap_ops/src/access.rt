//! What is asked of an authority over memory.

ghost use Rattle.std.specs.Prelude.{◌≤ℤ◌, pos, neg_ℤ, IsTrue};
ghost use Rattle.cap_ops.specs.Sizes.{size_fits};

use crate::kinds::Kind;

/// An access to memory through an authority: what it does, how far from the authority's address, and to
/// how many bytes.
#[derive(Debug, Clone, Copy, PartialEq, Eq)]
pub struct Access {
    /// What it does.
    pub kind: Kind,
    /// The distance from the authority's address, -2048 to 2047.
    pub offset: i16,
    /// The number of bytes: 1, 2, 4 or 8 of data, and 16 of a capability.
    pub size: u8,
    pub ghost offset_from: { neg_ℤ (pos 2048) ≤ℤ offset },
    pub ghost offset_to: { offset ≤ℤ pos 2047 },
    pub ghost size_fits_kind: { IsTrue (size_fits kind size) },
}
