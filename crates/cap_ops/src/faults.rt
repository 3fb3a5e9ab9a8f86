//! Why an operation or an access is refused.

use crate::refusal::Refusal;

/// The check that refuses an operation or an access.
#[derive(Debug, Clone, Copy, PartialEq, Eq)]
pub enum OpFault {
    /// The source of a sealing or an unsealing has no tag.
    SourceUntagged,
    /// The source is sealed, and the operation is for one that is not.
    SourceSealed,
    /// The rounded bounds of a request do not lie inside the source's bounds.
    BoundsEscape,
    /// The bounds of a request that is to be exact would be rounded.
    NotExact,
    /// A new address does not keep the source's bounds.
    NotRepresentable,
    /// The authority has no tag.
    AuthorityUntagged,
    /// The authority is sealed.
    AuthoritySealed,
    /// The authority lacks the permission for what is asked.
    AuthorityPermission,
    /// The authority's bounds do not hold what is asked: each byte of an access, or for sealing and
    /// unsealing the authority's own address.
    AuthorityBounds,
    /// The authority's address is above the greatest object type for sealing.
    TypeOutOfRange,
    /// The source to unseal is not sealed with the authority's address, or has a reserved object type.
    TypeMismatch,
    /// The address of an access is no multiple of its size.
    Misaligned,
    /// A tagged capability is stored by an authority without Store Capability.
    StoreCapPermission,
    /// A tagged capability that is not global is stored by an authority without Store Local Capability.
    StoreLocalPermission,
}

impl OpFault {
    ghost use Rattle.std.specs.Prelude.{◌≡◌};
    ghost use Rattle.cap_ops.specs.Refusals.{fault_number};

    /// The number of the refusal, 9 to 22.
    pub fn number(&self) -> u8
        ensures value { result ≡ fault_number self.now }
    {
        Refusal::from(*self).number()
    }
}
