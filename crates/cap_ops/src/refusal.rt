//! The 25 reasons for which a line of a log is refused, and their numbers.

ghost use Rattle.std.specs.Prelude.{◌≡◌, ◌≤◌, length};

use crate::faults::OpFault;
use crate::refusal_names::refusal_name_at;

/// Why a line of a log is refused: the first check that fails. The numbers and names are this profile's own.
#[derive(Debug, Clone, Copy, PartialEq, Eq)]
pub enum Refusal {
    /// 1: The first line is neither `capcheck 1` nor `capcheck 2`.
    BadHeader = 1,
    /// 2: 96 bytes come without a line feed.
    LineTooLong = 2,
    /// 3: A line after the header has none of the forms of the log's version.
    BadLine = 3,
    /// 4: A root after a step; a second version line; in version 2 a second mode line; any byte after the end
    /// line.
    Misplaced = 4,
    /// 5: The bytes end before a line feed, or before the end line.
    Truncated = 5,
    /// 6: The end line's number is not the number of steps.
    WrongCount = 6,
    /// 7: The root's place has a root already.
    PlaceTaken = 7,
    /// 8: The root's word is not sound.
    UnsoundRoot = 8,
    /// 9: The source is untagged, and the step needs a tagged one.
    SourceUntagged = 9,
    /// 10: The source is sealed, and the step needs an unsealed one.
    SourceSealed = 10,
    /// 11: The rounded bounds do not lie inside the source's bounds.
    BoundsEscape = 11,
    /// 12: Rounding changes the requested bounds.
    NotExact = 12,
    /// 13: The new address doesn't keep the source's bounds.
    NotRepresentable = 13,
    /// 14: The authority has no tag.
    AuthorityUntagged = 14,
    /// 15: The authority is sealed.
    AuthoritySealed = 15,
    /// 16: The authority lacks the permission that the step needs.
    AuthorityPermission = 16,
    /// 17: The authority's address, or a byte of the access, lies outside the authority's bounds.
    AuthorityBounds = 17,
    /// 18: The authority's address is above the greatest ordinary object type.
    TypeOutOfRange = 18,
    /// 19: The source's object type is not the authority's address, or is reserved.
    TypeMismatch = 19,
    /// 20: The address of the access is no multiple of its size.
    Misaligned = 20,
    /// 21: A tagged capability is stored without Store Capability.
    StoreCapPermission = 21,
    /// 22: A tagged capability that is not Global is stored without Store Local Capability.
    StoreLocalPermission = 22,
    /// 23: The recorded result or value is not the machine's.
    WrongResult = 23,
    /// 24: A limit on roots, granules or steps is passed.
    LimitPassed = 24,
    /// 25: The line after the version line of version 2 is no mode line.
    BadMode = 25,
}

impl Refusal {
    ghost use Rattle.cap_ops.specs.Refusals.{refusal_name, refusal_number};

    /// The number that a verdict line shows, 1 to 25.
    pub fn number(&self) -> u8
        ensures number { result ≡ refusal_number self.now }
        ensures range { (1 ≤ result) × (result ≤ 25) }
    {
        *self as u8
    }

    /// The name that a verdict line shows, as the variant is spelled.
    pub fn name(&self) -> &'static str
        ensures name { result.now ≡ refusal_name self.now }
        ensures short { length result.now ≤ 20 }
    {
        refusal_name_at(self.number())
    }
}

impl From<OpFault> for Refusal {
    ghost use Rattle.cap_ops.specs.Refusals.{refusal_of};

    ghost from_gives = { λ fault refusal. refusal ≡ refusal_of fault };

    fn from(fault: OpFault) -> Refusal {
        match fault {
            OpFault::SourceUntagged => Refusal::SourceUntagged,
            OpFault::SourceSealed => Refusal::SourceSealed,
            OpFault::BoundsEscape => Refusal::BoundsEscape,
            OpFault::NotExact => Refusal::NotExact,
            OpFault::NotRepresentable => Refusal::NotRepresentable,
            OpFault::AuthorityUntagged => Refusal::AuthorityUntagged,
            OpFault::AuthoritySealed => Refusal::AuthoritySealed,
            OpFault::AuthorityPermission => Refusal::AuthorityPermission,
            OpFault::AuthorityBounds => Refusal::AuthorityBounds,
            OpFault::TypeOutOfRange => Refusal::TypeOutOfRange,
            OpFault::TypeMismatch => Refusal::TypeMismatch,
            OpFault::Misaligned => Refusal::Misaligned,
            OpFault::StoreCapPermission => Refusal::StoreCapPermission,
            OpFault::StoreLocalPermission => Refusal::StoreLocalPermission,
        }
    }
}
