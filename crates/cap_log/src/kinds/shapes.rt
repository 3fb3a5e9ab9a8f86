//! What each kind of step takes and records: six shapes for the twelve kinds.

#![tactic(auto)]

ghost use Rattle.std.specs.Prelude.{◌≡◌};

use crate::parts::offsets::Offset;
use crate::parts::registers::{Register, Target};
use crate::parts::sized::Datum;
use cap_word::Cap;

/// What a step takes that has a source alone, and what it records.
#[derive(Clone, Copy, Debug, PartialEq, Eq)]
pub struct Plain<const IS_CLEARING: bool> {
    /// The register that is written, 1 to 31.
    pub target: Target,
    /// The register that is read, 0 to 31.
    pub source: Register,
    /// What the target holds then.
    pub result: Cap,
}

/// `move`: the target gets the source.
pub type Move = Plain<false>;

/// `cleartag`: the target gets the source without its tag.
pub type ClearTag = Plain<true>;

impl<const IS_CLEARING: bool> Plain<IS_CLEARING> {
    /// What such a step takes and records.
    #[inline(always)]
    pub fn new(target: Target, source: Register, recorded: Cap) -> Self
        ensures value { result ≡ record { target = target; source = source; result = recorded } }
    {
        Plain {
            target,
            source,
            result: recorded,
        }
    }
}

/// The number of a step is the length of bounds.
pub const LENGTH: u8 = 0;

/// It is a length that isn't rounded.
pub const EXACT_LENGTH: u8 = 1;

/// It is an address.
pub const ADDRESS: u8 = 2;

// It is a mask.
const MASK: u8 = 3;

/// What a step takes that has a source and a number, and what it records.
#[derive(Clone, Copy, Debug, PartialEq, Eq)]
pub struct Numbered<const WHAT: u8> {
    /// The register that is written, 1 to 31.
    pub target: Target,
    /// The register that is read, 0 to 31.
    pub source: Register,
    /// The length that is asked for, the new address, or a bit for each permission that stays.
    pub number: u64,
    /// What the target holds then.
    pub result: Cap,
}

/// `setbounds`: the source's address and this length become bounds, rounded.
pub type SetBounds = Numbered<LENGTH>;

/// `setboundsexact`: the same, if nothing is rounded.
pub type SetBoundsExact = Numbered<EXACT_LENGTH>;

/// `setaddr`: the source at another address.
pub type SetAddr = Numbered<ADDRESS>;

/// `andperm`: the source with the permissions that the mask has too.
pub type AndPerm = Numbered<MASK>;

impl<const WHAT: u8> Numbered<WHAT> {
    /// What such a step takes and records.
    #[inline(always)]
    pub fn new(target: Target, source: Register, number: u64, recorded: Cap) -> Self
        ensures value { result ≡ record { target = target; source = source; number = number; result = recorded } }
    {
        Numbered {
            target,
            source,
            number,
            result: recorded,
        }
    }
}

/// What a step takes that has a source and an authority, and what it records.
#[derive(Clone, Copy, Debug, PartialEq, Eq)]
pub struct Authorized<const IS_UNSEALING: bool> {
    /// The register that is written, 1 to 31.
    pub target: Target,
    /// The register that is read, 0 to 31.
    pub source: Register,
    /// The register whose address is the object type, 0 to 31.
    pub authority: Register,
    /// What the target holds then.
    pub result: Cap,
}

/// `seal`: the source, sealed with the authority's address as its type.
pub type Seal = Authorized<false>;

/// `unseal`: the source, unsealed by the authority.
pub type Unseal = Authorized<true>;

impl<const IS_UNSEALING: bool> Authorized<IS_UNSEALING> {
    /// What such a step takes and records.
    #[inline(always)]
    pub fn new(target: Target, source: Register, authority: Register, recorded: Cap) -> Self
        ensures value { result ≡ record { target = target; source = source; authority = authority; result = recorded } }
    {
        Authorized {
            target,
            source,
            authority,
            result: recorded,
        }
    }
}

/// `lc`: the target gets a granule of memory.
#[derive(Clone, Copy, Debug, PartialEq, Eq)]
pub struct LoadCap {
    /// The register that is written, 1 to 31.
    pub target: Target,
    /// The register that the access goes through, 0 to 31.
    pub authority: Register,
    /// What is added to the authority's address, -2048 to 2047.
    pub offset: Offset,
    /// What the target holds then.
    pub result: Cap,
}

/// `sc`: a granule of memory gets the source.
#[derive(Clone, Copy, Debug, PartialEq, Eq)]
pub struct StoreCap {
    /// The register that is stored, 0 to 31.
    pub source: Register,
    /// The register that the access goes through, 0 to 31.
    pub authority: Register,
    /// What is added to the authority's address, -2048 to 2047.
    pub offset: Offset,
}

/// What a load or a store of data takes.
#[derive(Clone, Copy, Debug, PartialEq, Eq)]
pub struct Data<const IS_LOAD: bool> {
    /// The register that the access goes through, 0 to 31.
    pub authority: Register,
    /// What is added to the authority's address, -2048 to 2047.
    pub offset: Offset,
    /// The number that its bytes are, or become: 1, 2, 4 or 8 of them.
    pub datum: Datum,
}

/// `load`: the value of some bytes of memory.
pub type Load = Data<true>;

/// `store`: some bytes of memory get a value.
pub type Store = Data<false>;

impl<const IS_LOAD: bool> Data<IS_LOAD> {
    /// What such a step takes.
    #[inline(always)]
    pub fn new(authority: Register, offset: Offset, datum: Datum) -> Self
        ensures value { result ≡ record { authority = authority; offset = offset; datum = datum } }
    {
        Data {
            authority,
            offset,
            datum,
        }
    }
}
