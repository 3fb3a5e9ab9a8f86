//! What a store of tagged memory does.
//!
//! Granule `g` is the sixteen bytes from address `16 * g` on, so there are 2^60 of them. Each has one
//! tag, which says whether its bytes are a valid capability. A store keeps those that were put, and
//! beside each capability a code of its origin, whose meaning is its user's.
ghost use Rattle.std.specs.Prelude.{◌≡◌, ℕ, ◌+◌, ◌^◌, ◌<◌, ◌≤◌, length, None, OnOk, OnErr, Some, codes};
ghost use Rattle.std.specs.FinMap as map;
ghost use Rattle.tagmem.specs.Granules.{Granules, AreStored, HasRoom, IsCodeFor, IsNextPut, shown, code_at, with_cap};
ghost use Rattle.tagmem.specs.Granules.{with_bytes};

use std::{error, fmt};

/// The memory that a granule put for the first time needs was refused.
#[derive(Clone, Copy, Debug, PartialEq, Eq)]
pub struct NoMemory;

impl fmt::Display for NoMemory {
    ghost output = { λ fault. Some (codes "out of memory") };

    fn fmt<W: fmt::Write>(&self, f: &mut fmt::Formatter<W>) -> fmt::Result {
        f.write_str("out of memory")
    }
}

impl error::Error for NoMemory {}

/// A store of granules: a map from numbers below 2^60 to a tag, sixteen bytes, lowest address first,
/// and the code of an origin, which is 0 exactly where the tag is clear.
///
/// Nothing but a put of a granule that was never put takes memory.
pub trait TaggedStore: Drop {
    /// The entries of the granules that were put, however the store keeps them.
    ghost contents: { Self → Granules };

    /// How many granules surely have room, as long as the store lives: none is refused while fewer were put.
    ghost least_room: { Self → ℕ };

    /// The tag and the bytes of a granule, or `None` where it was never put.
    fn get(&self, granule: u64) -> Option<(bool, [u8; 16])>
        requires { granule < 2 ^ 60 }
        ensures value { result ≡ shown (map.get (contents self.now) granule) };

    /// The code of the origin of a granule's capability: 0 where it has no tag or was never put.
    fn code(&self, granule: u64) -> u64
        requires { granule < 2 ^ 60 }
        ensures value { result ≡ code_at (contents self.now) granule };

    /// The tag, the bytes and the code of the origin of a granule, or `None` where it was never put: what `get`
    /// and `code` tell, found at once.
    fn entry(&self, granule: u64) -> Option<(bool, [u8; 16], u64)>
        requires { granule < 2 ^ 60 }
        ensures value { result ≡ map.get (contents self.now) granule }
    {
        match self.get(granule) {
            Some(shown) => {
                let bytes = shown.1;
                Some((shown.0, bytes, self.code(granule)))
            }
            None => None,
        }
    }

    /// The least granule at or above a number that was put, or `None` where there is none. Any number
    /// does, also one that is no granule's.
    fn next_put(&self, granule: u64) -> Option<u64>
        ensures least { IsNextPut (contents self.now) granule result };

    /// Sets a granule's tag and bytes, and the code of the origin, any but 0 for a tag and 0 for none.
    /// After an error the store is as it was, and a granule that was put before never gives one.
    fn put_cap(
        &mut self,
        granule: u64,
        tag: bool,
        bytes: [u8; 16],
        code: u64,
    ) -> Result<(), NoMemory>
        requires in_memory { granule < 2 ^ 60 }
        requires coded { IsCodeFor tag code }
        requires room { HasRoom (contents self.old) granule }
        ensures ok { OnOk result (contents self.new ≡ with_cap (contents self.old) granule tag bytes code) }
        ensures err { OnErr result (contents self.new ≡ contents self.old) }
        ensures only_new { OnErr result (map.get (contents self.old) granule ≡ None) }
        ensures no_room { OnErr result (least_room self.old ≤ map.len (contents self.old)) }
        ensures same_room { least_room self.new ≡ least_room self.old };

    /// Writes one to sixteen bytes inside a granule, from a byte index on, and clears its tag and its
    /// code. Its other bytes stay, and are zero where it was never put. Errors are those of `put_cap`.
    fn put_bytes(&mut self, granule: u64, byte_index: u8, bytes: &[u8]) -> Result<(), NoMemory>
        requires in_memory { granule < 2 ^ 60 }
        requires some { 0 < length bytes.now }
        requires inside { byte_index + length bytes.now ≤ 16 }
        requires room { HasRoom (contents self.old) granule }
        ensures ok { OnOk result (contents self.new ≡ with_bytes (contents self.old) granule byte_index bytes.now) }
        ensures err { OnErr result (contents self.new ≡ contents self.old) }
        ensures only_new { OnErr result (map.get (contents self.old) granule ≡ None) }
        ensures no_room { OnErr result (least_room self.old ≤ map.len (contents self.old)) }
        ensures same_room { least_room self.new ≡ least_room self.old };

    /// How many granules were put.
    fn count(&self) -> u32
        ensures value { result ≡ map.len (contents self.now) };

    /// Each entry is of a granule below 2^60 and has sixteen bytes, and a code just where it has a tag.
    ghost are_stored: { (s : Self) → AreStored (contents s) };

    /// The count fits 32 bits.
    ghost count_fits: { (s : Self) → map.len (contents s) < 2 ^ 32 };
}
