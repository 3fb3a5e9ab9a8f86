//! The authority of a recent access, by which later ones are answered sooner.

ghost use Rattle.std.specs.Prelude.{◌≡◌, ◌≤◌, ◌+◌, ◌*◌, ◌/◌, ◌%◌, ◌^◌, ℕ, true, false};
ghost use Rattle.cap_bounds.specs.Bounds.{IsSound, base_of, top_of};
ghost use Rattle.cap_ops.specs.Accesses.{access_address};
ghost use Rattle.cap_ops.specs.Operations.{covers};
ghost use Rattle.cap_ops.specs.Permissions.{is_sealed, unsealed_type};

use crate::access::Access;
use crate::sealing::sealed;
use cap_bounds::{Extent, extent_of};
use cap_word::Word;

/// What is kept of an unsealed authority: the high half of its word, and the addresses in its bounds. A word with that
/// high half has the same bounds if its address lies in them, 2048 below or 4096 above.
#[derive(Clone, Copy)]
pub struct RecentAuthority {
    high: u64,
    extent: Extent,
    ghost unsealed: { high / 2 ^ 27 % 2 ^ 18 ≡ unsealed_type },
    // Addresses here are 2^64 higher, so that those below 0 are numbers too.
    ghost near: { (address : ℕ) → extent.base + 2 ^ 64 ≤ address + 2 ^ 11 → address ≤ extent.base + extent.last + 2 ^ 64 + 2 ^ 12
        → (base_of (high * 2 ^ 64 + address % 2 ^ 64) ≡ extent.base)
        × (top_of (high * 2 ^ 64 + address % 2 ^ 64) ≡ extent.base + (extent.last + 1)) },
}

impl RecentAuthority {
    /// That of NULL, which has all addresses and permits nothing.
    pub fn new() -> RecentAuthority {
        RecentAuthority {
            high: 0x0000_1fff_fc01_8004,
            extent: Extent {
                base: 0,
                last: 0xffff_ffff_ffff_ffff,
            },
        }
    }

    /// Whether a word is known to be unsealed, and to have the bytes of an access in its bounds.
    #[inline(always)]
    pub(crate) fn holds(&self, word: Word, access: Access, address: u64) -> bool
        requires address { address ≡ access_address word.0 access.offset }
        ensures unsealed { result ≡ true → is_sealed word.0 ≡ false }
        ensures inside { result ≡ true → covers word.0 address (address + access.size) ≡ true }
    {
        high_half(word) == self.high && self.extent.holds(address, u64::from(access.size - 1))
    }

    /// Whether a sound word is unsealed, and has an address and the `more` after it in its bounds. It is kept, if it is
    /// unsealed and holds any address.
    #[inline(always)]
    pub(crate) fn holds_anew(&mut self, word: Word, address: u64, more: u64) -> bool
        requires sound { IsSound word.0 }
        ensures unsealed { result ≡ true → is_sealed word.0 ≡ false }
        ensures inside { result ≡ true → covers word.0 address (address + (more + 1)) ≡ true }
    {
        if sealed(word) {
            return false;
        }
        let Some(extent) = extent_of(word) else {
            return false;
        };
        *self = RecentAuthority {
            high: high_half(word),
            extent,
        };
        extent.holds(address, more)
    }
}

/// All of a word but its address.
#[inline(always)]
fn high_half(word: Word) -> u64
    ensures value { result ≡ word.0 / 2 ^ 64 }
{
    (word.0 >> 64) as u64
}
