//! The layout of a word in memory.

ghost use Rattle.std.specs.Prelude.{◌≡◌, ◌<◌, ℕ, slice_index};
ghost use Rattle.cap_word.specs.Memory.{memory_byte, memory_of, stored_word};

use crate::word::{Word, null};
use std::simd::prelude::*;

/// The sixteen bytes of a word in memory, lowest first: its layout XOR that of NULL, so that NULL is
/// sixteen zero bytes.
#[inline(always)]
pub fn to_memory(word: Word) -> [u8; 16]
    ensures bytes { result ≡ memory_of word.0 }
    ensures by_index { (i : ℕ) → i < 16 → slice_index result i ≡ memory_byte word.0 i }
    ensures reads_back { stored_word result ≡ word.0 }
{
    let stored = Word(word.0 ^ null().0);
    // As a vector, all sixteen bytes are stored at once.
    let mut bytes = [0; 16];
    u64x2::from_array([stored.address(), (stored.0 >> 64) as u64])
        .to_le_bytes()
        .copy_to_slice(&mut bytes);
    bytes
}

/// The word that sixteen bytes of memory hold: the inverse of [`to_memory`].
pub fn from_memory(bytes: &[u8; 16]) -> Word
    ensures word { result.0 ≡ stored_word bytes.now }
    ensures by_index { (i : ℕ) → i < 16 → memory_byte result.0 i ≡ slice_index bytes.now i }
    ensures writes_back { memory_of result.0 ≡ bytes.now }
{
    Word(u128::from_le_bytes(*bytes) ^ null().0)
}
