//! The addresses that a word can be given without a change of its bounds.

ghost use Rattle.std.specs.Prelude.{◌≡◌, ◌<◌, ◌≤◌, ◌+◌, ◌-◌, ◌*◌, ◌%◌, ◌^◌, ◌↔◌, ℕ, IsTrue, IsNone, IfSome};
ghost use Rattle.cap_bounds.specs.Bounds.{IsWindow, base_of, cut_exponent_of, top_of, unit_of, window_size};
ghost use Rattle.cap_bounds.specs.Range.{KeepsBounds, window_start};

use crate::decoding::window_from;
use cap_word::{Word, split};

/// From this cut exponent on the window is the whole address space or more, and every address keeps the
/// bounds.
const WHOLE_EXPONENT: u32 = 50;

/// The start and the size of a word's window, or `None` from the exponent on at which every address keeps the
/// bounds. An address keeps them if and only if it is less than the size above the start, modulo 2^64.
/// [`keeps_bounds`] needs no more than this; [`reach`] states what else is known of the range.
// Inlined: by a call, a new address takes 26 instructions more.
#[inline(always)]
fn window_of(word: Word) -> Option<(u64, u64)>
    ensures none { IsNone result ↔ (50 ≤ cut_exponent_of word.0) }
    ensures start { IfSome result (λ window. window.0 ≡ window_start word.0 % 2 ^ 64) }
    ensures size { IfSome result (λ window. window.1 ≡ window_size word.0) }
    ensures every { IsNone result → (address : ℕ) → address < 2 ^ 64 → KeepsBounds word.0 address }
    ensures exact { IfSome result (λ window. (address : ℕ) → address < 2 ^ 64
        → (KeepsBounds word.0 address ↔ ((address + 2 ^ 64 - window.0) % 2 ^ 64 < window.1))) }
{
    // Below WHOLE_EXPONENT no exponent is cut.
    let fields = split(word);
    let exponent = u32::from(fields.e);
    if exponent >= WHOLE_EXPONENT {
        return None;
    }
    let start = window_from(exponent, u64::from(fields.b), word.address());
    Some((start, 0x4000 << exponent))
}

/// A word's representable range, as its start and its size: an address keeps the word's bounds exactly
/// where it is less than the size above the start, modulo 2^64. `None` is the answer exactly where every
/// address keeps them: from the cut exponent 50 on (UCAM-CL-TR-987, the representable region).
///
/// The range has at least 2^11 units below the base and 2^12 above the top, where a unit is 2 to the cut
/// exponent.
pub fn reach(word: Word) -> Option<(u64, u64)>
    ensures none { IsNone result ↔ (50 ≤ cut_exponent_of word.0) }
    ensures every { IsNone result ↔ ((address : ℕ) → address < 2 ^ 64 → KeepsBounds word.0 address) }
    ensures window { IsWindow word.0 (window_start word.0) }
    ensures unique { (start : ℕ) → IsWindow word.0 start → start ≡ window_start word.0 }
    ensures start { IfSome result (λ range. range.0 ≡ window_start word.0 % 2 ^ 64) }
    ensures size { IfSome result (λ range. range.1 ≡ window_size word.0) }
    ensures exact { IfSome result (λ range. (address : ℕ) → address < 2 ^ 64
        → (KeepsBounds word.0 address ↔ ((address + 2 ^ 64 - range.0) % 2 ^ 64 < range.1))) }

    // Addresses here are 2^64 higher, so that those below 0 are numbers too.
    ensures margins { (address : ℕ) → base_of word.0 + 2 ^ 64 ≤ address + 2 ^ 11 * unit_of word.0
        → address ≤ top_of word.0 + 2 ^ 64 + 2 ^ 12 * unit_of word.0 → KeepsBounds word.0 (address % 2 ^ 64) }
{
    window_of(word)
}

/// Whether the word with another address has the same base and top (CSetAddr's test, by the exact rule).
#[inline(always)]
pub fn keeps_bounds(word: Word, address: u64) -> bool
    ensures keeps { IsTrue result ↔ KeepsBounds word.0 address }
{
    match window_of(word) {
        None => true,
        Some((start, size)) => address.wrapping_sub(start) < size,
    }
}
