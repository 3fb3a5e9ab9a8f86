//! Whether a line of a vector file states something true: it is the one true line that has its operands.

ghost use Rattle.std.specs.Prelude.{◌≡◌, ℕ, Bool, List, IsTrue, ◌↔◌};
ghost use Rattle.cap_vectors.specs.Vectors.{Bounds, Keeps, Round, Memory, IsTrueLine, IsLineOf};

use crate::operands::{number_at, word_at};
use crate::writers::{write_bounds, write_keeps, write_memory, write_round};

/// The end of the address space.
const GREATEST_TOP: u128 = 1 << 64;

/// Whether a line states something true.
///
/// ```rust
/// assert!(rt; is_true_line(b"bounds ffff1ffffc0000000000000000000001 = 0000000000000000 00000000000001000 1"));
/// ```
pub fn is_true_line(line: &[u8]) -> bool
    ensures exact { IsTrue result ↔ IsTrueLine line.now }
{
    states_bounds(line) || states_keeps(line) || states_round(line) || states_memory(line)
}

// Whether a line states what a word decodes to.
fn states_bounds(line: &[u8]) -> bool
    ensures yes { IsTrue result → IsTrueLine line.now }
    ensures no { (w base top : ℕ) (answer : Bool) → IsLineOf line.now (Bounds w base top answer) → IsTrue result }
{
    let Some(word) = word_at(line, 7) else {
        return false;
    };
    let mut written = [0u8; 128];
    let length = write_bounds(word, &mut written);
    is_same(line, &written[..length])
}

// Whether a line states whether an address keeps a word's bounds.
fn states_keeps(line: &[u8]) -> bool
    ensures yes { IsTrue result → IsTrueLine line.now }
    ensures no { (w address : ℕ) (answer : Bool) → IsLineOf line.now (Keeps w address answer) → IsTrue result }
{
    let Some(word) = word_at(line, 6) else {
        return false;
    };
    let Some(address) = number_at(line, 39) else {
        return false;
    };
    let mut written = [0u8; 128];
    let length = write_keeps(word, address, &mut written);
    is_same(line, &written[..length])
}

// Whether a line states how a request is rounded.
fn states_round(line: &[u8]) -> bool
    ensures yes { IsTrue result → IsTrueLine line.now }
    ensures no { (base size base_rounded top_rounded : ℕ) (ie : Bool) (e : ℕ) (exact : Bool)
        → IsLineOf line.now (Round base size base_rounded top_rounded ie e exact) → IsTrue result }
{
    let Some(base) = number_at(line, 6) else {
        return false;
    };
    let Some(length) = number_at(line, 23) else {
        return false;
    };
    if u128::from(base) + u128::from(length) > GREATEST_TOP {
        return false;
    }
    let mut written = [0u8; 128];
    let end = write_round(base, length, &mut written);
    is_same(line, &written[..end])
}

// Whether a line states the bytes of a word in memory.
fn states_memory(line: &[u8]) -> bool
    ensures yes { IsTrue result → IsTrueLine line.now }
    ensures no { (w : ℕ) (bytes : List ℕ) → IsLineOf line.now (Memory w bytes) → IsTrue result }
{
    let Some(word) = word_at(line, 7) else {
        return false;
    };
    let mut written = [0u8; 128];
    let length = write_memory(word, &mut written);
    is_same(line, &written[..length])
}

// Whether two lines are the same.
fn is_same(line: &[u8], written: &[u8]) -> bool
    ensures { IsTrue result ↔ (line.now ≡ written.now) }
{
    line == written
}
