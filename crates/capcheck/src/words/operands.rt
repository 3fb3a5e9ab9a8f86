//! Reading the operands of an order.

ghost use Rattle.std.specs.Prelude.{ℕ, ◌+◌, ◌^◌, ◌<◌, ◌≤◌, IfOk, IfErr, IfSome, IfNone};
ghost use Rattle.capcheck.specs.Operands.{RefusesRequest, SpellsRequest, SpellsWord};

use cap_program::Fault;
use cap_word::{Word, from_memory, read_u64, read_word};

/// The greatest top of a request: the end of the address space.
const GREATEST_TOP: u128 = 1 << 64;

/// A request for bounds.
#[derive(Debug, Clone, Copy, PartialEq, Eq)]
pub struct BoundsRequest {
    /// The lowest address.
    pub base: u64,
    /// How many addresses.
    pub length: u64,
}

/// Reads a request for bounds from its two words, each of sixteen lower-case hexadecimal digits. It is
/// refused as a bad word if one of them is not of this form, and as a bad request if the request
/// ends above 2^64.
pub fn read_request(base: &str, length: &str) -> Result<BoundsRequest, Fault>
    ensures ok { IfOk result (λ request. SpellsRequest base.now length.now request.base request.length
        × (request.base + request.length ≤ 2 ^ 64)) }
    ensures err { IfErr result (λ fault. RefusesRequest base.now length.now fault) }
{
    let base = read_u64(base.as_bytes()).ok_or(Fault::BadWord)?;
    let length = read_u64(length.as_bytes()).ok_or(Fault::BadWord)?;
    if u128::from(base) + u128::from(length) > GREATEST_TOP {
        return Err(Fault::BadRequest);
    }
    Ok(BoundsRequest { base, length })
}

/// Reads a capability's word from 32 lower-case hexadecimal digits: those of its register layout or, with
/// `memory`, those of its sixteen bytes in order of address. Anything else is `None`.
pub fn read_capability(hex: &str, memory: bool) -> Option<Word>
    ensures some { IfSome result (λ word. SpellsWord memory hex.now word.0) }
    ensures none { IfNone result ((w : ℕ) → w < 2 ^ 128 → SpellsWord memory hex.now w → ⊥) }
{
    let Some(word) = read_word(hex.as_bytes()) else {
        return None;
    };
    if memory {
        Some(from_memory(&word.0.to_be_bytes()))
    } else {
        Some(word)
    }
}
