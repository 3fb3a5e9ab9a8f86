//! What always gives a capability: the operations in clear mode, where a refused result loses its tag,
//! and what a load gives.

ghost use Rattle.std.specs.Prelude.{◌≡◌, ◌≢◌, ◌≤◌, ◌+◌, ◌↔◌, IsFalse};
ghost use Rattle.cap_word.specs.Fields.{address_of};
ghost use Rattle.cap_bounds.specs.Bounds.{IsInside, IsSound, base_of, top_of};
ghost use Rattle.cap_ops.specs.{Accesses.loaded_result, Authority.StaysWithin, Permissions.{is_sealed, perm_view_of}};
ghost use Rattle.cap_ops.specs.Operations as ops;
ghost use Rattle.cap_halves.specs.Passed.{cap_of, is_set, whole_of};

use cap_halves::halves::{from_c, to_c, word_of};
use cap_halves::values::{Capability, Halves};
use cap_ops::{
    and_perm_clear, clear_tag, loaded, perm_view, seal_clear, sealed, set_addr_clear,
    set_bounds_clear, unseal_clear,
};

/// [`capcheck_set_bounds`](crate::operations::capcheck_set_bounds) in clear mode.
#[unsafe(no_mangle)]
pub extern "C" fn capcheck_set_bounds_clear(
    source: Capability,
    length: u64,
    exact: u8,
) -> Capability
    ensures result_is { cap_of result
        ≡ ops.clear_result (ops.set_bounds_checks (cap_of source) length (is_set exact)) (ops.set_bounds_result (cap_of source) length) }
    ensures strict { ops.IsStrictWhereTagged (ops.set_bounds_checks (cap_of source) length (is_set exact)) (ops.set_bounds_result (cap_of source) length)
        (cap_of result) }
    ensures tag { result.tag ≤ 1 }
    ensures stays_within { StaysWithin (cap_of result) (cap_of source) }
    ensures escape { exact ≡ 0 → source.tag ≢ 0 → IsFalse (is_sealed (whole_of source.word)) → IsSound (whole_of source.word)
        → ((result.tag ≡ 0) ↔ (¬ IsInside (address_of (whole_of source.word))
        (address_of (whole_of source.word) + length) (base_of (whole_of source.word)) (top_of (whole_of source.word)))) }
{
    to_c(set_bounds_clear(from_c(source), length, exact != 0))
}

/// [`capcheck_set_addr`](crate::operations::capcheck_set_addr) in clear mode.
#[unsafe(no_mangle)]
pub extern "C" fn capcheck_set_addr_clear(source: Capability, address: u64) -> Capability
    ensures result_is { cap_of result
        ≡ ops.clear_result (ops.set_addr_checks (cap_of source) address) (ops.set_addr_result (cap_of source) address) }
    ensures strict { ops.IsStrictWhereTagged (ops.set_addr_checks (cap_of source) address) (ops.set_addr_result (cap_of source) address)
        (cap_of result) }
    ensures tag { result.tag ≤ 1 }
    ensures stays_within { StaysWithin (cap_of result) (cap_of source) }
{
    to_c(set_addr_clear(from_c(source), address))
}

/// [`capcheck_and_perm`](crate::operations::capcheck_and_perm) in clear mode.
#[unsafe(no_mangle)]
pub extern "C" fn capcheck_and_perm_clear(source: Capability, mask: u64) -> Capability
    ensures result_is { cap_of result
        ≡ ops.clear_result (ops.and_perm_checks (cap_of source)) (ops.and_perm_result (cap_of source) mask) }
    ensures strict { ops.IsStrictWhereTagged (ops.and_perm_checks (cap_of source)) (ops.and_perm_result (cap_of source) mask)
        (cap_of result) }
    ensures tag { result.tag ≤ 1 }
    ensures stays_within { StaysWithin (cap_of result) (cap_of source) }
{
    to_c(and_perm_clear(from_c(source), mask))
}

/// [`capcheck_seal`](crate::operations::capcheck_seal) in clear mode: the object type is the low 18 bits of
/// the authority's address.
#[unsafe(no_mangle)]
pub extern "C" fn capcheck_seal_clear(source: Capability, authority: Capability) -> Capability
    ensures result_is { cap_of result
        ≡ ops.clear_result (ops.seal_checks (cap_of source) (cap_of authority)) (ops.seal_result (cap_of source) (cap_of authority)) }
    ensures strict { ops.IsStrictWhereTagged (ops.seal_checks (cap_of source) (cap_of authority)) (ops.seal_result (cap_of source) (cap_of authority))
        (cap_of result) }
    ensures tag { result.tag ≤ 1 }
    ensures stays_within { StaysWithin (cap_of result) (cap_of source) }
{
    to_c(seal_clear(from_c(source), from_c(authority)))
}

/// [`capcheck_unseal`](crate::operations::capcheck_unseal) in clear mode.
#[unsafe(no_mangle)]
pub extern "C" fn capcheck_unseal_clear(source: Capability, authority: Capability) -> Capability
    ensures result_is { cap_of result
        ≡ ops.clear_result (ops.unseal_checks (cap_of source) (cap_of authority)) (ops.unseal_result (cap_of source) (cap_of authority)) }
    ensures strict { ops.IsStrictWhereTagged (ops.unseal_checks (cap_of source) (cap_of authority))
        (ops.unseal_result (cap_of source) (cap_of authority)) (cap_of result) }
    ensures tag { result.tag ≤ 1 }
    ensures stays_within { StaysWithin (cap_of result) (cap_of source) }
{
    to_c(unseal_clear(from_c(source), from_c(authority)))
}

/// The capability without its tag.
#[unsafe(no_mangle)]
pub extern "C" fn capcheck_clear_tag(source: Capability) -> Capability
    ensures result_is { cap_of result ≡ ops.cleared (cap_of source) }
    ensures tag { result.tag ≤ 1 }
    ensures stays_within { StaysWithin (cap_of result) (cap_of source) }
{
    to_c(clear_tag(from_c(source)))
}

/// What a load of a stored capability gives: its tag goes if the authority lacks Load Capability.
#[unsafe(no_mangle)]
pub extern "C" fn capcheck_loaded(authority: Capability, stored: Capability) -> Capability
    ensures result_is { cap_of result ≡ loaded_result (cap_of authority) (cap_of stored) }
    ensures tag { result.tag ≤ 1 }
    ensures stays_within { StaysWithin (cap_of result) (cap_of stored) }
{
    to_c(loaded(from_c(authority), from_c(stored)))
}

/// Whether a word is sealed: its object type is not `0x3ffff`.
#[unsafe(no_mangle)]
pub extern "C" fn capcheck_sealed(word: Halves) -> bool
    ensures value { result ≡ is_sealed (whole_of word) }
{
    sealed(word_of(word))
}

/// The permissions in the architectural view: bits 0 to 11 as in the word's field, and the four for users
/// at bits 15 to 18.
#[unsafe(no_mangle)]
pub extern "C" fn capcheck_perm_view(word: Halves) -> u32
    ensures value { result ≡ perm_view_of (whole_of word) }
{
    perm_view(word_of(word))
}
