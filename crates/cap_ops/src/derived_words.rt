//! Deriving a word from a capability, whatever the instruction: nothing grows, and the seal is kept. And invoking a pair
//! of sealed capabilities.

ghost use Rattle.std.specs.Prelude.{◌≡◌, None, true};
ghost use Rattle.cap_ops.specs.{Authority.StaysWithin, Checks.first_of, DerivedWords.{derive_checks, invoke_checks}};
ghost use Rattle.cap_ops.specs.DerivedWords.{is_invoked, is_opened, is_pair, keeps_seal, reaches_no_more};
ghost use Rattle.cap_ops.specs.Permissions.{unsealed_type, with_type};

use crate::bits::{permits, replace_type};
use crate::permissions::perm_view;
use crate::sealing::{GREATEST_TYPE, UNSEALED_TYPE, sealed};
use cap_bounds::{bounds, sound};
use cap_word::{Cap, Word};

/// The object type of a sentry.
pub const SENTRY_TYPE: u32 = 0x3_fffe;

const PERMIT_EXECUTE: u32 = 1;

const PERMIT_INVOKE: u32 = 8;

/// Why a tagged word can't be derived from a capability.
#[derive(Debug, Clone, Copy, PartialEq, Eq)]
pub enum DeriveFault {
    /// The source has no tag.
    SourceUntagged,
    /// The word isn't sound.
    UnsoundResult,
    /// The word's bounds leave the source's, or it has a permission that the source lacks.
    BeyondSource,
    /// The seal isn't kept.
    SealChanged,
}

/// Why a pair of capabilities can't be invoked.
#[derive(Debug, Clone, Copy, PartialEq, Eq)]
pub enum InvokeFault {
    /// One of them has no tag.
    AuthorityUntagged,
    /// They aren't sealed with one object type that isn't reserved, one of them lacks CInvoke, the code lacks Execute, or
    /// the data has it.
    NotInvokable,
    /// The words aren't those of the two without their seals, the first at the address of the code or that with bit 0
    /// cleared.
    WrongResult,
}

// Whether a word has bounds inside and permissions among those of another.
#[tactic(auto, unfolding(crate::specs::Operations::covers))]
#[inline(always)]
fn reaches_no_more(word: Word, source: Word) -> bool
    ensures { result ≡ reaches_no_more word.0 source.0 }
{
    let inner = bounds(word);
    let outer = bounds(source);
    outer.base <= inner.base
        && inner.top <= outer.top
        && perm_view(source) & perm_view(word) == perm_view(word)
}

// Whether a word is another without its seal, at its address or that with bit 0 cleared.
fn is_opened(source: Word, word: Word) -> bool
    ensures { result ≡ is_opened source.0 word.0 }
{
    let open_word = replace_type(source, UNSEALED_TYPE).0;
    word.0 == open_word || word.0 == open_word - open_word % 2
}

// Whether the seal is kept.
fn keeps_seal(source: Word, word: Word, opens: bool) -> bool
    ensures { result ≡ keeps_seal source.0 word.0 opens }
{
    if !sealed(source) {
        return word.object_type() == UNSEALED_TYPE || word.object_type() == SENTRY_TYPE;
    }
    word.0 == source.0 || (source.object_type() == SENTRY_TYPE && opens && is_opened(source, word))
}

/// The first check that refuses a tagged word derived from a capability: the source is tagged; the word is sound, and has
/// bounds inside and permissions among the source's; the seal is kept. An unsealed source gives an unsealed word or a
/// sentry; a sealed one gives itself; a sentry gives itself without its seal, at its address or that with bit 0 cleared,
/// if it `opens`: into PCC.
#[inline(always)]
pub fn derive_fault(source: Cap, word: Word, opens: bool) -> Option<DeriveFault>
    ensures checks { result ≡ first_of (derive_checks source word.0 opens) }
    ensures within { result ≡ None → StaysWithin (record { tag = true; word = word }) source }
{
    if !source.tag {
        Some(DeriveFault::SourceUntagged)
    } else if !sound(word) {
        Some(DeriveFault::UnsoundResult)
    } else if !reaches_no_more(word, source.word) {
        Some(DeriveFault::BeyondSource)
    } else if !keeps_seal(source.word, word, opens) {
        Some(DeriveFault::SealChanged)
    } else {
        None
    }
}

// Whether two words are sealed with one object type that isn't reserved, both with CInvoke, the first alone with Execute.
fn is_pair(code_cap: Word, data_cap: Word) -> bool
    ensures { result ≡ is_pair code_cap.0 data_cap.0 }
{
    code_cap.object_type() <= GREATEST_TYPE
        && code_cap.object_type() == data_cap.object_type()
        && permits(code_cap, PERMIT_INVOKE)
        && permits(data_cap, PERMIT_INVOKE)
        && permits(code_cap, PERMIT_EXECUTE)
        && !permits(data_cap, PERMIT_EXECUTE)
}

// Whether two words are a pair of others without their seals, the first at its address or that with bit 0 cleared.
fn is_invoked(code_cap: Word, data_cap: Word, code_word: Word, data_word: Word) -> bool
    ensures { result ≡ is_invoked code_cap.0 data_cap.0 code_word.0 data_word.0 }
{
    is_opened(code_cap, code_word) && data_word.0 == replace_type(data_cap, UNSEALED_TYPE).0
}

/// The first check that refuses the invocation of a code and a data capability, after which PCC and c31 hold these words,
/// tagged (CInvoke): both are tagged; they are a pair; the words are those of the pair without its seals.
pub fn invoke_fault(
    code_cap: Cap,
    data_cap: Cap,
    code_word: Word,
    data_word: Word,
) -> Option<InvokeFault>
    ensures checks { result ≡ first_of (invoke_checks code_cap data_cap code_word.0 data_word.0) }
    ensures code_within { result ≡ None → StaysWithin (record { tag = true; word = code_word }) code_cap }
    ensures data_within { result ≡ None → StaysWithin (record { tag = true; word = data_word }) data_cap }
{
    if !(code_cap.tag && data_cap.tag) {
        Some(InvokeFault::AuthorityUntagged)
    } else if !is_pair(code_cap.word, data_cap.word) {
        Some(InvokeFault::NotInvokable)
    } else if !is_invoked(code_cap.word, data_cap.word, code_word, data_word) {
        Some(InvokeFault::WrongResult)
    } else {
        None
    }
}
