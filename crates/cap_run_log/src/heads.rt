//! The words that only lines of run logs begin with.

ghost use Rattle.std.specs.Prelude.{◌≡◌, ◌↔◌, ◌≤◌, ◌∷◌, ◌++◌, IfNone, IfSome, codes, length, true};
ghost use Rattle.cap_log.specs.Parts.{BeginsWithout};
ghost use Rattle.cap_run_log.specs.{RunHeads.{IsRunHead, run_head_spelling}, SpaceLaws.run_head-spaceless};

use crate::parts::are_two;
use cap_log::buffers::put;
use cap_log::{Part, Single, are_four, strip_word};

/// What kind of line a line of a run log is that `cap_log` has no head for, and a root.
#[derive(Clone, Copy, Debug, PartialEq, Eq)]
pub enum RunHead {
    /// `run`.
    Version,
    /// `root`.
    Root,
    /// `derive`.
    Derive,
    /// `exchange`.
    Exchange,
    /// `invoke`.
    Invoke,
    /// `drop`.
    Drop,
    /// `fill`.
    Fill,
    /// `object`.
    Object,
    /// `free`.
    Free,
    /// `hart`.
    Hart,
}

// Returns the head and what follows it, if this word and its end stand in front.
macro_rules! stands {
    ($bytes:expr, $end:expr, $head:expr, $word:expr) => {
        if let Some(rest) = strip_word($bytes, $word, $end) {
            return Some(($head, rest));
        }
    };
}

impl Part for RunHead {
    ghost fits = { IsRunHead };

    ghost spelled = { run_head_spelling };

    fn take(bytes: &[u8], end: u8) -> Option<(RunHead, &[u8])> {
        stands!(bytes, end, RunHead::Derive, b"derive");
        stands!(bytes, end, RunHead::Object, b"object");
        stands!(bytes, end, RunHead::Free, b"free");
        stands!(bytes, end, RunHead::Exchange, b"exchange");
        stands!(bytes, end, RunHead::Drop, b"drop");
        stands!(bytes, end, RunHead::Fill, b"fill");
        stands!(bytes, end, RunHead::Invoke, b"invoke");
        stands!(bytes, end, RunHead::Root, b"root");
        stands!(bytes, end, RunHead::Version, b"run");
        stands!(bytes, end, RunHead::Hart, b"hart");
        None
    }

    #[inline(always)]
    fn write(&self, buffer: &mut [u8], at: usize) -> usize {
        put(buffer, at, run_head_text(*self))
    }
}

// The first word of such a line.
#[inline(always)]
fn run_head_text(head: RunHead) -> &'static [u8]
    ensures { result.now ≡ run_head_spelling head }
{
    match head {
        RunHead::Version => b"run",
        RunHead::Root => b"root",
        RunHead::Derive => b"derive",
        RunHead::Exchange => b"exchange",
        RunHead::Invoke => b"invoke",
        RunHead::Drop => b"drop",
        RunHead::Fill => b"fill",
        RunHead::Object => b"object",
        RunHead::Free => b"free",
        RunHead::Hart => b"hart",
    }
}

/// What follows the word of a head and its space at the front of some bytes, or `None` where they do not stand there.
#[inline(always)]
pub(crate) fn strip_head(head: RunHead, bytes: &[u8]) -> Option<&[u8]>
    ensures some { IfSome result (λ rest. bytes.now ≡ run_head_spelling head ++ 32 ∷ rest.now) }
    ensures none { IfNone result (BeginsWithout (run_head_spelling head) 32 bytes.now) }
{
    match head {
        RunHead::Version => strip_word(bytes, b"run", b' '),
        RunHead::Root => strip_word(bytes, b"root", b' '),
        RunHead::Derive => strip_derive(bytes),
        RunHead::Exchange => strip_exchange(bytes),
        RunHead::Invoke => strip_word(bytes, b"invoke", b' '),
        RunHead::Drop => strip_word(bytes, b"drop", b' '),
        RunHead::Fill => strip_word(bytes, b"fill", b' '),
        RunHead::Object => strip_word(bytes, b"object", b' '),
        RunHead::Free => strip_word(bytes, b"free", b' '),
        RunHead::Hart => strip_word(bytes, b"hart", b' '),
    }
}

/// What follows `exchange` and its space at the front of some bytes, or `None` where they do not stand there. The word is
/// compared as one number.
#[inline(always)]
pub(crate) fn strip_exchange(bytes: &[u8]) -> Option<&[u8]>
    ensures some { IfSome result (λ rest. bytes.now ≡ codes "exchange" ++ 32 ∷ rest.now) }
    ensures none { IfNone result (BeginsWithout (codes "exchange") 32 bytes.now) }
{
    let Some((front, others)) = bytes.split_first_chunk::<8>() else {
        return None;
    };
    if are_eight(front, b"exchange") {
        strip_word(others, b"", b' ')
    } else {
        None
    }
}

/// The same of `derive`: what it compares are parts of the number that [`strip_exchange`] compares.
#[inline(always)]
pub(crate) fn strip_derive(bytes: &[u8]) -> Option<&[u8]>
    ensures some { IfSome result (λ rest. bytes.now ≡ codes "derive" ++ 32 ∷ rest.now) }
    ensures none { IfNone result (BeginsWithout (codes "derive") 32 bytes.now) }
{
    let Some((front, others)) = bytes.split_first_chunk::<4>() else {
        return None;
    };
    if !are_four(front, b"deri") {
        return None;
    }
    let Some((middle, others)) = others.split_first_chunk::<2>() else {
        return None;
    };
    if are_two(middle, b"ve") {
        strip_word(others, b"", b' ')
    } else {
        None
    }
}

// Whether eight bytes are these, compared as one number.
#[inline(always)]
fn are_eight(bytes: &[u8; 8], text: &[u8; 8]) -> bool
    ensures same { (result ≡ true) ↔ (bytes.now ≡ text.now) }
{
    u64::from_le_bytes(*bytes) == u64::from_le_bytes(*text)
}

impl Single for RunHead {
    ghost spaceless = { λ head fits. run_head-spaceless head };
}
