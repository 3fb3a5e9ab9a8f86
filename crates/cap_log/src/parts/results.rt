//! Words, and the results that steps record.

ghost use Rattle.std.specs.Prelude.{◌≡◌, ◌∷◌, ◌++◌, IfSome, true};
ghost use Rattle.cap_word.specs.Digits.{hex_digits};
ghost use Rattle.cap_log.specs.{Lines.IsWord, Parts.{result_mark, result_spelling}, SpacelessLaws.digits-spaceless};

use crate::buffers::put;
use crate::parts::fronts::are_four;
use crate::parts::{Part, Single};
use cap_word::{Cap, Word, number_text, read_word, word_text};
use std::simd::prelude::*;

/// How many digits a word has.
const WORD_DIGITS: usize = 32;

/// A result's word begins after so many bytes: `= `, a tag and a space.
const WORD_START: usize = 4;

/// How many bytes a result has. The byte that ends it is looked at first, so that those before it are known
/// to stand there.
const RESULT_LENGTH: usize = WORD_START + WORD_DIGITS;

impl Part for Word {
    ghost fits = { λ word. IsWord word.0 };

    ghost spelled = { λ word. hex_digits 32 word.0 };

    #[inline(always)]
    fn take(bytes: &[u8], end: u8) -> Option<(Word, &[u8])> {
        if bytes.len() <= WORD_DIGITS || bytes[WORD_DIGITS] != end {
            return None;
        }
        let word = read_word(&bytes[..WORD_DIGITS])?;
        Some((word, &bytes[WORD_DIGITS + 1..]))
    }

    #[inline(always)]
    fn write(&self, buffer: &mut [u8], at: usize) -> usize {
        put(buffer, at, &word_text(*self))
    }
}

impl Single for Word {
    ghost spaceless = { λ word fits. digits-spaceless 32 word.0 };
}

/// The result that a step records, at its end: `= `, a tag and a word.
impl Part for Cap {
    ghost fits = { λ cap. IsWord cap.word.0 };

    ghost spelled = { result_spelling };

    #[inline(always)]
    fn take(bytes: &[u8], end: u8) -> Option<(Cap, &[u8])> {
        if bytes.len() <= RESULT_LENGTH || bytes[RESULT_LENGTH] != end {
            return None;
        }
        let (front, _) = bytes.split_first_chunk::<WORD_START>()?;
        let tag = are_four(front, b"= 1 ");
        if !tag && !are_four(front, b"= 0 ") {
            return None;
        }
        let word = read_word(&bytes[WORD_START..RESULT_LENGTH])?;
        Some((Cap { tag, word }, &bytes[RESULT_LENGTH + 1..]))
    }

    #[inline(always)]
    fn write(&self, buffer: &mut [u8], at: usize) -> usize {
        if self.tag {
            let digits = put(buffer, at, b"= 1 ");
            put(buffer, digits, &word_text(self.word))
        } else {
            let digits = put(buffer, at, b"= 0 ");
            put(buffer, digits, &word_text(self.word))
        }
    }
}

/// What follows this result and a line feed at the front of some bytes. It is told by its text: no digit is read. `None` says
/// nothing.
#[inline(always)]
pub fn strip_result(bytes: &[u8], recorded: Cap) -> Option<&[u8]>
    ensures some { IfSome result (λ rest. bytes.now ≡ result_spelling recorded ++ 10 ∷ rest.now) }
{
    let (first, others) = bytes.split_first_chunk::<4>()?;
    if !are_four(first, result_mark(recorded.tag)) {
        return None;
    }
    let (high, others) = others.split_first_chunk::<16>()?;
    let (low, others) = others.split_first_chunk::<16>()?;
    let (last, rest) = others.split_first()?;
    let word = recorded.word.0;
    // One half after the other: compared at once, a move takes two instructions more.
    if !is_same(high, &number_text((word >> 64) as u64)) {
        return None;
    }
    if !is_same(low, &number_text((word % (1 << 64)) as u64)) {
        return None;
    }
    if *last == b'\n' { Some(rest) } else { None }
}

// What stands before the digits of a result with this tag.
#[inline(always)]
fn result_mark(tag: bool) -> &'static [u8; 4]
    ensures { result.now ≡ result_mark tag }
{
    if tag { b"= 1 " } else { b"= 0 " }
}

// Whether sixteen bytes are these, as one vector.
#[inline(always)]
fn is_same(bytes: &[u8; 16], text: &[u8; 16]) -> bool
    ensures same { result ≡ true → bytes.now ≡ text.now }
{
    u8x16::from_array(*bytes)
        .simd_ne(u8x16::from_array(*text))
        .to_bitmask()
        == 0
}
