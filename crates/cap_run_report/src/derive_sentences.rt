//! Why a capability can't be derived, in a sentence.

ghost use Rattle.std.specs.Prelude.{◌≡◌, ◌+◌, ◌++◌, ◌≤◌, length};
ghost use Rattle.cap_streams.specs.Written.{Writes};
ghost use Rattle.cap_ops.specs.Permissions.{perm_view_of};
ghost use Rattle.cap_word.specs.{Digits.hex_digits, Fields.address_of};
ghost use Rattle.cap_report.specs.Sentences.{number_text};
ghost use Rattle.cap_run_report.specs.CapParts.{IsReadable};
ghost use Rattle.cap_run_report.specs.DeriveSentences.{beyond_bounds_text, beyond_permissions_text, beyond_source_text, derive_text};
ghost use Rattle.cap_run_report.specs.DeriveSentences.{is_covered, other_word_text, seal_text, sealed_type_text, sealed_word_text, word_for};

use crate::cap_parts::{Placed, put_place_text, put_run_place};
use crate::invoked_pairs::is_opened;
use crate::run_sentences::{put_type, put_word_address};
use cap_bounds::bounds;
use cap_log::buffers::{put, put_hex};
use cap_machine::Refusal;
use cap_ops::{SENTRY_TYPE, perm_view, sealed};
use cap_report::root_says::put_unsound_reason;
use cap_report::sentences::put_beyond;
use cap_run::RunRefusal;
use cap_run_log::RunPlace;
use cap_word::Word;

/// Writes the word that a line records for a place.
pub fn put_word_for(buffer: &mut [u8], at: usize, place: RunPlace) -> usize
    requires place { IsReadable place }
    requires room { at + 32 ≤ length buffer.old }
    ensures written { Writes at (word_for place) buffer.old buffer.new result }
    ensures fits { result ≤ at + 32 }
{
    let at = put(buffer, at, b"the word for ");
    put_run_place(buffer, at, place)
}

// Writes that the bounds of a word go beyond those of the source.
fn put_beyond_bounds(buffer: &mut [u8], at: usize, target: Placed, source: Placed) -> usize
    requires target { IsReadable target.place }
    requires source { IsReadable source.place }
    requires room { at + 160 ≤ length buffer.old }
    ensures written { Writes at (beyond_bounds_text target source) buffer.old buffer.new result }
    ensures fits { result ≤ at + 160 }
{
    let at = put_word_for(buffer, at, target.place);
    let at = put(buffer, at, b" ");
    let at = put_beyond(buffer, at, bounds(target.cap.word), bounds(source.cap.word));
    let at = put_run_place(buffer, at, source.place);
    put(buffer, at, b"'s bounds")
}

// Writes the permissions of a word.
fn put_permissions(buffer: &mut [u8], at: usize, word: Word) -> usize
    requires { at + 8 ≤ length buffer.old }
    ensures written { Writes at (hex_digits 8 (perm_view_of word.0)) buffer.old buffer.new result }
    ensures fits { result ≤ at + 8 }
{
    put_hex(buffer, at, 8, u128::from(perm_view(word)))
}

// Writes that the permissions of a word go beyond those of the source.
fn put_beyond_permissions(buffer: &mut [u8], at: usize, target: Placed, source: Placed) -> usize
    requires target { IsReadable target.place }
    requires source { IsReadable source.place }
    requires room { at + 160 ≤ length buffer.old }
    ensures written { Writes at (beyond_permissions_text target source) buffer.old buffer.new result }
    ensures fits { result ≤ at + 160 }
{
    let at = put_word_for(buffer, at, target.place);
    let at = put(buffer, at, b" has permissions 0x");
    let at = put_permissions(buffer, at, target.cap.word);
    let at = put(buffer, at, b"; ");
    let at = put_run_place(buffer, at, source.place);
    let at = put(buffer, at, b" has 0x");
    put_permissions(buffer, at, source.cap.word)
}

// Whether the bounds of a word lie inside those of another.
fn is_covered(from: Word, word: Word) -> bool
    ensures value { result ≡ is_covered from.0 word.0 }
{
    let (outer, inner) = (bounds(from), bounds(word));
    outer.base <= inner.base && inner.top <= outer.top
}

// Writes that a word goes beyond the source.
fn put_beyond_source(buffer: &mut [u8], at: usize, target: Placed, source: Placed) -> usize
    requires target { IsReadable target.place }
    requires source { IsReadable source.place }
    requires room { at + 160 ≤ length buffer.old }
    ensures written { Writes at (beyond_source_text target source) buffer.old buffer.new result }
    ensures fits { result ≤ at + 160 }
{
    if is_covered(source.cap.word, target.cap.word) {
        put_beyond_permissions(buffer, at, target, source)
    } else {
        put_beyond_bounds(buffer, at, target, source)
    }
}

/// Writes the type with which a word is sealed.
pub fn put_sealed_type(buffer: &mut [u8], at: usize, word: Word) -> usize
    requires { at + 40 ≤ length buffer.old }
    ensures written { Writes at (sealed_type_text word.0) buffer.old buffer.new result }
    ensures fits { result ≤ at + 40 }
{
    let at = put(buffer, at, b" is sealed with type ");
    put_type(buffer, at, word)
}

// Writes a word's address after a text.
fn put_addressed(buffer: &mut [u8], at: usize, text: &[u8], word: Word) -> usize
    requires few { length text.now ≤ 20 }
    requires room { at + 40 ≤ length buffer.old }
    ensures written { Writes at (text.now ++ number_text (address_of word.0)) buffer.old buffer.new result }
    ensures fits { result ≤ at + 40 }
{
    let at = put(buffer, at, text);
    put_word_address(buffer, at, word)
}

// Writes that a word is sealed.
fn put_sealed_word(buffer: &mut [u8], at: usize, word: Word) -> usize
    requires { at + 40 ≤ length buffer.old }
    ensures written { Writes at (sealed_word_text word.0) buffer.old buffer.new result }
    ensures fits { result ≤ at + 40 }
{
    if word.object_type() == SENTRY_TYPE {
        put_addressed(buffer, at, b" is a sentry for ", word)
    } else {
        put_sealed_type(buffer, at, word)
    }
}

// Writes in what a word isn't that of its sealed source.
fn put_other_word(buffer: &mut [u8], at: usize, from: Word, word: Word) -> usize
    requires { at + 40 ≤ length buffer.old }
    ensures written { Writes at (other_word_text from.0 word.0) buffer.old buffer.new result }
    ensures fits { result ≤ at + 40 }
{
    if from.object_type() == SENTRY_TYPE && is_opened(from, word) {
        put(buffer, at, b" opens it: a sentry opens only into scr0")
    } else if word.address() == from.address() {
        put(buffer, at, b" differs from it")
    } else {
        put_addressed(buffer, at, b" has the address ", word)
    }
}

// Writes that the seal of the source isn't kept.
fn put_seal(buffer: &mut [u8], at: usize, target: Placed, source: Placed) -> usize
    requires target { IsReadable target.place }
    requires source { IsReadable source.place }
    requires room { at + 160 ≤ length buffer.old }
    ensures written { Writes at (seal_text target source) buffer.old buffer.new result }
    ensures fits { result ≤ at + 160 }
{
    if sealed(source.cap.word) {
        let at = put_run_place(buffer, at, source.place);
        let at = put_sealed_word(buffer, at, source.cap.word);
        let at = put(buffer, at, b"; ");
        let at = put_word_for(buffer, at, target.place);
        put_other_word(buffer, at, source.cap.word, target.cap.word)
    } else {
        let at = put_word_for(buffer, at, target.place);
        let at = put_sealed_type(buffer, at, target.cap.word);
        let at = put(buffer, at, b"; ");
        let at = put_run_place(buffer, at, source.place);
        put(buffer, at, b" is unsealed")
    }
}

/// Writes why a place can't get a word from a source.
pub fn put_derive_text(
    buffer: &mut [u8],
    at: usize,
    target: Placed,
    source: Placed,
    refusal: RunRefusal,
) -> usize
    requires target { IsReadable target.place }
    requires source { IsReadable source.place }
    requires room { at + 160 ≤ length buffer.old }
    ensures written { Writes at (derive_text target source refusal) buffer.old buffer.new result }
    ensures fits { result ≤ at + 160 }
{
    match refusal {
        RunRefusal::Usual(Refusal::SourceUntagged) => {
            put_place_text(buffer, at, source.place, b" has no tag")
        }
        RunRefusal::UnsoundResult => {
            let at = put_word_for(buffer, at, target.place);
            let at = put(buffer, at, b" isn't sound: ");
            put_unsound_reason(buffer, at, target.cap.word)
        }
        RunRefusal::BeyondSource => put_beyond_source(buffer, at, target, source),
        RunRefusal::SealChanged => put_seal(buffer, at, target, source),
        _ => at,
    }
}
