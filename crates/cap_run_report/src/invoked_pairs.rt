//! What is told of a pair that is invoked in vain.

ghost use Rattle.std.specs.Prelude.{◌≡◌, ◌+◌, ◌<◌, ◌≤◌, length};
ghost use Rattle.cap_streams.specs.Written.{Writes};
ghost use Rattle.cap_ops.specs.{DerivedWords.is_opened, Permissions.{has_permission, unsealed_type, with_type}};
ghost use Rattle.cap_run_report.specs.CapParts.{IsReadable};
ghost use Rattle.cap_run_report.specs.InvokedPairs.{datum_permissions_text, execute_text, fault_lines, invoked_lines, opened_lines, pair_text};
ghost use Rattle.cap_run_report.specs.InvokedPairs.{permissions_text, sealed_pair_text, types_text, untagged_text};

use crate::cap_parts::{Placed, put_held, put_place_text, put_run_place};
use crate::derive_sentences::put_word_for;
use crate::run_sentences::put_type;
use cap_log::buffers::put;
use cap_machine::Refusal;
use cap_ops::{GREATEST_TYPE, UNSEALED_TYPE, perm_view, sealed};
use cap_report::says::put_words;
use cap_run::RunRefusal;
use cap_run_log::RunPlace;
use cap_word::{Cap, Word};

// The numbers of the permissions that invoking a pair needs.
const PERMIT_EXECUTE: u32 = 1;

const PERMIT_INVOKE: u32 = 8;

// Whether a word has a permission.
#[tactic(auto, unfolding(cap_ops::specs::Permissions::has_permission))]
fn permits(word: Word, permission: u32) -> bool
    requires { permission < 12 }
    ensures { result ≡ has_permission word.0 permission }
{
    (perm_view(word) >> permission) & 1 == 1
}

// Writes which of a pair has or lacks Execute in vain.
fn put_execute(buffer: &mut [u8], at: usize, code: Placed, datum: Placed) -> usize
    requires code { IsReadable code.place }
    requires datum { IsReadable datum.place }
    requires room { at + 160 ≤ length buffer.old }
    ensures written { Writes at (execute_text code datum) buffer.old buffer.new result }
    ensures fits { result ≤ at + 160 }
{
    if permits(code.cap.word, PERMIT_EXECUTE) {
        put_place_text(buffer, at, datum.place, b" has Execute")
    } else {
        put_place_text(buffer, at, code.place, b" lacks Execute")
    }
}

// Writes which permission of a pair is wrong, where the code has CInvoke.
fn put_datum_permissions(buffer: &mut [u8], at: usize, code: Placed, datum: Placed) -> usize
    requires code { IsReadable code.place }
    requires datum { IsReadable datum.place }
    requires room { at + 160 ≤ length buffer.old }
    ensures written { Writes at (datum_permissions_text code datum) buffer.old buffer.new result }
    ensures fits { result ≤ at + 160 }
{
    if !permits(datum.cap.word, PERMIT_INVOKE) {
        put_place_text(buffer, at, datum.place, b" lacks CInvoke")
    } else {
        put_execute(buffer, at, code, datum)
    }
}

// Writes which permission of a pair is wrong.
fn put_permissions(buffer: &mut [u8], at: usize, code: Placed, datum: Placed) -> usize
    requires code { IsReadable code.place }
    requires datum { IsReadable datum.place }
    requires room { at + 160 ≤ length buffer.old }
    ensures written { Writes at (permissions_text code datum) buffer.old buffer.new result }
    ensures fits { result ≤ at + 160 }
{
    if !permits(code.cap.word, PERMIT_INVOKE) {
        put_place_text(buffer, at, code.place, b" lacks CInvoke")
    } else {
        put_datum_permissions(buffer, at, code, datum)
    }
}

// Writes the object types of a pair.
fn put_types(buffer: &mut [u8], at: usize, code: Placed, datum: Placed) -> usize
    requires code { IsReadable code.place }
    requires datum { IsReadable datum.place }
    requires room { at + 160 ≤ length buffer.old }
    ensures written { Writes at (types_text code datum) buffer.old buffer.new result }
    ensures fits { result ≤ at + 160 }
{
    let at = put_run_place(buffer, at, code.place);
    let at = put(buffer, at, b" has object type ");
    let at = put_type(buffer, at, code.cap.word);
    let at = put(buffer, at, b", and ");
    let at = put_run_place(buffer, at, datum.place);
    let at = put(buffer, at, b" has ");
    put_type(buffer, at, datum.cap.word)
}

// Writes why two sealed words are no pair to invoke.
fn put_sealed_pair(buffer: &mut [u8], at: usize, code: Placed, datum: Placed) -> usize
    requires code { IsReadable code.place }
    requires datum { IsReadable datum.place }
    requires room { at + 160 ≤ length buffer.old }
    ensures written { Writes at (sealed_pair_text code datum) buffer.old buffer.new result }
    ensures fits { result ≤ at + 160 }
{
    let object_type = code.cap.word.object_type();
    if object_type <= GREATEST_TYPE && object_type == datum.cap.word.object_type() {
        put_permissions(buffer, at, code, datum)
    } else {
        put_types(buffer, at, code, datum)
    }
}

// Writes why two words are no pair to invoke.
fn put_pair_text(buffer: &mut [u8], at: usize, code: Placed, datum: Placed) -> usize
    requires code { IsReadable code.place }
    requires datum { IsReadable datum.place }
    requires room { at + 160 ≤ length buffer.old }
    ensures written { Writes at (pair_text code datum) buffer.old buffer.new result }
    ensures fits { result ≤ at + 160 }
{
    if !sealed(code.cap.word) {
        put_place_text(buffer, at, code.place, b" is unsealed")
    } else if !sealed(datum.cap.word) {
        put_place_text(buffer, at, datum.place, b" is unsealed")
    } else {
        put_sealed_pair(buffer, at, code, datum)
    }
}

// Writes which of a pair has no tag.
fn put_untagged_text(buffer: &mut [u8], at: usize, code: Placed, datum: Placed) -> usize
    requires code { IsReadable code.place }
    requires datum { IsReadable datum.place }
    requires room { at + 160 ≤ length buffer.old }
    ensures written { Writes at (untagged_text code datum) buffer.old buffer.new result }
    ensures fits { result ≤ at + 160 }
{
    if code.cap.tag {
        put_place_text(buffer, at, datum.place, b" has no tag")
    } else {
        put_place_text(buffer, at, code.place, b" has no tag")
    }
}

// A word without its seal.
fn opened(word: Word) -> Word
    ensures { result.0 ≡ with_type word.0 unsealed_type }
{
    let high = (word.0 >> 109) << 109;
    let low = word.0 & 0x7ff_ffff_ffff_ffff_ffff_ffff;
    Word(high + (u128::from(UNSEALED_TYPE) << 91) + low)
}

/// Whether a word is another without its seal, at its address or that with bit 0 cleared.
pub(crate) fn is_opened(source: Word, word: Word) -> bool
    ensures { result ≡ is_opened source.0 word.0 }
{
    let open_word = opened(source).0;
    word.0 == open_word || word.0 == open_word - open_word % 2
}

// Writes what the rules give for a place that gets a word of the pair, what the line records, and in what they differ.
#[tactic(auto, unfolding(cap_texts::specs::TextLines::says_line))]
fn put_opened(buffer: &mut [u8], at: usize, place: RunPlace, sealed: Word, recorded: Word) -> usize
    requires place { IsReadable place }
    requires room { at + 640 ≤ length buffer.old }
    ensures written { Writes at (opened_lines place sealed.0 recorded) buffer.old buffer.new result }
    ensures fits { result ≤ at + 640 }
{
    let tag = true;
    let word = opened(sealed);
    let at = put_held(buffer, at, b"gives", place, Cap { tag, word });
    let given = word;
    let word = recorded;
    let at = put_held(buffer, at, b"recorded", place, Cap { tag, word });
    let at = put(buffer, at, b"says ");
    let at = put_word_for(buffer, at, place);
    let at = put(buffer, at, b": ");
    let at = put_words(buffer, at, b"; the rules give ", given, recorded);
    put(buffer, at, b"\n")
}

// Writes why a pair is invoked in vain: if a recorded word isn't theirs, the first such.
#[tactic(auto, unfolding(cap_texts::specs::TextLines::says_line))]
fn put_fault(
    buffer: &mut [u8],
    at: usize,
    code: Placed,
    datum: Placed,
    code_word: Word,
    datum_word: Word,
    refusal: RunRefusal,
) -> usize
    requires code { IsReadable code.place }
    requires datum { IsReadable datum.place }
    requires room { at + 640 ≤ length buffer.old }
    ensures written { Writes at (fault_lines code datum code_word datum_word refusal) buffer.old buffer.new result }
    ensures fits { result ≤ at + 640 }
{
    match refusal {
        RunRefusal::Usual(Refusal::AuthorityUntagged) => {
            let at = put(buffer, at, b"says ");
            let at = put_untagged_text(buffer, at, code, datum);
            put(buffer, at, b"\n")
        }
        RunRefusal::Usual(Refusal::WrongResult) => {
            if is_opened(code.cap.word, code_word) {
                put_opened(
                    buffer,
                    at,
                    RunPlace::General(31),
                    datum.cap.word,
                    datum_word,
                )
            } else {
                put_opened(buffer, at, RunPlace::Special(0), code.cap.word, code_word)
            }
        }
        RunRefusal::NotInvokable => {
            let at = put(buffer, at, b"says ");
            let at = put_pair_text(buffer, at, code, datum);
            put(buffer, at, b"\n")
        }
        _ => at,
    }
}

/// Writes a pair that is invoked, and why that is in vain.
pub fn put_invoked(
    buffer: &mut [u8],
    at: usize,
    code: Placed,
    datum: Placed,
    code_word: Word,
    datum_word: Word,
    refusal: RunRefusal,
) -> usize
    requires code { IsReadable code.place }
    requires datum { IsReadable datum.place }
    requires room { at + 1024 ≤ length buffer.old }
    ensures written { Writes at (invoked_lines code datum code_word datum_word refusal) buffer.old buffer.new result }
    ensures fits { result ≤ at + 1024 }
{
    let at = put_held(buffer, at, b"code", code.place, code.cap);
    let at = put_held(buffer, at, b"data", datum.place, datum.cap);
    put_fault(buffer, at, code, datum, code_word, datum_word, refusal)
}
