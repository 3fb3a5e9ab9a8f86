//! Words: their fields, their layout in memory, their text.

ghost use Rattle.std.specs.Prelude.{◌≡◌, ◌≢◌, ◌<◌, ◌≤◌, ◌^◌, ◌++◌, ◌↔◌, [], ◌∷◌, ℕ, slice_index};
ghost use Rattle.cap_word.specs.{Digits.{AreHexDigits, hex_digits}, Memory.{memory_byte, memory_of, stored_word}};
ghost use Rattle.cap_word.specs.Word.{null_word};
ghost use Rattle.cap_halves.specs.Passed.{whole_of};
ghost use Rattle.capcheck_c.specs.WordFields.{AreFields, HasFields, IsNoWord, joined_of};

use crate::values::{OptionalWord, WordFields, WordText};
use cap_halves::halves::{halves_of, word_of};
use cap_halves::values::Halves;
use cap_word::{Fields, Word, from_memory, join, null, read_word, split, to_memory, word_text};

/// The word of NULL.
#[unsafe(no_mangle)]
pub extern "C" fn capcheck_null() -> Halves
    ensures value { whole_of result ≡ null_word }
{
    halves_of(null().0)
}

/// Takes a word apart. Every pattern of 128 bits has fields, and they join to the same pattern.
#[unsafe(no_mangle)]
pub extern "C" fn capcheck_split(word: Halves) -> WordFields
    ensures fields { HasFields (whole_of word) result }
    ensures bits { (result.flag ≤ 1) × (result.ie ≤ 1) }
    ensures joins_back { joined_of result ≡ whole_of word }
{
    let fields = split(word_of(word));
    WordFields {
        address: fields.address,
        otype: fields.otype,
        perms: fields.perms,
        b: fields.b,
        t: fields.t,
        e: fields.e,
        ie: u8::from(fields.ie),
        flag: u8::from(fields.flag),
        reserved: fields.reserved,
    }
}

/// An answer with a word.
pub(crate) fn some_word(word: Word) -> OptionalWord
    ensures present { result.present ≡ 1 }
    ensures word { whole_of result.word ≡ word.0 }
{
    OptionalWord {
        word: halves_of(word.0),
        present: 1,
    }
}

/// An answer without one.
pub(crate) fn no_word() -> OptionalWord
    ensures { IsNoWord result }
{
    OptionalWord {
        word: halves_of(0),
        present: 0,
    }
}

/// Puts a word together: its fields are the given ones. There is none if a field is too wide, or if
/// the exponent, B and T don't fit `ie`.
#[unsafe(no_mangle)]
pub extern "C" fn capcheck_join(fields: WordFields) -> OptionalWord
    ensures word { AreFields fields → (result.present ≡ 1) × (whole_of result.word ≡ joined_of fields) }
    ensures fields { AreFields fields → HasFields (whole_of result.word) fields }
    ensures none { ¬ AreFields fields → IsNoWord result }
{
    let ie = fields.ie != 0;
    if fields.reserved >= 4
        || fields.otype >= 0x4_0000
        || fields.e >= 64
        || fields.b >= 0x4000
        || fields.t >= 0x1000
        || (!ie && fields.e != 0)
        || (ie && (fields.b % 8 != 0 || fields.t % 8 != 0))
    {
        return no_word();
    }
    some_word(join(&Fields {
        perms: fields.perms,
        reserved: fields.reserved,
        flag: fields.flag != 0,
        otype: fields.otype,
        ie,
        e: fields.e,
        b: fields.b,
        t: fields.t,
        address: fields.address,
    }))
}

/// Writes the sixteen bytes of a word in memory, lowest first.
#[unsafe(no_mangle)]
pub extern "C" fn capcheck_to_memory(word: Halves, bytes: &mut [u8; 16])
    ensures bytes { bytes.new ≡ memory_of (whole_of word) }
    ensures by_index { (i : ℕ) → i < 16 → slice_index bytes.new i ≡ memory_byte (whole_of word) i }
    ensures reads_back { stored_word bytes.new ≡ whole_of word }
{
    *bytes = to_memory(word_of(word));
}

/// The word that sixteen bytes of memory hold: the inverse of [`capcheck_to_memory`].
#[unsafe(no_mangle)]
pub extern "C" fn capcheck_from_memory(bytes: &[u8; 16]) -> Halves
    ensures word { whole_of result ≡ stored_word bytes.now }
    ensures by_index { (i : ℕ) → i < 16 → memory_byte (whole_of result) i ≡ slice_index bytes.now i }
    ensures writes_back { memory_of (whole_of result) ≡ bytes.now }
{
    halves_of(from_memory(bytes).0)
}

/// The text of a word, 32 lower-case hexadecimal digits of its register layout, as a C string.
#[unsafe(no_mangle)]
pub extern "C" fn capcheck_text_of(word: Halves) -> WordText
    ensures digits { result.digits ≡ hex_digits 32 (whole_of word) ++ 0 ∷ [] }
{
    let mut digits = [0u8; 33];
    digits[..32].copy_from_slice(&word_text(word_of(word)));
    WordText { digits }
}

/// Reads a word from its text, 32 lower-case hexadecimal digits. Of anything else, upper-case digits
/// among them, there is none.
#[unsafe(no_mangle)]
pub extern "C" fn capcheck_read_word(text: &[u8]) -> OptionalWord
    ensures range { result.present ≤ 1 }
    ensures some { result.present ≡ 1 → text.now ≡ hex_digits 32 (whole_of result.word) }
    ensures none { result.present ≡ 0 → (n : ℕ) → n < 2 ^ 128 → text.now ≢ hex_digits 32 n }
    ensures digits { (result.present ≡ 1) ↔ AreHexDigits 32 text.now }
    ensures reads_back { (n : ℕ) → n < 2 ^ 128 → text.now ≡ hex_digits 32 n
        → (result.present ≡ 1) × (whole_of result.word ≡ n) }
    ensures zero { result.present ≡ 0 → IsNoWord result }
{
    match read_word(text) {
        Some(word) => some_word(word),
        None => no_word(),
    }
}
