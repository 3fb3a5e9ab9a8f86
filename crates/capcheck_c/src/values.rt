//! What passes between C and the library: structs of plain numbers.

ghost use Rattle.std.specs.Prelude.{◌≡◌, ◌≤◌};
ghost use Rattle.cap_halves.specs.Passed.{no_cap};
ghost use Rattle.capcheck_c.specs.LinesRead.{HasNumbers};

use cap_halves::halves::{no_capability, to_c};
use cap_halves::values::{Capability, Halves, PassedLine};
use cap_log::{Register, Target};
use cap_word::Cap;

/// The fields of a word (in C `capcheck_fields`).
#[repr(C)]
#[derive(Clone, Copy)]
pub struct WordFields {
    /// The address.
    pub address: u64,
    /// The object type, below 2^18.
    pub otype: u32,
    /// The permissions.
    pub perms: u16,
    /// B, below 2^14.
    pub b: u16,
    /// The low twelve bits of T, below 2^12.
    pub t: u16,
    /// The exponent E, below 64; 0 without `ie`.
    pub e: u8,
    /// Whether the exponent stands in the word: any number but 0 is so, and 1 in results.
    pub ie: u8,
    /// The flag: any number but 0 is set, and 1 in results.
    pub flag: u8,
    /// The two reserved bits, below 4.
    pub reserved: u8,
}

/// A word, or none (in C `capcheck_optional_word`).
#[repr(C)]
#[derive(Clone, Copy)]
pub struct OptionalWord {
    /// The word; 0 if there is none.
    pub word: Halves,
    /// 1 if there is a word, else 0.
    pub present: u8,
}

/// The text of a word (in C `capcheck_word_text`).
#[repr(C)]
#[derive(Clone, Copy)]
pub struct WordText {
    /// 32 digits and a byte 0.
    pub digits: [u8; 33],
}

/// The bounds of a word (in C `capcheck_bounds`).
#[repr(C)]
#[derive(Clone, Copy)]
pub struct Bounds {
    /// The lowest address.
    pub base: u64,
    /// The address after the highest one.
    pub top: Halves,
}

/// The rounding of a request (in C `capcheck_rounded`).
#[repr(C)]
#[derive(Clone, Copy)]
pub struct RoundedRequest {
    /// The requested base, rounded down.
    pub base: u64,
    /// The requested top, rounded up, at most 2^65.
    pub top: Halves,
    /// B: the base in units of 2^e, modulo 2^14.
    pub b: u16,
    /// T: the top in units of 2^e, modulo 2^14.
    pub t: u16,
    /// The exponent, at most 52.
    pub e: u8,
    /// 1 if the exponent stands in the word, from a length of 4096 on, else 0.
    pub ie: u8,
    /// 1 if both bounds are the requested ones, else 0.
    pub exact: u8,
}

/// The addresses that keep a word's bounds (in C `capcheck_range`).
#[repr(C)]
#[derive(Clone, Copy)]
pub struct AddressRange {
    /// The first address; 0 if every address keeps the bounds.
    pub start: u64,
    /// How many there are; 0 if every address keeps the bounds.
    pub size: u64,
    /// 1 if every address keeps the bounds, else 0.
    pub every: u8,
}

/// What an operation answers (in C `capcheck_made`).
#[repr(C)]
#[derive(Clone, Copy)]
pub struct Made {
    /// The result; NULL without a tag if the operation is refused.
    pub cap: Capability,
    /// 0, or the number of the refusal.
    pub refusal: u8,
}

/// What the test of an access answers (in C `capcheck_access`).
#[repr(C)]
#[derive(Clone, Copy)]
pub struct AccessAnswer {
    /// The address of the access; 0 if it is refused.
    pub address: u64,
    /// 0, or the number of the refusal.
    pub refusal: u8,
}

/// A name (in C `capcheck_name`).
#[repr(C)]
#[derive(Clone, Copy)]
pub struct RefusalName {
    /// The name, and bytes 0 after it.
    pub text: [u8; 24],
}

/// A sentence (in C `capcheck_sentence`).
#[repr(C)]
#[derive(Clone, Copy)]
pub struct Sentence {
    /// The sentence, and bytes 0 after it.
    pub text: [u8; 96],
}

/// How many lines were read (in C `capcheck_read`).
#[repr(C)]
#[derive(Clone, Copy)]
pub struct LinesCount {
    /// The number of lines.
    pub lines: u64,
    /// The number of their bytes, with their line feeds.
    pub bytes: u64,
}

/// What is read of a step that makes a capability: its kind, its registers and what it records.
pub(crate) fn step_line(
    kind: u8,
    target: Target,
    source: Register,
    cap: Cap,
    count: usize,
) -> PassedLine
    ensures read { HasNumbers kind target source 0 0 cap result }
    ensures length { result.length ≡ count }
    ensures tag { result.cap.tag ≤ 1 }
{
    PassedLine {
        source: source.number(),
        ..capability_line(kind, target.number(), cap, count)
    }
}

/// What is read of a line with one capability: its kind and the register that gets it, or 0.
pub(crate) fn capability_line(kind: u8, target: u8, cap: Cap, count: usize) -> PassedLine
    ensures read { HasNumbers kind target 0 0 0 cap result }
    ensures length { result.length ≡ count }
    ensures tag { result.cap.tag ≤ 1 }
{
    PassedLine {
        cap: to_c(cap),
        target,
        ..number_line(kind, 0, count)
    }
}

/// What is read of a line that records no capability: its kind and one number.
pub(crate) fn number_line(kind: u8, number: u64, count: usize) -> PassedLine
    ensures read { HasNumbers kind 0 0 0 number no_cap result }
    ensures length { result.length ≡ count }
    ensures tag { result.cap.tag ≤ 1 }
{
    PassedLine {
        cap: no_capability(),
        number,
        length: count,
        offset: 0,
        kind,
        target: 0,
        source: 0,
        authority: 0,
        size: 0,
    }
}
