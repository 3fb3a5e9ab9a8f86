//! The fields of a line, which are its words, and the first of them that is wrong.

ghost use Rattle.std.specs.Prelude.{◌≡◌, ◌≤◌, ◌∷◌, ℕ, List, IfNone, IfSome, length};
ghost use Rattle.cap_log.specs.Parts.{Begins, BeginsWithNone, IsEnd};
ghost use Rattle.cap_texts.specs.Fields.{AllStand, IsFirstWrong, Stands, StandsDigit, StandsValue};
ghost use Rattle.cap_texts.specs.Fields.{bytes_of_size, expected_text, size_after};

use crate::tops::Top;
use cap_log::kinds::LINE_NAMES;
use cap_log::{Mode, Offset, Part, Place, Register, Target};
use cap_word::{Word, take_bytes};

/// What a word of a line has to be.
#[derive(Clone, Copy, Debug, PartialEq, Eq)]
pub enum Field {
    /// The name of a line of a machine's log.
    LogName,
    /// The name of a line of an allocator's log.
    HeapName,
    /// The version of a machine's log.
    LogVersion,
    /// The version of an allocator's log.
    HeapVersion,
    /// The name of a mode.
    Mode,
    /// A register that is written, or a granule.
    Place,
    /// A register that is written.
    Target,
    /// A register that is read.
    Register,
    /// A length, an address or a mask.
    Number,
    /// The end of an allocator's root.
    Top,
    /// The offset of an access.
    Offset,
    /// How many bytes an access takes.
    Size,
    /// The sign before a result.
    Equals,
    /// The bytes of an access.
    Value,
    /// The tag of a result.
    Tag,
    /// A capability's word.
    Word,
    /// How many steps or events there were.
    Count,
}

/// A word of a line that isn't what it has to be.
#[derive(Clone, Copy, Debug, PartialEq, Eq)]
pub struct Wrong<'a> {
    /// What it has to be.
    pub field: Field,
    /// The byte that has to follow it: a space, or the line feed after a line's last word.
    pub end: u8,
    /// The bytes of the line from there on.
    pub rest: &'a [u8],
}

/// The first of these fields that doesn't stand at its place, from the front of some bytes on, which end with a line
/// feed; `None` if all stand there. The size is the digit of the last field of a size.
pub fn first_wrong<'a>(fields: &[Field], size: u8, bytes: &'a [u8]) -> Option<Wrong<'a>>
    ensures wrong { IfSome result (λ wrong. IsFirstWrong fields.now size bytes.now wrong.field wrong.end wrong.rest.now) }
    ensures none { IfNone result (AllStand fields.now size bytes.now) }
    ensures inside { IfSome result (λ wrong. length wrong.rest.now ≤ length bytes.now) }
{
    let (field, more) = fields.split_first()?;
    let end = if more.is_empty() { b'\n' } else { b' ' };
    match take_field(*field, size, bytes, end) {
        Some(rest) => first_wrong(more, size_after(*field, size, bytes), rest),
        None => Some(Wrong {
            field: *field,
            end,
            rest: bytes,
        }),
    }
}

// The digit of a size, once a field was taken.
fn size_after(field: Field, size: u8, bytes: &[u8]) -> u8
    ensures { result ≡ size_after field size bytes.now }
{
    match (field, bytes.first()) {
        (Field::Size, Some(digit)) => *digit,
        _ => size,
    }
}

// What follows a field at the front of some bytes and the byte that ends it, or `None` if they do not stand there.
fn take_field(field: Field, size: u8, bytes: &[u8], end: u8) -> Option<&[u8]>
    requires { IsEnd end }
    ensures some { IfSome result (λ rest. Stands field size end bytes.now rest.now) }
    ensures none { IfNone result ((rest : List ℕ) → Stands field size end bytes.now rest → ⊥) }
    ensures inside { IfSome result (λ rest. length rest.now ≤ length bytes.now) }
{
    match field {
        Field::LogName | Field::HeapName => None,
        Field::LogVersion => take_digit(bytes, end, b"12"),
        Field::HeapVersion => take_digit(bytes, end, b"1"),
        Field::Mode => take_part::<Mode>(bytes, end),
        Field::Place => take_part::<Place>(bytes, end),
        Field::Target => take_part::<Target>(bytes, end),
        Field::Register => take_part::<Register>(bytes, end),
        Field::Number => take_part::<u64>(bytes, end),
        Field::Top => take_part::<Top>(bytes, end),
        Field::Offset => take_part::<Offset>(bytes, end),
        Field::Size => take_digit(bytes, end, b"1248"),
        Field::Equals => take_digit(bytes, end, b"="),
        Field::Value => take_value(size, bytes, end),
        Field::Tag => take_digit(bytes, end, b"01"),
        Field::Word => take_part::<Word>(bytes, end),
        Field::Count => take_part::<u32>(bytes, end),
    }
}

// What follows a part of a line and the byte that ends it.
fn take_part<P: Part>(bytes: &[u8], end: u8) -> Option<&[u8]>
    requires { IsEnd end }
    ensures some { IfSome result (λ rest. (value : P) × Begins P.fits P.spelled end bytes.now value rest.now) }
    ensures none { IfNone result (BeginsWithNone P.fits P.spelled end bytes.now) }
    ensures inside { IfSome result (λ rest. length rest.now ≤ length bytes.now) }
{
    let (_part, rest) = P::take(bytes, end)?;
    Some(rest)
}

// What follows one of these digits and the byte that ends it.
fn take_digit<'a>(bytes: &'a [u8], end: u8, digits: &[u8]) -> Option<&'a [u8]>
    ensures some { IfSome result (λ rest. StandsDigit digits.now end bytes.now rest.now) }
    ensures none { IfNone result ((rest : List ℕ) → StandsDigit digits.now end bytes.now rest → ⊥) }
    ensures inside { IfSome result (λ rest. length rest.now ≤ length bytes.now) }
{
    let (first, others) = bytes.split_first()?;
    let (second, rest) = others.split_first()?;
    if digits.contains(first) && *second == end {
        Some(rest)
    } else {
        None
    }
}

// What follows a value of a size and the byte that ends it.
fn take_value(size: u8, bytes: &[u8], end: u8) -> Option<&[u8]>
    ensures some { IfSome result (λ rest. StandsValue size end bytes.now rest.now) }
    ensures none { IfNone result ((rest : List ℕ) → StandsValue size end bytes.now rest → ⊥) }
    ensures inside { IfSome result (λ rest. length rest.now ≤ length bytes.now) }
{
    let (_number, others) = take_bytes(bytes, bytes_of_size(size))?;
    take_end(others, end)
}

// How many bytes the digit of a size stands for.
fn bytes_of_size(size: u8) -> u8
    ensures value { result ≡ bytes_of_size size }
    ensures some { 1 ≤ result }
    ensures few { result ≤ 8 }
{
    match size {
        b'1' => 1,
        b'2' => 2,
        b'4' => 4,
        _ => 8,
    }
}

// What follows a byte.
fn take_end(bytes: &[u8], end: u8) -> Option<&[u8]>
    ensures some { IfSome result (λ rest. bytes.now ≡ end ∷ rest.now) }
    ensures none { IfNone result ((rest : List ℕ) → bytes.now ≡ end ∷ rest → ⊥) }
    ensures inside { IfSome result (λ rest. length rest.now ≤ length bytes.now) }
{
    let (first, rest) = bytes.split_first()?;
    if *first == end { Some(rest) } else { None }
}

/// What a field has to be, in words.
pub(crate) fn expected_text(field: Field) -> &'static [u8]
    ensures text { result.now ≡ expected_text field }
    ensures short { length result.now ≤ 160 }
{
    match field {
        Field::LogName => LINE_NAMES,
        Field::HeapName => b"root, malloc, free or end",
        Field::LogVersion => b"the version, 1 or 2",
        Field::HeapVersion => b"the version, 1",
        Field::Mode => b"strict or clear",
        Field::Place =>
            b"a register, c1 to c31, or @ and an address of 16 lower-case hexadecimal digits, the last of them 0",
        Field::Target => b"a register that is written, c1 to c31",
        Field::Register => b"a register, c0 to c31",
        Field::Number => b"16 lower-case hexadecimal digits",
        Field::Top => b"17 lower-case hexadecimal digits, at most 10000000000000000",
        Field::Offset => b"an offset, -2048 to 2047",
        Field::Size => b"a size, 1, 2, 4 or 8",
        Field::Equals => b"an equals sign",
        Field::Value => b"the value, 2 lower-case hexadecimal digits for each byte",
        Field::Tag => b"the tag, 0 or 1",
        Field::Word => b"a word, 32 lower-case hexadecimal digits",
        Field::Count => b"a count, in decimal",
    }
}
