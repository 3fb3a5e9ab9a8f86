//! Numbers of 1, 2, 4 or 8 bytes: their size, and two hexadecimal digits for each byte.

ghost use Rattle.std.specs.Prelude.{◌≡◌, ℕ, ◌*◌, ◌+◌, ◌≤◌, length, List, ◌++◌, decimal, IfSome, IfNone, IsTrue};
ghost use Rattle.std.specs.Prelude.{MatchOption, ◌↔◌, ◌<◌, ◌∷◌};
ghost use Rattle.cap_word.specs.Digits.{hex_digits};
ghost use Rattle.cap_log.specs.Parts.{Begins, BeginsWithNone, accessed_spelling, value_mark};
ghost use Rattle.cap_log.specs.Ranges.{IsDataSize, IsDataValue, IsDatum};
ghost use Rattle.cap_streams.specs.Written.{Writes};

use crate::buffers::{put, put_few};
use crate::parts::Part;
use crate::parts::fronts::strip_word;
use cap_word::{number_text, take_bytes};
use std::marker::Model;

/// How many bytes a load or a store takes: 1, 2, 4 or 8.
#[derive(Clone, Copy, Debug, PartialEq, Eq)]
pub struct Size {
    bytes: u8,
}

impl Model for Size {
    ghost use Rattle.std.specs.Prelude.{ℕ};
    ghost use Rattle.cap_log.specs.Ranges.{IsDataSize};

    ghost Value = { ℕ };

    ghost view = { λ size. size.bytes };

    ghost invariant = { λ size. IsDataSize size.bytes };

    ghost inverse = { λ bytes. record { bytes = bytes } };
}

impl Size {
    /// The size of so many bytes, or `None` where they are not 1, 2, 4 or 8.
    #[inline(always)]
    pub fn new(bytes: u64) -> Option<Size>
        ensures size { MatchOption result (¬ IsDataSize bytes) (λ size. IsDataSize bytes × (size ≡ bytes)) }
    {
        // Eight bytes are the most usual. No branch tells the other sizes apart: which it is can seldom be predicted.
        if bytes == 8 {
            return Some(Size { bytes: 8 });
        }
        if bytes == 0 || bytes == 3 || bytes > 4 {
            return None;
        }
        Some(Size { bytes: bytes as u8 })
    }

    /// How many bytes.
    #[inline(always)]
    pub fn bytes(self) -> u8
        ensures bytes { result ≡ self }
        ensures range { IsDataSize self }
    {
        self.bytes
    }
}

/// What a load or a store takes: a number of so many bytes.
#[derive(Clone, Copy, Debug, PartialEq, Eq)]
pub struct Datum {
    size: Size,
    value: u64,
}

impl Model for Datum {
    ghost use Rattle.cap_log.specs.Ranges.{Datum, IsDatum};

    ghost Value = { Datum };

    ghost view = { λ datum. record { size = datum.size; value = datum.value } };

    ghost invariant = { λ datum. IsDatum (record { size = datum.size; value = datum.value }) };

    ghost inverse = { λ datum. record { size = datum.size; value = datum.value } };
}

impl Datum {
    /// A number of so many bytes, or `None` where they are not 1, 2, 4 or 8, or the number needs more.
    #[inline(always)]
    pub fn new(size: u64, value: u64) -> Option<Datum>
        ensures datum { MatchOption result (¬ IsDatum (record { size = size; value = value }))
            (λ datum. IsDatum datum × (datum ≡ record { size = size; value = value })) }
    {
        let Some(size) = Size::new(size) else {
            return None;
        };
        if fits(size, value) {
            Some(Datum { size, value })
        } else {
            None
        }
    }

    /// How many bytes.
    #[inline(always)]
    pub fn size(self) -> Size
        ensures size { result ≡ self.size }
        ensures range { IsDatum self }
    {
        self.size
    }

    /// Their number.
    #[inline(always)]
    pub fn value(self) -> u64
        ensures value { result ≡ self.value }
    {
        self.value
    }
}

// Whether a number has no more bytes than these.
#[inline(always)]
fn fits(size: Size, value: u64) -> bool
    ensures { IsTrue result ↔ IsDataValue size value }
{
    match size.bytes {
        1 => value < 0x100,
        2 => value < 0x1_0000,
        4 => value < 0x1_0000_0000,
        _ => true,
    }
}

/// The end of a load's or a store's line: the size, `= ` for a load, and the digits of the value.
#[derive(Clone, Copy)]
pub struct Accessed<const IS_LOAD: bool>(pub Datum);

/// What a load records.
pub type Loaded = Accessed<true>;

/// What a store takes.
pub type Stored = Accessed<false>;

impl<const IS_LOAD: bool> Part for Accessed<IS_LOAD> {
    ghost fits = { λ accessed. IsDatum accessed.0 };

    ghost spelled = { λ accessed. accessed_spelling IS_LOAD accessed.0 };

    #[inline(always)]
    fn take(bytes: &[u8], end: u8) -> Option<(Self, &[u8])> {
        let (count, digits) = take_size::<IS_LOAD>(bytes)?;
        let size = Size { bytes: count };
        let (value, rest) = take_value(digits, size, end)?;
        Some((Accessed(Datum { size, value }), rest))
    }

    #[inline(always)]
    fn write(&self, buffer: &mut [u8], at: usize) -> usize {
        let size = self.0.size();
        let next = put_few(buffer, at, u16::from(size.bytes()));
        let digits = put(buffer, next, if IS_LOAD { b" = " } else { b" " });
        put_value(buffer, digits, size, self.0.value())
    }
}

// Writes a value of so many bytes: the last of its sixteen digits, two for each byte.
#[inline(always)]
fn put_value(buffer: &mut [u8], at: usize, size: Size, value: u64) -> usize
    requires { at + 2 * size ≤ length buffer.old }
    ensures { Writes at (hex_digits (2 * size) value) buffer.old buffer.new result }
{
    let digits = number_text(value);
    let count = size.bytes();
    if count == 8 {
        put(buffer, at, &digits)
    } else if count == 4 {
        put(buffer, at, &digits[8..])
    } else if count == 2 {
        put(buffer, at, &digits[12..])
    } else {
        put(buffer, at, &digits[14..])
    }
}

// Takes a size, a space, and `= ` where it is a load's, as one number.
#[inline(always)]
fn take_size<const IS_LOAD: bool>(bytes: &[u8]) -> Option<(u8, &[u8])>
    ensures some { IfSome result (λ p. Begins IsDataSize decimal 32 bytes.now p.0 (value_mark IS_LOAD ++ p.1.now)) }
    ensures none { IfNone result ((n : ℕ) (rest : List ℕ)
        → Begins IsDataSize decimal 32 bytes.now n (value_mark IS_LOAD ++ rest) → ⊥) }
{
    if IS_LOAD {
        let (front, rest) = bytes.split_first_chunk::<4>()?;
        let digit = u32::from_le_bytes(*front).wrapping_sub(u32::from_le_bytes(*b"0 = "));
        let size = Size::new(u64::from(digit))?;
        Some((size.bytes(), rest))
    } else {
        let (front, rest) = bytes.split_first_chunk::<2>()?;
        let digit = u16::from_le_bytes(*front).wrapping_sub(u16::from_le_bytes(*b"0 "));
        let size = Size::new(u64::from(digit))?;
        Some((size.bytes(), rest))
    }
}

// Takes a value of so many bytes, two digits for each, and the byte that ends it.
#[inline(always)]
fn take_value(bytes: &[u8], size: Size, end: u8) -> Option<(u64, &[u8])>
    ensures some { IfSome result (λ p. Begins (IsDataValue size) (hex_digits (2 * size)) end bytes.now p.0 p.1.now) }
    ensures none { IfNone result (BeginsWithNone (IsDataValue size) (hex_digits (2 * size)) end bytes.now) }
{
    let (value, others) = take_digits(bytes, size)?;
    let rest = strip_word(others, b"", end)?;
    Some((value, rest))
}

// Takes the digits of a value. Eight bytes are the most usual, and are read without asking how many.
#[inline(always)]
fn take_digits(bytes: &[u8], size: Size) -> Option<(u64, &[u8])>
    ensures fits { IfSome result (λ p. IsDataValue size p.0) }
    ensures some { IfSome result (λ p. bytes.now ≡ hex_digits (2 * size) p.0 ++ p.1.now) }
    ensures none { IfNone result ((n : ℕ) (rest : List ℕ) → IsDataValue size n
        → bytes.now ≡ hex_digits (2 * size) n ++ rest → ⊥) }
{
    let count = size.bytes();
    if count == 8 {
        take_bytes(bytes, 8)
    } else {
        take_bytes(bytes, count)
    }
}
