//! Offsets of accesses, from -2048 to 2047.

ghost use Rattle.std.specs.{Prelude.{◌≡◌, ◌<◌, IfNone, IfSome, MatchOption, decimal}, Fmt.signed_decimal};
ghost use Rattle.cap_log.specs.{Parts.{Begins, BeginsWithNone}, Ranges.IsOffset, SpacelessLaws.offset-spaceless};

use crate::buffers::{put, put_few};
use crate::parts::decimals::take_decimal;
use crate::parts::{Part, Single};
use std::marker::Model;

/// An offset: a decimal number, with a minus sign where it is below 0.
#[derive(Clone, Copy, Debug, PartialEq, Eq)]
pub struct Offset {
    number: i16,
}

impl Model for Offset {
    ghost use Rattle.std.specs.Prelude.{ℤ};
    ghost use Rattle.cap_log.specs.Ranges.{IsOffset};

    ghost Value = { ℤ };

    ghost view = { λ offset. offset.number };

    ghost invariant = { λ offset. IsOffset offset.number };

    ghost inverse = { λ number. record { number = number } };
}

impl Offset {
    /// The offset of this number, or `None` where it is below -2048 or above 2047.
    #[inline(always)]
    pub fn new(number: i64) -> Option<Offset>
        ensures offset { MatchOption result (¬ IsOffset number) (λ offset. IsOffset number × (offset ≡ number)) }
    {
        if number >= -2048 && number <= 2047 {
            Some(Offset {
                number: number as i16,
            })
        } else {
            None
        }
    }

    /// Its number, -2048 to 2047.
    #[inline(always)]
    pub fn number(self) -> i16
        ensures number { result ≡ self }
        ensures range { IsOffset self }
    {
        self.number
    }
}

impl Part for Offset {
    ghost fits = { IsOffset };

    ghost spelled = { signed_decimal };

    #[inline(always)]
    fn take(bytes: &[u8], end: u8) -> Option<(Offset, &[u8])> {
        if let Some((digit, rest)) = take_digit(bytes, end) {
            let number = i16::from(digit);
            return Some((Offset { number }, rest));
        }
        let (first, digits) = bytes.split_first()?;
        if *first == b'-' {
            let (number, rest) = take_decimal::<4, 1, 2049>(digits, end)?;
            let number = -(number as i16);
            return Some((Offset { number }, rest));
        }
        let (number, rest) = take_decimal::<4, 10, 2048>(bytes, end)?;
        let number = number as i16;
        Some((Offset { number }, rest))
    }

    #[inline(always)]
    fn write(&self, buffer: &mut [u8], at: usize) -> usize {
        if self.number < 0 {
            let next = put(buffer, at, b"-");
            put_few(buffer, next, self.number.unsigned_abs())
        } else {
            put_few(buffer, at, self.number.unsigned_abs())
        }
    }
}

impl Single for Offset {
    ghost spaceless = { offset-spaceless };
}

// Takes a number of one digit, which is the most usual, and its end, compared as one number.
#[inline(always)]
fn take_digit(bytes: &[u8], end: u8) -> Option<(u8, &[u8])>
    ensures some { IfSome result (λ p. Begins (λ n. n < 10) decimal end bytes.now p.0 p.1.now) }
    ensures none { IfNone result (BeginsWithNone (λ n. n < 10) decimal end bytes.now) }
{
    let (front, rest) = bytes.split_first_chunk::<2>()?;
    let word = u16::from_le_bytes(*front);
    let digit = word.wrapping_sub(u16::from_le_bytes([b'0', end]));
    if digit < 10 {
        Some((digit as u8, rest))
    } else {
        None
    }
}
