//! Registers, and the places of roots.

ghost use Rattle.std.specs.Prelude.{◌≡◌, ◌↔◌, ℕ, ◌+◌, ◌<◌, ◌≤◌, [], ◌∷◌, ◌++◌, length, take, IfNone, IfSome, MatchOption};
ghost use Rattle.cap_log.specs.Lines.{IsPlace, place_spelling, register_spelling};
ghost use Rattle.cap_log.specs.{Parts.{Begins, BeginsWithNone, IsEnd}, Ranges.{IsRegister, IsRegisterFrom}};
ghost use Rattle.cap_log.specs.SpacelessLaws.{place-spaceless, register-spaceless, register-within};
ghost use Rattle.cap_streams.specs.Written.{Writes};

use crate::buffers::{put, put_few};
use crate::lines::Place;
use crate::parts::hexadecimals::write_number;
use crate::parts::{Part, Single};
use std::marker::Model;

/// The greatest register.
const GREATEST_REGISTER: u8 = 31;

/// The least register whose name has two digits.
const LEAST_OF_TWO_DIGITS: u32 = 10;

/// A register from a least one on.
#[derive(Clone, Copy, Debug, PartialEq, Eq)]
pub struct RegisterFrom<const LEAST: u8> {
    number: u8,
}

/// A register that a step reads, `c0` to `c31`.
pub type Register = RegisterFrom<0>;

/// A register that a step writes, `c1` to `c31`.
pub type Target = RegisterFrom<1>;

impl<const LEAST: u8> Model for RegisterFrom<LEAST> {
    ghost use Rattle.std.specs.Prelude.{ℕ};
    ghost use Rattle.cap_log.specs.Ranges.{IsRegisterFrom};

    ghost Value = { ℕ };

    ghost view = { λ register. register.number };

    ghost invariant = { λ register. IsRegisterFrom LEAST register.number };

    ghost inverse = { λ number. record { number = number } };
}

impl<const LEAST: u8> RegisterFrom<LEAST> {
    /// The register of this number, or `None` where it is below the least or above 31.
    #[inline(always)]
    pub fn new(number: u64) -> Option<Self>
        ensures register { MatchOption result (¬ IsRegisterFrom LEAST number)
            (λ register. IsRegisterFrom LEAST number × (register ≡ number)) }
    {
        if number >= u64::from(LEAST) && number <= u64::from(GREATEST_REGISTER) {
            Some(Self {
                number: number as u8,
            })
        } else {
            None
        }
    }

    /// Its number, the least to 31.
    #[inline(always)]
    pub fn number(self) -> u8
        ensures number { result ≡ self.entry }
        ensures range { IsRegisterFrom LEAST self.entry }
    {
        self.number
    }
}

impl<const LEAST: u8> Part for RegisterFrom<LEAST> {
    ghost fits = { IsRegisterFrom LEAST };

    ghost spelled = { register_spelling };

    #[inline(always)]
    fn take(bytes: &[u8], end: u8) -> Option<(Self, &[u8])> {
        let (number, rest) = take_number(bytes, end)?;
        if number < LEAST {
            return None;
        }
        Some((Self { number }, rest))
    }

    #[inline(always)]
    fn write(&self, buffer: &mut [u8], at: usize) -> usize {
        write_register(buffer, at, self.number)
    }
}

impl<const LEAST: u8> Single for RegisterFrom<LEAST> {
    ghost spaceless = { λ register fits. register-spaceless register (register-within LEAST register fits).1 };
}

impl Single for Place {
    ghost spaceless = { place-spaceless };
}

impl Part for Place {
    ghost fits = { IsPlace };

    ghost spelled = { place_spelling };

    #[inline(always)]
    fn take(bytes: &[u8], end: u8) -> Option<(Place, &[u8])> {
        if let Some(digits) = bytes.strip_prefix(b"@") {
            let (address, rest) = u64::take(digits, end)?;
            if address % 16 == 0 {
                return Some((Place::Granule(address / 16), rest));
            }
            return None;
        }
        let Some((target, rest)) = Target::take(bytes, end) else {
            return None;
        };
        Some((Place::Register(target.number()), rest))
    }

    #[inline(always)]
    fn write(&self, buffer: &mut [u8], at: usize) -> usize {
        match *self {
            Place::Register(number) => write_register(buffer, at, number),
            Place::Granule(number) => {
                let next = put(buffer, at, b"@");
                write_number(buffer, next, 16 * number)
            }
        }
    }
}

// Takes a register's name and the byte that ends it: the register's number, and what follows that byte.
#[inline(always)]
fn take_number(bytes: &[u8], end: u8) -> Option<(u8, &[u8])>
    requires { IsEnd end }
    ensures some { IfSome result (λ p. Begins IsRegister register_spelling end bytes.now p.0 p.1.now) }
    ensures none { IfNone result (BeginsWithNone IsRegister register_spelling end bytes.now) }
{
    let Some((front, rest)) = bytes.split_first_chunk::<4>() else {
        return take_last(bytes, end);
    };
    let digit = one_digit(front, end);
    if digit < 10 {
        return Some((digit as u8, &bytes[3..]));
    }
    let number = two_digits(front, end);
    if number >= LEAST_OF_TWO_DIGITS && number <= u32::from(GREATEST_REGISTER) {
        Some((number as u8, rest))
    } else {
        None
    }
}

// The same where fewer than four bytes stand there.
#[inline(never)]
fn take_last(bytes: &[u8], end: u8) -> Option<(u8, &[u8])>
    requires { length bytes.now < 4 }
    ensures some { IfSome result (λ p. Begins IsRegister register_spelling end bytes.now p.0 p.1.now) }
    ensures none { IfNone result (BeginsWithNone IsRegister register_spelling end bytes.now) }
{
    let [letter, digit, last] = bytes else {
        return None;
    };
    let digit = one_digit(&[*letter, *digit, *last, 0], end);
    if digit < 10 {
        Some((digit as u8, &bytes[3..]))
    } else {
        None
    }
}

// The register whose name of one digit stands in front, with this end after it, or a number above 9 if
// none does: four bytes are compared as one number.
#[inline(always)]
fn one_digit(front: &[u8; 4], end: u8) -> u32
    ensures { (n : ℕ) → n < 10 → (result ≡ n) ↔ (take 3 front.now ≡ register_spelling n ++ end ∷ []) }
{
    let word = u32::from_le_bytes(*front);
    let least = u32::from_le_bytes([0, b'c', b'0', end]);
    let apart = (word << 8).wrapping_sub(least);
    (apart >> 16) + (apart << 16)
}

// The same with a name of two digits, or a number below 10 or above 31.
#[inline(always)]
fn two_digits(front: &[u8; 4], end: u8) -> u32
    ensures { (n : ℕ) → 10 ≤ n → n ≤ 31 → (result ≡ n) ↔ (front.now ≡ register_spelling n ++ end ∷ []) }
{
    let word = u32::from_le_bytes(*front);
    let least = u32::from_le_bytes([b'c', b'0', b'0', end]);
    let apart = word.wrapping_sub(least);
    let digits = (apart >> 8) + (apart << 24);
    if digits < 2560 {
        10 * (digits % 256) + digits / 256
    } else {
        0
    }
}

// Writes a register's name.
#[inline(always)]
fn write_register(buffer: &mut [u8], at: usize, register: u8) -> usize
    requires { at + length (register_spelling register) ≤ length buffer.old }
    ensures { Writes at (register_spelling register) buffer.old buffer.new result }
{
    let next = put(buffer, at, b"c");
    put_few(buffer, next, u16::from(register))
}
