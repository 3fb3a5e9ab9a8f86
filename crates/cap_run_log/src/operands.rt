//! The registers that steps of runs name: special ones, and any that are read or written.

ghost use Rattle.std.specs.Prelude.{◌≡◌, ◌+◌, ◌<◌, ◌≤◌, ◌∷◌, ◌++◌, IfSome, MatchOption, decimal, length};
ghost use Rattle.cap_log.specs.{Lines.register_spelling, Ranges.IsRegister};
ghost use Rattle.cap_streams.specs.Written.{Writes};
ghost use Rattle.cap_run_log.specs.declared.lines.RunRegister.TheVariants.{General as GeneralIn, Special as SpecialIn};
ghost use Rattle.cap_run_log.specs.RunLines.{run_register_spelling, special_spelling};
ghost use Rattle.cap_run_log.specs.RunRanges.{IsRunRegister};
ghost use Rattle.cap_run_log.specs.SpaceLaws.{register_at-spaceless, special-spaceless};

use crate::lines::RunRegister;
use cap_log::buffers::{put, put_decimal};
use cap_log::{Part, Register, Single, Target, strip_word, take_decimal};
use std::marker::Model;

/// A special register, scr0 to scr31.
#[derive(Clone, Copy, Debug, PartialEq, Eq)]
pub struct Special {
    number: u8,
}

impl Model for Special {
    ghost use Rattle.std.specs.Prelude.{ℕ};
    ghost use Rattle.cap_log.specs.Ranges.{IsRegister};

    ghost Value = { ℕ };

    ghost view = { λ special. special.number };

    ghost invariant = { λ special. IsRegister special.number };

    ghost inverse = { λ number. record { number = number } };
}

impl Special {
    /// The special register of this number, or `None` where it is above 31.
    #[inline(always)]
    pub fn new(number: u64) -> Option<Special>
        ensures register { MatchOption result (¬ IsRegister number) (λ special. IsRegister number × (special ≡ number)) }
    {
        if number < 32 {
            Some(Special {
                number: number as u8,
            })
        } else {
            None
        }
    }

    /// Its number, 0 to 31, with which CSpecialRW names it: 0 is PCC, 1 is DDC.
    #[inline(always)]
    pub fn number(self) -> u8
        ensures number { result ≡ self }
        ensures range { IsRegister self }
    {
        self.number
    }
}

impl Part for Special {
    ghost fits = { IsRegister };

    ghost spelled = { special_spelling };

    #[inline(always)]
    fn take(bytes: &[u8], end: u8) -> Option<(Special, &[u8])> {
        if let Some((number, rest)) = take_short(bytes, end) {
            return Some((Special { number }, rest));
        }
        // The r is taken as the byte that ends the letters before it.
        let Some(digits) = strip_word(bytes, b"sc", b'r') else {
            return None;
        };
        let Some((number, rest)) = take_decimal::<2, 0, 32>(digits, end) else {
            return None;
        };
        let number = number as u8;
        Some((Special { number }, rest))
    }

    #[inline(always)]
    fn write(&self, buffer: &mut [u8], at: usize) -> usize {
        write_special(buffer, at, self.number)
    }
}

impl Single for Special {
    ghost spaceless = { special-spaceless };
}

/// A register that is read: any general-purpose or special one.
#[derive(Clone, Copy, Debug, PartialEq, Eq)]
pub struct RunSource {
    register: RunRegister,
}

impl Model for RunSource {
    ghost use Rattle.cap_run_log.specs.declared.lines.RunRegister.{RunRegister};
    ghost use Rattle.cap_run_log.specs.RunRanges.{IsRunRegister};

    ghost Value = { RunRegister };

    ghost view = { λ source. source.register };

    ghost invariant = { λ source. IsRunRegister 0 source.register };

    ghost inverse = { λ register. record { register = register } };
}

impl RunSource {
    /// A general-purpose register.
    #[inline(always)]
    pub fn general(register: Register) -> RunSource
        ensures register { result ≡ GeneralIn register }
    {
        let register = RunRegister::General(register.number());
        RunSource { register }
    }

    /// A special register.
    #[inline(always)]
    pub fn special(special: Special) -> RunSource
        ensures register { result ≡ SpecialIn special }
    {
        let register = RunRegister::Special(special.number());
        RunSource { register }
    }

    /// The register.
    #[inline(always)]
    pub fn register(self) -> RunRegister
        ensures register { result ≡ self }
        ensures range { IsRunRegister 0 self }
    {
        self.register
    }
}

impl Part for RunSource {
    ghost fits = { IsRunRegister 0 };

    ghost spelled = { run_register_spelling };

    #[inline(always)]
    fn take(bytes: &[u8], end: u8) -> Option<(RunSource, &[u8])> {
        if let Some((special, rest)) = Special::take(bytes, end) {
            return Some((RunSource::special(special), rest));
        }
        let Some((general, rest)) = Register::take(bytes, end) else {
            return None;
        };
        Some((RunSource::general(general), rest))
    }

    #[inline(always)]
    fn write(&self, buffer: &mut [u8], at: usize) -> usize {
        write_run_register(buffer, at, self.register)
    }
}

impl Single for RunSource {
    ghost spaceless = { register_at-spaceless 0 };
}

/// A register that is written: any but c0.
#[derive(Clone, Copy, Debug, PartialEq, Eq)]
pub struct RunTarget {
    register: RunRegister,
}

impl Model for RunTarget {
    ghost use Rattle.cap_run_log.specs.declared.lines.RunRegister.{RunRegister};
    ghost use Rattle.cap_run_log.specs.RunRanges.{IsRunRegister};

    ghost Value = { RunRegister };

    ghost view = { λ target. target.register };

    ghost invariant = { λ target. IsRunRegister 1 target.register };

    ghost inverse = { λ register. record { register = register } };
}

impl RunTarget {
    /// A general-purpose register.
    #[inline(always)]
    pub fn general(target: Target) -> RunTarget
        ensures register { result ≡ GeneralIn target }
    {
        let register = RunRegister::General(target.number());
        RunTarget { register }
    }

    /// A special register.
    #[inline(always)]
    pub fn special(special: Special) -> RunTarget
        ensures register { result ≡ SpecialIn special }
    {
        let register = RunRegister::Special(special.number());
        RunTarget { register }
    }

    /// The register.
    #[inline(always)]
    pub fn register(self) -> RunRegister
        ensures register { result ≡ self }
        ensures range { IsRunRegister 1 self }
    {
        self.register
    }
}

impl Part for RunTarget {
    ghost fits = { IsRunRegister 1 };

    ghost spelled = { run_register_spelling };

    #[inline(always)]
    fn take(bytes: &[u8], end: u8) -> Option<(RunTarget, &[u8])> {
        if let Some((special, rest)) = Special::take(bytes, end) {
            return Some((RunTarget::special(special), rest));
        }
        let Some((general, rest)) = Target::take(bytes, end) else {
            return None;
        };
        Some((RunTarget::general(general), rest))
    }

    #[inline(always)]
    fn write(&self, buffer: &mut [u8], at: usize) -> usize {
        write_run_register(buffer, at, self.register)
    }
}

impl Single for RunTarget {
    ghost spaceless = { register_at-spaceless 1 };
}

// Takes a special register of one digit, the most usual: it and the letters before it are compared as one number.
#[inline(always)]
fn take_short(bytes: &[u8], end: u8) -> Option<(u8, &[u8])>
    ensures some { IfSome result (λ p. IsRegister p.0 × (bytes.now ≡ special_spelling p.0 ++ end ∷ p.1.now)) }
{
    let Some((front, others)) = bytes.split_first_chunk::<4>() else {
        return None;
    };
    let digit = digit_of(front);
    if digit >= 10 {
        return None;
    }
    let Some(rest) = strip_word(others, b"", end) else {
        return None;
    };
    Some((digit as u8, rest))
}

// The special register whose name of one digit these bytes are, or a number above 9 if they are none.
#[inline(always)]
fn digit_of(name: &[u8; 4]) -> u32
    ensures { result < 10 → name.now ≡ special_spelling result }
{
    let word = u32::from_le_bytes(*name);
    let apart = word.wrapping_sub(u32::from_le_bytes(*b"scr0"));
    (apart >> 24) + (apart << 8)
}

// Writes the name of a register.
#[inline(always)]
fn write_run_register(buffer: &mut [u8], at: usize, register: RunRegister) -> usize
    requires { at + length (run_register_spelling register) ≤ length buffer.old }
    ensures { Writes at (run_register_spelling register) buffer.old buffer.new result }
{
    match register {
        RunRegister::General(number) => write_register(buffer, at, number),
        RunRegister::Special(number) => write_special(buffer, at, number),
    }
}

// Writes the name of a special register.
#[inline(always)]
pub(crate) fn write_special(buffer: &mut [u8], at: usize, number: u8) -> usize
    requires { at + length (special_spelling number) ≤ length buffer.old }
    ensures { Writes at (special_spelling number) buffer.old buffer.new result }
{
    let digits = put(buffer, at, b"scr");
    put_small(buffer, digits, number)
}

// Writes the name of a general-purpose register.
#[inline(always)]
pub(crate) fn write_register(buffer: &mut [u8], at: usize, number: u8) -> usize
    requires { at + length (register_spelling number) ≤ length buffer.old }
    ensures { Writes at (register_spelling number) buffer.old buffer.new result }
{
    let digits = put(buffer, at, b"c");
    put_small(buffer, digits, number)
}

// Writes a number in decimal: at once if it has one digit or two.
#[inline(always)]
fn put_small(buffer: &mut [u8], at: usize, number: u8) -> usize
    requires { at + length (decimal number) ≤ length buffer.old }
    ensures { Writes at (decimal number) buffer.old buffer.new result }
{
    if number < 10 {
        put(buffer, at, &[b'0' + number])
    } else if number < 100 {
        put(buffer, at, &[b'0' + number / 10, b'0' + number % 10])
    } else {
        put_decimal(buffer, at, u64::from(number))
    }
}
