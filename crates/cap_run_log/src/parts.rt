//! The parts of lines that only run logs have.

ghost use Rattle.std.specs.Prelude.{◌≡◌, ◌↔◌, [], ◌∷◌, decimal, true};
ghost use Rattle.cap_log.specs.Lines.{tag_spelling};
ghost use Rattle.cap_run_log.specs.RunLines.{IsGranule, IsHart, IsObjectNumber, IsRunPlace, granule_spelling, run_place_spelling};
ghost use Rattle.cap_run_log.specs.RunParts.{IsFreed, IsHanded, freed_spelling, handed_spelling};
ghost use Rattle.cap_run_log.specs.SpaceLaws.{equals-spaceless, granule-spaceless, place-spaceless, tag-spaceless};
ghost use Rattle.cap_run_log.specs.UsualLines.{in_run};

use crate::lines::RunPlace;
use crate::operands::{Special, write_register, write_special};
use cap_log::buffers::{put, put_decimal};
use cap_log::{Part, Place, Single, Target, strip_word, take_decimal};

/// A granule, by the address of its first byte.
#[derive(Clone, Copy)]
pub struct Granule(pub u64);

impl Part for Granule {
    ghost fits = { λ granule. IsGranule granule.0 };

    ghost spelled = { λ granule. granule_spelling granule.0 };

    fn take(bytes: &[u8], end: u8) -> Option<(Granule, &[u8])> {
        let Some((place, rest)) = Place::take(bytes, end) else {
            return None;
        };
        match place {
            Place::Granule(number) => Some((Granule(number), rest)),
            Place::Register(_) => None,
        }
    }

    #[inline(always)]
    fn write(&self, buffer: &mut [u8], at: usize) -> usize {
        let digits = put(buffer, at, b"@");
        (16 * self.0).write(buffer, digits)
    }
}

impl Single for Granule {
    ghost spaceless = { λ granule fits. granule-spaceless granule.0 };
}

impl Part for RunPlace {
    ghost fits = { IsRunPlace };

    ghost spelled = { run_place_spelling };

    fn take(bytes: &[u8], end: u8) -> Option<(RunPlace, &[u8])> {
        if let Some((place, rest)) = Place::take(bytes, end) {
            return Some((in_run(place), rest));
        }
        let Some((special, rest)) = Special::take(bytes, end) else {
            return None;
        };
        Some((RunPlace::Special(special.number()), rest))
    }

    #[inline(always)]
    fn write(&self, buffer: &mut [u8], at: usize) -> usize {
        match *self {
            RunPlace::General(number) => write_register(buffer, at, number),
            RunPlace::Special(number) => write_special(buffer, at, number),
            RunPlace::Granule(number) => Granule(number).write(buffer, at),
        }
    }
}

impl Single for RunPlace {
    ghost spaceless = { place-spaceless };
}

/// A part that is always the same byte.
#[derive(Clone, Copy)]
pub struct Same<const BYTE: u8>;

/// The sign before what a step records.
pub type Equals = Same<b'='>;

/// This sign.
pub const EQUALS: Equals = Same;

/// The version of a run log.
pub type One = Same<b'1'>;

/// This version.
pub const ONE: One = Same;

impl<const BYTE: u8> Part for Same<BYTE> {
    ghost fits = { λ same. Unit {0} };

    ghost spelled = { λ same. BYTE ∷ [] };

    #[inline(always)]
    fn take(bytes: &[u8], end: u8) -> Option<(Self, &[u8])> {
        let Some(rest) = strip_word(bytes, &[BYTE], end) else {
            return None;
        };
        Some((Same, rest))
    }

    #[inline(always)]
    fn write(&self, buffer: &mut [u8], at: usize) -> usize {
        put(buffer, at, &[BYTE])
    }
}

impl Single for Equals {
    ghost spaceless = { λ sign fits. equals-spaceless };
}

/// The tag of what a step records.
#[derive(Clone, Copy)]
pub struct Tag(pub bool);

impl Part for Tag {
    ghost fits = { λ tag. Unit {0} };

    ghost spelled = { λ tag. tag_spelling tag.0 };

    #[inline(always)]
    fn take(bytes: &[u8], end: u8) -> Option<(Tag, &[u8])> {
        let Some((front, rest)) = bytes.split_first_chunk::<2>() else {
            return None;
        };
        if are_two(front, &[b'1', end]) {
            return Some((Tag(true), rest));
        }
        if are_two(front, &[b'0', end]) {
            Some((Tag(false), rest))
        } else {
            None
        }
    }

    #[inline(always)]
    fn write(&self, buffer: &mut [u8], at: usize) -> usize {
        put(buffer, at, if self.0 { b"1" } else { b"0" })
    }
}

impl Single for Tag {
    ghost spaceless = { λ tag fits. tag-spaceless tag.0 };
}

/// The number of an object, from 1.
#[derive(Clone, Copy)]
pub struct ObjectNumber(pub u32);

impl Part for ObjectNumber {
    ghost fits = { λ number. IsObjectNumber number.0 };

    ghost spelled = { λ number. decimal number.0 };

    fn take(bytes: &[u8], end: u8) -> Option<(ObjectNumber, &[u8])> {
        let Some((number, rest)) = take_decimal::<10, 1, 0x1_0000_0000>(bytes, end) else {
            return None;
        };
        Some((ObjectNumber(number), rest))
    }

    #[inline(always)]
    fn write(&self, buffer: &mut [u8], at: usize) -> usize {
        put_decimal(buffer, at, u64::from(self.0))
    }
}

/// The number of a hart.
#[derive(Clone, Copy)]
pub struct HartNumber(pub u16);

impl Part for HartNumber {
    ghost fits = { λ hart. IsHart hart.0 };

    ghost spelled = { λ hart. decimal hart.0 };

    fn take(bytes: &[u8], end: u8) -> Option<(HartNumber, &[u8])> {
        let Some((number, rest)) = take_decimal::<5, 0, 0x1_0000>(bytes, end) else {
            return None;
        };
        Some((HartNumber(number as u16), rest))
    }

    #[inline(always)]
    fn write(&self, buffer: &mut [u8], at: usize) -> usize {
        put_decimal(buffer, at, u64::from(self.0))
    }
}

/// What follows `object`: a register, or a register and an object's number.
#[derive(Clone, Copy)]
pub enum Handed {
    /// A register.
    Alone(u8),
    /// A register and the number of an object.
    Numbered(u8, u32),
}

impl Part for Handed {
    ghost fits = { IsHanded };

    ghost spelled = { handed_spelling };

    fn take(bytes: &[u8], end: u8) -> Option<(Handed, &[u8])> {
        if let Some((target, rest)) = Target::take(bytes, end) {
            return Some((Handed::Alone(target.number()), rest));
        }
        let Some((pair, rest)) = <(Target, ObjectNumber)>::take(bytes, end) else {
            return None;
        };
        Some((Handed::Numbered(pair.0.number(), pair.1.0), rest))
    }

    #[inline(always)]
    fn write(&self, buffer: &mut [u8], at: usize) -> usize {
        match *self {
            Handed::Alone(register) => write_register(buffer, at, register),
            Handed::Numbered(register, number) => {
                let space = write_register(buffer, at, register);
                let digits = put(buffer, space, b" ");
                put_decimal(buffer, digits, u64::from(number))
            }
        }
    }
}

/// What follows `free`: a register, or an object's number.
#[derive(Clone, Copy)]
pub enum Freed {
    /// A register.
    Owner(u8),
    /// The number of an object.
    Number(u32),
}

impl Part for Freed {
    ghost fits = { IsFreed };

    ghost spelled = { freed_spelling };

    fn take(bytes: &[u8], end: u8) -> Option<(Freed, &[u8])> {
        if let Some((target, rest)) = Target::take(bytes, end) {
            return Some((Freed::Owner(target.number()), rest));
        }
        let Some((number, rest)) = ObjectNumber::take(bytes, end) else {
            return None;
        };
        Some((Freed::Number(number.0), rest))
    }

    #[inline(always)]
    fn write(&self, buffer: &mut [u8], at: usize) -> usize {
        match *self {
            Freed::Owner(register) => write_register(buffer, at, register),
            Freed::Number(number) => put_decimal(buffer, at, u64::from(number)),
        }
    }
}

// A place of a log, as one of a run log.
#[inline(always)]
fn in_run(place: Place) -> RunPlace
    ensures { result ≡ in_run place }
{
    match place {
        Place::Register(number) => RunPlace::General(number),
        Place::Granule(number) => RunPlace::Granule(number),
    }
}

/// Whether two bytes are these, compared as one number.
#[inline(always)]
pub(crate) fn are_two(bytes: &[u8; 2], text: &[u8; 2]) -> bool
    ensures same { (result ≡ true) ↔ (bytes.now ≡ text.now) }
{
    u16::from_le_bytes(*bytes) == u16::from_le_bytes(*text)
}
