//! The kinds of steps on registers, by what they take: a source alone, a number with it, or an authority.

#![tactic(auto, unfolding(crate::specs::Lines::spelling))]

ghost use Rattle.cap_log.specs.Heads.{authorized_head, authorized_step, numbered_head, numbered_step, plain_head, plain_step};

use crate::kinds::shapes::{ADDRESS, Authorized, EXACT_LENGTH, LENGTH, Numbered, Plain};
use crate::kinds::{Head, Step};
use crate::lines::Line;
use crate::operands::{Operands, take_parts, write_parts};
use crate::parts::registers::{Register, Target};
use cap_word::Cap;

impl<const IS_CLEARING: bool> Operands for Plain<IS_CLEARING> {
    type Numbers = (u64, u64, Cap);

    const HEAD: Head = if IS_CLEARING {
        Head::ClearTag
    } else {
        Head::Move
    };

    ghost HEAD = { plain_head IS_CLEARING };

    ghost step = { λ it. plain_step IS_CLEARING it.target it.source it.result };

    ghost meant = { λ numbers. record { target = numbers.0; source = numbers.1; result = numbers.2 } };

    #[inline(always)]
    fn from_numbers((target, source, recorded): Self::Numbers) -> Option<Self> {
        let target = Target::new(target)?;
        Some(Self::new(target, Register::new(source)?, recorded))
    }

    #[inline(always)]
    fn take(bytes: &[u8]) -> Option<(Self, &[u8])> {
        taken!(Self::HEAD, bytes, (target, (source, recorded)) => Self::new(target, source, recorded))
    }

    #[inline(always)]
    fn write(&self, buffer: &mut [u8]) -> usize {
        let parts = (self.target, (self.source, self.result));
        write_parts(&Line::Step((*self).into_step()), Self::HEAD, parts, buffer)
    }

    #[inline(always)]
    fn into_step(self) -> Step {
        self.target.number();
        self.source.number();
        if IS_CLEARING {
            Step::ClearTag(Plain::new(self.target, self.source, self.result))
        } else {
            Step::Move(Plain::new(self.target, self.source, self.result))
        }
    }
}

impl<const WHAT: u8> Operands for Numbered<WHAT> {
    type Numbers = (u64, u64, u64, Cap);

    const HEAD: Head = match WHAT {
        LENGTH => Head::SetBounds,
        EXACT_LENGTH => Head::SetBoundsExact,
        ADDRESS => Head::SetAddr,
        _ => Head::AndPerm,
    };

    ghost HEAD = { numbered_head WHAT };

    ghost step = { λ it. numbered_step WHAT it.target it.source it.number it.result };

    ghost meant = { λ numbers. record { target = numbers.0; source = numbers.1; number = numbers.2; result = numbers.3 } };

    #[inline(always)]
    fn from_numbers((target, source, number, recorded): Self::Numbers) -> Option<Self> {
        let target = Target::new(target)?;
        Some(Self::new(target, Register::new(source)?, number, recorded))
    }

    #[inline(always)]
    fn take(bytes: &[u8]) -> Option<(Self, &[u8])> {
        taken!(Self::HEAD, bytes, (target, (source, (number, recorded))) => Self::new(target, source, number, recorded))
    }

    #[inline(always)]
    fn write(&self, buffer: &mut [u8]) -> usize {
        let parts = (self.target, (self.source, (self.number, self.result)));
        write_parts(&Line::Step((*self).into_step()), Self::HEAD, parts, buffer)
    }

    #[inline(always)]
    fn into_step(self) -> Step {
        self.target.number();
        self.source.number();
        let (target, source, number) = (self.target, self.source, self.number);
        match WHAT {
            LENGTH => Step::SetBounds(Numbered::new(target, source, number, self.result)),
            EXACT_LENGTH => Step::SetBoundsExact(Numbered::new(
                target,
                source,
                number,
                self.result,
            )),
            ADDRESS => Step::SetAddr(Numbered::new(target, source, number, self.result)),
            _ => Step::AndPerm(Numbered::new(target, source, number, self.result)),
        }
    }
}

impl<const IS_UNSEALING: bool> Operands for Authorized<IS_UNSEALING> {
    type Numbers = (u64, u64, u64, Cap);

    const HEAD: Head = if IS_UNSEALING {
        Head::Unseal
    } else {
        Head::Seal
    };

    ghost HEAD = { authorized_head IS_UNSEALING };

    ghost step = { λ it. authorized_step IS_UNSEALING it.target it.source it.authority it.result };

    ghost meant = { λ numbers. record { target = numbers.0; source = numbers.1; authority = numbers.2; result = numbers.3 } };

    #[inline(always)]
    fn from_numbers((target, source, authority, recorded): Self::Numbers) -> Option<Self> {
        let (target, source) = (Target::new(target)?, Register::new(source)?);
        Some(Self::new(target, source, Register::new(authority)?, recorded))
    }

    #[inline(always)]
    fn take(bytes: &[u8]) -> Option<(Self, &[u8])> {
        taken!(Self::HEAD, bytes, (target, (source, (authority, recorded))) => Self::new(target, source, authority, recorded))
    }

    #[inline(always)]
    fn write(&self, buffer: &mut [u8]) -> usize {
        let parts = (self.target, (self.source, (self.authority, self.result)));
        write_parts(&Line::Step((*self).into_step()), Self::HEAD, parts, buffer)
    }

    #[inline(always)]
    fn into_step(self) -> Step {
        self.target.number();
        self.source.number();
        self.authority.number();
        let (target, source, authority) = (self.target, self.source, self.authority);
        if IS_UNSEALING {
            Step::Unseal(Authorized::new(target, source, authority, self.result))
        } else {
            Step::Seal(Authorized::new(target, source, authority, self.result))
        }
    }
}
