//! The kinds of steps that reach memory: what each takes and records.

#![tactic(auto, using(crate::proofs::Shapes::behind_each), unfolding(crate::specs::Lines::spelling))]

ghost use Rattle.cap_log.specs.Heads.{data_head, data_step};
ghost use Rattle.cap_log.specs.declared.kinds.Head.TheVariants as heads;
ghost use Rattle.cap_log.specs.declared.kinds.Step.TheVariants as steps;

use crate::kinds::shapes::{Data, LoadCap, StoreCap};
use crate::kinds::{Head, Step};
use crate::lines::Line;
use crate::operands::{Operands, take_parts, write_parts};
use crate::parts::offsets::Offset;
use crate::parts::registers::{Register, Target};
use crate::parts::sized::{Accessed, Datum};
use cap_word::Cap;

impl Operands for LoadCap {
    type Numbers = (u64, u64, i64, Cap);

    const HEAD: Head = Head::LoadCap;

    ghost HEAD = { heads.LoadCap };

    ghost step = { steps.LoadCap };

    ghost meant = { λ numbers. record { target = numbers.0; authority = numbers.1; offset = numbers.2; result = numbers.3 } };

    #[inline(always)]
    fn from_numbers((target, authority, offset, recorded): Self::Numbers) -> Option<Self> {
        Some(Self {
            target: Target::new(target)?,
            authority: Register::new(authority)?,
            offset: Offset::new(offset)?,
            result: recorded,
        })
    }

    #[inline(always)]
    fn take(bytes: &[u8]) -> Option<(Self, &[u8])> {
        taken!(Self::HEAD, bytes, (target, (authority, (offset, recorded))) =>
            Self { target, authority, offset, result: recorded })
    }

    #[inline(always)]
    fn write(&self, buffer: &mut [u8]) -> usize {
        let parts = (self.target, (self.authority, (self.offset, self.result)));
        write_parts(&Line::Step((*self).into_step()), Self::HEAD, parts, buffer)
    }

    #[inline(always)]
    fn into_step(self) -> Step {
        self.target.number();
        self.authority.number();
        self.offset.number();
        Step::LoadCap(self)
    }
}

impl Operands for StoreCap {
    type Numbers = (u64, u64, i64);

    const HEAD: Head = Head::StoreCap;

    ghost HEAD = { heads.StoreCap };

    ghost step = { steps.StoreCap };

    ghost meant = { λ numbers. record { source = numbers.0; authority = numbers.1; offset = numbers.2 } };

    #[inline(always)]
    fn from_numbers((source, authority, offset): Self::Numbers) -> Option<Self> {
        Some(Self {
            source: Register::new(source)?,
            authority: Register::new(authority)?,
            offset: Offset::new(offset)?,
        })
    }

    #[inline(always)]
    fn take(bytes: &[u8]) -> Option<(Self, &[u8])> {
        taken!(Self::HEAD, bytes, (source, (authority, offset)) => Self { source, authority, offset })
    }

    #[inline(always)]
    fn write(&self, buffer: &mut [u8]) -> usize {
        let parts = (self.source, (self.authority, self.offset));
        write_parts(&Line::Step((*self).into_step()), Self::HEAD, parts, buffer)
    }

    #[inline(always)]
    fn into_step(self) -> Step {
        self.source.number();
        self.authority.number();
        self.offset.number();
        Step::StoreCap(self)
    }
}

impl<const IS_LOAD: bool> Operands for Data<IS_LOAD> {
    type Numbers = (u64, i64, u64, u64);

    const HEAD: Head = if IS_LOAD { Head::Load } else { Head::Store };

    ghost HEAD = { data_head IS_LOAD };

    ghost step = { λ it. data_step IS_LOAD it.authority it.offset it.datum };

    ghost meant = { λ numbers. record { authority = numbers.0; offset = numbers.1; datum = record { size = numbers.2; value = numbers.3 } } };

    #[inline(always)]
    fn from_numbers((authority, offset, size, value): Self::Numbers) -> Option<Self> {
        Some(Self {
            authority: Register::new(authority)?,
            offset: Offset::new(offset)?,
            datum: Datum::new(size, value)?,
        })
    }

    #[inline(always)]
    fn take(bytes: &[u8]) -> Option<(Self, &[u8])> {
        let Some((parts, rest)) = take_parts(Self::HEAD, bytes) else {
            return None;
        };
        let (authority, (offset, accessed)): (Register, (Offset, Accessed<IS_LOAD>)) = parts;
        Some((Self::new(authority, offset, accessed.0), rest))
    }

    #[inline(always)]
    fn write(&self, buffer: &mut [u8]) -> usize {
        let accessed = Accessed::<IS_LOAD>(self.datum);
        let parts = (self.authority, (self.offset, accessed));
        write_parts(&Line::Step((*self).into_step()), Self::HEAD, parts, buffer)
    }

    #[inline(always)]
    fn into_step(self) -> Step {
        self.authority.number();
        self.offset.number();
        self.datum.size();
        if IS_LOAD {
            Step::Load(Data::new(self.authority, self.offset, self.datum))
        } else {
            Step::Store(Data::new(self.authority, self.offset, self.datum))
        }
    }
}
