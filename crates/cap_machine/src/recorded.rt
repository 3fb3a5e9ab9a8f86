//! Steps whose line records the word that the machine derives: that word is told by its text, and not read.

#![tactic(auto, unfolding(cap_log::specs::Lines::spelling))]

ghost use Rattle.std.specs.Prelude.{◌≡◌, ◌∷◌, ◌++◌, IfSome};
ghost use Rattle.cap_log.specs.{Heads.{head_spelling, numbered_step, plain_step}, Lines.{IsInRange, spelling}, Parts.{Begins, result_spelling}};
ghost use Rattle.cap_log.specs.declared.kinds.Step.TheVariants as steps;
ghost use Rattle.cap_log.specs.declared.lines.Line.TheVariants as lines;
ghost use Rattle.cap_machine.specs.{Changes.Gives, States.{State, untagged_null}, Steps.{Recorded.Written, Row, row_of}};

use crate::ends::StepEnd;
use crate::instructions::{Derivation, Making};
use crate::machine::Machine;
use cap_log::kinds::{LoadCap, Numbered, Plain};
use cap_log::{Offset, Part, Place, Register, Step, Target, strip_result};
use cap_word::{Cap, Word};
use tagmem::TaggedStore;

/// A kind of step whose line ends with a result that is quickly derived.
pub trait Derived: Derivation {
    /// What stands before the result.
    type Before: Part + Copy;

    // The row of the machine's table for the step that takes this, whatever it records.
    ghost row: { Self.Before → State → Row };

    /// The step that takes this and records this result.
    fn recording(before: Self::Before, recorded: Cap) -> Self
        ensures spelled { spelling (lines.Step (Self.step result))
            ≡ head_spelling Self.HEAD ++ 32 ∷ (Self.Before.spelled before ++ 32 ∷ result_spelling recorded) }
        ensures row { (state : State) → row_of state (Self.step result) ≡ record (row before state) { records = Written recorded } };
}

impl<const IS_CLEARING: bool> Derived for Plain<IS_CLEARING> {
    type Before = (Target, Register);

    ghost row = { λ before state. row_of state (plain_step IS_CLEARING before.0 before.1 untagged_null) };

    #[inline(always)]
    fn recording((target, source): Self::Before, recorded: Cap) -> Self {
        Plain::new(target, source, recorded)
    }
}

impl<const WHAT: u8> Derived for Numbered<WHAT> {
    type Before = (Target, (Register, u64));

    ghost row = { λ before state. row_of state (numbered_step WHAT before.0 before.1.0 before.1.1 untagged_null) };

    #[inline(always)]
    fn recording((target, (source, number)): Self::Before, recorded: Cap) -> Self {
        Numbered::new(target, source, number, recorded)
    }
}

impl Derived for LoadCap {
    type Before = (Target, (Register, Offset));

    ghost row = { λ before state. row_of state (steps.LoadCap (record {
      target = before.0;
      authority = before.1.0;
      offset = before.1.1;
      result = untagged_null;
    })) };

    #[inline(always)]
    fn recording((target, (authority, offset)): Self::Before, recorded: Cap) -> Self {
        LoadCap {
            target,
            authority,
            offset,
            result: recorded,
        }
    }
}

/// A step that records what it gives, with that at hand.
#[derive(Clone, Copy)]
pub struct Glanced<D: Derived> {
    /// The step.
    pub step: D,
    /// What [`Derivation::derive`] gives for it.
    pub given: Cap,
    /// The code of this if it comes from memory.
    pub code: u64,
}

impl<D: Derived> Making for Glanced<D> {
    ghost step = { λ glanced. D.Operands.step glanced.step };

    ghost ready = { λ held glanced. Gives held (D.Operands.step glanced.step) glanced.given glanced.code };

    #[inline(always)]
    fn to_step(&self) -> Step {
        self.step.into_step()
    }

    #[inline(always)]
    fn target<M: TaggedStore>(&self, machine: &Machine<M>) -> Option<Place> {
        self.step.written(machine)
    }

    #[inline(always)]
    fn make<M: TaggedStore>(self, machine: &mut Machine<M>) -> Result<(), StepEnd> {
        self.step.conclude(self.given, self.code, machine)
    }
}

/// Takes the operands after a head and its space with the line feed, as `take` does, where they record what the step
/// gives: the step with it, and what follows. `None` says nothing. Each loop over lines has a copy of its own, by a number: so it
/// stands in each.
#[inline(always)]
pub fn glance<'a, M: TaggedStore, D: Derived, const COPY: u8>(
    machine: &mut Machine<M>,
    operands: &'a [u8],
) -> Option<(Glanced<D>, &'a [u8])>
    ensures some { IfSome result (λ p. Begins IsInRange spelling 10 (head_spelling D.Operands.HEAD ++ 32 ∷ operands.now)
        (lines.Step (D.Operands.step p.0.step)) p.1.now) }
    ensures gives { IfSome result (λ p. Gives machine.old (D.Operands.step p.0.step) p.0.given p.0.code) }
    ensures same { machine.new ≡ machine.old }
{
    let (before, others) = D::Before::take(operands, b' ')?;
    let nothing = Cap {
        tag: false,
        word: Word(0),
    };
    let Ok((given, code)) = D::recording(before, nothing).derive(machine) else {
        return None;
    };
    let rest = strip_result(others, given)?;
    let step = D::recording(before, given);
    step.in_range();
    Some((Glanced { step, given, code }, rest))
}
