//! Taking the steps at the front of some bytes, each by the type of its kind.

ghost use Rattle.std.specs.Prelude.{◌≡◌, ℕ, List, ◌∷◌, ◌++◌, IfSome};
ghost use Rattle.cap_log.specs.{Heads.head_spelling, Lines.{IsInRange, spelling}, Parts.Begins};
ghost use Rattle.cap_log.specs.declared.lines.Line.TheVariants as lines;
ghost use Rattle.cap_machine.specs.Helds.{AnswersStep};
ghost use Rattle.cap_judge.specs.declared.judges.Due.TheVariants.{Body};
ghost use Rattle.cap_judge.specs.Readings.{EndsBytes, IsFullAt, MakesSteps, TakesAll, TakesOne, at};

use cap_log::{Head, Part};
use cap_machine::{
    ByKind, Derived, Instruction, MOST_BYTES, Machine, Making, ROOM_AFTER_HEAD, StepEnd, by_head,
    glance,
};
use tagmem::TaggedStore;

/// Takes the steps at the front of some bytes, as long as a line of any length has room: what follows them,
/// and how the step ends there that was not made. By that one nothing has changed.
pub fn take_steps<'a, M: TaggedStore>(
    machine: &mut Machine<M>,
    bytes: &'a [u8],
) -> (&'a [u8], Option<StepEnd>)
    ensures taken { (front : List ℕ) × (bytes.now ≡ front ++ result.0.now)
        × MakesSteps machine.old front machine.new }
    ensures end { IfSome result.1 (EndsBytes (at Body machine.new) result.0.now) }
    ensures full { IfSome result.1 (λ end. IsFullAt end machine.new) }
{
    let mut rest = bytes;
    'steps: loop {
        let (before, end) = take_usual(machine, rest);
        rest = before;
        if let Some(end) = end {
            return (rest, Some(end));
        }
        match take_rare(machine, rest) {
            Ok(Some(behind)) => rest = behind,
            Ok(None) => return (rest, None),
            Err(end) => return (rest, Some(end)),
        }
    }
}

// Takes the steps at the front of some bytes up to one of a rare kind.
#[inline(never)]
fn take_usual<'a, M: TaggedStore>(
    machine: &mut Machine<M>,
    bytes: &'a [u8],
) -> (&'a [u8], Option<StepEnd>)
    ensures taken { (front : List ℕ) × (bytes.now ≡ front ++ result.0.now)
        × MakesSteps machine.old front machine.new }
    ensures end { IfSome result.1 (EndsBytes (at Body machine.new) result.0.now) }
    ensures full { IfSome result.1 (λ end. IsFullAt end machine.new) }
{
    let mut rest = bytes;
    'steps: loop {
        match take_step(machine, rest) {
            Ok(Some(behind)) => rest = behind,
            Ok(None) => return (rest, None),
            Err(end) => return (rest, Some(end)),
        }
    }
}

// A step at the front of some bytes, of a kind that isn't rare.
struct Usual;

impl<'a, M: TaggedStore> ByKind<'a, Machine<M>> for Usual {
    type Answer = Result<Option<&'a [u8]>, StepEnd>;

    ghost does = { λ old bytes result new. TakesOne old bytes result new };

    #[inline(always)]
    fn with_kind<I: Instruction>(
        machine: &mut Machine<M>,
        operands: &'a [u8],
    ) -> Result<Option<&'a [u8]>, StepEnd> {
        take_kind::<M, I, false>(machine, operands)
    }

    #[inline(always)]
    fn with_derived<D: Derived>(
        machine: &mut Machine<M>,
        operands: &'a [u8],
    ) -> Result<Option<&'a [u8]>, StepEnd> {
        if operands.len() < ROOM_AFTER_HEAD {
            return Ok(None);
        }
        let Some((glanced, rest)) = glance::<M, D, 0>(machine, operands) else {
            return Ok(None);
        };
        match glanced.make(machine) {
            Ok(()) => Ok(Some(rest)),
            Err(end) => Err(end),
        }
    }

    #[inline(always)]
    fn with_large<I: Instruction>(
        machine: &mut Machine<M>,
        operands: &'a [u8],
    ) -> Result<Option<&'a [u8]>, StepEnd> {
        take_kind::<M, I, true>(machine, operands)
    }

    #[inline(always)]
    fn with_rare<I: Instruction>(
        _machine: &mut Machine<M>,
        _operands: &'a [u8],
    ) -> Result<Option<&'a [u8]>, StepEnd> {
        Ok(None)
    }

    #[inline(always)]
    fn with_none(_machine: &mut Machine<M>) -> Result<Option<&'a [u8]>, StepEnd> {
        Ok(None)
    }
}

// A step at the front of some bytes, of a rare kind.
struct Rare;

impl<'a, M: TaggedStore> ByKind<'a, Machine<M>> for Rare {
    type Answer = Result<Option<&'a [u8]>, StepEnd>;

    ghost does = { λ old bytes result new. TakesOne old bytes result new };

    #[inline(always)]
    fn with_kind<I: Instruction>(
        _machine: &mut Machine<M>,
        _operands: &'a [u8],
    ) -> Result<Option<&'a [u8]>, StepEnd> {
        Ok(None)
    }

    #[inline(always)]
    fn with_derived<D: Derived>(
        _machine: &mut Machine<M>,
        _operands: &'a [u8],
    ) -> Result<Option<&'a [u8]>, StepEnd> {
        Ok(None)
    }

    #[inline(always)]
    fn with_large<I: Instruction>(
        _machine: &mut Machine<M>,
        _operands: &'a [u8],
    ) -> Result<Option<&'a [u8]>, StepEnd> {
        Ok(None)
    }

    #[inline(always)]
    fn with_rare<I: Instruction>(
        machine: &mut Machine<M>,
        operands: &'a [u8],
    ) -> Result<Option<&'a [u8]>, StepEnd> {
        take_kind::<M, I, true>(machine, operands)
    }

    #[inline(always)]
    fn with_none(_machine: &mut Machine<M>) -> Result<Option<&'a [u8]>, StepEnd> {
        Ok(None)
    }
}

// Takes a step from after its head. Where a line of any length had room, so many bytes are left that the test of
// them never holds; the compiler sees by it that no later one does. It is inlined: by a call a move takes 27
// instructions more.
#[inline(always)]
fn take_kind<'a, M: TaggedStore, I: Instruction, const APART: bool>(
    machine: &mut Machine<M>,
    operands: &'a [u8],
) -> Result<Option<&'a [u8]>, StepEnd>
    ensures { TakesOne machine.old (head_spelling I.HEAD ++ 32 ∷ operands.now) result machine.new }
{
    if operands.len() < ROOM_AFTER_HEAD {
        return Ok(None);
    }
    let Some((step, rest)) = I::take(operands) else {
        return Ok(None);
    };
    match perform_by::<M, I, APART>(machine, step) {
        Ok(()) => Ok(Some(rest)),
        Err(end) => Err(end),
    }
}

// Takes the step at the front of some bytes, only where a line of any length has room: what follows its line feed, or
// `None`, and nothing has changed. Each kind of step is read and made by its own type: so no step goes through
// memory. Nothing else tests how many bytes are left. The kinds that are rare are left out of the loop over the
// others, and large ones are made in a function of their own: so that loop is small enough for the compiler to make
// one function of it.
#[inline(always)]
fn take_step<'a, M: TaggedStore>(
    machine: &mut Machine<M>,
    bytes: &'a [u8],
) -> Result<Option<&'a [u8]>, StepEnd>
    ensures { TakesOne machine.old bytes.now result machine.new }
{
    if bytes.len() < MOST_BYTES {
        return Ok(None);
    }
    let Some((head, operands)) = Head::take_usual(bytes, b' ') else {
        return Ok(None);
    };
    by_head::<Machine<M>, Usual>(machine, head, operands)
}

// Takes a step of a rare kind, as `take_step` does one of the others.
#[inline(always)]
fn take_rare<'a, M: TaggedStore>(
    machine: &mut Machine<M>,
    bytes: &'a [u8],
) -> Result<Option<&'a [u8]>, StepEnd>
    ensures { TakesOne machine.old bytes.now result machine.new }
{
    if bytes.len() < MOST_BYTES {
        return Ok(None);
    }
    let Some((head, operands)) = Head::take(bytes, b' ') else {
        return Ok(None);
    };
    by_head::<Machine<M>, Rare>(machine, head, operands)
}

// A step whose line is all that stands there. By the answer of `Usual`, which has bytes, most lines take 9
// instructions more.
struct Alone;

impl<'a, M: TaggedStore> ByKind<'a, Machine<M>> for Alone {
    type Answer = Option<Result<(), StepEnd>>;

    ghost does = { λ old bytes result new. TakesAll old bytes result new };

    #[inline(always)]
    fn with_kind<I: Instruction>(
        machine: &mut Machine<M>,
        operands: &'a [u8],
    ) -> Option<Result<(), StepEnd>> {
        take_alone::<M, I, false>(machine, operands)
    }

    #[inline(always)]
    fn with_derived<D: Derived>(
        machine: &mut Machine<M>,
        operands: &'a [u8],
    ) -> Option<Result<(), StepEnd>> {
        take_alone::<M, D, false>(machine, operands)
    }

    #[inline(always)]
    fn with_large<I: Instruction>(
        machine: &mut Machine<M>,
        operands: &'a [u8],
    ) -> Option<Result<(), StepEnd>> {
        take_alone::<M, I, true>(machine, operands)
    }

    #[inline(always)]
    fn with_rare<I: Instruction>(
        machine: &mut Machine<M>,
        operands: &'a [u8],
    ) -> Option<Result<(), StepEnd>> {
        take_alone::<M, I, true>(machine, operands)
    }

    #[inline(always)]
    fn with_none(_machine: &mut Machine<M>) -> Option<Result<(), StepEnd>> {
        None
    }
}

// Takes a step from after its head, where its line is all that stands there.
#[inline(always)]
fn take_alone<'a, M: TaggedStore, I: Instruction, const APART: bool>(
    machine: &mut Machine<M>,
    operands: &'a [u8],
) -> Option<Result<(), StepEnd>>
    ensures { TakesAll machine.old (head_spelling I.HEAD ++ 32 ∷ operands.now) result machine.new }
{
    let (instruction, rest) = I::take(operands)?;
    if !rest.is_empty() {
        return None;
    }
    Some(perform_by::<M, I, APART>(machine, instruction))
}

/// Takes bytes that are the line of a step, with its line feed, and no more; `None`, and nothing has changed,
/// where they are not.
#[inline(always)]
pub(crate) fn take_lone_step<M: TaggedStore>(
    machine: &mut Machine<M>,
    line: &[u8],
) -> Option<Result<(), StepEnd>>
    ensures { TakesAll machine.old line.now result machine.new }
{
    let (head, operands) = Head::take(line, b' ')?;
    by_head::<Machine<M>, Alone>(machine, head, operands)
}

// Makes a step there, or apart: large ones in a function of their own.
#[inline(always)]
fn perform_by<M: TaggedStore, I: Instruction, const APART: bool>(
    machine: &mut Machine<M>,
    step: I,
) -> Result<(), StepEnd>
    ensures { AnswersStep machine.old (I.step step) result machine.new }
{
    if APART {
        perform_apart(machine, step)
    } else {
        step.perform(machine)
    }
}

// Makes a step in a function of its own.
#[inline(never)]
fn perform_apart<M: TaggedStore, I: Instruction>(
    machine: &mut Machine<M>,
    step: I,
) -> Result<(), StepEnd>
    ensures { AnswersStep machine.old (I.step step) result machine.new }
{
    step.perform(machine)
}
