//! Lines of steps of version 2, one after another.

ghost use Rattle.std.specs.Prelude.{◌≡◌, ℕ, List, ◌∷◌, ◌++◌};
ghost use Rattle.cap_log.specs.{Heads.head_spelling};
ghost use Rattle.cap_run.specs.{StepLines.{MakesUsualSteps, TakesAlone, TakesStep}};
ghost use Rattle.cap_run.specs.Machines.{run_in};

use crate::ends::RunEnd;
use crate::run_machine::RunMachine;
use cap_log::{Head, Part};
use cap_machine::{
    ByKind, Derived, Instruction, MOST_BYTES, OfKind, ROOM_AFTER_HEAD, by_head, glance,
};
use tagmem::TaggedStore;

impl<M: TaggedStore> RunMachine<M> {
    /// Takes the lines of steps of version 2 at the front of some bytes, as long as a line of any length has room: what
    /// follows them. By the first that isn't taken nothing has changed.
    pub fn take_steps<'a>(&mut self, bytes: &'a [u8]) -> &'a [u8]
        ensures taken { (front : List ℕ) × (bytes.now ≡ front ++ result.now)
            × MakesUsualSteps self.old.asks (run_in self.old) front
            (run_in self.new) }
        ensures asks { self.new.asks ≡ self.old.asks }
    {
        if self.objects.count() != 0 {
            return self.take_owned_steps(bytes);
        }
        self.machine.kept();
        let (rest, _) = cap_judge::take_steps(&mut self.machine, bytes);
        rest
    }

    /// Takes bytes that are the line of a step of version 2, with its line feed, and no more: how that step ends, as
    /// [`RunMachine::make_usual`] says. `None`, and nothing has changed, where they are not.
    #[inline(always)]
    pub fn take_lone_step(&mut self, line: &[u8]) -> Option<Result<(), RunEnd>>
        ensures taken { TakesAlone self.old.asks (run_in self.old) line.now result
            self.new.asks (run_in self.new) }
    {
        let (head, operands) = Head::take(line, b' ')?;
        by_head::<RunMachine<M>, Alone>(self, head, operands)
    }

    // The same where objects were handed out.
    #[inline(never)]
    fn take_owned_steps<'a>(&mut self, bytes: &'a [u8]) -> &'a [u8]
        ensures taken { (front : List ℕ) × (bytes.now ≡ front ++ result.now)
            × MakesUsualSteps self.old.asks (run_in self.old) front
            (run_in self.new) }
        ensures asks { self.new.asks ≡ self.old.asks }
    {
        let mut rest = bytes;
        'steps: loop {
            match self.take_owned_step(rest) {
                Some(behind) => rest = behind,
                None => return rest,
            }
        }
    }

    // Takes a step at the front of some bytes, only where a line of any length has room: what follows its line feed, or
    // `None`, and nothing has changed.
    #[inline(always)]
    fn take_owned_step<'a>(&mut self, bytes: &'a [u8]) -> Option<&'a [u8]>
        ensures { TakesStep self.old.asks (run_in self.old) bytes.now result
            self.new.asks (run_in self.new) }
    {
        if bytes.len() < MOST_BYTES {
            return None;
        }
        let Some((head, operands)) = Head::take_usual(bytes, b' ') else {
            return None;
        };
        by_head::<RunMachine<M>, Owned>(self, head, operands)
    }

    // Takes a step of a usual kind from after its head.
    #[inline(always)]
    fn take_kind<'a, I: Instruction>(&mut self, operands: &'a [u8]) -> Option<&'a [u8]>
        ensures { TakesStep self.old.asks (run_in self.old)
            (head_spelling I.HEAD ++ 32 ∷ operands.now) result
            self.new.asks (run_in self.new) }
    {
        let Some(taken) = I::take(operands) else {
            return None;
        };
        match self.make_among(OfKind(taken.0)) {
            Ok(()) => Some(taken.1),
            Err(_) => None,
        }
    }

    // The same in a function of its own. Where a line of any length had room, the test of the bytes left never holds; the
    // compiler sees by it that no later one does.
    #[inline(never)]
    fn take_apart<'a, I: Instruction>(&mut self, operands: &'a [u8]) -> Option<&'a [u8]>
        ensures { TakesStep self.old.asks (run_in self.old)
            (head_spelling I.HEAD ++ 32 ∷ operands.now) result
            self.new.asks (run_in self.new) }
    {
        if operands.len() < ROOM_AFTER_HEAD {
            return None;
        }
        self.take_kind::<I>(operands)
    }

    // Takes a step from after its head, where its line records the word that the machine derives.
    #[inline(always)]
    fn take_derived<'a, D: Derived>(&mut self, operands: &'a [u8]) -> Option<&'a [u8]>
        ensures { TakesStep self.old.asks (run_in self.old)
            (head_spelling D.Operands.HEAD ++ 32 ∷ operands.now) result
            self.new.asks (run_in self.new) }
    {
        let Some((glanced, rest)) = glance::<M, D, 1>(&mut self.machine, operands) else {
            return None;
        };
        match self.make_among(glanced) {
            Ok(()) => Some(rest),
            Err(_) => None,
        }
    }
}

// A step at the front of some bytes, where objects were handed out.
pub(crate) struct Owned;

impl<'a, M: TaggedStore> ByKind<'a, RunMachine<M>> for Owned {
    type Answer = Option<&'a [u8]>;

    ghost does = { λ old bytes result new. TakesStep old.asks (run_in old) bytes result
        new.asks (run_in new) };

    #[inline(always)]
    fn with_kind<I: Instruction>(run: &mut RunMachine<M>, operands: &'a [u8]) -> Option<&'a [u8]> {
        run.take_kind::<I>(operands)
    }

    #[inline(always)]
    fn with_derived<D: Derived>(run: &mut RunMachine<M>, operands: &'a [u8]) -> Option<&'a [u8]> {
        run.take_derived::<D>(operands)
    }

    #[inline(always)]
    fn with_large<I: Instruction>(run: &mut RunMachine<M>, operands: &'a [u8]) -> Option<&'a [u8]> {
        run.take_apart::<I>(operands)
    }

    #[inline(always)]
    fn with_rare<I: Instruction>(run: &mut RunMachine<M>, operands: &'a [u8]) -> Option<&'a [u8]> {
        run.take_apart::<I>(operands)
    }

    #[inline(always)]
    fn with_none(_run: &mut RunMachine<M>) -> Option<&'a [u8]> {
        None
    }
}

// A step whose line is all that stands there. It is made as one of any kind: if it were made by its kind, the functions that
// make a step by its numbers would no longer be inlined, and take up to 50 instructions more.
pub(crate) struct Alone;

impl<'a, M: TaggedStore> ByKind<'a, RunMachine<M>> for Alone {
    type Answer = Option<Result<(), RunEnd>>;

    ghost does = { λ old bytes result new. TakesAlone old.asks (run_in old) bytes result
        new.asks (run_in new) };

    #[inline(always)]
    fn with_kind<I: Instruction>(
        run: &mut RunMachine<M>,
        operands: &'a [u8],
    ) -> Option<Result<(), RunEnd>> {
        let (step, rest) = I::take(operands)?;
        if !rest.is_empty() {
            return None;
        }
        Some(run.make_usual(&step.into_step()))
    }

    #[inline(always)]
    fn with_derived<D: Derived>(
        run: &mut RunMachine<M>,
        operands: &'a [u8],
    ) -> Option<Result<(), RunEnd>> {
        Self::with_kind::<D>(run, operands)
    }

    #[inline(always)]
    fn with_large<I: Instruction>(
        run: &mut RunMachine<M>,
        operands: &'a [u8],
    ) -> Option<Result<(), RunEnd>> {
        Self::with_kind::<I>(run, operands)
    }

    #[inline(always)]
    fn with_rare<I: Instruction>(
        run: &mut RunMachine<M>,
        operands: &'a [u8],
    ) -> Option<Result<(), RunEnd>> {
        Self::with_kind::<I>(run, operands)
    }

    #[inline(always)]
    fn with_none(_run: &mut RunMachine<M>) -> Option<Result<(), RunEnd>> {
        None
    }
}
