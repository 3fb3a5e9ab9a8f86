//! Lines and steps that are handed to a judge of run logs one at a time.

ghost use Rattle.std.specs.Prelude.{◌≡◌, ◌≢◌, ◌↔◌, ◌⊎◌, ◌++◌, ◌∷◌, List, ℕ, [], Err, IfErr, IfSome, None, OnOk, true, false};
ghost use Rattle.cap_streams.specs.Front.{IsFront, IsLine, IsTooLong};
ghost use Rattle.cap_judge.specs.declared.verdict.TakeFault.TheVariants.{NoLine, NoMemory};
ghost use Rattle.cap_log.specs.Parts.{Begins};
ghost use Rattle.cap_run_log.specs.declared.lines.RunLine.{RunLine};
ghost use Rattle.cap_run_log.specs.declared.lines.RunLine.TheVariants as lines;
ghost use Rattle.cap_run_log.specs.RunLines.{IsRunLineInRange, IsRunStepInRange, run_spelling};
ghost use Rattle.cap_run_judge.specs.{Readings.{IsUnmade, stage_of}, Turns.run_turns};
ghost use Rattle.cap_turns.specs.{Readings.{Follows, IsNoLine}, Turns.{Body, IsAtFault}, Verdicts.Lacks};

use crate::judges::{Due, RunJudge};
use cap_judge::TakeFault;
use cap_machine::Instruction;
use cap_run::RunEnd;
use cap_run_log::{RunLine, RunStep, write_run_line};
use cap_streams::{Front, front};
use cap_turns::{Stop, is_whole};
use tagmem::TaggedStore;

impl<M: TaggedStore> RunJudge<M> {
    /// Takes the next line, with its line feed. Two kinds of bytes aren't taken, and change nothing: those that
    /// aren't one line with its line feed, unless more than 95 of them come before any, which is a line that is too
    /// long; and a line for which memory runs out. That line may be handed over again.
    pub fn take_line(&mut self, line: &[u8]) -> Result<(), TakeFault>
        ensures taken { OnOk result (Follows run_turns (stage_of self.old) line.now (stage_of self.new)) }
        ensures unchanged { IfErr result (λ _. stage_of self.new ≡ stage_of self.old) }
        ensures no_line { (result ≡ Err NoLine) ↔ IsNoLine line.now }

        // Memory is wanted only where this very line, which no check refuses, names a granule for the first time or hands
        // out an object.
        ensures no_memory { result ≡ Err NoMemory → Lacks run_turns (stage_of self.old) line.now [] }
    {
        if let Due::Body = self.due {
            return match self.machine.take_lone_step(line) {
                Some(Ok(())) => Ok(()),
                Some(Err(end)) => self.take_ended_step(end, line),
                None => self.take_lone_line(line),
            };
        }
        self.take_lone_line(line)
    }

    // Takes bytes of any kind as one line.
    #[inline(never)]
    fn take_lone_line(&mut self, line: &[u8]) -> Result<(), TakeFault>
        ensures taken { OnOk result (Follows run_turns (stage_of self.old) line.now (stage_of self.new)) }
        ensures unchanged { IfErr result (λ _. stage_of self.new ≡ stage_of self.old) }
        ensures no_line { (result ≡ Err NoLine) ↔ IsNoLine line.now }
        ensures no_memory { result ≡ Err NoMemory → Lacks run_turns (stage_of self.old) line.now [] }
    {
        if !is_whole(front(line), line) {
            return Err(TakeFault::NoLine);
        }
        match self.take_any_line(line) {
            Ok(_) => Ok(()),
            Err(Stop::Fault) => Ok(()),
            Err(Stop::NoMemory) => Err(TakeFault::NoMemory),
            Err(Stop::Cut) => Err(TakeFault::NoLine),
        }
    }

    /// Makes a step of version 2 by its numbers, if a step may come next. If it isn't made, nothing has changed:
    /// [`RunJudge::take_unmade`] takes its line, with the reason at which it ended, if it was tried.
    #[inline(always)]
    pub fn make_step<I: Instruction>(&mut self, step: I) -> Result<(), Option<RunEnd>>
        ensures taken { OnOk result (Follows run_turns (stage_of self.old) (run_spelling (lines.Step (I.step step)) ++ 10 ∷ [])
            (stage_of self.new)) }
        ensures goes_on { OnOk result (IsAtFault (stage_of self.new).due → ⊥) }
        ensures same { IfErr result (λ _. stage_of self.new ≡ stage_of self.old) }
        ensures unmade { IfErr result (λ end. IfSome end (IsUnmade (stage_of self.old) (lines.Step (I.step step)))) }
        ensures untried { result ≡ Err None → (stage_of self.old).due ≢ Body }
    {
        if let Due::Body = self.due {
            return match self.machine.make_instruction(step) {
                Ok(()) => Ok(()),
                Err(end) => Err(Some(end)),
            };
        }
        Err(None)
    }

    /// Makes a step that only runs have, as [`RunJudge::make_step`] does.
    pub fn make_run_step(&mut self, step: &RunStep) -> Result<(), Option<RunEnd>>
        requires { IsRunStepInRange step.now }
        ensures taken { OnOk result (Follows run_turns (stage_of self.old) (run_spelling (lines.Run step.now) ++ 10 ∷ []) (stage_of self.new)) }
        ensures goes_on { OnOk result (IsAtFault (stage_of self.new).due → ⊥) }
        ensures same { IfErr result (λ _. stage_of self.new ≡ stage_of self.old) }
        ensures unmade { IfErr result (λ end. IfSome end (IsUnmade (stage_of self.old) (lines.Run step.now))) }
        ensures untried { result ≡ Err None → (stage_of self.old).due ≢ Body }
    {
        if let Due::Body = self.due {
            return match self.machine.make(step) {
                Ok(()) => Ok(()),
                Err(end) => Err(Some(end)),
            };
        }
        Err(None)
    }

    /// Takes the line of a step that wasn't made, as [`RunJudge::take_line`] takes its text. The text is written; a step that
    /// ended isn't tried again.
    #[cold]
    #[inline(never)]
    pub fn take_unmade(&mut self, line: &RunLine, end: Option<RunEnd>) -> Result<(), TakeFault>
        requires range { IsRunLineInRange line.now }
        requires ends { IfSome end (IsUnmade (stage_of self.old) line.now) }
        ensures taken { OnOk result (Follows run_turns (stage_of self.old) (run_spelling line.now ++ 10 ∷ []) (stage_of self.new)) }
        ensures unchanged { IfErr result (λ _. stage_of self.new ≡ stage_of self.old) }
        ensures line { result ≢ Err NoLine }
        ensures no_memory { result ≡ Err NoMemory → Lacks run_turns (stage_of self.old) (run_spelling line.now ++ 10 ∷ []) [] }
    {
        let mut buffer = [0; 96];
        let length = write_run_line(line, &mut buffer);
        let text = &buffer[..length];
        match end {
            Some(end) => self.take_ended_step(end, text),
            None => self.take_line(text),
        }
    }

    // Ends a line at a step that was not made.
    #[inline(never)]
    fn take_ended_step(&mut self, end: RunEnd, text: &[u8]) -> Result<(), TakeFault>
        requires ends { (line : RunLine) × Begins IsRunLineInRange run_spelling 10 text.now line []
            × IsUnmade (stage_of self.old) line end }
        ensures taken { OnOk result (Follows run_turns (stage_of self.old) text.now (stage_of self.new)) }
        ensures unchanged { IfErr result (λ _. stage_of self.new ≡ stage_of self.old) }
        ensures line { result ≢ Err NoLine }
        ensures no_memory { result ≡ Err NoMemory → Lacks run_turns (stage_of self.old) text.now [] }
    {
        match self.stop(end, front(text), text) {
            Stop::NoMemory => Err(TakeFault::NoMemory),
            Stop::Fault | Stop::Cut => Ok(()),
        }
    }
}
