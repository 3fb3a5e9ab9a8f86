//! The judge of a run log: it is handed the log's bytes, cut anywhere, and reads the whole lines that stand there.

ghost use Rattle.std.specs.Prelude.{◌≡◌, ◌≢◌, ◌≤◌, ◌+◌, ℕ, List, [], ◌++◌, Err, IfErr, IfNone, IfOk, IfSome, Some, length, take, drop};
ghost use Rattle.std.specs.FinMap as map;
ghost use Rattle.cap_log.specs.Parts.{Begins};
ghost use Rattle.cap_streams.specs.{FaultLines.bytes_of, Front.{IsCut, IsFront, IsFrontText}};
ghost use Rattle.cap_turns.specs.declared.stops.Stop.TheVariants as stops;
ghost use Rattle.cap_run_log.specs.declared.heads.RunHead.TheVariants as heads;
ghost use Rattle.cap_run_log.specs.{declared.lines.RunLine.RunLine, RunLines.{IsRunLineInRange, run_spelling}};
ghost use Rattle.cap_run_judge.specs.declared.faults.RefusedRunLine.{RefusedRunLine as FaultIn};
ghost use Rattle.cap_run_judge.specs.declared.judges.Due.TheVariants.{Body, Refused as RefusedIn};
ghost use Rattle.cap_run_judge.specs.{Readings.{AnswersLine, AnswerAtEnd, EndsBytes, IsFaultOf, stage_of}, Turns.{unread, run_turns}};
ghost use Rattle.cap_run.specs.{declared.ends.RunRefusal.TheVariants.Usual, RunChanges.rules_of};
ghost use Rattle.cap_turns.specs.{Turns.{Goes, IsAtFault, lines_read, refusal_at}, Readings.{StopsAt, Takes}, Verdicts.long_refusal};

use crate::faults::RefusedRunLine;
use crate::verdict::RunVerdict;
use cap_log::{Line, Mode, read_line};
use cap_machine::{MOST_BYTES, Refusal, Rules};
use cap_run::{Asks, RunEnd, RunMachine, RunRefusal};
use cap_run_log::{RunHead, RunLine, take_derive, take_exchange, take_run_line, take_step};
use cap_streams::judging::FaultLine;
use cap_streams::{Front, front};
use cap_turns::{Stop, Taken};
use std::alloc::Global;
use tagmem::TaggedStore;

/// What the next line of a run log has to be.
#[derive(Drop)]
pub enum Due {
    /// The version line.
    First,
    /// The mode line.
    Second,
    /// A root, a hart line, a step or the end line.
    Body,
    /// None: the end line has come.
    Ended,
    /// None: this line is faulty.
    Refused(RefusedRunLine),
}

/// A judge that has read a beginning of a run log: the machine that its lines lead to, and what the next line has to
/// be. After a fault the machine holds what it held before that line.
#[derive(Drop)]
pub struct RunJudge<M: TaggedStore> {
    pub(crate) machine: RunMachine<M>,
    pub(crate) due: Due,
}

impl<M: TaggedStore> RunJudge<M> {
    /// Nothing was read yet. The store has to be empty.
    pub fn new(alloc: Global, memory: M, asks: Asks) -> RunJudge<M>
        requires { map.len (M.contents memory) ≡ 0 }
        ensures read { stage_of result ≡ unread asks }
    {
        RunJudge {
            machine: RunMachine::new(alloc, memory, asks),
            due: Due::First,
        }
    }

    /// Takes the complete lines at the front of some bytes that follow those taken before. Stops at less than a
    /// line, at the first faulty line, or if memory runs out. What wasn't taken may be handed over again, with more
    /// after it. The count excludes the faulty line and all after it: its no holds whatever follows, and from then on
    /// the count is 0.
    pub fn take(&mut self, bytes: &[u8]) -> Taken
        ensures count { result.count ≤ length bytes.now }
        ensures stops { StopsAt run_turns (stage_of self.old) (take result.count bytes.now) (drop result.count bytes.now)
            result.stop (stage_of self.new) }
    {
        let mut rest = bytes;
        'lines: loop {
            let before = self.take_front_steps(rest);
            match self.take_any_line(before) {
                Ok(behind) => rest = behind,
                Err(stop) => {
                    let count = bytes.len() - before.len();
                    return Taken { count, stop };
                }
            }
        }
    }

    /// The verdict if no other bytes follow than these, which are less than a line: a `yes`, or the faulty line.
    pub fn ending(&self, rest: &[u8]) -> Result<RunVerdict, RefusedRunLine>
        ensures ends { IsCut rest.now → AnswerAtEnd (stage_of self.now) rest.now result }
        ensures fault { (fault : FaultIn) → self.now.due ≡ RefusedIn fault → result ≡ Err fault }
    {
        match &self.due {
            Due::Refused(fault) => Err(*fault),
            Due::Ended => {
                if rest.is_empty() {
                    Ok(RunVerdict::Yes {
                        steps: self.machine.steps(),
                        roots: self.machine.roots(),
                        objects: self.machine.count(),
                    })
                } else {
                    Err(self.fault(usual(Refusal::Misplaced), front(rest), rest))
                }
            }
            _ => Err(self.fault(usual(Refusal::Truncated), front(rest), rest)),
        }
    }

    /// The machine, as the lines so far left it, or those before the faulty line.
    pub fn machine(&self) -> &RunMachine<M>
        ensures held { result.now ≡ self.now.machine }
    {
        &self.machine
    }

    /// The faulty line, where one is: its `no` stays whatever lines follow.
    pub fn refused(&self) -> Option<RefusedRunLine>
        ensures fault { IsFaultOf (stage_of self.now).due result }
    {
        match &self.due {
            Due::Refused(fault) => Some(*fault),
            _ => None,
        }
    }

    // Takes the lines of derivations, exchanges and steps of version 2 at the front of some bytes, where they may come next: what
    // follows them.
    #[inline(always)]
    fn take_front_steps<'a>(&mut self, bytes: &'a [u8]) -> &'a [u8]
        ensures { (front : List ℕ) × (bytes.now ≡ front ++ result.now)
            × Goes run_turns (stage_of self.old) front (stage_of self.new) }
    {
        if let Due::Body = self.due {
            return self.take_steps(bytes);
        }
        bytes
    }

    // Takes such lines, as long as a line of any length has room: what follows them.
    #[inline(always)]
    fn take_steps<'a>(&mut self, bytes: &'a [u8]) -> &'a [u8]
        requires { self.old.due ≡ Body }
        ensures taken { (front : List ℕ) × (bytes.now ≡ front ++ result.now) × Goes run_turns (stage_of self.old) front (stage_of self.new) }
    {
        let mut rest = bytes;
        'lines: loop {
            let before = self.take_derivations(rest);
            let behind = self.machine.take_steps(before);
            if behind.len() != before.len() {
                rest = behind;
                continue 'lines;
            }
            match self.take_object_step(behind) {
                Some(next) => rest = next,
                None => return behind,
            }
        }
    }

    // Takes the lines of derivations and exchanges at the front of some bytes, as long as a line of any length has room: what
    // follows them.
    fn take_derivations<'a>(&mut self, bytes: &'a [u8]) -> &'a [u8]
        requires { self.old.due ≡ Body }
        ensures taken { (front : List ℕ) × (bytes.now ≡ front ++ result.now) × Goes run_turns (stage_of self.old) front (stage_of self.new) }
        ensures body { self.new.due ≡ Body }
    {
        let mut rest = bytes;
        'lines: loop {
            let front = self.take_exchange(rest);
            match front {
                Some(behind) => rest = behind,
                None => match self.take_derive(rest) {
                    Some(behind) => rest = behind,
                    None => return rest,
                },
            }
        }
    }

    // Takes the line of an exchange at the front of some bytes, only where a line of any length has room: what follows it, or
    // `None`, and nothing has changed.
    #[inline(always)]
    fn take_exchange<'a>(&mut self, bytes: &'a [u8]) -> Option<&'a [u8]>
        requires { self.old.due ≡ Body }
        ensures some { IfSome result (λ rest. (line : RunLine) × Begins IsRunLineInRange run_spelling 10 bytes.now line rest.now
            × Takes run_turns (stage_of self.old) line (stage_of self.new)) }
        ensures none { IfNone result (stage_of self.new ≡ stage_of self.old) }
        ensures body { self.new.due ≡ Body }
    {
        if bytes.len() < MOST_BYTES {
            return None;
        }
        let Some((exchange, rest)) = take_exchange(bytes) else {
            return None;
        };
        match self.machine.exchange(exchange) {
            Ok(()) => Some(rest),
            Err(_) => None,
        }
    }

    // The same of the line of a derivation.
    #[inline(always)]
    fn take_derive<'a>(&mut self, bytes: &'a [u8]) -> Option<&'a [u8]>
        requires { self.old.due ≡ Body }
        ensures some { IfSome result (λ rest. (line : RunLine) × Begins IsRunLineInRange run_spelling 10 bytes.now line rest.now
            × Takes run_turns (stage_of self.old) line (stage_of self.new)) }
        ensures none { IfNone result (stage_of self.new ≡ stage_of self.old) }
        ensures body { self.new.due ≡ Body }
    {
        if bytes.len() < MOST_BYTES {
            return None;
        }
        let Some((derive, rest)) = take_derive(bytes) else {
            return None;
        };
        match self.machine.derive(derive) {
            Ok(()) => Some(rest),
            Err(_) => None,
        }
    }

    // Takes the line of `object`, `free` or `drop` at the front of some bytes: what follows it, or `None`, and nothing has
    // changed.
    #[inline(never)]
    fn take_object_step<'a>(&mut self, bytes: &'a [u8]) -> Option<&'a [u8]>
        requires { self.old.due ≡ Body }
        ensures some { IfSome result (λ rest. (line : RunLine) × Begins IsRunLineInRange run_spelling 10 bytes.now line rest.now
            × Takes run_turns (stage_of self.old) line (stage_of self.new)) }
        ensures none { IfNone result (stage_of self.new ≡ stage_of self.old) }
        ensures body { self.new.due ≡ Body }
    {
        if let Some(rest) = self.take_step(RunHead::Object, bytes) {
            return Some(rest);
        }
        if let Some(rest) = self.take_step(RunHead::Free, bytes) {
            return Some(rest);
        }
        self.take_step(RunHead::Drop, bytes)
    }

    // The same of a step with a head. The compiler makes a function of it for each head that it is called with.
    #[inline(always)]
    fn take_step<'a>(&mut self, head: RunHead, bytes: &'a [u8]) -> Option<&'a [u8]>
        requires body { self.old.due ≡ Body }
        requires head { (head ≢ heads.Version) × (head ≢ heads.Root) × (head ≢ heads.Hart) }
        ensures some { IfSome result (λ rest. (line : RunLine) × Begins IsRunLineInRange run_spelling 10 bytes.now line rest.now
            × Takes run_turns (stage_of self.old) line (stage_of self.new)) }
        ensures none { IfNone result (stage_of self.new ≡ stage_of self.old) }
        ensures body { self.new.due ≡ Body }
    {
        let Some((step, rest)) = take_step(head, bytes) else {
            return None;
        };
        match self.machine.make(&step) {
            Ok(()) => Some(rest),
            Err(_) => None,
        }
    }

    // Takes the line at the front of some bytes: what follows it.
    pub(crate) fn take_any_line<'a>(&mut self, bytes: &'a [u8]) -> Result<&'a [u8], Stop>
        ensures ok { IfOk result (λ rest. (line : RunLine) × Begins IsRunLineInRange run_spelling 10 bytes.now line rest.now
            × Takes run_turns (stage_of self.old) line (stage_of self.new)) }
        ensures err { IfErr result (λ stop. StopsAt run_turns (stage_of self.old) [] bytes.now stop (stage_of self.new)) }
    {
        if let Due::Refused(_) = self.due {
            return Err(Stop::Fault);
        }
        match take_run_line(bytes) {
            Some((line, rest)) => match self.follow(&line) {
                Ok(()) => Ok(rest),
                Err(end) => Err(self.stop(end, front(bytes), bytes)),
            },
            None => Err(self.stop_at_other(bytes)),
        }
    }

    // Stops where no line of run logs stands.
    #[cold]
    #[inline(never)]
    fn stop_at_other(&mut self, bytes: &[u8]) -> Stop
        requires clear { IsAtFault (stage_of self.old).due → ⊥ }
        requires none { (line : RunLine) (rest : List ℕ) → Begins IsRunLineInRange run_spelling 10 bytes.now line rest → ⊥ }
        ensures stops { StopsAt run_turns (stage_of self.old) [] bytes.now result (stage_of self.new) }
    {
        let found = front(bytes);
        let refusal = match found {
            Front::Cut => return Stop::Cut,
            Front::TooLong => self.refusal_of_long(),
            Front::Line(_) => self.refusal_of_formless(),
        };
        self.stop(RunEnd::Refused(refusal), found, bytes)
    }

    // Stops at a line that is not taken.
    #[cold]
    #[inline(never)]
    pub(crate) fn stop(&mut self, end: RunEnd, found: Front, bytes: &[u8]) -> Stop
        requires found { IsFront bytes.now found }
        requires clear { IsAtFault (stage_of self.old).due → ⊥ }
        requires ends { EndsBytes (stage_of self.old) bytes.now end }
        ensures stops { StopsAt run_turns (stage_of self.old) [] bytes.now result (stage_of self.new) }
    {
        match end {
            RunEnd::NoMemory => Stop::NoMemory,
            RunEnd::Refused(refusal) => {
                self.due = Due::Refused(self.fault(refusal, found, bytes));
                Stop::Fault
            }
        }
    }

    // The next line, which these bytes begin with, as the faulty line.
    fn fault(&self, refusal: RunRefusal, found: Front, bytes: &[u8]) -> RefusedRunLine
        requires found { IsFront bytes.now found }
        ensures line { result.line ≡ lines_read run_turns (stage_of self.now) + 1 }
        ensures refusal { result.refusal ≡ refusal }
        ensures front { IsFrontText bytes.now (bytes_of result.text) }
    {
        RefusedRunLine {
            line: self.next_line(),
            refusal,
            text: FaultLine::of_front(found, bytes),
        }
    }

    // The number of the next line.
    fn next_line(&self) -> u64
        ensures value { result ≡ lines_read run_turns (stage_of self.now) + 1 }
        ensures few { result ≤ 12884901900 }
    {
        let body = u64::from(self.machine.roots())
            + u64::from(self.machine.steps())
            + u64::from(self.machine.hart_lines());
        match self.due {
            Due::First => 1,
            Due::Second => 2,
            Due::Body => body + 3,
            Due::Ended | Due::Refused(_) => body + 4,
        }
    }

    // Few lines were read: the limits bound them. It does nothing: what it says is its contract.
    #[inline(always)]
    pub(crate) fn counted(&self)
        ensures few { lines_read run_turns (stage_of self.now) ≤ 12884901900 }
    {
        let _ = self.next_line();
    }

    // Why more bytes than a line has are refused.
    fn refusal_of_long(&self) -> RunRefusal
        ensures { result ≡ long_refusal run_turns (stage_of self.now).due }
    {
        match self.due {
            Due::First | Due::Second | Due::Body => usual(Refusal::LineTooLong),
            Due::Ended | Due::Refused(_) => usual(Refusal::Misplaced),
        }
    }

    // Why a line is refused that has no form.
    fn refusal_of_formless(&self) -> RunRefusal
        ensures { refusal_at run_turns (stage_of self.now) None ≡ Some result }
    {
        match self.due {
            Due::First => usual(Refusal::BadHeader),
            Due::Second => usual(Refusal::BadMode),
            Due::Body => usual(Refusal::BadLine),
            Due::Ended | Due::Refused(_) => usual(Refusal::Misplaced),
        }
    }

    // Goes on by a line.
    fn follow(&mut self, line: &RunLine) -> Result<(), RunEnd>
        requires in_range { IsRunLineInRange line.now }
        ensures { AnswersLine (stage_of self.old) line.now result (stage_of self.new) }
    {
        match self.due {
            Due::First => match *line {
                RunLine::Version => {
                    self.due = Due::Second;
                    Ok(())
                }
                _ => Err(RunEnd::Refused(usual(Refusal::BadHeader))),
            },
            Due::Second => match *line {
                RunLine::Mode(mode) => {
                    self.machine.follow(rules_of(mode));
                    self.due = Due::Body;
                    Ok(())
                }
                _ => Err(RunEnd::Refused(usual(Refusal::BadMode))),
            },
            Due::Body => self.follow_body(line),
            Due::Ended | Due::Refused(_) => { Err(RunEnd::Refused(usual(Refusal::Misplaced))) }
        }
    }

    // Goes on by a line after the header.
    fn follow_body(&mut self, line: &RunLine) -> Result<(), RunEnd>
        requires body { self.old.due ≡ Body }
        requires in_range { IsRunLineInRange line.now }
        ensures { AnswersLine (stage_of self.old) line.now result (stage_of self.new) }
    {
        match *line {
            RunLine::Version | RunLine::Plain(_) | RunLine::Mode(_) => {
                Err(RunEnd::Refused(usual(Refusal::Misplaced)))
            }
            RunLine::Root(place, word) => self.machine.declare(place, word),
            RunLine::Hart(hart) => self.machine.switch(hart),
            RunLine::Step(step) => self.machine.make_usual(&step),
            RunLine::Run(step) => self.machine.make(&step),
            RunLine::End(count) => {
                if count != self.machine.steps() {
                    return Err(RunEnd::Refused(usual(Refusal::WrongCount)));
                }
                self.due = Due::Ended;
                Ok(())
            }
        }
    }
}

// A refusal that a log of version 2 has too.
fn usual(refusal: Refusal) -> RunRefusal
    ensures { result ≡ Usual refusal }
{
    RunRefusal::Usual(refusal)
}

// The rules of a mode.
fn rules_of(mode: Mode) -> Rules
    ensures { result ≡ rules_of mode }
{
    match mode {
        Mode::Strict => Rules::TwoStrict,
        Mode::Clear => Rules::TwoClear,
    }
}
