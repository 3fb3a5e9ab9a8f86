//! The judge of a log: it is handed the log's bytes, cut anywhere, or its steps by their numbers, and reads the whole
//! lines that stand there.

ghost use Rattle.std.specs.Prelude.{◌≡◌, ◌≤◌, ◌<◌, ◌^◌, ◌↔◌, ◌⊎◌, ℕ, List, [], ◌++◌, length, take, drop, true, false};
ghost use Rattle.std.specs.Prelude.{Err, None, IfSome, OnOk, IfErr, ◌≢◌, ◌∷◌, ◌+◌, IfOk, Some, is_some};
ghost use Rattle.std.specs.FinMap as map;
ghost use Rattle.cap_log.specs.{declared.lines.Line.Line, Lines.{IsStepInRange, Spells, spelling, IsInRange, IsPlace}};
ghost use Rattle.cap_log.specs.Parts.{Begins};
ghost use Rattle.cap_streams.specs.{FaultLines.bytes_of, Front.{IsCut, IsFront, IsFrontText, IsLine, IsTooLong}};
ghost use Rattle.cap_log.specs.declared.lines.Line.TheVariants as lines;
ghost use Rattle.cap_machine.specs.declared.ends.StepEnd.TheVariants as ends;
ghost use Rattle.cap_machine.specs.States.{granule_key, key_of, untagged_null};
ghost use Rattle.cap_judge.specs.declared.faults.RefusedLine.{RefusedLine as FaultIn};
ghost use Rattle.cap_judge.specs.declared.judges.Due.TheVariants.{Body, Refused as RefusedIn};
ghost use Rattle.cap_judge.specs.{declared.verdict.TakeFault.TheVariants.{NoLine, NoMemory}, Expectations.ExpectsAt};
ghost use Rattle.cap_judge.specs.Logs.{has_form, header_lines};
ghost use Rattle.cap_judge.specs.Readings.{AnswersLine, AnswerAtEnd, EndsBytes, VerdictAtEnd, EndsStepLine, EndsText, GoesOrStops};
ghost use Rattle.cap_judge.specs.Readings.{IsFullAt, IsFullJudge, IsUnmade, room_of, IsFaultOf, known_of, stage_of, verdict_so_far};
ghost use Rattle.cap_judge.specs.{Turns.{rules_of, unread, log_turns}, Verdicts.NamesEscapes};
ghost use Rattle.cap_turns.specs.declared.stops.Stop.TheVariants as stops;
ghost use Rattle.cap_turns.specs.Turns as turns;
ghost use Rattle.cap_turns.specs.{Readings.{Follows, IsNoLine, StopsAt, Takes}, Turns.{Goes, IsAtFault, lines_by, refusal_by}};
ghost use Rattle.cap_turns.specs.Verdicts.{Lacks, long_refusal};

use crate::expectation::expected_by;
use crate::faults::RefusedLine;
use crate::steps::{take_lone_step, take_steps};
use crate::verdict::{Expected, TakeFault, Verdict};
use cap_log::{Line, Mode, Operands, Place, Step, read_line, write_line};
use cap_machine::{Instruction, Machine, Refusal, Rules, StepEnd};
use cap_streams::judging::FaultLine;
use cap_streams::{Front, front};
use cap_turns::{Stop, Taken, is_whole};
use cap_word::Cap;
use std::alloc::Global;
use tagmem::{PageStore, TaggedStore};

/// What the next line of a log has to be.
#[derive(Drop)]
pub enum Due {
    /// The version line.
    First,
    /// The mode line.
    Second,
    /// A root, a step or the end line.
    Body,
    /// None: the end line has come.
    Ended,
    /// None: this line is faulty.
    Refused(RefusedLine),
}

/// A judge that has read a beginning of a log: the machine that its lines lead to, and what the next line has to
/// be. After a fault the machine holds what it held before that line.
#[derive(Drop)]
pub struct Judge<M: TaggedStore> {
    pub(crate) machine: Machine<M>,
    pub(crate) due: Due,
}

impl Judge<PageStore> {
    /// Nothing was read yet. It takes no memory.
    pub fn over_pages(alloc: Global) -> Judge<PageStore>
        ensures read { stage_of result ≡ unread }
    {
        Judge::new(PageStore::new(alloc))
    }
}

impl<M: TaggedStore> Judge<M> {
    /// Nothing was read yet. The store has to be empty.
    pub fn new(memory: M) -> Judge<M>
        requires { map.len (M.contents memory) ≡ 0 }
        ensures read { stage_of result ≡ unread }
        ensures least_room { room_of result ≡ M.least_room memory }
    {
        Judge {
            machine: Machine::new(memory),
            due: Due::First,
        }
    }

    /// Takes the complete lines at the front of some bytes that follow those taken before. Stops at less than a
    /// line, at the first faulty line, or if memory runs out. What wasn't taken may be handed over again, with more
    /// after it. The count excludes the faulty line and all after it, although they are read: its no holds whatever
    /// follows, and from then on the count is 0.
    pub fn take(&mut self, bytes: &[u8]) -> Taken
        ensures count { result.count ≤ length bytes.now }
        ensures stops { StopsAt log_turns (stage_of self.old) (take result.count bytes.now) (drop result.count bytes.now)
            result.stop (stage_of self.new) }

        // Memory is refused only where at least as many granules were put as surely have room.
        ensures full { result.stop ≡ stops.NoMemory → IsFullJudge self.new }
        ensures same_room { room_of self.new ≡ room_of self.old }
    {
        let mut rest = bytes;
        'lines: loop {
            let (behind, stop) = self.take_steps_and_line(rest);
            rest = behind;
            if let Some(stop) = stop {
                let count = bytes.len() - rest.len();
                return Taken { count, stop };
            }
        }
    }

    /// Takes the next line, with its line feed. Two kinds of bytes aren't taken, and change nothing: those that
    /// aren't one line with its line feed, unless more than 95 of them come before any, which is a line that is too
    /// long; and a line for which memory runs out. That line may be handed over again.
    ///
    /// ```rust
    /// let mut judge = Judge::over_pages(alloc);
    /// judge.take_line(b"capcheck 1\n")?;
    /// judge.take_line(b"end 0\n")?;
    /// assert_eq!(rt; judge.end(b""), Verdict::Yes { steps: 0, roots: 0 });
    /// ```
    pub fn take_line(&mut self, line: &[u8]) -> Result<(), TakeFault>
        ensures taken { OnOk result (Follows log_turns (stage_of self.old) line.now (stage_of self.new)) }
        ensures unchanged { IfErr result (λ _. known_of self.new ≡ known_of self.old) }
        ensures no_line { (result ≡ Err NoLine) ↔ IsNoLine line.now }

        // Memory is wanted only where this very line, which no check refuses, names a granule for the first time.
        ensures no_memory { result ≡ Err NoMemory → Lacks log_turns (stage_of self.old) line.now [] }
    {
        if let Due::Body = self.due {
            return match take_lone_step(&mut self.machine, line) {
                Some(Ok(())) => Ok(()),
                Some(Err(end)) => self.take_ended_step(end, line),
                None => self.take_lone_line(line),
            };
        }
        self.take_lone_line(line)
    }

    /// `None` exactly while the lines so far begin a log, and otherwise the `no` that stays whatever lines
    /// follow. It is never a `yes`, since after the end line of a log too a line may follow.
    pub fn answer(&self) -> Option<Verdict>
        ensures so_far { result ≡ verdict_so_far (stage_of self.now).due }
        ensures escape { IfSome result NamesEscapes }
    {
        match &self.due {
            Due::Refused(fault) => Some(fault.verdict()),
            _ => None,
        }
    }

    /// The verdict if no other bytes follow than these, which are less than a line.
    pub fn end(&self, rest: &[u8]) -> Verdict
        ensures verdict { IsCut rest.now → (text : List ℕ) × VerdictAtEnd (stage_of self.now) rest.now result text }
        ensures escape { NamesEscapes result }
    {
        match self.ending(rest) {
            Ok(verdict) => verdict,
            Err(fault) => fault.verdict(),
        }
    }

    /// After a `no` for a step's result, the result that the rules give for that step; otherwise `None`.
    pub fn expected(&self) -> Option<Expected>
        ensures expects { ExpectsAt (stage_of self.now).state (stage_of self.now).due result }
    {
        match &self.due {
            Due::Refused(fault) => match fault.refusal {
                Refusal::WrongResult => expected_by(&self.machine, fault.text.as_slice()),
                _ => None,
            },
            _ => None,
        }
    }

    /// What a register holds after the lines so far, or before the faulty line. Register 0 is c0, which is NULL
    /// without a tag.
    pub fn register(&self, number: u8) -> Cap
        requires { number ≤ 31 }
        ensures holds { result ≡ (stage_of self.now).state.state number }
        ensures zero { number ≡ 0 → result ≡ untagged_null }
    {
        self.machine.register(number)
    }

    /// What a granule holds after the lines so far, or before the faulty line: the sixteen bytes from
    /// address `16 * granule` on.
    pub fn granule(&self, granule: u64) -> Cap
        requires { granule < 2 ^ 60 }
        ensures holds { result ≡ (stage_of self.now).state.state (granule_key granule) }
    {
        self.machine.granule(granule)
    }

    /// The place of the root that a place's capability descends from, after the lines so far or before the faulty
    /// line. `None` exactly if it is untagged.
    pub fn origin(&self, place: Place) -> Option<Place>
        requires { IsPlace place }
        ensures holds { result ≡ (stage_of self.now).state.origin (key_of place) }
        ensures tagged { is_some result ≡ (let cap = (stage_of self.now).state.state (key_of place) in cap.tag) }
        ensures in_range { IfSome result IsPlace }
    {
        self.machine.origin(place)
    }

    // Takes bytes of any kind as one line.
    #[inline(never)]
    fn take_lone_line(&mut self, line: &[u8]) -> Result<(), TakeFault>
        ensures taken { OnOk result (Follows log_turns (stage_of self.old) line.now (stage_of self.new)) }
        ensures unchanged { IfErr result (λ _. known_of self.new ≡ known_of self.old) }
        ensures no_line { (result ≡ Err NoLine) ↔ IsNoLine line.now }
        ensures no_memory { result ≡ Err NoMemory → Lacks log_turns (stage_of self.old) line.now [] }
    {
        let found = front(line);
        if !is_whole(found, line) {
            return Err(TakeFault::NoLine);
        }
        match self.take_found_line(found, line) {
            Ok(_) => Ok(()),
            Err(Stop::Fault) => Ok(()),
            Err(Stop::NoMemory) => Err(TakeFault::NoMemory),
            Err(Stop::Cut) => Err(TakeFault::NoLine),
        }
    }

    // Ends a line at a step that was not made.
    #[inline(never)]
    fn take_ended_step(&mut self, end: StepEnd, line: &[u8]) -> Result<(), TakeFault>
        requires body { self.old.due ≡ Body }
        requires ends { EndsStepLine self.old.machine line.now end }
        ensures taken { OnOk result (Follows log_turns (stage_of self.old) line.now (stage_of self.new)) }
        ensures unchanged { IfErr result (λ _. known_of self.new ≡ known_of self.old) }
        ensures no_memory { IfErr result (λ fault. (fault ≡ NoMemory) × Lacks log_turns (stage_of self.old) line.now []) }
    {
        match self.stop(end, front(line), line) {
            Stop::NoMemory => Err(TakeFault::NoMemory),
            Stop::Fault | Stop::Cut => Ok(()),
        }
    }

    /// The verdict if no other bytes follow than these, which are less than a line: a `yes`, or the faulty line.
    pub fn ending(&self, rest: &[u8]) -> Result<Verdict, RefusedLine>
        ensures ends { IsCut rest.now → AnswerAtEnd (stage_of self.now) rest.now result }
        ensures fault { (fault : FaultIn) → self.now.due ≡ RefusedIn fault → result ≡ Err fault }
    {
        match &self.due {
            Due::Refused(fault) => Err(*fault),
            Due::Ended => {
                if rest.is_empty() {
                    Ok(Verdict::Yes {
                        steps: self.machine.steps(),
                        roots: self.machine.roots(),
                    })
                } else {
                    Err(self.fault(Refusal::Misplaced, front(rest), rest))
                }
            }
            _ => Err(self.fault(Refusal::Truncated, front(rest), rest)),
        }
    }

    /// The machine, as the lines so far left it, or those before the faulty line.
    pub fn machine(&self) -> &Machine<M>
        ensures held { result.now ≡ (known_of self.now).held }
    {
        &self.machine
    }

    /// The faulty line, where one is: its `no` stays whatever lines follow.
    pub fn refused(&self) -> Option<RefusedLine>
        ensures fault { IsFaultOf (stage_of self.now).due result }
    {
        match &self.due {
            Due::Refused(fault) => Some(*fault),
            _ => None,
        }
    }

    /// Makes a step by its numbers, if a step may come next. If it isn't made, nothing has changed:
    /// [`Judge::take_unmade`] takes it, with the reason at which it ended, if it was tried.
    #[inline(always)]
    pub fn make_step<I: Instruction>(&mut self, step: I) -> Result<(), Option<StepEnd>>
        ensures taken { OnOk result (Follows log_turns (stage_of self.old) (spelling (lines.Step (I.step step)) ++ 10 ∷ [])
            (stage_of self.new)) }
        ensures goes_on { OnOk result (verdict_so_far (stage_of self.new).due ≡ None) }
        ensures same { IfErr result (λ _. self.new ≡ self.old) }
        ensures unmade { IfErr result (λ end. IfSome end (IsUnmade self.old (I.step step))) }
        ensures untried { result ≡ Err None → (stage_of self.old).due ≢ turns.Body }
    {
        if let Due::Body = self.due {
            return match step.perform(&mut self.machine) {
                Ok(()) => Ok(()),
                Err(end) => Err(Some(end)),
            };
        }
        Err(None)
    }

    /// Takes a step that wasn't made, as [`Judge::take_line`] takes the line that spells it. That line is written; a
    /// step that ended isn't tried again.
    #[cold]
    #[inline(never)]
    pub fn take_unmade(&mut self, step: Step, end: Option<StepEnd>) -> Result<(), TakeFault>
        requires range { IsStepInRange step }
        requires ends { IfSome end (IsUnmade self.old step) }
        ensures taken { OnOk result (Follows log_turns (stage_of self.old) (spelling (lines.Step step) ++ 10 ∷ [])
            (stage_of self.new)) }
        ensures unchanged { IfErr result (λ _. known_of self.new ≡ known_of self.old) }
        ensures line { result ≢ Err NoLine }
        ensures no_memory { result ≡ Err NoMemory → Lacks log_turns (stage_of self.old) (spelling (lines.Step step) ++ 10 ∷ []) [] }
    {
        let mut buffer = [0; 96];
        let length = write_line(&Line::Step(step), &mut buffer);
        let line = &buffer[..length];
        match end {
            Some(end) => self.take_ended_step(end, line),
            None => self.take_line(line),
        }
    }

    /// Takes the steps at the front of some bytes, and then a line of any kind: what follows, and why it
    /// stopped, if it did.
    pub(crate) fn take_steps_and_line<'a>(&mut self, bytes: &'a [u8]) -> (&'a [u8], Option<Stop>)
        ensures taken { (front : List ℕ) × (bytes.now ≡ front ++ result.0.now)
            × GoesOrStops (stage_of self.old) front result.0.now result.1 (stage_of self.new) }
        ensures full { result.1 ≡ Some stops.NoMemory → IsFullJudge self.new }
        ensures same_room { room_of self.new ≡ room_of self.old }
    {
        let (rest, end) = self.take_front_steps(bytes);
        if let Some(end) = end {
            return (rest, Some(self.stop(end, front(rest), rest)));
        }
        match self.take_any_line(rest) {
            Ok(behind) => (behind, None),
            Err(stop) => (rest, Some(stop)),
        }
    }

    // Takes the steps at the front of some bytes: what follows, and how the step ends there that was not made.
    #[inline(always)]
    fn take_front_steps<'a>(&mut self, bytes: &'a [u8]) -> (&'a [u8], Option<StepEnd>)
        ensures taken { (front : List ℕ) × (bytes.now ≡ front ++ result.0.now)
            × Goes log_turns (stage_of self.old) front (stage_of self.new) }
        ensures end { IfSome result.1 (λ end. EndsBytes (stage_of self.new) result.0.now end
            × (IsAtFault (stage_of self.new).due → ⊥)) }
        ensures full { IfSome result.1 (λ end. IsFullAt end self.new.machine) }
        ensures same_room { room_of self.new ≡ room_of self.old }
    {
        match self.due {
            Due::Body => take_steps(&mut self.machine, bytes),
            _ => (bytes, None),
        }
    }

    /// Takes the line at the front of some bytes, whatever it is: what follows it.
    #[inline(never)]
    pub(crate) fn take_any_line<'a>(&mut self, bytes: &'a [u8]) -> Result<&'a [u8], Stop>
        ensures ok { IfOk result (λ rest. (line : Line) × Begins IsInRange spelling 10 bytes.now line rest.now
            × Takes log_turns (stage_of self.old) line (stage_of self.new)) }
        ensures err { IfErr result (λ stop. StopsAt log_turns (stage_of self.old) [] bytes.now stop (stage_of self.new)) }
        ensures full { result ≡ Err stops.NoMemory → IsFullJudge self.new }
        ensures same_room { room_of self.new ≡ room_of self.old }
    {
        let count = self.take_found_line(front(bytes), bytes)?;
        Ok(&bytes[count..])
    }

    // Takes the line that was found at the front of some bytes: how many bytes it has, with its line feed.
    fn take_found_line(&mut self, found: Front, bytes: &[u8]) -> Result<usize, Stop>
        requires found { IsFront bytes.now found }
        ensures few { IfOk result (λ count. count ≤ length bytes.now) }
        ensures ok { IfOk result (λ count. (line : Line) × Begins IsInRange spelling 10 bytes.now line (drop count bytes.now)
            × Takes log_turns (stage_of self.old) line (stage_of self.new)) }
        ensures err { IfErr result (λ stop. StopsAt log_turns (stage_of self.old) [] bytes.now stop (stage_of self.new)) }
        ensures same { IfErr result (λ stop. stop ≢ stops.Fault → known_of self.new ≡ known_of self.old) }
        ensures full { result ≡ Err stops.NoMemory → IsFullJudge self.new }
        ensures same_room { room_of self.new ≡ room_of self.old }
    {
        if let Due::Refused(_) = self.due {
            return Err(Stop::Fault);
        }
        match found {
            Front::Cut => Err(Stop::Cut),
            Front::TooLong => {
                let end = StepEnd::Refused(self.refusal_of_long());
                Err(self.stop(end, found, bytes))
            }
            Front::Line(length) => match self.take_text(&bytes[..length]) {
                Ok(()) => Ok(length + 1),
                Err(end) => Err(self.stop(end, found, bytes)),
            },
        }
    }

    // Takes a line by its text, without its line feed.
    fn take_text(&mut self, text: &[u8]) -> Result<(), StepEnd>
        ensures ok { OnOk result ((line : Line) × Spells text.now line × Takes log_turns (stage_of self.old) line (stage_of self.new)) }
        ensures err { IfErr result (EndsText (stage_of self.old) text.now) }
        ensures same { IfErr result (λ _. known_of self.new ≡ known_of self.old) }
        ensures full { IfErr result (λ end. IsFullAt end self.old.machine) }
        ensures same_room { room_of self.new ≡ room_of self.old }
    {
        match read_line(text) {
            Some(line) => match self.follow(&line) {
                Ok(()) => Ok(()),
                Err(end) => Err(end),
            },
            None => Err(StepEnd::Refused(self.refusal_of_formless())),
        }
    }

    /// Stops at a line that is not taken.
    #[cold]
    #[inline(never)]
    fn stop(&mut self, end: StepEnd, found: Front, bytes: &[u8]) -> Stop
        requires found { IsFront bytes.now found }
        requires clear { IsAtFault (stage_of self.old).due → ⊥ }
        requires ends { EndsBytes (stage_of self.old) bytes.now end }
        ensures stops { StopsAt log_turns (stage_of self.old) [] bytes.now result (stage_of self.new) }
        ensures same { result ≢ stops.Fault → known_of self.new ≡ known_of self.old }
        ensures uncut { result ≢ stops.Cut }
        ensures no_memory { result ≡ stops.NoMemory → end ≡ ends.NoMemory }
        ensures same_machine { self.new.machine ≡ self.old.machine }
    {
        match end {
            StepEnd::NoMemory => Stop::NoMemory,
            StepEnd::Refused(refusal) => {
                self.due = Due::Refused(self.fault(refusal, found, bytes));
                Stop::Fault
            }
        }
    }

    /// The next line, which these bytes begin with, as the faulty line.
    fn fault(&self, refusal: Refusal, found: Front, bytes: &[u8]) -> RefusedLine
        requires found { IsFront bytes.now found }
        ensures line { result.line ≡ lines_by log_turns (stage_of self.now).state (stage_of self.now).due + 1 }
        ensures refusal { result.refusal ≡ refusal }
        ensures front { IsFrontText bytes.now (bytes_of result.text) }
    {
        RefusedLine {
            line: self.next_line(),
            refusal,
            text: FaultLine::of_front(found, bytes),
        }
    }

    // The number of the next line.
    fn next_line(&self) -> u64
        ensures { result ≡ lines_by log_turns (stage_of self.now).state (stage_of self.now).due + 1 }
    {
        let roots = u64::from(self.machine.roots());
        let behind = header_length(self.machine.rules()) + roots + u64::from(self.machine.steps());
        match self.due {
            Due::First => 1,
            Due::Second => 2,
            Due::Body => behind + 1,
            Due::Ended | Due::Refused(_) => behind + 2,
        }
    }

    // Why more bytes than a line has are refused.
    fn refusal_of_long(&self) -> Refusal
        ensures { result ≡ long_refusal log_turns (stage_of self.now).due }
    {
        match self.due {
            Due::First | Due::Second | Due::Body => Refusal::LineTooLong,
            Due::Ended | Due::Refused(_) => Refusal::Misplaced,
        }
    }

    // Why a line is refused that has no form.
    fn refusal_of_formless(&self) -> Refusal
        ensures { refusal_by log_turns (stage_of self.now).state (stage_of self.now).due None ≡ Some result }
    {
        match self.due {
            Due::First => Refusal::BadHeader,
            Due::Second => Refusal::BadMode,
            Due::Body => Refusal::BadLine,
            Due::Ended | Due::Refused(_) => Refusal::Misplaced,
        }
    }

    // Goes on by a line.
    fn follow(&mut self, line: &Line) -> Result<(), StepEnd>
        requires in_range { IsInRange line.now }
        ensures { AnswersLine (known_of self.old) line.now result (known_of self.new) }
    {
        match self.due {
            Due::First => match *line {
                Line::Version(1) => {
                    self.due = Due::Body;
                    Ok(())
                }
                Line::Version(_) => {
                    self.due = Due::Second;
                    Ok(())
                }
                _ => Err(StepEnd::Refused(Refusal::BadHeader)),
            },
            Due::Second => match *line {
                Line::Mode(mode) => {
                    let rules = rules_of(mode);
                    self.machine.follow(rules);
                    self.machine.limit(rules.limits());
                    self.due = Due::Body;
                    Ok(())
                }
                _ => Err(StepEnd::Refused(Refusal::BadMode)),
            },
            Due::Body => self.follow_body(line),
            Due::Ended | Due::Refused(_) => Err(StepEnd::Refused(Refusal::Misplaced)),
        }
    }

    // Goes on by a line after the header.
    fn follow_body(&mut self, line: &Line) -> Result<(), StepEnd>
        requires body { self.old.due ≡ Body }
        requires in_range { IsInRange line.now }
        ensures { AnswersLine (known_of self.old) line.now result (known_of self.new) }
    {
        match *line {
            Line::Version(_) | Line::Mode(_) => {
                let refusal = if has_form(self.machine.rules(), line) {
                    Refusal::Misplaced
                } else {
                    Refusal::BadLine
                };
                Err(StepEnd::Refused(refusal))
            }
            Line::Root(place, word) => {
                if self.machine.steps() > 0 {
                    return Err(StepEnd::Refused(Refusal::Misplaced));
                }
                self.machine.declare(place, word)
            }
            Line::Step(step) => self.machine.step(&step),
            Line::End(count) => {
                if count != self.machine.steps() {
                    return Err(StepEnd::Refused(Refusal::WrongCount));
                }
                self.due = Due::Ended;
                Ok(())
            }
        }
    }
}

// Whether a line has a form by the rules.
fn has_form(rules: Rules, line: &Line) -> bool
    ensures { result ≡ has_form rules line.now }
{
    match *line {
        Line::Version(version) => rules != Rules::One || version == 1,
        Line::Mode(_) => rules != Rules::One,
        Line::Root(_, _) | Line::Step(_) | Line::End(_) => true,
    }
}

// How many lines the header of these rules has.
fn header_length(rules: Rules) -> u64
    ensures { result ≡ length (header_lines rules) }
{
    match rules {
        Rules::One => 1,
        Rules::TwoStrict | Rules::TwoClear => 2,
    }
}

// The rules of version 2 in a mode.
fn rules_of(mode: Mode) -> Rules
    ensures { result ≡ rules_of mode }
{
    match mode {
        Mode::Strict => Rules::TwoStrict,
        Mode::Clear => Rules::TwoClear,
    }
}
