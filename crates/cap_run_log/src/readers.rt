//! Reading a line of a run log.

#![tactic(auto, using(crate::proofs::Rows::after_each), unfolding(crate::specs::RunLines::run_spelling))]

ghost use Rattle.std.specs.Prelude.{◌≡◌, ◌≢◌, ◌≤◌, ◌∷◌, ◌++◌, ℕ, List, length, IfSome, IfNone};
ghost use Rattle.cap_streams.specs.Front.{HasNoFeed};
ghost use Rattle.cap_run_log.specs.{declared.lines.RunLine.RunLine, RunLines.SpellsRun};
ghost use Rattle.cap_log.specs.Parts.{Begins, BeginsWithNone, BeginsWithout};
ghost use Rattle.cap_run_log.specs.{RunHeads.{IsRunHead, run_head_spelling}, RunLines.{IsRunLineInRange, run_spelling}};
ghost use Rattle.cap_run_log.specs.declared.lines.{Derive.Derive as DeriveIn, Exchange.Exchange as ExchangeIn};
ghost use Rattle.cap_run_log.specs.declared.lines.RunLine.TheVariants as lines;
ghost use Rattle.cap_run_log.specs.declared.lines.RunStep.{RunStep as RunStepIn};
ghost use Rattle.cap_run_log.specs.declared.lines.RunStep.TheVariants as steps;
ghost use Rattle.cap_run_log.specs.RunParts.{IsFreed, IsHanded, StandsAfter, freed_spelling, handed_spelling};
ghost use Rattle.cap_run_log.specs.declared.heads.RunHead.{RunHead as RunHeadIn};
ghost use Rattle.cap_run_log.specs.declared.heads.RunHead.TheVariants as heads;

use crate::heads::{RunHead, strip_derive, strip_exchange, strip_head};
use crate::lines::{Derive, Exchange, Invoke, RunLine, RunStep};
use crate::operands::Special;
use crate::parts::{Equals, Freed, Granule, Handed, HartNumber, One};
use crate::results::Results;
use cap_log::buffers::put;
use cap_log::{Line, Part, Register, Target, take_line};
use cap_streams::LINE_LIMIT;
use cap_word::Word;

// What is taken as something else, with what follows it.
macro_rules! taken {
    ($found:expr, $parts:pat => $made:expr) => {
        match $found {
            Some(($parts, rest)) => Some(($made, rest)),
            None => None,
        }
    };
}

// What follows `exchange`.
type ExchangeParts = (Target, (Register, (Special, Results)));

// What follows `invoke`.
type InvokeParts = (Register, (Register, (Equals, (Word, Word))));

/// Takes a line of a run log and its line feed from the front of some bytes: the line, and what follows it. `None` if no
/// such line and a line feed stand there.
pub fn take_run_line(bytes: &[u8]) -> Option<(RunLine, &[u8])>
    ensures some { IfSome result (λ p. Begins IsRunLineInRange run_spelling 10 bytes.now p.0 p.1.now) }
    ensures none { IfNone result (BeginsWithNone IsRunLineInRange run_spelling 10 bytes.now) }
{
    match RunHead::take(bytes, b' ') {
        Some((head, rest)) => take_run_operands(head, rest),
        None => take_usual(bytes),
    }
}

/// Takes an `exchange` line and its line feed from the front of some bytes, sooner than [`take_run_line`] does: what it says,
/// and what follows it. `None` if no such line and a line feed stand there.
#[inline(always)]
pub fn take_exchange(bytes: &[u8]) -> Option<(Exchange, &[u8])>
    ensures some { IfSome result (λ p. Begins IsRunLineInRange run_spelling 10 bytes.now (lines.Run (steps.Exchange p.0)) p.1.now) }
    ensures none { IfNone result ((exchange : ExchangeIn) (rest : List ℕ)
        → Begins IsRunLineInRange run_spelling 10 bytes.now (lines.Run (steps.Exchange exchange)) rest → ⊥) }
{
    let Some(operands) = strip_exchange(bytes) else {
        return None;
    };
    take_exchanged(operands)
}

/// Takes a `derive` line and its line feed from the front of some bytes, sooner than [`take_run_line`] does: what it says, and
/// what follows it. `None` if no such line and a line feed stand there.
#[inline(always)]
pub fn take_derive(bytes: &[u8]) -> Option<(Derive, &[u8])>
    ensures some { IfSome result (λ p. Begins IsRunLineInRange run_spelling 10 bytes.now (lines.Run (steps.Derive p.0)) p.1.now) }
    ensures none { IfNone result ((derive : DeriveIn) (rest : List ℕ)
        → Begins IsRunLineInRange run_spelling 10 bytes.now (lines.Run (steps.Derive derive)) rest → ⊥) }
{
    let Some(operands) = strip_derive(bytes) else {
        return None;
    };
    take_derived(operands)
}

/// Takes the line of a step with a head and its line feed from the front of some bytes, sooner than [`take_run_line`] does: the
/// step, and what follows its line. `None` if no such line and a line feed stand there.
#[inline(always)]
pub fn take_step(head: RunHead, bytes: &[u8]) -> Option<(RunStep, &[u8])>
    requires { (head ≢ heads.Version) × (head ≢ heads.Root) × (head ≢ heads.Hart) }
    ensures some { IfSome result (λ p. Begins IsRunLineInRange run_spelling 10 bytes.now (lines.Run p.0) p.1.now) }
    ensures none { IfNone result ((step : RunStepIn) (rest : List ℕ)
        → Begins IsRunLineInRange run_spelling 10 bytes.now (lines.Run step) rest → BeginsWithout (run_head_spelling head) 32 bytes.now) }
{
    let Some(operands) = strip_head(head, bytes) else {
        return None;
    };
    take_step_operands(head, operands)
}

/// Reads a line of a run log from its bytes, without its line feed: the line that they spell, or `None` if they spell none.
pub fn read_run_line(bytes: &[u8]) -> Option<RunLine>
    ensures some { IfSome result (SpellsRun bytes.now) }
    ensures none { IfNone result ((line : RunLine) → SpellsRun bytes.now line → ⊥) }
{
    if bytes.len() > LINE_LIMIT {
        return None;
    }
    let mut text = [0; LINE_LIMIT + 1];
    let length = put(&mut text, 0, bytes);
    let end = put(&mut text, length, b"\n");
    let Some((line, rest)) = take_run_line(&text[..end]) else {
        return None;
    };
    if rest.is_empty() { Some(line) } else { None }
}

/// No two lines share a spelling: bytes spell one line at most. A spelling has no line feed and at most 95 bytes.
pub fn run_spellings_are_distinct()
    ensures one { (bytes : List ℕ) (a b : RunLine) → SpellsRun bytes a → SpellsRun bytes b → a ≡ b }
    ensures plain { (line : RunLine) → IsRunLineInRange line → HasNoFeed (run_spelling line) }
    ensures short { (line : RunLine) → IsRunLineInRange line → length (run_spelling line) ≤ 95 }
{}

// Takes a line that other logs may have too.
#[tactic(auto, unfolding(crate::specs::RunLines::run_spelling, cap_log::specs::Lines::spelling))]
fn take_usual(bytes: &[u8]) -> Option<(RunLine, &[u8])>
    requires { BeginsWithNone IsRunHead run_head_spelling 32 bytes.now }
    ensures some { IfSome result (λ p. Begins IsRunLineInRange run_spelling 10 bytes.now p.0 p.1.now) }
    ensures none { IfNone result (BeginsWithNone IsRunLineInRange run_spelling 10 bytes.now) }
{
    let Some((line, rest)) = take_line(bytes) else {
        return None;
    };
    match line {
        Line::Mode(mode) => Some((RunLine::Mode(mode), rest)),
        Line::Step(step) => Some((RunLine::Step(step), rest)),
        Line::End(steps) => Some((RunLine::End(steps), rest)),
        Line::Version(version) => Some((RunLine::Plain(version), rest)),
        Line::Root(_, _) => None,
    }
}

// Takes the parts that follow a head and its space, with the line feed.
#[inline(always)]
fn take_parts<P: Part>(head: RunHead, bytes: &[u8]) -> Option<(P, &[u8])>
    requires { StandsAfter head P.fits P.spelled }
    ensures some { IfSome result (λ p. Begins P.fits (λ parts. run_head_spelling head ++ 32 ∷ P.spelled parts) 10
        (run_head_spelling head ++ 32 ∷ bytes.now) p.0 p.1.now) }
    ensures none { IfNone result (BeginsWithNone IsRunLineInRange run_spelling 10 (run_head_spelling head ++ 32 ∷ bytes.now)) }
{
    // No others follow this head.
    let Some((parts, rest)) = P::take(bytes, b'\n') else {
        return None;
    };
    Some((parts, rest))
}

// Takes what follows a head and its space, with the line feed.
fn take_run_operands(head: RunHead, bytes: &[u8]) -> Option<(RunLine, &[u8])>
    ensures some { IfSome result (λ p. Begins IsRunLineInRange run_spelling 10 (run_head_spelling head ++ 32 ∷ bytes.now) p.0 p.1.now) }
    ensures none { IfNone result (BeginsWithNone IsRunLineInRange run_spelling 10 (run_head_spelling head ++ 32 ∷ bytes.now)) }
{
    match head {
        RunHead::Version => taken!(take_parts::<One>(head, bytes), _one => RunLine::Version),
        RunHead::Root => {
            taken!(take_parts(head, bytes), (place, word) => RunLine::Root(place, word))
        }
        RunHead::Hart => {
            taken!(take_parts::<HartNumber>(head, bytes), hart => RunLine::Hart(hart.0))
        }
        _ => taken!(take_step_operands(head, bytes), step => RunLine::Run(step)),
    }
}

// Takes what follows the head of a step and its space, with the line feed.
#[inline(always)]
fn take_step_operands(head: RunHead, bytes: &[u8]) -> Option<(RunStep, &[u8])>
    requires { (head ≢ heads.Version) × (head ≢ heads.Root) × (head ≢ heads.Hart) }
    ensures some { IfSome result (λ p. Begins IsRunLineInRange run_spelling 10 (run_head_spelling head ++ 32 ∷ bytes.now)
        (lines.Run p.0) p.1.now) }
    ensures none { IfNone result (BeginsWithNone IsRunLineInRange run_spelling 10 (run_head_spelling head ++ 32 ∷ bytes.now)) }
{
    match head {
        RunHead::Version | RunHead::Root | RunHead::Hart => None,
        RunHead::Derive => taken!(take_derived(bytes), derive => RunStep::Derive(derive)),
        RunHead::Exchange => taken!(take_exchanged(bytes), exchange => RunStep::Exchange(exchange)),
        RunHead::Invoke => {
            taken!(take_parts::<InvokeParts>(head, bytes), (code, (datum, (_equals, (code_word, datum_word)))) =>
                RunStep::Invoke(Invoke { code, datum, code_word, datum_word }))
        }
        RunHead::Drop => taken!(take_parts(head, bytes), place => RunStep::Drop(place)),
        RunHead::Fill => {
            taken!(take_parts::<(Granule, Word)>(head, bytes), (granule, word) => RunStep::Fill(granule.0, word))
        }
        RunHead::Object => taken!(take_parts(head, bytes), handed => handed_step(handed)),
        RunHead::Free => taken!(take_parts(head, bytes), freed => freed_step(freed)),
    }
}

// The step of `object` and what follows it.
#[inline(always)]
fn handed_step(handed: Handed) -> RunStep
    requires { IsHanded handed }
    ensures range { IsRunLineInRange (lines.Run result) }
    ensures spelling { run_spelling (lines.Run result) ≡ run_head_spelling heads.Object ++ 32 ∷ handed_spelling handed }
{
    match handed {
        Handed::Alone(target) => RunStep::Object(target),
        Handed::Numbered(target, number) => RunStep::Widen(target, number),
    }
}

// The step of `free` and what follows it.
#[inline(always)]
fn freed_step(freed: Freed) -> RunStep
    requires { IsFreed freed }
    ensures range { IsRunLineInRange (lines.Run result) }
    ensures spelling { run_spelling (lines.Run result) ≡ run_head_spelling heads.Free ++ 32 ∷ freed_spelling freed }
{
    match freed {
        Freed::Owner(target) => RunStep::FreeOwner(target),
        Freed::Number(number) => RunStep::FreeNumber(number),
    }
}

// Takes what follows `derive` and its space.
#[inline(always)]
fn take_derived(bytes: &[u8]) -> Option<(Derive, &[u8])>
    ensures some { IfSome result (λ p. Begins IsRunLineInRange run_spelling 10 (run_head_spelling heads.Derive ++ 32 ∷ bytes.now)
        (lines.Run (steps.Derive p.0)) p.1.now) }
    ensures none { IfNone result (BeginsWithNone IsRunLineInRange run_spelling 10 (run_head_spelling heads.Derive ++ 32 ∷ bytes.now)) }
{
    taken!(take_parts(RunHead::Derive, bytes), (target, (source, result)) => Derive { target, source, result })
}

// Takes what follows `exchange` and its space.
#[inline(always)]
fn take_exchanged(bytes: &[u8]) -> Option<(Exchange, &[u8])>
    ensures some { IfSome result (λ p. Begins IsRunLineInRange run_spelling 10 (run_head_spelling heads.Exchange ++ 32 ∷ bytes.now)
        (lines.Run (steps.Exchange p.0)) p.1.now) }
    ensures none { IfNone result (BeginsWithNone IsRunLineInRange run_spelling 10 (run_head_spelling heads.Exchange ++ 32 ∷ bytes.now)) }
{
    taken!(take_parts::<ExchangeParts>(RunHead::Exchange, bytes), (target, (source, (special, results))) => Exchange {
        target,
        source,
        special,
        result: results.general,
        special_result: results.special,
    })
}
