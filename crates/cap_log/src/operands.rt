//! What follows the first word of a step's line, whatever its kind.

ghost use Rattle.std.specs.Prelude.{◌≡◌, ◌≤◌, ◌∷◌, ◌++◌, length, IfSome, IfNone};
ghost use Rattle.cap_log.specs.{declared.kinds.{Head.Head, Step.Step}, Heads.head_spelling};
ghost use Rattle.cap_log.specs.Lines.{IsInRange, IsStepInRange, spelling};
ghost use Rattle.cap_log.specs.Parts.{Begins, BeginsWithNone, IsMade, StandsBehind};
ghost use Rattle.cap_streams.specs.Written.{Writes};
ghost use Rattle.cap_log.specs.declared.lines.Line.TheVariants as lines;

use crate::kinds::{Head, Step};
use crate::lines::Line;
use crate::parts::Part;

/// The operands of one kind of step, and what its line records.
pub trait Operands: Copy {
    /// What they are made from: numbers that may be out of range.
    type Numbers;

    /// The head of its lines.
    const HEAD: Head;

    ghost HEAD: { Head };

    // The step.
    ghost step: { Self → Step };

    // The operands that numbers stand for.
    ghost meant: { Self.Numbers → Self };

    /// The operands of these numbers, or `None` where they are out of a step's ranges.
    fn from_numbers(numbers: Self::Numbers) -> Option<Self>
        ensures made { IsMade step (meant numbers) result };

    /// Takes the operands after the head of such a line and its space, with the line feed. Returns them and the
    /// bytes after them, or `None` if there are no such operands with a line feed.
    fn take(bytes: &[u8]) -> Option<(Self, &[u8])>
        ensures some { IfSome result (λ p. Begins IsInRange spelling 10 (head_spelling HEAD ++ 32 ∷ bytes.now)
            (lines.Step (step p.0)) p.1.now) }
        ensures none { IfNone result (BeginsWithNone IsInRange spelling 10 (head_spelling HEAD ++ 32 ∷ bytes.now)) };

    /// Writes the step's line, without its line feed, at the front of the buffer, and answers where it ends.
    fn write(&self, buffer: &mut [u8]) -> usize
        requires { 95 ≤ length buffer.old }
        ensures written { Writes 0 (spelling (lines.Step (step self.now))) buffer.old buffer.new result };

    /// The step that has them: its numbers are in their ranges.
    fn into_step(self) -> Step
        ensures step { result ≡ step self }
        ensures range { IsStepInRange (step self) };

    /// Their numbers are in their ranges.
    #[inline(always)]
    final fn in_range(self)
        ensures range { IsStepInRange (step self) }
    {
        self.into_step();
    }
}

/// Takes the parts that follow a head and its space, with the line feed. `None` where no such line stands there.
#[inline(always)]
pub(crate) fn take_parts<P: Part>(head: Head, bytes: &[u8]) -> Option<(P, &[u8])>
    requires { StandsBehind head P.fits P.spelled }
    ensures some { IfSome result (λ p. Begins P.fits (λ parts. head_spelling head ++ 32 ∷ P.spelled parts) 10
        (head_spelling head ++ 32 ∷ bytes.now) p.0 p.1.now) }
    ensures none { IfNone result (BeginsWithNone IsInRange spelling 10 (head_spelling head ++ 32 ∷ bytes.now)) }
{
    // No other parts follow this head.
    let (parts, rest) = P::take(bytes, b'\n')?;
    Some((parts, rest))
}

/// Writes a line without its line feed, by its head and the parts after it, at the front of the buffer, and answers
/// where it ends.
#[inline(always)]
pub(crate) fn write_parts<P: Part>(line: &Line, head: Head, parts: P, buffer: &mut [u8]) -> usize
    requires in_range { IsInRange line.now }
    requires fits { P.fits parts }
    requires spelling { spelling line.now ≡ head_spelling head ++ 32 ∷ P.spelled parts }
    requires room { 95 ≤ length buffer.old }
    ensures { Writes 0 (spelling line.now) buffer.old buffer.new result }
{
    (head, parts).write(buffer, 0)
}

/// Takes the operands of one kind of step, as its line.
pub(crate) fn take_step<O: Operands>(bytes: &[u8]) -> Option<(Line, &[u8])>
    ensures some { IfSome result (λ p. Begins IsInRange spelling 10 (head_spelling O.HEAD ++ 32 ∷ bytes.now) p.0 p.1.now) }
    ensures none { IfNone result (BeginsWithNone IsInRange spelling 10 (head_spelling O.HEAD ++ 32 ∷ bytes.now)) }
{
    let (operands, rest) = O::take(bytes)?;
    Some((Line::Step(operands.into_step()), rest))
}
