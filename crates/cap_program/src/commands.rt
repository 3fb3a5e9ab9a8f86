//! What the programs can be asked to do.

ghost use Rattle.std.specs.Prelude.{◌≡◌, ◌≤◌, ℕ, List, Some, None, take};
ghost use Rattle.cap_program.specs.{declared.faults.Fault.TheVariants.BadWords, Commands.Meaning, Doings.IsFollowed};

use crate::faults::Fault;
use cap_log::{Sink, Source};
use std::alloc::Global;

/// An order of a program.
pub trait Command: Copy {
    /// What the orders of the program mean.
    ghost meaning: { Meaning Self };

    /// Writes what the line of a fault begins with at the front of the buffer: the program's name, and what the fault is of.
    /// Answers its length.
    fn put_front(order: Option<Self>, fault: Fault, buffer: &mut [u8; 288]) -> usize
        ensures front { take result buffer.new ≡ meaning.front order fault }
        ensures short { result ≤ 288 };

    /// Pushes the text of an order, and answers the status that goes with it. A missing input is a read fault.
    fn follow<S: Source, K: Sink>(
        self,
        alloc: Global,
        input: &mut Option<S>,
        out: &mut K,
    ) -> Result<u8, Fault>
        ensures followed { IsFollowed meaning (Some self) S.gave S.ended S.faults K.took K.faults input.old input.new out.old out.new result };

    /// If there is no order, the arguments are wrong.
    ghost worded: { (given : List ℕ) → meaning.fails None given BadWords };

    /// No input is read then.
    ghost unread: { meaning.reads_input None → ⊥ };
}
