//! What a program does with an order: its texts and its exit status.

ghost use Rattle.std.specs.Prelude.{◌≡◌, ℕ, true, List, [], take, IfOk, IfErr, OnOk, Err, None};
ghost use Rattle.std.specs.Io.KnownBytes.{Appends};
ghost use Rattle.cap_program.specs.{Commands.IsMeant, Doings.{IsDone, IsFollowed, TellsFaultLine, ended_by, gave_by}};
ghost use Rattle.cap_program.specs.{Doings.known_bytes, Faults.fault_line, Runs.IsRan};

use crate::answers::{exit_status, hand_on, tell_of};
use crate::commands::Command;
use crate::faults::Fault;
use crate::inputs::opened;
use crate::outputs::Output;
use cap_log::{Sink, Source, WriteSink};
use std::alloc::Global;
use std::io::{Read, Write};

/// Carries out an order, and returns the exit status: 0 for a `yes` or a text that was shown; 1 for a `no`; 2 if there
/// is no order, or one with an operand that can't be followed; 3 if the input, the output or memory failed. The
/// input is the opened file or standard input. It is `None` if it can't be opened or the order reads none. With a
/// status above 1 the line of the fault is written to `faults`, and nothing else; if that writer fails, a beginning
/// of the line is written, and nothing else changes.
///
/// This is [`carry_out`] over a reader and two writers. No contract of a reader or writer says that a call failed.
/// So it is `carry_out` that has each fault exactly if a stream counted one.
pub fn run<C: Command, R: Read + Drop, O: Write, F: Write>(
    alloc: Global,
    order: Option<C>,
    input: Option<R>,
    out: &mut O,
    faults: &mut F,
) -> u8
    requires meant { IsMeant C.meaning }
    ensures ran { IsRan C.meaning order (known_bytes R.remaining input) (input ≡ None) (O.contents out.old) (O.contents out.new)
        (F.contents faults.old) (F.contents faults.new) result }
{
    let mut input = opened(input);
    let (mut out, mut faults) = (WriteSink::new(out), WriteSink::new(faults));
    exit_status(carry_out(alloc, order, &mut input, &mut out, &mut faults))
}

/// Does what an order says, over any source and any sinks: the status that goes with the text that was pushed, or the
/// fault whose line was pushed to `faults`. A missing input is a read fault. With a status, all of the text was
/// handed on.
pub fn carry_out<C: Command, S: Source, K: Output, F: Sink>(
    alloc: Global,
    order: Option<C>,
    input: &mut Option<S>,
    out: &mut K,
    faults: &mut F,
) -> Result<u8, Fault>
    ensures followed { IsFollowed C.meaning order S.gave S.ended S.faults K.took K.faults input.old input.new out.old out.new result }
    ensures told { TellsFaultLine (C.meaning.front order) F.took F.faults result faults.old faults.new }
    ensures handed_on { OnOk result (K.has_handed_on out.new ≡ true) }
{
    let done = follow(alloc, order, input, out);
    let done = hand_on(done, out);
    tell_of(order, done, faults);
    done
}

// Pushes the text of an order, if there is one.
fn follow<C: Command, S: Source, K: Output>(
    alloc: Global,
    order: Option<C>,
    input: &mut Option<S>,
    out: &mut K,
) -> Result<u8, Fault>
    ensures followed { IsFollowed C.meaning order S.gave S.ended S.faults K.took K.faults input.old input.new out.old out.new result }
{
    match order {
        Some(order) => order.follow(alloc, input, out),
        None => Err(Fault::BadWords),
    }
}
