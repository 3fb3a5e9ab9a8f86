//! What the program does with an order: its texts and its exit status.

ghost use Rattle.std.specs.Prelude.{◌≡◌, ◌≤◌, true, codes, take, None, OnOk};
ghost use Rattle.cap_program.specs.{Doings.{IsFollowed, TellsFaultLine, known_bytes}, Runs.IsRan};
ghost use Rattle.capcheck.specs.Doings.{order_meaning};

use crate::checks::check_source;
use crate::explanations::{show_explanation, show_rounding};
use crate::judges::judge_input;
use crate::words::Order;
use cap_log::buffers::put;
use cap_log::{Sink, Source};
use cap_program::{Command, Fault, Output};
use std::alloc::Global;
use std::io::{Read, Write};

impl Command for Order<'_> {
    ghost meaning = { order_meaning };

    ghost worded = { λ given. tt };

    ghost unread = { λ reads. reads };

    fn put_front(_order: Option<Self>, _fault: Fault, buffer: &mut [u8; 288]) -> usize
        ensures front { take result buffer.new ≡ codes "capcheck: " }
        ensures short { result ≤ 288 }
    {
        put(buffer, 0, b"capcheck: ")
    }

    fn follow<S: Source, K: Sink>(
        self,
        alloc: Global,
        input: &mut Option<S>,
        out: &mut K,
    ) -> Result<u8, Fault> {
        match self {
            Order::Explain { memory, tag, hex } => show_explanation(memory, tag, hex, out),
            Order::Round { base, length } => show_rounding(base, length, out),
            Order::Judge { origins, .. } => match input {
                Some(source) => judge_input(alloc, origins, source, out),
                None => Err(Fault::Read),
            },
            Order::Vectors { .. } => match input {
                Some(source) => check_source(source, out),
                None => Err(Fault::Read),
            },
        }
    }
}

/// Does what an order says, and answers the exit status, as [`cap_program::run`] does.
#[tactic(auto, using(crate::proofs::RunLemmas::orders_meant))]
pub fn run<R: Read + Drop, O: Write, F: Write>(
    alloc: Global,
    order: Option<Order<'_>>,
    input: Option<R>,
    out: &mut O,
    faults: &mut F,
) -> u8
    ensures ran { IsRan order_meaning order.entry (known_bytes R.remaining input) (input ≡ None) (O.contents out.old) (O.contents out.new)
        (F.contents faults.old) (F.contents faults.new) result }
{
    cap_program::run(alloc, order, input, out, faults)
}

/// Does what an order says, over any source and any sinks, as [`cap_program::carry_out`] does.
pub fn carry_out<S: Source, K: Output, F: Sink>(
    alloc: Global,
    order: Option<Order<'_>>,
    input: &mut Option<S>,
    out: &mut K,
    faults: &mut F,
) -> Result<u8, Fault>
    ensures followed { IsFollowed order_meaning order.entry S.gave S.ended S.faults K.took K.faults input.old input.new out.old out.new result }
    ensures told { TellsFaultLine (λ fault. codes "capcheck: ") F.took F.faults result faults.old faults.new }
    ensures handed_on { OnOk result (K.has_handed_on out.new ≡ true) }
{
    cap_program::carry_out(alloc, order, input, out, faults)
}
