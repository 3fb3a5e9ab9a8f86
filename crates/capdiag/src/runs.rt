//! What the program does with an order: its texts and its exit status.

ghost use Rattle.std.specs.Prelude.{◌≡◌, ◌≤◌, None, take};
ghost use Rattle.cap_program.specs.{Doings.known_bytes, Runs.IsRan};
ghost use Rattle.capdiag.specs.{Answers.order_meaning, Files.front_of};

use crate::complaints::put_name;
use crate::help::{show_help, show_version};
use crate::orders::Order;
use crate::renderings::{judge_as, told_name};
use cap_log::buffers::put;
use cap_log::{Sink, Source};
use cap_program::{Command, Fault};
use std::alloc::Global;
use std::io::{Read, Write};

impl Command for Order<'_> {
    ghost meaning = { order_meaning };

    ghost worded = { λ given. tt };

    ghost unread = { λ reads. reads };

    fn put_front(order: Option<Self>, fault: Fault, buffer: &mut [u8; 288]) -> usize
        ensures front { take result buffer.new ≡ front_of order.entry fault }
        ensures short { result ≤ 288 }
    {
        let at = put(buffer, 0, b"capdiag: ");
        match (order, fault) {
            (Some(Order::Judge(_, _, file, files)), Fault::Read) => {
                put_name(buffer, at, told_name(files, file))
            }
            _ => at,
        }
    }

    fn follow<S: Source, K: Sink>(
        self,
        alloc: Global,
        input: &mut Option<S>,
        out: &mut K,
    ) -> Result<u8, Fault> {
        match self {
            Order::Help => show_help(out),
            Order::Version => show_version(out),
            Order::Judge(judging, form, file, files) => match input {
                Some(source) => judge_as(alloc, judging, form, file, files, source, out),
                None => Err(Fault::Read),
            },
        }
    }
}

/// Does what an order says, and answers the exit status, as [`cap_program::run`] does.
#[tactic(auto, using(crate::proofs::RunLemmas::orders_meant))]
pub fn run<R: Read + Drop, O: Write, F: Write>(
    alloc: Global,
    order: Option<Order<'_>>,
    input: Option<R>,
    out: &mut O,
    faults: &mut F,
) -> u8
    ensures ran { IsRan order_meaning order.entry (known_bytes R.remaining input) (input ≡ None) (O.contents out.old) (O.contents out.new)
        (F.contents faults.old) (F.contents faults.new) result }
{
    cap_program::run(alloc, order, input, out, faults)
}
