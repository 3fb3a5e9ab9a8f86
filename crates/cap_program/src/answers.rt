//! What a program does once an order was followed.

ghost use Rattle.std.specs.Prelude.{◌≡◌, ◌≤◌, true, [], length, take, OnOk};
ghost use Rattle.cap_program.specs.{Doings.{IsHandedOn, IsPushed, TellsFaultLine}, Faults.{exit_status, fault_line}};

use crate::commands::Command;
use crate::faults::Fault;
use crate::outputs::Output;
use cap_log::buffers::put;
use cap_log::{PushFault, Sink, push_all};

/// Hands on the text of an order that was followed. If the output fails then, this is the fault.
pub fn hand_on<K: Output>(done: Result<u8, Fault>, out: &mut K) -> Result<u8, Fault>
    ensures nothing_taken { K.took out.old out.new [] }
    ensures handed_on { IsHandedOn done (K.faults out.old) (K.faults out.new) result }
    ensures whole { OnOk result (K.has_handed_on out.new ≡ true) }
{
    match done {
        Ok(status) => match out.hand_on() {
            Ok(()) => Ok(status),
            Err(PushFault) => Err(Fault::Write),
        },
        Err(fault) => Err(fault),
    }
}

/// Tells why an order was not followed, if it was not: pushes what the line begins with, the program's name, and what the fault is
/// called, as a line. If the sink fails it took a beginning of the line.
pub fn tell<F: Sink>(front: &[u8], done: Result<u8, Fault>, faults: &mut F)
    requires short { length front.now ≤ 288 }
    ensures told { TellsFaultLine (λ fault. front.now) F.took F.faults done faults.old faults.new }
{
    if let Err(fault) = done {
        let mut line = [0u8; 320];
        let length = put_line(front, fault, &mut line);
        let _pushed = push_all(faults, &line[..length]);
    }
}

/// Tells the same of an order, with what the line of its fault begins with.
pub fn tell_of<C: Command, F: Sink>(order: Option<C>, done: Result<u8, Fault>, faults: &mut F)
    ensures told { TellsFaultLine (C.meaning.front order) F.took F.faults done faults.old faults.new }
{
    if let Err(fault) = done {
        let mut front = [0u8; 288];
        let length = C::put_front(order, fault, &mut front);
        tell(&front[..length], done, faults);
    }
}

/// The exit status that goes with what was done.
pub fn exit_status(done: Result<u8, Fault>) -> u8
    ensures value { result ≡ exit_status done }
{
    match done {
        Ok(status) => status,
        Err(fault) => fault.status(),
    }
}

// Writes the line of a fault at the front of a buffer, and answers its length.
fn put_line(front: &[u8], fault: Fault, buffer: &mut [u8; 320]) -> usize
    requires short { length front.now ≤ 288 }
    ensures fits { result ≤ 320 }
    ensures line { take result buffer.new ≡ fault_line front.now fault }
{
    let at = put(buffer, 0, front);
    let at = put(buffer, at, fault.text().as_bytes());
    put(buffer, at, b"\n")
}
