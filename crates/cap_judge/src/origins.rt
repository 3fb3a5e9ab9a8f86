//! The lines of the origins of what a machine holds.

ghost use Rattle.std.specs.Prelude.{◌≡◌, ◌≤◌, ℕ, ◌+◌, ◌^◌, drop, length, take, OnOk, OnErr};
ghost use Rattle.cap_log.specs.Lines.{IsPlace};
ghost use Rattle.cap_streams.specs.Streams.{CountsFault};
ghost use Rattle.cap_machine.specs.States.{key_of};
ghost use Rattle.cap_judge.specs.{OriginLists.held_lines, VerdictLines.origin_line};

use cap_log::buffers::{put, put_place};
use cap_log::{Place, PushFault, Sink, push_all};
use cap_machine::Machine;
use tagmem::TaggedStore;

/// Pushes a line for each tagged place that the machine holds, with the place of its root: the registers by
/// number, and then the granules by address.
pub fn push_origins<M: TaggedStore, K: Sink>(
    machine: &Machine<M>,
    sink: &mut K,
) -> Result<(), PushFault>
    ensures ok { OnOk result (K.took sink.old sink.new (held_lines machine.now 1 (31 + 2 ^ 60))) }
    ensures err { OnErr result ((n : ℕ) × K.took sink.old sink.new (take n (held_lines machine.now 1 (31 + 2 ^ 60)))) }
    ensures counted { CountsFault (K.faults sink.old) (K.faults sink.new) result }
{
    match push_registers(machine, sink) {
        Ok(()) => push_granules(machine, sink),
        Err(PushFault) => Err(PushFault),
    }
}

// Pushes the lines of the registers.
fn push_registers<M: TaggedStore, K: Sink>(
    machine: &Machine<M>,
    sink: &mut K,
) -> Result<(), PushFault>
    ensures ok { OnOk result (K.took sink.old sink.new (held_lines machine.now 1 31)) }
    ensures err { OnErr result ((n : ℕ) × K.took sink.old sink.new (take n (held_lines machine.now 1 31))) }
    ensures counted { CountsFault (K.faults sink.old) (K.faults sink.new) result }
{
    for number in 1..32u8 {
        if let Err(PushFault) = push_place(machine, Place::Register(number), sink) {
            return Err(PushFault);
        }
    }
    Ok(())
}

// Pushes the lines of the granules.
fn push_granules<M: TaggedStore, K: Sink>(
    machine: &Machine<M>,
    sink: &mut K,
) -> Result<(), PushFault>
    ensures ok { OnOk result (K.took sink.old sink.new (held_lines machine.now 32 (2 ^ 60))) }
    ensures err { OnErr result ((n : ℕ) × K.took sink.old sink.new (take n (held_lines machine.now 32 (2 ^ 60)))) }
    ensures counted { CountsFault (K.faults sink.old) (K.faults sink.new) result }
{
    let mut from = 0u64;
    while let Some(granule) = machine.next_put(from) {
        if let Err(PushFault) = push_place(machine, Place::Granule(granule), sink) {
            return Err(PushFault);
        }
        from = granule + 1;
    }
    Ok(())
}

// Pushes the line of a place, where it is tagged.
fn push_place<M: TaggedStore, K: Sink>(
    machine: &Machine<M>,
    place: Place,
    sink: &mut K,
) -> Result<(), PushFault>
    requires { IsPlace place }
    ensures ok { OnOk result (K.took sink.old sink.new (held_lines machine.now (key_of place) 1)) }
    ensures err { OnErr result ((n : ℕ)
        × K.took sink.old sink.new (take n (held_lines machine.now (key_of place) 1))) }
    ensures counted { CountsFault (K.faults sink.old) (K.faults sink.new) result }
{
    match machine.origin(place) {
        Some(root) => {
            let mut text = [0u8; 64];
            let length = origin_text(place, root, &mut text);
            push_all(sink, &text[..length])
        }
        None => Ok(()),
    }
}

/// Writes the line of an origin, `origin PLACE ROOT` with its line feed and both places as a log spells
/// them, at the front of the buffer, and answers its length. The rest of the buffer stays as it was.
pub fn origin_text(place: Place, root: Place, buffer: &mut [u8; 64]) -> usize
    requires place { IsPlace place }
    requires root { IsPlace root }
    ensures line { take result buffer.new ≡ origin_line place root }
    ensures length { result ≡ length (origin_line place root) }
    ensures fits { result ≤ 64 }
    ensures rest { drop result buffer.new ≡ drop result buffer.old }
{
    let at = put(buffer, 0, b"origin ");
    let at = put_place(buffer, at, place);
    let at = put(buffer, at, b" ");
    let at = put_place(buffer, at, root);
    put(buffer, at, b"\n")
}
