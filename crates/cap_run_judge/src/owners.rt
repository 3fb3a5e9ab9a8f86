//! The lines of the objects of a run, and of the places that they own.

ghost use Rattle.std.specs.Prelude.{◌≡◌, ◌≤◌, ℕ, ◌+◌, ◌++◌, drop, length, take, OnOk, OnErr};
ghost use Rattle.cap_objects.specs.declared.objects.Object.{Object as ObjectIn};
ghost use Rattle.cap_run_log.specs.RunLines.{IsRunPlace, run_place_spelling};
ghost use Rattle.cap_streams.specs.{Streams.CountsFault, Written.Writes};
ghost use Rattle.cap_run_judge.specs.OwnerLists.{extent_spelling, granule_lines, hart_lines, hart_place_spelling, life_spelling, object_line, object_lines};
ghost use Rattle.cap_run_judge.specs.OwnerLists.{owner_line, owner_lines, place_line, register_lines};
ghost use Rattle.cap_run.specs.Machines.{run_in};

use cap_log::Place;
use cap_log::buffers::{put, put_decimal, put_hex, put_place};
use cap_objects::Object;
use cap_run::{RunMachine, place_numbered};
use cap_run_log::RunPlace;
use cap_streams::{PushFault, Sink, push_all};
use tagmem::TaggedStore;

/// Pushes a line for each present object, by number, and then one for each place that an object owns: by hart c1 to c31 and
/// scr0 to scr31, and the granules by address.
pub fn push_owners<M: TaggedStore, K: Sink>(
    machine: &RunMachine<M>,
    sink: &mut K,
) -> Result<(), PushFault>
    ensures ok { OnOk result (K.took sink.old sink.new (object_lines (run_in machine.now) ++ owner_lines (run_in machine.now))) }
    ensures err { OnErr result ((n : ℕ)
        × K.took sink.old sink.new (take n (object_lines (run_in machine.now) ++ owner_lines (run_in machine.now)))) }
    ensures counted { CountsFault (K.faults sink.old) (K.faults sink.new) result }
{
    match push_objects(machine, sink) {
        Ok(()) => push_places(machine, sink),
        Err(PushFault) => Err(PushFault),
    }
}

// Pushes the lines of the present objects.
fn push_objects<M: TaggedStore, K: Sink>(
    machine: &RunMachine<M>,
    sink: &mut K,
) -> Result<(), PushFault>
    ensures ok { OnOk result (K.took sink.old sink.new (object_lines (run_in machine.now))) }
    ensures err { OnErr result ((n : ℕ) × K.took sink.old sink.new (take n (object_lines (run_in machine.now)))) }
    ensures counted { CountsFault (K.faults sink.old) (K.faults sink.new) result }
{
    let last = machine.count();
    let roots = machine.roots();
    let mut from = 1u32;
    while let Some(object) = machine.next_object(from) {
        if let Err(PushFault) = push_object(roots, object, sink) {
            return Err(PushFault);
        }
        if object.number >= last {
            return Ok(());
        }
        from = object.number + 1;
    }
    Ok(())
}

// Pushes the line of an object.
fn push_object<K: Sink>(roots: u32, object: Object, sink: &mut K) -> Result<(), PushFault>
    ensures ok { OnOk result (K.took sink.old sink.new (object_line roots object)) }
    ensures err { OnErr result ((n : ℕ) × K.took sink.old sink.new (take n (object_line roots object))) }
    ensures counted { CountsFault (K.faults sink.old) (K.faults sink.new) result }
{
    let mut text = [0u8; 128];
    let length = object_text(roots, object, &mut text);
    push_all(sink, &text[..length])
}

// Pushes the lines of the places that objects own.
fn push_places<M: TaggedStore, K: Sink>(
    machine: &RunMachine<M>,
    sink: &mut K,
) -> Result<(), PushFault>
    ensures ok { OnOk result (K.took sink.old sink.new (owner_lines (run_in machine.now))) }
    ensures err { OnErr result ((n : ℕ) × K.took sink.old sink.new (take n (owner_lines (run_in machine.now)))) }
    ensures counted { CountsFault (K.faults sink.old) (K.faults sink.new) result }
{
    match push_harts(machine, sink) {
        Ok(()) => push_granules(machine, sink),
        Err(PushFault) => Err(PushFault),
    }
}

// Pushes the lines of the registers of all harts.
fn push_harts<M: TaggedStore, K: Sink>(
    machine: &RunMachine<M>,
    sink: &mut K,
) -> Result<(), PushFault>
    ensures ok { OnOk result (K.took sink.old sink.new (hart_lines (run_in machine.now))) }
    ensures err { OnErr result ((n : ℕ) × K.took sink.old sink.new (take n (hart_lines (run_in machine.now)))) }
    ensures counted { CountsFault (K.faults sink.old) (K.faults sink.new) result }
{
    let mut from = 0u16;
    while let Some(hart) = machine.next_hart(from) {
        if let Err(PushFault) = push_registers(machine, hart, sink) {
            return Err(PushFault);
        }
        if hart == u16::MAX {
            return Ok(());
        }
        from = hart + 1;
    }
    Ok(())
}

// Pushes the lines of the registers of a hart.
fn push_registers<M: TaggedStore, K: Sink>(
    machine: &RunMachine<M>,
    hart: u16,
    sink: &mut K,
) -> Result<(), PushFault>
    ensures ok { OnOk result (K.took sink.old sink.new (register_lines (run_in machine.now) hart)) }
    ensures err { OnErr result ((n : ℕ) × K.took sink.old sink.new (take n (register_lines (run_in machine.now) hart))) }
    ensures counted { CountsFault (K.faults sink.old) (K.faults sink.new) result }
{
    for number in 1..64u8 {
        if let Err(PushFault) = push_owner(machine, hart, place_numbered(number), sink) {
            return Err(PushFault);
        }
    }
    Ok(())
}

// Pushes the lines of the granules.
fn push_granules<M: TaggedStore, K: Sink>(
    machine: &RunMachine<M>,
    sink: &mut K,
) -> Result<(), PushFault>
    ensures ok { OnOk result (K.took sink.old sink.new (granule_lines (run_in machine.now))) }
    ensures err { OnErr result ((n : ℕ) × K.took sink.old sink.new (take n (granule_lines (run_in machine.now)))) }
    ensures counted { CountsFault (K.faults sink.old) (K.faults sink.new) result }
{
    let mut from = 0u64;
    while let Some(granule) = machine.next_granule(from) {
        if let Err(PushFault) = push_owner(machine, 0, RunPlace::Granule(granule), sink) {
            return Err(PushFault);
        }
        from = granule + 1;
    }
    Ok(())
}

// Pushes the line of a place, where a register is that of a hart, if an object owns it.
fn push_owner<M: TaggedStore, K: Sink>(
    machine: &RunMachine<M>,
    hart: u16,
    place: RunPlace,
    sink: &mut K,
) -> Result<(), PushFault>
    requires { IsRunPlace place }
    ensures ok { OnOk result (K.took sink.old sink.new (place_line (run_in machine.now) hart place)) }
    ensures err { OnErr result ((n : ℕ) × K.took sink.old sink.new (take n (place_line (run_in machine.now) hart place))) }
    ensures counted { CountsFault (K.faults sink.old) (K.faults sink.new) result }
{
    match machine.owner_in(hart, place) {
        Some(number) => {
            let mut text = [0u8; 64];
            let length = owner_text(hart, place, number, &mut text);
            push_all(sink, &text[..length])
        }
        None => Ok(()),
    }
}

/// Writes the line of an object, `object N LINE BASE TOP live HELD` or `freed` in place of `live`, with its line feed, at
/// the front of the buffer, and answers its length. The line number is that of a log with so many roots. The rest of the
/// buffer stays as it was.
#[tactic(auto, using(cap_log::proofs::ElementLemmas::short_decimal))]
pub fn object_text(roots: u32, object: Object, buffer: &mut [u8; 128]) -> usize
    ensures line { take result buffer.new ≡ object_line roots object }
    ensures length { result ≡ length (object_line roots object) }
    ensures fits { result ≤ 128 }
    ensures rest { drop result buffer.new ≡ drop result buffer.old }
{
    let at = put(buffer, 0, b"object ");
    let at = put_decimal(buffer, at, u64::from(object.number));
    let at = put(buffer, at, b" ");
    let at = put_decimal(buffer, at, object.handed_at.line(roots));
    let at = put(buffer, at, b" ");
    let at = put_extent(buffer, at, object);
    let at = put(buffer, at, b" ");
    let at = put_life(buffer, at, object.freed);
    let at = put(buffer, at, b" ");
    let at = put_decimal(buffer, at, object.held);
    put(buffer, at, b"\n")
}

// Writes the base and the top of an object's extent.
fn put_extent(buffer: &mut [u8], at: usize, object: Object) -> usize
    requires { at + 34 ≤ length buffer.old }
    ensures text { Writes at (extent_spelling object) buffer.old buffer.new result }
    ensures fits { result ≤ at + 34 }
{
    let at = put_hex(buffer, at, 16, u128::from(object.base));
    let at = put(buffer, at, b" ");
    put_hex(buffer, at, 17, object.top())
}

// Writes whether an object was freed.
fn put_life(buffer: &mut [u8], at: usize, freed: bool) -> usize
    requires { at + 5 ≤ length buffer.old }
    ensures text { Writes at (life_spelling freed) buffer.old buffer.new result }
    ensures fits { result ≤ at + 5 }
{
    if freed {
        put(buffer, at, b"freed")
    } else {
        put(buffer, at, b"live")
    }
}

/// Writes the line of a place, where a register is that of a hart, and of the number of the object that owns it,
/// `owner PLACE N` with its line feed, at the front of the buffer, and answers its length. The number of a hart other than 0
/// stands before the place, as in `2.c5`. The rest of the buffer stays as it was.
#[tactic(auto, using(cap_log::proofs::ElementLemmas::short_decimal))]
pub fn owner_text(hart: u16, place: RunPlace, number: u32, buffer: &mut [u8; 64]) -> usize
    requires { IsRunPlace place }
    ensures line { take result buffer.new ≡ owner_line hart place number }
    ensures length { result ≡ length (owner_line hart place number) }
    ensures fits { result ≤ 64 }
    ensures rest { drop result buffer.new ≡ drop result buffer.old }
{
    let at = put(buffer, 0, b"owner ");
    let at = put_hart_place(buffer, at, 0, hart, place);
    let at = put(buffer, at, b" ");
    let at = put_decimal(buffer, at, u64::from(number));
    put(buffer, at, b"\n")
}

/// Writes a place, with the number of a hart before it unless that is the one that is left out.
#[tactic(auto, using(cap_log::proofs::ElementLemmas::few_digits))]
pub fn put_hart_place(
    buffer: &mut [u8],
    at: usize,
    left_out: u16,
    hart: u16,
    place: RunPlace,
) -> usize
    requires place { IsRunPlace place }
    requires room { at + 23 ≤ length buffer.old }
    ensures text { Writes at (hart_place_spelling left_out hart place) buffer.old buffer.new result }
    ensures fits { result ≤ at + 23 }
{
    if hart == left_out {
        return put_run_place(buffer, at, place);
    }
    let at = put_decimal(buffer, at, u64::from(hart));
    let at = put(buffer, at, b".");
    put_run_place(buffer, at, place)
}

// Writes a place as a run log spells it.
#[tactic(auto, using(cap_log::proofs::ElementLemmas::few_digits))]
fn put_run_place(buffer: &mut [u8], at: usize, place: RunPlace) -> usize
    requires place { IsRunPlace place }
    requires room { at + 17 ≤ length buffer.old }
    ensures text { Writes at (run_place_spelling place) buffer.old buffer.new result }
    ensures fits { result ≤ at + 17 }
{
    match place {
        RunPlace::General(number) => put_place(buffer, at, Place::Register(number)),
        RunPlace::Granule(granule) => put_place(buffer, at, Place::Granule(granule)),
        RunPlace::Special(number) => {
            let at = put(buffer, at, b"scr");
            put_decimal(buffer, at, u64::from(number))
        }
    }
}
