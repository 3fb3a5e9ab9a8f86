//! What is told of a step that hands out or frees in vain.

ghost use Rattle.std.specs.Prelude.{◌≡◌, ◌+◌, ◌≤◌, ℕ, List, length};
ghost use Rattle.cap_streams.specs.Written.{Writes};
ghost use Rattle.cap_log.specs.Lines.{IsTarget};
ghost use Rattle.cap_run_report.specs.{CapParts.IsReadable, Extents.{asked_extent, meant}, StepParts.{AreAskedLines, AreDeadLines, AreAskedExtentLines}};
ghost use Rattle.cap_run_report.specs.StepParts.{AreFreeLines, AreLifeLines, AreObjectStepLines, AreOwningLines, unallocated_lines};
ghost use Rattle.cap_run.specs.Machines.{run_in};

use crate::cap_parts::{put_owned, put_register};
use crate::object_parts::{put_extent, put_owner};
use crate::run_sentences::{
    put_asked_text, put_capability_text, put_dead_text, put_owns_text, put_unallocated_text,
    put_unowned_text,
};
use cap_bounds::{Interval, bounds};
use cap_log::buffers::put;
use cap_run::{RunMachine, RunRefusal};
use cap_run_log::{RunPlace, RunRegister};
use cap_texts::text_lines::put_decimal_line;
use tagmem::TaggedStore;

/// The interval that a line asks for as an extent.
pub(crate) fn asked_extent<M: TaggedStore>(
    machine: &RunMachine<M>,
    register: u8,
    number: Option<u32>,
) -> Option<(u64, u128)>
    requires { IsTarget register }
    ensures { result ≡ asked_extent (run_in machine.now) register number }
{
    let Interval { base, top } = bounds(machine.register(RunRegister::General(register)).word);
    match number {
        None => Some((base, top)),
        Some(number) => match machine.object_numbered(number) {
            None => None,
            Some(object) => Some((object.base.min(base), object.top().max(top))),
        },
    }
}

// Writes that interval, and the object that it meets.
fn put_asked_extent<M: TaggedStore>(
    machine: &RunMachine<M>,
    buffer: &mut [u8],
    at: usize,
    register: u8,
    number: Option<u32>,
    freed: bool,
) -> usize
    requires register { IsTarget register }
    requires room { at + 448 ≤ length buffer.old }
    ensures written { (told : List ℕ) × AreAskedExtentLines (run_in machine.now) number freed (asked_extent (run_in machine.now) register number) told
        × Writes at told buffer.old buffer.new result }
    ensures fits { result ≤ at + 448 }
{
    match asked_extent(machine, register, number) {
        Some((base, top)) => put_extent(machine, buffer, at, number, freed, base, top),
        None => at,
    }
}

// Writes that interval, the object that it meets, and why that is in vain.
#[tactic(auto, unfolding(cap_texts::specs::TextLines::says_line))]
fn put_asked<M: TaggedStore>(
    machine: &RunMachine<M>,
    buffer: &mut [u8],
    at: usize,
    register: u8,
    number: Option<u32>,
    freed: bool,
) -> usize
    requires register { IsTarget register }
    requires room { at + 744 ≤ length buffer.old }
    ensures written { (told : List ℕ) × AreAskedLines (run_in machine.now) register number freed told × Writes at told buffer.old buffer.new result }
    ensures fits { result ≤ at + 744 }
{
    let at = put_asked_extent(machine, buffer, at, register, number, freed);
    let at = put(buffer, at, b"says ");
    let at = put_asked_text(machine, buffer, at, register, number, freed);
    put(buffer, at, b"\n")
}

/// Writes the object that owns a place, and that it does.
#[tactic(auto, unfolding(cap_texts::specs::TextLines::says_line))]
pub fn put_owning<M: TaggedStore>(
    machine: &RunMachine<M>,
    buffer: &mut [u8],
    at: usize,
    owner: Option<u32>,
    place: RunPlace,
) -> usize
    requires place { IsReadable place }
    requires room { at + 504 ≤ length buffer.old }
    ensures written { (told : List ℕ) × AreOwningLines (run_in machine.now) owner place told × Writes at told buffer.old buffer.new result }
    ensures fits { result ≤ at + 504 }
{
    let at = put_owner(machine, buffer, at, owner);
    let at = put(buffer, at, b"says ");
    let at = put_owns_text(machine, buffer, at, owner, place);
    put(buffer, at, b"\n")
}

// Writes an object that isn't live, and that it isn't.
#[tactic(auto, unfolding(cap_texts::specs::TextLines::says_line))]
fn put_dead<M: TaggedStore>(
    machine: &RunMachine<M>,
    buffer: &mut [u8],
    at: usize,
    owner: Option<u32>,
) -> usize
    requires { at + 504 ≤ length buffer.old }
    ensures written { (told : List ℕ) × AreDeadLines (run_in machine.now) owner told × Writes at told buffer.old buffer.new result }
    ensures fits { result ≤ at + 504 }
{
    let at = put_owner(machine, buffer, at, owner);
    let at = put(buffer, at, b"says ");
    let at = put_dead_text(machine, buffer, at, owner);
    put(buffer, at, b"\n")
}

// Writes how many objects were handed out, and that this is too few.
#[tactic(auto, unfolding(cap_texts::specs::TextLines::says_line))]
fn put_unallocated<M: TaggedStore>(
    machine: &RunMachine<M>,
    buffer: &mut [u8],
    at: usize,
    number: Option<u32>,
) -> usize
    requires { at + 504 ≤ length buffer.old }
    ensures written { Writes at (unallocated_lines (run_in machine.now) number) buffer.old buffer.new result }
    ensures fits { result ≤ at + 504 }
{
    let count = u64::from(machine.count());
    let at = put_decimal_line(buffer, at, b"objects", count);
    let at = put(buffer, at, b"says ");
    let at = put_unallocated_text(machine, buffer, at, number);
    put(buffer, at, b"\n")
}

// The object that a line means: that of its number, or the owner of its register.
fn meant<M: TaggedStore>(machine: &RunMachine<M>, register: u8, number: Option<u32>) -> Option<u32>
    requires { IsTarget register }
    ensures { result ≡ meant (run_in machine.now) register number }
{
    match number {
        None => machine.register_owner(RunRegister::General(register)),
        Some(number) => Some(number),
    }
}

// Writes why what a register holds is handed out or freed in vain.
#[tactic(auto, unfolding(cap_texts::specs::TextLines::says_line))]
fn put_life<M: TaggedStore>(
    machine: &RunMachine<M>,
    buffer: &mut [u8],
    at: usize,
    register: u8,
    number: Option<u32>,
    refusal: RunRefusal,
) -> usize
    requires register { IsTarget register }
    requires room { at + 744 ≤ length buffer.old }
    ensures written { (told : List ℕ) × AreLifeLines (run_in machine.now) register number refusal told × Writes at told buffer.old buffer.new result }
    ensures fits { result ≤ at + 744 }
{
    let place = RunPlace::General(register);
    let held = machine.register(RunRegister::General(register));
    let owner = machine.register_owner(RunRegister::General(register));
    match refusal {
        RunRefusal::NoCapability => {
            let at = put(buffer, at, b"says ");
            let at = put_capability_text(buffer, at, place, held);
            put(buffer, at, b"\n")
        }
        RunRefusal::HasOwner => put_owning(machine, buffer, at, owner, place),
        RunRefusal::NoOwner => {
            let at = put(buffer, at, b"says ");
            let at = put_unowned_text(buffer, at, place, held);
            put(buffer, at, b"\n")
        }
        RunRefusal::AlreadyFreed => put_dead(machine, buffer, at, meant(machine, register, number)),
        RunRefusal::NoObject => put_unallocated(machine, buffer, at, number),
        RunRefusal::Overlaps => put_asked(machine, buffer, at, register, number, false),
        RunRefusal::StillHeld => put_asked(machine, buffer, at, register, number, true),
        _ => at,
    }
}

/// Writes what is told of a step on an object through a register, with the number of an object or without.
pub fn put_object_step<M: TaggedStore>(
    machine: &RunMachine<M>,
    buffer: &mut [u8],
    at: usize,
    register: u8,
    number: Option<u32>,
    refusal: RunRefusal,
) -> usize
    requires register { IsTarget register }
    requires room { at + 1000 ≤ length buffer.old }
    ensures written { (told : List ℕ) × AreObjectStepLines (run_in machine.now) register number refusal told
        × Writes at told buffer.old buffer.new result }
    ensures fits { result ≤ at + 1000 }
{
    let held = RunRegister::General(register);
    let at = put_register(machine, buffer, at, b"register", held);
    let at = put_owned(buffer, at, machine.register_owner(held));
    put_life(machine, buffer, at, register, number, refusal)
}

/// Writes why the object of a number is freed in vain.
pub fn put_free_step<M: TaggedStore>(
    machine: &RunMachine<M>,
    buffer: &mut [u8],
    at: usize,
    number: u32,
    refusal: RunRefusal,
) -> usize
    requires { at + 504 ≤ length buffer.old }
    ensures written { (told : List ℕ) × AreFreeLines (run_in machine.now) number refusal told × Writes at told buffer.old buffer.new result }
    ensures fits { result ≤ at + 504 }
{
    match refusal {
        RunRefusal::AlreadyFreed => put_dead(machine, buffer, at, Some(number)),
        RunRefusal::NoObject => put_unallocated(machine, buffer, at, Some(number)),
        _ => at,
    }
}
