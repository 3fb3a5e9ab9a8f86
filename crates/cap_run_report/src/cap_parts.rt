//! The lines that show what a place of a run holds.

ghost use Rattle.std.specs.Prelude.{◌≡◌, ◌+◌, ◌++◌, ◌≤◌, length};
ghost use Rattle.cap_streams.specs.Written.{Writes};
ghost use Rattle.cap_run_log.specs.RunLines.{IsRunRegister, run_place_spelling};
ghost use Rattle.cap_texts.specs.TextLines.{says_line};
ghost use Rattle.cap_report.specs.Says.{taken_text};
ghost use Rattle.cap_run_report.specs.CapParts.{cap_lines, IsReadable, held_lines, owned_lines, place_of, placed_in, recorded_for, register_lines};
ghost use Rattle.cap_run.specs.Machines.{run_in};

use cap_log::Place;
use cap_log::buffers::{put, put_decimal, put_flag, put_hex, put_place};
use cap_run::RunMachine;
use cap_run_log::{RunPlace, RunRegister};
use cap_texts::cap_lines::put_meaning_lines;
use cap_word::Cap;
use tagmem::TaggedStore;

/// A place, and the capability that it holds or that a line records for it.
#[derive(Clone, Copy)]
pub struct Placed {
    /// The place.
    pub place: RunPlace,
    /// The capability.
    pub cap: Cap,
}

/// A register, and what it holds.
pub fn placed_in<M: TaggedStore>(machine: &RunMachine<M>, register: RunRegister) -> Placed
    requires { IsRunRegister 0 register }
    ensures value { result ≡ placed_in (run_in machine.now) register }
    ensures readable { IsReadable result.place }
{
    Placed {
        place: place_of(register),
        cap: machine.register(register),
    }
}

/// A register, and what a line records for it.
pub fn recorded_for(register: RunRegister, cap: Cap) -> Placed
    requires { IsRunRegister 0 register }
    ensures value { result ≡ recorded_for register cap }
    ensures readable { IsReadable result.place }
{
    Placed {
        place: place_of(register),
        cap,
    }
}

/// A register as a place.
pub fn place_of(register: RunRegister) -> RunPlace
    requires { IsRunRegister 0 register }
    ensures value { result ≡ place_of register }
    ensures readable { IsReadable result }
{
    match register {
        RunRegister::General(number) => RunPlace::General(number),
        RunRegister::Special(number) => RunPlace::Special(number),
    }
}

/// Writes the lines of a capability that has this name in a report, at its place, and returns the index after them.
pub fn put_held(buffer: &mut [u8], at: usize, name: &[u8], place: RunPlace, cap: Cap) -> usize
    requires name { length name.now ≤ 9 }
    requires place { IsReadable place }
    requires room { at + 192 ≤ length buffer.old }
    ensures written { Writes at (held_lines name.now place cap) buffer.old buffer.new result }
    ensures fits { result ≤ at + 192 }
{
    let at = put(buffer, at, name);
    let at = put(buffer, at, b" ");
    let at = put_run_place(buffer, at, place);
    put_told(buffer, at, name, cap)
}

/// Writes what follows the name and the place of a capability in its lines.
pub fn put_told(buffer: &mut [u8], at: usize, name: &[u8], cap: Cap) -> usize
    requires name { length name.now ≤ 9 }
    requires room { at + 144 ≤ length buffer.old }
    ensures written { Writes at (cap_lines name.now cap) buffer.old buffer.new result }
    ensures fits { result ≤ at + 144 }
{
    let at = put(buffer, at, b" ");
    let at = put_flag(buffer, at, cap.tag);
    let at = put(buffer, at, b" ");
    let at = put_hex(buffer, at, 32, cap.word.0);
    let at = put(buffer, at, b"\n");
    put_meaning_lines(buffer, at, name, cap.word)
}

/// Writes a place as a run log spells it.
#[tactic(auto, using(cap_log::proofs::ElementLemmas::few_digits))]
pub fn put_run_place(buffer: &mut [u8], at: usize, place: RunPlace) -> usize
    requires place { IsReadable place }
    requires room { at + 17 ≤ length buffer.old }
    ensures text { Writes at (run_place_spelling place) buffer.old buffer.new result }
    ensures fits { result ≤ at + 17 }
{
    match place {
        RunPlace::General(number) => put_place(buffer, at, Place::Register(number)),
        RunPlace::Granule(granule) => put_place(buffer, at, Place::Granule(granule)),
        RunPlace::Special(number) => {
            let at = put(buffer, at, b"scr");
            put_decimal(buffer, at, u64::from(number))
        }
    }
}

/// Writes a place, and what is said of it.
pub fn put_place_text(buffer: &mut [u8], at: usize, place: RunPlace, text: &[u8]) -> usize
    requires place { IsReadable place }
    requires few { length text.now ≤ 24 }
    requires room { at + 41 ≤ length buffer.old }
    ensures written { Writes at (run_place_spelling place ++ text.now) buffer.old buffer.new result }
    ensures fits { result ≤ at + 41 }
{
    let at = put_run_place(buffer, at, place);
    put(buffer, at, text)
}

/// Writes the lines of what a register holds.
pub fn put_register<M: TaggedStore>(
    machine: &RunMachine<M>,
    buffer: &mut [u8],
    at: usize,
    name: &[u8],
    register: RunRegister,
) -> usize
    requires name { length name.now ≤ 9 }
    requires register { IsRunRegister 0 register }
    requires room { at + 192 ≤ length buffer.old }
    ensures written { Writes at (register_lines name.now (run_in machine.now) register) buffer.old buffer.new result }
    ensures fits { result ≤ at + 192 }
{
    let cap = machine.register(register);
    put_held(buffer, at, name, place_of(register), cap)
}

/// Writes the number of a register's owner, if it has one.
#[tactic(auto, using(cap_log::proofs::ElementLemmas::short_decimal), unfolding(crate::specs::CapParts::owner_number_line))]
pub fn put_owned(buffer: &mut [u8], at: usize, owner: Option<u32>) -> usize
    requires { at + 64 ≤ length buffer.old }
    ensures written { Writes at (owned_lines owner) buffer.old buffer.new result }
    ensures fits { result ≤ at + 64 }
{
    match owner {
        Some(number) => {
            let at = put(buffer, at, b"register owner ");
            let at = put_decimal(buffer, at, u64::from(number));
            put(buffer, at, b"\n")
        }
        None => at,
    }
}

/// Writes in a sentence that a root's place has one already, as a line at an index of the buffer, and returns the index
/// after it.
#[tactic(auto, unfolding(cap_texts::specs::TextLines::says_line))]
pub fn put_taken_says(place: RunPlace, buffer: &mut [u8], at: usize) -> usize
    requires place { IsReadable place }
    requires room { at + 102 ≤ length buffer.old }
    ensures written { Writes at (says_line (run_place_spelling place ++ taken_text)) buffer.old buffer.new result }
    ensures fits { result ≤ at + 102 }
{
    let at = put(buffer, at, b"says ");
    let at = put_place_text(buffer, at, place, b" has a root already");
    put(buffer, at, b"\n")
}
