//! Why a step on objects is refused, or an access for its owner, in a sentence.

ghost use Rattle.std.specs.Prelude.{◌≡◌, ◌+◌, ◌≤◌, ℕ, List, decimal, length, nat_lt};
ghost use Rattle.cap_streams.specs.Written.{Writes};
ghost use Rattle.cap_log.specs.Lines.{IsTarget};
ghost use Rattle.cap_objects.specs.Moments.{line_at};
ghost use Rattle.cap_word.specs.Fields.{address_of, otype_of};
ghost use Rattle.cap_report.specs.Sentences.{number_text};
ghost use Rattle.cap_bounds.specs.Bounds.{base_of, top_of};
ghost use Rattle.cap_run_report.specs.CapParts.{IsReadable};
ghost use Rattle.cap_run_report.specs.RunSentences.{HasHolderText, IsAskedText, IsExtentText, IsHolderText, IsMetText, IsTouchedText};
ghost use Rattle.cap_run_report.specs.RunSentences.{asking_text, capability_text, dead_text, empty_text, found_text, freed_by, freed_text, gone_text};
ghost use Rattle.cap_run_report.specs.RunSentences.{object_text, others_text, owner_text, owns_text, unallocated_text, unowned_text};
ghost use Rattle.cap_run.specs.Machines.{run_in};

use crate::cap_parts::put_run_place;
use crate::derive_sentences::put_sealed_type;
use crate::object_parts::{holder, least_met};
use crate::object_steps::asked_extent;
use cap_bounds::bounds;
use cap_log::buffers::{put, put_decimal};
use cap_objects::{Moment, Object};
use cap_report::sentences::put_number;
use cap_run::RunMachine;
use cap_run_judge::put_hart_place;
use cap_run_log::RunPlace;
use cap_word::{Cap, Word};
use tagmem::TaggedStore;

// Writes the number of an object.
#[tactic(auto, using(cap_log::proofs::ElementLemmas::short_decimal))]
fn put_count(buffer: &mut [u8], at: usize, number: u32) -> usize
    requires { at + 20 ≤ length buffer.old }
    ensures written { Writes at (decimal number) buffer.old buffer.new result }
    ensures fits { result ≤ at + 20 }
{
    put_decimal(buffer, at, u64::from(number))
}

// Writes the number of the line of a step, in a log with so many roots.
#[tactic(auto, using(cap_log::proofs::ElementLemmas::short_decimal))]
fn put_step_line(buffer: &mut [u8], at: usize, roots: u32, step: Moment) -> usize
    requires { at + 20 ≤ length buffer.old }
    ensures written { Writes at (decimal (line_at roots step)) buffer.old buffer.new result }
    ensures fits { result ≤ at + 20 }
{
    put_decimal(buffer, at, step.line(roots))
}

/// Writes the object type of a word.
pub fn put_type(buffer: &mut [u8], at: usize, word: Word) -> usize
    requires { at + 19 ≤ length buffer.old }
    ensures written { Writes at (number_text (otype_of word.0)) buffer.old buffer.new result }
    ensures fits { result ≤ at + 19 }
{
    put_number(buffer, at, u128::from(word.object_type()))
}

/// Writes the address of a word.
pub fn put_word_address(buffer: &mut [u8], at: usize, word: Word) -> usize
    requires { at + 19 ≤ length buffer.old }
    ensures written { Writes at (number_text (address_of word.0)) buffer.old buffer.new result }
    ensures fits { result ≤ at + 19 }
{
    put_number(buffer, at, u128::from(word.address()))
}

// Writes the line that freed an object.
fn put_freed_by(buffer: &mut [u8], at: usize, roots: u32, object: Object) -> usize
    requires { at + 40 ≤ length buffer.old }
    ensures written { Writes at (freed_by roots object) buffer.old buffer.new result }
    ensures fits { result ≤ at + 40 }
{
    let at = put(buffer, at, b" and freed by line ");
    put_step_line(buffer, at, roots, object.freed_at)
}

// Writes the line that freed an object, if one did.
fn put_freed_text(buffer: &mut [u8], at: usize, roots: u32, object: Object) -> usize
    requires { at + 40 ≤ length buffer.old }
    ensures written { Writes at (freed_text roots object) buffer.old buffer.new result }
    ensures fits { result ≤ at + 40 }
{
    if object.freed {
        put_freed_by(buffer, at, roots, object)
    } else {
        at
    }
}

// Writes an object, the line that allocated it, and the line that freed it.
#[tactic(auto, unfolding(crate::specs::RunSentences::object_text))]
fn put_object_text(buffer: &mut [u8], at: usize, roots: u32, object: Object) -> usize
    requires { at + 112 ≤ length buffer.old }
    ensures written { Writes at (object_text roots object) buffer.old buffer.new result }
    ensures fits { result ≤ at + 112 }
{
    let at = put(buffer, at, b"object ");
    let at = put_count(buffer, at, object.number);
    let at = put(buffer, at, b", allocated by line ");
    let at = put_step_line(buffer, at, roots, object.handed_at);
    put_freed_text(buffer, at, roots, object)
}

// Writes an object that isn't present.
#[tactic(auto, unfolding(crate::specs::RunSentences::gone_text))]
fn put_gone_text(buffer: &mut [u8], at: usize, number: u32) -> usize
    requires { at + 112 ≤ length buffer.old }
    ensures written { Writes at (gone_text number) buffer.old buffer.new result }
    ensures fits { result ≤ at + 112 }
{
    let at = put(buffer, at, b"object ");
    let at = put_count(buffer, at, number);
    put(buffer, at, b", freed and held by no place")
}

// Writes the object with a number, present or not.
fn put_found_text(
    buffer: &mut [u8],
    at: usize,
    roots: u32,
    number: u32,
    found: Option<Object>,
) -> usize
    requires { at + 112 ≤ length buffer.old }
    ensures written { Writes at (found_text roots number found) buffer.old buffer.new result }
    ensures fits { result ≤ at + 112 }
{
    match found {
        Some(object) => put_object_text(buffer, at, roots, object),
        None => put_gone_text(buffer, at, number),
    }
}

// Writes the object of this number, if one is meant.
fn put_owner_text<M: TaggedStore>(
    machine: &RunMachine<M>,
    buffer: &mut [u8],
    at: usize,
    owner: Option<u32>,
) -> usize
    requires { at + 112 ≤ length buffer.old }
    ensures written { Writes at (owner_text (run_in machine.now) owner) buffer.old buffer.new result }
    ensures fits { result ≤ at + 112 }
{
    match owner {
        Some(number) => {
            let found = machine.object_numbered(number);
            put_found_text(buffer, at, machine.roots(), number, found)
        }
        None => at,
    }
}

/// Writes that an object owns a place.
pub fn put_owns_text<M: TaggedStore>(
    machine: &RunMachine<M>,
    buffer: &mut [u8],
    at: usize,
    owner: Option<u32>,
    place: RunPlace,
) -> usize
    requires place { IsReadable place }
    requires room { at + 144 ≤ length buffer.old }
    ensures written { Writes at (owns_text (run_in machine.now) owner place) buffer.old buffer.new result }
    ensures fits { result ≤ at + 144 }
{
    let at = put_owner_text(machine, buffer, at, owner);
    let at = put(buffer, at, b", owns ");
    put_run_place(buffer, at, place)
}

/// Writes that an object isn't live.
pub fn put_dead_text<M: TaggedStore>(
    machine: &RunMachine<M>,
    buffer: &mut [u8],
    at: usize,
    owner: Option<u32>,
) -> usize
    requires { at + 144 ≤ length buffer.old }
    ensures written { Writes at (dead_text (run_in machine.now) owner) buffer.old buffer.new result }
    ensures fits { result ≤ at + 144 }
{
    let at = put_owner_text(machine, buffer, at, owner);
    put(buffer, at, b", isn't live")
}

/// Writes that a place holds no unsealed capability.
pub fn put_capability_text(buffer: &mut [u8], at: usize, place: RunPlace, cap: Cap) -> usize
    requires place { IsReadable place }
    requires room { at + 144 ≤ length buffer.old }
    ensures written { Writes at (capability_text place cap) buffer.old buffer.new result }
    ensures fits { result ≤ at + 144 }
{
    let at = put_run_place(buffer, at, place);
    if cap.tag {
        put_sealed_type(buffer, at, cap.word)
    } else {
        put(buffer, at, b" has no tag")
    }
}

// Whether a word's bounds have an address.
fn has_addresses(word: Word) -> bool
    ensures { result ≡ nat_lt (base_of word.0) (top_of word.0) }
{
    let range = bounds(word);
    u128::from(range.base) < range.top
}

// Writes that a word's bounds are empty, if they are.
fn put_empty_text(buffer: &mut [u8], at: usize, word: Word) -> usize
    requires { at + 64 ≤ length buffer.old }
    ensures written { Writes at (empty_text word.0) buffer.old buffer.new result }
    ensures fits { result ≤ at + 64 }
{
    if has_addresses(word) {
        at
    } else {
        put(
            buffer,
            at,
            b": its bounds are empty; free the object by its number",
        )
    }
}

/// Writes that no object owns a place.
pub fn put_unowned_text(buffer: &mut [u8], at: usize, place: RunPlace, cap: Cap) -> usize
    requires place { IsReadable place }
    requires room { at + 144 ≤ length buffer.old }
    ensures written { Writes at (unowned_text place cap) buffer.old buffer.new result }
    ensures fits { result ≤ at + 144 }
{
    let at = put(buffer, at, b"no object owns ");
    let at = put_run_place(buffer, at, place);
    put_empty_text(buffer, at, cap.word)
}

/// Writes that no line allocated the object with a number.
pub fn put_unallocated_text<M: TaggedStore>(
    machine: &RunMachine<M>,
    buffer: &mut [u8],
    at: usize,
    number: Option<u32>,
) -> usize
    requires { at + 144 ≤ length buffer.old }
    ensures written { Writes at (unallocated_text (run_in machine.now) number) buffer.old buffer.new result }
    ensures fits { result ≤ at + 144 }
{
    match number {
        Some(number) => {
            let at = put(buffer, at, b"no line allocated object ");
            let at = put_count(buffer, at, number);
            let at = put(buffer, at, b"; the count of objects is ");
            put_count(buffer, at, machine.count())
        }
        None => at,
    }
}

// Writes what asks for an extent.
fn put_asking_text(buffer: &mut [u8], at: usize, place: RunPlace, number: Option<u32>) -> usize
    requires place { IsReadable place }
    requires room { at + 80 ≤ length buffer.old }
    ensures written { Writes at (asking_text place number) buffer.old buffer.new result }
    ensures fits { result ≤ at + 80 }
{
    match number {
        None => {
            let at = put_run_place(buffer, at, place);
            put(buffer, at, b"'s bounds overlap ")
        }
        Some(number) => {
            let at = put(buffer, at, b"object ");
            let at = put_count(buffer, at, number);
            let at = put(buffer, at, b", widened to ");
            let at = put_run_place(buffer, at, place);
            put(buffer, at, b"'s bounds, overlaps ")
        }
    }
}

// Writes how many places hold an object beside the first.
#[tactic(auto, using(cap_log::proofs::ElementLemmas::short_decimal))]
fn put_others_text(buffer: &mut [u8], at: usize, held: u64) -> usize
    requires { at + 40 ≤ length buffer.old }
    ensures written { Writes at (others_text held) buffer.old buffer.new result }
    ensures fits { result ≤ at + 40 }
{
    if 1 < held {
        let at = put(buffer, at, b", as ");
        let at = put_decimal(buffer, at, held - 1);
        put(buffer, at, b" more do")
    } else {
        at
    }
}

// Writes the first place that holds a freed object.
fn put_holder_text<M: TaggedStore>(
    machine: &RunMachine<M>,
    buffer: &mut [u8],
    at: usize,
    object: Object,
) -> usize
    requires { at + 80 ≤ length buffer.old }
    ensures written { (text : List ℕ) × IsHolderText (run_in machine.now) object text × Writes at text buffer.old buffer.new result }
    ensures fits { result ≤ at + 80 }
{
    match holder(machine, object.number) {
        Some((hart, place)) => {
            let at = put(buffer, at, b"; ");
            let at = put_hart_place(buffer, at, machine.hart(), hart, place);
            let at = put(buffer, at, b" still holds it");
            put_others_text(buffer, at, object.held)
        }
        None => at,
    }
}

// Writes the object that an interval meets, with its holder if it is freed.
fn put_met_text<M: TaggedStore>(
    machine: &RunMachine<M>,
    buffer: &mut [u8],
    at: usize,
    left_out: Option<u32>,
    freed: bool,
    base: u64,
    top: u128,
) -> usize
    requires { at + 192 ≤ length buffer.old }
    ensures written { (text : List ℕ) × IsMetText (run_in machine.now) left_out freed base top text × Writes at text buffer.old buffer.new result }
    ensures fits { result ≤ at + 192 }
{
    match least_met(machine, left_out, freed, base, top) {
        Some(object) => {
            let at = put_object_text(buffer, at, machine.roots(), object);
            if freed {
                put_holder_text(machine, buffer, at, object)
            } else {
                at
            }
        }
        None => at,
    }
}

// Writes the object that an interval meets, if a line asks for one as an extent.
fn put_extent_text<M: TaggedStore>(
    machine: &RunMachine<M>,
    buffer: &mut [u8],
    at: usize,
    left_out: Option<u32>,
    freed: bool,
    extent: Option<(u64, u128)>,
) -> usize
    requires { at + 192 ≤ length buffer.old }
    ensures written { (text : List ℕ) × IsExtentText (run_in machine.now) left_out freed extent text × Writes at text buffer.old buffer.new result }
    ensures fits { result ≤ at + 192 }
{
    match extent {
        Some((base, top)) => put_met_text(machine, buffer, at, left_out, freed, base, top),
        None => at,
    }
}

/// Writes what asks for an extent, and the object that this meets.
pub fn put_asked_text<M: TaggedStore>(
    machine: &RunMachine<M>,
    buffer: &mut [u8],
    at: usize,
    register: u8,
    number: Option<u32>,
    freed: bool,
) -> usize
    requires register { IsTarget register }
    requires room { at + 288 ≤ length buffer.old }
    ensures written { (text : List ℕ) × IsAskedText (run_in machine.now) register number freed text × Writes at text buffer.old buffer.new result }
    ensures fits { result ≤ at + 288 }
{
    let extent = asked_extent(machine, register, number);
    let at = put_asking_text(buffer, at, RunPlace::General(register), number);
    put_extent_text(machine, buffer, at, number, freed, extent)
}

/// Writes that no object owns the authority of an access, and the object that it touches.
pub fn put_touched_text<M: TaggedStore>(
    machine: &RunMachine<M>,
    buffer: &mut [u8],
    at: usize,
    register: u8,
    base: u64,
    top: u128,
) -> usize
    requires register { register ≤ 31 }
    requires room { at + 264 ≤ length buffer.old }
    ensures written { (text : List ℕ) × IsTouchedText (run_in machine.now) register base top text × Writes at text buffer.old buffer.new result }
    ensures fits { result ≤ at + 264 }
{
    let at = put(buffer, at, b"no object owns ");
    let at = put_run_place(buffer, at, RunPlace::General(register));
    let at = put(buffer, at, b", and the access touches ");
    put_met_text(machine, buffer, at, None, false, base, top)
}
