//! The lines that show an object of a run, and which place holds it.

ghost use Rattle.std.specs.Prelude.{◌≡◌, ◌+◌, ◌≤◌, ◌^◌, ℕ, List, false, IsTrue, IfSome, IfNone, length};
ghost use Rattle.cap_streams.specs.Written.{Writes};
ghost use Rattle.cap_run_log.specs.RunLines.{IsRunPlace};
ghost use Rattle.cap_run_report.specs.ObjectParts.{AreExtentLines, AreHolderLines, AreMetLines, AreNumberLines, AreObjectLines, AreOwnerLines};
ghost use Rattle.cap_run_report.specs.ObjectParts.{HasNoHolder, IsFirstHolder, IsFirstRegister, IsLeastMet, MeetsNone, Owns, OwnsNoRegister, OwnsNone};
ghost use Rattle.cap_run_report.specs.ObjectParts.{freed_line, is_met, lesser};
ghost use Rattle.cap_run.specs.Harts.{most_harts};
ghost use Rattle.cap_run.specs.Machines.{run_in};

use crate::cap_parts::put_told;
use cap_log::buffers::put;
use cap_objects::Object;
use cap_run::{RunMachine, place_numbered};
use cap_run_judge::{object_text, put_hart_place};
use cap_run_log::RunPlace;
use cap_texts::cap_lines::put_bounds_line;
use cap_texts::text_lines::put_decimal_line;
use tagmem::TaggedStore;

// Whether an object owns a place, where a register is that of a hart.
fn owns<M: TaggedStore>(machine: &RunMachine<M>, number: u32, hart: u16, place: RunPlace) -> bool
    requires { IsRunPlace place }
    ensures yes { IsTrue result → Owns (run_in machine.now) number hart place }
    ensures no { result ≡ false → Owns (run_in machine.now) number hart place → ⊥ }
{
    match machine.owner_in(hart, place) {
        Some(owner) => owner == number,
        None => false,
    }
}

// The first register of a hart that an object owns.
fn register_holder<M: TaggedStore>(
    machine: &RunMachine<M>,
    number: u32,
    hart: u16,
) -> Option<RunPlace>
    ensures some { IfSome result (IsFirstRegister (run_in machine.now) number hart) }
    ensures place { IfSome result IsRunPlace }
    ensures none { IfNone result (OwnsNone (run_in machine.now) number hart 64) }
{
    for register in 1..64u8 {
        let place = place_numbered(register);
        if owns(machine, number, hart, place) {
            return Some(place);
        }
    }
    None
}

// The first register of all harts that an object owns.
fn hart_holder<M: TaggedStore>(machine: &RunMachine<M>, number: u32) -> Option<(u16, RunPlace)>
    ensures some { IfSome result (IsFirstHolder (run_in machine.now) number) }
    ensures place { IfSome result (λ found. IsRunPlace found.1) }
    ensures none { IfNone result (OwnsNoRegister (run_in machine.now) number most_harts) }
{
    let mut from = 0u16;
    while let Some(hart) = machine.next_hart(from) {
        if let Some(place) = register_holder(machine, number, hart) {
            return Some((hart, place));
        }
        if hart == u16::MAX {
            return None;
        }
        from = hart + 1;
    }
    None
}

// The first granule that an object owns which owns no register.
fn granule_holder<M: TaggedStore>(machine: &RunMachine<M>, number: u32) -> Option<(u16, RunPlace)>
    requires { OwnsNoRegister (run_in machine.now) number most_harts }
    ensures some { IfSome result (IsFirstHolder (run_in machine.now) number) }
    ensures place { IfSome result (λ found. IsRunPlace found.1) }
    ensures none { IfNone result (HasNoHolder (run_in machine.now) number) }
{
    let hart = machine.hart();
    let mut from = 0u64;
    while let Some(granule) = machine.next_granule(from) {
        let place = RunPlace::Granule(granule);
        if owns(machine, number, hart, place) {
            return Some((hart, place));
        }
        from = granule + 1;
    }
    None
}

/// The first place that an object owns, and its hart: by hart c1 to c31 and scr0 to scr31, then the granules by address, for
/// which the current hart stands.
pub fn holder<M: TaggedStore>(machine: &RunMachine<M>, number: u32) -> Option<(u16, RunPlace)>
    ensures some { IfSome result (IsFirstHolder (run_in machine.now) number) }
    ensures place { IfSome result (λ found. IsRunPlace found.1) }
    ensures none { IfNone result (HasNoHolder (run_in machine.now) number) }
{
    if let Some(found) = hart_holder(machine, number) {
        return Some(found);
    }
    granule_holder(machine, number)
}

// Writes the first place that holds an object, with what it holds.
fn put_holder<M: TaggedStore>(
    machine: &RunMachine<M>,
    buffer: &mut [u8],
    at: usize,
    number: u32,
) -> usize
    requires { at + 192 ≤ length buffer.old }
    ensures written { (told : List ℕ) × AreHolderLines (run_in machine.now) number told × Writes at told buffer.old buffer.new result }
    ensures fits { result ≤ at + 192 }
{
    match holder(machine, number) {
        Some((hart, place)) => {
            let at = put(buffer, at, b"holder ");
            let at = put_hart_place(buffer, at, machine.hart(), hart, place);
            put_told(buffer, at, b"holder", machine.holds_in(hart, place))
        }
        None => at,
    }
}

// Writes the line that freed an object, if one did.
fn put_freed_line(buffer: &mut [u8], at: usize, roots: u32, object: Object) -> usize
    requires { at + 32 ≤ length buffer.old }
    ensures written { Writes at (freed_line roots object) buffer.old buffer.new result }
    ensures fits { result ≤ at + 32 }
{
    if !object.freed {
        return at;
    }
    put_decimal_line(buffer, at, b"freed", object.freed_at.line(roots))
}

/// Writes an object: the line that lists it, the line that freed it, and the first place that holds it.
pub fn put_object<M: TaggedStore>(
    machine: &RunMachine<M>,
    buffer: &mut [u8],
    at: usize,
    object: Object,
) -> usize
    requires { at + 352 ≤ length buffer.old }
    ensures written { (told : List ℕ) × AreObjectLines (run_in machine.now) object told × Writes at told buffer.old buffer.new result }
    ensures fits { result ≤ at + 352 }
{
    let roots = machine.roots();
    let mut text = [0u8; 128];
    let length = object_text(roots, object, &mut text);
    let at = put(buffer, at, &text[..length]);
    let at = put_freed_line(buffer, at, roots, object);
    put_holder(machine, buffer, at, object.number)
}

/// Writes the object with a number, or that it is gone.
pub fn put_numbered<M: TaggedStore>(
    machine: &RunMachine<M>,
    buffer: &mut [u8],
    at: usize,
    number: u32,
) -> usize
    requires { at + 352 ≤ length buffer.old }
    ensures written { (told : List ℕ) × AreNumberLines (run_in machine.now) number told × Writes at told buffer.old buffer.new result }
    ensures fits { result ≤ at + 352 }
{
    match machine.object_numbered(number) {
        Some(object) => put_object(machine, buffer, at, object),
        None => put_decimal_line(buffer, at, b"gone", u64::from(number)),
    }
}

/// Writes the object of this number, if one is meant.
pub fn put_owner<M: TaggedStore>(
    machine: &RunMachine<M>,
    buffer: &mut [u8],
    at: usize,
    owner: Option<u32>,
) -> usize
    requires { at + 352 ≤ length buffer.old }
    ensures written { (told : List ℕ) × AreOwnerLines (run_in machine.now) owner told × Writes at told buffer.old buffer.new result }
    ensures fits { result ≤ at + 352 }
{
    match owner {
        Some(number) => put_numbered(machine, buffer, at, number),
        None => at,
    }
}

// Whether an interval shares an address with the extent of an object, which is freed or live as asked, and isn't left out.
fn is_met(left_out: Option<u32>, freed: bool, base: u64, top: u128, object: Object) -> bool
    ensures { result ≡ is_met left_out freed base top object.number object }
{
    left_out != Some(object.number)
        && freed == object.freed
        && u128::from(base.max(object.base)) < top.min(object.top())
}

/// The object of least base among those that an interval meets.
pub fn least_met<M: TaggedStore>(
    machine: &RunMachine<M>,
    left_out: Option<u32>,
    freed: bool,
    base: u64,
    top: u128,
) -> Option<Object>
    ensures some { IfSome result (let run = run_in machine.now in IsLeastMet run left_out freed base top (run.count + 1)) }
    ensures none { IfNone result (let run = run_in machine.now in MeetsNone run left_out freed base top (run.count + 1)) }
{
    let last = machine.count();
    let mut found: Option<Object> = None;
    let mut from = 0u32;
    while let Some(object) = machine.next_object(from) {
        found = lesser(found, object, is_met(left_out, freed, base, top, object));
        if object.number >= last {
            return found;
        }
        from = object.number + 1;
    }
    found
}

// Of what was found and one object more, if that is met, the one of the lesser base.
fn lesser(found: Option<Object>, object: Object, met: bool) -> Option<Object>
    ensures { result ≡ lesser found object met }
{
    if !met {
        return found;
    }
    match found {
        None => Some(object),
        Some(other) => {
            if object.base < other.base {
                Some(object)
            } else {
                found
            }
        }
    }
}

/// Writes the object that an interval meets, of several that of the least base.
pub fn put_met<M: TaggedStore>(
    machine: &RunMachine<M>,
    buffer: &mut [u8],
    at: usize,
    left_out: Option<u32>,
    freed: bool,
    base: u64,
    top: u128,
) -> usize
    requires { at + 352 ≤ length buffer.old }
    ensures written { (told : List ℕ) × AreMetLines (run_in machine.now) left_out freed base top told × Writes at told buffer.old buffer.new result }
    ensures fits { result ≤ at + 352 }
{
    match least_met(machine, left_out, freed, base, top) {
        Some(object) => put_object(machine, buffer, at, object),
        None => at,
    }
}

/// Writes an interval that can't be an extent, and the object that it meets.
pub fn put_extent<M: TaggedStore>(
    machine: &RunMachine<M>,
    buffer: &mut [u8],
    at: usize,
    left_out: Option<u32>,
    freed: bool,
    base: u64,
    top: u128,
) -> usize
    requires { at + 448 ≤ length buffer.old }
    ensures written { (told : List ℕ) × AreExtentLines (run_in machine.now) left_out freed base top told × Writes at told buffer.old buffer.new result }
    ensures fits { result ≤ at + 448 }
{
    let at = put_bounds_line(buffer, at, b"extent", b" ", base, top);
    put_met(machine, buffer, at, left_out, freed, base, top)
}
