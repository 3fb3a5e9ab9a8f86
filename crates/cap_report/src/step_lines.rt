//! The report on a step: what it read and asked for, and if its line records another result, what the
//! rules give.

ghost use Rattle.std.specs.Prelude.{◌+◌, ◌≤◌, IfSome, length};
ghost use Rattle.cap_streams.specs.Written.{Writes};
ghost use Rattle.cap_machine.specs.{Helds.account_of, Shown.{IsRead, IsShown}};
ghost use Rattle.cap_report.specs.{Parts.lines_of_parts, StepLines.{access_parts, asked_parts, given_lines}};
ghost use Rattle.cap_report.specs.StepLines.{operand_parts, request_parts, seen, shown_lines, step_lines};

use crate::operands::{authority_in, held_in};
use crate::parts::{ReportPart, put_parts};
use crate::says::{put_step_says, range_of};
use cap_bounds::{Interval, bounds, round};
use cap_log::{Place, Step};
use cap_machine::{Given, Machine, Reached, Refusal, Request, Shown};
use cap_texts::cap_lines::put_bounds_line;
use cap_texts::text_lines::put_hex_line;
use cap_word::Word;
use tagmem::TaggedStore;

/// Writes the report on a step that was refused at an index of the buffer, and returns the index after it: with the
/// origins of what it read, or without. The machine is as it was before the step.
pub fn put_step_lines<M: TaggedStore>(
    machine: &Machine<M>,
    origins: bool,
    step: &Step,
    refusal: Refusal,
    buffer: &mut [u8],
    at: usize,
) -> usize
    requires { at + 2560 ≤ length buffer.old }
    ensures written { Writes at (step_lines (seen origins (account_of machine.now)) step.now refusal) buffer.old buffer.new result }
    ensures fits { result ≤ at + 2560 }
{
    let shown = machine.shown(step);
    let at = put_shown(machine, origins, &shown, refusal, buffer, at);
    put_step_says(machine, &shown, refusal, buffer, at)
}

// Writes what a step read and asked for, and what the rules give.
fn put_shown<M: TaggedStore>(
    machine: &Machine<M>,
    origins: bool,
    shown: &Shown,
    refusal: Refusal,
    buffer: &mut [u8],
    at: usize,
) -> usize
    requires in_range { IsShown shown.now }
    requires room { at + 2560 ≤ length buffer.old }
    ensures written { Writes at (shown_lines (seen origins (account_of machine.now)) shown.now refusal) buffer.old buffer.new result }
    ensures fits { result ≤ at + 2176 }
{
    let at = put_asked(machine, origins, shown, buffer, at);
    match refusal {
        Refusal::WrongResult => put_given(shown.given, buffer, at),
        _ => at,
    }
}

/// Writes what a step read and asked for, as [`put_step_lines`] does.
pub fn put_asked<M: TaggedStore>(
    machine: &Machine<M>,
    origins: bool,
    shown: &Shown,
    buffer: &mut [u8],
    at: usize,
) -> usize
    requires in_range { IsShown shown.now }
    requires room { at + 1536 ≤ length buffer.old }
    ensures written { Writes at (lines_of_parts (asked_parts (seen origins (account_of machine.now)) shown.now)) buffer.old buffer.new result }
    ensures fits { result ≤ at + 1152 }
{
    let at = put_operands(machine, origins, shown.source, shown.request, buffer, at);
    put_access(machine, origins, shown.access, buffer, at)
}

// Writes what a step's result comes from or what is stored, and what an operation on registers asks for.
fn put_operands<M: TaggedStore>(
    machine: &Machine<M>,
    origins: bool,
    source: Option<Place>,
    request: Request,
    buffer: &mut [u8],
    at: usize,
) -> usize
    requires source { IfSome source IsRead }
    requires room { at + 768 ≤ length buffer.old }
    ensures written { Writes at (lines_of_parts (operand_parts (seen origins (account_of machine.now)) source request)) buffer.old buffer.new result }
    ensures fits { result ≤ at + 768 }
{
    match source {
        Some(place) => {
            let (held, root) = held_in(machine, origins, place);
            let at = put_parts(buffer, at, &[ReportPart::Source(place, held, root)]);
            put_request(machine, origins, held.word, request, buffer, at)
        }
        None => at,
    }
}

// Writes what an operation on registers asks for, of a source that holds a word.
fn put_request<M: TaggedStore>(
    machine: &Machine<M>,
    origins: bool,
    held: Word,
    request: Request,
    buffer: &mut [u8],
    at: usize,
) -> usize
    requires { at + 512 ≤ length buffer.old }
    ensures written { Writes at (lines_of_parts (request_parts (seen origins (account_of machine.now)) held.0 request)) buffer.old buffer.new result }
    ensures fits { result ≤ at + 512 }
{
    match request {
        Request::Length(length) => {
            let base = held.address();
            let rounded = round(base, length);
            let asked = ReportPart::Request(base, u128::from(base) + u128::from(length));
            let rounded = ReportPart::Rounded(rounded.base, rounded.top);
            put_parts(buffer, at, &[asked, rounded])
        }
        Request::Address(address) => {
            let Interval { base, top } = bounds(Word(held.0 >> 64 << 64 | u128::from(address)));
            let range = range_of(held);
            let range = ReportPart::Representable(range.base, range.top);
            put_parts(buffer, at, &[ReportPart::Moved(base, top), range])
        }
        Request::Authority(register, needs) => {
            let authority = authority_in(machine, origins, register);
            put_parts(buffer, at, &[authority, ReportPart::Needs(needs)])
        }
        Request::Nothing => at,
    }
}

// Writes an access to memory, its authority, and the permissions that it needs.
fn put_access<M: TaggedStore>(
    machine: &Machine<M>,
    origins: bool,
    access: Option<Reached>,
    buffer: &mut [u8],
    at: usize,
) -> usize
    requires { at + 768 ≤ length buffer.old }
    ensures written { Writes at (lines_of_parts (access_parts (seen origins (account_of machine.now)) access)) buffer.old buffer.new result }
    ensures fits { result ≤ at + 384 }
{
    match access {
        Some(access) => {
            let authority = authority_in(machine, origins, access.authority);
            let end = u128::from(access.address) + u128::from(access.size);
            let at = put_parts(buffer, at, &[authority]);
            let at = put_bounds_line(buffer, at, b"access", b" ", access.address, end);
            put_hex_line(buffer, at, b"needs", 8, u128::from(access.needs))
        }
        None => at,
    }
}

// Writes what the rules give for a step, with the check for which a result has no tag, what its line records, and in
// which fields the two differ.
fn put_given(given: Given, buffer: &mut [u8], at: usize) -> usize
    requires { at + 1024 ≤ length buffer.old }
    ensures written { Writes at (given_lines given) buffer.old buffer.new result }
    ensures fits { result ≤ at + 1024 }
{
    match given {
        Given::Capability {
            place,
            cap,
            fault,
            recorded,
        } => {
            let gives = ReportPart::Gives(place, cap);
            let differs = ReportPart::Differs(cap, recorded);
            let recorded = ReportPart::Recorded(place, recorded);
            match fault {
                None => put_parts(buffer, at, &[gives, recorded, differs]),
                Some(fault) => {
                    let cleared = ReportPart::Cleared(fault);
                    put_parts(buffer, at, &[gives, cleared, recorded, differs])
                }
            }
        }
        Given::Number {
            value,
            size,
            recorded,
        } => {
            let digits = 2 * usize::from(size.bytes());
            let at = put_hex_line(buffer, at, b"gives", digits, u128::from(value));
            put_hex_line(buffer, at, b"recorded", digits, u128::from(recorded))
        }
        Given::Nothing => at,
    }
}
