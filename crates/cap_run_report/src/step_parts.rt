//! What is told of a step of a run that is refused.

ghost use Rattle.std.specs.Prelude.{◌≡◌, ◌+◌, ◌≤◌, ◌&&◌, ℕ, List, is_some, length};
ghost use Rattle.cap_streams.specs.Written.{Writes};
ghost use Rattle.cap_log.specs.Lines.{IsStepInRange};
ghost use Rattle.cap_machine.specs.Shown.{IsShown, shown_of};
ghost use Rattle.cap_run_log.specs.RunLines.{IsRunStepInRange};
ghost use Rattle.cap_run.specs.RunChanges.{account_in};
ghost use Rattle.cap_run_report.specs.CapParts.{IsReadable};
ghost use Rattle.cap_run_report.specs.StepParts.{AreAccessLines, AreRunStepLines, AreUsualLines, derived_lines, exchanged_lines, is_refused};
ghost use Rattle.cap_run.specs.Machines.{run_in};

use crate::cap_parts::{Placed, placed_in, put_held, recorded_for};
use crate::derive_sentences::put_derive_text;
use crate::invoked_pairs::put_invoked;
use crate::object_parts::put_met;
use crate::object_steps::{put_free_step, put_object_step, put_owning};
use crate::run_sentences::put_touched_text;
use cap_log::Step;
use cap_log::buffers::put;
use cap_machine::Reached;
use cap_ops::derive_fault;
use cap_report::step_lines::{put_asked, put_step_lines};
use cap_run::{RunMachine, RunRefusal};
use cap_run_log::{RunPlace, RunRegister, RunStep};
use cap_word::Cap;
use tagmem::TaggedStore;

// Writes what is told of an access that is refused for its owner, if there is one, and why, in a sentence.
#[tactic(auto, unfolding(cap_texts::specs::TextLines::says_line))]
fn put_access<M: TaggedStore>(
    machine: &RunMachine<M>,
    buffer: &mut [u8],
    at: usize,
    access: Option<Reached>,
    refusal: RunRefusal,
) -> usize
    requires { at + 648 ≤ length buffer.old }
    ensures written { (told : List ℕ) × AreAccessLines (run_in machine.now) access refusal told × Writes at told buffer.old buffer.new result }
    ensures fits { result ≤ at + 648 }
{
    let Some(access) = access else {
        return at;
    };
    let register = access.authority.number();
    match refusal {
        RunRefusal::OwnerFreed => {
            let owner = machine.register_owner(RunRegister::General(register));
            put_owning(machine, buffer, at, owner, RunPlace::General(register))
        }
        RunRefusal::NotOwned => {
            let end = u128::from(access.address) + u128::from(access.size);
            let at = put_met(machine, buffer, at, None, false, access.address, end);
            let at = put(buffer, at, b"says ");
            let at = put_touched_text(machine, buffer, at, register, access.address, end);
            put(buffer, at, b"\n")
        }
        _ => at,
    }
}

/// Writes what is told of a step of version 2: as in the report on another log, but without origins; and then its access.
pub fn put_usual<M: TaggedStore>(
    machine: &RunMachine<M>,
    buffer: &mut [u8],
    at: usize,
    step: &Step,
    refusal: RunRefusal,
) -> usize
    requires step { IsStepInRange step.now }
    requires room { at + 2560 ≤ length buffer.old }
    ensures written { (told : List ℕ) × AreUsualLines (run_in machine.now) step.now refusal told × Writes at told buffer.old buffer.new result }
    ensures fits { result ≤ at + 2560 }
{
    let main = machine.machine();
    match refusal {
        RunRefusal::Usual(refusal) => put_step_lines(main, false, step, refusal, buffer, at),
        _ => {
            let shown = main.shown(step);
            let at = put_asked(main, false, &shown, buffer, at);
            put_access(machine, buffer, at, shown.access, refusal)
        }
    }
}

// Writes a source, what the line records for the register that gets it, and why that is refused.
#[tactic(auto, unfolding(cap_texts::specs::TextLines::says_line))]
fn put_derived(
    buffer: &mut [u8],
    at: usize,
    target: Placed,
    source: Placed,
    refusal: RunRefusal,
) -> usize
    requires target { IsReadable target.place }
    requires source { IsReadable source.place }
    requires room { at + 560 ≤ length buffer.old }
    ensures written { Writes at (derived_lines target source refusal) buffer.old buffer.new result }
    ensures fits { result ≤ at + 560 }
{
    let at = put_held(buffer, at, b"source", source.place, source.cap);
    let at = put_held(buffer, at, b"recorded", target.place, target.cap);
    let at = put(buffer, at, b"says ");
    let at = put_derive_text(buffer, at, target, source, refusal);
    put(buffer, at, b"\n")
}

// Whether a register can't get what is derived from a source.
fn is_refused(source: Cap, recorded: Cap) -> bool
    ensures { result ≡ is_refused source recorded }
{
    recorded.tag && derive_fault(source, recorded.word, false).is_some()
}

// Writes the pair of an exchange that is refused, and why: what the register gets from the special one, or what that gets.
fn put_exchanged(
    buffer: &mut [u8],
    at: usize,
    target: Placed,
    held: Placed,
    special: Placed,
    source: Placed,
    refusal: RunRefusal,
) -> usize
    requires target { IsReadable target.place }
    requires held { IsReadable held.place }
    requires special { IsReadable special.place }
    requires source { IsReadable source.place }
    requires room { at + 560 ≤ length buffer.old }
    ensures written { Writes at (exchanged_lines target held special source refusal) buffer.old buffer.new result }
    ensures fits { result ≤ at + 560 }
{
    if is_refused(held.cap, target.cap) {
        put_derived(buffer, at, target, held, refusal)
    } else {
        put_derived(buffer, at, special, source, refusal)
    }
}

/// Writes what is told of a step that only runs have.
pub fn put_run_step<M: TaggedStore>(
    machine: &RunMachine<M>,
    buffer: &mut [u8],
    at: usize,
    step: &RunStep,
    refusal: RunRefusal,
) -> usize
    requires step { IsRunStepInRange step.now }
    requires room { at + 1024 ≤ length buffer.old }
    ensures written { (told : List ℕ) × AreRunStepLines (run_in machine.now) step.now refusal told × Writes at told buffer.old buffer.new result }
    ensures fits { result ≤ at + 1024 }
{
    match *step {
        RunStep::Derive(step) => {
            let target = recorded_for(step.target.register(), step.result);
            let source = placed_in(machine, step.source.register());
            put_derived(buffer, at, target, source, refusal)
        }
        RunStep::Exchange(step) => {
            let target = recorded_for(RunRegister::General(step.target.number()), step.result);
            let special = RunRegister::Special(step.special.number());
            let held = placed_in(machine, special);
            let special = recorded_for(special, step.special_result);
            let source = placed_in(machine, RunRegister::General(step.source.number()));
            put_exchanged(buffer, at, target, held, special, source, refusal)
        }
        RunStep::Invoke(step) => {
            let code = placed_in(machine, RunRegister::General(step.code.number()));
            let datum = placed_in(machine, RunRegister::General(step.datum.number()));
            let (code_word, datum_word) = (step.code_word, step.datum_word);
            put_invoked(buffer, at, code, datum, code_word, datum_word, refusal)
        }
        RunStep::Object(register) => {
            put_object_step(machine, buffer, at, register, None, refusal)
        }
        RunStep::Widen(register, number) => {
            put_object_step(machine, buffer, at, register, Some(number), refusal)
        }
        RunStep::FreeOwner(register) => {
            put_object_step(machine, buffer, at, register, None, refusal)
        }
        RunStep::FreeNumber(number) => put_free_step(machine, buffer, at, number, refusal),
        RunStep::Drop(_) | RunStep::Fill(_, _) => at,
    }
}
