//! Calls of a judge and of a machine, over stores that refuse the memory for one granule.

use crate::calls::agreed;
use crate::made::{Made, Making};
use crate::refusals::Refusing;
use cap_judge::{judge_in, verdict_text};
use cap_log::{Line, read_line};
use cap_machine::{Machine, StepEnd};
use std::alloc::{AllocError, Global};
use tagmem::{ListStore, PageStore, TaggedStore};

/// What a judge answers of a log that is made as it is pulled. The operands are how many granules are put before the
/// one whose memory is refused, the text before the made lines, their kind and their numbers, and the text after them.
pub fn judge_answer(alloc: Global, operands: &[&[u8]]) -> Result<String, AllocError> {
    let [at, operands @ ..] = operands else {
        return format!(in alloc; "no such log");
    };
    let at = u32::try_from(decimal(at)).unwrap_or(u32::MAX);
    let list = judged(alloc, Refusing::new(ListStore::new(alloc), at), operands)?;
    let pages = judged(alloc, Refusing::new(PageStore::new(alloc), at), operands)?;
    agreed(alloc, list, pages)
}

// Over one store.
fn judged<M: TaggedStore>(
    alloc: Global,
    memory: M,
    operands: &[&[u8]],
) -> Result<String, AllocError> {
    let mut log = Making::new(made(operands));
    if memory.count() > 0 {
        return format!(in alloc; "no empty store");
    }
    match judge_in(&mut log, memory) {
        Ok(verdict) => {
            let mut text = [0u8; 64];
            let length = verdict_text(&verdict, &mut text);
            String::from_utf8_lossy(alloc, text[..length].trim_ascii_end())
        }
        Err(fault) => format!(in alloc; "{fault:?}"),
    }
}

// The number that decimal digits spell.
fn decimal(digits: &[u8]) -> u64 {
    let mut number = 0u64;
    for digit in digits {
        let value = (*digit as char).to_digit(10).unwrap_or(0);
        number = number.wrapping_mul(10).wrapping_add(u64::from(value));
    }
    number
}

// The log that operands spell.
fn made<'a>(operands: &'a [&'a [u8]]) -> Made<'a> {
    let [header, lines, rest] = operands else {
        return Made::nothing();
    };
    let mut words = lines.split(|byte| *byte == b' ');
    Made {
        header,
        kind: words.next().unwrap_or(b""),
        next: decimal(words.next().unwrap_or(b"")),
        until: decimal(words.next().unwrap_or(b"")),
        rest,
    }
}

/// What a machine answers when a line that names granule 0 is refused memory, and when it is given again.
pub fn again_answer(alloc: Global, line: &[u8]) -> Result<String, AllocError> {
    let list = given_again(alloc, Refusing::new(ListStore::new(alloc), 1), line)?;
    let pages = given_again(alloc, Refusing::new(PageStore::new(alloc), 1), line)?;
    agreed(alloc, list, pages)
}

// Over one store, after a root in c1 and one in granule 1: each answer, how many roots and steps there are then, and
// which granule is the first.
fn given_again<M: TaggedStore>(
    alloc: Global,
    memory: M,
    line: &[u8],
) -> Result<String, AllocError> {
    if memory.count() > 0 {
        return format!(in alloc; "no empty store");
    }
    let mut machine = Machine::new(memory);
    take(&mut machine, b"root c1 ffff1ffffc0180040000000000000000");
    take(
        &mut machine,
        b"root @0000000000000010 ffff1ffffbffd0000000000000001000",
    );
    let first = take(&mut machine, line);
    let (roots, steps, next) = (machine.roots(), machine.steps(), machine.next_put(0));
    let second = take(&mut machine, line);
    let held = (machine.roots(), machine.steps(), machine.next_put(0));
    format!(in alloc; "{first:?} {roots} {steps} {next:?}, {second:?} {held:?}")
}

// Declares a root or makes a step, as a line says.
fn take<M: TaggedStore>(machine: &mut Machine<M>, line: &[u8]) -> Option<Result<(), StepEnd>> {
    match read_line(line)? {
        Line::Root(place, word) => Some(machine.declare(place, word)),
        Line::Step(step) => Some(machine.step(&step)),
        _ => None,
    }
}
