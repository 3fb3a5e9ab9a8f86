//! What is told of a log: its origins if it is accepted, and else its diagnosis.

use cap_judge::{Verdict, push_report};
use cap_log::{Line, SliceSink, read_line};
use cap_machine::Machine;
use cap_report::judge_why_bytes;
use std::alloc::Global;
use tagmem::{ListStore, TaggedStore};

// Room for each text.
const ROOM: usize = 3200;

/// Whether a judge tells this text of a log with its granules in a list, and whether after a `yes` a machine that takes the
/// lines one by one has the same origins.
pub fn text_holds(alloc: Global, log: &[u8], verdict: Verdict, text: &[u8]) -> bool {
    is_told(alloc, log, text) && (text.starts_with(b"no") || by_stepping(alloc, log, verdict, text))
}

fn is_told(alloc: Global, log: &[u8], text: &[u8]) -> bool {
    let mut room = [b'.'; ROOM];
    let mut sink = SliceSink::new(&mut room);
    let memory = ListStore::new(alloc);
    let is_told = memory.count() == 0 && judge_why_bytes(true, log, memory, &mut sink).is_ok();
    let taken = sink.taken();
    is_told && taken == text.len() && room.starts_with(text)
}

// A machine that takes the lines of an accepted log, one by one, has the origins that are told.
fn by_stepping(alloc: Global, log: &[u8], verdict: Verdict, text: &[u8]) -> bool {
    let memory = ListStore::new(alloc);
    if memory.count() > 0 {
        return false;
    }
    let mut machine = Machine::new(memory);
    for line in log.split(|byte| *byte == b'\n') {
        let is_taken = match read_line(line) {
            Some(Line::Root(place, word)) => machine.declare(place, word).is_ok(),
            Some(Line::Step(step)) => machine.step(&step).is_ok(),
            _ => true,
        };
        if !is_taken {
            return false;
        }
    }
    let mut room = [b'.'; ROOM];
    let mut sink = SliceSink::new(&mut room);
    let is_told = push_report(&verdict, &machine, &mut sink).is_ok();
    let taken = sink.taken();
    is_told && taken == text.len() && room.starts_with(text)
}
