//! Calls of the judges of allocators' logs.

use cap_heap::{HeapVerdict, heap_text, judge_heap, judge_heap_to};
use cap_log::{SliceSink, SliceSource};
use std::alloc::{AllocError, Global};

/// The line of the verdict on an allocator's log, which is the same in pieces of one byte; or with `why` all that is
/// written: after it, for a `no` why it came, and for a `yes` the report.
pub fn heap_answer(alloc: Global, log: &[u8], is_why: bool) -> Result<String, AllocError> {
    let lengths = vec![in alloc; 1usize; log.len()]?;
    let verdict = judged(alloc, log, &[]);
    let mut room = [0u8; 1024];
    let length = match verdict {
        _ if verdict != judged(alloc, log, &lengths) => 0,
        Some(_) if is_why => written(alloc, log, &mut room),
        Some(verdict) => {
            let mut line = [0u8; 64];
            let length = heap_text(&verdict, &mut line);
            room[..64].copy_from_slice(&line);
            length
        }
        None => 0,
    };
    String::from_utf8_lossy(alloc, room[..length.min(1024)].trim_ascii_end())
}

// The verdict on a log in pieces of these lengths.
fn judged(alloc: Global, log: &[u8], lengths: &[usize]) -> Option<HeapVerdict> {
    judge_heap(alloc, &mut SliceSource::new(log, lengths)).ok()
}

// How many bytes a judge that tells all writes into a room.
fn written(alloc: Global, log: &[u8], room: &mut [u8]) -> usize {
    let mut sink = SliceSink::new(room);
    let is_told = judge_heap_to(
        alloc,
        true,
        true,
        &mut SliceSource::new(log, &[]),
        &mut sink,
    )
    .is_ok();
    if is_told { sink.taken() } else { 0 }
}
