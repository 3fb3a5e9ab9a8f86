//! Calls of judges, each in a line with its answer.

mod heaps;
mod memory;

use crate::calls::heaps::heap_answer;
use crate::calls::memory::{again_answer, judge_answer};
use std::alloc::{AllocError, Global};

/// Whether the call of a line has the answer that is written after it.
pub fn call_holds(alloc: Global, line: &str) -> Result<bool, AllocError> {
    let mut bytes = Vec::from_slice(alloc, line.trim_start_matches('>').as_bytes())?;
    for byte in bytes.iter_mut() {
        if *byte == b'~' {
            *byte = b'\n';
        }
    }
    let mut parts = Vec::new(alloc);
    for part in bytes.as_slice().split(|byte| *byte == b'|') {
        parts.push(bare(part))?;
    }
    match parts.as_slice() {
        [call, operands @ .., wanted] => {
            let answer = answer(alloc, call, operands)?;
            Ok(answer.as_bytes() == *wanted)
        }
        _ => Ok(false),
    }
}

// A part of a call without the space on each of its sides.
fn bare(part: &[u8]) -> &[u8] {
    let part = part.strip_prefix(b" ").unwrap_or(part);
    part.strip_suffix(b" ").unwrap_or(part)
}

// The answer of a call, whose last operand may be a text.
fn answer(alloc: Global, call: &[u8], operands: &[&[u8]]) -> Result<String, AllocError> {
    let text = operands.last().copied().unwrap_or(b"");
    match call {
        b"judge" => judge_answer(alloc, operands),
        b"again" => again_answer(alloc, text),
        b"heap" => heap_answer(alloc, text, false),
        _ => heap_answer(alloc, text, true),
    }
}

// The answer over a list, or both where that over pages is another.
fn agreed(alloc: Global, list: String, pages: String) -> Result<String, AllocError> {
    if list.as_bytes() == pages.as_bytes() {
        Ok(list)
    } else {
        format!(in alloc; "{list}, and pages: {pages}")
    }
}
