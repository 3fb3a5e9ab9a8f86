//! A log with the answer of each call that judges it.

use cap_judge::{
    Judge, JudgeFault, JudgeToFault, Verdict, judge, judge_bytes, judge_in, judge_to, verdict_text,
};
use cap_log::{FailingSource, SliceSink, SliceSource};
use cap_machine::Refusal;
use std::alloc::{AllocError, Global};
use tagmem::{ListStore, TaggedStore};

// Below so many bytes a log is short.
const SHORT: usize = 1000;

// The number of a pull that no judge of a short log makes.
const NEVER: u64 = 1 << 32;

/// The bytes of a text from an index on, up to the first line feed and with it.
pub fn line_from(text: &[u8], from: usize) -> &[u8] {
    let Some(rest) = text.get(from..) else {
        return &[];
    };
    for at in 0..rest.len() {
        if rest[at] == b'\n' {
            return &rest[..at + 1];
        }
    }
    rest
}

/// Whether the verdict on a log has this line, and is the same in pieces of one byte, and with its granules in a
/// list. In `each_way` a short log also comes in pieces of up to eight bytes, with each pull failing in turn, and
/// line by line, and, with a `yes`, in two pieces, cut off, and with a byte more, each at each place.
pub fn verdict_holds(
    alloc: Global,
    log: &[u8],
    verdict: Verdict,
    line: &[u8],
    each_way: bool,
) -> Result<bool, AllocError> {
    if !is_line_of(verdict, line)
        || !in_pieces(alloc, log, 1, verdict)?
        || !over_a_list(alloc, log, verdict)
    {
        return Ok(false);
    }
    if !each_way || log.len() >= SHORT {
        return Ok(true);
    }
    for size in 2..9 {
        if !in_pieces(alloc, log, size, verdict)? {
            return Ok(false);
        }
    }
    let is_yes = match verdict {
        Verdict::Yes { .. } => true,
        Verdict::No { .. } => false,
    };
    Ok(
        each_pull(alloc, log, verdict, line)?
            && by_lines(alloc, log)
            && (!is_yes || each_cut(alloc, log, verdict) && longer(alloc, log)),
    )
}

// Whether a verdict has this line.
fn is_line_of(verdict: Verdict, line: &[u8]) -> bool {
    let mut text = [0u8; 64];
    let length = verdict_text(&verdict, &mut text);
    &text[..length] == line
}

// What a judge answers of a log in pieces of these lengths, where the pull with this number fails.
fn judged(alloc: Global, log: &[u8], lengths: &[usize], at: u64) -> Result<Verdict, JudgeFault> {
    let source = SliceSource::new(log, lengths);
    judge(alloc, &mut FailingSource::new(source, at))
}

// The same of a judge that writes its verdict into a room, and how many bytes it wrote there.
fn written(
    alloc: Global,
    log: &[u8],
    lengths: &[usize],
    at: u64,
    room: &mut [u8],
) -> (Result<Verdict, JudgeToFault>, usize) {
    let source = SliceSource::new(log, lengths);
    let mut sink = SliceSink::new(room);
    let answer = judge_to(alloc, &mut FailingSource::new(source, at), &mut sink);
    (answer, sink.taken())
}

// In pieces of so many bytes.
fn in_pieces(alloc: Global, log: &[u8], size: usize, verdict: Verdict) -> Result<bool, AllocError> {
    let lengths = vec![in alloc; size; log.len()]?;
    Ok(judged(alloc, log, &lengths, NEVER) == Ok(verdict))
}

// With the granules in a list.
fn over_a_list(alloc: Global, log: &[u8], verdict: Verdict) -> bool {
    let memory = ListStore::new(alloc);
    memory.count() == 0 && judge_in(&mut SliceSource::new(log, &[]), memory) == Ok(verdict)
}

// In pieces of one byte, of which each pull fails in turn: no verdict, and none is written, up to some pull, and the
// verdict for each later one.
fn each_pull(alloc: Global, log: &[u8], verdict: Verdict, line: &[u8]) -> Result<bool, AllocError> {
    let lengths = vec![in alloc; 1usize; log.len()]?;
    let mut is_reached = false;
    for at in 0..log.len().saturating_add(3) as u64 {
        let mut room = [b'.'; 64];
        let (report, taken) = written(alloc, log, &lengths, at, &mut room);
        if judged(alloc, log, &lengths, at) == Ok(verdict) {
            is_reached = report == Ok(verdict) && taken == line.len() && room.starts_with(line);
            if !is_reached {
                return Ok(false);
            }
        } else if is_reached || report != Err(JudgeToFault::Pull) || taken != 0 {
            return Ok(false);
        }
    }
    Ok(is_reached)
}

// After each whole line its end is the verdict on the bytes so far, and its answer none up to the first fault, and
// from then on that `no`.
fn by_lines(alloc: Global, log: &[u8]) -> bool {
    let mut judge = Judge::over_pages(alloc);
    let mut first = None;
    let mut lines = 1u64;
    let mut taken = 0;
    for at in 0..log.len() {
        if log[at] == b'\n' {
            let line = line_from(log, taken);
            taken = at + 1;
            lines = lines.saturating_add(1);
            let verdict = judge_bytes(alloc, &log[..taken]).ok();
            if first.is_none() && !goes_on(verdict, lines) {
                first = verdict;
            }
            if judge.take_line(line).is_err()
                || Some(judge.end(&[])) != verdict
                || judge.answer() != first
            {
                return false;
            }
        }
    }
    true
}

// Whether a verdict is a `yes`, or names this line because it is missing.
fn goes_on(verdict: Option<Verdict>, line: u64) -> bool {
    let refusal = Refusal::Truncated;
    match verdict {
        Some(Verdict::Yes { .. }) => true,
        _ => verdict == Some(Verdict::No { line, refusal }),
    }
}

// In two pieces, cut at each place; and each beginning is truncated, in the line that its bytes end in.
fn each_cut(alloc: Global, log: &[u8], verdict: Verdict) -> bool {
    let mut line = 1u64;
    for at in 0..log.len() {
        let refusal = Refusal::Truncated;
        if judge_bytes(alloc, &log[..at]) != Ok(Verdict::No { line, refusal })
            || judged(alloc, log, &[at], NEVER) != Ok(verdict)
        {
            return false;
        }
        if log[at] == b'\n' {
            line = line.saturating_add(1);
        }
    }
    true
}

// Whether any byte that follows a short accepted log is misplaced on the line after the last.
fn longer(alloc: Global, log: &[u8]) -> bool {
    let feeds = log.iter().filter(|byte| **byte == b'\n').count();
    let line = (feeds as u64).saturating_add(1);
    let refusal = Refusal::Misplaced;
    let mut text = [0u8; SHORT];
    let length = log.len();
    if length >= SHORT {
        return false;
    }
    text[..length].copy_from_slice(log);
    for byte in 0..=255u8 {
        text[length] = byte;
        if judge_bytes(alloc, &text[..length + 1]) != Ok(Verdict::No { line, refusal }) {
            return false;
        }
    }
    true
}
