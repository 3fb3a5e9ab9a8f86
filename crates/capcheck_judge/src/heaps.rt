//! The judge of an allocator's log that lies in memory, with its report.

ghost use Rattle.std.specs.Prelude.{◌≡◌, ℕ, List, Option};
ghost use Rattle.cap_heap.specs.declared.verdict.HeapVerdict.{HeapVerdict as VerdictIn};
ghost use Rattle.cap_report.specs.Sinks.{Took};
ghost use Rattle.capcheck_judge.specs.HeapAnswers.{AnswersHeapWhy, IsHeapAnswered, heap_numbers_of, heap_without_verdict};

use cap_heap::{HeapVerdict, judge_heap_to};
use cap_log::SliceSource;
use cap_report::answers::{NO, NO_MEMORY, YES};
use cap_report::texts::TextSink;
use std::alloc::Global;

/// What the judge of allocators' logs answers (in C `capcheck_heap_answer`).
#[repr(C)]
#[derive(Clone, Copy)]
pub struct HeapAnswer {
    /// After a `no` the number of the faulty line, from 1 on, else 0.
    pub line: u64,
    /// After a `yes` how many objects live at the end of the log, else 0.
    pub live: u64,
    /// After a `yes` how many events the log has, else 0.
    pub events: u32,
    /// 1 for a `yes`, 2 for a `no`, and 3 where memory for an object was refused.
    pub state: u8,
    /// After a `no` the number of the refusal, else 0.
    pub refusal: u8,
}

/// What the judge of allocators' logs answers that explains it (in C `capcheck_heap_why`).
#[repr(C)]
#[derive(Clone, Copy)]
pub struct HeapWhy {
    /// The answer.
    pub answer: HeapAnswer,
    /// How many bytes the text has: none without a verdict.
    pub length: u64,
}

/// Judges the bytes of an allocator's log, as `capdiag heap` does, and writes what `capdiag heap --report --why` prints of
/// them: the line of the verdict, and after a `yes` the report of the log, after a `no` the diagnosis of the faulty line.
/// The text stands at the front of its room where it fits. Where it doesn't, the room holds anything, and the length says
/// what is needed. Memory is taken for live objects, and given back before the call ends.
#[unsafe(no_mangle)]
pub extern "C" fn capcheck_heap_judge_why(alloc: Global, bytes: &[u8], text: &mut [u8]) -> HeapWhy
    ensures why { AnswersHeapWhy bytes.now text.old text.new result }
{
    let mut sink = TextSink::new(text);
    let answer = answer_into(alloc, bytes, &mut sink);
    let length = sink.length();
    HeapWhy { answer, length }
}

// Judges the bytes of a log, and pushes the text of the answer.
fn answer_into(alloc: Global, bytes: &[u8], sink: &mut TextSink) -> HeapAnswer
    ensures answer { (verdict : Option VerdictIn) × (text : List ℕ) × IsHeapAnswered bytes.now verdict text result
        × Took sink.old sink.new text }
{
    let mut source = SliceSource::new(bytes, &[]);
    match judge_heap_to(alloc, true, true, &mut source, sink) {
        Ok(verdict) => heap_numbers_of(verdict),
        Err(_) => heap_without_verdict(NO_MEMORY),
    }
}

// A verdict as C gets it.
fn heap_numbers_of(verdict: HeapVerdict) -> HeapAnswer
    ensures value { result ≡ heap_numbers_of verdict }
{
    match verdict {
        HeapVerdict::Yes { events, live } => HeapAnswer {
            events,
            live,
            ..heap_without_verdict(YES)
        },
        HeapVerdict::No { line, refusal } => HeapAnswer {
            line,
            refusal: refusal.number(),
            ..heap_without_verdict(NO)
        },
    }
}

// An answer that is no verdict.
fn heap_without_verdict(state: u8) -> HeapAnswer
    ensures value { result ≡ heap_without_verdict state }
{
    HeapAnswer {
        line: 0,
        live: 0,
        events: 0,
        state,
        refusal: 0,
    }
}
