//! The judge that writes its verdict into a sink.

ghost use Rattle.std.specs.Prelude.{◌≤◌, take, Err};
ghost use Rattle.cap_streams.specs.{declared.judging.judge_faults.JudgeToFault.TheVariants.{Pull, Push}, FaultLines.bytes_of};
ghost use Rattle.cap_streams.specs.Streams.{CountsOnly};
ghost use Rattle.cap_heap.specs.{Texts.IsText, VerdictLines.Told};

use crate::judge::judge_lines;
use crate::progress::Progress;
use crate::report::put_report;
use crate::verdict::HeapVerdict;
use crate::verdict_lines::heap_text;
use crate::whys::put_details;
use cap_log::buffers::put;
use cap_log::{Sink, Source, push_all};
use cap_streams::judging::{FaultLine, JudgeToFault};
use cap_texts::shown_bytes::put_shown_line;
use std::alloc::Global;

/// Judges the log of an allocator that a source gives as [`judge_heap`](crate::judge_heap) does, and pushes the line
/// of the verdict. If it is asked for, after a `yes` it also pushes the report: how many objects were allocated, what
/// their bounds reach, and what exact ones would cost; and after a `no` the diagnosis of the faulty line: of a request
/// its bounds, those of a live object that overlaps it, and what length and alignment would be right.
pub fn judge_heap_to<S: Source, K: Sink>(
    alloc: Global,
    report: bool,
    why: bool,
    source: &mut S,
    sink: &mut K,
) -> Result<HeapVerdict, JudgeToFault>
    ensures told { Told report why S.gave S.ended K.took source.old source.new sink.old sink.new result }

    // Each fault of the source or the sink ends the call, and nothing else counts one.
    ensures pulls_counted { CountsOnly (Err Pull) (S.faults source.old) (S.faults source.new) result }
    ensures pushes_counted { CountsOnly (Err Push) (K.faults sink.old) (K.faults sink.new) result }
{
    let mut progress = Progress::new(alloc);
    let (answer, line) = judge_lines(&mut progress, source);
    let verdict = answer?;
    let mut text = [0u8; 1280];
    let end = put_text(report, why, &verdict, &progress, &line, &mut text);
    push_all(sink, &text[..end])?;
    Ok(verdict)
}

// Writes the text of a verdict at the front of a buffer, and answers its length.
fn put_text(
    report: bool,
    why: bool,
    verdict: &HeapVerdict,
    progress: &Progress,
    line: &FaultLine,
    buffer: &mut [u8; 1280],
) -> usize
    ensures text { IsText report why progress.now (bytes_of line.now) verdict.now (take result buffer.new) }
    ensures fits { result ≤ 1280 }
{
    let mut front = [0u8; 64];
    let length = heap_text(verdict, &mut front);
    let at = put(buffer, 0, &front[..length]);
    match *verdict {
        HeapVerdict::Yes { .. } => {
            if report {
                put_report(&progress.report, buffer, at)
            } else {
                at
            }
        }
        HeapVerdict::No { refusal, .. } => {
            if why {
                let at = put_shown_line(buffer, at, line.as_slice());
                put_details(progress, line.as_slice(), refusal, buffer, at)
            } else {
                at
            }
        }
    }
}
