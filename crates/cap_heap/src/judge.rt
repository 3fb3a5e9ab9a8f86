//! The judge of an allocator's log.

ghost use Rattle.std.specs.Prelude.{◌≡◌, Err};
ghost use Rattle.cap_streams.specs.{declared.judging.judge_faults.JudgeFault.TheVariants.Pull, FaultLines.bytes_of};
ghost use Rattle.cap_streams.specs.{Streams.CountsOnly, Takings.kept};
ghost use Rattle.cap_heap.specs.{declared.log_parts.LogPart.TheVariants.Start, HeapVerdicts.HeapJudged, Heaps.live_in};
ghost use Rattle.cap_heap.specs.Judgings.{JudgedBy, answer_at, finished_in, refused_in};

use crate::events::EventEnd;
use crate::log_parts::LogPart;
use crate::progress::Progress;
use crate::refusal::HeapRefusal;
use crate::verdict::HeapVerdict;
use cap_log::{Lines, Next, PullFault, Source};
use cap_streams::front;
use cap_streams::judging::{FaultLine, JudgeFault};
use std::alloc::Global;

/// Judges the log of an allocator that a source gives, each line as soon as it is there. It is `Yes` exactly
/// if the bytes are such a log, at each moment of which the rounded bounds of the live objects lie apart
/// from one another and inside the root, and the source has ended. Otherwise it is `No` with the first fault:
/// if the source has not ended, whatever bytes follow.
///
/// Rounding is least, so no choice of capabilities does better: it is `Yes` exactly if to each live object, at
/// each moment, a sound word can be given whose bounds hold it, such that these lie apart and inside the root.
///
/// `Pull` comes only if the source failed; then the whole lines that it gave begin a log, and less than
/// a line follows them. Memory is taken only for an object that is allocated and that no check refuses;
/// `NoMemory` comes only there. It returns for a source without end too, since a log has fewer than 2^32 events.
///
/// ```rust
/// let log = b"heap 1\nroot 0000000000001000 00000000000002000\nend 0\n";
/// let verdict = judge_heap(alloc, &mut SliceSource::new(log, &[]));
/// assert_eq!(rt; verdict, Ok(HeapVerdict::Yes { events: 0, live: 0 }));
/// ```
pub fn judge_heap<S: Source>(alloc: Global, source: &mut S) -> Result<HeapVerdict, JudgeFault>
    ensures judged { HeapJudged S.gave S.ended source.old source.new result }

    // A fault of the source ends the call, and nothing else counts one.
    ensures counted { CountsOnly (Err Pull) (S.faults source.old) (S.faults source.new) result }
{
    judge_lines(&mut Progress::new(alloc), source).0
}

/// Judges the lines that a source gives, none of which was taken: the answer, and after a `no` the faulty line.
pub(crate) fn judge_lines<S: Source>(
    progress: &mut Progress,
    source: &mut S,
) -> (Result<HeapVerdict, JudgeFault>, FaultLine)
    requires { progress.old.stage ≡ Start }
    ensures judged { JudgedBy S.gave S.ended source.old source.new result.0 progress.new (bytes_of result.1) }
    ensures counted { CountsOnly (Err Pull) (S.faults source.old) (S.faults source.new) result.0 }
{
    let mut lines = Lines::new();
    let mut line = 1u64;
    'lines: loop {
        match lines.next(source) {
            Err(PullFault) => return (Err(JudgeFault::Pull), FaultLine::new()),
            Ok(Next::Finished) => return (Ok(finished(progress, line)), FaultLine::new()),
            Ok(Next::Truncated) => {
                let verdict = refused(progress.stage, line, HeapRefusal::Truncated);
                let kept = lines.kept();
                return (Ok(verdict), FaultLine::of_front(front(kept), kept));
            }
            Ok(Next::LineTooLong) => {
                let verdict = refused(progress.stage, line, HeapRefusal::LineTooLong);
                let kept = lines.kept();
                return (Ok(verdict), FaultLine::of_front(front(kept), kept));
            }
            Ok(Next::Line(text)) => {
                if let Err(end) = progress.take_line(text) {
                    return (answer_at(line, end), FaultLine::of_front(front(text), text));
                }
                line += 1;
            }
        }
    }
}

// The verdict if the bytes end at a line's start.
fn finished(progress: &Progress, line: u64) -> HeapVerdict
    ensures { result ≡ finished_in progress.now.stage progress.now.events (live_in progress.now.heap) line }
{
    match progress.stage {
        LogPart::Ended => HeapVerdict::Yes {
            events: progress.events,
            live: progress.heap.live() as u64,
        },
        _ => HeapVerdict::No {
            line,
            refusal: HeapRefusal::Truncated,
        },
    }
}

// The verdict on a line that is too long or cut.
fn refused(stage: LogPart, line: u64, refusal: HeapRefusal) -> HeapVerdict
    ensures { result ≡ refused_in stage line refusal }
{
    match stage {
        LogPart::Ended => HeapVerdict::No {
            line,
            refusal: HeapRefusal::Misplaced,
        },
        _ => HeapVerdict::No { line, refusal },
    }
}

// What a line that is not taken makes the answer.
fn answer_at(line: u64, end: EventEnd) -> Result<HeapVerdict, JudgeFault>
    ensures { result ≡ answer_at line end }
{
    match end {
        EventEnd::Refused(refusal) => Ok(HeapVerdict::No { line, refusal }),
        EventEnd::NoMemory => Err(JudgeFault::NoMemory),
    }
}
