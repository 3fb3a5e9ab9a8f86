//! Judging the bytes of a slice, and those that a source gives.

ghost use Rattle.std.specs.Prelude.{◌≡◌, ◌≤◌, ℕ, List, [], ◌++◌, Err, IfOk, IfErr};
ghost use Rattle.std.specs.FinMap as map;
ghost use Rattle.cap_streams.specs.{declared.judging.judge_faults.JudgeFault.TheVariants.Pull, FaultLines.bytes_of};
ghost use Rattle.cap_streams.specs.{ReadBuffers.items, Streams.CountsOnly};
ghost use Rattle.cap_run_judge.specs.{Judgings.{Judged, JudgedBy}, Turns.{unread, run_turns}};
ghost use Rattle.cap_run_judge.specs.{Verdicts.{IsRunGuarded, IsRunVerdict, NoRunVerdictIn}, Readings.{IsAnswered, stage_of}};
ghost use Rattle.cap_run.specs.Machines.{run_in};
ghost use Rattle.cap_turns.specs.{Readings.StopsAt, Turns.lines_read};

use crate::faults::RefusedRunLine;
use crate::judges::RunJudge;
use crate::verdict::RunVerdict;
use cap_run::{Asks, RunMachine};
use cap_streams::judging::{FaultLine, JudgeFault};
use cap_streams::{PullFault, ReadBuffer, SliceSource, Source};
use cap_turns::Stop;
use std::alloc::Global;
use tagmem::{PageStore, TaggedStore};

/// Judges the bytes of a run log. It is `Yes` exactly for a run log of whose lines no check fails, and otherwise `No`
/// with the first faulty line. After each line no address lies in what capabilities of two objects reach; without
/// [`Asks::held`], in what those of two live objects reach.
pub fn judge_run_bytes(alloc: Global, asks: Asks, bytes: &[u8]) -> Result<RunVerdict, JudgeFault>
    ensures verdict { IfOk result (IsRunVerdict asks bytes.now) }

    // Along lines that begin a run log, at every moment capabilities stay within their roots, and objects are safe.
    ensures guarded { IsRunGuarded asks bytes.now }

    // There is no verdict only where a line that no check refuses names a granule for the first time, or an object.
    ensures fault { IfErr result (NoRunVerdictIn asks bytes.now) }
{
    judge_run(alloc, asks, &mut SliceSource::new(bytes, &[]))
}

/// Judges the bytes that a source gives, each line as soon as it is there. It is `Yes` exactly where they are a run log
/// of whose lines no check fails and the source has ended, and otherwise `No` with the first faulty line: where the
/// source has not ended, whatever bytes follow.
///
/// `Pull` comes only where the source failed; then the whole lines that it gave begin a run log, and less than a line
/// follows them. `NoMemory` comes only where a line that no check refuses names a granule for the first time, or an
/// object. It returns for a source without end too, since the limits bound the lines of a log.
pub fn judge_run<S: Source>(
    alloc: Global,
    asks: Asks,
    source: &mut S,
) -> Result<RunVerdict, JudgeFault>
    ensures judged { Judged asks S.gave S.ended source.old source.new result }

    // A fault of the source ends the call, and nothing else counts one.
    ensures counted { CountsOnly (Err Pull) (S.faults source.old) (S.faults source.new) result }
{
    judge_run_in(source, PageStore::new(alloc), alloc, asks)
}

/// Judges as [`judge_run`] does, with the granules in a store that is empty.
pub fn judge_run_in<S: Source, M: TaggedStore>(
    source: &mut S,
    memory: M,
    alloc: Global,
    asks: Asks,
) -> Result<RunVerdict, JudgeFault>
    requires { map.len (M.contents memory) ≡ 0 }
    ensures judged { Judged asks S.gave S.ended source.old source.new result }
    ensures counted { CountsOnly (Err Pull) (S.faults source.old) (S.faults source.new) result }
{
    judge_run_keeping(source, memory, alloc, asks).answer
}

/// What a judge leaves: its answer, the machine, and after a `no` the line that was refused.
#[derive(Drop)]
pub struct RunJudgeEnd<M: TaggedStore> {
    /// The answer.
    pub answer: Result<RunVerdict, JudgeFault>,
    /// The machine, as the lines before the end or the refused line left it.
    pub machine: RunMachine<M>,
    /// After a `no`, the line that was refused.
    pub fault: FaultLine,
}

/// Judges as [`judge_run_in`] does, and gives the machine with the answer: after a `yes` it is as the log's lines left
/// it, after a `no` as those before the line left it that was refused, and after a fault as the lines left it that were
/// taken.
pub fn judge_run_keeping<S: Source, M: TaggedStore>(
    source: &mut S,
    memory: M,
    alloc: Global,
    asks: Asks,
) -> RunJudgeEnd<M>
    requires { map.len (M.contents memory) ≡ 0 }
    ensures judged { JudgedBy asks S.gave S.ended source.old source.new result.answer (run_in result.machine) (bytes_of result.fault) }
    ensures counted { CountsOnly (Err Pull) (S.faults source.old) (S.faults source.new) result.answer }
{
    let mut judge = RunJudge::new(alloc, memory, asks);
    let (answer, fault) = judge_source(&mut judge, source);
    let RunJudge { machine, .. } = judge;
    RunJudgeEnd {
        answer,
        machine,
        fault,
    }
}

// Hands over the bytes that a source gives: the answer, and after a `no` the faulty line.
fn judge_source<S: Source, M: TaggedStore>(
    judge: &mut RunJudge<M>,
    source: &mut S,
) -> (Result<RunVerdict, JudgeFault>, FaultLine)
    requires begun { let asks = judge.old.machine.asks in stage_of judge.old ≡ unread asks }
    ensures judged { let asks = judge.old.machine.asks in
        JudgedBy asks S.gave S.ended source.old source.new result.0 (run_in judge.new.machine) (bytes_of result.1) }
    ensures counted { CountsOnly (Err Pull) (S.faults source.old) (S.faults source.new) result.0 }
{
    let mut pulled = ReadBuffer::new();
    'pieces: loop {
        match pulled.fill(source) {
            Ok(0) => return answered(judge.ending(pulled.as_slice())),
            Ok(_) => {}
            Err(PullFault) => return (Err(JudgeFault::Pull), FaultLine::new()),
        }
        match take_pulled(judge, &mut pulled) {
            Stop::Cut => {}
            Stop::Fault => return answered(judge.ending(&[])),
            Stop::NoMemory => return (Err(JudgeFault::NoMemory), FaultLine::new()),
        }
    }
}

// Hands over the bytes that were pulled, and keeps those that were not taken.
fn take_pulled<M: TaggedStore>(judge: &mut RunJudge<M>, pulled: &mut ReadBuffer) -> Stop
    ensures taken { (front : List ℕ) × (items pulled.old ≡ front ++ items pulled.new)
        × StopsAt run_turns (stage_of judge.old) front (items pulled.new) result (stage_of judge.new) }
    ensures few { lines_read run_turns (stage_of judge.new) ≤ 12884901900 }
{
    let taken = judge.take(pulled.as_slice());
    pulled.consume(taken.count);
    judge.counted();
    taken.stop
}

// A `yes`, or a `no` and its line.
fn answered(end: Result<RunVerdict, RefusedRunLine>) -> (Result<RunVerdict, JudgeFault>, FaultLine)
    ensures { IsAnswered end result.0 (bytes_of result.1) }
{
    match end {
        Ok(verdict) => (Ok(verdict), FaultLine::new()),
        Err(fault) => (Ok(fault.verdict()), fault.text),
    }
}
