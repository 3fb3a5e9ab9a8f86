//! Judging the bytes of a slice, and those that a source gives.

ghost use Rattle.std.specs.Prelude.{◌≡◌, ℕ, List, [], ◌++◌, Err, IsOk, IfOk, IfErr};
ghost use Rattle.std.specs.FinMap as map;
ghost use Rattle.cap_streams.specs.{declared.judging.judge_faults.JudgeFault.TheVariants.{NoMemory, Pull}, FaultLines.bytes_of};
ghost use Rattle.cap_streams.specs.{ReadBuffers.items, Streams.CountsOnly};
ghost use Rattle.cap_judge.specs.{Judgings.{Judged, JudgedAll, JudgedBy}, Logs.{LacksRoom, NamesNoGranules}};
ghost use Rattle.cap_judge.specs.{Readings.{IsAnswered, room_of, stage_of}, Turns.{unread, log_turns}};
ghost use Rattle.cap_judge.specs.Verdicts.{EscapesExactly, NoVerdictIn, IsGuarded, IsVerdict, NamesEscapes};
ghost use Rattle.cap_turns.specs.Readings.{StopsAt};

use crate::faults::RefusedLine;
use crate::judges::Judge;
use crate::verdict::Verdict;
use cap_log::{PullFault, SliceSource, Source};
use cap_machine::Machine;
use cap_streams::ReadBuffer;
use cap_streams::judging::{FaultLine, JudgeFault};
use cap_turns::Stop;
use std::alloc::Global;
use tagmem::{PageStore, TaggedStore};

/// Judges the bytes of a log. It is `Yes` exactly for a log whose steps have a run from its roots, and
/// otherwise `No` with the first fault. Memory is taken only where a line names a granule for the first
/// time; `NoMemory` comes only there.
///
/// ```rust
/// let verdict = judge_bytes(alloc, b"capcheck 1\nend 0\n");
/// assert_eq!(rt; verdict, Ok(Verdict::Yes { steps: 0, roots: 0 }));
/// ```
pub fn judge_bytes(alloc: Global, bytes: &[u8]) -> Result<Verdict, JudgeFault>
    ensures verdict { IfOk result (IsVerdict bytes.now) }

    // After a `yes`, at every moment each tagged capability in a register or memory has bounds inside and
    // permissions among those of the one root that it descends from, and each access lies inside them.
    ensures authority { IsGuarded bytes.now }

    // A `no` names `BoundsEscape` exactly where its line is a step that asks, by strict rules, for bounds beyond
    // those of its tagged, unsealed source, before any rounding.
    ensures escape { IfOk result (EscapesExactly bytes.now) }

    // There is no verdict only where a line that no check refuses names a granule for the first time.
    ensures fault { IfErr result (NoVerdictIn bytes.now) }
    ensures answers { NamesNoGranules bytes.now → IsOk result }
{
    judge(alloc, &mut SliceSource::new(bytes, &[]))
}

/// Judges the bytes that a source gives, each line as soon as it is there. It is `Yes` exactly where they
/// are a log whose steps have a run from its roots and the source has ended, and otherwise `No` with the
/// first fault: where the source has not ended, whatever bytes follow.
///
/// `Pull` comes only where the source failed; then the whole lines that it gave begin a log, and less than
/// a line follows them. Memory is taken only where a line names a granule for the first time; `NoMemory`
/// comes only there. It returns for a source without end too, since the limits bound the lines of a log.
pub fn judge<S: Source>(alloc: Global, source: &mut S) -> Result<Verdict, JudgeFault>
    ensures judged { Judged S.gave S.ended source.old source.new result }

    // Whatever bytes it is the verdict of, a `no` names `BoundsEscape` exactly as `judge_bytes` says.
    ensures escape { IfOk result NamesEscapes }

    // A fault of the source ends the call, and nothing else counts one.
    ensures counted { CountsOnly (Err Pull) (S.faults source.old) (S.faults source.new) result }
{
    judge_in(source, PageStore::new(alloc))
}

/// Judges as [`judge`] does, with the granules in a store that is empty.
pub fn judge_in<S: Source, M: TaggedStore>(source: &mut S, memory: M) -> Result<Verdict, JudgeFault>
    requires { map.len (M.contents memory) ≡ 0 }
    ensures judged { Judged S.gave S.ended source.old source.new result }
    ensures escape { IfOk result NamesEscapes }
    ensures counted { CountsOnly (Err Pull) (S.faults source.old) (S.faults source.new) result }
{
    judge_keeping(source, memory).answer
}

/// What a judge leaves: its answer, the machine, and after a `no` the line that was refused.
#[derive(Drop)]
pub struct JudgeEnd<M: TaggedStore> {
    /// The answer.
    pub answer: Result<Verdict, JudgeFault>,
    /// The machine, as the lines before the end or the refused line left it.
    pub machine: Machine<M>,
    /// After a `no`, the line that was refused.
    pub fault: FaultLine,
}

/// Judges as [`judge_in`] does, and gives the machine with the answer: after a `yes` it is as the log's steps
/// left it, and after a `no` as those before the line left it that was refused.
pub fn judge_keeping<S: Source, M: TaggedStore>(source: &mut S, memory: M) -> JudgeEnd<M>
    requires { map.len (M.contents memory) ≡ 0 }
    ensures judged { JudgedBy S.gave S.ended source.old source.new result.answer result.machine (bytes_of result.fault) }
    ensures counted { CountsOnly (Err Pull) (S.faults source.old) (S.faults source.new) result.answer }
{
    let mut judge = Judge::new(memory);
    let (answer, fault) = judge_source(&mut judge, source);
    let Judge { machine, .. } = judge;
    JudgeEnd {
        answer,
        machine,
        fault,
    }
}

/// Judges the bytes of a log as [`judge_bytes`] does, with the granules in a store that is empty,
/// and gives the machine with the answer, as [`judge_keeping`] does.
pub fn judge_bytes_keeping<M: TaggedStore>(bytes: &[u8], memory: M) -> JudgeEnd<M>
    requires { map.len (M.contents memory) ≡ 0 }
    ensures judged { JudgedAll bytes.now result.answer result.machine (bytes_of result.fault) }

    // There is no verdict only where at least as many granules were named as surely have room.
    ensures full { result.answer ≡ Err NoMemory → LacksRoom (M.least_room memory) bytes.now }
{
    let mut judge = Judge::new(memory);
    let (answer, fault) = judge_all(&mut judge, bytes);
    let Judge { machine, .. } = judge;
    JudgeEnd {
        answer,
        machine,
        fault,
    }
}

// Hands over all the bytes of a log: the answer, and after a `no` the faulty line.
fn judge_all<M: TaggedStore>(
    judge: &mut Judge<M>,
    bytes: &[u8],
) -> (Result<Verdict, JudgeFault>, FaultLine)
    requires begun { stage_of judge.old ≡ unread }
    ensures judged { JudgedAll bytes.now result.0 judge.new.machine (bytes_of result.1) }
    ensures full { result.0 ≡ Err NoMemory → LacksRoom (room_of judge.old) bytes.now }
{
    let taken = judge.take(bytes);
    match taken.stop {
        Stop::Cut => answered(judge.ending(&bytes[taken.count..])),
        Stop::Fault => answered(judge.ending(&[])),
        Stop::NoMemory => (Err(JudgeFault::NoMemory), FaultLine::new()),
    }
}

// Hands over the bytes that a source gives: the answer, and after a `no` the faulty line.
fn judge_source<S: Source, M: TaggedStore>(
    judge: &mut Judge<M>,
    source: &mut S,
) -> (Result<Verdict, JudgeFault>, FaultLine)
    requires begun { stage_of judge.old ≡ unread }
    ensures judged { JudgedBy S.gave S.ended source.old source.new result.0 judge.new.machine (bytes_of result.1) }
    ensures counted { CountsOnly (Err Pull) (S.faults source.old) (S.faults source.new) result.0 }
{
    let mut pulled = ReadBuffer::new();
    'pieces: loop {
        match pulled.fill(source) {
            Ok(0) => return answered(judge.ending(pulled.as_slice())),
            Ok(_) => {}
            Err(PullFault) => return (Err(JudgeFault::Pull), FaultLine::new()),
        }
        match take_pulled(judge, &mut pulled) {
            Stop::Cut => {}
            Stop::Fault => return answered(judge.ending(&[])),
            Stop::NoMemory => return (Err(JudgeFault::NoMemory), FaultLine::new()),
        }
    }
}

// Hands over the bytes that were pulled, and keeps those that were not taken.
fn take_pulled<M: TaggedStore>(judge: &mut Judge<M>, pulled: &mut ReadBuffer) -> Stop
    ensures { (front : List ℕ) × (items pulled.old ≡ front ++ items pulled.new)
        × StopsAt log_turns (stage_of judge.old) front (items pulled.new) result (stage_of judge.new) }
{
    let taken = judge.take(pulled.as_slice());
    pulled.consume(taken.count);
    taken.stop
}

// A `yes`, or a `no` and its line.
fn answered(end: Result<Verdict, RefusedLine>) -> (Result<Verdict, JudgeFault>, FaultLine)
    ensures { IsAnswered end result.0 (bytes_of result.1) }
{
    match end {
        Ok(verdict) => (Ok(verdict), FaultLine::new()),
        Err(fault) => (Ok(fault.verdict()), fault.text),
    }
}
