//! The judge of run logs that explains a `no`.

ghost use Rattle.std.specs.Prelude.{◌≡◌, ◌≤◌, ℕ, List, ◌++◌, length, take, Err, OnOk, OnErr, Option};
ghost use Rattle.std.specs.FinMap as map;
ghost use Rattle.cap_streams.specs.declared.judging.judge_faults.JudgeToFault.TheVariants.{Pull, Push};
ghost use Rattle.cap_streams.specs.{FaultLines.bytes_of, Streams.{CountsFault, CountsOnly}};
ghost use Rattle.cap_run.specs.declared.asks.Asks.{Asks as AsksIn};
ghost use Rattle.cap_run_judge.specs.{declared.verdict.RunVerdict.{RunVerdict as RunVerdictIn, TheVariants.No}, Readings.stage_of};
ghost use Rattle.cap_run_judge.specs.{Reports.RunReported, Turns.{unread, run_turns}, VerdictLines.run_verdict_line};
ghost use Rattle.cap_run_report.specs.{Answers.{ExplainsRun, ExplainsRunEnd, ExplainsRunSoFar, IsRunWhyText}, LineReports.IsRunLineReport};
ghost use Rattle.cap_run.specs.Machines.{run_in};
ghost use Rattle.cap_turns.specs.Readings.{Follows};

use crate::line_reports::put_run_report;
use cap_log::buffers::put;
use cap_run::{Asks, RunMachine};
use cap_run_judge::{
    RefusedRunLine, RunJudge, RunJudgeEnd, RunVerdict, judge_run_keeping, push_run_report,
    push_run_verdict, run_verdict_text,
};
use cap_streams::judging::{FaultLine, JudgeToFault};
use cap_streams::{PushFault, Sink, Source, push_all};
use std::alloc::Global;
use tagmem::TaggedStore;

/// Judges as [`judge_run_to`](cap_run_judge::judge_run_to) does, and pushes the line of the verdict; after a `no` also the
/// report of the first fault: its line, and what the run held before it. After a `yes` the owners are pushed if they are
/// asked for.
pub fn judge_run_why<S: Source, M: TaggedStore, K: Sink>(
    source: &mut S,
    memory: M,
    alloc: Global,
    asks: Asks,
    owners: bool,
    sink: &mut K,
) -> Result<RunVerdict, JudgeToFault>
    requires { map.len (M.contents memory) ≡ 0 }
    ensures explained { RunReported asks (ExplainsRun asks owners) S.gave S.ended K.took source.old source.new sink.old sink.new result }

    // Each fault of the source or the sink ends the call, and nothing else counts one.
    ensures pulls_counted { CountsOnly (Err Pull) (S.faults source.old) (S.faults source.new) result }
    ensures pushes_counted { CountsOnly (Err Push) (K.faults sink.old) (K.faults sink.new) result }
{
    let RunJudgeEnd {
        answer,
        machine,
        fault,
    } = judge_run_keeping(source, memory, alloc, asks);
    machine.kept();
    let verdict = answer?;
    push_why(owners, &verdict, &machine, &fault, sink)?;
    Ok(verdict)
}

/// Pushes the answer for the lines handed to a judge so far: nothing while none is faulty; otherwise the line of
/// the `no`, and the report of the faulty line. It is what [`judge_run_why`] pushes for these lines, whatever lines
/// follow, and has at most 3,136 bytes.
pub fn push_run_refused<M: TaggedStore, K: Sink>(
    judge: &RunJudge<M>,
    sink: &mut K,
) -> Result<(), PushFault>
    ensures ok { OnOk result ((asks : AsksIn) (bytes : List ℕ) → Follows run_turns (unread asks) bytes (stage_of judge.now) → (verdict : Option RunVerdictIn)
        × (told : List ℕ) × ExplainsRunSoFar asks bytes verdict told × K.took sink.old sink.new told × (length told ≤ 3136)) }
    ensures err { OnErr result ((asks : AsksIn) (bytes : List ℕ) → Follows run_turns (unread asks) bytes (stage_of judge.now) → (verdict : Option RunVerdictIn)
        × (told : List ℕ) × ExplainsRunSoFar asks bytes verdict told × (n : ℕ) × K.took sink.old sink.new (take n told)) }
    ensures counted { CountsFault (K.faults sink.old) (K.faults sink.new) result }
{
    match judge.refused() {
        Some(fault) => push_fault(judge.machine(), &fault, sink),
        None => Ok(()),
    }
}

/// Pushes the answer for the lines handed to a judge so far as a whole run log: the line of the verdict, and after a `no`
/// the report of the faulty line. It is what [`judge_run_why`] pushes for these lines without owners, and has at most 3,136
/// bytes.
pub fn push_run_ending<M: TaggedStore, K: Sink>(
    judge: &RunJudge<M>,
    sink: &mut K,
) -> Result<(), PushFault>
    ensures ok { OnOk result ((asks : AsksIn) (bytes : List ℕ) → Follows run_turns (unread asks) bytes (stage_of judge.now) → (verdict : RunVerdictIn)
        × (told : List ℕ) × ExplainsRunEnd asks bytes verdict told × K.took sink.old sink.new told × (length told ≤ 3136)) }
    ensures err { OnErr result ((asks : AsksIn) (bytes : List ℕ) → Follows run_turns (unread asks) bytes (stage_of judge.now) → (verdict : RunVerdictIn)
        × (told : List ℕ) × ExplainsRunEnd asks bytes verdict told × (n : ℕ) × K.took sink.old sink.new (take n told)) }
    ensures counted { CountsFault (K.faults sink.old) (K.faults sink.new) result }
{
    judge.machine().kept();
    match judge.ending(&[]) {
        Ok(verdict) => push_run_verdict(&verdict, sink),
        Err(fault) => push_fault(judge.machine(), &fault, sink),
    }
}

// Pushes the text of a verdict: after a `yes` with the owners if they are asked for, and after a `no` with the report of
// the line that was refused.
fn push_why<M: TaggedStore, K: Sink>(
    owners: bool,
    verdict: &RunVerdict,
    machine: &RunMachine<M>,
    fault: &FaultLine,
    sink: &mut K,
) -> Result<(), PushFault>
    ensures ok { OnOk result ((told : List ℕ) × IsRunWhyText owners (run_in machine.now) (bytes_of fault.now) verdict.now told
        × K.took sink.old sink.new told) }
    ensures err { OnErr result ((told : List ℕ) × IsRunWhyText owners (run_in machine.now) (bytes_of fault.now) verdict.now told
        × (n : ℕ) × K.took sink.old sink.new (take n told)) }
    ensures counted { CountsFault (K.faults sink.old) (K.faults sink.new) result }
{
    match *verdict {
        RunVerdict::Yes { .. } => push_run_report(owners, verdict, machine, sink),
        RunVerdict::No { line, refusal } => {
            let refused = RefusedRunLine {
                line,
                refusal,
                text: *fault,
            };
            push_fault(machine, &refused, sink)
        }
    }
}

// Pushes the line of the `no` for a faulty line, and its report.
fn push_fault<M: TaggedStore, K: Sink>(
    machine: &RunMachine<M>,
    fault: &RefusedRunLine,
    sink: &mut K,
) -> Result<(), PushFault>
    ensures ok { OnOk result ((report : List ℕ)
        × IsRunLineReport (run_in machine.now) fault.now.line (bytes_of fault.now.text) fault.now.refusal report
        × K.took sink.old sink.new (run_verdict_line (No fault.now.line fault.now.refusal) ++ report)
        × (length (run_verdict_line (No fault.now.line fault.now.refusal) ++ report) ≤ 3136)) }
    ensures err { OnErr result ((report : List ℕ)
        × IsRunLineReport (run_in machine.now) fault.now.line (bytes_of fault.now.text) fault.now.refusal report
        × (n : ℕ) × K.took sink.old sink.new (take n (run_verdict_line (No fault.now.line fault.now.refusal) ++ report))) }
    ensures counted { CountsFault (K.faults sink.old) (K.faults sink.new) result }
{
    let mut text = [0u8; 3136];
    let mut line = [0u8; 64];
    let length = run_verdict_text(&fault.verdict(), &mut line);
    let at = put(&mut text, 0, &line[..length]);
    let end = put_run_report(machine, fault, &mut text, at);
    push_all(sink, &text[..end])
}
