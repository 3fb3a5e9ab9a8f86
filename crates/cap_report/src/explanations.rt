//! The judge that explains a `no`: what the machine held before the line that was refused.

ghost use Rattle.std.specs.Prelude.{◌≡◌, ◌≢◌, ◌↔◌, ◌≤◌, ℕ, Bool, List, ◌++◌, length, take, true, Err, Option, IfOk, OnOk};
ghost use Rattle.std.specs.Prelude.{OnErr};
ghost use Rattle.std.specs.FinMap as map;
ghost use Rattle.cap_streams.specs.{declared.judging.judge_faults.JudgeToFault.TheVariants.{NoMemory, Pull, Push}, FaultLines.bytes_of};
ghost use Rattle.cap_streams.specs.{Front.IsCut, Streams.{CountsFault, CountsOnly}};
ghost use Rattle.cap_streams.specs.declared.judging.judge_faults.JudgeFault.TheVariants as judge_faults;
ghost use Rattle.cap_machine.specs.Helds.{account_of};
ghost use Rattle.cap_judge.specs.{declared.verdict.Verdict.{Verdict, TheVariants.No}, Readings.HasRead};
ghost use Rattle.cap_judge.specs.{Judgings.{IsAnswerOf, LeadsAfter, StopsIn}, Logs.LacksRoom};
ghost use Rattle.cap_judge.specs.{Reports.{IsPushedFor, Reported}, VerdictLines.verdict_line, Verdicts.NamesEscapes};
ghost use Rattle.cap_report.specs.{FaultReports.IsLineReport, Whys.{Explains, ExplainsEnd, ExplainsSoFar, IsWhyText}};

use crate::fault_reports::put_report;
use cap_judge::{
    FaultLine, Judge, JudgeEnd, JudgeToFault, Verdict, judge_bytes_keeping, judge_keeping,
    push_report, push_verdict, verdict_text,
};
use cap_log::buffers::put;
use cap_log::{PushFault, Sink, Source, push_all};
use cap_machine::{Machine, Refusal};
use std::alloc::Global;
use tagmem::{PageStore, TaggedStore};

/// Judges the bytes that a source gives, pushes the line of the verdict, and after a `no` the report of the
/// first fault: its line, and what the machine held before it and the rules would have given. After a `yes`
/// the origins are pushed if they are asked for, as by `judge_origins`.
pub fn judge_why<S: Source, K: Sink>(
    alloc: Global,
    origins: bool,
    source: &mut S,
    sink: &mut K,
) -> Result<Verdict, JudgeToFault>
    ensures explained { Reported (Explains origins) S.gave S.ended K.took source.old source.new sink.old sink.new result }

    // Whatever bytes it is the verdict of, a `no` names `BoundsEscape` exactly as `judge_bytes` says.
    ensures escape { IfOk result NamesEscapes }

    // Each fault of the source or the sink ends the call, and nothing else counts one.
    ensures pulls_counted { CountsOnly (Err Pull) (S.faults source.old) (S.faults source.new) result }
    ensures pushes_counted { CountsOnly (Err Push) (K.faults sink.old) (K.faults sink.new) result }
{
    push_judging(&judge_keeping(source, PageStore::new(alloc)), origins, sink)
}

/// Judges the bytes of a log as [`judge_why`] does those of a source, with the granules in a store that is empty. They
/// are judged where they lie, so no room on the stack is taken for a piece of them.
pub fn judge_why_bytes<M: TaggedStore, K: Sink>(
    origins: bool,
    bytes: &[u8],
    memory: M,
    sink: &mut K,
) -> Result<Verdict, JudgeToFault>
    requires { map.len (M.contents memory) ≡ 0 }
    ensures explained { IsPushedFor (Explains origins bytes.now true) bytes.now true (K.took sink.old sink.new) result }
    ensures pulls_nothing { result ≢ Err Pull }

    // There is no verdict only if at least as many granules were named as surely have room.
    ensures full { result ≡ Err NoMemory → LacksRoom (M.least_room memory) bytes.now }
    ensures escape { IfOk result NamesEscapes }
    ensures pushes_counted { CountsOnly (Err Push) (K.faults sink.old) (K.faults sink.new) result }
{
    push_judging(&judge_bytes_keeping(bytes, memory), origins, sink)
}

/// Pushes the answer for the lines handed to a judge so far: nothing while none is faulty; otherwise the line of
/// the `no`, and the diagnosis of the faulty line. It is what [`judge_why`] pushes for these lines, whatever lines
/// follow, and has at most 3,136 bytes.
pub fn push_refused<M: TaggedStore, K: Sink>(
    judge: &Judge<M>,
    sink: &mut K,
) -> Result<(), PushFault>
    ensures ok { OnOk result ((bytes : List ℕ) → HasRead judge.now bytes → (verdict : Option Verdict)
        × (told : List ℕ) × ExplainsSoFar bytes verdict told × K.took sink.old sink.new told × (length told ≤ 3136)) }
    ensures err { OnErr result ((bytes : List ℕ) → HasRead judge.now bytes → (verdict : Option Verdict)
        × (told : List ℕ) × ExplainsSoFar bytes verdict told × (n : ℕ) × K.took sink.old sink.new (take n told)) }
    ensures counted { CountsFault (K.faults sink.old) (K.faults sink.new) result }
{
    match judge.refused() {
        Some(fault) => push_fault(
            judge.machine(),
            fault.line,
            fault.refusal,
            &fault.text,
            sink,
        ),
        None => Ok(()),
    }
}

/// Pushes the answer for the lines handed to a judge so far, if only these bytes follow, which are less than a line:
/// the line of the verdict, and after a `no` the diagnosis of the faulty line. It is what [`judge_why`] pushes for
/// these bytes without origins, and has at most 3,136 bytes.
pub fn push_ending<M: TaggedStore, K: Sink>(
    judge: &Judge<M>,
    rest: &[u8],
    sink: &mut K,
) -> Result<(), PushFault>
    ensures ok { OnOk result ((bytes : List ℕ) → HasRead judge.now bytes → IsCut rest.now → (verdict : Verdict)
        × (told : List ℕ) × ExplainsEnd (bytes ++ rest.now) verdict told × K.took sink.old sink.new told × (length told ≤ 3136)) }
    ensures err { OnErr result ((bytes : List ℕ) → HasRead judge.now bytes → IsCut rest.now → (verdict : Verdict)
        × (told : List ℕ) × ExplainsEnd (bytes ++ rest.now) verdict told × (n : ℕ) × K.took sink.old sink.new (take n told)) }
    ensures counted { CountsFault (K.faults sink.old) (K.faults sink.new) result }
{
    match judge.ending(rest) {
        Ok(verdict) => push_verdict(&verdict, sink),
        Err(fault) => push_fault(
            judge.machine(),
            fault.line,
            fault.refusal,
            &fault.text,
            sink,
        ),
    }
}

// Pushes the line of the `no` for a faulty line, and its diagnosis.
fn push_fault<M: TaggedStore, K: Sink>(
    machine: &Machine<M>,
    line: u64,
    refusal: Refusal,
    text: &FaultLine,
    sink: &mut K,
) -> Result<(), PushFault>
    ensures ok { OnOk result ((report : List ℕ)
        × IsLineReport (account_of machine.now) (bytes_of text.now) refusal report
        × K.took sink.old sink.new (verdict_line (No line refusal) ++ report)
        × (length (verdict_line (No line refusal) ++ report) ≤ 3136)) }
    ensures err { OnErr result ((report : List ℕ)
        × IsLineReport (account_of machine.now) (bytes_of text.now) refusal report
        × (n : ℕ) × K.took sink.old sink.new (take n (verdict_line (No line refusal) ++ report))) }
    ensures counted { CountsFault (K.faults sink.old) (K.faults sink.new) result }
{
    let mut told = [0u8; 3136];
    let mut first = [0u8; 64];
    let length = verdict_text(&Verdict::No { line, refusal }, &mut first);
    let at = put(&mut told, 0, &first[..length]);
    let end = put_report(machine, text, refusal, &mut told, at);
    push_all(sink, &told[..end])
}

// Pushes the text of what a judge leaves, if it has a verdict.
fn push_judging<M: TaggedStore, K: Sink>(
    judging: &JudgeEnd<M>,
    origins: bool,
    sink: &mut K,
) -> Result<Verdict, JudgeToFault>
    ensures explained { (bytes : List ℕ) (ended : Bool)
        → IsAnswerOf bytes ended judging.now.answer → IfOk judging.now.answer (LeadsAfter bytes judging.now.machine)
        → IfOk judging.now.answer (StopsIn bytes ended judging.now.machine (bytes_of judging.now.fault))
        → IsPushedFor (Explains origins bytes ended) bytes ended (K.took sink.old sink.new) result }
    ensures pulls { (result ≡ Err Pull) ↔ (judging.now.answer ≡ Err judge_faults.Pull) }
    ensures lacks { result ≡ Err NoMemory → judging.now.answer ≡ Err judge_faults.NoMemory }
    ensures pushes_counted { CountsOnly (Err Push) (K.faults sink.old) (K.faults sink.new) result }
{
    judging.machine.kept();
    let verdict = judging.answer?;
    push_why(&verdict, origins, &judging.machine, &judging.fault, sink)?;
    Ok(verdict)
}

// Pushes the text of a verdict: after a `yes` with the origins if they are asked for, and after a `no` with
// the report of the line that was refused.
fn push_why<M: TaggedStore, K: Sink>(
    verdict: &Verdict,
    origins: bool,
    machine: &Machine<M>,
    fault: &FaultLine,
    sink: &mut K,
) -> Result<(), PushFault>
    ensures ok { OnOk result ((told : List ℕ)
        × IsWhyText origins machine.now (bytes_of fault.now) verdict.now told
        × K.took sink.old sink.new told) }
    ensures err { OnErr result ((told : List ℕ)
        × IsWhyText origins machine.now (bytes_of fault.now) verdict.now told
        × (n : ℕ) × K.took sink.old sink.new (take n told)) }
    ensures counted { CountsFault (K.faults sink.old) (K.faults sink.new) result }
{
    match *verdict {
        Verdict::Yes { .. } => {
            if origins {
                push_report(verdict, machine, sink)
            } else {
                push_verdict(verdict, sink)
            }
        }
        Verdict::No { line, refusal } => push_fault(machine, line, refusal, fault, sink),
    }
}
