//! The judge that writes into a sink: the verdict, and the objects and owned places of a log's last state.

ghost use Rattle.std.specs.Prelude.{◌≡◌, ◌≤◌, ℕ, length, take, Err, OnOk, OnErr};
ghost use Rattle.std.specs.FinMap as map;
ghost use Rattle.cap_streams.specs.declared.judging.judge_faults.JudgeToFault.TheVariants.{Pull, Push};
ghost use Rattle.cap_streams.specs.Streams.{CountsFault, CountsOnly};
ghost use Rattle.cap_run_judge.specs.{OwnerLists.run_report_text, Reports.{RunReported, TellsRun}, VerdictLines.run_verdict_line};
ghost use Rattle.cap_run.specs.Machines.{run_in};

use crate::owners::push_owners;
use crate::streams::{RunJudgeEnd, judge_run_keeping};
use crate::verdict::RunVerdict;
use crate::verdict_lines::run_verdict_text;
use cap_run::{Asks, RunMachine};
use cap_streams::judging::JudgeToFault;
use cap_streams::{PushFault, Sink, Source, push_all};
use std::alloc::Global;
use tagmem::TaggedStore;

/// Judges as [`judge_run_in`](crate::judge_run_in) does, and pushes the line of the verdict. With `owners`, after a `yes`
/// it also pushes a line for each present object, by number, and one for each place that an object owns: c1 to c31, scr0
/// to scr31, and the granules by address. Nothing is pushed before the verdict is known.
pub fn judge_run_to<S: Source, M: TaggedStore, K: Sink>(
    source: &mut S,
    memory: M,
    alloc: Global,
    asks: Asks,
    owners: bool,
    sink: &mut K,
) -> Result<RunVerdict, JudgeToFault>
    requires { map.len (M.contents memory) ≡ 0 }
    ensures reported { RunReported asks (TellsRun asks owners) S.gave S.ended K.took source.old source.new sink.old sink.new result }

    // Each fault of the source or the sink ends the call, and nothing else counts one.
    ensures pulls_counted { CountsOnly (Err Pull) (S.faults source.old) (S.faults source.new) result }
    ensures pushes_counted { CountsOnly (Err Push) (K.faults sink.old) (K.faults sink.new) result }
{
    let RunJudgeEnd {
        answer,
        machine,
        ..
    } = judge_run_keeping(source, memory, alloc, asks);
    machine.kept();
    let verdict = answer?;
    push_run_report(owners, &verdict, &machine, sink)?;
    Ok(verdict)
}

/// Pushes the line of a verdict, and with `owners`, after a `yes` the lines of the objects and owned places of a machine.
pub fn push_run_report<M: TaggedStore, K: Sink>(
    owners: bool,
    verdict: &RunVerdict,
    machine: &RunMachine<M>,
    sink: &mut K,
) -> Result<(), PushFault>
    ensures ok { OnOk result (K.took sink.old sink.new (run_report_text owners (run_in machine.now) verdict.now)) }
    ensures err { OnErr result ((n : ℕ)
        × K.took sink.old sink.new (take n (run_report_text owners (run_in machine.now) verdict.now))) }
    ensures counted { CountsFault (K.faults sink.old) (K.faults sink.new) result }
{
    if !owners {
        return push_run_verdict(verdict, sink);
    }
    match *verdict {
        RunVerdict::Yes { .. } => match push_run_verdict(verdict, sink) {
            Ok(()) => push_owners(machine, sink),
            Err(PushFault) => Err(PushFault),
        },
        RunVerdict::No { .. } => push_run_verdict(verdict, sink),
    }
}

/// Pushes the line of a verdict.
pub fn push_run_verdict<K: Sink>(verdict: &RunVerdict, sink: &mut K) -> Result<(), PushFault>
    ensures ok { OnOk result (K.took sink.old sink.new (run_verdict_line verdict.now)) }
    ensures err { OnErr result ((n : ℕ) × K.took sink.old sink.new (take n (run_verdict_line verdict.now))) }
    ensures few { length (run_verdict_line verdict.now) ≤ 64 }
    ensures counted { CountsFault (K.faults sink.old) (K.faults sink.new) result }
{
    let mut text = [0u8; 64];
    let length = run_verdict_text(verdict, &mut text);
    push_all(sink, &text[..length])
}
