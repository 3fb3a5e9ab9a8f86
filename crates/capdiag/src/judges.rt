//! Judging an input, and pushing the verdict with what is asked for.

ghost use Rattle.std.specs.Prelude.{◌≡◌, ℕ, List, true, Err};
ghost use Rattle.cap_heap.specs.{HeapVerdicts.IsHeapAnswerOf, VerdictLines.heap_status};
ghost use Rattle.cap_judge.specs.{Judgings.IsAnswerOf, VerdictLines.verdict_status};
ghost use Rattle.cap_report.specs.Whys.{Explains};
ghost use Rattle.cap_program.specs.{Doings.{IsCounted, IsDone}, Judging.{ShowsVerdict, StopsJudging, judged}};
ghost use Rattle.cap_run_judge.specs.{Judgings.IsAnswerOf as IsRunAnswerOf, VerdictLines.run_verdict_status};
ghost use Rattle.cap_run_judge.specs.Reports.{RunReported};
ghost use Rattle.cap_streams.specs.{declared.judging.judge_faults.JudgeToFault.TheVariants.{Pull, Push}, Streams.CountsOnly};
ghost use Rattle.capdiag.specs.Judgings.{ShowsHeap, ShowsRun, TellsAsked, TellsReport, asked_after, asked_line, asks_of};

use crate::orders::{Freed, RunAsked};
use cap_heap::{HeapVerdict, heap_status, judge_heap_to};
use cap_judge::{JudgeToFault, Verdict, verdict_status};
use cap_log::{PushFault, Sink, Source, push_all};
use cap_program::{Fault, fault_of};
use cap_report::judge_why;
use cap_run::Asks;
use cap_run_judge::{RunVerdict, judge_run_to, run_verdict_status};
use cap_run_report::judge_run_why;
use std::alloc::Global;
use tagmem::PageStore;

/// Judges what a source gives, pushes the line of the verdict, after a `no` with the report and after a `yes` with
/// the origins where they are asked for, and answers the status that goes with the verdict.
pub fn explain_source<S: Source, K: Sink>(
    alloc: Global,
    origins: bool,
    source: &mut S,
    sink: &mut K,
) -> Result<u8, Fault>
    ensures done { (given : List ℕ) × S.gave source.old source.new given
        × IsDone (ShowsVerdict verdict_status (IsAnswerOf given (S.ended source.new)) (Explains origins given (S.ended source.new)))
        (StopsJudging (IsAnswerOf given true)) (K.took sink.old sink.new) result }
    ensures read { IsCounted Fault.Read result (S.faults source.old) (S.faults source.new) }
    ensures written { IsCounted Fault.Write result (K.faults sink.old) (K.faults sink.new) }
{
    judged(judge_why(alloc, origins, source, sink))
}

// The status that goes with a verdict, or the fault that came instead.
fn judged(answer: Result<Verdict, JudgeToFault>) -> Result<u8, Fault>
    ensures value { result ≡ judged verdict_status answer }
{
    match answer {
        Ok(verdict) => Ok(verdict_status(&verdict)),
        Err(fault) => Err(fault_of(fault)),
    }
}

/// Judges what a source gives as an allocator's log, pushes the line of the verdict and, where they are asked for,
/// after a `yes` the report of the log and after a `no` that of the line that was refused, and answers the status
/// that goes with the verdict.
pub fn judge_heap_source<S: Source, K: Sink>(
    alloc: Global,
    report: bool,
    why: bool,
    source: &mut S,
    sink: &mut K,
) -> Result<u8, Fault>
    ensures done { (given : List ℕ) × S.gave source.old source.new given
        × IsDone (ShowsHeap report why given (S.ended source.new)) (StopsJudging (IsHeapAnswerOf given true)) (K.took sink.old sink.new) result }
    ensures read { IsCounted Fault.Read result (S.faults source.old) (S.faults source.new) }
    ensures written { IsCounted Fault.Write result (K.faults sink.old) (K.faults sink.new) }
{
    heap_judged(judge_heap_to(alloc, report, why, source, sink))
}

// The status that goes with a verdict, or the fault that came instead.
fn heap_judged(answer: Result<HeapVerdict, JudgeToFault>) -> Result<u8, Fault>
    ensures value { result ≡ judged heap_status answer }
{
    match answer {
        Ok(verdict) => Ok(heap_status(&verdict)),
        Err(fault) => Err(fault_of(fault)),
    }
}

/// What is asked of a run log, as its judge takes it.
pub fn asks_of(run: RunAsked) -> Asks
    ensures value { result ≡ asks_of run }
{
    let (held, used) = match run.freed {
        None | Some(Freed::Held) => (true, false),
        Some(Freed::Used) => (false, true),
        Some(Freed::Both) => (true, true),
    };
    Asks {
        held,
        used,
        owned: run.owned,
    }
}

// The line that says what was asked.
fn asked_line(run: RunAsked) -> &'static [u8]
    ensures line { result.now ≡ asked_line run.freed run.owned }
{
    match (run.freed, run.owned) {
        (None | Some(Freed::Held), false) => b"asked freed held\n",
        (None | Some(Freed::Held), true) => b"asked freed held owned\n",
        (Some(Freed::Used), false) => b"asked freed used\n",
        (Some(Freed::Used), true) => b"asked freed used owned\n",
        (Some(Freed::Both), false) => b"asked freed both\n",
        (Some(Freed::Both), true) => b"asked freed both owned\n",
    }
}

// What follows the report of a verdict: after a `yes` the line that says what was asked, if that is told.
fn asked_after(told: bool, run: RunAsked, verdict: &RunVerdict) -> &'static [u8]
    ensures text { result.now ≡ asked_after told run verdict.now }
{
    match *verdict {
        RunVerdict::Yes { .. } if told => asked_line(run),
        _ => b"",
    }
}

/// Judges what a source gives as a run log, by what is asked of it, pushes the line of the verdict and, where they are asked
/// for, after a `yes` the lines of the present objects and of the places that they own and what was asked, and after a `no` the
/// report of the line that was refused; and answers the status that goes with the verdict.
pub fn judge_run_source<S: Source, K: Sink>(
    alloc: Global,
    run: RunAsked,
    why: bool,
    told: bool,
    source: &mut S,
    sink: &mut K,
) -> Result<u8, Fault>
    ensures done { (given : List ℕ) × S.gave source.old source.new given
        × IsDone (ShowsRun run why told given (S.ended source.new)) (StopsJudging (IsRunAnswerOf (asks_of run) given true)) (K.took sink.old sink.new) result }
    ensures read { IsCounted Fault.Read result (S.faults source.old) (S.faults source.new) }
    ensures written { IsCounted Fault.Write result (K.faults sink.old) (K.faults sink.new) }
{
    run_judged(judge_telling(alloc, run, why, told, source, sink))
}

// Judges what a source gives as a run log, with the reports that are asked for and with what was asked.
fn judge_telling<S: Source, K: Sink>(
    alloc: Global,
    run: RunAsked,
    why: bool,
    told: bool,
    source: &mut S,
    sink: &mut K,
) -> Result<RunVerdict, JudgeToFault>
    ensures reported { RunReported (asks_of run) (TellsAsked run why told) S.gave S.ended K.took source.old source.new sink.old sink.new result }
    ensures pulls_counted { CountsOnly (Err Pull) (S.faults source.old) (S.faults source.new) result }
    ensures pushes_counted { CountsOnly (Err Push) (K.faults sink.old) (K.faults sink.new) result }
{
    match judge_asked(alloc, run, why, source, sink) {
        Ok(verdict) => match push_all(sink, asked_after(told, run, &verdict)) {
            Ok(()) => Ok(verdict),
            Err(PushFault) => Err(JudgeToFault::Push),
        },
        Err(fault) => Err(fault),
    }
}

// Judges what a source gives as a run log, with the reports that are asked for.
fn judge_asked<S: Source, K: Sink>(
    alloc: Global,
    run: RunAsked,
    why: bool,
    source: &mut S,
    sink: &mut K,
) -> Result<RunVerdict, JudgeToFault>
    ensures reported { RunReported (asks_of run) (TellsReport run why) S.gave S.ended K.took source.old source.new sink.old sink.new result }
    ensures pulls_counted { CountsOnly (Err Pull) (S.faults source.old) (S.faults source.new) result }
    ensures pushes_counted { CountsOnly (Err Push) (K.faults sink.old) (K.faults sink.new) result }
{
    let memory = PageStore::new(alloc);
    let asks = asks_of(run);
    if why {
        judge_run_why(source, memory, alloc, asks, run.owners, sink)
    } else {
        judge_run_to(source, memory, alloc, asks, run.owners, sink)
    }
}

// The status that goes with a verdict, or the fault that came instead.
fn run_judged(answer: Result<RunVerdict, JudgeToFault>) -> Result<u8, Fault>
    ensures value { result ≡ judged run_verdict_status answer }
{
    match answer {
        Ok(verdict) => Ok(run_verdict_status(&verdict)),
        Err(fault) => Err(fault_of(fault)),
    }
}
