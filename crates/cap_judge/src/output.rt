//! The judges that write into a sink: the verdict, and the origins of a log's last state.

ghost use Rattle.std.specs.Prelude.{◌≤◌, ℕ, length, take, Err, IfOk, OnOk, OnErr, true, false};
ghost use Rattle.cap_streams.specs.declared.judging.judge_faults.JudgeToFault.TheVariants.{Pull, Push};
ghost use Rattle.cap_streams.specs.Streams.{CountsFault, CountsOnly};
ghost use Rattle.cap_judge.specs.{OriginLists.report_text, Reports.{Reported, Tells}, VerdictLines.verdict_line};
ghost use Rattle.cap_judge.specs.Verdicts.{NamesEscapes};

use crate::origins::push_origins;
use crate::streams::{JudgeEnd, judge_in, judge_keeping};
use crate::verdict::Verdict;
use crate::verdict_lines::verdict_text;
use cap_log::{PushFault, Sink, Source, push_all};
use cap_machine::Machine;
use cap_streams::judging::JudgeToFault;
use std::alloc::Global;
use tagmem::{PageStore, TaggedStore};

/// Judges the bytes that a source gives, and pushes the line of the verdict.
pub fn judge_to<S: Source, K: Sink>(
    alloc: Global,
    source: &mut S,
    sink: &mut K,
) -> Result<Verdict, JudgeToFault>
    ensures reported { Reported (λ bytes _. Tells false bytes) S.gave S.ended K.took source.old source.new sink.old sink.new result }

    // Whatever bytes it is the verdict of, a `no` names `BoundsEscape` exactly as `judge_bytes` says.
    ensures escape { IfOk result NamesEscapes }

    // Each fault of the source or the sink ends the call, and nothing else counts one.
    ensures pulls_counted { CountsOnly (Err Pull) (S.faults source.old) (S.faults source.new) result }
    ensures pushes_counted { CountsOnly (Err Push) (K.faults sink.old) (K.faults sink.new) result }
{
    let verdict = judge_in(source, PageStore::new(alloc))?;
    push_verdict(&verdict, sink)?;
    Ok(verdict)
}

/// Judges as [`judge_to`] does, and after a `yes` pushes a line for each place that is tagged in the last state
/// too, with the place of the one root that it descends from: the registers by number, and then the granules
/// by address. Nothing is pushed before the verdict is known.
pub fn judge_origins<S: Source, K: Sink>(
    alloc: Global,
    source: &mut S,
    sink: &mut K,
) -> Result<Verdict, JudgeToFault>
    ensures reported { Reported (λ bytes _. Tells true bytes) S.gave S.ended K.took source.old source.new sink.old sink.new result }

    // Whatever bytes it is the verdict of, a `no` names `BoundsEscape` exactly as `judge_bytes` says.
    ensures escape { IfOk result NamesEscapes }

    // Each fault of the source or the sink ends the call, and nothing else counts one.
    ensures pulls_counted { CountsOnly (Err Pull) (S.faults source.old) (S.faults source.new) result }
    ensures pushes_counted { CountsOnly (Err Push) (K.faults sink.old) (K.faults sink.new) result }
{
    let JudgeEnd {
        answer,
        machine,
        ..
    } = judge_keeping(source, PageStore::new(alloc));
    machine.kept();
    let verdict = answer?;
    push_report(&verdict, &machine, sink)?;
    Ok(verdict)
}

/// Pushes the line of a verdict, and after a `yes` those of the origins of what the machine holds.
pub fn push_report<M: TaggedStore, K: Sink>(
    verdict: &Verdict,
    machine: &Machine<M>,
    sink: &mut K,
) -> Result<(), PushFault>
    ensures ok { OnOk result (K.took sink.old sink.new (report_text machine.now verdict.now)) }
    ensures err { OnErr result ((n : ℕ) × K.took sink.old sink.new (take n (report_text machine.now verdict.now))) }
    ensures counted { CountsFault (K.faults sink.old) (K.faults sink.new) result }
{
    match *verdict {
        Verdict::Yes { .. } => match push_verdict(verdict, sink) {
            Ok(()) => push_origins(machine, sink),
            Err(PushFault) => Err(PushFault),
        },
        Verdict::No { .. } => push_verdict(verdict, sink),
    }
}

/// Pushes the line of a verdict.
pub fn push_verdict<K: Sink>(verdict: &Verdict, sink: &mut K) -> Result<(), PushFault>
    ensures ok { OnOk result (K.took sink.old sink.new (verdict_line verdict.now)) }
    ensures err { OnErr result ((n : ℕ) × K.took sink.old sink.new (take n (verdict_line verdict.now))) }
    ensures few { length (verdict_line verdict.now) ≤ 64 }
    ensures counted { CountsFault (K.faults sink.old) (K.faults sink.new) result }
{
    let mut text = [0u8; 64];
    let length = verdict_text(verdict, &mut text);
    push_all(sink, &text[..length])
}
