//! Judging an input, and pushing what is shown of the report.

ghost use Rattle.std.specs.Prelude.{◌≡◌, ℕ, List, option_map, true};
ghost use Rattle.cap_program.specs.Doings.{IsCounted, IsDone};
ghost use Rattle.capdiag.specs.{Files.told_name, Forms.is_kept, Judgings.{ShowsJudged, StopsJudged, kind_of}, Renderings.{Lacks, Renders, name_of}};

use crate::forms::{Form, Look, is_json, is_kept, push_report};
use crate::judges::{explain_source, judge_heap_source, judge_run_source};
use crate::orders::Judging;
use cap_context::{Kept, Recorder};
use cap_json::LogKind;
use cap_log::{Sink, Source, WriteSink};
use cap_program::Fault;
use std::alloc::Global;

/// The name that is shown of a file, if there are more, and in an object of JSON if there is one: that of standard input is
/// `-`.
pub fn name_of<'a>(look: Look, files: usize, file: Option<&'a str>) -> Option<&'a str>
    ensures value { option_map (λ it. it.now) result ≡ name_of look files (option_map (λ it. it.now) file.entry) }
{
    if files > 1 || (is_json(look) && files > 0) {
        Some(file.unwrap_or("-"))
    } else {
        None
    }
}

/// The name that a fault of reading has of its input, if the words name one: that of standard input is `-`.
pub fn told_name<'a>(files: usize, file: Option<&'a str>) -> Option<&'a str>
    ensures value { option_map (λ it. it.now) result ≡ told_name files (option_map (λ it. it.now) file.entry) }
{
    if files > 0 {
        Some(file.unwrap_or("-"))
    } else {
        None
    }
}

// The kind of the log that is judged.
fn kind_of(judging: Judging) -> LogKind
    ensures value { result ≡ kind_of judging }
{
    match judging {
        Judging::Why { .. } => LogKind::Machine,
        Judging::Heap { .. } => LogKind::Heap,
        Judging::Run { .. } => LogKind::Run,
    }
}

// Judges what a source gives.
fn judge_source<S: Source, K: Sink>(
    alloc: Global,
    judging: Judging,
    source: &mut S,
    sink: &mut K,
) -> Result<u8, Fault>
    ensures done { (given : List ℕ) × S.gave source.old source.new given
        × IsDone (ShowsJudged judging given (S.ended source.new)) (StopsJudged judging given) (K.took sink.old sink.new) result }
    ensures read { IsCounted Fault.Read result (S.faults source.old) (S.faults source.new) }
    ensures written { IsCounted Fault.Write result (K.faults sink.old) (K.faults sink.new) }
{
    match judging {
        Judging::Why { origins, .. } => explain_source(alloc, origins, source, sink),
        Judging::Heap { report, why } => judge_heap_source(alloc, report, why, source, sink),
        Judging::Run { run, why, told } => judge_run_source(alloc, run, why, told, source, sink),
    }
}

// Judges what a source gives, keeps the report, and pushes what is shown of it.
fn judge_kept<S: Source, K: Sink>(
    alloc: Global,
    judging: Judging,
    form: Form,
    name: Option<&str>,
    source: &mut S,
    sink: &mut K,
) -> Result<u8, Fault>
    ensures done { (given : List ℕ) × S.gave source.old source.new given
        × IsDone (Renders form (option_map (λ it. it.now) name.entry) (kind_of judging) given (ShowsJudged judging given (S.ended source.new)))
        (Lacks true (ShowsJudged judging given) (StopsJudged judging given)) (K.took sink.old sink.new) result }
    ensures read { IsCounted Fault.Read result (S.faults source.old) (S.faults source.new) }
    ensures written { IsCounted Fault.Write result (K.faults sink.old) (K.faults sink.new) }
{
    let mut report = Vec::new(alloc);
    let mut kept = Kept::new(alloc, form.context);
    let mut recorder = Recorder::new(source, &mut kept);
    let done = judge_source(
        alloc,
        judging,
        &mut recorder,
        &mut WriteSink::new(&mut report),
    );
    push_report(
        alloc,
        form,
        name,
        kind_of(judging),
        done,
        report,
        &kept,
        sink,
    )
}

/// Judges what a source gives, one of so many files, pushes what is shown of the line of the verdict and of the reports that are
/// asked for, and answers the status that goes with the verdict.
pub fn judge_as<S: Source, K: Sink>(
    alloc: Global,
    judging: Judging,
    form: Form,
    file: Option<&str>,
    files: usize,
    source: &mut S,
    sink: &mut K,
) -> Result<u8, Fault>
    ensures done { (given : List ℕ) × S.gave source.old source.new given
        × IsDone (Renders form (name_of form.look files (option_map (λ it. it.now) file.entry)) (kind_of judging) given (ShowsJudged judging given (S.ended source.new)))
        (Lacks (is_kept form (name_of form.look files (option_map (λ it. it.now) file.entry))) (ShowsJudged judging given) (StopsJudged judging given)) (K.took sink.old sink.new) result }
    ensures read { IsCounted Fault.Read result (S.faults source.old) (S.faults source.new) }
    ensures written { IsCounted Fault.Write result (K.faults sink.old) (K.faults sink.new) }
{
    let name = name_of(form.look, files, file);
    if is_kept(form, name) {
        judge_kept(alloc, judging, form, name, source, sink)
    } else {
        judge_source(alloc, judging, source, sink)
    }
}
