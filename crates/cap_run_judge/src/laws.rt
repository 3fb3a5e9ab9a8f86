//! Laws of run logs and their verdicts: functions that do nothing, and whose contracts are the laws.

ghost use Rattle.std.specs.Prelude.{◌≡◌, ◌-◌, ◌++◌, ℕ, Bool, List, [], codes, true};
ghost use Rattle.cap_streams.specs.Front.{IsCut};
ghost use Rattle.cap_judge.specs.{Verdicts.IsVerdict, declared.verdict.Verdict.Verdict};
ghost use Rattle.cap_run.specs.{declared.asks.Asks.Asks, Descents.run_along, Erasure.{erased, object_lines}};
ghost use Rattle.cap_run_judge.specs.{declared.verdict.RunVerdict.RunVerdict, Turns.{RunStage, unread, run_turns}};
ghost use Rattle.cap_run_judge.specs.{Readings.{VerdictAtEnd, VerdictWith}, ChosenVerdicts.VerdictsByChoice};
ghost use Rattle.cap_run_judge.specs.UsualLogs.{AreUsual, NamesNoLimit, as_run_verdict};
ghost use Rattle.cap_run_judge.specs.Verdicts.{IsRunGuarded, IsRunVerdict, IsRunYes};
ghost use Rattle.cap_turns.specs.{Turns.{Goes, text_of}, Readings.Faults, Verdicts.{Lacks, MayLackMemory}};

/// Whatever bytes are read, and whatever is asked: if they are lines that begin a run log, then along them, at every moment, each
/// tagged capability has bounds inside and permissions among those of the one root that it descends from, and each access
/// lies inside such a root. What an object owns stays inside its extent, and no address lies in the extents of two objects,
/// or in what capabilities of two objects reach; without [`Asks::held`](cap_run::Asks::held), of two live objects.
pub fn run_logs_are_guarded()
    ensures law { (asks : Asks) (bytes : List ℕ) → IsRunGuarded asks bytes }
{}

/// All bytes have a verdict, whatever is asked: they are a run log, or there is a first faulty line.
pub fn some_run_verdict()
    ensures law { (asks : Asks) (bytes : List ℕ) → (verdict : RunVerdict) × IsRunVerdict asks bytes verdict }
{}

/// No bytes have two verdicts: a run log has one number of steps, one of roots and one of objects, and any other bytes
/// have one faulty line, with one refusal.
pub fn one_run_verdict()
    ensures law { (asks : Asks) (bytes : List ℕ) (a b : RunVerdict) → IsRunVerdict asks bytes a → IsRunVerdict asks bytes b → a ≡ b }
{}

/// A run log that is accepted is accepted without its `object` and `free` lines, its end line counting the steps that are
/// left, whatever is asked. It leads to the same state of the machine.
pub fn run_logs_are_accepted_without_objects()
    ensures law { (asks other : Asks) (bytes : List ℕ) (steps roots objects : ℕ) (yes : IsRunYes asks bytes steps roots objects)
        → IsRunYes other (text_of run_turns (erased yes.whole.goes.lines)) (steps - object_lines yes.whole.goes.lines) roots 0
        × ((run_along (erased yes.whole.goes.lines)).state ≡ yes.stage.state.run.state) }
{}

/// The verdict with a check that is asked for is that without it; or that check refuses a line, where without it no line is
/// faulty, or a later one, or this one for a later check.
pub fn verdicts_differ_by_choice()
    ensures law { (asks : Asks) (bytes : List ℕ) → VerdictsByChoice asks bytes }
{}

/// A log of version 2 means the same as a run log: with the version line of runs in place of its own it has the same verdict, and
/// no other, whatever is asked, if none of its lines is one that only run logs have and none passes a limit of logs.
pub fn logs_are_run_logs()
    ensures law { (asks : Asks) (rest : List ℕ) (verdict : Verdict) → AreUsual rest → IsVerdict (codes "capcheck 2\n" ++ rest) verdict
        → NamesNoLimit verdict → IsRunVerdict asks (codes "run 1\n" ++ rest) (as_run_verdict verdict) }
    ensures back { (asks : Asks) (rest : List ℕ) (verdict : RunVerdict) → AreUsual rest
        → ((other : Verdict) → IsVerdict (codes "capcheck 2\n" ++ rest) other → NamesNoLimit other)
        → IsRunVerdict asks (codes "run 1\n" ++ rest) verdict
        → (other : Verdict) × IsVerdict (codes "capcheck 2\n" ++ rest) other × (verdict ≡ as_run_verdict other) }
{}

/// Where a [`RunJudge`](crate::RunJudge) is once it has read some bytes: what its calls say of its stage is said of the
/// bytes.
pub fn stages_are_of_run_logs()
    // What is read after some bytes is read after all that was read before.
    ensures goes_on { (first old new : RunStage) (bytes more : List ℕ) → Goes run_turns first bytes old → Goes run_turns old more new
        → Goes run_turns first (bytes ++ more) new }

    // The no at the first faulty line stands, whatever bytes follow.
    ensures fault { (asks : Asks) (front rest : List ℕ) (middle new : RunStage) (ended : Bool) (verdict : RunVerdict) (text : List ℕ)
        → Goes run_turns (unread asks) front middle → Faults run_turns middle rest new → VerdictAtEnd new [] verdict text
        → VerdictWith asks (front ++ rest) ended new.state.run verdict text }

    // Memory is wanted only where a line that no check refuses names a granule for the first time, or an object.
    ensures memory { (asks : Asks) (front rest more : List ℕ) (stage : RunStage) → Goes run_turns (unread asks) front stage → Lacks run_turns stage rest more
        → MayLackMemory run_turns (unread asks) (front ++ rest) more }

    // How the log ends if no other bytes follow than these, which are less than a line.
    ensures ends { (asks : Asks) (front rest : List ℕ) (stage : RunStage) (verdict : RunVerdict) (text : List ℕ)
        → Goes run_turns (unread asks) front stage → IsCut rest → VerdictAtEnd stage rest verdict text
        → VerdictWith asks (front ++ rest) true stage.state.run verdict text }
{}
