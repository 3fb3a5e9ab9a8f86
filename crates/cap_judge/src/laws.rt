//! Laws about logs. Their functions do nothing: what each says is its contract.

ghost use Rattle.std.specs.{Prelude.{◌≡◌, ◌↔◌, ◌++◌, ℕ, Bool, List, None, Option, true}, List.AllByRecursion};
ghost use Rattle.cap_ops.specs.declared.refusal.Refusal.{Refusal};
ghost use Rattle.cap_log.specs.{declared.kinds.Step.Step, Lines.IsInRange};
ghost use Rattle.cap_streams.specs.Front.{IsCut};
ghost use Rattle.cap_machine.specs.{declared.rules.Rules.Rules, Escapes.ClearsExactly, Helds.{Held, account_of}};
ghost use Rattle.cap_machine.specs.{Runs.IsRun, States.{DeclaredRoot, State, start}};
ghost use Rattle.cap_judge.specs.{declared.verdict.Expected.Expected, declared.verdict.Verdict.{Verdict, TheVariants.No}};
ghost use Rattle.cap_judge.specs.{Expectations.{Expects, ExpectsAt}, Logs.{Beginning, IsAccepted, IsLogOf, MayLackMemory, lines_of}};
ghost use Rattle.cap_judge.specs.Readings.{BeginsWhole, VerdictAtEnd, VerdictWith, IsReached, Stands, verdict_so_far};
ghost use Rattle.cap_judge.specs.Turns.{LogStage, unread, log_turns};
ghost use Rattle.cap_judge.specs.Verdicts.{IsByVersionOne, IsGuarded, IsOfVersionOne, IsVerdict, IsVerdictOne, NamesEscapes};
ghost use Rattle.cap_turns.specs.{Readings.{Faults, Follows}, Turns.{IsAtFault, Reads, Refused}, Verdicts.Lacks};

/// Whatever bytes are read: where they are a log whose steps have a run, then along it, at every moment,
/// each tagged capability in a register or memory has bounds inside and permissions among those of the
/// one root that it descends from, and each access lies inside the root of its authority.
pub fn logs_are_guarded()
    ensures law { (bytes : List ℕ) → IsGuarded bytes }
{}

/// Whatever bytes are read: where they are a log whose steps have a run, then along it each `setbounds` in
/// clear mode takes the tag of its tagged, unsealed source exactly where the bounds that it asks for, before
/// any rounding, do not lie inside the source's.
pub fn logs_clear_exactly()
    ensures law { (bytes : List ℕ) (rules : Rules) (roots : List DeclaredRoot) (steps : List Step) (states : List State)
        → IsLogOf bytes rules roots steps → IsRun rules (start roots) steps states → ClearsExactly rules roots steps states }
{}

/// Whatever bytes a verdict is of: where it is a `no`, it names `BoundsEscape` exactly where its line is a step
/// that asks, by strict rules, for bounds beyond those of its tagged, unsealed source, before any rounding.
pub fn escapes_are_named_exactly()
    ensures law { (verdict : Verdict) → NamesEscapes verdict }
{}

/// Bytes that do not begin with the line `capcheck 2` have the verdict of version 1: it speaks of beginnings
/// of logs of version 1 alone, and they have no other verdict than by the rules of version 1, which knows no
/// other header than its own.
pub fn other_bytes_are_of_version_one()
    ensures of_one { (bytes : List ℕ) (verdict : Verdict) → IsOfVersionOne bytes
        → (is : IsVerdict bytes verdict) → IsByVersionOne bytes verdict is }
    ensures same { (bytes : List ℕ) (verdict : Verdict) → IsOfVersionOne bytes
        → IsVerdict bytes verdict ↔ IsVerdictOne bytes verdict }
{}

/// A beginning of a log is accepted exactly where its lines are in range and each is allowed in its turn: no
/// check of a line fails in what the lines before it lead to.
pub fn accepted_in_turn()
    ensures law { (beginning : Beginning) → IsAccepted beginning
        ↔ (AllByRecursion IsInRange (lines_of beginning) × ((stage : LogStage) × Reads log_turns unread (lines_of beginning) stage)) }
{}

/// Where a [`Judge`](crate::Judge) is once it has read some bytes: its stage is that of the beginning of a log, and of
/// the first fault if a line is faulty. So what the calls of a judge say of its stage is said of the bytes.
pub fn stages_are_of_logs()
    // The stage has the account of a beginning: what follows that is nothing, or begins with the faulty line.
    ensures reached { (bytes : List ℕ) (stage : LogStage) → Follows log_turns unread bytes stage → IsReached stage bytes }

    // The first faulty line begins what stands after the lines that were taken.
    ensures after { (front rest : List ℕ) (middle new : LogStage) → Follows log_turns unread front middle → (IsAtFault middle.due → ⊥)
        → Faults log_turns middle rest new → (is : IsReached new (front ++ rest)) × (is.rest ≡ rest) }

    // No line is faulty exactly while the lines so far begin a log; otherwise the `no` stays whatever lines follow.
    ensures stands { (bytes : List ℕ) (stage : LogStage) → Follows log_turns unread bytes stage → Stands bytes (verdict_so_far stage.due) }
    ensures none { (bytes : List ℕ) (stage : LogStage) → Follows log_turns unread bytes stage → BeginsWhole bytes
        → verdict_so_far stage.due ≡ None }

    // The account is that of the lines before the faulty one, whose text is the stage's.
    ensures fault { (bytes : List ℕ) (stage : LogStage) (held : Held) (line : ℕ) (refusal : Refusal) (text : List ℕ) (ended : Bool)
        → Follows log_turns unread bytes stage → account_of held ≡ stage.state → stage.due ≡ Refused line refusal text
        → VerdictWith bytes ended held (No line refusal) text }

    // Memory is wanted only where a line that no check refuses names a granule for the first time.
    ensures memory { (bytes rest more : List ℕ) (stage : LogStage) → Follows log_turns unread bytes stage → Lacks log_turns stage rest more
        → MayLackMemory (bytes ++ rest) more }

    // How the log ends if no other bytes follow than these, which are less than a line.
    ensures ends { (bytes rest : List ℕ) (stage : LogStage) (held : Held) (verdict : Verdict) (text : List ℕ)
        → Follows log_turns unread bytes stage → account_of held ≡ stage.state → IsCut rest → VerdictAtEnd stage rest verdict text
        → VerdictWith (bytes ++ rest) true held verdict text }

    // What is told of the faulty line is what the rules give for its step, if it is refused for its result.
    ensures expects { (bytes : List ℕ) (stage : LogStage) (result : Option Expected) → Follows log_turns unread bytes stage
        → ExpectsAt stage.state stage.due result → Expects bytes result }

    // What is read after some bytes is read after all that was read before.
    ensures goes_on { (first old new : LogStage) (bytes more : List ℕ) → Follows log_turns first bytes old → Follows log_turns old more new
        → Follows log_turns first (bytes ++ more) new }
{}

/// All bytes have a verdict: they are a log whose steps have a run, or there is a first fault.
pub fn some_verdict()
    ensures law { (bytes : List ℕ) → (verdict : Verdict) × IsVerdict bytes verdict }
{}

/// No bytes have two verdicts: they aren't both a log whose steps have a run and a log with a faulty line. A log
/// has one number of steps and one of roots, and any other bytes have one faulty line, with one refusal.
pub fn one_verdict()
    ensures law { (bytes : List ℕ) (a b : Verdict) → IsVerdict bytes a → IsVerdict bytes b → a ≡ b }
{}
