//! Laws about steps and runs. These functions do nothing: what they say is their contract.

ghost use Rattle.std.specs.{Prelude.{◌≡◌, ℕ, List, map, nat_eq}, List.{AllByRecursion, IsDistinct}};
ghost use Rattle.cap_log.specs.{declared.kinds.Step.Step, Lines.IsStepInRange};
ghost use Rattle.cap_machine.specs.{declared.rules.Rules.Rules, Escapes.{ClearsBeyond, ClearsExactly}};
ghost use Rattle.cap_machine.specs.{Origins.{Origins, origins_along}, Parents.{IsSoundState, StaysWithinParents}};
ghost use Rattle.cap_machine.specs.RunAccounts.{OriginsAreRoots, account_after};
ghost use Rattle.cap_machine.specs.Runs.{AccessesLieInside, AreSound, AuthorityNeverGrows, Descends, IsRun, last_of};
ghost use Rattle.cap_machine.specs.{States.{DeclaredRoot, State, key_of, start}, Steps.Leads};

/// Where each tagged capability of a state is sound, each one after a step is sound too, and reaches no more
/// than what the place held before the step that it comes from: a place that the step does not write keeps
/// its own, and a result comes from the step's source, or for `lc` from the granule.
pub fn steps_stay_within()
    ensures law { (rules : Rules) (old : State) (step : Step) (new : State) → IsStepInRange step → IsSoundState old
        → Leads rules old step new → StaysWithinParents old step new }
{}

/// Where each tagged capability of a state is sound, a step `setbounds` that leads from it in clear mode has a
/// result without a tag, for a tagged, unsealed source, exactly where the bounds that it asks for, before any
/// rounding, do not lie inside the source's.
pub fn bounds_are_cleared_exactly()
    ensures law { (rules : Rules) (old : State) (step : Step) (new : State) → IsStepInRange step → IsSoundState old
        → Leads rules old step new → ClearsBeyond rules old step new }
{}

/// Along every run from sound roots each `setbounds` in clear mode loses its source's tag exactly there.
pub fn runs_clear_exactly()
    ensures law { (rules : Rules) (roots : List DeclaredRoot) (steps : List Step) (states : List State) → AreSound roots
        → AllByRecursion IsStepInRange steps → IsRun rules (start roots) steps states
        → ClearsExactly rules roots steps states }
{}

/// Along every run from sound roots, at every moment each tagged capability in a register or in memory
/// has bounds inside and permissions among those of the one root that it descends from.
pub fn authority_never_grows()
    ensures law { (rules : Rules) (roots : List DeclaredRoot) (steps : List Step) (states : List State) → AreSound roots
        → AllByRecursion IsStepInRange steps → IsRun rules (start roots) steps states
        → AuthorityNeverGrows roots steps states }
{}

/// Along every run from sound roots, each access of a step lies inside the bounds of the one root that
/// its authority descends from, and that root has the permission that the access needs.
pub fn accesses_lie_inside()
    ensures law { (rules : Rules) (roots : List DeclaredRoot) (steps : List Step) (states : List State) → AreSound roots
        → AllByRecursion IsStepInRange steps → IsRun rules (start roots) steps states
        → AccessesLieInside roots steps states }
{}

/// A run from roots at distinct places ends in the state that the account has after the roots and the steps.
pub fn runs_end_in_accounts()
    ensures law { (rules : Rules) (roots : List DeclaredRoot) (steps : List Step) (states : List State)
        → IsDistinct nat_eq (map (λ (root : DeclaredRoot). key_of root.place) roots) → IsRun rules (start roots) steps states
        → (let account = account_after rules roots steps in last_of (start roots) states ≡ account.state) }
{}

/// Origins that each step carries forward, from parents, are those that descent leads back to.
pub fn origins_follow_descent()
    ensures law { (origins : Origins) (state : State) (steps : List Step) (states : List State) (key from : ℕ)
        → Descends state steps states key from → origins_along origins state steps states key ≡ origins from }
{}

/// Along every run from sound roots at distinct places, the origin that the account has at each place that is
/// tagged at the end is the place of the one root that it descends from.
pub fn origins_are_roots()
    ensures law { (rules : Rules) (roots : List DeclaredRoot) (steps : List Step) (states : List State) → AreSound roots
        → IsDistinct nat_eq (map (λ (root : DeclaredRoot). key_of root.place) roots) → AllByRecursion IsStepInRange steps
        → IsRun rules (start roots) steps states → OriginsAreRoots (account_after rules roots steps) roots steps states }
{}
