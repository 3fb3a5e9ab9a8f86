//! Laws about runs. These functions do nothing: what they say is their contract.

ghost use Rattle.std.specs.Prelude.{IsTrue, List, ◌++◌, ◌∷◌, ◌||◌};
ghost use Rattle.cap_log.specs.{declared.lines.Line.Line, Lines.IsInRange};
ghost use Rattle.cap_machine.specs.{Accounts.Account, Parents.IsSoundState};
ghost use Rattle.cap_run_log.specs.declared.lines.RunLine.{RunLine};
ghost use Rattle.cap_run_log.specs.RunLines.{IsRunLineInRange};
ghost use Rattle.cap_run.specs.declared.asks.Asks.{Asks as AsksIn};
ghost use Rattle.cap_run.specs.Choices.{EndsByChoice, AsksNoMore, IsFirstRefused, IsOwnedAccess, RefusedByChoice};
ghost use Rattle.cap_run.specs.{Allowed.{AreAllowed, DescendsFromOne, IsLineAllowed, LineStaysWithin}, Descents.{LiesInRoot, StaysWithinRoots, run_along}};
ghost use Rattle.cap_run.specs.{Erasure.AllowsErased, HeldExtents.IsHeldExactly, Holders.OwnersDescend, OwnedAccesses.{AccessesOwn, IsOwnersAccess}, Run.Run, RunChanges.no_run, Safety.IsSafe};
ghost use Rattle.cap_run.specs.UsualRuns.{IsOfLog, MeansTheSame};

/// Where each tagged capability of a run is sound, each one after an allowed line is sound too: it is the root that the
/// line declares, or reaches no more than what the place held before the line that it comes from. A place that the line
/// doesn't write keeps its own.
pub fn lines_stay_within()
    ensures law { (asks : AsksIn) (run : Run) (line : RunLine) → IsRunLineInRange line → IsSoundState run.state
        → IsLineAllowed asks run line → LineStaysWithin run line }
{}

/// Along lines that are each allowed in its turn, at every moment each tagged capability in a register, a special register
/// or memory has bounds inside and permissions among those of a root that it descends from, which a line before declared.
pub fn runs_stay_within_roots()
    ensures law { (asks : AsksIn) (before after : List RunLine) → AreAllowed asks no_run (before ++ after) → StaysWithinRoots before }
{}

/// Along lines that are each allowed in its turn, each access of a line lies inside the bounds of a root that its
/// authority descends from at the moment before, and that root has the permission that the access needs.
pub fn accesses_lie_in_roots()
    ensures law { (asks : AsksIn) (before after : List RunLine) (line : RunLine) → AreAllowed asks no_run (before ++ line ∷ after)
        → LiesInRoot before line }
{}

/// Along lines that are each allowed in its turn, at every moment a place descends from one root at most: no two
/// lines declare what it descends from.
pub fn places_descend_from_one_root()
    ensures law { (asks : AsksIn) (before after : List RunLine) → AreAllowed asks no_run (before ++ after) → DescendsFromOne before }
{}

/// A line ends in the same way with and without a check that is asked for, or that check refuses it. It then passes the
/// checks before, and without that check it would be allowed or refused by a later one.
pub fn lines_end_by_choice()
    ensures law { (asks : AsksIn) (run : Run) (line : RunLine) → EndsByChoice asks run line }
{}

/// The first of lines that isn't allowed is the one after allowed ones, and there is none where each is allowed.
pub fn first_refused_is_first()
    ensures law { (asks : AsksIn) (run : Run) (before after : List RunLine) (line : RunLine) → IsFirstRefused asks run before after line }
{}

/// With and without a check that is asked for, lines have the same first refusal, or that check refuses one of them.
/// Without that check, no line would then be refused, or a later line, or this line by a later check.
pub fn lines_are_refused_by_choice()
    ensures law { (asks : AsksIn) (run : Run) (read : List RunLine) → RefusedByChoice asks run read }
{}

/// Lines that are each allowed in its turn are allowed if less is asked. What they lead to doesn't depend on what is asked.
pub fn asking_less_allows_more()
    ensures law { (less more : AsksIn) (run : Run) (read : List RunLine) → AsksNoMore less more → AreAllowed more run read → AreAllowed less run read }
{}

/// If it is asked for that an object owns the authority of each access to a live object, an allowed line whose access
/// touches a byte of a live object goes through a capability that an object owns.
pub fn owned_accesses_have_owners()
    ensures law { (asks : AsksIn) (run : Run) (line : RunLine) → IsTrue asks.owned → IsLineAllowed asks run line → IsOwnedAccess run line }
{}

/// Without the lines of objects, lines that are each allowed in its turn are allowed, whatever is asked, and lead to the
/// same run, except its objects and how many steps it has.
pub fn lines_are_allowed_without_objects()
    ensures law { (asks other : AsksIn) (read : List RunLine) → AreAllowed asks no_run read → AllowsErased other read }
{}

/// A line that logs have, too, means in a run without objects what it means in a log: it is refused for the same reason, unless
/// a limit of logs is passed, and leads to the same places, counts and rules.
pub fn usual_lines_mean_the_same()
    ensures law { (asks : AsksIn) (account : Account) (line : Line) → IsInRange line → IsOfLog account → MeansTheSame asks account line }
{}

/// Along lines that are each allowed in its turn, at every moment an object owns just the places that reach some address
/// and whose chain of parents passes through a register that an `object` line of its number named, at the moment after
/// that line. Each such chain passes through one `object` line at most.
pub fn objects_own_what_descends()
    ensures law { (asks : AsksIn) (before after : List RunLine) → AreAllowed asks no_run (before ++ after) → OwnersDescend before }
{}

/// After any lines, if `StillHeld` is asked for, an `object` line that its checks before don't refuse is refused so exactly
/// if its interval shares an address with the extent of a freed object that some place has as its owner. No other line is
/// refused so, and none if it isn't asked for.
pub fn held_objects_are_met_exactly()
    ensures law { (asks : AsksIn) (before : List RunLine) (line : RunLine) → IsHeldExactly asks (run_along before) line }
{}

/// Along lines that are each allowed in its turn, at every moment objects are safe: each owned place has bounds inside the
/// extent of its owner, and no address lies in the extents of two objects, nor in what two places of two objects reach. If
/// extents of freed objects aren't compared, this is true of each two live objects.
pub fn objects_are_safe()
    ensures law { (asks : AsksIn) (before after : List RunLine) → AreAllowed asks no_run (before ++ after)
        → IsSafe asks.held (run_along before) }
{}

/// Along lines that are each allowed in its turn, each access through what an object owns lies in that object's extent, and
/// touches no byte of another object that is kept apart from it. The object is live if that is asked for.
pub fn accesses_stay_in_owners()
    ensures law { (asks : AsksIn) (before after : List RunLine) (line : RunLine) → AreAllowed asks no_run (before ++ line ∷ after)
        → AccessesOwn asks (run_along before) line }
{}

/// If it is asked for that an object owns the authority of each access to a live object, each access that touches a byte
/// of a live object goes through a capability of that object. One of the two checks of freed objects is asked for, too.
pub fn owned_accesses_are_of_owners()
    ensures law { (asks : AsksIn) (before after : List RunLine) (line : RunLine) → AreAllowed asks no_run (before ++ line ∷ after)
        → IsTrue asks.owned → IsTrue (asks.held || asks.used) → IsOwnersAccess (run_along before) line }
{}
