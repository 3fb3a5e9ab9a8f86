//! Laws about extents and counts. These functions do nothing: what they say is their contract.

ghost use Rattle.std.specs.Prelude.{◌≡◌, ◌<◌, ◌≤◌, ◌-◌, ◌↔◌, ℕ, Option, true};
ghost use Rattle.cap_objects.specs.Counts.{CountsAre, Moves, Owners, at_key, most_places};
ghost use Rattle.cap_objects.specs.{Extents.Meets, Objects.{Share, top_of_extent}};
ghost use Rattle.cap_objects.specs.declared.objects.Object.{Object};

/// An extent of an address meets the addresses of an interval exactly where some address lies in both.
pub fn meeting_is_sharing()
    ensures law { (object : Object) (base top : ℕ) → object.long ≡ true → object.base ≤ object.last → base < top
        → Meets base (top - 1) object ↔ Share base top object.base (top_of_extent object) }
{}

/// Counts stay right where one place gets another owner and is counted from the one to the other.
pub fn counts_move()
    ensures law { (owners : Owners) (old new : ℕ → ℕ) (key : ℕ) (owner : Option ℕ) → key < most_places → CountsAre owners old
        → Moves old (owners key) owner new → CountsAre (at_key owners key owner) new }
{}
