//! Laws about allocators' logs. Their functions do nothing: what each says is its contract.

ghost use Rattle.std.specs.Prelude.{ℕ, List, ◌↔◌};
ghost use Rattle.cap_bounds.specs.declared.decoding.Interval.{Interval};
ghost use Rattle.cap_heap.specs.declared.{events.Event.Event, lines.HeapLine.HeapLine, refusal.HeapRefusal.HeapRefusal};
ghost use Rattle.cap_heap.specs.HeapLogs.{IsFirstHeapFault, IsHeapLogOf, heap_text_of};
ghost use Rattle.cap_heap.specs.Objects.{CanBeGuarded, IsApart};

/// Whatever the lines: they are a log at each moment of which the rounded bounds of the live objects lie inside the
/// root and apart, exactly if they are one at each moment of which sound words can be given so.
pub fn apart_is_guarded()
    ensures law { (lines : List HeapLine) (root : Interval) (events : List Event)
        → IsHeapLogOf IsApart lines root events ↔ IsHeapLogOf CanBeGuarded lines root events }
{}

/// The text of such a log has no faulty line.
pub fn logs_have_no_fault()
    ensures law { (lines : List HeapLine) (root : Interval) (events : List Event) → IsHeapLogOf IsApart lines root events
        → (number : ℕ) (refusal : HeapRefusal) → IsFirstHeapFault (heap_text_of lines) number refusal → ⊥ }
{}
