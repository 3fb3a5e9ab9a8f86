//! What the rules give for a step whose line records another result.

ghost use Rattle.std.specs.Prelude.{◌≡◌};
ghost use Rattle.cap_machine.specs.Helds.{account_of};
ghost use Rattle.cap_judge.specs.Expectations.{GivesForText, expected_of};

use crate::verdict::Expected;
use cap_log::{Line, read_line};
use cap_machine::{Given, Machine};
use tagmem::TaggedStore;

/// What the rules give for the step that a text spells, where it is refused for its result. The machine is
/// as it was before the step.
pub fn expected_by<M: TaggedStore>(machine: &Machine<M>, text: &[u8]) -> Option<Expected>
    ensures gives { GivesForText (account_of machine.now) text.now result }
{
    match read_line(text) {
        Some(line) => match line {
            Line::Step(step) => expected_of(machine.shown(&step).given),
            _ => None,
        },
        None => None,
    }
}

// The result, without the recorded one.
fn expected_of(given: Given) -> Option<Expected>
    ensures { result ≡ expected_of given }
{
    match given {
        Given::Nothing => None,
        Given::Capability { cap, .. } => Some(Expected::Capability(cap)),
        Given::Number { value, size, .. } => Some(Expected::Number { value, size }),
    }
}
