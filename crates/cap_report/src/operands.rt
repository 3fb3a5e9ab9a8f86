//! The operands of a step, as parts of the report on it: what places hold, and from which root that comes.

ghost use Rattle.std.specs.Prelude.{◌≡◌};
ghost use Rattle.cap_machine.specs.{Helds.{account_of, state_of}, Shown.IsRead, States.key_of};
ghost use Rattle.cap_report.specs.StepLines.{authority_part, seen};

use crate::parts::ReportPart;
use cap_log::{Place, Register};
use cap_machine::Machine;
use cap_word::Cap;
use tagmem::TaggedStore;

/// What a place holds, and if origins are shown the place of the root of that: c0 has none.
pub fn held_in<M: TaggedStore>(
    machine: &Machine<M>,
    origins: bool,
    place: Place,
) -> (Cap, Option<Place>)
    requires { IsRead place }
    ensures cap { result.0 ≡ state_of machine.now (key_of place) }
    ensures root { result.1 ≡ (let account = seen origins (account_of machine.now) in account.origin (key_of place)) }
{
    let cap = match place {
        Place::Register(number) => machine.register(number),
        Place::Granule(granule) => machine.granule(granule),
    };
    (
        cap,
        if origins {
            origin_in(machine, place)
        } else {
            None
        },
    )
}

// The place of the root of what a place holds: c0 has none.
fn origin_in<M: TaggedStore>(machine: &Machine<M>, place: Place) -> Option<Place>
    requires { IsRead place }
    ensures { result ≡ (let account = account_of machine.now in account.origin (key_of place)) }
{
    machine.kept();
    match place {
        Place::Register(0) => None,
        _ => machine.origin(place),
    }
}

/// What a register holds that is the authority.
pub fn authority_in<M: TaggedStore>(
    machine: &Machine<M>,
    origins: bool,
    register: Register,
) -> ReportPart
    ensures value { result ≡ authority_part (seen origins (account_of machine.now)) register }
{
    let place = Place::Register(register.number());
    let (cap, root) = held_in(machine, origins, place);
    ReportPart::Authority(place, cap, root)
}
