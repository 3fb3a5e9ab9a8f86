//! What is asked of the access of a step, after its own checks.

ghost use Rattle.std.specs.Prelude.{◌≡◌, ◌≤◌, ◌+◌, ◌^◌, ◌&&◌, None, Some, IfNone, IfSome, IsSome, false};
ghost use Rattle.cap_ops.specs.Checks.{first_of};
ghost use Rattle.cap_log.specs.Lines.{IsStepInRange};
ghost use Rattle.cap_machine.specs.{Changes.IsAccess, Helds.state_of, Steps.{access_through, row_of}};
ghost use Rattle.cap_objects.specs.{declared.objects.Object.Object as ObjectIn, HandoutsIn.objects_of};
ghost use Rattle.cap_run.specs.{RunChecks.{asked_checks, is_live, meets, usual_end}};
ghost use Rattle.cap_run.specs.Machines.{run_in};

use crate::ends::RunRefusal;
use crate::run_machine::RunMachine;
use cap_log::Step;
use cap_machine::Machine;
use cap_objects::HandOutFault;
use cap_ops::{Access, Kind, may_access};
use cap_run_log::RunRegister;
use tagmem::TaggedStore;

// The access of a step, and the register that it goes through. It is inlined, so that a step of one kind isn't made in memory.
#[inline(always)]
fn access_by<M: TaggedStore>(machine: &Machine<M>, step: &Step) -> Option<(u8, Access)>
    requires { IsStepInRange step.now }
    ensures none { IfNone result (let row = row_of (state_of machine.now) step.now in row.access ≡ None) }
    ensures some { IfSome result (λ p. let state = state_of machine.now in
        IsAccess (row_of state step.now) p.0 p.1.kind p.1.offset p.1.size state) }
    ensures range { IfSome result (λ p. p.0 ≤ 31) }
{
    match *step {
        Step::LoadCap(step) => Some((
            step.authority.number(),
            Access {
                kind: Kind::LoadCap,
                offset: step.offset.number(),
                size: 16,
            },
        )),
        Step::StoreCap(step) => {
            let (authority, stored) = (step.authority.number(), step.source.number());
            Some((
                authority,
                Access {
                    kind: Kind::StoreCap(machine.register(stored)),
                    offset: step.offset.number(),
                    size: 16,
                },
            ))
        }
        Step::Load(step) => Some((
            step.authority.number(),
            Access {
                kind: Kind::LoadData,
                offset: step.offset.number(),
                size: step.datum.size().bytes(),
            },
        )),
        Step::Store(step) => Some((
            step.authority.number(),
            Access {
                kind: Kind::StoreData,
                offset: step.offset.number(),
                size: step.datum.size().bytes(),
            },
        )),
        _ => None,
    }
}

impl<M: TaggedStore> RunMachine<M> {
    // Whether an interval shares an address with the extent of a live object.
    fn meets_live(&self, base: u64, top: u128) -> bool
        requires { top ≤ 2 ^ 64 }
        ensures { result ≡ meets (run_in self.now) None is_live base top }
    {
        match self.objects.extent_fault(base, top, None) {
            None => false,
            Some(HandOutFault::Overlaps(_)) => true,
            Some(HandOutFault::StillHeld(_)) => false,
            Some(HandOutFault::NoMemory) => false,
        }
    }

    // Whether it is asked that the object in a slot, which was freed, isn't used.
    fn is_forbidden(&self, slot: usize) -> bool
        requires { IsSome (objects_of self.now.objects slot) }
        ensures { (object : ObjectIn) → objects_of self.now.objects slot ≡ Some object → result ≡ (self.now.asks.used && object.freed) }
    {
        self.asks.used && self.objects.object(slot).freed
    }

    // Why what is asked refuses an access through a register that its own checks permit.
    fn access_refusal(&self, authority: u8, access: Access) -> Option<RunRefusal>
        requires { authority ≤ 31 }
        ensures some { IfSome result (λ refusal.
            let run = run_in self.now in
            let through = access_through (state_of self.now.machine) authority access.kind access.offset access.size in
            (first_of through.checks ≡ None) × (first_of (asked_checks self.now.asks run through.access) ≡ Some refusal)) }
        ensures none { IfNone result (
            let run = run_in self.now in
            let through = access_through (state_of self.now.machine) authority access.kind access.offset access.size in
            first_of through.checks ≡ None → first_of (asked_checks self.now.asks run through.access) ≡ None) }
    {
        let cap = self.machine.register(authority);
        match self.owner(RunRegister::General(authority)) {
            Some(slot) => {
                if !self.is_forbidden(slot) {
                    return None;
                }
                match may_access(cap, access) {
                    Err(_) => None,
                    Ok(_) => Some(RunRefusal::OwnerFreed),
                }
            }
            None => {
                if !self.asks.owned {
                    return None;
                }
                let Ok(address) = may_access(cap, access) else {
                    return None;
                };
                if self.meets_live(address, u128::from(address) + u128::from(access.size)) {
                    Some(RunRefusal::NotOwned)
                } else {
                    None
                }
            }
        }
    }

    // Why what is asked refuses a step that its own checks permit.
    #[inline(always)]
    pub(crate) fn asked_refusal(&self, step: &Step) -> Option<RunRefusal>
        requires { IsStepInRange step.now }
        ensures some { IfSome result (λ refusal.
            usual_end self.now.asks (run_in self.now) step.now ≡ Some refusal) }
        ensures none { IfNone result (let run = run_in self.now in
            usual_end self.now.asks run step.now ≡ usual_end (record self.now.asks { used = false; owned = false }) run step.now) }
    {
        self.machine.kept();
        match access_by(&self.machine, step) {
            None => None,
            Some((authority, access)) => self.access_refusal(authority, access),
        }
    }
}
