//! The kinds of steps: what each does to a machine and shows of it, and what is done by the kind of a step. No other
//! file of this crate's code names them.

ghost use Rattle.std.specs.Prelude.{◌≡◌, List, ℕ, ◌∷◌, ◌++◌, IfErr, IfOk, IfSome, IsTrue, Ok, Some};
ghost use Rattle.cap_ops.specs.{Checks.Ends, Operations.clear_result};
ghost use Rattle.cap_log.specs.{declared.kinds.Step.Step, Heads.head_spelling, Lines.{IsPlace, IsStepInRange}};
ghost use Rattle.cap_log.specs.declared.lines.Place.TheVariants as PlaceIn;
ghost use Rattle.cap_machine.specs.{Changes.{Derives, Gives, IsCodeOf, IsOperation, code_for, result_in}};
ghost use Rattle.cap_machine.specs.{Helds.{AnswersStep, EndsBy, EndsStep, Held, state_of}, Places.IsCoded};
ghost use Rattle.cap_machine.specs.{Shown.{IsShown, needs_to_store, shown_of}, States.State};
ghost use Rattle.cap_machine.specs.Steps.{granule_through, request_of, row_of, written_by};

use crate::ends::StepEnd;
use crate::machine::{MOST_STEPS, Machine};
use crate::rules::Rules;
use crate::shown::{Given, Request, Shown};
use cap_log::kinds::{
    ADDRESS, AndPerm, Authorized, ClearTag, EXACT_LENGTH, LENGTH, Load, LoadCap, Move, Numbered,
    Plain, Seal, SetAddr, SetBounds, SetBoundsExact, Store, StoreCap, Unseal,
};
use cap_log::{Head, Offset, Operands, Place, Register, Step, Target};
use cap_ops::{
    Access, GLOBAL, Kind, OpFault, PERMIT_LOAD, PERMIT_SEAL, PERMIT_STORE, PERMIT_STORE_CAPABILITY,
    PERMIT_STORE_LOCAL_CAPABILITY, PERMIT_UNSEAL, Refusal, and_perm, and_perm_clear, clear_tag,
    loaded, may_access, perm_view, seal, seal_clear, set_addr, set_addr_clear, set_bounds_clear,
    set_bounds_soundly, unseal, unseal_clear,
};
use cap_word::Cap;
use tagmem::TaggedStore;

// The permission that a load needs, as a bit of the view.
const LOAD: u32 = 1 << PERMIT_LOAD;

// The permission that a store needs.
const STORE: u32 = 1 << PERMIT_STORE;

// The permissions that storing a capability needs.
const STORE_CAPABILITY: u32 = 1 << PERMIT_STORE_CAPABILITY;

const STORE_LOCAL_CAPABILITY: u32 = 1 << PERMIT_STORE_LOCAL_CAPABILITY;

/// A kind of step that a machine makes.
pub trait Instruction: Operands {
    /// Makes the step and counts it, or refuses it, as [`Machine::step`] does.
    fn perform<M: TaggedStore>(self, machine: &mut Machine<M>) -> Result<(), StepEnd>
        ensures outcome { AnswersStep machine.old (Self.step self) result machine.new }
        ensures range { IsStepInRange (Self.step self) };

    /// What the step shows of the machine before it, as [`Machine::shown`] does.
    fn shown<M: TaggedStore>(self, machine: &Machine<M>) -> Shown
        ensures shown { result ≡ shown_of (state_of machine.now) (Self.step self) }
        ensures in_range { IsShown result };

    /// The place that the step writes, as [`Machine::written`] tells it.
    fn written<M: TaggedStore>(&self, machine: &Machine<M>) -> Option<Place>
        ensures place { result ≡ written_by (state_of machine.now) (Self.step self.now) }
        ensures in_range { IfSome result IsPlace };
}

/// A step to make.
pub trait Making: Copy {
    // The step.
    ghost step: { Self → Step };

    // What has to hold of the machine that makes it.
    ghost ready: { Held → Self → Type 0 };

    /// The step.
    fn to_step(&self) -> Step
        ensures step { result ≡ step self.now }
        ensures range { IsStepInRange (step self.now) };

    /// The place that it writes, as [`Machine::written`] tells it.
    fn target<M: TaggedStore>(&self, machine: &Machine<M>) -> Option<Place>
        ensures place { result ≡ written_by (state_of machine.now) (step self.now) }
        ensures in_range { IfSome result IsPlace };

    /// Makes it and counts it, or refuses it, as [`Machine::step`] does.
    fn make<M: TaggedStore>(self, machine: &mut Machine<M>) -> Result<(), StepEnd>
        requires ready { ready machine.old self }
        ensures outcome { AnswersStep machine.old (step self) result machine.new };
}

/// A step of a kind.
#[derive(Clone, Copy)]
pub struct OfKind<I: Instruction>(pub I);

impl<I: Instruction> Making for OfKind<I> {
    ghost step = { λ making. I.Operands.step making.0 };

    ghost ready = { λ held making. Unit {0} };

    #[inline(always)]
    fn to_step(&self) -> Step {
        self.0.into_step()
    }

    #[inline(always)]
    fn target<M: TaggedStore>(&self, machine: &Machine<M>) -> Option<Place> {
        self.0.written(machine)
    }

    #[inline(always)]
    fn make<M: TaggedStore>(self, machine: &mut Machine<M>) -> Result<(), StepEnd> {
        self.0.perform(machine)
    }
}

/// A kind of step that gives a register a capability, which its line records.
pub trait Derivation: Instruction {
    /// What it gives, whatever its line records, and the code of this if it comes from memory: that of its granule's
    /// origin, or 0 if it has no tag. Or how the step ends if a check of its operation or access fails. What the machine
    /// holds stays as it was.
    fn derive<M: TaggedStore>(&self, machine: &mut Machine<M>) -> Result<(Cap, u64), StepEnd>
        ensures gives { IfOk result (λ p. Gives machine.old (Self.step self.now) p.0 p.1) }
        ensures end { IfErr result (λ end. EndsStep machine.old (Self.step self.now) end machine.old) }
        ensures same { machine.new ≡ machine.old };

    /// Makes the step, which gives this, as [`Instruction::perform`] does.
    fn conclude<M: TaggedStore>(
        self,
        given: Cap,
        code: u64,
        machine: &mut Machine<M>,
    ) -> Result<(), StepEnd>
        requires gives { Gives machine.old (Self.step self) given code }
        ensures outcome { AnswersStep machine.old (Self.step self) result machine.new }
        ensures range { IsStepInRange (Self.step self) };
}

/// A kind of step that is an operation from a register to a register.
pub trait Operation: Operands {
    /// Its registers, its request and its recorded result.
    fn parts(self) -> OperationParts
        ensures request { result.request ≡ request_of (Self.step self) }
        ensures row { (state : State) → IsOperation (row_of state (Self.step self)) result };

    /// Its result, or its first failed check.
    fn strict<M: TaggedStore>(self, machine: &Machine<M>) -> Result<Cap, OpFault>
        ensures ends { let row = row_of (state_of machine.now) (Self.step self) in
            Ends result row.checks (λ cap. cap ≡ result_in row.writes) };

    /// Its result in clear mode: untagged if a check fails. It is called, and doesn't stand where the step is made.
    fn clear<M: TaggedStore>(self, machine: &Machine<M>) -> Cap
        ensures clears { let row = row_of (state_of machine.now) (Self.step self) in
            result ≡ clear_result row.checks (result_in row.writes) };

    /// The code of what it gives: its source's, or 0 if this has no tag.
    #[inline(always)]
    fn code<M: TaggedStore>(&self, given: Cap, machine: &Machine<M>) -> u64
        requires derives { Derives machine.now (Self.step self.now) (Ok given) }
        ensures code { IsCodeOf machine.now (Self.step self.now) given result }
    {
        code_if(
            given.tag,
            machine.codes[self.parts().source.number() as usize],
        )
    }

    /// How it ends by some rules: its result, or its first failed check.
    #[inline(always)]
    final fn outcome<M: TaggedStore>(
        self,
        rules: Rules,
        machine: &Machine<M>,
    ) -> Result<Cap, OpFault>
        ensures ends { let row = row_of (state_of machine.now) (Self.step self) in
            EndsBy rules row.checks (result_in row.writes) result }
    {
        match rules {
            Rules::TwoClear => Ok(self.clear(machine)),
            Rules::One | Rules::TwoStrict => self.strict(machine),
        }
    }
}

/// The parts of an operation from a register to a register.
#[derive(Clone, Copy)]
pub struct OperationParts {
    /// The register that it writes.
    pub target: Target,
    /// The register that its result comes from.
    pub source: Register,
    /// What it asks for.
    pub request: Request,
    /// The result that its line records.
    pub recorded: Cap,
}

impl OperationParts {
    /// These parts.
    #[inline(always)]
    pub fn new(target: Target, source: Register, request: Request, recorded: Cap) -> OperationParts
        ensures value { result ≡ record { target = target; source = source; request = request; recorded = recorded } }
    {
        OperationParts {
            target,
            source,
            request,
            recorded,
        }
    }
}

impl<O: Operation> Derivation for O {
    #[inline(always)]
    fn derive<M: TaggedStore>(&self, machine: &mut Machine<M>) -> Result<(Cap, u64), StepEnd> {
        self.parts();
        let given = self.outcome(machine.rules, machine)?;
        Ok((given, 0))
    }

    // The code is found here, so that none has to be kept while the line's result is compared.
    #[inline(always)]
    fn conclude<M: TaggedStore>(
        self,
        given: Cap,
        _code: u64,
        machine: &mut Machine<M>,
    ) -> Result<(), StepEnd> {
        let parts = self.parts();
        let code = self.code(given, machine);
        machine.conclude(&self, parts.target, given, parts.recorded, code)
    }
}

impl<O: Operation> Instruction for O {
    #[inline(always)]
    fn perform<M: TaggedStore>(self, machine: &mut Machine<M>) -> Result<(), StepEnd> {
        self.in_range();
        let (given, code) = self.derive(machine)?;
        self.conclude(given, code, machine)
    }

    fn shown<M: TaggedStore>(self, machine: &Machine<M>) -> Shown {
        let parts = self.parts();
        Shown {
            source: Some(Place::Register(parts.source.number())),
            request: parts.request,
            access: None,
            given: Given::Capability {
                place: Place::Register(parts.target.number()),
                cap: self.clear(machine),
                fault: self.strict(machine).err().map(Refusal::from),
                recorded: parts.recorded,
            },
        }
    }

    #[inline(always)]
    fn written<M: TaggedStore>(&self, _machine: &Machine<M>) -> Option<Place> {
        register_at(self.parts().target)
    }
}

impl<const IS_CLEARING: bool> Operation for Plain<IS_CLEARING> {
    #[inline(always)]
    fn parts(self) -> OperationParts {
        OperationParts::new(self.target, self.source, Request::Nothing, self.result)
    }

    #[inline(always)]
    fn strict<M: TaggedStore>(self, machine: &Machine<M>) -> Result<Cap, OpFault> {
        Ok(self.clear(machine))
    }

    #[inline(always)]
    fn clear<M: TaggedStore>(self, machine: &Machine<M>) -> Cap {
        let source = machine.register(self.source.number());
        if IS_CLEARING {
            clear_tag(source)
        } else {
            source
        }
    }

    // Without a tag the source's code is 0.
    #[inline(always)]
    fn code<M: TaggedStore>(&self, _given: Cap, machine: &Machine<M>) -> u64 {
        machine.kept();
        if IS_CLEARING {
            0
        } else {
            machine.codes[self.source.number() as usize]
        }
    }
}

impl<const WHAT: u8> Operation for Numbered<WHAT> {
    #[inline(always)]
    fn parts(self) -> OperationParts {
        let request = match WHAT {
            LENGTH | EXACT_LENGTH => Request::Length(self.number),
            ADDRESS => Request::Address(self.number),
            _ => Request::Nothing,
        };
        OperationParts::new(self.target, self.source, request, self.result)
    }

    #[inline(always)]
    fn strict<M: TaggedStore>(self, machine: &Machine<M>) -> Result<Cap, OpFault> {
        let source = machine.register(self.source.number());
        match WHAT {
            LENGTH => set_bounds_soundly(source, self.number, false),
            EXACT_LENGTH => set_bounds_soundly(source, self.number, true),
            ADDRESS => set_addr(source, self.number),
            _ => and_perm(source, self.number),
        }
    }

    #[inline(always)]
    fn clear<M: TaggedStore>(self, machine: &Machine<M>) -> Cap {
        let source = machine.register(self.source.number());
        match WHAT {
            LENGTH => set_bounds_clear(source, self.number, false),
            EXACT_LENGTH => set_bounds_clear(source, self.number, true),
            ADDRESS => set_addr_clear(source, self.number),
            _ => and_perm_clear(source, self.number),
        }
    }
}

impl<const IS_UNSEALING: bool> Operation for Authorized<IS_UNSEALING> {
    #[inline(always)]
    fn parts(self) -> OperationParts {
        let permission = if IS_UNSEALING {
            PERMIT_UNSEAL
        } else {
            PERMIT_SEAL
        };
        let request = Request::Authority(self.authority, 1 << permission);
        OperationParts::new(self.target, self.source, request, self.result)
    }

    #[inline(always)]
    fn strict<M: TaggedStore>(self, machine: &Machine<M>) -> Result<Cap, OpFault> {
        let source = machine.register(self.source.number());
        let authority = machine.register(self.authority.number());
        if IS_UNSEALING {
            unseal(source, authority)
        } else {
            seal(source, authority)
        }
    }

    #[inline(always)]
    fn clear<M: TaggedStore>(self, machine: &Machine<M>) -> Cap {
        let source = machine.register(self.source.number());
        let authority = machine.register(self.authority.number());
        if IS_UNSEALING {
            unseal_clear(source, authority)
        } else {
            seal_clear(source, authority)
        }
    }
}

// A code if there is a tag, or else 0. It has no branch on the tag, which can't be predicted in many logs.
#[inline(always)]
fn code_if(tag: bool, code: u64) -> u64
    ensures { result ≡ code_for tag code }
{
    code & u64::from(tag).wrapping_neg()
}

// The code of a result, by what it comes from and the code of this. The tag is mostly the same, but can't be predicted
// itself in many logs.
#[inline(always)]
fn code_of(given: Cap, parent: Cap, code: u64) -> u64
    requires keeps { IsTrue given.tag → IsTrue parent.tag }
    requires coded { IsCoded parent.tag code }
    ensures code { result ≡ code_for given.tag code }
{
    if given.tag == parent.tag { code } else { 0 }
}

impl Derivation for LoadCap {
    #[inline(always)]
    fn derive<M: TaggedStore>(&self, machine: &mut Machine<M>) -> Result<(Cap, u64), StepEnd> {
        let address = machine.reach(self, self.authority, Kind::LoadCap, self.offset, 16)?;
        machine.kept();
        let (held, code) = machine.granule_with_code(address / 16);
        let given = loaded(machine.register(self.authority.number()), held);
        Ok((given, code_of(given, held, code)))
    }

    #[inline(always)]
    fn conclude<M: TaggedStore>(
        self,
        given: Cap,
        code: u64,
        machine: &mut Machine<M>,
    ) -> Result<(), StepEnd> {
        machine.conclude(&self, self.target, given, self.result, code)
    }
}

impl Instruction for LoadCap {
    #[inline(always)]
    fn perform<M: TaggedStore>(self, machine: &mut Machine<M>) -> Result<(), StepEnd> {
        self.in_range();
        let (given, code) = self.derive(machine)?;
        self.conclude(given, code, machine)
    }

    fn shown<M: TaggedStore>(self, machine: &Machine<M>) -> Shown {
        let reached = machine.reached(self.authority, self.offset, 16, LOAD);
        let granule = reached.address / 16;
        let given = Given::Capability {
            place: Place::Register(self.target.number()),
            cap: loaded(
                machine.register(self.authority.number()),
                machine.granule(granule),
            ),
            fault: None,
            recorded: self.result,
        };
        Shown::of_access(Some(Place::Granule(granule)), reached, given)
    }

    #[inline(always)]
    fn written<M: TaggedStore>(&self, _machine: &Machine<M>) -> Option<Place> {
        register_at(self.target)
    }
}

impl Instruction for StoreCap {
    #[inline(always)]
    fn perform<M: TaggedStore>(self, machine: &mut Machine<M>) -> Result<(), StepEnd> {
        let stored = machine.register(self.source.number());
        let kind = Kind::StoreCap(stored);
        let address = machine.reach(&self, self.authority, kind, self.offset, 16)?;
        let code = machine.codes[self.source.number() as usize];
        machine.put_counted(address / 16, stored, code)
    }

    fn shown<M: TaggedStore>(self, machine: &Machine<M>) -> Shown {
        let needs = needs_to_store(machine.register(self.source.number()));
        let reached = machine.reached(self.authority, self.offset, 16, needs);
        Shown::of_access(
            Some(Place::Register(self.source.number())),
            reached,
            Given::Nothing,
        )
    }

    #[inline(always)]
    fn written<M: TaggedStore>(&self, machine: &Machine<M>) -> Option<Place> {
        granule_at(machine, self.authority, self.offset)
    }
}

impl Instruction for Load {
    #[inline(always)]
    fn perform<M: TaggedStore>(self, machine: &mut Machine<M>) -> Result<(), StepEnd> {
        let size = self.datum.size();
        let kind = Kind::LoadData;
        let address = machine.reach(&self, self.authority, kind, self.offset, size.bytes())?;
        let number = machine.value(address, size);
        let recorded = self.datum.value();
        if number != recorded {
            return Err(StepEnd::Refused(Refusal::WrongResult));
        }
        if machine.steps >= MOST_STEPS {
            return Err(StepEnd::Refused(Refusal::LimitPassed));
        }
        machine.steps += 1;
        Ok(())
    }

    fn shown<M: TaggedStore>(self, machine: &Machine<M>) -> Shown {
        let size = self.datum.size();
        let access = Access {
            kind: Kind::LoadData,
            offset: self.offset.number(),
            size: size.bytes(),
        };
        let given = match may_access(machine.register(self.authority.number()), access) {
            Ok(address) => Given::Number {
                value: machine.value(address, size),
                size,
                recorded: self.datum.value(),
            },
            Err(_) => Given::Nothing,
        };
        let reached = machine.reached(self.authority, self.offset, size.bytes(), LOAD);
        Shown::of_access(None, reached, given)
    }

    #[inline(always)]
    fn written<M: TaggedStore>(&self, _machine: &Machine<M>) -> Option<Place> {
        None
    }
}

impl Instruction for Store {
    #[inline(always)]
    fn perform<M: TaggedStore>(self, machine: &mut Machine<M>) -> Result<(), StepEnd> {
        let kind = Kind::StoreData;
        machine.kept();
        let size = self.datum.size().bytes();
        let address = machine.reach(&self, self.authority, kind, self.offset, size)?;
        let byte = (address % 16) as u8;
        machine.put_value_counted(address / 16, byte, self.datum)
    }

    fn shown<M: TaggedStore>(self, machine: &Machine<M>) -> Shown {
        let reached = machine.reached(
            self.authority,
            self.offset,
            self.datum.size().bytes(),
            STORE,
        );
        Shown::of_access(None, reached, Given::Nothing)
    }

    #[inline(always)]
    fn written<M: TaggedStore>(&self, machine: &Machine<M>) -> Option<Place> {
        granule_at(machine, self.authority, self.offset)
    }
}

// The register that a step writes.
#[inline(always)]
fn register_at(target: Target) -> Option<Place>
    ensures value { result ≡ Some (PlaceIn.Register target) }
    ensures in_range { IfSome result IsPlace }
{
    Some(Place::Register(target.number()))
}

// The granule that an access through a register reaches.
#[tactic(auto, unfolding(cap_ops::specs::Accesses::access_address))]
#[inline(always)]
fn granule_at<M: TaggedStore>(
    machine: &Machine<M>,
    authority: Register,
    offset: Offset,
) -> Option<Place>
    ensures value { result ≡ Some (PlaceIn.Granule (granule_through (state_of machine.now) authority offset)) }
    ensures in_range { IfSome result IsPlace }
{
    let word = machine.register(authority.number()).word;
    let address = word
        .address()
        .wrapping_add_signed(i64::from(offset.number()));
    Some(Place::Granule(address / 16))
}

// The permissions that storing a capability needs.
#[tactic(auto, unfolding(cap_ops::specs::Permissions::has_permission))]
fn needs_to_store(stored: Cap) -> u32
    ensures value { result ≡ needs_to_store stored }
{
    if !stored.tag {
        STORE
    } else if (perm_view(stored.word) >> GLOBAL) & 1 == 1 {
        STORE + STORE_CAPABILITY
    } else {
        STORE + STORE_CAPABILITY + STORE_LOCAL_CAPABILITY
    }
}

// What is done with a step, whatever its kind.
macro_rules! by_kind {
    ($any:expr, $step:ident => $done:expr) => {
        match $any {
            Step::Move($step) => $done,
            Step::ClearTag($step) => $done,
            Step::SetBounds($step) => $done,
            Step::SetBoundsExact($step) => $done,
            Step::SetAddr($step) => $done,
            Step::AndPerm($step) => $done,
            Step::Seal($step) => $done,
            Step::Unseal($step) => $done,
            Step::LoadCap($step) => $done,
            Step::StoreCap($step) => $done,
            Step::Load($step) => $done,
            Step::Store($step) => $done,
        }
    };
}

/// What is done with a step, whatever its kind, to something.
pub trait WithStep<T> {
    /// What it answers.
    type Answer;

    // What it does.
    ghost does: { T → Step → Self.Answer → T → Type 0 };

    /// Does it with a step of one kind.
    fn with_kind<I: Instruction>(on: &mut T, kind: I) -> Self::Answer
        ensures done { does on.old (I.step kind) result on.new };
}

/// Does it by the kind of a step.
#[inline(always)]
pub fn by_step<T, K: WithStep<T>>(on: &mut T, step: &Step) -> K::Answer
    ensures done { K.does on.old step.now result on.new }
{
    by_kind!(*step, kind => with_any::<T, K, _>(on, kind))
}

// Does it with a step that is of this kind.
#[inline(always)]
fn with_any<T, K: WithStep<T>, I: Instruction>(on: &mut T, kind: I) -> K::Answer
    ensures done { (step : Step) → step ≡ I.step kind → K.does on.old step result on.new }
{
    K::with_kind(on, kind)
}

/// Makes a step, as [`Instruction::perform`] does.
#[inline(always)]
pub fn make<M: TaggedStore>(step: &Step, machine: &mut Machine<M>) -> Result<(), StepEnd>
    ensures outcome { AnswersStep machine.old step.now result machine.new }
    ensures range { IsStepInRange step.now }
{
    by_kind!(*step, step => make_kind(step, machine))
}

// Makes a step that is of this kind.
#[inline(always)]
fn make_kind<M: TaggedStore, I: Instruction>(
    kind: I,
    machine: &mut Machine<M>,
) -> Result<(), StepEnd>
    ensures outcome { (step : Step) → step ≡ I.step kind → AnswersStep machine.old step result machine.new }
    ensures range { IsStepInRange (I.step kind) }
{
    kind.perform(machine)
}

/// What a step shows, as [`Instruction::shown`] does.
#[inline(always)]
pub fn show<M: TaggedStore>(step: &Step, machine: &Machine<M>) -> Shown
    ensures shown { result ≡ shown_of (state_of machine.now) step.now }
    ensures in_range { IsShown result }
{
    by_kind!(*step, step => step.shown(machine))
}

/// The place that a step writes, as [`Instruction::written`] does.
#[inline(always)]
pub fn written_by<M: TaggedStore>(step: &Step, machine: &Machine<M>) -> Option<Place>
    ensures place { result ≡ written_by (state_of machine.now) step.now }
    ensures in_range { IfSome result IsPlace }
{
    by_kind!(*step, step => step.written(machine))
}
