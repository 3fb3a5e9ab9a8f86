//! Steps of runs on registers: deriving, exchanging, invoking, dropping.

ghost use Rattle.std.specs.Prelude.{◌≡◌, ◌≤◌, ◌<◌, ◌-◌, ◌^◌, None, IsTrue, true, false};
ghost use Rattle.cap_ops.specs.Authority.{StaysWithin};
ghost use Rattle.cap_machine.specs.{Labels.untagged, Parents.IsSoundCap};
ghost use Rattle.cap_run_log.specs.declared.lines.RunStep.TheVariants as steps;
ghost use Rattle.cap_run_log.specs.RunLines.{IsRunRegister};
ghost use Rattle.cap_run.specs.{Run.register_key, RunOf.{run_state}};
ghost use Rattle.cap_run.specs.{RunChanges.{run_after, stepped, with_place}, RunChecks.{Answers, run_end, run_wants}};
ghost use Rattle.cap_run.specs.RunSteps.{derived_refusal, invoked_refusal, is_pcc, step_limit};
ghost use Rattle.cap_run.specs.Machines.{run_in, slots_in};

use crate::derivations::is_plainly_derived;
use crate::ends::{RunEnd, RunRefusal};
use crate::run_machine::RunMachine;
use cap_log::{Register, Target};
use cap_machine::{MOST_STEPS, Refusal};
use cap_ops::{DeriveFault, InvokeFault, derive_fault, invoke_fault};
use cap_run_log::{Derive, Exchange, Invoke, RunRegister, Special};
use cap_word::{Cap, Word};
use tagmem::TaggedStore;

// The same capability, made anew for a call: only where that call is made does it then stand in memory.
#[inline(always)]
fn anew(cap: Cap) -> Cap
    ensures { result ≡ cap }
{
    Cap {
        tag: cap.tag,
        word: Word(cap.word.0),
    }
}

// Whether a register is PCC: there alone a sentry opens.
#[inline(always)]
fn is_pcc(register: RunRegister) -> bool
    requires { IsRunRegister 1 register }
    ensures { result ≡ is_pcc register }
{
    matches!(register, RunRegister::Special(0))
}

// Why a register can't get what is derived from a source.
#[inline(never)]
fn derived_refusal(target: RunRegister, source: Cap, recorded: Cap) -> Option<RunRefusal>
    requires { IsRunRegister 1 target }
    ensures value { result ≡ derived_refusal target source recorded }
    ensures within { result ≡ None → IsTrue recorded.tag → StaysWithin recorded source }
{
    if !recorded.tag {
        return None;
    }
    match derive_fault(source, recorded.word, is_pcc(target)) {
        None => None,
        Some(fault) => Some(match fault {
            DeriveFault::SourceUntagged => RunRefusal::Usual(Refusal::SourceUntagged),
            DeriveFault::UnsoundResult => RunRefusal::UnsoundResult,
            DeriveFault::BeyondSource => RunRefusal::BeyondSource,
            DeriveFault::SealChanged => RunRefusal::SealChanged,
        }),
    }
}

// Why a pair can't be invoked.
fn invoked_refusal(
    code_cap: Cap,
    data_cap: Cap,
    code_word: Word,
    data_word: Word,
) -> Option<RunRefusal>
    ensures value { result ≡ invoked_refusal code_cap data_cap code_word data_word }
    ensures code_within { result ≡ None → StaysWithin (record { tag = true; word = code_word }) code_cap }
    ensures data_within { result ≡ None → StaysWithin (record { tag = true; word = data_word }) data_cap }
{
    match invoke_fault(code_cap, data_cap, code_word, data_word) {
        None => None,
        Some(fault) => Some(match fault {
            InvokeFault::AuthorityUntagged => RunRefusal::Usual(Refusal::AuthorityUntagged),
            InvokeFault::NotInvokable => RunRefusal::NotInvokable,
            InvokeFault::WrongResult => RunRefusal::Usual(Refusal::WrongResult),
        }),
    }
}

impl<M: TaggedStore> RunMachine<M> {
    // Whether one step more passes the limit.
    #[inline(always)]
    pub(crate) fn step_limit(&self) -> Option<RunRefusal>
        ensures value { result ≡ step_limit (slots_in self.now) }
        ensures few { result ≡ None → self.now.machine.steps < 2 ^ 32 - 1 }
    {
        if self.machine.steps() >= MOST_STEPS {
            Some(RunRefusal::Usual(Refusal::LimitPassed))
        } else {
            None
        }
    }

    // Why a register can't get what is derived from another one: mostly nothing refuses it, and that is told at once.
    #[inline(always)]
    fn refusal_of_derived(
        &self,
        target: RunRegister,
        source: RunRegister,
        recorded: Cap,
    ) -> Option<RunRefusal>
        requires target { IsRunRegister 1 target }
        requires source { IsRunRegister 0 source }
        ensures value { result ≡ derived_refusal target (run_state self.now.machine self.now.specials (register_key source)) recorded }
        ensures within { result ≡ None → IsTrue recorded.tag
            → StaysWithin recorded (run_state self.now.machine self.now.specials (register_key source)) }
        ensures sound { IsSoundCap (run_state self.now.machine self.now.specials (register_key source)) }
    {
        let cap = self.register(source);
        if is_plainly_derived::<true>(cap, recorded.word, is_pcc(target)) {
            return None;
        }
        derived_refusal(target, cap, recorded)
    }

    // Whether a register can get what is derived from another one, as is told at once: it has no tag, or the same bounds and
    // permissions. `false` says nothing.
    #[inline(always)]
    fn gets<const FAR: bool>(&self, target: RunRegister, source: RunRegister, recorded: Cap) -> bool
        requires target { IsRunRegister 1 target }
        requires source { IsRunRegister 0 source }
        ensures value { result ≡ true → derived_refusal target (run_state self.now.machine self.now.specials (register_key source)) recorded ≡ None }
        ensures within { result ≡ true → IsTrue recorded.tag
            → StaysWithin recorded (run_state self.now.machine self.now.specials (register_key source)) }
        ensures sound { IsSoundCap (run_state self.now.machine self.now.specials (register_key source)) }
    {
        let cap = self.register(source);
        !recorded.tag || is_plainly_derived::<FAR>(cap, recorded.word, is_pcc(target))
    }

    /// A register gets what is derived from another one, with its owner, or without a tag from any. It is refused for the
    /// first of these that holds of a tagged result: its source has no tag (`SourceUntagged`); its word isn't sound
    /// (`UnsoundResult`); its bounds leave the source's, or it has a permission more (`BeyondSource`); its seal isn't
    /// kept (`SealChanged`). And of any: there are 4,294,967,295 steps (`LimitPassed`). Then nothing has changed.
    #[inline(always)]
    pub fn derive(&mut self, derive: Derive) -> Result<(), RunEnd>
        ensures outcome { let old = run_in self.old in
            let step = steps.Derive derive in
            Answers (run_end self.old.asks old step) (run_after old step) (run_wants old step) old result
            (run_in self.new) }
        ensures asks { self.new.asks ≡ self.old.asks }
    {
        let (target, source) = (derive.target.register(), derive.source.register());
        let recorded = derive.result;
        if self.objects.count() == 0
            && self.step_limit().is_none()
            && self.gets::<true>(target, source, recorded)
        {
            self.write_alone(target, source, recorded);
            return Ok(());
        }
        self.derive_apart(target, source, anew(recorded))
    }

    // The same of any derivation, in a function of its own.
    #[inline(never)]
    fn derive_apart(
        &mut self,
        target: RunRegister,
        source: RunRegister,
        recorded: Cap,
    ) -> Result<(), RunEnd>
        requires target { IsRunRegister 1 target }
        requires source { IsRunRegister 0 source }
        ensures outcome { let old = run_in self.old in
            let step = steps.Derive (record { target = target; source = source; result = recorded }) in
            Answers (run_end self.old.asks old step) (run_after old step) (run_wants old step) old result
            (run_in self.new) }
        ensures asks { self.new.asks ≡ self.old.asks }
    {
        if let Some(refusal) = self.refusal_of_derived(target, source, recorded) {
            return Err(RunEnd::Refused(refusal));
        }
        if let Some(refusal) = self.step_limit() {
            return Err(RunEnd::Refused(refusal));
        }
        self.write(target, source, recorded);
        Ok(())
    }

    /// c`target` gets what is derived from scr`number`, and scr`number` what is derived from c`source`, both as they were
    /// before: a jump and link, or CSpecialRW. The checks of the first come first.
    #[inline(always)]
    pub fn exchange(&mut self, exchange: Exchange) -> Result<(), RunEnd>
        ensures outcome { let old = run_in self.old in
            let step = steps.Exchange exchange in
            Answers (run_end self.old.asks old step) (run_after old step) (run_wants old step) old result
            (run_in self.new) }
        ensures asks { self.new.asks ≡ self.old.asks }
    {
        let (target, source, number) = (exchange.target, exchange.source, exchange.special);
        let (recorded, special_recorded) = (exchange.result, exchange.special_result);
        let general = RunRegister::General(target.number());
        let special = RunRegister::Special(number.number());
        let general_source = RunRegister::General(source.number());
        if self.objects.count() == 0
            && self.step_limit().is_none()
            && self.gets::<false>(general, special, recorded)
            && self.gets::<false>(special, general_source, special_recorded)
        {
            self.write_both_alone(
                general,
                special,
                recorded,
                special,
                general_source,
                special_recorded,
            );
            return Ok(());
        }
        self.exchange_apart(
            target,
            source,
            number,
            anew(recorded),
            anew(special_recorded),
        )
    }

    // The same of any exchange, in a function of its own.
    #[inline(never)]
    fn exchange_apart(
        &mut self,
        target: Target,
        source: Register,
        number: Special,
        recorded: Cap,
        special_recorded: Cap,
    ) -> Result<(), RunEnd>
        ensures outcome { let old = run_in self.old in
            let step = steps.Exchange (record {
              target = target;
              source = source;
              special = number;
              result = recorded;
              special_result = special_recorded;
            }) in
            Answers (run_end self.old.asks old step) (run_after old step) (run_wants old step) old result
            (run_in self.new) }
        ensures asks { self.new.asks ≡ self.old.asks }
    {
        let general = RunRegister::General(target.number());
        let special = RunRegister::Special(number.number());
        let general_source = RunRegister::General(source.number());
        if let Some(refusal) = self.refusal_of_derived(general, special, recorded) {
            return Err(RunEnd::Refused(refusal));
        }
        if let Some(refusal) = self.refusal_of_derived(special, general_source, special_recorded) {
            return Err(RunEnd::Refused(refusal));
        }
        if let Some(refusal) = self.step_limit() {
            return Err(RunEnd::Refused(refusal));
        }
        self.write_both(
            general,
            special,
            recorded,
            special,
            general_source,
            special_recorded,
        );
        Ok(())
    }

    /// PCC gets the code, and c31 the data, of a sealed pair, both without their seals (CInvoke).
    pub(crate) fn invoke(&mut self, invoke: Invoke) -> Result<(), RunEnd>
        ensures outcome { let old = run_in self.old in
            let step = steps.Invoke invoke in
            Answers (run_end self.old.asks old step) (run_after old step) (run_wants old step) old result
            (run_in self.new) }
        ensures asks { self.new.asks ≡ self.old.asks }
    {
        let (code_word, data_word) = (invoke.code_word, invoke.datum_word);
        let code = RunRegister::General(invoke.code.number());
        let operand = RunRegister::General(invoke.datum.number());
        if let Some(refusal) = invoked_refusal(
            self.register(code),
            self.register(operand),
            code_word,
            data_word,
        ) {
            return Err(RunEnd::Refused(refusal));
        }
        if let Some(refusal) = self.step_limit() {
            return Err(RunEnd::Refused(refusal));
        }
        let code_cap = Cap {
            tag: true,
            word: code_word,
        };
        let data_cap = Cap {
            tag: true,
            word: data_word,
        };
        self.write_both(
            RunRegister::Special(0),
            code,
            code_cap,
            RunRegister::General(31),
            operand,
            data_cap,
        );
        Ok(())
    }

    /// The tag of a register goes, and its word stays: a revoker's work.
    pub(crate) fn drop_register(&mut self, register: RunRegister) -> Result<(), RunEnd>
        requires { IsRunRegister 1 register }
        ensures outcome { let old = run_in self.old in
            let key = register_key register in
            Answers (step_limit old) (stepped (with_place old key (untagged (old.state key)) None)) false old result
            (run_in self.new) }
        ensures asks { self.new.asks ≡ self.old.asks }
    {
        if let Some(refusal) = self.step_limit() {
            return Err(RunEnd::Refused(refusal));
        }
        let cap = Cap {
            tag: false,
            word: self.register(register).word,
        };
        self.write(register, register, cap);
        Ok(())
    }
}
