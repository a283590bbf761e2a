//! The state of a kernel.
ghost use Rattle.std.specs.Prelude.{reverse, true, false, if◌then◌else◌, nat_lt, ◌≡◌, ◌+◌, ◌*◌, ◌<◌, List, [], ◌∷◌, ◌++◌, length, Some, None, Ok, Err, IfOk, IfSome, OnErr, MatchResult};
ghost use Rattle.ec_core.specs.declared.act.Entry.{Entry};
ghost use Rattle.ec_core.specs.Acceptance.{answer_of, refused_or, refusal_in};
ghost use Rattle.std.specs.Option.{option_map};
ghost use Rattle.ec_core.specs.Calls.{is_go, under_way};
ghost use Rattle.ec_core.specs.Following.{opening_act};
ghost use Rattle.ec_core.specs.Rounds.{component_count};
ghost use Rattle.ec_core.specs.Counts.{total, signaller_at, component_at, component_total, issued, cell_value};
ghost use Rattle.ec_core.specs.Standing.{StandsFor, progress_of};
ghost use Rattle.ec_core.specs.Values.{TellsAtMost};
ghost use Rattle.ec_core.specs.Procedures.{IsReply};
ghost use Rattle.ec_core.specs.kept.Fields.{component_in, right_in, already_in, is_full_for, read_effect, effect_in, effect_or_refusal, apply_effect, with_round, op_in, IsNamed, IsRightStep};

use crate::effect::Effect;
use crate::fields::{
    component_count, component_sum, count_in, declared_signallers, is_too_large, raise_at,
    raise_in, same_again, ticket_count,
};
use crate::under_way::Round;
use crate::{Act, Entry, Refusal, Reply, UnderWay, VALUE_MAX};
use ec_count::{CellId, Count, EventId, Members, SeqId, Setup, WorkerId, filled};
use std::marker::Model;

/// Returns the refusal, if the test holds.
#[inline(always)]
fn refuse_if(test: bool, refusal: Refusal) -> Result<(), Refusal>
    ensures { MatchResult result (λ x. test ≡ false) (λ r. (test ≡ true) × (r ≡ refusal)) }
{
    if test { Err(refusal) } else { Ok(()) }
}

/// Sets the progress of the round of the call, if there is one.
#[inline(always)]
fn go_on(call: &mut Option<UnderWay>, round: Round)
    ensures { call.new ≡ option_map (with_round round) call.old }
{
    if let Some(call) = call {
        call.go_on(round);
    }
}

/// A step that was made: the act that began the call that it is part of, and the reply.
#[derive(Clone, Copy, Debug, PartialEq, Eq)]
pub struct Step {
    pub op: Act,
    pub reply: Reply,
}

/// The state of a kernel: its signallers now, its counts, cells and pending calls.
#[derive(Drop)]
pub struct World {
    setup: Setup,
    signal: [Members; 32],
    counts: [[Count; 16]; 32],
    issued: [Count; 32],
    cells: [u64; 256],
    calls: [Option<UnderWay>; 16],
}

impl Model for World {
    ghost use Rattle.ec_core.specs.Standing.{State};

    ghost Value = { State };

    ghost view = { λ w. record { setup = w.setup; signal = w.signal; counts = w.counts; issued = w.issued; cells = w.cells; calls = w.calls } };
}

impl World {
    /// Returns the state before any step, on these declarations.
    ///
    /// It allocates nothing, nor does any other function of a world.
    pub fn open(setup: Setup) -> Self
        ensures history { StandsFor result [] }
        ensures setup { result.setup ≡ setup }
    {
        setup.invariant();
        let signal = declared_signallers(&setup);
        let zero = Count::zero(setup.limit());
        World {
            setup,
            signal,
            counts: filled(filled(zero)),
            issued: filled(zero),
            cells: filled(0),
            calls: filled(None),
        }
    }

    /// Returns the declarations that the world is on.
    pub fn setup(&self) -> &Setup
        ensures { result.now ≡ self.now.setup }
    {
        &self.setup
    }

    /// Returns a copy of the state.
    pub(crate) fn copy(&self) -> Self
        ensures { result ≡ self.now }
    {
        World {
            setup: self.setup.copy(),
            signal: self.signal.clone().unwrap(),
            counts: same_again(&self.counts),
            issued: same_again(&self.issued),
            cells: same_again(&self.cells),
            calls: same_again(&self.calls),
        }
    }

    /// Returns the worker that signals a component now; `None` if there is no such component.
    ///
    /// There is none if the eventcount is not declared.
    pub fn signaller(&self, event: EventId, component: usize) -> Option<WorkerId>
        ensures { (h : List Entry) → StandsFor self.now h → result ≡ signaller_at self.now.setup event (reverse h) component }
    {
        let signallers = &self.signal[event.get()];
        signallers.get(component)
    }

    /// Returns the component of an eventcount that the worker signals now; `None` if it signals
    /// none.
    ///
    /// It signals none if either is not declared.
    pub fn component_of(&self, event: EventId, worker: WorkerId) -> Option<usize>
        ensures { (h : List Entry) → StandsFor self.now h → result ≡ component_at self.now.setup event (reverse h) worker }
    {
        self.own_component(event, worker)
    }

    #[inline(always)]
    fn own_component(&self, event: EventId, worker: WorkerId) -> Option<usize>
        ensures value { result ≡ component_in self.now event worker }
        ensures few { IfSome result (λ c. c < 16) }
    {
        let signallers = &self.signal[event.get()];
        signallers.place(worker)
    }

    /// Returns the total of an eventcount, the number of its advances; `None` if it is not
    /// declared.
    pub fn total(&self, event: EventId) -> Option<u64>
        ensures { (h : List Entry) → StandsFor self.now h
            → result ≡ (if nat_lt event (length self.now.setup.events) then Some (total event (reverse h)) else None) }
    {
        if event.get() >= self.setup.events() {
            return None;
        }
        let width = component_count(&self.setup, event);
        Some(component_sum(&self.counts, event.get(), width))
    }

    /// Returns the count of a component: how many advances were made by its signaller at that time.
    /// `None` if there is no such component, and so if the eventcount is not declared.
    pub fn component(&self, event: EventId, component: usize) -> Option<u64>
        ensures { (h : List Entry) → StandsFor self.now h
            → result ≡ (if nat_lt component (component_count self.now.setup event) then Some (component_total self.now.setup event component (reverse h)) else None) }
    {
        if component >= component_count(&self.setup, event) {
            return None;
        }
        Some(count_in(&self.counts, event.get(), component).value())
    }

    /// Returns how many tickets of a sequencer were drawn, which is the next ticket's number.
    /// `None` if it is not declared.
    pub fn issued(&self, sequencer: SeqId) -> Option<u64>
        ensures { (h : List Entry) → StandsFor self.now h
            → result ≡ (if nat_lt sequencer (length self.now.setup.takers) then Some (issued sequencer (reverse h)) else None) }
    {
        if sequencer.get() >= self.setup.sequencers() {
            return None;
        }
        let count = ticket_count(&self.issued, sequencer.get());
        Some(count.value())
    }

    /// Returns the value last put into a cell, 0 before any put. `None` if it is not declared.
    pub fn cell(&self, cell: CellId) -> Option<u64>
        ensures { (h : List Entry) → StandsFor self.now h
            → result ≡ (if nat_lt cell (length self.now.setup.cells) then Some (cell_value cell (reverse h)) else None) }
    {
        if cell.get() >= self.setup.cells() {
            return None;
        }
        Some(self.cells[cell.get()])
    }

    /// Returns the worker's pending read or await, if there is one.
    pub fn under_way(&self, worker: WorkerId) -> Option<UnderWay>
        ensures { (h : List Entry) → StandsFor self.now h → result ≡ progress_of self.now.setup worker (reverse h) }
    {
        let place = worker.get();
        self.calls[place]
    }

    /// Returns the effect of reading the next component of a call.
    #[inline(always)]
    fn read(&self, call: &UnderWay) -> Effect
        ensures { result ≡ read_effect self.now call.now }
    {
        let event = call.event();
        let width = component_count(&self.setup, event);
        let counts = &self.counts[event.get()];
        call.read(width, counts)
    }

    /// Returns the effect of an act that begins a call, or its first refusal.
    ///
    /// The worker is declared and has no pending call, so the refusal comes after `Idle` in their
    /// order.
    #[inline(always)]
    fn begin(&self, worker: WorkerId, act: &Act) -> Result<Effect, Refusal>
        requires declared { worker < self.now.setup.workers }
        requires begins { is_go act.now ≡ false }
        ensures { (past : List Entry) → result ≡ refused_or (refusal_in self.now.setup worker act.now false (right_in self.now past worker act.now) (is_full_for self.now worker act.now) (already_in self.now act.now)) (effect_in self.now worker act.now) }
    {
        match *act {
            Act::Advance(event) => {
                refuse_if(event.get() >= self.setup.events(), Refusal::UnknownObject)?;
                let own = self.own_component(event, worker);
                let component = own.ok_or(Refusal::NoRight)?;
                let count = count_in(&self.counts, event.get(), component);
                refuse_if(count.is_full(), Refusal::AtLimit)?;
                Ok(Effect::Raise(event, component))
            }
            Act::Read(event) | Act::Await(event, _) => {
                refuse_if(event.get() >= self.setup.events(), Refusal::UnknownObject)?;
                refuse_if(!self.setup.may_observe(event, worker), Refusal::NoRight)?;
                refuse_if(is_too_large(act), Refusal::ValueTooLarge)?;
                let call = UnderWay::new(*act);
                Ok(self.read(&call).as_first(&call))
            }
            Act::Go => Err(Refusal::Idle),
            Act::Ticket(sequencer) => {
                refuse_if(
                    sequencer.get() >= self.setup.sequencers(),
                    Refusal::UnknownObject,
                )?;
                refuse_if(!self.setup.may_take(sequencer, worker), Refusal::NoRight)?;
                let count = ticket_count(&self.issued, sequencer.get());
                refuse_if(count.is_full(), Refusal::AtLimit)?;
                Ok(Effect::Draw(sequencer, count.value()))
            }
            Act::Put(cell, value) => {
                refuse_if(cell.get() >= self.setup.cells(), Refusal::UnknownObject)?;
                refuse_if(!self.setup.may_write(cell, worker), Refusal::NoRight)?;
                refuse_if(is_too_large(act), Refusal::ValueTooLarge)?;
                Ok(Effect::Put(cell, value))
            }
            Act::Get(cell) => {
                refuse_if(cell.get() >= self.setup.cells(), Refusal::UnknownObject)?;
                refuse_if(!self.setup.may_read(cell, worker), Refusal::NoRight)?;
                Ok(Effect::Get(self.cells[cell.get()]))
            }
            Act::Hand(event, to) => {
                refuse_if(event.get() >= self.setup.events(), Refusal::UnknownObject)?;
                refuse_if(to.get() >= self.setup.workers(), Refusal::UnknownObject)?;
                let own = self.own_component(event, worker);
                refuse_if(own.is_none(), Refusal::NoRight)?;
                refuse_if(!self.setup.may_hand(event), Refusal::NotHandable)?;
                let other = self.own_component(event, to);
                refuse_if(other.is_some(), Refusal::AlreadySignals)?;
                Ok(Effect::Hand(event, to))
            }
        }
    }

    /// Returns the effect of a step, or the first refusal that applies.
    #[inline(always)]
    fn effect(&self, worker: WorkerId, act: Act) -> Result<Effect, Refusal>
        ensures named { IsNamed act }
        ensures is { (past : List Entry) → result ≡ effect_or_refusal self.now past worker act }
    {
        refuse_if(worker.get() >= self.setup.workers(), Refusal::UnknownWorker)?;
        match (&self.calls[worker.get()], act) {
            (Some(call), Act::Go) => Ok(self.read(call)),
            (Some(_), _) => Err(Refusal::Busy),
            (None, Act::Go) => Err(Refusal::Idle),
            (None, _) => self.begin(worker, &act),
        }
    }

    /// Returns the effect of a step of the worker after the history, or the first refusal that
    /// applies.
    #[inline(always)]
    pub(crate) fn plan(&self, worker: WorkerId, act: &Act) -> Result<Effect, Refusal>
        ensures { (h : List Entry) → StandsFor self.now h
            → MatchResult result (IsRightStep self.now h worker act.now) (λ r. answer_of self.now.setup (reverse h) worker act.now ≡ Err r) }
    {
        self.effect(worker, *act)
    }

    /// Makes the change that is the effect of a step of the worker.
    #[inline(always)]
    pub(crate) fn apply(&mut self, worker: WorkerId, effect: &Effect)
        ensures { self.new ≡ apply_effect self.old worker effect.now }
    {
        match *effect {
            Effect::Raise(event, component) => {
                raise_in(&mut self.counts, event.get(), component);
            }
            Effect::Begin(call) => self.calls[worker.get()] = Some(call),
            Effect::GoOn(round) => {
                let call = &mut self.calls[worker.get()];
                go_on(call, round);
            }
            Effect::End(_) => self.calls[worker.get()] = None,
            Effect::Draw(sequencer, _) => raise_at(&mut self.issued, sequencer.get()),
            Effect::Put(cell, value) => self.cells[cell.get()] = value,
            Effect::Get(_) => {}
            Effect::Hand(event, to) => {
                let signallers = &mut self.signal[event.get()];
                signallers.replace(worker, to);
            }
        }
    }

    /// Returns the act that began the call that an act of the worker is part of, if this call is
    /// pending.
    #[inline(always)]
    fn begun_by(&self, worker: WorkerId, act: &Act) -> Act
        ensures { result ≡ op_in self.now worker act.now }
    {
        match (*act, &self.calls[worker.get()]) {
            (Act::Go, Some(call)) => call.op(),
            (other, _) => other,
        }
    }

    /// Returns what `step` would return, and changes nothing.
    #[inline(always)]
    pub fn answer(&self, worker: WorkerId, act: &Act) -> Result<Reply, Refusal>
        ensures answer { (h : List Entry) → StandsFor self.now h → result ≡ answer_of self.now.setup (reverse h) worker act.now }
        ensures small { (h : List Entry) → StandsFor self.now h → IfOk result (TellsAtMost VALUE_MAX) }
        ensures kind { (h : List Entry) → StandsFor self.now h → IfOk result (IsReply act.now) }
    {
        match self.plan(worker, act) {
            Ok(effect) => Ok(effect.reply()),
            Err(refusal) => Err(refusal),
        }
    }

    /// Makes one step and returns the right reply, or returns the first refusal and changes
    /// nothing.
    #[inline(always)]
    pub fn step(&mut self, worker: WorkerId, act: Act) -> Result<Reply, Refusal>
        ensures answer { (h : List Entry) → StandsFor self.old h → result ≡ answer_of self.old.setup (reverse h) worker act }
        ensures after { (h : List Entry) → StandsFor self.old h
            → IfOk result (λ reply. StandsFor self.new (h ++ record { worker = worker; act = act; reply = reply } ∷ [])) }
        ensures small { (h : List Entry) → StandsFor self.old h → IfOk result (TellsAtMost VALUE_MAX) }
        ensures kind { (h : List Entry) → StandsFor self.old h → IfOk result (IsReply act) }
        ensures setup { self.new.setup ≡ self.old.setup }
        ensures err { OnErr result (self.new ≡ self.old) }
    {
        match self.step_of_call(worker, act) {
            Ok(step) => Ok(step.reply),
            Err(refusal) => Err(refusal),
        }
    }

    /// Makes one step, as `step` does, and returns with it the act that began its call.
    #[inline(always)]
    pub fn step_of_call(&mut self, worker: WorkerId, act: Act) -> Result<Step, Refusal>
        ensures answer { (h : List Entry) → StandsFor self.old h
            → MatchResult result (λ s. answer_of self.old.setup (reverse h) worker act ≡ Ok s.reply) (λ r. answer_of self.old.setup (reverse h) worker act ≡ Err r) }
        ensures op { (h : List Entry) → StandsFor self.old h → IfOk result (λ s. s.op ≡ opening_act act (under_way worker (reverse h))) }
        ensures after { (h : List Entry) → StandsFor self.old h
            → IfOk result (λ s. StandsFor self.new (h ++ record { worker = worker; act = act; reply = s.reply } ∷ [])) }
        ensures small { (h : List Entry) → StandsFor self.old h → IfOk result (λ s. TellsAtMost VALUE_MAX s.reply) }
        ensures kind { (h : List Entry) → StandsFor self.old h → IfOk result (λ s. IsReply act s.reply) }
        ensures setup { self.new.setup ≡ self.old.setup }
        ensures err { OnErr result (self.new ≡ self.old) }
    {
        let effect = self.plan(worker, &act)?;
        let op = self.begun_by(worker, &act);
        self.apply(worker, &effect);
        let reply = effect.reply();
        Ok(Step { op, reply })
    }
}
