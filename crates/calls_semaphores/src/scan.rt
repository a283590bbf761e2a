//! Decides a history in one pass.
ghost use Rattle.std.specs.Prelude.{◌≡◌, ◌-◌, ◌<◌, ◌≤◌, ◌^◌, [], IfOk, length, reverse};
ghost use Rattle.calls_core.specs.declared.history.Kind.TheVariants.{Semaphores};
ghost use Rattle.calls_core.specs.declared.history.Action.TheVariants.{Invoke, Respond};
ghost use Rattle.calls_core.specs.Histories.{IsHistoryOf, clock};
ghost use Rattle.calls_semaphores.specs.Monitors.{UpTo, GrowsByOne};
ghost use Rattle.calls_semaphores.specs.kept.Keeping.{is_v, IsOpened, Steps};
ghost use Rattle.calls_semaphores.specs.Outcomes.{IsOutcome};

use crate::{Bank, Fault, Outcome};
use calls_core::{Action, CallList, Event, NotedCall, Op, Part, PendingCall, Reply, find_noted};
use std::alloc::{AllocError, Global};

/// The state of the scan after the events so far.
#[derive(Drop)]
pub(crate) struct Scan {
    /// The units that are left.
    pub(crate) bank: Bank,
    /// The pending calls, each with the length of `order` at its invocation, where a v is.
    pub(crate) pending: Vec<NotedCall>,
    /// A linearization, in which a pending v has its response at `end`.
    pub(crate) order: CallList,
    /// The first position after all events.
    pub(crate) end: usize,
}

/// Returns whether this is a v.
fn is_v(op: Op) -> bool
    ensures { result ≡ is_v op }
{
    matches!(op, Op::V(_))
}

impl Scan {
    /// Returns the scan of no events, for a bank of semaphores that have these units.
    fn new(alloc: Global, units: &Vec<usize>, end: usize) -> Result<Self, AllocError>
        ensures { IfOk result (λ s. (s.end ≡ end) × IsOpened units.now.items s.bank
            × (s.pending.items ≡ []) × (s.order ≡ [])) }
    {
        Ok(Scan {
            bank: Bank::new(alloc, units)?,
            pending: Vec::new(alloc),
            order: CallList::new(alloc),
            end,
        })
    }

    /// Adds an invocation.
    fn invoke(&mut self, event: Event, object: usize, op: Op) -> Result<(), AllocError>
        requires { UpTo (usize.MAX - 1) self.old.bank.added.items }
        ensures end { self.new.end ≡ self.old.end }
        ensures grows { GrowsByOne self.old.bank.added.items self.new.bank.added.items }
        ensures step { IfOk result (λ u. event.action ≡ Invoke object op
            → Steps self.old self.new event None) }
    {
        let call = PendingCall::new(event, object, op);
        let noted = self.order.len();
        self.pending.push(NotedCall { call, noted })?;
        self.bank.add(op);
        if !is_v(op) {
            return Ok(());
        }
        self.order.push(call.complete(Reply::Done, self.end))?;
        Ok(())
    }

    /// Adds a response, and returns the fault that it shows, if any.
    fn respond(&mut self, event: Event, reply: Reply) -> Result<Option<Fault>, AllocError>
        ensures end { self.new.end ≡ self.old.end }
        ensures grows { GrowsByOne self.old.bank.added.items self.new.bank.added.items }
        ensures step { IfOk result (λ f. event.action ≡ Respond reply
            → Steps self.old self.new event f) }
    {
        let Some(k) = find_noted(&self.pending, event.worker) else {
            return Ok(None);
        };
        let open = self.pending.remove(k);
        let call = open.call.complete(reply, event.at);
        if let Some(index) = self.bank.take(call.op, reply) {
            return Ok(Some(Fault { call, index }));
        }
        if !is_v(call.op) {
            self.order.push(call)?;
        } else if open.noted < self.order.len() {
            self.order.set_response(open.noted, reply, event.at)?;
        }
        Ok(None)
    }

    /// Adds an event, and returns the fault that it shows, if any.
    fn event(&mut self, event: Event) -> Result<Option<Fault>, AllocError>
        requires { UpTo (usize.MAX - 1) self.old.bank.added.items }
        ensures end { self.new.end ≡ self.old.end }
        ensures grows { GrowsByOne self.old.bank.added.items self.new.bank.added.items }
        ensures step { IfOk result (λ f. Steps self.old self.new event f) }
    {
        match event.action {
            Action::Invoke(object, op) => {
                self.invoke(event, object, op)?;
                Ok(None)
            }
            Action::Respond(reply) => self.respond(event, reply),
        }
    }
}

/// Decides whether the calls of a bank of semaphores have a linearization.
///
/// `end` is a position after all events.
pub fn decide(
    alloc: Global,
    units: &Vec<usize>,
    events: &Part<'_>,
    end: usize,
) -> Result<Outcome, AllocError>
    requires history { IsHistoryOf (Semaphores units.now) (reverse events.now) }
    requires end { clock (reverse events.now) ≤ end }
    requires room { length events.now < 2 ^ 64 }
    ensures { IfOk result (IsOutcome (Semaphores units.now) events.now end) }
{
    let mut scan = Scan::new(alloc, units, end)?;
    for i in 0..events.len() {
        let event = events.at(i);
        if let Some(fault) = scan.event(event)? {
            return Ok(Outcome::Refused(i, fault));
        }
    }
    Ok(Outcome::Ordered(scan.order))
}
