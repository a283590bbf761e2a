//! One pass over the entries of a run, for one audit or for many.
ghost use Rattle.std.specs.Prelude.{◌≡◌, ◌+◌, ◌<◌, ◌^◌, List, [], ◌∷◌, length, reverse};
ghost use Rattle.std.specs.Option.{option_map_or};
ghost use Rattle.ec_core.specs.declared.act.Entry.{Entry};
ghost use Rattle.ec_core.specs.Calls.{under_way};
ghost use Rattle.ec_core.specs.Following.{opening_act};

use crate::{Act, Entry, PendingCall, PendingCalls, Run};

/// An audit that collects its result in a pass over the entries of a run.
pub trait Audit {
    // What an audit is after a reversed history, given what it was before the pass.
    ghost represents: { Self → Self → List Entry → Type 0 };

    /// Adds the next entry, given its position in the run and the act that began its call.
    fn take(&mut self, place: usize, op: &Act, entry: &Entry)
        requires { place + 1 < 2 ^ 64 }
        ensures { (start : Self) (past : List Entry) → place ≡ length past → op.now ≡ opening_act entry.now.act (under_way entry.now.worker past)
            → represents start self.old past → represents start self.new (entry.now ∷ past) };
}

/// Returns the act that began a call, and Go if there is none.
fn op_of(call: Option<PendingCall>) -> Act
    ensures { result ≡ option_map_or (λ c. c.op) call Act.Go }
{
    match call {
        Some(call) => call.op,
        None => Act::Go,
    }
}

/// Passes each entry of a run to an audit, in order.
pub fn walk<A: Audit>(run: &Run, audit: &mut A)
    requires { A.represents audit.old audit.old [] }
    ensures { A.represents audit.old audit.new (reverse run.now.entries) }
{
    run.invariant();
    let mut calls = PendingCalls::new();
    let mut place = 0;
    for entry in run.entries() {
        let op = op_of(calls.take(run.setup(), place, &entry));
        audit.take(place, &op, &entry);
        place += 1;
    }
}
