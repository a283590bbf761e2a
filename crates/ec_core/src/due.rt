//! The act that is due.
ghost use Rattle.std.specs.Prelude.{◌≡◌};
ghost use Rattle.ec_core.specs.CallLists.{is_act, is_due, without_value};

use crate::Act;

/// Returns whether two acts are the same.
fn is_act(a: &Act, b: &Act) -> bool
    ensures { result ≡ is_act a.now b.now }
{
    match (a, b) {
        (Act::Advance(e), Act::Advance(f)) => e.get() == f.get(),
        (Act::Read(e), Act::Read(f)) => e.get() == f.get(),
        (Act::Await(e, v), Act::Await(f, u)) => e.get() == f.get() && *v == *u,
        (Act::Go, Act::Go) => true,
        (Act::Ticket(q), Act::Ticket(r)) => q.get() == r.get(),
        (Act::Put(x, v), Act::Put(y, u)) => x.get() == y.get() && *v == *u,
        (Act::Get(x), Act::Get(y)) => x.get() == y.get(),
        (Act::Hand(e, b), Act::Hand(f, c)) => e.get() == f.get() && b.get() == c.get(),
        _ => false,
    }
}

/// Returns whether the act is the one that is due. A put may have any value.
pub fn is_due(due: &Option<Act>, act: &Act) -> bool
    ensures { result ≡ is_due due.now (without_value act.now) }
{
    match due {
        None => false,
        Some(expected) => match act {
            Act::Put(x, _) => is_act(expected, &Act::Put(*x, 0)),
            other => is_act(expected, other),
        },
    }
}
