//! What calls of a cell put and return.
ghost use Rattle.std.specs.Prelude.{◌≡◌};
ghost use Rattle.calls_distinct.specs.Cells.{is_put, value, gets};

use calls_core::{Call, Op, Reply};

/// Returns whether this is a put.
pub fn is_put(op: Op) -> bool
    ensures { result ≡ is_put op }
{
    matches!(op, Op::Put(_))
}

/// Returns what a call puts or returns.
pub fn value(call: &Call) -> usize
    ensures { result ≡ value call.now }
{
    match call.op {
        Op::Put(v) => v,
        Op::Get => match call.reply {
            Reply::Number(n) => n,
            _ => 0,
        },
        _ => 0,
    }
}

/// Returns whether a call is a get of this value.
pub fn gets(v: usize, call: &Call) -> bool
    ensures { result ≡ gets v call.now }
{
    !is_put(call.op) && value(call) == v
}
