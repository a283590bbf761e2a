//! The call lists of a database, by index.
ghost use Rattle.std.specs.Prelude.{◌≡◌, ℕ, ◌-◌, List, get_or};
ghost use Rattle.ec_database.specs.SnapshotPhases.{write_at, try_at};

use crate::DatabaseShape;
use ec_core::Act;

/// Returns the call at an index of a write, from its turn and, if the call is a put, the value that
/// it puts.
pub(crate) fn write_at(shape: &DatabaseShape, at: usize, turn: u64, value: u64) -> Option<Act>
    ensures { (values : List ℕ) → value ≡ get_or values (at - 3) 0 → result ≡ write_at shape.now values at turn }
{
    if at == 0 {
        Some(Act::Advance(shape.start()))
    } else if at == 1 {
        Some(Act::Ticket(shape.turn()))
    } else if at == 2 {
        Some(Act::Await(shape.done(), turn))
    } else if at < shape.cells() + 3 {
        Some(Act::Put(shape.cell_at(at - 3), value))
    } else if at == shape.cells() + 3 {
        Some(Act::Advance(shape.done()))
    } else {
        None
    }
}

/// Returns the call at an index of a try, from the version that it read first.
pub(crate) fn try_at(shape: &DatabaseShape, at: usize, version: u64) -> Option<Act>
    ensures { result ≡ try_at shape.now at version }
{
    let last = shape.cells() + 2;
    if at == 0 || at == last {
        Some(Act::Read(shape.start()))
    } else if at == 1 {
        Some(Act::Await(shape.done(), version))
    } else if at < last {
        Some(Act::Get(shape.cell_at(at - 2)))
    } else {
        None
    }
}
