//! Whether each get returned a value that was put once, and in time.
ghost use Rattle.std.specs.Prelude.{◌≡◌, ℕ, List, true, false, Option, None, Some, option_copied};
ghost use Rattle.std.specs.Prelude.{MatchOption};
ghost use Rattle.std.specs.List.{Contains};
ghost use Rattle.calls_core.specs.declared.history.Event.{Event};
ghost use Rattle.calls_core.specs.Lists.{Each};
ghost use Rattle.calls_distinct.specs.Cells.{IsDistinctHistory};
ghost use Rattle.calls_distinct.specs.kept.Groups.{repeats, lacks_put, IsFirst};
ghost use Rattle.calls_distinct.specs.kept.Verdicts.{AreGroupedOf, IsRepeatedIn};

use crate::reading::{is_put, value};
use crate::zone::GroupedCall;

/// Returns whether this is a get of a value that was put twice, or of 0, which was put.
fn repeats(z: &GroupedCall) -> bool
    ensures { result ≡ repeats z.now }
{
    let group = z.group;
    !is_put(z.call.op) && (1 < group.puts || (value(z.call) == 0 && 0 < group.puts))
}

/// Returns whether this is a get of a value that was not put before its response.
fn lacks_put(z: &GroupedCall) -> bool
    ensures { result ≡ lacks_put z.now }
{
    let group = z.group;
    (!is_put(z.call.op) && value(z.call) != 0) && (group.puts == 0 || z.call.last < group.put)
}

/// Finds a get of a value that was put twice, or of 0, which was put.
fn first_repeated<'z, 'g, 'a>(zs: &'z [GroupedCall<'g, 'a>]) -> Option<&'z GroupedCall<'g, 'a>>
    ensures { IsFirst repeats zs.now (option_copied result) }
{
    for z in zs {
        if repeats(z) {
            return Some(z);
        }
    }
    None
}

/// Finds a value that was put twice, or 0, which was put, if it was got; and the position of a put.
pub(crate) fn repeated_value(zs: &[GroupedCall]) -> Option<(usize, usize)>
    ensures { (past : List Event) (t : ℕ) → AreGroupedOf past t zs.now
        → MatchOption result (IsDistinctHistory past) (IsRepeatedIn past) }
{
    match first_repeated(zs) {
        Some(z) => {
            let group = z.group;
            Some((value(z.call), group.put))
        }
        None => None,
    }
}

/// Finds a get of a value that was not put before its response.
pub(crate) fn first_lacking<'z, 'g, 'a>(
    zs: &'z [GroupedCall<'g, 'a>],
) -> Option<&'z GroupedCall<'g, 'a>>
    ensures { IsFirst lacks_put zs.now (option_copied result) }
{
    for z in zs {
        if lacks_put(z) {
            return Some(z);
        }
    }
    None
}
