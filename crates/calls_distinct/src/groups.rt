//! The calls, grouped by value.
ghost use Rattle.std.specs.Prelude.{◌≡◌, ◌<◌, ℕ, List, ◌++◌, ◌∷◌, [], length, map, IfOk, OnOk};
ghost use Rattle.std.specs.Prelude.{Option, None, Some, nat_eq};
ghost use Rattle.std.specs.HashMap.{get};
ghost use Rattle.std.specs.List.{Contains};
ghost use Rattle.calls_core.specs.Lists.{Each};
ghost use Rattle.calls_distinct.specs.Cells.{value};
ghost use Rattle.calls_distinct.specs.kept.Groups.{earlier, later, with_call, IsGroup, IsGroupOf};
ghost use Rattle.calls_distinct.specs.kept.Groups.{AreGroups, AreGrouped};

use crate::reading::{is_put, value};
use crate::zone::{Group, GroupedCall};
use calls_core::Call;
use std::alloc::{AllocError, Global};
use std::collections::HashMap;

/// Makes the group of one call.
fn group_of_one(call: &Call) -> Group<'_>
    ensures { IsGroup (call.now ∷ []) (value call.now) result }
{
    let put = is_put(call.op);
    Group {
        got: !put,
        puts: if put { 1 } else { 0 },
        put: call.first,
        early: call,
        late: call,
    }
}

/// Returns the call with the earlier response.
fn earlier<'a>(a: &'a Call, b: &'a Call) -> &'a Call
    ensures { result.now ≡ earlier a.now b.now }
{
    if b.last < a.last { b } else { a }
}

/// Returns the call with the later invocation.
fn later<'a>(a: &'a Call, b: &'a Call) -> &'a Call
    ensures { result.now ≡ later a.now b.now }
{
    if a.first < b.first { b } else { a }
}

/// Returns the group with one more call of its value.
fn with_call<'a>(group: &Group<'a>, call: &'a Call) -> Group<'a>
    requires { group.now.puts < usize.MAX }
    ensures { result ≡ with_call group.now call.now }
{
    let put = is_put(call.op);
    Group {
        got: !put || group.got,
        puts: if put { group.puts + 1 } else { group.puts },
        put: if put { call.first } else { group.put },
        early: earlier(group.early, call),
        late: later(group.late, call),
    }
}

/// Adds a call to the group of its value.
fn add<'a>(groups: &mut HashMap<usize, Group<'a>>, call: &'a Call) -> Result<(), AllocError>
    requires { (v : ℕ) (g : Group) → get nat_eq groups.old v ≡ Some g → g.puts < usize.MAX }
    ensures { OnOk result ((seen : List Call) → AreGroups seen (get nat_eq groups.old)
        → AreGroups (seen ++ call.now ∷ []) (get nat_eq groups.new)) }
{
    let v = value(call);
    let group = match groups.get(&v) {
        Some(group) => with_call(group, call),
        None => group_of_one(call),
    };
    groups.insert(v, group)?;
    Ok(())
}

/// Groups the calls by their values.
pub(crate) fn groups_of(
    alloc: Global,
    calls: &[Call],
) -> Result<HashMap<usize, Group<'_>>, AllocError>
    ensures { IfOk result (λ groups. AreGroups calls.now (get nat_eq groups)) }
{
    let mut groups = HashMap::new(alloc);
    for call in calls {
        add(&mut groups, call)?;
    }
    Ok(groups)
}

/// Pairs each call with the group of its value.
pub(crate) fn group_calls<'g, 'a>(
    alloc: Global,
    calls: &'a [Call],
    groups: &'g HashMap<usize, Group<'a>>,
) -> Result<Vec<GroupedCall<'g, 'a>>, AllocError>
    requires { AreGroups calls.now (get nat_eq groups.now) }
    ensures { IfOk result (λ v. AreGrouped calls.now calls.now v.items) }
{
    let mut out = Vec::new(alloc);
    for call in calls {
        if let Some(group) = groups.get(&value(call)) {
            out.push(GroupedCall { call, group })?;
        }
    }
    Ok(out)
}
