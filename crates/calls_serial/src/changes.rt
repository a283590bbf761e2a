//! The changes of stages.
ghost use Rattle.std.specs.Prelude.{◌≡◌, ◌<◌, ◌++◌, [], ◌∷◌, length, IfOk};
ghost use Rattle.calls_serial.specs.kept.Stages.{stage_view, helds, open_stage, with_response};
ghost use Rattle.calls_serial.specs.kept.Passing.{AddsGet, Responds, IsLate, AddsLate};

use crate::stage::{Link, Stage, StageGet};
use calls_core::{Call, PendingCall, Reply};
use std::alloc::{AllocError, Global};

/// Adds the stage of a put that was invoked, with a response at `end`.
pub fn open_stage(
    alloc: Global,
    stages: &mut Vec<Stage>,
    call: PendingCall,
    value: usize,
    end: usize,
) -> Result<(), AllocError>
    ensures { IfOk result (λ _. helds stages.new.items ≡ helds stages.old.items
        ++ open_stage end value call ∷ []) }
{
    stages.push(Stage {
        put: Some(call.complete(Reply::Done, end)),
        value,
        moment: end,
        link: None,
        gets: Vec::new(alloc),
    })?;
    Ok(())
}

/// Adds a get that returns the value of the stage at index `i`.
pub fn add_get(stages: &mut Vec<Stage>, i: usize, get: Call) -> Result<(), AllocError>
    requires { i < length stages.old.items }
    ensures { IfOk result (λ _. AddsGet stages.old.items stages.new.items i get) }
{
    stages[i].gets.push(StageGet::new(get))?;
    Ok(())
}

/// Adds a get that returns the value of a pending put, if there are `n` links.
///
/// Returns whether it is the first such get: it shows that the put took effect by its response.
fn add_to_pending(stage: &mut Stage, get: Call, n: usize) -> Result<bool, AllocError>
    ensures { IfOk result
        (λ first. IsLate (stage_view stage.old) (stage_view stage.new) get n first) }
{
    stage.gets.push(StageGet::new(get))?;
    if stage.link.is_some() {
        return Ok(false);
    }
    stage.link = Some(n);
    stage.moment = get.last;
    Ok(true)
}

/// Adds a get to the last stage, of a pending put, and its link if it is the first such get.
pub fn add_late(
    stages: &mut Vec<Stage>,
    links: &mut Vec<Link>,
    link: Link,
) -> Result<(), AllocError>
    requires { 0 < length stages.old.items }
    ensures { IfOk result (λ _. AddsLate stages.old.items stages.new.items links.old.items
        links.new.items link) }
{
    let last = stages.len() - 1;
    let n = links.len();
    if add_to_pending(&mut stages[last], link.get, n)? {
        links.push(link)?;
    }
    Ok(())
}

/// Completes the pending put of a stage.
fn complete(stage: &mut Stage, put: Call)
    ensures { stage_view stage.new ≡ with_response put (stage_view stage.old) }
{
    stage.put = Some(put);
    if stage.link.is_none() {
        stage.moment = put.last;
    }
}

/// Completes the pending put of the last stage.
pub fn end_put(stages: &mut Vec<Stage>, put: Call)
    ensures { Responds stages.old.items stages.new.items put }
{
    let n = stages.len();
    if n > 0 {
        complete(&mut stages[n - 1], put);
    }
}
