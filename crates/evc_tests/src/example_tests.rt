//! Complete examples of the kernel as a library, among them those that pages show.
use ec_core::{Act, Refusal, Reply, Run, World};
use ec_count::{Limit, Setup, SetupFault};
use ec_numbers::NumberList;
use ec_order::{Verdict, order, verify};
use std::alloc::Global;
use std::test::Fail;

/// Returns the limit of the examples.
fn hundred() -> Result<Limit, Fail> {
    match Limit::new(100) {
        Some(limit) => Ok(limit),
        None => Err(Fail::new("no limit")),
    }
}

/// Fails if an example gives another result.
fn is_so(is_right: bool) -> Result<(), Fail> {
    if is_right {
        Ok(())
    } else {
        Err(Fail::new("another answer"))
    }
}

/// Returns whether a watcher may observe what a press signals, and a list that names a worker twice
/// is rejected.
fn repeated_signaller_is_refused(limit: Limit) -> Result<bool, Fail> {
    let mut setup = Setup::new(limit);
    let press = setup.add_worker()?;
    let watcher = setup.add_worker()?;
    let sheets = setup.add_event(&[press], &[watcher])?;
    let refused = setup.add_event(&[press, press], &[]);
    let may_observe = setup.may_observe(sheets, watcher);
    Ok(may_observe && refused == Err(SetupFault::Repeated))
}

#[test]
fn a_setup_is_declared(_rt: HostRuntime) -> Result<(), Fail> {
    is_so(repeated_signaller_is_refused(hundred()?)?)
}

/// Returns whether a read by a press without that right is refused, and the total stays the same.
fn refusal_keeps_the_total(limit: Limit) -> Result<bool, Fail> {
    let mut setup = Setup::new(limit);
    let press = setup.add_worker()?;
    let sheets = setup.add_event(&[press], &[])?;
    let mut world = World::open(setup);
    let returned = world.step(press, Act::Advance(sheets))?;
    let refused = world.step(press, Act::Read(sheets));
    let total = world.total(sheets);
    Ok(returned == Reply::Done && refused == Err(Refusal::NoRight) && total == Some(1))
}

#[test]
fn a_world_takes_steps(_rt: HostRuntime) -> Result<(), Fail> {
    is_so(refusal_keeps_the_total(hundred()?)?)
}

/// Returns whether a watcher reads 1, if two presses print a sheet each during its read.
fn watcher_is_told_one(alloc: Global, limit: Limit) -> Result<bool, Fail> {
    let mut setup = Setup::new(limit);
    let press1 = setup.add_worker()?;
    let press2 = setup.add_worker()?;
    let watcher = setup.add_worker()?;
    let sheets = setup.add_event(&[press1, press2], &[watcher])?;
    let mut run = Run::open(alloc, setup)?;
    run.step(watcher, Act::Read(sheets))?;
    run.step(press1, Act::Advance(sheets))?;
    run.step(press2, Act::Advance(sheets))?;
    let returned = run.step(watcher, Act::Go)?;
    let placed = order(alloc, &run)?;
    let verdict = verify(alloc, &run, placed.as_slice())?;
    Ok(returned == Reply::Number(1) && placed.len() == 3 && verdict == Verdict::Good)
}

#[test]
fn a_read_is_put_between_two_advances(rt: HostRuntime) -> Result<(), Fail> {
    is_so(watcher_is_told_one(rt.alloc(), hundred()?)?)
}

/// Returns whether a list keeps a small number and one that needs 64 bits.
fn large_number_is_kept(alloc: Global) -> Result<bool, Fail> {
    let mut list = NumberList::new(alloc);
    list.push(7)?;
    list.push(1 << 32)?;
    let last = list.get(1);
    Ok(last == Some(4_294_967_296) && list.get(0) == Some(7) && list.len() == 2)
}

#[test]
fn a_list_of_numbers_is_widened(rt: HostRuntime) -> Result<(), Fail> {
    is_so(large_number_is_kept(rt.alloc())?)
}
