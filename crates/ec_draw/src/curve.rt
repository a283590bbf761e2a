//! The curves of what is counted.
ghost use Rattle.std.specs.Prelude.{◌≡◌, ◌+◌, List, ◌++◌, ◌∷◌, [], ◌<◌, ◌≤◌, IfOk, OnOk, length};
ghost use Rattle.std.specs.Prelude.{map, reverse, take};
ghost use Rattle.ec_core.specs.declared.act.Entry.{Entry};
ghost use Rattle.ec_draw.specs.declared.curve.Counter.TheVariants.{Event, Sequencer};
ghost use Rattle.ec_core.specs.Standing.{StandsFor};
ghost use Rattle.ec_draw.specs.Curves.{IsDeclaredCounter, count_at, count_of, heights};
ghost use Rattle.ec_draw.specs.Curves.{curve_of_count};
ghost use Rattle.ec_draw.specs.Curves.{curves_of_counts};
ghost use Rattle.ec_draw.specs.Curves.{raises, curve_model};

use crate::Window;
use ec_core::{Act, Run, World};
use ec_count::{EventId, SeqId};
use std::alloc::{AllocError, Global};

/// What is counted.
#[derive(Clone, Copy, Debug, PartialEq, Eq)]
pub enum Counter {
    /// An eventcount, by its total.
    Event(EventId),
    /// A sequencer, by the tickets that were drawn.
    Sequencer(SeqId),
}

/// What has a curve.
#[derive(Clone, Copy, Debug, PartialEq, Eq)]
pub enum CurveSource {
    /// A count.
    Count(Counter),
    /// The balance of the semaphore with this eventcount.
    Balance(EventId),
}

/// A curve: the number at the moment before each entry that is shown, and after the last of them.
#[derive(Drop)]
pub struct Curve {
    pub object: CurveSource,
    pub heights: Vec<u64>,
}

/// Returns whether an act raises a count.
fn raises(object: &Counter, act: &Act) -> bool
    ensures { result ≡ raises object.now act.now }
{
    match object {
        Counter::Event(event) => match act {
            Act::Advance(raised) => raised.get() == event.get(),
            _ => false,
        },
        Counter::Sequencer(sequencer) => match act {
            Act::Ticket(drawn) => drawn.get() == sequencer.get(),
            _ => false,
        },
    }
}

/// Returns by how much the entry at a position raises a count; 0 if there is no entry.
fn raise_amount(run: &Run, object: &Counter, position: usize) -> u64
    ensures value { count_at object.now run.now.entries (position + 1)
        ≡ count_at object.now run.now.entries position + result }
    ensures small { result ≤ 1 }
{
    match run.entry(position) {
        Some(entry) => u64::from(raises(object, &entry.act)),
        None => 0,
    }
}

/// Returns a count in a world; 0 if its object is not declared.
fn count_in(world: &World, object: &Counter) -> u64
    requires { IsDeclaredCounter world.now.setup object.now }
    ensures { (h : List Entry) → StandsFor world.now h → result ≡ count_of object.now (reverse h) }
{
    match *object {
        Counter::Event(event) => world.total(event).unwrap_or(0),
        Counter::Sequencer(sequencer) => world.issued(sequencer).unwrap_or(0),
    }
}

/// Returns the counts at the moments that are shown, given the first count.
fn heights(
    alloc: Global,
    run: &Run,
    object: &Counter,
    window: Window,
    first: u64,
) -> Result<Vec<u64>, AllocError>
    requires first { first ≡ count_at object.now run.now.entries window.from }
    requires small { first ≤ window.from }
    ensures { IfOk result (λ hs. hs.items ≡ heights object.now window run.now.entries) }
{
    let mut heights = Vec::new(alloc);
    let mut count = first;
    heights.push(count)?;
    for column in 0..window.to.saturating_sub(window.from) {
        count += raise_amount(run, object, window.from + column);
        heights.push(count)?;
    }
    Ok(heights)
}

/// Returns the curve of one count of a run, given the state before the first entry that is shown.
fn curve_of(
    alloc: Global,
    run: &Run,
    world: &World,
    object: Counter,
    window: Window,
) -> Result<Curve, AllocError>
    requires counted { IsDeclaredCounter world.now.setup object }
    requires represents { StandsFor world.now (take window.from run.now.entries) }
    ensures { IfOk result (λ c. curve_model c ≡ curve_of_count window run.now.entries object) }
{
    let first = count_in(world, &object);
    let heights = heights(alloc, run, &object, window, first)?;
    Ok(Curve {
        object: CurveSource::Count(object),
        heights,
    })
}

/// Adds the curve of an eventcount, by its number.
fn add_event(
    curves: &mut Vec<Curve>,
    alloc: Global,
    run: &Run,
    world: &World,
    window: Window,
    number: usize,
) -> Result<(), AllocError>
    requires few { number < 32 }
    requires counted { number < length world.now.setup.events }
    requires represents { StandsFor world.now (take window.from run.now.entries) }
    ensures { OnOk result (map curve_model curves.new.items ≡ map curve_model curves.old.items
        ++ curve_of_count window run.now.entries (Event number) ∷ []) }
{
    if let Some(event) = EventId::new(number) {
        let object = Counter::Event(event);
        curves.push(curve_of(alloc, run, world, object, window)?)?;
    }
    Ok(())
}

/// Adds the curve of a sequencer, by its number.
fn add_sequencer(
    curves: &mut Vec<Curve>,
    alloc: Global,
    run: &Run,
    world: &World,
    window: Window,
    number: usize,
) -> Result<(), AllocError>
    requires few { number < 32 }
    requires counted { number < length world.now.setup.takers }
    requires represents { StandsFor world.now (take window.from run.now.entries) }
    ensures { OnOk result (map curve_model curves.new.items ≡ map curve_model curves.old.items
        ++ curve_of_count window run.now.entries (Sequencer number) ∷ []) }
{
    if let Some(sequencer) = SeqId::new(number) {
        let object = Counter::Sequencer(sequencer);
        curves.push(curve_of(alloc, run, world, object, window)?)?;
    }
    Ok(())
}

/// Returns the curves of a run's eventcounts and then of its sequencers, given the state before the
/// first entry that is shown.
pub(crate) fn curves(
    alloc: Global,
    run: &Run,
    world: &World,
    window: Window,
) -> Result<Vec<Curve>, AllocError>
    requires setup { world.now.setup ≡ run.now.setup }
    requires represents { StandsFor world.now (take window.from run.now.entries) }
    ensures { IfOk result (λ cs. map curve_model cs.items
        ≡ curves_of_counts run.now.setup window run.now.entries) }
{
    run.invariant();
    let mut curves = Vec::new(alloc);
    for number in 0..run.setup().events() {
        add_event(&mut curves, alloc, run, world, window, number)?;
    }
    for number in 0..run.setup().sequencers() {
        add_sequencer(&mut curves, alloc, run, world, window, number)?;
    }
    Ok(curves)
}
