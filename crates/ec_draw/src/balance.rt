//! The curves of balances.
ghost use Rattle.std.specs.Prelude.{◌≡◌, ◌+◌, ◌-◌, ◌<◌, ◌≤◌, ◌^◌, ◌++◌, [], false, length};
ghost use Rattle.std.specs.Prelude.{replicate, IfOk, OnOk, map, reverse};
ghost use Rattle.ec_semaphore.specs.Auditing.{RepresentsBalance};
ghost use Rattle.ec_semaphore.specs.Uses.{use_rules};
ghost use Rattle.ec_draw.specs.Balances.{RepresentsCurve, left_by, units_left_at_moments, curve_if};
ghost use Rattle.ec_draw.specs.Balances.{moments};
ghost use Rattle.ec_draw.specs.Curves.{curve_model};
ghost use Rattle.ec_draw.specs.declared.curve.CurveSource.TheVariants as plotted;
ghost use Rattle.ec_draw.specs.Following.{follows};

use crate::{Curve, CurveSource, Window};
use ec_core::{Act, Audit, Entry, Run};
use ec_semaphore::{BalanceAudit, PairAudit, SemaphoreShape};
use std::alloc::{AllocError, Global};
use std::marker::Model;

/// Returns how many units a semaphore has left, by its audit so far.
fn units_left(audit: &BalanceAudit) -> u64
    ensures { audit.now.shape.initial + audit.now.ups < 2 ^ 64 → result ≡ left_by audit.now }
{
    let parts = audit.so_far();
    parts
        .initial
        .saturating_add(parts.ups)
        .saturating_sub(parts.downs)
}

/// Adds a number until there are `many` of them.
fn fill(heights: &mut Vec<u64>, many: usize, number: u64) -> Result<(), AllocError>
    requires { length heights.old.items ≤ many }
    ensures { OnOk result
        (heights.new.items ≡ heights.old.items ++ replicate (many - length heights.old.items)
        number) }
{
    for _place in heights.len()..many {
        heights.push(number)?;
    }
    Ok(())
}

/// Adds a number for each shown moment up to this one that has none yet.
fn pad(heights: &mut Vec<u64>, window: Window, moment: usize, number: u64) -> Result<(), AllocError>
    ensures { OnOk result
        (heights.new.items ≡ heights.old.items
        ++ replicate (moments window moment - length heights.old.items) number) }
{
    let Some(most) = moment.min(window.to).checked_sub(window.from) else {
        return Ok(());
    };
    let Some(many) = most.checked_add(1) else {
        return Err(AllocError);
    };
    if heights.len() < many {
        fill(heights, many, number)?;
    }
    Ok(())
}

/// Adds numbers as `pad` does, unless an earlier addition failed. Returns whether any has failed.
fn add_fails(
    out_of_memory: bool,
    heights: &mut Vec<u64>,
    window: Window,
    moment: usize,
    number: u64,
) -> bool
    ensures before { result ≡ false → out_of_memory ≡ false }
    ensures added { result ≡ false
        → heights.new.items ≡ heights.old.items
        ++ replicate (moments window moment - length heights.old.items) number }
{
    out_of_memory || pad(heights, window, moment, number).is_err()
}

/// The audit of a semaphore in a pass over a run, and the units left at the shown moments so far.
#[derive(Drop)]
pub(crate) struct BalanceState {
    audit: BalanceAudit,
    window: Window,
    heights: Vec<u64>,
    out_of_memory: bool,
}

impl Model for BalanceState {
    ghost use Rattle.ec_draw.specs.Balances as balances;

    ghost Value = { balances.BalanceState };

    ghost view = { λ s. record {
      audit = s.audit;
      window = s.window;
      heights = s.heights.items;
      out_of_memory = s.out_of_memory;
    } };
}

impl Audit for BalanceState {
    ghost use Rattle.ec_draw.specs.Balances.{BalanceStatesOn};

    ghost represents = { BalanceStatesOn };

    fn take(&mut self, place: usize, op: &Act, entry: &Entry) {
        let BalanceState {
            audit,
            window,
            heights,
            out_of_memory,
        } = self;
        *out_of_memory = add_fails(*out_of_memory, heights, *window, place, units_left(audit));
        audit.take(place, op, entry);
    }
}

impl BalanceState {
    /// Returns the state before the first entry. It allocates nothing.
    pub(crate) fn new(alloc: Global, shape: SemaphoreShape, window: Window) -> Self
        ensures shape { result.audit.shape ≡ shape }
        ensures window { result.window ≡ window }
        ensures first { RepresentsCurve result [] }
    {
        BalanceState {
            audit: BalanceAudit::new(shape),
            window,
            heights: Vec::new(alloc),
            out_of_memory: false,
        }
    }

    /// Returns whether the workers follow the semaphore's rules, after all entries of a run.
    pub(crate) fn follows(&self, run: &Run) -> bool
        requires { RepresentsBalance self.now.audit (reverse run.now.entries) }
        ensures { result ≡ follows (use_rules self.now.audit.shape) (reverse run.now.entries) }
    {
        self.audit.balance(run).is_ok()
    }

    /// Returns the units left at the moments that are shown, after all entries of a run.
    pub(crate) fn heights(self, run: &Run, shape: &SemaphoreShape) -> Result<Vec<u64>, AllocError>
        requires shape { self.audit.shape ≡ shape.now }
        requires represents { RepresentsCurve self (reverse run.now.entries) }
        ensures { IfOk result
            (λ hs. hs.items ≡ units_left_at_moments shape.now self.window (reverse run.now.entries)) }
    {
        run.invariant();
        let _initial = shape.initial();
        let BalanceState {
            audit,
            window,
            mut heights,
            out_of_memory,
        } = self;
        if out_of_memory {
            return Err(AllocError);
        }
        pad(&mut heights, window, run.len(), units_left(&audit))?;
        Ok(heights)
    }
}

/// The audits of `both` in a pass over a run: of its common semaphore, with the units left, and of
/// its critical sections.
#[derive(Drop)]
pub(crate) struct BothState<'a> {
    pub(crate) state: BalanceState,
    pub(crate) pairs: PairAudit<'a>,
}

impl<'a> Audit for BothState<'a> {
    ghost use Rattle.ec_draw.specs.kept.Findings.{BothOn};

    ghost represents = { BothOn };

    fn take(&mut self, place: usize, op: &Act, entry: &Entry) {
        self.state.take(place, op, entry);
        self.pairs.take(place, op, entry);
    }
}

/// Adds the curve of a semaphore from its state after a whole run, if `follows` says that its
/// workers follow its rules.
pub(crate) fn add_if(
    curves: &mut Vec<Curve>,
    run: &Run,
    follows: bool,
    shape: &SemaphoreShape,
    state: BalanceState,
) -> Result<(), AllocError>
    requires shape { state.audit.shape ≡ shape.now }
    requires represents { RepresentsCurve state (reverse run.now.entries) }
    ensures { OnOk result (map curve_model curves.new.items ≡ map curve_model curves.old.items
        ++ curve_if follows
        (record {
          object = plotted.Balance shape.now.count;
          heights = units_left_at_moments shape.now state.window (reverse run.now.entries);
        })) }
{
    if follows {
        let heights = state.heights(run, shape)?;
        let object = CurveSource::Balance(shape.count());
        curves.push(Curve { object, heights })?;
    }
    Ok(())
}
