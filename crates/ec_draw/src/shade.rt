//! The shades over accepted tries.
ghost use Rattle.std.specs.Prelude.{◌≡◌, ◌<◌, ◌++◌, ◌∷◌, [], false, ℕ, IfOk, OnOk, Some, map};
ghost use Rattle.std.specs.Prelude.{option_to_list, reverse, slice_get};
ghost use Rattle.std.specs.List.{filter, flat_map};
ghost use Rattle.std.specs.Option.{option_map};
ghost use Rattle.ec_core.specs.Calls.{is_go};
ghost use Rattle.ec_draw.specs.Shades.{AddsNewest, RepresentsTries, group_shades, is_in};
ghost use Rattle.ec_draw.specs.Shades.{shade_model};
ghost use Rattle.ec_draw.specs.Shades.{shade};
ghost use Rattle.ec_draw.specs.Shades.{starts_after};
ghost use Rattle.ec_heading.specs.declared.group.Group.TheVariants as groups;

use crate::Window;
use ec_core::{Act, Audit, AuditFault, Entry, Run};
use ec_count::{EventId, Setup};
use ec_database::{Accepted, DatabaseShape, TryView, VersionAudit, is_on};
use std::alloc::{AllocError, Global};
use std::marker::Model;

/// The positions of an entry and of a later one.
#[derive(Clone, Copy, Debug, PartialEq, Eq)]
pub struct Span {
    pub first: usize,
    pub last: usize,
}

/// An accepted try of a database, and its span: from the first entry of its first call to its last
/// entry.
#[derive(Drop)]
pub struct Shade {
    /// The eventcount of the database's starts.
    pub count: EventId,
    pub span: Span,
    pub accepted: Accepted,
}

/// Returns whether an act continues a call.
fn is_go(act: &Act) -> bool
    ensures { result ≡ is_go act.now }
{
    matches!(act, Act::Go)
}

/// Returns the starts before the first entry of a run: 0 for each worker.
fn no_starts() -> [usize; 16]
    ensures { (w : ℕ) → w < 16 → slice_get result w ≡ Some 0 }
{
    [0; 16]
}

/// Stores the position at which a worker's call sequence begins, if an entry begins one.
fn note_start(
    shape: &DatabaseShape,
    finished: usize,
    place: usize,
    entry: &Entry,
    starts: &mut [usize; 16],
)
    ensures { starts.new ≡ starts_after shape.now finished place entry.now starts.old }
{
    if finished == 0 && !is_go(&entry.act) && is_on(shape, &entry.act) {
        starts[entry.worker.get()] = place;
    }
}

/// Adds a shade, if it is shown.
fn add_shade(
    shades: &mut Vec<Shade>,
    accepted: &TryView<'_>,
    count: EventId,
    window: Window,
    span: Span,
) -> Result<(), AllocError>
    ensures { OnOk result (map shade_model shades.new.items ≡ map shade_model shades.old.items
        ++ filter (is_in window) (shade count span accepted.now ∷ [])) }
{
    if window.meets(span.first, span.last) {
        let accepted = accepted.to_accepted(*shades.allocator())?;
        shades.push(Shade {
            count,
            span,
            accepted,
        })?;
    }
    Ok(())
}

/// Adds the shade of accepted try `before`, counted from 0, if the audit has found it. It is an
/// error if the audit or the list ran out of memory.
fn add_newest(
    shades: &mut Vec<Shade>,
    audit: &VersionAudit<'_>,
    before: Option<usize>,
    count: EventId,
    window: Window,
    span: Span,
) -> Result<(), AllocError>
    ensures { OnOk result
        (AddsNewest count window span before audit.now (map shade_model shades.old.items)
        (map shade_model shades.new.items)) }
{
    let Some(place) = before else {
        return Err(AllocError);
    };
    if audit.accepted_count().is_none() {
        return Err(AllocError);
    }
    if let Some(accepted) = audit.accepted_at(place) {
        add_shade(shades, &accepted, count, window, span)?;
    }
    Ok(())
}

/// Adds a shade as `add_newest` does, unless an earlier addition failed. Returns whether any has
/// failed.
fn add_fails(
    out_of_memory: bool,
    shades: &mut Vec<Shade>,
    audit: &VersionAudit<'_>,
    before: Option<usize>,
    count: EventId,
    window: Window,
    span: Span,
) -> bool
    ensures before { result ≡ false → out_of_memory ≡ false }
    ensures added { result ≡ false
        → AddsNewest count window span before audit.now (map shade_model shades.old.items)
        (map shade_model shades.new.items) }
{
    out_of_memory || add_newest(shades, audit, before, count, window, span).is_err()
}

/// The audit of a database in a pass over a run, where the call sequence of each worker began, and
/// the shades so far.
#[derive(Drop)]
pub(crate) struct Tries<'a> {
    audit: VersionAudit<'a>,
    shape: &'a DatabaseShape,
    window: Window,
    starts: [usize; 16],
    shades: Vec<Shade>,
    out_of_memory: bool,
}

impl<'a> Model for Tries<'a> {
    ghost use Rattle.std.specs.Prelude.{map};
    ghost use Rattle.ec_draw.specs.Shades.{TriesModel, shade_model};

    ghost Value = { TriesModel };

    ghost view = { λ s. record {
      audit = s.audit;
      shape = s.shape.now;
      window = s.window;
      starts = s.starts;
      shades = map shade_model s.shades.items;
      out_of_memory = s.out_of_memory;
    } };
}

impl<'a> Audit for Tries<'a> {
    ghost use Rattle.ec_draw.specs.Shades.{TriesOn};

    ghost represents = { TriesOn };

    fn take(&mut self, place: usize, op: &Act, entry: &Entry) {
        let Tries {
            audit,
            shape,
            window,
            starts,
            shades,
            out_of_memory,
        } = self;
        let first = starts[entry.worker.get()];
        let span = Span { first, last: place };
        let before = audit.accepted_count();
        let finished = audit.completed_count(entry.worker);
        note_start(shape, finished, place, entry, starts);
        audit.take(place, op, entry);
        *out_of_memory = add_fails(
            *out_of_memory,
            shades,
            audit,
            before,
            shape.start(),
            *window,
            span,
        );
    }
}

impl<'a> Tries<'a> {
    /// Returns the state before the first entry of a run with this setup.
    pub(crate) fn new(
        alloc: Global,
        shape: &'a DatabaseShape,
        setup: &'a Setup,
        window: Window,
    ) -> Self
        ensures shape { result.shape ≡ shape.now }
        ensures setup { result.audit.setup ≡ setup.now }
        ensures window { result.window ≡ window }
        ensures first { RepresentsTries result [] }
    {
        Tries {
            audit: VersionAudit::new(alloc, shape, setup),
            shape,
            window,
            starts: no_starts(),
            shades: Vec::new(alloc),
            out_of_memory: false,
        }
    }
}

/// Adds some shades.
fn add_all(shades: &mut Vec<Shade>, list: Vec<Shade>) -> Result<(), AllocError>
    ensures { OnOk result (map shade_model shades.new.items ≡ map shade_model shades.old.items
        ++ map shade_model list.items) }
{
    for shade in list {
        shades.push(shade)?;
    }
    Ok(())
}

/// Adds the shades of a database from its state after a whole run, if its workers follow its rules.
pub(crate) fn add_database(
    shades: &mut Vec<Shade>,
    run: &Run,
    shape: &DatabaseShape,
    tries: Tries<'_>,
) -> Result<(), AllocError>
    requires shape { tries.shape ≡ shape.now }
    requires setup { tries.audit.setup ≡ run.now.setup }
    requires represents { RepresentsTries tries (reverse run.now.entries) }
    ensures { OnOk result (map shade_model shades.new.items ≡ map shade_model shades.old.items
        ++ group_shades run.now.setup tries.entry.window run.now.entries
        (groups.Database shape.now)) }
{
    let _ = shape;
    let Tries {
        audit,
        shades: list,
        out_of_memory,
        ..
    } = tries;
    match audit.versions(run) {
        Ok(_accepted) => {
            if out_of_memory {
                return Err(AllocError);
            }
            add_all(shades, list)
        }
        Err(AuditFault::NotFollowed { .. }) => Ok(()),
        Err(AuditFault::Memory) => Err(AllocError),
    }
}
