//! The objects of the steps.
use ec_count::{EventId, Limit, SeqId, Setup, WorkerId};

/// Four workers that all signal and observe one eventcount and draw from one sequencer.
#[derive(Drop)]
pub(crate) struct Objects {
    pub(crate) setup: Setup,
    pub(crate) workers: [WorkerId; 4],
    pub(crate) event: EventId,
    pub(crate) sequencer: SeqId,
}

/// Declares the objects, under the greatest limit of version 1.
pub(crate) fn declared() -> Option<Objects> {
    let mut setup = Setup::new(Limit::new(4_294_967_295)?);
    let workers = [
        setup.add_worker().ok()?,
        setup.add_worker().ok()?,
        setup.add_worker().ok()?,
        setup.add_worker().ok()?,
    ];
    let event = setup.add_event(&workers, &workers).ok()?;
    let sequencer = setup.add_sequencer(&workers).ok()?;
    Some(Objects {
        setup,
        workers,
        event,
        sequencer,
    })
}
