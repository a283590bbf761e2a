//! How many advances each worker has called of each eventcount.
ghost use Rattle.std.specs.Prelude.{◌≡◌, ◌+◌, ◌<◌, ◌^◌, []};
ghost use Rattle.calls_text.specs.Tallies.{tally_at, IsTallyOf, IsCountedFurther};

use ec_count::{EventId, WorkerId};

/// The number of advances that each worker has called of each eventcount.
#[derive(Drop)]
pub(crate) struct Tally {
    counts: [[u64; 32]; 16],
}

impl Tally {
    /// Returns a tally of zeros.
    pub(crate) fn zeros() -> Tally
        ensures { IsTallyOf result [] }
    {
        Tally {
            counts: [[0; 32]; 16],
        }
    }

    /// Returns the number for a worker and an eventcount.
    pub(crate) fn at(&self, worker: WorkerId, event: EventId) -> u64
        ensures { result ≡ tally_at self.now worker event }
    {
        self.counts[worker.get()][event.get()]
    }

    /// Adds one to the number for a worker and an eventcount.
    pub(crate) fn add(&mut self, worker: WorkerId, event: EventId)
        requires { worker < 16 → event < 32 → tally_at self.old worker event + 1 < 2 ^ 64 }
        ensures { IsCountedFurther self.old self.new worker event }
    {
        let counts = &mut self.counts[worker.get()];
        counts[event.get()] += 1;
    }
}
