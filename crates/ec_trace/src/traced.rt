//! A trace that was read.
ghost use Rattle.std.specs.Prelude.{◌≡◌};

use ec_core::Run;
use ec_heading::Heading;
use std::marker::Model;

/// A trace that was read: a header, and a run on its declarations.
#[derive(Drop)]
pub struct Traced {
    pub(crate) run: Run,
    pub(crate) heading: Heading,
}

impl Model for Traced {
    ghost use Rattle.std.specs.Prelude.{◌≡◌};
    ghost use Rattle.ec_trace.specs.TraceModel.{TraceModel};

    ghost Value = { TraceModel };

    ghost view = { λ t. record { heading = t.heading; entries = t.run.entries } };

    ghost invariant = { λ t. t.run.setup ≡ t.heading.setup };
}

impl Traced {
    ghost use Rattle.ec_trace.specs.TraceModel.{upgrade_trace};

    /// Returns the header of the trace.
    pub fn heading(&self) -> &Heading
        ensures { result.now ≡ self.now.heading }
    {
        &self.heading
    }

    /// Returns the run of the entries, on the declarations of the header.
    pub fn run(&self) -> &Run
        ensures { result.now ≡ record { setup = self.now.heading.setup; entries = self.now.entries } }
    {
        &self.run
    }

    /// Returns the same trace under version 2.
    pub fn upgrade(self) -> Traced
        ensures { result ≡ upgrade_trace self }
    {
        let Traced { run, heading } = self;
        Traced {
            run,
            heading: heading.upgrade(),
        }
    }
}
