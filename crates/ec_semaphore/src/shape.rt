//! The objects of a semaphore.
ghost use Rattle.std.specs.Prelude.{◌≡◌, ◌↔◌, ◌≤◌, IsTrue, IfOk, OnOk, OnErr, length};
ghost use Rattle.std.specs.Result.{result_err};
ghost use Rattle.ec_semaphore.specs.Shapes.{DeclaresSemaphore, Fits, semaphore_fault, with_semaphore, next_semaphore};

use ec_count::{EventId, SeqId, Setup, SetupFault, WorkerId};
use std::marker::Model;

/// The greatest initial value of a semaphore.
pub const INITIAL_MAX: u64 = 1_000_000;

/// The objects of a semaphore, and its initial value. Only the declare functions make one.
#[derive(Clone, Copy, Debug, PartialEq, Eq)]
pub struct SemaphoreShape {
    count: EventId,
    line: SeqId,
    initial: u64,
}

impl Model for SemaphoreShape {
    ghost use Rattle.std.specs.Prelude.{◌≤◌};
    ghost use Rattle.ec_semaphore.specs.declared.shape.TheConstants.{INITIAL_MAX};
    ghost use Rattle.ec_semaphore.specs.Shapes.{Semaphore};

    ghost Value = { Semaphore };

    ghost view = { λ s. record { count = s.count; line = s.line; initial = s.initial } };

    ghost invariant = { λ s. s.initial ≤ INITIAL_MAX };

    ghost inverse = { λ s. record { count = s.count; line = s.line; initial = s.initial } };
}

impl SemaphoreShape {
    /// Returns the eventcount that each V advances and each P awaits.
    pub fn count(&self) -> EventId
        ensures { result ≡ self.now.count }
    {
        self.count
    }

    /// Returns the sequencer from which each P draws its ticket.
    pub fn line(&self) -> SeqId
        ensures { result ≡ self.now.line }
    {
        self.line
    }

    /// Returns how many P may end before the first V, from 0 to 1000000.
    pub fn initial(&self) -> u64
        ensures value { result ≡ self.now.initial }
        ensures small { result ≤ INITIAL_MAX }
    {
        self.initial
    }

    /// Returns whether the eventcount and the sequencer are declared there, with the rights of a
    /// semaphore. The same users signal and observe the eventcount, whose components are not
    /// transferable, and draw from the sequencer.
    pub fn fits(&self, setup: &Setup) -> bool
        ensures { IsTrue result ↔ Fits self.now setup.now }
    {
        let users = setup.takers(self.line);
        setup.declares_fixed_event(self.count, users, users)
            && setup.declares_sequencer(self.line, users)
    }
}

/// Declares a semaphore with an initial value and its users: an eventcount that they signal and
/// observe, and a sequencer that they draw from. Reports `TooMany` if the initial value is above
/// INITIAL_MAX.
pub fn declare_semaphore(
    setup: &mut Setup,
    initial: u64,
    users: &[WorkerId],
) -> Result<SemaphoreShape, SetupFault>
    ensures fault { result_err result ≡ semaphore_fault setup.old initial users.now }
    ensures shape { IfOk result (λ s. s ≡ next_semaphore setup.old initial) }
    ensures ok { OnOk result (setup.new ≡ with_semaphore setup.old users.now) }
    ensures fits { IfOk result (λ s. DeclaresSemaphore s setup.new users.now) }
    ensures err { OnErr result (setup.new ≡ setup.old) }
{
    if initial > INITIAL_MAX || setup.sequencers() >= 32 {
        return Err(SetupFault::TooMany);
    }
    let count = setup.add_fixed_event(users, users)?;
    let line = setup.add_sequencer(users).unwrap();
    Ok(SemaphoreShape {
        count,
        line,
        initial,
    })
}

/// Declares the common semaphore of P on two semaphores at once: a semaphore with initial value 1.
pub fn declare_both(setup: &mut Setup, users: &[WorkerId]) -> Result<SemaphoreShape, SetupFault>
    ensures fault { result_err result ≡ semaphore_fault setup.old 1 users.now }
    ensures shape { IfOk result (λ s. s ≡ next_semaphore setup.old 1) }
    ensures ok { OnOk result (setup.new ≡ with_semaphore setup.old users.now) }
    ensures fits { IfOk result (λ s. DeclaresSemaphore s setup.new users.now) }
    ensures err { OnErr result (setup.new ≡ setup.old) }
{
    declare_semaphore(setup, 1, users)
}
