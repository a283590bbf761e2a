//! V on a semaphore.
ghost use Rattle.std.specs.Prelude.{◌≡◌, false, List};
ghost use Rattle.ec_core.specs.Following.{CompletedCall};
ghost use Rattle.ec_semaphore.specs.Uses.{up_call};

use crate::SemaphoreShape;
use ec_core::{Act, Procedure, Reply};

/// V: gives one back to a semaphore, by an advance.
#[derive(Clone, Copy, Debug, PartialEq, Eq)]
pub struct Up {
    shape: SemaphoreShape,
    is_over: bool,
}

impl Up {
    /// Makes a V that has made no call.
    pub fn new(shape: SemaphoreShape) -> Self
        ensures whole { (calls : List CompletedCall) → ⟦<Up as Procedure>⟧.rest result calls ≡ up_call shape calls }
        ensures fresh { ⟦<Up as Procedure>⟧.is_going result ≡ false }
    {
        Up {
            shape,
            is_over: false,
        }
    }
}

impl Procedure for Up {
    ghost use Rattle.std.specs.Prelude.{false, None, if◌then◌else◌};
    ghost use Rattle.ec_semaphore.specs.Uses.{up_call};

    ghost rest = { λ s calls. if s.is_over then None else up_call s.shape calls };

    ghost is_going = { λ s. false };

    fn next(&self) -> Option<Act> {
        if self.is_over {
            return None;
        }
        Some(Act::Advance(self.shape.count()))
    }

    fn take(&mut self, _reply: Reply) {
        self.is_over = true;
    }
}
