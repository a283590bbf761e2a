//! One call.
ghost use Rattle.std.specs.Prelude.{◌≡◌, false, List};
ghost use Rattle.ec_core.specs.Following.{CompletedCall};
ghost use Rattle.ec_machine.specs.Runs.{one_call};
ghost use Rattle.ec_machine.specs.Tasks.{one_rest};

use ec_core::{Act, Procedure, Reply};

/// One call, of as many steps as it takes.
#[derive(Clone, Copy, Debug, PartialEq, Eq)]
pub(crate) struct OneCall {
    act: Act,
    going: bool,
    is_over: bool,
}

impl OneCall {
    pub(crate) fn new(act: Act) -> Self
        ensures whole { (calls : List CompletedCall) → ⟦<OneCall as Procedure>⟧.rest result calls ≡ one_call act calls }
        ensures fresh { ⟦<OneCall as Procedure>⟧.is_going result ≡ false }
    {
        OneCall {
            act,
            going: false,
            is_over: false,
        }
    }
}

impl Procedure for OneCall {
    ghost rest = { one_rest };

    ghost is_going = { λ s. s.going };

    fn next(&self) -> Option<Act> {
        if self.going {
            return Some(Act::Go);
        }
        if self.is_over {
            return None;
        }
        Some(self.act)
    }

    fn take(&mut self, reply: Reply) {
        match reply {
            Reply::Pending => self.going = true,
            _ => {
                self.going = false;
                self.is_over = true;
            }
        }
    }
}
