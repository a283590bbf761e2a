//! Written lists of calls.
ghost use Rattle.std.specs.Prelude.{◌≡◌, ℕ, Bool, true, false, List, [], ◌∷◌, Option, Some, if◌then◌else◌};
ghost use Rattle.ec_core.specs.declared.act.Act.{Act};
ghost use Rattle.ec_core.specs.declared.act.Act.TheVariants.{Go};
ghost use Rattle.ec_core.specs.Calls.{is_pending};
ghost use Rattle.ec_core.specs.Following.{CompletedCall};
ghost use Rattle.ec_core.specs.Procedures.{IsReplyTo, next_of};

use crate::{Act, Reply};

/// A written list of calls, each of which is asked for once the earlier ones are completed.
///
/// Whoever drives a procedure asks for the next act, makes it as a step, and passes the reply back,
/// until no act is due.
pub trait Procedure {
    // The call that comes after these further calls, or none if the list is then done.
    ghost rest: { Self → List CompletedCall → Option Act };

    // The last reply was Pending.
    ghost is_going: { Self → Bool };

    /// Returns the act that is due; `None` if the list is done.
    ///
    /// It is Go if the last reply was Pending, otherwise the act that begins the list's next call.
    fn next(&self) -> Option<Act>
        ensures { result ≡ next_of (is_going self.now) (rest self.now []) };

    /// Records the reply to that act.
    ///
    /// An act has to be due. The reply has to be of a kind that the act can get, with a number of
    /// at most VALUE_MAX, as each reply of a step is.
    fn take(&mut self, reply: Reply)
        requires { IsReplyTo (next_of (is_going self.old) (rest self.old [])) reply }
        ensures going { is_going self.new ≡ is_pending reply }
        ensures pending { is_pending reply ≡ true → (calls : List CompletedCall) → rest self.new calls ≡ rest self.old calls }
        ensures returned { is_pending reply ≡ false → (op : Act) → rest self.old [] ≡ Some op → (calls : List CompletedCall)
            → rest self.new calls ≡ rest self.old (record { op = op; reply = reply } ∷ calls) };
}
