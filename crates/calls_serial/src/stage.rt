//! The state of the pass after the events so far.

ghost use Rattle.std.specs.Prelude.{◌≡◌, ℕ};

use crate::outcome::Fault;
use calls_core::{Call, Op, PendingCall, Reply};

/// A value of the cell, from its put to the next one.
#[derive(Debug, Drop)]
pub struct Stage {
    /// The put that stored the value; the initial value has none.
    pub put: Option<Call>,
    /// The value.
    pub value: usize,
    /// The latest moment at which the put can take effect.
    pub moment: usize,
    /// The link that shows this moment, if it is earlier than the put's response.
    pub link: Option<usize>,
    /// The gets that return the value, in the order of their responses.
    pub gets: Vec<StageGet>,
}

/// A get that returns the value of its stage.
#[derive(Clone, Copy, Debug)]
pub struct StageGet {
    /// Whose call it is.
    pub worker: usize,
    /// The index of its object.
    pub object: usize,
    /// The position of its invocation.
    pub first: usize,
    /// The position of its response.
    pub last: usize,
}

impl StageGet {
    ghost use Rattle.calls_serial.specs.kept.Stages.{get_call, as_get};

    /// Keeps of a get what its stage does not say.
    pub fn new(get: Call) -> StageGet
        ensures { (v : ℕ) → get_call v result ≡ as_get v get }
    {
        StageGet {
            worker: get.worker,
            object: get.object,
            first: get.first,
            last: get.last,
        }
    }

    /// Returns the get, which is in a stage of this value.
    pub fn call(self, value: usize) -> Call
        ensures { result ≡ get_call value self }
    {
        Call {
            worker: self.worker,
            object: self.object,
            op: Op::Get,
            reply: Reply::Number(value),
            first: self.first,
            last: self.last,
        }
    }
}

/// A get that can only return the value of a put that was pending at its response.
#[derive(Clone, Copy, Debug)]
pub struct Link {
    /// The get.
    pub get: Call,
    /// The link that shows that a put pending at the get's invocation took effect before it, if one
    /// is needed.
    pub because: Option<usize>,
}

/// The state of the pass.
#[derive(Debug, Drop)]
pub struct Pass {
    /// The pending calls.
    pub pending: Vec<PendingCall>,
    /// The values in the order of their puts; the last put may be pending.
    pub stages: Vec<Stage>,
    /// The links, in the order of the responses of their gets.
    pub links: Vec<Link>,
}

/// Why the pass ends early.
#[derive(Debug, Drop)]
pub enum Stop {
    /// There is no linearization.
    Fails(Fault),
    /// Two puts overlap.
    Overlaps(PendingCall, PendingCall),
}
