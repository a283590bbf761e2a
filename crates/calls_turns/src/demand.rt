//! What has to be done by a position.

/// What has to be taken, or who has to take a turn.
#[derive(Clone, Copy)]
pub(crate) enum Target {
    /// The turn at an index.
    Turn(usize),
    /// The taker at an index.
    Taker(usize),
}

/// What has to be done by a position.
#[derive(Clone, Copy)]
pub(crate) struct Demand {
    /// The position.
    pub(crate) at: usize,
    /// What it is.
    pub(crate) target: Target,
}

/// Who takes a turn.
#[derive(Clone, Copy)]
pub(crate) struct Fill {
    /// The index of the taker.
    pub(crate) taker: usize,
    /// Why the turn is taken. This is also when: as late as may be.
    pub(crate) demand: Demand,
}
