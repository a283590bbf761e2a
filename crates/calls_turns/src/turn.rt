//! Turns, and those who take them.

/// A turn of an item, or a spare one. Turns are taken one after another, in the order of a list.
#[derive(Clone, Copy, Debug, PartialEq, Eq)]
pub struct Turn {
    /// The item; `None` if the turn is spare: it may be of any item.
    pub item: Option<usize>,
    /// It is not taken before this position.
    pub from: usize,
    /// It is taken by this position, if this is before the end.
    pub by: usize,
}

/// Somebody who takes at most one turn.
#[derive(Clone, Copy, Debug, PartialEq, Eq)]
pub struct Taker {
    /// Who it is: a number that the caller knows.
    pub call: usize,
    /// The item of the turn; `None` if it may be of any item.
    pub item: Option<usize>,
    /// The turn is not taken before this position.
    pub from: usize,
    /// It is taken by this position, if this is before the end.
    pub by: usize,
}

/// At least `count` turns are taken by position `at`.
#[derive(Clone, Copy, Debug, PartialEq, Eq)]
pub struct Step {
    /// The position.
    pub at: usize,
    /// The number of turns.
    pub count: usize,
    /// Why.
    pub reason: Reason,
}

/// Why so many turns are taken by a position.
#[derive(Clone, Copy, Debug, PartialEq, Eq)]
pub enum Reason {
    /// The last of them is due by then.
    Due,
    /// So many takers of an item take their turns after a position, or at any time, and by then. If
    /// that position is not before it, this can't be, and any number of turns follows.
    Takers {
        /// The item.
        item: usize,
        /// The position.
        after: Option<usize>,
        /// How many there are, at least.
        takers: usize,
    },
}

/// Turns of an item that are taken by a position, and who may take them by then.
#[derive(Clone, Copy, Debug, PartialEq, Eq)]
pub struct Shortage {
    /// The position.
    pub at: usize,
    /// The index of a turn that is taken by then.
    pub turn: usize,
    /// The item.
    pub item: usize,
    /// How many turns of the item there are, up to that turn.
    pub turns: usize,
    /// How many takers of the item may take a turn by then. They are no more than these turns.
    pub takers: usize,
}

/// Takers of an item who take their turns by a position, and turns of the item that are left for
/// them: if these are less, some of the takers take spare turns.
#[derive(Clone, Copy, Debug, PartialEq, Eq)]
pub struct Share {
    /// The item.
    pub item: usize,
    /// They take their turns after this position, or at any time.
    pub after: Option<usize>,
    /// How many takers there are, at least.
    pub takers: usize,
    /// How many turns of the item are not taken by the position after which they take theirs, at
    /// most.
    pub turns: usize,
}

/// More takers are due by a position than turns of their items are left for them. The others take so
/// many spare turns that one of them is taken by then, which is not taken before a later position;
/// or there are not so many turns.
#[derive(Debug, Drop)]
pub struct Crowd {
    /// The index of that turn.
    pub turn: usize,
    /// The position.
    pub at: usize,
    /// How many turns come before the spare ones.
    pub known: usize,
    /// The takers, for each of some items.
    pub shares: Vec<Share>,
}

/// Why not so many turns can be taken.
#[derive(Debug, Drop)]
pub enum Clash {
    /// The last step needs the turn at this index, which is not taken before a later position; or
    /// there are not so many turns.
    Closed(usize),
    /// There are more turns of some items than takers of these, and fewer takers of any item than
    /// are missing in all.
    Few {
        /// What is missing, for each of these items.
        shortages: Vec<Shortage>,
        /// How many takers of any item may take turns by the position of the last step.
        others: usize,
    },
    /// More takers are due by a position than turns of their items are left for them, and than there
    /// are spare turns.
    Full(Crowd),
}
