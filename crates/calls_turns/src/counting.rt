//! Counts turns, and those who may take them.
ghost use Rattle.std.specs.Prelude.{◌≡◌, ◌<◌, ◌≤◌, length};
ghost use Rattle.calls_turns.specs.Steps.{has_item, is_of, known, turns_of, come_of, others_by};

use crate::turn::{Taker, Turn};

/// Returns whether a turn or a taker is of this item, and not of any.
pub(crate) fn has_item(own: Option<usize>, item: usize) -> bool
    ensures { result ≡ has_item own item }
{
    match own {
        Some(own) => own == item,
        None => false,
    }
}

/// Returns whether a taker takes turns of this item only.
pub(crate) fn is_of(taker: &Taker, item: usize) -> bool
    ensures { result ≡ is_of item taker.now }
{
    has_item(taker.item, item)
}

/// Counts the turns that come before the first spare one.
pub(crate) fn count_known(turns: &[Turn]) -> usize
    ensures { result ≡ known turns.now }
{
    for k in 0..turns.len() {
        if turns[k].item.is_none() {
            return k;
        }
    }
    turns.len()
}

/// Counts the turns of an item among the first ones.
pub(crate) fn count_turns(turns: &[Turn], item: usize, n: usize) -> usize
    ensures { result ≡ turns_of turns.now item n }
{
    turns[..n.min(turns.len())]
        .iter()
        .filter(|turn| has_item(turn.item, item))
        .count()
}

/// Counts the takers of an item who may take a turn by a position.
pub(crate) fn count_takers(takers: &[Taker], item: usize, at: usize) -> usize
    ensures { result ≡ come_of takers.now item at }
{
    takers
        .iter()
        .filter(|taker| is_of(taker, item) && taker.from <= at)
        .count()
}

/// Counts the takers of any item who may take a turn by a position.
pub(crate) fn count_others(takers: &[Taker], at: usize) -> usize
    ensures { result ≡ others_by takers.now at }
{
    takers
        .iter()
        .filter(|taker| taker.item.is_none() && taker.from <= at)
        .count()
}
