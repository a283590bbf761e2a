//! Who needs spare turns, in numbers.
ghost use Rattle.std.specs.Prelude.{◌≡◌, ℕ, ◌<◌, ◌≤◌, length, Some, IfOk, IfSome};
ghost use Rattle.calls_turns.specs.Turns.{OthersNotDue};
ghost use Rattle.calls_turns.specs.Sweeps.{fill_at};
ghost use Rattle.calls_turns.specs.Chains.{after, AreThere};
ghost use Rattle.calls_turns.specs.Shares.{AreSeeking, fills_of, HasShareMore, is_shared, IsLoad};

use crate::chaining::{mark, position_of, stretch_of};
use crate::counting::is_of;
use crate::demand::Fill;
use crate::turn::{Share, Taker, Turn};
use std::alloc::{AllocError, Global};

/// Who needs spare turns.
#[derive(Drop)]
pub(crate) struct Load {
    /// The takers, for each of some items.
    pub(crate) shares: Vec<Share>,
    /// Whether one of these needs a turn: of each turn before the spare ones.
    pub(crate) needed: Vec<bool>,
}

/// Returns the number of the turn after one that was taken, or of the first one.
fn next_after(fills: &[Fill], turn: Option<usize>) -> usize
    requires { IfSome turn (λ k. k < length fills.now) }
    ensures within { result ≤ length fills.now }
    ensures value { result ≡ after turn }
{
    match turn {
        Some(k) => k + 1,
        None => 0,
    }
}

/// Counts the fills, from one on, that are by takers of an item.
fn count_fills(takers: &[Taker], fills: &[Fill], item: usize, n: usize) -> usize
    requires takers { (k : ℕ) → k < length fills.now
        → (fill_at fills.now k).taker < length takers.now }
    requires within { n ≤ length fills.now }
    ensures { result ≡ fills_of takers.now fills.now item n }
{
    let rest = &fills[n..];
    let mut count = 0;
    for fill in rest {
        if is_of(&takers[fill.taker], item) {
            count += 1;
        }
    }
    count
}

/// Adds the share of an item: of its takers who are due by a position, back to a turn of somebody
/// due later.
fn add_share(
    turns: &[Turn],
    takers: &[Taker],
    fills: &[Fill],
    item: usize,
    at: usize,
    load: &mut Load,
) -> Result<(), AllocError>
    requires there { AreThere turns.now takers.now fills.now (length load.old.needed.items) }
    requires takers { (k : ℕ) → k < length fills.now
        → (fill_at fills.now k).taker < length takers.now }
    requires within { length load.old.needed.items ≤ length fills.now }
    ensures { IfOk result (λ _. HasShareMore turns.now takers.now fills.now item at
        load.old load.new) }
{
    let stretch = stretch_of(turns, takers, fills, item, at, load.needed.len());
    mark(&mut load.needed, stretch.barrier);
    load.shares.push(Share {
        item,
        after: position_of(fills, stretch.barrier),
        takers: count_fills(takers, fills, item, next_after(fills, stretch.barrier)),
        turns: stretch.takers - 1,
    })?;
    Ok(())
}

/// Returns whether an item is among those of a list.
fn is_shared(shares: &[Share], item: usize) -> bool
    ensures { result ≡ is_shared shares.now (Some item) }
{
    shares.iter().any(|share| share.item == item)
}

/// Lists the shares of those who need spare turns by a position: of the items of all who take turns
/// from one on.
pub(crate) fn load_of(
    alloc: Global,
    end: usize,
    turns: &[Turn],
    takers: &[Taker],
    fills: &[Fill],
    at: usize,
    n: usize,
) -> Result<Load, AllocError>
    requires seeking { AreSeeking end turns.now takers.now fills.now at n }
    requires others { OthersNotDue end takers.now }
    requires before { at < end }
    ensures { IfOk result (λ load. IsLoad turns.now takers.now fills.now at n load) }
{
    let mut load = Load {
        shares: Vec::new(alloc),
        needed: vec![in alloc; false; n]?,
    };
    for k in n..fills.len() {
        let item = takers[fills[k].taker].item.unwrap();
        if !is_shared(&load.shares, item) {
            add_share(turns, takers, fills, item, at, &mut load)?;
        }
    }
    Ok(load)
}
