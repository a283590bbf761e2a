//! Theorems on bars, curves, shades and arrows, each the contract of a function that does nothing.
ghost use Rattle.std.specs.Prelude.{◌≡◌};
ghost use Rattle.ec_draw.specs.declared.window.TheConstants.{COLUMNS_MAX};
ghost use Rattle.ec_draw.specs.Laws.{ArrowsAreDeliveries, BalanceCurvesAreUnitsLeft, BarsAreCalls};
ghost use Rattle.ec_draw.specs.Laws.{CurvesAreCounts, FollowingIsAnswered, UnitsLeftAreBalances};
ghost use Rattle.ec_draw.specs.Laws.{PendingBarsBegin, ShadesBeginLists, ShadesEndTries};
ghost use Rattle.ec_draw.specs.Laws.{TriesHaveShades};

use ec_core::calls_under_way_are_cut_in_order;
use ec_order::order_by_points_ascends;

/// States that the bars of an accepted history are exactly its completed calls that the window
/// shows, each with its linearization point.
pub fn bars_are_calls()
    ensures { BarsAreCalls }
{
    order_by_points_ascends();
}

/// States that the bar of a pending call begins with the entry that began the call. It is the first
/// entry of the call in the world, and all later entries of its worker are goes with the reply
/// `pending`.
pub fn pending_bars_begin()
    ensures { PendingBarsBegin }
{
    calls_under_way_are_cut_in_order();
}

/// States that the curve of an eventcount or a sequencer at column j is its total, or its tickets,
/// at moment from + j.
pub fn curves_are_counts()
    ensures { CurvesAreCounts }
{}

/// States that the decision whether a history follows its workers' rules is right: it is `true`
/// exactly if `Follow` of `ec_core` holds.
pub fn following_is_answered()
    ensures { FollowingIsAnswered }
{}

/// States that the curve of a balance at column j is the number of units left at moment from + j.
/// That is the semaphore's balance if its workers follow its rules.
pub fn balance_curves_are_balances()
    ensures curve { BalanceCurvesAreUnitsLeft }
    ensures balance { UnitsLeftAreBalances }
{}

/// States that each shade is that of an accepted try, which ends with the shade's last entry. Each
/// accepted try has its shade, in the order of their last entries.
pub fn shades_end_tries()
    ensures each { ShadesEndTries }
    ensures every { TriesHaveShades }
{}

/// States that each shade begins with the entry that began the call sequence of its reader. That
/// entry began a call on the database while no call of a sequence was completed, and no later entry
/// of the reader did so.
pub fn shades_begin_lists()
    ensures { ShadesBeginLists }
{}

/// States that there is one arrow for each get of a buffer, from the put of the same number, if its
/// workers follow its rules.
pub fn arrows_are_deliveries()
    ensures { ArrowsAreDeliveries }
{}

/// States the most columns of a picture as a number.
pub fn pictures_have_400_columns_at_most()
    ensures { COLUMNS_MAX ≡ 400 }
{}
