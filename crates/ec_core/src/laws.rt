//! What the definitions mean, in order of time: each function states a theorem and does nothing.
ghost use Rattle.std.specs.Prelude.{◌≡◌};
ghost use Rattle.ec_core.specs.declared.act.TheConstants.{VALUE_MAX};
ghost use Rattle.ec_core.specs.Laws.{TotalsCountAdvances, ComponentsCountAdvances, IssuedCountsTickets, CellsHoldTheLastPut, CallsUnderWayAreCutInOrder, CallsUnderWayRead, RoundsAddTheirComponents, ComponentsAddUp, TotalsRiseByOne, CountsKeepTheLimit, RoundsLieBetween, RoundsOfCallsLieBetween, PrefixesAreAccepted, AcceptedMeansAnswered, NumbersAreSmall, RepliesFitTheirActs, SignallersAreDifferent, FixedEventsKeepTheirSignallers, SignallersAreTheLastReceivers, HandsChangeNoNumber, OthersStand, IndexZeroIsAnAwait, IndexZeroMeansFallenShort};

/// States that the total of an eventcount at a moment is the number of its advances before it.
///
/// This is Reed and Kanodia's value.
pub fn totals_count_advances()
    ensures { TotalsCountAdvances }
{}

/// States that a component is the number of its advances before the moment.
///
/// An advance is one of the component if its worker signalled the component at that time.
pub fn components_count_advances()
    ensures { ComponentsCountAdvances }
{}

/// States that the number of tickets drawn is the number of ticket entries.
pub fn issued_counts_tickets()
    ensures { IssuedCountsTickets }
{}

/// States that a cell holds the value last put into it, and 0 if none was.
pub fn cells_hold_the_last_put()
    ensures { CellsHoldTheLastPut }
{}

/// States exactly when a call of a worker is pending.
///
/// Its invocation is no go, the worker's entries after that are goes, and each reply is Pending.
pub fn calls_under_way_are_cut_in_order()
    ensures { CallsUnderWayAreCutInOrder }
{}

/// States that each pending call of an accepted history is a read or an await.
///
/// The eventcount that it reads is declared.
pub fn calls_under_way_read()
    ensures { CallsUnderWayRead }
{}

/// States that a pending await reads component 0 next exactly if its last round just fell short.
pub fn index_zero_means_fallen_short()
    ensures { IndexZeroMeansFallenShort }
{}

/// States that a pending read never reads component 0 next: a call that does is an await.
pub fn index_zero_is_an_await()
    ensures { IndexZeroIsAnAwait }
{}

/// States that the sum of a round adds each component as it was at its own moment.
pub fn rounds_add_their_components()
    ensures { RoundsAddTheirComponents }
{}

/// States that the components of an eventcount add up to its total.
pub fn components_add_up()
    ensures { ComponentsAddUp }
{}

/// States that from one moment to the next a total never falls and rises by at most one.
pub fn totals_rise_by_one()
    ensures { TotalsRiseByOne }
{}

/// States that no component, and no number of tickets drawn, exceeds the limit.
pub fn counts_keep_the_limit()
    ensures { CountsKeepTheLimit }
{}

/// States that the sum of components read one after another lies between two totals.
///
/// It is at least the total before the first reading, and at most the total after the last one.
pub fn rounds_lie_between()
    ensures { RoundsLieBetween }
{}

/// States the same of a round of a read or an await.
///
/// Its sum is at least the total at the round's start and at most the total at its last entry.
pub fn rounds_of_calls_lie_between()
    ensures { RoundsOfCallsLieBetween }
{}

/// States that every prefix of an accepted history is accepted.
pub fn prefixes_are_accepted()
    ensures { PrefixesAreAccepted }
{}

/// States that a history is accepted exactly if each entry has the answer to its act at its moment.
pub fn accepted_means_answered()
    ensures { AcceptedMeansAnswered }
{}

/// States that no number in an accepted history is above the greatest value.
pub fn numbers_are_small()
    ensures { NumbersAreSmall }
{}

/// States that each reply in an accepted history is of a kind that its act can get.
///
/// Its number is at most the greatest value.
pub fn replies_fit_their_acts()
    ensures { RepliesFitTheirActs }
{}

/// States that in an accepted history the components of an eventcount have different signallers.
///
/// At each moment each component has one.
pub fn signallers_are_different()
    ensures { SignallersAreDifferent }
{}

/// States that in an accepted history a fixed eventcount keeps its signallers.
pub fn fixed_events_keep_their_signallers()
    ensures { FixedEventsKeepTheirSignallers }
{}

/// States that the signaller of a component is the worker that last received it.
///
/// It is the declared one if the component was not transferred.
pub fn signallers_are_the_last_receivers()
    ensures { SignallersAreTheLastReceivers }
{}

/// States that a hand changes no total, no component, no number of tickets and no cell.
pub fn hands_change_no_number()
    ensures { HandsChangeNoNumber }
{}

/// States that an accepted history without the entries of some read-only workers is accepted.
///
/// The other entries keep their replies.
pub fn others_stand()
    ensures { OthersStand }
{}

/// States the greatest value of a put, of an await's threshold and of a reply, as a number.
pub fn greatest_value_is_eighteen_nines()
    ensures { VALUE_MAX ≡ 999999999999999999 }
{}
