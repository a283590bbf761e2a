//! What the definitions mean, in order of time: each function states a theorem and does nothing.
ghost use Rattle.std.specs.Prelude.{◌≡◌};
ghost use Rattle.ec_semaphore.specs.declared.shape.TheConstants.{INITIAL_MAX};
ghost use Rattle.ec_semaphore.specs.Auditing.{OthersMayBeLeftOut, GoesMayBeLeftOut, GoesMayBeLeftOutOfPairs};
ghost use Rattle.ec_semaphore.specs.Joined.{FollowingMeansUses, UsesAreDownsAndUps, BothMeansCriticalSections, WholeListsAreCriticalSections, DownIsWritten, UpIsWritten, DownBothIsWritten};
ghost use Rattle.ec_semaphore.specs.Laws.{SemaphoresStay, DownsCountCompletedAwaits, BalancesAreNeverNegative, BothIsFollowedAsASemaphore, PairsAreDrawn, TicketsAgree};

/// States that a semaphore that fits declarations still fits them if more is declared.
pub fn declared_semaphores_stay()
    ensures { SemaphoresStay }
{}

/// States that an accepted history follows a semaphore exactly if each worker's calls on it are
/// whole lists joined end to end, and a prefix of one more. The whole lists are the P and the V.
pub fn following_means_uses()
    ensures joined { FollowingMeansUses }
    ensures whole { UsesAreDownsAndUps }
{}

/// States that an accepted history follows `both` exactly if each worker's calls are critical
/// sections, with calls on other objects between them, and a prefix of one more.
pub fn both_means_critical_sections()
    ensures joined { BothMeansCriticalSections }
    ensures whole { WholeListsAreCriticalSections }
{}

/// States which calls `Down`, `Up` and `DownBoth` have made once they are over: a P, a V, and a
/// critical section with a P on each of the two semaphores.
pub fn procedures_ask_for_whole_lists()
    ensures down { DownIsWritten }
    ensures up { UpIsWritten }
    ensures both { DownBothIsWritten }
{}

/// States that the completed P are the entries that end an await of the semaphore's eventcount.
pub fn downs_count_completed_awaits()
    ensures { DownsCountCompletedAwaits }
{}

/// States that if the workers follow a semaphore, its balance is at least 0 at every moment.
pub fn balances_are_never_negative()
    ensures { BalancesAreNeverNegative }
{}

/// States that workers that follow `both` follow its common semaphore, which has initial value 1,
/// as a semaphore.
pub fn both_is_followed_as_a_semaphore()
    ensures { BothIsFollowedAsASemaphore }
{}

/// States that if the workers follow `both`, its pairs are those whose two tickets the history
/// draws, in the order of the entries that draw the first ones.
pub fn pairs_are_drawn()
    ensures { PairsAreDrawn }
{}

/// States that if the workers follow `both`, of two pairs that share a sequencer the earlier has
/// the smaller ticket on it.
pub fn tickets_agree()
    ensures { TicketsAgree }
{}

/// States that the greatest initial value of a semaphore is a million.
pub fn greatest_initial_value_is_a_million()
    ensures { INITIAL_MAX ≡ 1000000 }
{}

/// States that the audit of a semaphore may leave out entries whose calls are not on it, and goes
/// that end no call: without them its state is the same. The audit of critical sections may leave
/// out such goes.
pub fn audits_may_leave_out_entries()
    ensures off { OthersMayBeLeftOut }
    ensures goes { GoesMayBeLeftOut }
    ensures pairs { GoesMayBeLeftOutOfPairs }
{}
