//! What the definitions mean: each function states a theorem and does nothing.
ghost use Rattle.ec_buffer.specs.Auditing.{OthersMayBeLeftOut, GoesMayBeLeftOut};
ghost use Rattle.ec_buffer.specs.Joined.{FollowingMeansLists};
ghost use Rattle.ec_buffer.specs.Laws.{BuffersStay, PutsGoByNumber, GetsGoByNumber, ItemsArePutOnce, ItemsAreGotOnce, WhatIsGotWasPut, PutsWaitForRoom, DeliveriesAreDetermined};

/// States that a buffer that fits declarations still fits them if more is declared.
pub fn declared_buffers_stay()
    ensures { BuffersStay }
{}

/// States that an accepted history follows a buffer exactly if each worker's calls on it are whole
/// lists joined end to end, and a prefix of one more. A whole list produces or consumes one item.
pub fn following_means_lists()
    ensures { FollowingMeansLists }
{}

/// States that in a history that follows a buffer, item n is put by the n-th put and got by the
/// n-th get, both counted from 0.
pub fn items_go_by_number()
    ensures put { PutsGoByNumber }
    ensures got { GetsGoByNumber }
{}

/// States that in a history that follows a buffer no item is put twice, and none is got twice.
pub fn items_move_once()
    ensures put { ItemsArePutOnce }
    ensures got { ItemsAreGotOnce }
{}

/// States that in a history that follows a buffer, an item that is got was put before, with the
/// same number.
pub fn what_is_got_was_put()
    ensures { WhatIsGotWasPut }
{}

/// States that in a history that follows a buffer of n cells, item i was got before item i + n is
/// put.
pub fn puts_wait_for_room()
    ensures { PutsWaitForRoom }
{}

/// States that a history that follows a buffer has only one list of deliveries.
pub fn deliveries_are_determined()
    ensures { DeliveriesAreDetermined }
{}

/// States that the audit of a buffer may leave out entries whose calls are not on it, and goes that
/// end no call: without them its state is the same.
pub fn audits_may_leave_out_entries()
    ensures off { OthersMayBeLeftOut }
    ensures goes { GoesMayBeLeftOut }
{}
