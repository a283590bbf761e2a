//! Theorems about every history, each the contract of an empty function.
ghost use Rattle.calls_verdict.specs.Laws.{AFaultLeavesNoLinearization, EveryHistoryIsDecided};
ghost use Rattle.calls_verdict.specs.Laws.{WhatIsShownIsAFault, ARefusalIsFinal};
ghost use Rattle.calls_verdict.specs.Laws.{TheFirstFaultIsOne};

/// States that a history in which an object has a fault, and each longer one, has no linearization.
pub fn a_fault_leaves_no_linearization()
    ensures { AFaultLeavesNoLinearization }
{}

/// States that the fault that a refusal returns is a fault of the object.
pub fn what_is_shown_is_a_fault()
    ensures { WhatIsShownIsAFault }
{}

/// States that no prefix that contains the refused event has a linearization.
pub fn a_refusal_is_final()
    ensures { ARefusalIsFinal }
{}

/// States that the first faulty event is the first with which the events have no linearization.
pub fn the_first_fault_is_one()
    ensures { TheFirstFaultIsOne }
{}

/// States that a history whose objects are all decided has a linearization or a faulty object.
pub fn every_history_is_decided()
    ensures { EveryHistoryIsDecided }
{}
