//! Theorems about every history of a buffer with one producer and one consumer.
ghost use Rattle.calls_spsc.specs.Laws.{WhatFlowsHasAnOrder};

/// States that a history has a linearization exactly if its items flow at each moment: what was
/// returned is a beginning of what was put in, and there is room for what is left.
pub fn what_flows_has_an_order()
    ensures { WhatFlowsHasAnOrder }
{}
