//! A theorem on the traces that are written. It is the contract of an empty function.
ghost use Rattle.calls_replay.specs.Replays.{TracesOfOrdersAreRead};

/// States that the trace of a linearization is read as its header and its steps.
///
/// This holds if the trace is within the bound of a trace, and then `evc check` accepts it.
pub fn traces_of_orders_are_read()
    ensures { TracesOfOrdersAreRead }
{}
