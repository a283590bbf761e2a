//! Theorems about every history of a buffer, each the contract of a function that does nothing.
ghost use Rattle.calls_buffers.specs.Laws.{ABufferIsAQueue, AFaultLeavesNoOrder};

/// States that the sequential specification of a buffer is that of a queue: a list of items, of
/// which there are at most as many as it has room for.
pub fn a_buffer_is_a_queue()
    ensures { ABufferIsAQueue }
{}

/// States that a history that shows a fault has no linearization.
pub fn a_fault_leaves_no_order()
    ensures { AFaultLeavesNoOrder }
{}
