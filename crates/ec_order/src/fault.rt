//! Why no order was returned.
ghost use Rattle.std.specs.Prelude.{◌≡◌};
ghost use Rattle.ec_order.specs.declared.fault.OrderFault.TheVariants.{Memory};

use std::alloc::AllocError;
use thiserror::Error;

/// Why `order` returned no order. It can only be out of memory, since every run has an order.
#[derive(Clone, Copy, Debug, PartialEq, Eq, Error)]
pub enum OrderFault {
    /// An allocation failed. The run is unchanged.
    #[error("memory was refused")]
    Memory,
}

impl From<AllocError> for OrderFault {
    ghost from_gives = { λ _ fault. fault ≡ Memory };

    fn from(_: AllocError) -> Self {
        OrderFault::Memory
    }
}
