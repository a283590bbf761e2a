//! A bounded buffer of eventcounts and sequencers.
#![tactic(auto)]

mod audit;
mod consume;
mod delivery;
mod laws;
mod list_phase;
mod lists;
mod produce;
mod shape;

pub use audit::{DeliveryAudit, deliveries};
pub use consume::Consume;
pub use delivery::Delivery;
pub use laws::{
    audits_may_leave_out_entries, declared_buffers_stay, deliveries_are_determined,
    following_means_lists, items_go_by_number, items_move_once, puts_wait_for_room,
    what_is_got_was_put,
};
pub use lists::is_on;
pub use produce::Produce;
pub use shape::{BufferShape, declare_buffer};
