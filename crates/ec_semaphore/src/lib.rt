//! Semaphores of an eventcount and a sequencer, and P on two semaphores at once. The eventcounts
//! and sequencers are those of D. P. Reed and R. K. Kanodia, "Synchronization with Eventcounts and
//! Sequencers", CACM 22(2), 1979; the lists of calls are this project's own.
#![tactic(auto)]

mod balancing;
mod critical_sections;
mod down;
mod down_both;
mod laws;
mod pair;
mod pairing;
mod parts;
mod shape;
mod up;
mod uses;

pub use balancing::{BalanceAudit, balance};
pub use down::Down;
pub use down_both::DownBoth;
pub use laws::{
    audits_may_leave_out_entries, balances_are_never_negative, both_is_followed_as_a_semaphore,
    both_means_critical_sections, declared_semaphores_stay, downs_count_completed_awaits,
    following_means_uses, greatest_initial_value_is_a_million, pairs_are_drawn,
    procedures_ask_for_whole_lists, tickets_agree,
};
pub use pair::Pair;
pub use pairing::{PairAudit, pairs};
pub use parts::Balance;
pub use shape::{INITIAL_MAX, SemaphoreShape, declare_both, declare_semaphore};
pub use up::Up;
pub use uses::is_on;
