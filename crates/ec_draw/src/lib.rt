//! The shapes of a picture of a run: a bar for each call with a mark at its linearization point, a
//! dot for each entry, curves of counts and balances, shades of tries, and arrows of deliveries.
#![tactic(auto)]

mod arrow;
mod balance;
mod chosen;
mod curve;
mod dot;
mod finding;
mod laws;
mod open;
mod picture;
mod replay;
mod shade;
mod window;

pub use arrow::Arrow;
pub use chosen::{NameFilter, Selection};
pub use curve::{Counter, Curve, CurveSource};
pub use dot::Dot;
pub use laws::{
    arrows_are_deliveries, balance_curves_are_balances, bars_are_calls, curves_are_counts,
    following_is_answered, pending_bars_begin, pictures_have_400_columns_at_most,
    shades_begin_lists, shades_end_tries,
};
pub use open::PendingBar;
pub use picture::{Picture, picture_of};
pub use shade::{Shade, Span};
pub use window::{COLUMNS_MAX, Window};
