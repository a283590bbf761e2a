//! Pictures of histories of calls.
#![tactic(auto)]

mod blocks;
mod certificate;
mod choice;
mod curves;
mod drawing;
mod grid;
mod history;
mod items;
mod limits;
mod lines;
mod panels;
mod picture;
mod rows;
mod scale;
mod sink;
mod style;
mod svg;
mod text;
mod view;
mod words;

pub use drawing::{draw_calls, is_calls};
pub use view::{CallsView, EVENTS_MAX, Form};
