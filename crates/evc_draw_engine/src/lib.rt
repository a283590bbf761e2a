//! Draws the input of `evc-draw`, a trace or histories of calls, as a picture.
#![tactic(auto)]

mod calls;
mod drawing;
mod elements;
mod fault;
mod findings;
mod html;
mod names;
mod note;
mod shapes;
mod sheet;
mod style;
mod svg;
mod text;
mod unknown;
mod view;
mod window;
mod words;

pub use drawing::draw;
pub use view::View;
