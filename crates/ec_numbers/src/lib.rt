//! Lists of numbers that take little memory.
#![tactic(auto)]

mod list;

pub use list::NumberList;
