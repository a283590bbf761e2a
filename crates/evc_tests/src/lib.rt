//! Tests of what no golden test of tests/rows can say, among them the examples that pages show.
#![tactic(auto)]

#[cfg(test)]
mod error_tests;
#[cfg(test)]
mod example_tests;
#[cfg(test)]
mod form_tests;
#[cfg(test)]
mod memory_tests;
#[cfg(test)]
mod note_tests;
#[cfg(test)]
mod task_tests;
#[cfg(test)]
mod type_tests;
