//! Parsed scripts.
use ec_count::WorkerId;
use ec_heading::Heading;
use ec_machine::Program;

/// A parsed script. It has the header, a program for each declared worker, in order of declaration,
/// and the workers of the schedule in order.
#[derive(Drop)]
pub struct Plan {
    pub heading: Heading,
    pub programs: Vec<Program>,
    pub schedule: Vec<WorkerId>,
}
