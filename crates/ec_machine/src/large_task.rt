//! A command on all cells of a database.
ghost use Rattle.ec_machine.specs.Tasks.{large_rest, large_going};

use ec_core::{Act, Procedure, Reply};
use ec_database::{Snapshot, WriteAll};

/// What is left of the calls of a command that keeps a value for each cell of a database.
#[derive(Drop)]
pub(crate) enum LargeTask {
    /// There was no such command yet.
    Nothing,
    WriteAll(WriteAll),
    Snapshot(Snapshot),
}

impl Procedure for LargeTask {
    ghost rest = { large_rest };

    ghost is_going = { large_going };

    fn next(&self) -> Option<Act> {
        match self {
            LargeTask::Nothing => None,
            LargeTask::WriteAll(write) => write.next(),
            LargeTask::Snapshot(snapshot) => snapshot.next(),
        }
    }

    fn take(&mut self, reply: Reply) {
        match self {
            LargeTask::Nothing => {}
            LargeTask::WriteAll(write) => write.take(reply),
            LargeTask::Snapshot(snapshot) => snapshot.take(reply),
        }
    }
}
