//! What a name denotes.
ghost use Rattle.std.specs.Prelude.{◌≡◌};

use crate::{CellId, EventId, SeqId, WorkerId};
use std::hash::{Hash, Hasher};

/// What a name denotes.
#[derive(Clone, Copy, Debug)]
pub enum Target {
    Worker(WorkerId),
    Event(EventId),
    Sequencer(SeqId),
    /// The first of so many cells with consecutive ids, and their number.
    Cells(CellId, usize),
    /// A group of objects, by its index among the groups.
    Group(usize),
}

impl PartialEq for Target {
    ghost use Rattle.ec_count.specs.Targets.{same_target, same_target_part};

    ghost eq = { same_target };

    ghost laws = { same_target_part };

    fn eq(&self, other: &Self) -> bool {
        match (self, other) {
            (Target::Worker(worker), Target::Worker(other)) => worker == other,
            (Target::Event(event), Target::Event(other)) => event == other,
            (Target::Sequencer(sequencer), Target::Sequencer(other)) => sequencer == other,
            (Target::Cells(first, n), Target::Cells(other, m)) => first == other && n == m,
            (Target::Group(index), Target::Group(other)) => index == other,
            _ => false,
        }
    }
}

impl Eq for Target {
    ghost use Rattle.ec_count.specs.Targets.{same_target_whole};

    ghost laws = { same_target_whole };
}

impl Hash for Target {
    ghost use Rattle.ec_count.specs.Targets.{target_alike, target_input};

    ghost hash_input = { target_input };

    ghost respects_eq = { target_alike };

    fn hash<H: Hasher>(&self, state: &mut H) {
        match self {
            Target::Worker(worker) => {
                state.write_u8(0);
                state.write_usize(worker.get());
            }
            Target::Event(event) => {
                state.write_u8(1);
                state.write_usize(event.get());
            }
            Target::Sequencer(sequencer) => {
                state.write_u8(2);
                state.write_usize(sequencer.get());
            }
            Target::Cells(first, n) => {
                state.write_u8(3);
                state.write_usize(first.get());
                state.write_usize(*n);
            }
            Target::Group(index) => {
                state.write_u8(4);
                state.write_usize(*index);
            }
        }
    }
}
