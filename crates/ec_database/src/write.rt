//! Writing all cells.
ghost use Rattle.std.specs.Prelude.{◌≡◌, ◌+◌, ◌-◌, ◌≤◌, true, false, ◌==◌, if◌then◌else◌, List, get_or};
ghost use Rattle.std.specs.List.{All};
ghost use Rattle.arrayvec.specs.ArrayVec.{array_vec_len};
ghost use Rattle.ec_core.specs.Following.{CompletedCall};
ghost use Rattle.ec_database.specs.Calls.{write_call};
ghost use Rattle.ec_database.specs.SnapshotPhases.{write_rest};

use crate::DatabaseShape;
use crate::places::write_at;
use arrayvec::ArrayVec;
use ec_core::{Act, Procedure, Reply, VALUE_MAX};

/// The procedure that writes all cells of a database. It advances the count of starts, draws a
/// turn, waits for it, puts each value, and advances the count of writes that are done.
#[derive(Debug, Drop)]
pub struct WriteAll {
    shape: DatabaseShape,
    values: ArrayVec<u64, 256>,
    at: usize,
    turn: u64,
    going: bool,
    ghost many: { array_vec_len values ≡ shape.cells },
    ghost few: { at ≤ shape.cells + 4 },
    ghost waits: { going ≡ true → at ≡ 2 },
}

impl WriteAll {
    /// Makes a write of as many values as the database has cells, each of at most VALUE_MAX.
    pub fn new(shape: DatabaseShape, values: ArrayVec<u64, 256>) -> Self
        requires many { array_vec_len values ≡ shape.cells }
        requires small { All (λ v. v ≤ VALUE_MAX) values.items }
        ensures whole { (calls : List CompletedCall) → ⟦<WriteAll as Procedure>⟧.rest result calls ≡ write_call shape values.items calls }
        ensures fresh { ⟦<WriteAll as Procedure>⟧.is_going result ≡ false }
    {
        WriteAll {
            shape,
            values,
            at: 0,
            turn: 0,
            going: false,
        }
    }

    /// Returns the value that the current call puts, 0 if it is no put.
    fn value(&self) -> u64
        ensures { result ≡ get_or self.now.values.items (self.now.at - 3) 0 }
    {
        let put = self.at.saturating_sub(3);
        self.values.as_slice().get(put).copied().unwrap_or(0)
    }

    /// Takes the number that the current call returned.
    fn take_reply(&mut self, number: u64)
        requires { self.old.at ≤ self.old.shape.cells + 3 }
        ensures place { self.new.at ≡ self.old.at + 1 }
        ensures turn { self.new.turn ≡ (if self.old.at == 1 then number else self.old.turn) }
        ensures going { self.new.going ≡ false }
        ensures same { (self.new.shape ≡ self.old.shape) × (self.new.values ≡ self.old.values) }
    {
        if self.at == 1 {
            self.turn = number;
        }
        self.at += 1;
        self.going = false;
    }
}

impl Procedure for WriteAll {
    ghost use Rattle.ec_database.specs.SnapshotPhases.{write_rest};

    ghost rest = { λ s calls. write_rest s.shape s.values.items s.at s.turn calls };

    ghost is_going = { λ s. s.going };

    fn next(&self) -> Option<Act> {
        if self.going {
            Some(Act::Go)
        } else {
            write_at(&self.shape, self.at, self.turn, self.value())
        }
    }

    fn take(&mut self, reply: Reply) {
        if reply.is_pending() {
            self.going = true;
            return;
        }
        self.take_reply(reply.number());
    }
}
