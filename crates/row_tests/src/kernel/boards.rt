//! Answers lines about a board.
use crate::fault::Fault;
use crate::kernel::ask::{Ask, worker};
use crate::kernel::writing::put_worker;
use crate::line::tell;
use ec_count::WorkerId;
use ec_runner::Board;

/// Writes which workers wait.
fn tell_waiting(board: &Board, ask: &mut Ask<'_>) -> Result<(), Fault> {
    write!(ask.out, "waiting")?;
    for n in 0..16 {
        if let Some(worker) = WorkerId::new(n) {
            if board.is_waiting(worker) {
                write!(ask.out, " ")?;
                put_worker(worker, ask)?;
            }
        }
    }
    tell("", ask.out)
}

/// Makes a call of a board, if the line is one.
pub fn answer_board(board: &mut Board, ask: &mut Ask<'_>) -> Result<(), Fault> {
    match ask.verb {
        "waiting" => tell_waiting(board, ask),
        "stuck" => tell(board.is_deadlocked(), ask.out),
        "park" => {
            let parked = board.park(worker(ask)?);
            tell(format_args!("{parked:?}"), ask.out)
        }
        "live" => tell(board.is_active(worker(ask)?), ask.out),
        "leave" => {
            board.leave(worker(ask)?);
            Ok(())
        }
        _ => Err(Fault::Line),
    }
}

/// Writes all that can be asked of a board, except its run.
pub fn tell_board(board: &Board, ask: &mut Ask<'_>) -> Result<(), Fault> {
    for n in 0..16 {
        if let Some(worker) = WorkerId::new(n) {
            tell(board.is_active(worker), ask.out)?;
        }
    }
    tell(board.is_deadlocked(), ask.out)?;
    tell_waiting(board, ask)
}
