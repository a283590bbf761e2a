//! The texts of errors that no golden test shows.
use ec_core::{AuditFault, Refusal, StepFault};
use ec_count::WorkerId;
use ec_order::OrderFault;
use ec_runner::{BoardFault, SimFault};
use ec_text::WriteFault;
use ec_trace::TraceFault;
use std::alloc::Global;
use std::fmt::Display;
use std::test::Fail;

/// Fails if an error has another text.
fn says(alloc: Global, error: &impl Display, wanted: &str) -> Result<(), Fail> {
    let text = format!(in alloc; "{error}")?;
    if text.as_str() == wanted {
        Ok(())
    } else {
        Err(Fail::new(format_args!("another text than {wanted}")))
    }
}

#[test]
fn errors_that_no_row_shows(rt: HostRuntime) -> Result<(), Fail> {
    let alloc = rt.alloc();
    let (worker, entry, place) = (WorkerId::new(1).unwrap(), 10, 3);
    let busy = "the step is refused: a call of the worker is under way";
    let full = "the step is refused: the count is at its limit";
    let line = "line 8: refused: the count is at its limit";
    let ended = "place 3 of the schedule names a worker that has ended";
    let lists = "entry 10 breaks the call lists of its worker";
    let broken = AuditFault::NotFollowed { worker, entry };
    says(alloc, &StepFault::Refused(Refusal::Busy), busy)?;
    says(alloc, &BoardFault::Refused(Refusal::AtLimit), full)?;
    says(alloc, &TraceFault::Refused(8, Refusal::AtLimit), line)?;
    says(alloc, &SimFault::Ended { place, worker }, ended)?;
    says(alloc, &broken, lists)?;
    says(alloc, &OrderFault::Memory, "memory was refused")?;
    says(alloc, &WriteFault, "a write failed")
}
