//! Commands called on bytes in memory.
use ec_text::Output;
use evc_cli::Task;
use evc_engine::{Status, audit};
use evc_scripts::engine_without_threads;

/// A trace of a semaphore that no worker uses.
const UNUSED: &str = "evc-trace 1\nlimit 10\nworkers a\nsemaphore S 1 use a\nrun\nend\n";

/// The audit of that trace.
const UNUSED_AUDIT: &str = "evc-audit 1\nbalance S 1 0 0 1\nend\n";

/// A script without programs.
const IDLE: &str = "evc-script 1\nlimit 10\nworkers a\n";

#[test]
fn an_audit_of_bytes_in_memory(rt: HostRuntime) {
    let mut out = Vec::new(rt.alloc());
    let mut returned = Vec::<u8>::new(rt.alloc());
    let mut reader = UNUSED.as_bytes();
    let status = audit(
        rt.alloc(),
        &mut reader,
        &mut out,
        &mut Output::new(&mut returned),
    );
    assert!(rt; status == Status::Done && out.as_slice() == UNUSED_AUDIT.as_bytes());
    assert!(rt; returned.is_empty());
}

#[test]
fn a_run_is_left_to_threads(rt: HostRuntime) {
    let text = IDLE.as_bytes();
    let mut reader = text;
    let mut out = Vec::<u8>::new(rt.alloc());
    let mut returned = Vec::<u8>::new(rt.alloc());
    let mut notes = Output::new(&mut returned);
    let left = engine_without_threads(rt.alloc(), Task::Run(7), &mut reader, &mut out, &mut notes);
    assert!(rt; left == Err(7) && reader == text && out.is_empty() && returned.is_empty());
}
