//! The explanation of a text.
ghost use Rattle.std.specs.Prelude.{◌≡◌, ◌++◌, IfOk, IsOk, decimal};
ghost use Rattle.ec_text.specs.Puts.{Puts};
ghost use Rattle.evc_engine.specs.declared.status.Status.TheVariants.{Refused};
ghost use Rattle.ec_explain.specs.Findings.{finding_text};
ghost use Rattle.evc_explain_engine.specs.TextAndStatus.{HasTextAndStatus};

use ec_explain::{Finding, put_finding};
use ec_text::{Output, WriteFault};
use evc_engine::Status;
use std::alloc::{AllocError, Global};
use std::io::Write;

/// What is written on a text, and the status of the program.
#[derive(Drop)]
pub(crate) struct Explanation {
    pub(crate) bytes: Vec<u8>,
    pub(crate) status: Status,
}

/// Returns bytes, if none of the writes failed.
pub(crate) fn whole(bytes: Vec<u8>, done: Result<(), WriteFault>) -> Result<Vec<u8>, AllocError>
    ensures { IfOk result (λ all. (all ≡ bytes) × IsOk done) }
{
    match done {
        Ok(()) => Ok(bytes),
        Err(_) => Err(AllocError),
    }
}

/// Puts a number between two texts.
pub(crate) fn put_count<W: Write>(out: &mut Output<'_, W>, before: &[u8], count: u64, after: &[u8])
    ensures { Puts out.old out.new (before.now ++ decimal count ++ after.now) }
{
    out.put(before);
    out.put_number(count);
    out.put(after);
}

/// Returns what is found wrong with a text, and what more is known of it, as bytes.
fn finding_bytes(
    alloc: Global,
    finding: &Finding,
    more: &[u8],
    text: &[u8],
) -> Result<Vec<u8>, AllocError>
    ensures { IfOk result (λ bytes. bytes.items ≡ finding_text finding.now more.now text.now) }
{
    let mut bytes = Vec::new(alloc);
    let mut out = Output::new(&mut bytes);
    put_finding(&mut out, finding, more, text);
    let done = out.finish();
    out.into_writer();
    whole(bytes, done)
}

/// Returns the explanation of a text with this finding, and what more is known of it.
pub(crate) fn explain_finding(
    alloc: Global,
    finding: &Finding,
    more: &[u8],
    text: &[u8],
) -> Result<Explanation, AllocError>
    ensures { IfOk result (HasTextAndStatus (finding_text finding.now more.now text.now) Refused) }
{
    Ok(Explanation {
        bytes: finding_bytes(alloc, finding, more, text)?,
        status: Status::Refused,
    })
}
