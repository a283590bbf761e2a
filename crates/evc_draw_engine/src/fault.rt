//! The history that is drawn of a text with a faulty line.
ghost use Rattle.std.specs.Prelude.{◌≡◌, ◌++◌, IfOk, IfErr, OnOk};
ghost use Rattle.ec_heading.specs.Spelling.{reply_word};
ghost use Rattle.evc_engine.specs.Checks.{ReadsAs};
ghost use Rattle.evc_draw_engine.specs.Faults.{fault_line, history, mended, position_in, right_of};
ghost use Rattle.evc_draw_engine.specs.Faults.{with_reply, with_right};
ghost use Rattle.evc_draw_engine.specs.Draws.{RefusedOr};

use ec_core::Reply;
use ec_explain::{line_at, position_or_end, text_before_line};
use ec_trace::{TraceFault, Traced, read_trace};
use itoa::Buffer;
use std::alloc::{AllocError, Global};

/// Adds the word of a reply.
fn add_reply(text: &mut Vec<u8>, reply: &Reply) -> Result<(), AllocError>
    ensures { OnOk result (text.new.items ≡ text.old.items ++ reply_word reply.now) }
{
    match *reply {
        Reply::Done => text.extend_from_slice(b"done"),
        Reply::Pending => text.extend_from_slice(b"pending"),
        Reply::Number(n) => {
            let mut digits = Buffer::new();
            text.extend_from_slice(digits.format(n).as_bytes())
        }
    }
}

/// Adds a line with another reply.
#[tactic(auto, unfolding(crate::specs::Faults::with_reply))]
fn add_with_reply(text: &mut Vec<u8>, line: &[u8], reply: &Reply) -> Result<(), AllocError>
    ensures { OnOk result (text.new.items ≡ text.old.items ++ with_reply line.now reply.now) }
{
    text.extend_from_slice(&line[..position_or_end(b'=', line)])?;
    text.extend_from_slice(b"= ")?;
    add_reply(text, reply)?;
    text.extend_from_slice(b"\n")
}

/// Adds a line with the right reply, if there is one.
fn add_with_right(text: &mut Vec<u8>, line: &[u8], right: &Option<Reply>) -> Result<(), AllocError>
    ensures { OnOk result (text.new.items ≡ text.old.items ++ with_right line.now right.now) }
{
    if let Some(reply) = right {
        add_with_reply(text, line, reply)?;
    }
    Ok(())
}

/// Returns a trace: the lines before a faulty one, that line with its right reply if there is one,
/// and `end`.
#[tactic(auto, unfolding(crate::specs::Faults::mended))]
fn correct_line(
    alloc: Global,
    before: &[u8],
    line: &[u8],
    right: &Option<Reply>,
) -> Result<Vec<u8>, AllocError>
    ensures { IfOk result (λ text. text.items ≡ mended before.now line.now right.now) }
{
    let mut text = Vec::new(alloc);
    text.extend_from_slice(before)?;
    add_with_right(&mut text, line, right)?;
    text.extend_from_slice(b"end\n")?;
    Ok(text)
}

/// Reads a text as a trace.
pub(crate) fn read_text(alloc: Global, text: &[u8]) -> Result<Traced, TraceFault>
    ensures ok { IfOk result (ReadsAs text.now) }
    ensures err { IfErr result (RefusedOr text.now) }
{
    let mut rest = text;
    read_trace(alloc, &mut rest)
}

/// Returns the trace of the lines before a faulty one, and of that line with its right reply if
/// there is one. `None` if no run had begun.
pub(crate) fn history(
    alloc: Global,
    number: u64,
    right: &Option<Reply>,
    text: &[u8],
) -> Result<Option<Traced>, AllocError>
    ensures { IfOk result (λ read. read ≡ history number right.now text.now) }
{
    let mended = correct_line(
        alloc,
        text_before_line(number, text),
        line_at(number, text),
        right,
    )?;
    match read_text(alloc, mended.as_slice()) {
        Ok(traced) => Ok(Some(traced)),
        Err(TraceFault::Memory | TraceFault::Read) => Err(AllocError),
        Err(_) => Ok(None),
    }
}

/// Returns the number of the line of a fault, `None` if it has no line.
pub(crate) fn fault_line(fault: &TraceFault) -> Option<u64>
    ensures { result ≡ fault_line fault.now }
{
    match *fault {
        TraceFault::BadLine(number)
        | TraceFault::Refused(number, _)
        | TraceFault::WrongReply(number, _) => Some(number),
        _ => None,
    }
}

/// Returns the right reply, if only the reply is wrong.
pub(crate) fn right_of(fault: &TraceFault) -> Option<Reply>
    ensures { result ≡ right_of fault.now }
{
    match *fault {
        TraceFault::WrongReply(_, right) => Some(right),
        _ => None,
    }
}

/// Returns the position of the entry of a faulty line, if the history up to it has `entries`
/// entries.
pub(crate) fn position_in(right: &Option<Reply>, entries: usize) -> usize
    ensures { result ≡ position_in right.now entries }
{
    match right {
        Some(_) => entries.saturating_sub(1),
        None => entries,
    }
}
