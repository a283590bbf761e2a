//! Writes workers, objects, replies and entries as words.
use crate::fault::Fault;
use crate::kernel::ask::Ask;
use crate::line::tell;
use ec_core::{Act, Entry, Reply};
use ec_count::{Target, WorkerId};

/// Writes the word of a worker or an object.
pub fn put_object(object: Target, ask: &mut Ask<'_>) -> Result<(), Fault> {
    let words = ask.about.words();
    for place in 0..words.len() {
        if let Some((word, found)) = words.at(place) {
            if found == object {
                ask.out.put(word)?;
                return Ok(());
            }
        }
    }
    Err(Fault::Line)
}

/// Writes a worker.
pub fn put_worker(worker: WorkerId, ask: &mut Ask<'_>) -> Result<(), Fault> {
    put_object(Target::Worker(worker), ask)
}

/// Writes an entry.
pub fn put_entry(entry: &Entry, ask: &mut Ask<'_>) -> Result<(), Fault> {
    Ok(ec_trace::write_entry(entry, ask.about, ask.out)?)
}

/// Returns an entry whose reply is pending, for an act that is due or a call that is pending.
pub fn pending(worker: WorkerId, act: Act) -> Entry {
    Entry {
        worker,
        act,
        reply: Reply::Pending,
    }
}

/// Writes a line with a worker, or `-`.
pub fn tell_worker(worker: Option<WorkerId>, ask: &mut Ask<'_>) -> Result<(), Fault> {
    if let Some(worker) = worker {
        put_worker(worker, ask)?;
        return tell("", ask.out);
    }
    tell("-", ask.out)
}

/// Writes a line with a reply.
pub fn tell_reply(reply: Reply, ask: &mut Ask<'_>) -> Result<(), Fault> {
    match reply {
        Reply::Done => tell("done", ask.out),
        Reply::Pending => tell("pending", ask.out),
        Reply::Number(n) => tell(n, ask.out),
    }
}

/// Writes a line with an entry, or `-`.
pub fn tell_entry(entry: Option<Entry>, ask: &mut Ask<'_>) -> Result<(), Fault> {
    if let Some(entry) = entry {
        put_entry(&entry, ask)?;
        return tell("", ask.out);
    }
    tell("-", ask.out)
}
