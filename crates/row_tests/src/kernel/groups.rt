//! Answers lines about the audits of buffers, databases and semaphores.
use crate::fault::Fault;
use crate::kernel::ask::{Ask, buffer, database, semaphore, semaphore_of};
use crate::kernel::writing::{put_object, put_worker};
use ec_buffer::{Delivery, deliveries};
use ec_core::{AuditFault, Run};
use ec_count::Target;
use ec_database::{Accepted, versions};
use ec_semaphore::{Pair, SemaphoreShape, balance, pairs};
use std::alloc::Global;

/// Writes which entry is the first that breaks the call lists, and of which worker it is.
fn tell_break(fault: AuditFault, ask: &mut Ask<'_>) -> Result<(), Fault> {
    match fault {
        AuditFault::Memory => Err(Fault::Memory),
        AuditFault::NotFollowed { worker, entry } => {
            write!(ask.out, "not followed: worker ")?;
            put_worker(worker, ask)?;
            writeln!(ask.out, " entry {entry}")
        }
    }
}

/// Writes deliveries: number, producer, consumer and item.
fn tell_deliveries(found: &[Delivery], ask: &mut Ask<'_>) -> Result<(), Fault> {
    for delivery in found {
        write!(ask.out, "{} ", delivery.number)?;
        put_worker(delivery.producer, ask)?;
        write!(ask.out, " ")?;
        put_worker(delivery.consumer, ask)?;
        writeln!(ask.out, " {}", delivery.item)?;
    }
    Ok(())
}

/// Writes accepting tries: version, reader and values.
fn tell_versions(found: &[Accepted], ask: &mut Ask<'_>) -> Result<(), Fault> {
    for accepted in found {
        write!(ask.out, "{} ", accepted.version)?;
        put_worker(accepted.worker, ask)?;
        for value in accepted.values.as_slice() {
            write!(ask.out, " {value}")?;
        }
        writeln!(ask.out)?;
    }
    Ok(())
}

/// Writes pairs of tickets: worker, and each sequencer with its ticket.
fn tell_pairs(found: &[Pair], ask: &mut Ask<'_>) -> Result<(), Fault> {
    for pair in found {
        put_worker(pair.worker, ask)?;
        write!(ask.out, " ")?;
        put_object(Target::Sequencer(pair.first), ask)?;
        write!(ask.out, " {} ", pair.first_ticket)?;
        put_object(Target::Sequencer(pair.second), ask)?;
        writeln!(ask.out, " {}", pair.second_ticket)?;
    }
    Ok(())
}

/// Reads semaphores.
fn semaphores_of(alloc: Global, ask: &mut Ask<'_>) -> Result<Vec<SemaphoreShape>, Fault> {
    let mut shapes = Vec::new(alloc);
    for word in &mut ask.words {
        shapes.push(semaphore_of(ask.about, word)?)?;
    }
    Ok(shapes)
}

/// Answers a question about a group, if the line is one. The common semaphore of `pairs` is `both`.
pub fn answer_group(alloc: Global, run: &Run, ask: &mut Ask<'_>) -> Result<(), Fault> {
    match ask.verb {
        "deliveries" => match deliveries(alloc, run, &buffer(ask)?) {
            Ok(found) => tell_deliveries(found.as_slice(), ask),
            Err(fault) => tell_break(fault, ask),
        },
        "versions" => match versions(alloc, run, &database(ask)?) {
            Ok(found) => tell_versions(found.as_slice(), ask),
            Err(fault) => tell_break(fault, ask),
        },
        "balance" => match balance(run, &semaphore(ask)?) {
            // initial value, downs and ups
            Ok(it) => writeln!(ask.out, "{} {} {}", it.initial, it.downs, it.ups),
            Err(fault) => tell_break(fault, ask),
        },
        "pairs" => {
            let common = semaphore_of(ask.about, "both")?;
            let shapes = semaphores_of(alloc, ask)?;
            match pairs(alloc, run, &common, shapes.as_slice()) {
                Ok(found) => tell_pairs(found.as_slice(), ask),
                Err(fault) => tell_break(fault, ask),
            }
        }
        _ => Err(Fault::Line),
    }
}
