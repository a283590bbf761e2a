//! Answers questions about a header.
use crate::fault::Fault;
use crate::kernel::ask::{
    Ask, cell, cell_of, event, event_of, group_of, sequencer_of, worker, worker_of,
};
use crate::line::{tell, tell_if};
use crate::writing::{
    write_buffer, write_database, write_found, write_name, write_semaphore, write_sizes,
    write_target, write_word,
};
use ec_count::Target;
use ec_heading::{Group, Heading};

/// Writes how many there are of each sort.
fn tell_sizes(ask: &mut Ask<'_>) -> Result<(), Fault> {
    let heading = ask.about;
    let (names, words) = (heading.names().len(), heading.words().len());
    let (groups, declared) = (heading.groups().len(), heading.declarations().len());
    write_sizes(heading.setup(), ask.out)?;
    write!(ask.out, ", {names} names, {words} words, ")?;
    writeln!(ask.out, "{groups} groups, {declared} declarations")
}

/// Writes the targets of the declarations, in order.
fn tell_declared(ask: &mut Ask<'_>) -> Result<(), Fault> {
    for target in ask.about.declarations() {
        write_target(*target, ask.out)?;
    }
    Ok(())
}

/// Writes a group, and whether it fits what is declared.
fn tell_group(group: &Group, ask: &mut Ask<'_>) -> Result<(), Fault> {
    let setup = ask.about.setup();
    let fits = match group {
        Group::Buffer(it) => {
            write_buffer(it, ask.out)?;
            it.fits(setup)
        }
        Group::Database(it) => {
            write_database(it, ask.out)?;
            it.fits(setup)
        }
        Group::Semaphore(it) | Group::Both(it) => {
            write_semaphore(it, ask.out)?;
            it.fits(setup)
        }
    };
    writeln!(ask.out, "fits: {fits}")
}

/// Returns the number of the worker or the object that a word names.
fn spelled(heading: &Heading, what: &str, word: &str) -> Option<usize> {
    Some(match what {
        "worker" => worker_of(heading, word)?.get(),
        "eventcount" => event_of(heading, word)?.get(),
        "sequencer" => sequencer_of(heading, word)?.get(),
        _ => cell_of(heading, word)?.get(),
    })
}

/// Answers a question about a word of the header.
fn answer_word(what: &str, ask: &mut Ask<'_>) -> Result<(), Fault> {
    let (heading, word) = (ask.about, ask.word());
    match what {
        "word" => write_found(heading.words().find(word.as_bytes()), ask.out),
        "name" => write_found(heading.names().find(word), ask.out),
        "group" => tell_group(group_of(heading, word).ok_or(Fault::Line)?, ask),
        _ => tell_if(spelled(heading, what, word), ask.out),
    }
}

/// Answers a question about the header.
pub fn answer_heading(ask: &mut Ask<'_>) -> Result<(), Fault> {
    let what = ask.word();
    match what {
        "sizes" => tell_sizes(ask),
        "declared" => tell_declared(ask),
        "has-hand" => tell(ask.about.version().has_transfer(), ask.out),
        "at" => write_word(ask.about.words(), ask.size()?, ask.out),
        "named" => {
            let group = Target::Group(ask.size()?);
            tell_if(ask.about.names().name_of(group), ask.out)
        }
        _ => answer_word(what, ask),
    }
}

/// Writes all that can be asked of a header: how many there are of each sort, and words and names.
pub fn tell_heading(ask: &mut Ask<'_>) -> Result<(), Fault> {
    let (words, names) = (ask.about.words(), ask.about.names());
    tell_sizes(ask)?;
    for place in 0..words.len() {
        write_word(words, place, ask.out)?;
    }
    for place in 0..names.len() {
        write_name(names, place, ask.out)?;
    }
    Ok(())
}
