//! Judges histories.
use crate::reading::{History, Line, read_line};
use crate::writing::{write_misuse, write_stop, write_verdict};
use calls_core::{Event, Events, Kind};
use calls_monitor::watch;
use calls_spsc::{Monitor, ROOM_MAX};
use calls_verdict::{decide, first_misuse, has_room};
use std::alloc::Global;
use std::io;
use std::io::Write;

/// What is asked of each history.
#[derive(Clone, Copy, Debug, PartialEq, Eq)]
pub enum Mode {
    /// The verdict.
    Decide,
    /// The position at which the monitor stops.
    Monitor,
    /// The position at which the monitor of a buffer with one producer and one consumer stops.
    Spsc,
}

impl Mode {
    /// Returns the mode that a word names.
    pub fn of(word: &str) -> Option<Self> {
        match word {
            "decide" => Some(Mode::Decide),
            "monitor" => Some(Mode::Monitor),
            "spsc" => Some(Mode::Spsc),
            _ => None,
        }
    }
}

/// Returns the index of the event at which the monitor of a buffer stops.
fn stop_of(room: usize, events: &Events) -> Option<usize> {
    let mut monitor = Monitor::new(room.clamp(1, ROOM_MAX));
    for index in 0..events.len() {
        if monitor.event(events.at(index)).is_err() {
            return Some(index);
        }
    }
    None
}

/// Judges a history, and writes the result.
fn judge<W: Write + Drop>(
    alloc: Global,
    mode: Mode,
    history: &History,
    out: &mut W,
) -> io::Result<()> {
    let kinds = history.kinds.as_slice();
    let events = &history.events;
    if let Some((index, misuse)) = first_misuse(alloc, kinds, events)? {
        return write_misuse(out, index, misuse);
    }
    if !has_room(events) {
        return writeln!(out, "no room");
    }
    match mode {
        Mode::Decide => {
            let verdict = decide(alloc, kinds, events)?;
            write_verdict(out, &verdict)
        }
        Mode::Monitor => {
            let stop = watch(alloc, kinds, &[], events)?;
            write_stop(out, stop.map(|stop| stop.index))
        }
        Mode::Spsc => match kinds {
            [Kind::Buffer(room)] => write_stop(out, stop_of(*room, events)),
            _ => writeln!(out, "no buffer"),
        },
    }
}

/// Judges each history of a text, and returns whether the whole text was read.
pub fn judge_all<W: Write + Drop>(
    alloc: Global,
    mode: Mode,
    text: &str,
    out: &mut W,
) -> io::Result<bool> {
    let mut history = History {
        kinds: Vec::new(alloc),
        events: Events::new(alloc),
    };
    for part in text.lines() {
        match read_line(alloc, part)? {
            None => return Ok(false),
            Some(Line::Run) => {}
            Some(Line::Object(kind)) => history.kinds.push(kind)?,
            Some(Line::Event(worker, action)) => {
                let at = history.events.len();
                history.events.push(Event { at, worker, action })?;
            }
            Some(Line::End) => {
                judge(alloc, mode, &history, out)?;
                history = History {
                    kinds: Vec::new(alloc),
                    events: Events::new(alloc),
                };
            }
        }
    }
    Ok(true)
}
