//! The names of a trace's workers and objects, and the text of its calls.

use ec_core::{Act, Reply};
use ec_count::{CellId, EventId, SeqId, SymbolTable, Target, WorkerId};
use ec_draw::{Counter, CurveSource};
use ec_trace::Spellings;
use std::fmt;

/// A name in a trace: letters, digits and `_`.
#[derive(Clone, Copy)]
pub(crate) struct Name<'a>(pub(crate) &'a [u8]);

impl fmt::Display for Name<'_> {
    fn fmt<W: fmt::Write>(&self, f: &mut fmt::Formatter<W>) -> fmt::Result {
        for byte in self.0 {
            f.write_char(*byte as char)?;
        }
        Ok(())
    }
}

impl<'a> Name<'a> {
    /// Returns how many letters it has.
    pub(crate) fn len(&self) -> usize {
        self.0.len()
    }
}

/// The names that a header declares.
#[derive(Drop)]
pub(crate) struct Names<'a> {
    words: &'a SymbolTable,
    spellings: Spellings<'a>,
}

impl<'a> Names<'a> {
    pub(crate) fn new(words: &'a SymbolTable) -> Self {
        let spellings = Spellings::new(words);
        Names { words, spellings }
    }

    pub(crate) fn worker(&self, worker: WorkerId) -> Name<'a> {
        Name(self.spellings.worker(worker))
    }

    pub(crate) fn event(&self, event: EventId) -> Name<'a> {
        Name(self.spellings.event(event))
    }

    pub(crate) fn sequencer(&self, sequencer: SeqId) -> Name<'a> {
        Name(self.spellings.sequencer(sequencer))
    }

    /// Returns the name of the group of an eventcount: its own name up to the dot.
    pub(crate) fn group(&self, event: EventId) -> Name<'a> {
        let word = self.spellings.event(event);
        match word.iter().position(|byte| *byte == b'.') {
            Some(end) => Name(&word[..end]),
            None => Name(word),
        }
    }

    /// Returns the name of a curve: that of its object, or of its semaphore if it is a balance.
    pub(crate) fn curve(&self, object: &CurveSource) -> Name<'a> {
        match *object {
            CurveSource::Count(Counter::Event(event)) => self.event(event),
            CurveSource::Count(Counter::Sequencer(sequencer)) => self.sequencer(sequencer),
            CurveSource::Balance(event) => self.group(event),
        }
    }

    /// Returns the name of a cell: its block, and its index in the block.
    pub(crate) fn cell(&self, cell: CellId) -> CellName<'a> {
        let cell = cell.get();
        for number in 0..self.words.len() {
            if let Some((word, target)) = self.words.at(number) {
                if let Some(place) = place_in(cell, &target) {
                    let block = Name(word);
                    return CellName { block, place };
                }
            }
        }
        CellName {
            block: Name(b""),
            place: 0,
        }
    }
}

/// Returns the index of a cell in the block that a target is, `None` if it is not in it.
fn place_in(cell: usize, target: &Target) -> Option<usize> {
    match *target {
        Target::Cells(first, n) => {
            let first = first.get();
            if first <= cell && cell - first < n {
                Some(cell - first)
            } else {
                None
            }
        }
        Target::Worker(_) | Target::Event(_) | Target::Sequencer(_) | Target::Group(_) => None,
    }
}

/// The name of a cell, as `C[1]`.
#[derive(Clone, Copy)]
pub(crate) struct CellName<'a> {
    block: Name<'a>,
    place: usize,
}

impl fmt::Display for CellName<'_> {
    fn fmt<W: fmt::Write>(&self, f: &mut fmt::Formatter<W>) -> fmt::Result {
        write!(f, "{}[{}]", self.block, self.place)
    }
}

/// Returns the word of an act.
pub(crate) fn kind(act: &Act) -> &'static str {
    match *act {
        Act::Advance(_) => "advance",
        Act::Read(_) => "read",
        Act::Await(_, _) => "await",
        Act::Go => "go",
        Act::Ticket(_) => "ticket",
        Act::Put(_, _) => "put",
        Act::Get(_) => "get",
        Act::Hand(_, _) => "hand",
    }
}

/// The arguments of an act, as a trace has them after the word.
#[derive(Clone, Copy)]
pub(crate) struct ActText<'a, 'n> {
    pub(crate) names: &'a Names<'n>,
    pub(crate) act: Act,
}

impl fmt::Display for ActText<'_, '_> {
    fn fmt<W: fmt::Write>(&self, f: &mut fmt::Formatter<W>) -> fmt::Result {
        let names = self.names;
        match self.act {
            Act::Advance(event) | Act::Read(event) => write!(f, " {}", names.event(event)),
            Act::Await(event, threshold) => write!(f, " {} {threshold}", names.event(event)),
            Act::Go => Ok(()),
            Act::Ticket(sequencer) => write!(f, " {}", names.sequencer(sequencer)),
            Act::Put(cell, value) => write!(f, " {} {value}", names.cell(cell)),
            Act::Get(cell) => write!(f, " {}", names.cell(cell)),
            Act::Hand(event, to) => write!(f, " {} {}", names.event(event), names.worker(to)),
        }
    }
}

/// The word of a reply.
#[derive(Clone, Copy)]
pub(crate) struct ReplyText(pub(crate) Reply);

impl fmt::Display for ReplyText {
    fn fmt<W: fmt::Write>(&self, f: &mut fmt::Formatter<W>) -> fmt::Result {
        match self.0 {
            Reply::Done => f.write_str("done"),
            Reply::Pending => f.write_str("pending"),
            Reply::Number(n) => write!(f, "{n}"),
        }
    }
}

/// Bytes of a line that may be faulty. One that is not printable ASCII, or would need an escape, is
/// shown as a question mark.
#[derive(Clone, Copy)]
pub(crate) struct Plain<'a>(pub(crate) &'a [u8]);

impl fmt::Display for Plain<'_> {
    fn fmt<W: fmt::Write>(&self, f: &mut fmt::Formatter<W>) -> fmt::Result {
        for byte in self.0 {
            f.write_char(plain_char(*byte))?;
        }
        Ok(())
    }
}

/// Returns a byte as it is shown.
fn plain_char(byte: u8) -> char {
    match byte {
        b'<' | b'>' | b'&' => '?',
        32..127 => byte as char,
        _ => '?',
    }
}
