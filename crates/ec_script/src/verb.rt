//! The words that open the lines of blocks and of the schedule.
ghost use Rattle.std.specs.Prelude.{◌≡◌};
ghost use Rattle.ec_script.specs.Verbs.{raw_verb_of, procedure_verb_of, item_verb_of, parse_line_word, has_verb, has_object, tail_of, is_update, is_outer, is_counted};

use ec_heading::Version;

/// The first word of a line of a block, of a line that opens a block, or of the schedule.
#[derive(Clone, Copy, Debug, PartialEq, Eq)]
pub(crate) enum LineWord {
    Advance,
    Read,
    Await,
    Ticket,
    Put,
    Get,
    Hand,
    Produce,
    Consume,
    Write,
    Snapshot,
    Down,
    Up,
    DownBoth,
    Repeat,
    End,
    Worker,
    Schedule,
}

/// The form of what follows the object of a line.
#[derive(Clone, Copy, Debug, PartialEq, Eq)]
pub(crate) enum Tail {
    Nothing,
    /// One value.
    Value,
    /// Values, one at least.
    Values,
    /// One number.
    Digits,
    /// One word.
    Word,
    /// Words, one at least.
    Words,
}

/// Returns the raw call that a word names.
fn raw_verb_of(word: &[u8]) -> Option<LineWord>
    ensures { result ≡ raw_verb_of word.now }
{
    if word == b"advance".as_slice() {
        Some(LineWord::Advance)
    } else if word == b"read".as_slice() {
        Some(LineWord::Read)
    } else if word == b"await".as_slice() {
        Some(LineWord::Await)
    } else if word == b"ticket".as_slice() {
        Some(LineWord::Ticket)
    } else if word == b"put".as_slice() {
        Some(LineWord::Put)
    } else if word == b"get".as_slice() {
        Some(LineWord::Get)
    } else if word == b"hand".as_slice() {
        Some(LineWord::Hand)
    } else {
        None
    }
}

/// Returns the procedure that a word names.
fn procedure_verb_of(word: &[u8]) -> Option<LineWord>
    ensures { result ≡ procedure_verb_of word.now }
{
    if word == b"produce".as_slice() {
        Some(LineWord::Produce)
    } else if word == b"consume".as_slice() {
        Some(LineWord::Consume)
    } else if word == b"write".as_slice() {
        Some(LineWord::Write)
    } else if word == b"snapshot".as_slice() {
        Some(LineWord::Snapshot)
    } else if word == b"p".as_slice() {
        Some(LineWord::Down)
    } else if word == b"v".as_slice() {
        Some(LineWord::Up)
    } else if word == b"pboth".as_slice() {
        Some(LineWord::DownBoth)
    } else {
        None
    }
}

/// Returns the structure word that a word is: `repeat`, `end`, `worker` or `schedule`.
fn item_verb_of(word: &[u8]) -> Option<LineWord>
    ensures { result ≡ item_verb_of word.now }
{
    if word == b"repeat".as_slice() {
        Some(LineWord::Repeat)
    } else if word == b"end".as_slice() {
        Some(LineWord::End)
    } else if word == b"worker".as_slice() {
        Some(LineWord::Worker)
    } else if word == b"schedule".as_slice() {
        Some(LineWord::Schedule)
    } else {
        None
    }
}

/// Returns the line word that a word is, of any of the three sorts.
pub(crate) fn parse_line_word(word: &[u8]) -> Option<LineWord>
    ensures { result ≡ parse_line_word word.now }
{
    raw_verb_of(word)
        .or_else(|| procedure_verb_of(word))
        .or_else(|| item_verb_of(word))
}

impl LineWord {
    /// Returns whether scripts of the version have such lines.
    pub(crate) fn is_of(self, version: Version) -> bool
        ensures { result ≡ has_verb version self }
    {
        match self {
            LineWord::Hand => version.has_transfer(),
            _ => true,
        }
    }

    /// Returns whether the word of an object or of a worker follows it.
    pub(crate) fn has_object(self) -> bool
        ensures { result ≡ has_object self }
    {
        !matches!(self, LineWord::Repeat | LineWord::End | LineWord::Schedule)
    }

    /// Returns the form of what follows these.
    pub(crate) fn tail(self) -> Tail
        ensures { result ≡ tail_of self }
    {
        match self {
            LineWord::Await | LineWord::Put | LineWord::Produce => Tail::Value,
            LineWord::Write => Tail::Values,
            LineWord::Snapshot | LineWord::Repeat => Tail::Digits,
            LineWord::DownBoth | LineWord::Hand => Tail::Word,
            LineWord::Schedule => Tail::Words,
            _ => Tail::Nothing,
        }
    }

    /// Returns whether it signals, writes or produces. The right that the worker needs depends on
    /// it.
    pub(crate) fn is_update(self) -> bool
        ensures { result ≡ is_update self }
    {
        matches!(
            self,
            LineWord::Advance | LineWord::Put | LineWord::Produce | LineWord::Write
        )
    }

    /// Returns whether it opens a block or goes on with the schedule; otherwise it is inside a
    /// block.
    pub(crate) fn is_outer(self) -> bool
        ensures { result ≡ is_outer self }
    {
        matches!(self, LineWord::Worker | LineWord::Schedule)
    }

    /// Returns whether it counts as a command of the block.
    pub(crate) fn is_counted(self) -> bool
        ensures { result ≡ is_counted self }
    {
        !matches!(self, LineWord::End | LineWord::Worker | LineWord::Schedule)
    }
}
