//! The words for operations, such as `advance`.
ghost use Rattle.std.specs.Prelude.{◌≡◌};
ghost use Rattle.calls_text.specs.Verbs.{object_verb_of, group_verb_of, parse_op_word, tail_of};
ghost use Rattle.calls_text.specs.Verbs.{is_update};

use crate::literal::is_text;

/// The operation of a call.
#[derive(Clone, Copy, Debug, PartialEq, Eq)]
pub(crate) enum OpWord {
    Advance,
    Read,
    Await,
    Ticket,
    Put,
    Get,
    P,
    V,
    PBoth,
    Write,
    Snapshot,
    Produce,
    Consume,
}

/// The form of what follows the object of a call.
#[derive(Clone, Copy, Debug, PartialEq, Eq)]
pub(crate) enum Tail {
    Nothing,
    /// One number.
    Digits,
    /// One number or more.
    ManyDigits,
    /// One word.
    Word,
}

/// Returns the operation on an object of no group that a word names.
fn object_verb_of(word: &[u8]) -> Option<OpWord>
    ensures { result ≡ object_verb_of word.now }
{
    if is_text(word, b"advance".as_slice()) {
        return Some(OpWord::Advance);
    }
    if is_text(word, b"read".as_slice()) {
        return Some(OpWord::Read);
    }
    if is_text(word, b"await".as_slice()) {
        return Some(OpWord::Await);
    }
    if is_text(word, b"ticket".as_slice()) {
        return Some(OpWord::Ticket);
    }
    if is_text(word, b"put".as_slice()) {
        return Some(OpWord::Put);
    }
    if is_text(word, b"get".as_slice()) {
        return Some(OpWord::Get);
    }
    None
}

/// Returns the operation on a group that a word names.
fn group_verb_of(word: &[u8]) -> Option<OpWord>
    ensures { result ≡ group_verb_of word.now }
{
    if is_text(word, b"p".as_slice()) {
        return Some(OpWord::P);
    }
    if is_text(word, b"v".as_slice()) {
        return Some(OpWord::V);
    }
    if is_text(word, b"pboth".as_slice()) {
        return Some(OpWord::PBoth);
    }
    if is_text(word, b"write".as_slice()) {
        return Some(OpWord::Write);
    }
    if is_text(word, b"snapshot".as_slice()) {
        return Some(OpWord::Snapshot);
    }
    if is_text(word, b"produce".as_slice()) {
        return Some(OpWord::Produce);
    }
    if is_text(word, b"consume".as_slice()) {
        return Some(OpWord::Consume);
    }
    None
}

/// Returns the operation that a word names.
pub(crate) fn parse_op_word(word: &[u8]) -> Option<OpWord>
    ensures { result ≡ parse_op_word word.now }
{
    match object_verb_of(word) {
        Some(verb) => Some(verb),
        None => group_verb_of(word),
    }
}

impl OpWord {
    /// Returns the form of what follows the object.
    pub(crate) fn tail(self) -> Tail
        ensures { result ≡ tail_of self }
    {
        match self {
            OpWord::Await | OpWord::Put | OpWord::Produce => Tail::Digits,
            OpWord::Write => Tail::ManyDigits,
            OpWord::PBoth => Tail::Word,
            _ => Tail::Nothing,
        }
    }

    /// Returns whether it is an advance, a put, a write or a produce, which need another right than
    /// the other calls of their object.
    pub(crate) fn is_update(self) -> bool
        ensures { result ≡ is_update self }
    {
        matches!(
            self,
            OpWord::Advance | OpWord::Put | OpWord::Write | OpWord::Produce
        )
    }
}
