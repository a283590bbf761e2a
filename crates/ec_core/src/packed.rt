//! Entries as a run stores them.
ghost use Rattle.std.specs.Prelude.{◌≡◌, ◌+◌, ◌^◌, ◌<◌, ◌≤◌, ℕ, List, ◌++◌, drop, length, vec_len, vec_capacity};
ghost use Rattle.ec_core.specs.kept.Packed.{act_tag, reply_tag, value_in, number_in, receiver_in, receiver_of, words_of_option, pack_entry, word_number, two_word_number, unpack_act, unpack_reply, value_word_count, number_word_count, word_count, total_word_count, unpack_entry};

use crate::{Act, Entry, Reply};
use ec_count::{CellId, EventId, SeqId, WorkerId};
use std::marker::Model;

/// The least number that takes two words.
const LONG: u64 = 1 << 32;

/// An act without its value.
///
/// An act whose value may be long has two tags: one for a value of one word of 32 bits, and one for
/// a value of two. The value of a hand is the number of its receiver.
#[derive(Clone, Copy)]
pub(crate) enum ActTag {
    Advance(EventId),
    Read(EventId),
    Await(EventId),
    AwaitLong(EventId),
    Go,
    Ticket(SeqId),
    Put(CellId),
    PutLong(CellId),
    Get(CellId),
    Hand(EventId),
}

/// A reply without its number, which takes one word or two.
#[derive(Clone, Copy)]
pub(crate) enum ReplyTag {
    Done,
    Number,
    LongNumber,
    Pending,
}

/// Words that are left to read. In contracts it is the list of them.
#[derive(Drop)]
pub(crate) struct WordReader<'a> {
    left: &'a [u32],
}

impl<'a> Model for WordReader<'a> {
    ghost use Rattle.std.specs.Prelude.{ℕ, List};

    ghost Value = { List ℕ };

    ghost view = { λ s. s.left.now };
}

impl<'a> WordReader<'a> {
    /// Returns a reader of these words, from a position on.
    #[inline(always)]
    pub(crate) fn of(words: &'a [u32], start: usize) -> Self
        requires { start ≤ length words.now }
        ensures { result ≡ drop start words.now }
    {
        WordReader {
            left: &words[start..],
        }
    }

    /// Returns a copy of the reader.
    #[inline(always)]
    pub(crate) fn copy(&self) -> Self
        ensures { result ≡ self.now }
    {
        WordReader { left: self.left }
    }

    /// Reads a number of one word; 0 if no word is left.
    #[inline(always)]
    fn take_word(&mut self) -> u64
        ensures value { result ≡ word_number self.old }
        ensures small { result < 2 ^ 32 }
        ensures rest { self.new ≡ drop 1 self.old }
    {
        let [first, rest @ ..] = self.left else {
            return 0;
        };
        self.left = rest;
        *first as u64
    }

    /// Reads a number of two words, the low one first.
    #[inline(always)]
    fn take_two_words(&mut self) -> u64
        ensures value { result ≡ two_word_number self.old }
        ensures rest { self.new ≡ drop 2 self.old }
    {
        let low = self.take_word();
        low + LONG * self.take_word()
    }
}

/// An entry without its numbers, which are the value of its act and the number of its reply.
///
/// The numbers of many entries are in one list of words, one entry after another. So a packed entry
/// takes 4 bytes; an `Entry` takes 40.
#[derive(Clone, Copy)]
pub(crate) struct PackedEntry {
    worker: WorkerId,
    answer: ReplyTag,
    verb: ActTag,
}

impl PackedEntry {
    /// Returns the entry without its numbers.
    #[inline(always)]
    pub(crate) fn of(entry: &Entry) -> Self
        ensures { result ≡ pack_entry entry.now }
    {
        PackedEntry {
            worker: entry.worker,
            answer: reply_tag(&entry.reply),
            verb: act_tag(&entry.act),
        }
    }

    /// Returns how many words its numbers take.
    #[inline(always)]
    pub(crate) fn word_count(&self) -> usize
        ensures value { result ≡ word_count self.now }
        ensures small { result ≤ 4 }
    {
        value_word_count(self.verb) + number_word_count(self.answer)
    }

    /// Returns the entry, and reads its numbers from the words.
    #[inline(always)]
    pub(crate) fn entry(&self, words: &mut WordReader<'_>) -> Entry
        ensures value { result ≡ unpack_entry words.old self.now }
        ensures rest { words.new ≡ drop (word_count self.now) words.old }
    {
        let act = unpack_act(self.verb, words);
        let reply = unpack_reply(self.answer, words);
        Entry {
            worker: self.worker,
            act,
            reply,
        }
    }
}

/// Returns how many words the numbers of some entries take.
pub(crate) fn total_word_count(stored: &[PackedEntry]) -> usize
    requires { length stored.now < 2 ^ 32 }
    ensures { result ≡ total_word_count stored.now }
{
    let mut sum = 0;
    for one in stored {
        sum += one.word_count();
    }
    sum
}

/// Returns how many words the value of an act with this tag takes.
#[inline(always)]
fn value_word_count(verb: ActTag) -> usize
    ensures value { result ≡ value_word_count verb }
    ensures small { result ≤ 2 }
{
    match verb {
        ActTag::Await(_) | ActTag::Put(_) | ActTag::Hand(_) => 1,
        ActTag::AwaitLong(_) | ActTag::PutLong(_) => 2,
        ActTag::Advance(_) | ActTag::Read(_) | ActTag::Go | ActTag::Ticket(_) | ActTag::Get(_) => 0,
    }
}

/// Returns how many words the number of a reply with this tag takes.
#[inline(always)]
fn number_word_count(answer: ReplyTag) -> usize
    ensures value { result ≡ number_word_count answer }
    ensures small { result ≤ 2 }
{
    match answer {
        ReplyTag::Number => 1,
        ReplyTag::LongNumber => 2,
        ReplyTag::Done | ReplyTag::Pending => 0,
    }
}

/// Returns the act with a tag, and reads its value from the words.
#[inline(always)]
fn unpack_act(verb: ActTag, words: &mut WordReader<'_>) -> Act
    ensures value { result ≡ unpack_act verb words.old }
    ensures rest { words.new ≡ drop (value_word_count verb) words.old }
{
    match verb {
        ActTag::Advance(event) => Act::Advance(event),
        ActTag::Read(event) => Act::Read(event),
        ActTag::Await(event) => Act::Await(event, words.take_word()),
        ActTag::AwaitLong(event) => Act::Await(event, words.take_two_words()),
        ActTag::Go => Act::Go,
        ActTag::Ticket(sequencer) => Act::Ticket(sequencer),
        ActTag::Put(cell) => Act::Put(cell, words.take_word()),
        ActTag::PutLong(cell) => Act::Put(cell, words.take_two_words()),
        ActTag::Get(cell) => Act::Get(cell),
        ActTag::Hand(event) => Act::Hand(event, receiver_of(words.take_word())),
    }
}

/// Returns the worker of a number; worker 0 if there is none.
#[inline(always)]
fn receiver_of(number: u64) -> WorkerId
    ensures { result ≡ receiver_of number }
{
    WorkerId::new(number as usize).unwrap_or_default()
}

/// Returns the reply with a tag, and reads its number from the words.
#[inline(always)]
fn unpack_reply(answer: ReplyTag, words: &mut WordReader<'_>) -> Reply
    ensures value { result ≡ unpack_reply answer words.old }
    ensures rest { words.new ≡ drop (number_word_count answer) words.old }
{
    match answer {
        ReplyTag::Done => Reply::Done,
        ReplyTag::Number => Reply::Number(words.take_word()),
        ReplyTag::LongNumber => Reply::Number(words.take_two_words()),
        ReplyTag::Pending => Reply::Pending,
    }
}

/// Adds a number's words, if there is one, to a list that has room for two.
#[inline(always)]
pub(crate) fn add(words: &mut Vec<u32>, number: Option<u64>)
    requires { vec_len words.old + 2 ≤ vec_capacity words.old }
    ensures items { words.new.items ≡ words.old.items ++ words_of_option number }
    ensures room { vec_capacity words.new ≡ vec_capacity words.old }
{
    if let Some(number) = number {
        words.push_reserved((number % LONG) as u32);
        if number >= LONG {
            words.push_reserved((number / LONG) as u32);
        }
    }
}

fn act_tag(act: &Act) -> ActTag
    ensures { result ≡ act_tag act.now }
{
    match *act {
        Act::Advance(event) => ActTag::Advance(event),
        Act::Read(event) => ActTag::Read(event),
        Act::Await(event, value) if value < LONG => ActTag::Await(event),
        Act::Await(event, _) => ActTag::AwaitLong(event),
        Act::Go => ActTag::Go,
        Act::Ticket(sequencer) => ActTag::Ticket(sequencer),
        Act::Put(cell, value) if value < LONG => ActTag::Put(cell),
        Act::Put(cell, _) => ActTag::PutLong(cell),
        Act::Get(cell) => ActTag::Get(cell),
        Act::Hand(event, _) => ActTag::Hand(event),
    }
}

/// Returns the value of an act, if it has one.
pub(crate) fn value_in(act: &Act) -> Option<u64>
    ensures value { result ≡ value_in act.now }
    ensures receiver { receiver_in act.now < 16 }
{
    match *act {
        Act::Await(_, value) | Act::Put(_, value) => Some(value),
        Act::Hand(_, to) => Some(to.get() as u64),
        Act::Advance(_) | Act::Read(_) | Act::Go | Act::Ticket(_) | Act::Get(_) => None,
    }
}

fn reply_tag(reply: &Reply) -> ReplyTag
    ensures { result ≡ reply_tag reply.now }
{
    match *reply {
        Reply::Done => ReplyTag::Done,
        Reply::Number(number) if number < LONG => ReplyTag::Number,
        Reply::Number(_) => ReplyTag::LongNumber,
        Reply::Pending => ReplyTag::Pending,
    }
}

/// Returns the number of a reply, if it has one.
pub(crate) fn number_in(reply: &Reply) -> Option<u64>
    ensures { result ≡ number_in reply.now }
{
    match *reply {
        Reply::Number(number) => Some(number),
        Reply::Done | Reply::Pending => None,
    }
}
