//! A certificate in words.
ghost use Rattle.std.specs.Prelude.{◌≡◌, ◌++◌, codes, decimal};
ghost use Rattle.calls_tickets.specs.Faults.{number};
ghost use Rattle.calls_text.specs.Spelling.{worker_word, event_word, group_word, numbers_of_value};
ghost use Rattle.calls_text.specs.Spelling.{numbers_after_spaces};
ghost use Rattle.ec_text.specs.Puts.{Puts};
ghost use Rattle.calls_report.specs.Sites.{line_of, earlier_text};
ghost use Rattle.calls_report.specs.Refusals.{advances_text, start_text, advances_word};
ghost use Rattle.calls_report.specs.Refusals.{count_text, threshold, returned_text, below_text};
ghost use Rattle.calls_report.specs.Refusals.{only_text, few_text, many_text, but_line};
ghost use Rattle.calls_report.specs.Refusals.{before_text, between_text, had_text, since_text};
ghost use Rattle.calls_report.specs.Refusals.{number_text, twice_text, had_number, turned_text};
ghost use Rattle.calls_report.specs.Refusals.{tickets_word, tickets_text};
ghost use Rattle.calls_report.specs.Refusals.{drawn_text, ordinal, nth_text, units_text};
ghost use Rattle.calls_report.specs.Refusals.{unit_text, stored_value, value_text, got_text};
ghost use Rattle.calls_report.specs.Refusals.{by_store, no_put, nowhere_text, had_stored};
ghost use Rattle.calls_report.specs.Refusals.{stored_text, stale_text, line_text, two_text};
ghost use Rattle.calls_report.specs.Refusals.{values_text, alternate_text, response_lines};
ghost use Rattle.calls_report.specs.Refusals.{by_text, called_words, ends_second, none_left_text};
ghost use Rattle.calls_report.specs.Refusals.{certificate_text, raised_text, unordered_text};
ghost use Rattle.calls_report.specs.Refusals.{no_unit_text};

use crate::certificate::{Certificate, ticket_number};
use crate::items::{put_gave_up, put_items, put_no_item, put_no_room, put_not_next};
use crate::words::Speaker;
use calls_core::{Call, Op, Reply};
use ec_text::Output;
use std::io::Write;
use std::marker::Model;

/// The site of a certificate: the words of the history, its object, the number of the line of the
/// event at position 0, and the position of the first faulty event.
#[derive(Drop)]
pub(crate) struct Site<'a> {
    pub(crate) speaker: Speaker<'a>,
    pub(crate) object: usize,
    pub(crate) first: u64,
    pub(crate) at: usize,
}

impl<'a> Model for Site<'a> {
    ghost use Rattle.calls_report.specs.Sites.{SiteModel};

    ghost Value = { SiteModel };

    ghost view = { λ s. record {
      heading = s.speaker.heading;
      lists = s.speaker.lists;
      object =
          s.object;
      first = s.first;
      at = s.at;
    } };
}

/// Returns the suffix of an ordinal number, such as `th`.
fn ordinal(n: usize) -> &'static [u8]
    ensures { result.now ≡ ordinal n }
{
    let teens = n % 100;
    if 11 <= teens && teens <= 13 {
        return b"th";
    }
    match n % 10 {
        1 => b"st",
        2 => b"nd",
        3 => b"rd",
        _ => b"th",
    }
}

/// Puts the initial count, if it is not 0.
fn put_start<W: Write>(out: &mut Output<'_, W>, start: u64)
    ensures { Puts out.old out.new (start_text start) }
{
    if start != 0 {
        out.put(b", from ");
        out.put_number(start);
    }
}

/// Puts bytes and a number.
fn put_with_number<W: Write>(out: &mut Output<'_, W>, before: &[u8], n: usize)
    ensures { Puts out.old out.new (before.now ++ decimal n) }
{
    out.put(before);
    out.put_number(n as u64);
}

/// Puts what a read or an await returned, awaited or gave up on.
fn put_count<W: Write>(out: &mut Output<'_, W>, call: &Call)
    ensures { Puts out.old out.new (count_text call.now) }
{
    match (call.op, call.reply) {
        (_, Reply::Number(n)) => put_with_number(out, b"returned ", n),
        (Op::Await(n), Reply::Timeout) => put_with_number(out, b"gave up on ", n),
        (Op::Await(n), Reply::Done) => put_with_number(out, b"awaited ", n),
        _ => out.put(b"returned"),
    }
}

/// Puts what a call returned.
fn put_returned<W: Write>(out: &mut Output<'_, W>, reply: Reply)
    ensures { Puts out.old out.new (returned_text reply) }
{
    match reply {
        Reply::Number(n) => put_with_number(out, b"returned ", n),
        _ => out.put(b"returned timeout"),
    }
}

/// Returns the threshold of an await.
fn threshold(op: Op) -> usize
    ensures { result ≡ threshold op }
{
    match op {
        Op::Await(n) => n,
        _ => 0,
    }
}

/// Puts that an await returned a number below its threshold, or gave up on 0.
fn put_below<W: Write>(out: &mut Output<'_, W>, call: &Call)
    ensures { Puts out.old out.new (below_text call.now) }
{
    put_returned(out, call.reply);
    put_with_number(out, b", but it awaited ", threshold(call.op));
}

/// Puts the word for advances.
fn put_advances_word<W: Write>(out: &mut Output<'_, W>, n: usize)
    ensures { Puts out.old out.new (advances_word n) }
{
    if n == 1 {
        out.put(b" advance of ");
    } else {
        out.put(b" advances of ");
    }
}

/// Puts the word for tickets.
fn put_tickets_word<W: Write>(out: &mut Output<'_, W>, n: usize)
    ensures { Puts out.old out.new (tickets_word n) }
{
    if n == 1 {
        out.put(b" ticket of ");
    } else {
        out.put(b" tickets of ");
    }
}

/// Puts the number that a ticket returned.
fn put_number<W: Write>(out: &mut Output<'_, W>, call: &Call)
    ensures { Puts out.old out.new (number_text call.now) }
{
    out.put(b"returned ");
    out.put_number(ticket_number(call) as u64);
}

/// Puts the range of numbers that tickets can have drawn.
fn put_can<W: Write>(out: &mut Output<'_, W>, call: &Call)
    ensures { Puts out.old out.new (codes " can have drawn 0 to " ++ decimal (number call.now)) }
{
    put_with_number(out, b" can have drawn 0 to ", ticket_number(call));
}

/// Puts an ordinal number.
fn put_nth<W: Write>(out: &mut Output<'_, W>, n: usize)
    ensures { Puts out.old out.new (nth_text n) }
{
    out.put(b"the ");
    out.put_number(n as u64);
    out.put(ordinal(n));
}

/// Puts the initial units of a semaphore, and the number of its `v`.
fn put_units<W: Write>(out: &mut Output<'_, W>, units: u64, added: usize)
    ensures { Puts out.old out.new (units_text units added) }
{
    out.put(b", with ");
    out.put_number(units);
    out.put(b" at first and ");
    out.put_number(added as u64);
}

/// Puts that something had been called.
#[tactic(auto, unfolding(crate::specs::Refusals::called_words))]
fn put_called<W: Write>(out: &mut Output<'_, W>)
    ensures { Puts out.old out.new called_words }
{
    out.put(b" had been called");
}

/// Returns the value of a put or a get.
fn stored_value(call: &Call) -> usize
    ensures { result ≡ stored_value call.now.op call.now.reply }
{
    match (call.op, call.reply) {
        (Op::Put(n), _) => n,
        (_, Reply::Number(n)) => n,
        _ => 0,
    }
}

impl<'a> Site<'a> {
    /// Puts the number of the line of the event at a position.
    pub(crate) fn put_line<W: Write>(&self, out: &mut Output<'_, W>, position: usize)
        ensures { Puts out.old out.new (line_of self.now position) }
    {
        out.put_number(self.first.saturating_add(position as u64));
    }

    /// Puts the name of a worker.
    pub(crate) fn put_worker<W: Write>(&self, out: &mut Output<'_, W>, worker: usize)
        ensures { Puts out.old out.new (worker_word self.now.heading worker) }
    {
        self.speaker.put_worker(out, worker);
    }

    /// Puts the name of an eventcount.
    pub(crate) fn put_event<W: Write>(&self, out: &mut Output<'_, W>, event: usize)
        ensures { Puts out.old out.new (event_word self.now.heading event) }
    {
        self.speaker.put_event(out, event);
    }

    /// Puts a number of advances of the eventcount.
    fn put_advances<W: Write>(&self, out: &mut Output<'_, W>, n: usize)
        ensures { Puts out.old out.new (advances_text self.now n) }
    {
        out.put_number(n as u64);
        put_advances_word(out, n);
        self.speaker.put_event(out, self.object);
    }

    /// Puts that only `n` advances had been called.
    fn put_only<W: Write>(&self, out: &mut Output<'_, W>, n: usize)
        ensures { Puts out.old out.new (only_text self.now n) }
    {
        out.put(b", but only ");
        self.put_advances(out, n);
        out.put(b" had been called");
    }

    /// Puts that too few advances had been called.
    fn put_few<W: Write>(&self, out: &mut Output<'_, W>, call: &Call, n: usize, start: u64)
        ensures { Puts out.old out.new (few_text self.now call.now n start) }
    {
        put_count(out, call);
        self.put_only(out, n);
        put_start(out, start);
    }

    /// Puts that there were too many advances when a call was called. `words` say which.
    fn put_many<W: Write>(
        &self,
        out: &mut Output<'_, W>,
        call: &Call,
        n: usize,
        words: &[u8],
        start: u64,
    )
        ensures { Puts out.old out.new (many_text self.now call.now n words.now start) }
    {
        put_count(out, call);
        out.put(b", but when it was called (line ");
        self.put_line(out, call.first);
        out.put(b") ");
        self.put_advances(out, n);
        out.put(words);
        put_start(out, start);
    }

    /// Puts the line of an earlier response.
    fn put_but_line<W: Write>(&self, out: &mut Output<'_, W>, position: usize)
        ensures { Puts out.old out.new (but_line self.now position) }
    {
        out.put(b", but line ");
        self.put_line(out, position);
    }

    /// Puts that something was before a call.
    fn put_before<W: Write>(&self, out: &mut Output<'_, W>, call: &Call)
        ensures { Puts out.old out.new (before_text self.now call.now) }
    {
        out.put(b" before it was called (line ");
        self.put_line(out, call.first);
        out.put(b")");
    }

    /// Puts that no advance lies between two calls, or how many do.
    fn put_between<W: Write>(&self, out: &mut Output<'_, W>, call: &Call, n: usize)
        ensures { Puts out.old out.new (between_text self.now call.now n) }
    {
        if n == 0 {
            self.put_before(out, call);
        } else {
            out.put(b", and ");
            self.put_advances(out, n);
            out.put(b" were called and returned between it and line ");
            self.put_line(out, call.first);
        }
    }

    /// Puts what an earlier call had returned.
    fn put_had<W: Write>(&self, out: &mut Output<'_, W>, earlier: &Call)
        ensures { Puts out.old out.new (had_text self.now earlier.now) }
    {
        self.put_but_line(out, earlier.last);
        out.put(b" had ");
        put_count(out, earlier);
    }

    /// Puts that an earlier call shows a greater count.
    fn put_since<W: Write>(&self, out: &mut Output<'_, W>, call: &Call, earlier: &Call, n: usize)
        ensures { Puts out.old out.new (since_text self.now call.now earlier.now n) }
    {
        put_count(out, call);
        self.put_had(out, earlier);
        self.put_between(out, call, n);
    }

    /// Puts that too many advances had surely taken effect.
    fn put_raised<W: Write>(&self, out: &mut Output<'_, W>, call: &Call, n: usize, start: u64)
        ensures { Puts out.old out.new (raised_text self.now call.now n start) }
    {
        self.put_many(out, call, n, b" had surely taken effect", start);
    }

    /// Puts that no order of the tickets gives a number.
    fn put_unordered<W: Write>(&self, out: &mut Output<'_, W>, call: &Call)
        ensures { Puts out.old out.new (unordered_text self.now call.now) }
    {
        put_number(out, call);
        out.put(b", which no order of the tickets of ");
        self.speaker.put_sequencer_of(out, self.object);
        out.put(b" gives");
    }

    /// Puts that no unit of a semaphore was left.
    fn put_no_unit<W: Write>(&self, out: &mut Output<'_, W>, place: usize)
        ensures { Puts out.old out.new (no_unit_text self.now place) }
    {
        out.put(b"no unit of ");
        self.speaker.put_group(out, place);
        out.put(b" was left");
    }

    /// Puts that two tickets returned one number.
    fn put_twice<W: Write>(&self, out: &mut Output<'_, W>, one: &Call, other: &Call)
        ensures { Puts out.old out.new (twice_text self.now one.now other.now) }
    {
        put_number(out, one);
        out.put(b", as line ");
        self.put_line(out, one.last.min(other.last));
        out.put(b" had");
    }

    /// Puts the number that an earlier ticket had returned.
    fn put_had_number<W: Write>(&self, out: &mut Output<'_, W>, earlier: &Call)
        ensures { Puts out.old out.new (had_number self.now earlier.now) }
    {
        self.put_but_line(out, earlier.last);
        out.put(b" had ");
        put_number(out, earlier);
    }

    /// Puts that a greater number was returned before a ticket was called.
    fn put_turned<W: Write>(&self, out: &mut Output<'_, W>, greater: &Call, smaller: &Call)
        ensures { Puts out.old out.new (turned_text self.now greater.now smaller.now) }
    {
        put_number(out, smaller);
        self.put_had_number(out, greater);
        self.put_before(out, smaller);
    }

    /// Puts the line of an earlier call.
    pub(crate) fn put_earlier<W: Write>(&self, out: &mut Output<'_, W>, position: usize)
        ensures { Puts out.old out.new (earlier_text self.now position) }
    {
        if position != self.at {
            out.put(b"line ");
            self.put_line(out, position);
            out.put(b" had ");
        }
    }

    /// Puts that only `n` tickets can have drawn some numbers.
    fn put_tickets<W: Write>(&self, out: &mut Output<'_, W>, n: usize)
        ensures { Puts out.old out.new (tickets_text self.now n) }
    {
        out.put(b", but only ");
        out.put_number(n as u64);
        put_tickets_word(out, n);
        self.speaker.put_sequencer_of(out, self.object);
    }

    /// Puts that too few tickets can have drawn the numbers up to one.
    fn put_drawn<W: Write>(&self, out: &mut Output<'_, W>, call: &Call, n: usize)
        ensures { Puts out.old out.new (drawn_text self.now call.now n) }
    {
        self.put_earlier(out, call.last);
        put_number(out, call);
        self.put_tickets(out, n);
        put_can(out, call);
    }

    /// Puts the word `p` and a semaphore. `place` is its index among the groups.
    fn put_p_of<W: Write>(&self, out: &mut Output<'_, W>, place: usize)
        ensures { Puts out.old out.new (codes " p of " ++ group_word self.now.heading place) }
    {
        out.put(b" p of ");
        self.speaker.put_group(out, place);
    }

    /// Puts that too many units of a semaphore were taken.
    fn put_taken<W: Write>(
        &self,
        out: &mut Output<'_, W>,
        place: usize,
        taken: usize,
        units: u64,
        added: usize,
    )
        ensures { Puts out.old out.new (unit_text self.now place taken units added) }
    {
        put_nth(out, taken);
        self.put_p_of(out, place);
        put_units(out, units, added);
        out.put(b" v called");
    }

    /// Puts the value of a put or a get, each number after a space.
    fn put_value<W: Write>(&self, out: &mut Output<'_, W>, call: &Call)
        ensures { Puts out.old out.new (value_text self.now call.now) }
    {
        self.speaker.put_value(out, self.object, stored_value(call));
    }

    /// Puts the cell or database, and what a get of it returned.
    fn put_got<W: Write>(&self, out: &mut Output<'_, W>, call: &Call)
        ensures { Puts out.old out.new (got_text self.now call.now) }
    {
        self.speaker.put_store(out, self.object);
        out.put(b" returned");
        self.put_value(out, call);
    }

    /// Returns the words for a cell, or those for a database.
    pub(crate) fn by_store(&self, cell: &'static [u8], database: &'static [u8]) -> &'static [u8]
        ensures { result.now ≡ by_store self.now cell.now database.now }
    {
        if self.speaker.is_cell(self.object) {
            cell
        } else {
            database
        }
    }

    /// Puts that there was no put.
    #[tactic(auto, unfolding(crate::specs::Refusals::no_put))]
    fn put_no_put<W: Write>(&self, out: &mut Output<'_, W>)
        ensures { Puts out.old out.new (no_put self.now) }
    {
        out.put(self.by_store(b", but no put of", b", but no write of"));
    }

    /// Puts that no put of a value had been called.
    fn put_nowhere<W: Write>(&self, out: &mut Output<'_, W>, call: &Call)
        ensures { Puts out.old out.new (nowhere_text self.now call.now) }
    {
        self.put_got(out, call);
        self.put_no_put(out);
        self.put_value(out, call);
        put_called(out);
    }

    /// Puts that a call had stored or returned something.
    fn put_had_stored<W: Write>(&self, out: &mut Output<'_, W>, op: Op)
        ensures { Puts out.old out.new (had_stored self.now op) }
    {
        match op {
            Op::Put(_) => out.put(self.by_store(b" had put", b" had written")),
            _ => out.put(b" had returned"),
        }
    }

    /// Puts what a call had stored or returned.
    fn put_stored<W: Write>(&self, out: &mut Output<'_, W>, call: &Call)
        ensures { Puts out.old out.new (stored_text self.now call.now) }
    {
        self.put_had_stored(out, call.op);
        self.put_value(out, call);
    }

    /// Puts that a call of another value was completed before a get of the first value was called.
    fn put_stale<W: Write>(&self, out: &mut Output<'_, W>, earlier: &Call, call: &Call)
        ensures { Puts out.old out.new (stale_text self.now earlier.now call.now) }
    {
        self.put_got(out, call);
        self.put_but_line(out, earlier.last);
        self.put_stored(out, earlier);
        self.put_before(out, call);
    }

    /// Puts a line, after a space.
    fn put_next_line<W: Write>(&self, out: &mut Output<'_, W>, position: usize)
        ensures { Puts out.old out.new (line_text self.now position) }
    {
        out.put(b" ");
        self.put_line(out, position);
    }

    /// Puts bytes, and a value, each number after a space.
    pub(crate) fn put_with<W: Write>(&self, out: &mut Output<'_, W>, before: &[u8], value: usize)
        ensures { Puts out.old out.new (before.now
            ++ numbers_after_spaces (numbers_of_value self.now.heading self.now.lists self.now.object value)) }
    {
        out.put(before);
        self.speaker.put_value(out, self.object, value);
    }

    /// Puts two values that alternate.
    fn put_two<W: Write>(&self, out: &mut Output<'_, W>, one: &Call, other: &Call)
        ensures { Puts out.old out.new (two_text self.now one.now other.now) }
    {
        self.put_got(out, one);
        out.put(b", but");
        self.put_value(out, one);
        out.put(b" and");
        self.put_value(out, other);
        out.put(b" alternate: lines");
    }

    /// Returns whether the first faulty event is the response of the second of these calls, or of
    /// the first one, a get of the same value.
    fn ends_second(&self, b: &Call, c: &Call) -> bool
        ensures { result ≡ ends_second self.now b.now c.now }
    {
        c.last == self.at || (matches!(b.op, Op::Get) && b.last == self.at)
    }

    /// Puts two values that alternate: the one that was returned last comes first.
    fn put_values<W: Write>(&self, out: &mut Output<'_, W>, a: &Call, b: &Call, c: &Call)
        ensures { Puts out.old out.new (values_text self.now a.now b.now c.now) }
    {
        if self.ends_second(b, c) {
            self.put_two(out, c, a);
        } else {
            self.put_two(out, a, c);
        }
    }

    /// Puts that two values alternate, with the lines of two responses, each with an invocation
    /// after it.
    fn put_alternate<W: Write>(
        &self,
        out: &mut Output<'_, W>,
        a: &Call,
        b: &Call,
        c: &Call,
        d: &Call,
    )
        ensures { Puts out.old out.new (alternate_text self.now a.now b.now c.now d.now) }
    {
        self.put_values(out, a, b, c);
        self.put_next_line(out, a.last);
        self.put_next_line(out, b.first);
        self.put_next_line(out, c.last);
        self.put_next_line(out, d.first);
    }

    /// Puts the lines of responses, each after a space.
    fn put_lines<W: Write>(&self, out: &mut Output<'_, W>, gets: &[Call])
        ensures { Puts out.old out.new (response_lines self.now gets.now) }
    {
        for get in gets {
            self.put_next_line(out, get.last);
        }
    }

    /// Puts the lines of the other gets, if there are any.
    fn put_by<W: Write>(&self, out: &mut Output<'_, W>, gets: &[Call])
        ensures { Puts out.old out.new (by_text self.now gets.now) }
    {
        if !gets.is_empty() {
            out.put(b", by lines");
            self.put_lines(out, gets);
        }
    }

    /// Puts that no put is left for the first of these gets, by the others.
    fn put_none_left<W: Write>(&self, out: &mut Output<'_, W>, gets: &[Call])
        ensures { Puts out.old out.new (none_left_text self.now gets.now) }
    {
        if let [call, earlier @ ..] = gets {
            self.put_got(out, call);
            out.put(self.by_store(
                b", but no put is left for it",
                b", but no write is left for it",
            ));
            self.put_by(out, earlier);
        }
    }

    /// Puts a certificate.
    pub(crate) fn put_certificate<W: Write>(
        &self,
        out: &mut Output<'_, W>,
        certificate: Certificate<'_>,
    )
        ensures { Puts out.old out.new (certificate_text self.now certificate.entry) }
    {
        match certificate {
            Certificate::Below(call) => put_below(out, &call),
            Certificate::Few(call, n, start) => self.put_few(out, &call, n, start),
            Certificate::Many(call, n, start) => {
                self.put_many(out, &call, n, b" had returned", start);
            }
            Certificate::Since(call, earlier, n) => self.put_since(out, &call, &earlier, n),
            Certificate::Sure(call, n, start) => self.put_raised(out, &call, n, start),
            Certificate::Unordered(call) => self.put_unordered(out, &call),
            Certificate::NoUnit(place) => self.put_no_unit(out, place),
            Certificate::Twice(one, other) => self.put_twice(out, &one, &other),
            Certificate::Turned(one, other) => self.put_turned(out, &one, &other),
            Certificate::Drawn(call, n) => self.put_drawn(out, &call, n),
            Certificate::Units {
                place,
                taken,
                units,
                added,
            } => self.put_taken(out, place, taken, units, added),
            Certificate::Nowhere(call) => self.put_nowhere(out, &call),
            Certificate::Stale(earlier, call) => self.put_stale(out, &earlier, &call),
            Certificate::Alternate(a, b, c, d) => self.put_alternate(out, &a, &b, &c, &d),
            Certificate::NoneLeft(gets) => self.put_none_left(out, gets),
            Certificate::Items(fault) => put_items(out, self, fault),
            Certificate::NotNext(call, next) => put_not_next(out, self, &call, next),
            Certificate::NoItem(call) => put_no_item(out, self, &call),
            Certificate::NoRoom(call) => put_no_room(out, self, &call),
            Certificate::Needed(call) => put_gave_up(out, self, call.op),
        }
    }
}
