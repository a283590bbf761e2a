//! The text that `audit` writes.
ghost use Rattle.std.specs.Prelude.{◌≡◌, ◌∷◌, [], ◌++◌, ◌+◌, ◌^◌, ◌<◌, length, OnOk, OnErr, decimal, map};
ghost use Rattle.std.specs.Io.KnownBytes.{Appends};
ghost use Rattle.ec_text.specs.Puts.{Puts, AppendsPrefix};
ghost use Rattle.ec_heading.specs.Spelling.{lines_text};
ghost use Rattle.evc_engine.specs.AuditTexts.{word_after_space, delivered_words, delivery_line, spaced_numbers, version_words, version_line, balance_line, ticket_words, pair_line, group_word, semaphore_word, audited_lines, groups_lines, audit_text};

use crate::audit_result::AuditResult;
use ec_buffer::Delivery;
use ec_count::{Names, SeqId, Target};
use ec_database::{AcceptedTries, TryView};
use ec_semaphore::{Balance, Pair};
use ec_text::{Output, WriteFault};
use ec_trace::{Group, Heading, Spellings};
use std::io::Write;

/// Puts a space and a word.
fn put_spaced<W: Write>(out: &mut Output<'_, W>, word: &[u8])
    ensures { Puts out.old out.new (word_after_space word.now) }
{
    out.put(b" ");
    out.put(word);
}

/// Puts a space and a number.
fn put_spaced_number<W: Write>(out: &mut Output<'_, W>, n: u64)
    ensures { Puts out.old out.new (word_after_space (decimal n)) }
{
    out.put(b" ");
    out.put_number(n);
}

/// Puts what follows the name in the line of a delivery.
fn put_delivered<W: Write>(out: &mut Output<'_, W>, spellings: &Spellings<'_>, delivery: &Delivery)
    ensures { Puts out.old out.new (delivered_words spellings.now delivery.now) }
{
    put_spaced_number(out, delivery.number);
    put_spaced(out, spellings.worker(delivery.producer));
    put_spaced(out, spellings.worker(delivery.consumer));
    put_spaced_number(out, delivery.item);
}

/// Puts the line of a delivery.
fn put_delivery<W: Write>(
    out: &mut Output<'_, W>,
    spellings: &Spellings<'_>,
    name: &[u8],
    delivery: &Delivery,
)
    ensures { Puts out.old out.new (delivery_line spellings.now name.now delivery.now ++ 10 ∷ []) }
{
    out.put(b"delivery ");
    out.put(name);
    put_delivered(out, spellings, delivery);
    out.put(b"\n");
}

/// Puts what follows the name in the line of an accepted try.
fn put_accepted<W: Write>(
    out: &mut Output<'_, W>,
    spellings: &Spellings<'_>,
    accepted: &TryView<'_>,
)
    ensures { Puts out.old out.new (version_words spellings.now accepted.now) }
{
    put_spaced_number(out, accepted.version());
    put_spaced(out, spellings.worker(accepted.worker()));
    put_values(out, accepted);
}

/// Puts the line of an accepted try.
fn put_version<W: Write>(
    out: &mut Output<'_, W>,
    spellings: &Spellings<'_>,
    name: &[u8],
    accepted: &TryView<'_>,
)
    ensures { Puts out.old out.new (version_line spellings.now name.now accepted.now ++ 10 ∷ []) }
{
    out.put(b"version ");
    out.put(name);
    put_accepted(out, spellings, accepted);
    out.put(b"\n");
}

/// Puts the values of an accepted try, each after a space.
fn put_values<W: Write>(out: &mut Output<'_, W>, accepted: &TryView<'_>)
    ensures { Puts out.old out.new (spaced_numbers accepted.now.values) }
{
    for place in 0..accepted.cells() {
        if let Some(value) = accepted.value(place) {
            put_spaced_number(out, value);
        }
    }
}

/// Puts the line of a balance.
fn put_balance<W: Write>(out: &mut Output<'_, W>, name: &[u8], balance: &Balance, now: u64)
    ensures { Puts out.old out.new (balance_line name.now balance.now now ++ 10 ∷ []) }
{
    out.put(b"balance ");
    out.put(name);
    put_spaced_number(out, balance.initial);
    put_spaced_number(out, balance.downs);
    put_spaced_number(out, balance.ups);
    put_spaced_number(out, now);
    out.put(b"\n");
}

/// Returns the name of a group. The one without a name is `both`.
pub(crate) fn group_word(names: &Names, group: usize) -> &[u8]
    ensures { result.now ≡ group_word names.now group }
{
    match names.name_of(Target::Group(group)) {
        Some(name) => name.as_bytes(),
        None => b"both".as_slice(),
    }
}

/// Returns the name of the semaphore of a sequencer, an empty one if no group is that semaphore.
/// The groups are numbered from `from` on.
#[tactic(auto, unfolding(crate::specs::AuditTexts::semaphore_word))]
fn semaphore_word<'a>(names: &'a Names, from: usize, groups: &[Group], sequencer: SeqId) -> &'a [u8]
    requires { from + length groups.now < 2 ^ 64 }
    ensures { result.now ≡ semaphore_word names.now from groups.now sequencer }
{
    let [group, rest @ ..] = groups else {
        return b"".as_slice();
    };
    match group {
        Group::Semaphore(shape) if shape.line() == sequencer => group_word(names, from),
        _ => semaphore_word(names, from + 1, rest, sequencer),
    }
}

/// Puts the name of a semaphore, and a ticket of it.
fn put_ticket<W: Write>(out: &mut Output<'_, W>, semaphore: &[u8], ticket: u64)
    ensures { Puts out.old out.new (ticket_words semaphore.now ticket) }
{
    put_spaced(out, semaphore);
    put_spaced_number(out, ticket);
}

/// Puts the line of a pair of tickets.
fn put_pair<W: Write>(
    out: &mut Output<'_, W>,
    heading: &Heading,
    spellings: &Spellings<'_>,
    pair: &Pair,
)
    ensures { Puts out.old out.new (pair_line spellings.now (semaphore_word heading.now.names 0 heading.now.groups) pair.now ++ 10 ∷ []) }
{
    let first = semaphore_word(heading.names(), 0, heading.groups(), pair.first);
    let second = semaphore_word(heading.names(), 0, heading.groups(), pair.second);
    out.put(b"pair");
    put_spaced(out, spellings.worker(pair.worker));
    put_ticket(out, first, pair.first_ticket);
    put_ticket(out, second, pair.second_ticket);
    out.put(b"\n");
}

/// Puts the lines of deliveries.
fn put_deliveries<W: Write>(
    out: &mut Output<'_, W>,
    spellings: &Spellings<'_>,
    name: &[u8],
    list: &[Delivery],
)
    ensures { Puts out.old out.new
        (lines_text (map (delivery_line spellings.now name.now) list.now)) }
{
    for delivery in list {
        put_delivery(out, spellings, name, delivery);
    }
}

/// Puts the lines of accepted tries.
fn put_versions<W: Write>(
    out: &mut Output<'_, W>,
    spellings: &Spellings<'_>,
    name: &[u8],
    tries: &AcceptedTries,
)
    ensures { Puts out.old out.new (lines_text (map (version_line spellings.now name.now) tries.now.list)) }
{
    for place in 0..tries.len() {
        if let Some(accepted) = tries.get(place) {
            put_version(out, spellings, name, &accepted);
        }
    }
}

/// Puts the lines of pairs.
fn put_pairs<W: Write>(
    out: &mut Output<'_, W>,
    heading: &Heading,
    spellings: &Spellings<'_>,
    list: &[Pair],
)
    ensures { Puts out.old out.new (lines_text (map (pair_line spellings.now (semaphore_word heading.now.names 0 heading.now.groups)) list.now)) }
{
    for pair in list {
        put_pair(out, heading, spellings, pair);
    }
}

/// Puts the lines of what the audit of a group found.
fn put_audited<W: Write>(
    out: &mut Output<'_, W>,
    heading: &Heading,
    spellings: &Spellings<'_>,
    name: &[u8],
    audited: &AuditResult,
)
    requires { spellings.now ≡ heading.now.words }
    ensures { Puts out.old out.new (lines_text (audited_lines heading.now name.now audited.now)) }
{
    match audited {
        AuditResult::Deliveries(list) => {
            put_deliveries(out, spellings, name, list.as_slice());
        }
        AuditResult::Versions(tries) => put_versions(out, spellings, name, tries),
        AuditResult::Balances(balance, now) => put_balance(out, name, balance, *now),
        AuditResult::Pairs(balance, now, list) => {
            put_balance(out, name, balance, *now);
            put_pairs(out, heading, spellings, list.as_slice());
        }
    }
}

/// Puts what the audits of the groups found, in order.
fn put_groups<W: Write>(
    out: &mut Output<'_, W>,
    heading: &Heading,
    spellings: &Spellings<'_>,
    found: &[AuditResult],
)
    requires { spellings.now ≡ heading.now.words }
    ensures { Puts out.old out.new (lines_text (groups_lines heading.now 0 found.now)) }
{
    for i in 0..found.len() {
        let name = group_word(heading.names(), i);
        put_audited(out, heading, spellings, name, &found[i]);
    }
}

/// Puts the whole text.
fn put_audit<W: Write>(out: &mut Output<'_, W>, heading: &Heading, found: &[AuditResult])
    ensures { Puts out.old out.new (audit_text heading.now found.now) }
{
    let spellings = Spellings::new(heading.words());
    out.put(b"evc-audit 1\n");
    put_groups(out, heading, &spellings, found);
    out.put(b"end\n");
}

/// Writes the text of an audit; a proper prefix of it if a write fails.
pub fn write_audit<W: Write>(
    out: &mut W,
    heading: &Heading,
    found: &[AuditResult],
) -> Result<(), WriteFault>
    ensures ok { OnOk result (Appends (W.contents out.old) (W.contents out.new) (audit_text heading.now found.now)) }
    ensures err { OnErr result (AppendsPrefix (W.contents out.old) (W.contents out.new) (audit_text heading.now found.now)) }
{
    let mut text = Output::new(out);
    put_audit(&mut text, heading, found);
    let done = text.finish();
    text.into_writer();
    done
}
