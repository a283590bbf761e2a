//! Writes headers.
ghost use Rattle.std.specs.Prelude.{◌≡◌, ◌≤◌, ◌∷◌, ◌++◌, [], Some, None, map, codes};
ghost use Rattle.std.specs.List.{range_with_len};
ghost use Rattle.ec_text.specs.Puts.{Puts};
ghost use Rattle.ec_heading.specs.Spelling.{trace_header, target_name, name_words, number_words, limit_line, workers_line, heading_lines, lines_text};
ghost use Rattle.ec_heading.specs.HeaderTree.{HeaderTree, IsHeaderTree, heading_of_tree};
ghost use Rattle.ec_heading.specs.DeclKinds.{sort_word, opener, second_opener};
ghost use Rattle.ec_heading.specs.Recalled.{names_of, worker_names, declared_group, declaration_of, declarations_of, declared_line, declared_text, heading_text, opening_text, second_names, with_spaces};

use crate::spell::Spellings;
use ec_count::{Setup, Target, WorkerId};
use ec_heading::{DeclKind, Group, Heading, Version};
use ec_text::Output;
use std::io::Write;
use std::marker::Model;

/// What a line declares: its kind, name and number, and the workers of its two lists.
#[derive(Drop)]
struct DeclarationLine<'a> {
    sort: DeclKind,
    name: &'a [u8],
    number: usize,
    first: &'a [WorkerId],
    second: &'a [WorkerId],
}

impl<'a> Model for DeclarationLine<'a> {
    ghost use Rattle.ec_heading.specs.HeaderTree.{Declaration};

    ghost Value = { Declaration };

    ghost view = { λ d. record { sort = d.sort; name = d.name.now; number = d.number; first = d.first.now; second = d.second.now } };
}

/// Returns the name of what was declared; empty if it has none.
fn declared_name(heading: &Heading, target: Target) -> &[u8]
    ensures { result.now ≡ target_name heading.now.names target }
{
    heading
        .names()
        .name_of(target)
        .map_or(b"".as_slice(), |name| name.as_bytes())
}

/// Returns what was declared for a group of this name.
fn group_line<'a>(setup: &'a Setup, name: &'a [u8], group: &Group) -> DeclarationLine<'a>
    ensures { result ≡ declared_group setup.now name.now group.now }
{
    match group {
        Group::Buffer(buffer) => DeclarationLine {
            sort: DeclKind::Buffer,
            name,
            number: buffer.cells(),
            first: setup.writers(buffer.first_cell()),
            second: setup.readers(buffer.first_cell()),
        },
        Group::Database(database) => DeclarationLine {
            sort: DeclKind::Database,
            name,
            number: database.cells(),
            first: setup.writers(database.first_cell()),
            second: setup.readers(database.first_cell()),
        },
        Group::Semaphore(semaphore) => DeclarationLine {
            sort: DeclKind::Semaphore,
            name,
            number: semaphore.initial() as usize,
            first: setup.takers(semaphore.line()),
            second: &[],
        },
        Group::Both(semaphore) => DeclarationLine {
            sort: DeclKind::Both,
            name: DeclKind::Both.word(),
            number: 0,
            first: setup.takers(semaphore.line()),
            second: &[],
        },
    }
}

/// Returns what was declared for a target.
fn declaration_line(heading: &Heading, target: Target) -> Option<DeclarationLine<'_>>
    ensures { result ≡ declaration_of heading.now target }
{
    let setup = heading.setup();
    let name = declared_name(heading, target);
    match &target {
        Target::Event(event) => Some(DeclarationLine {
            sort: DeclKind::EventCount,
            name,
            number: 0,
            first: setup.signallers(*event),
            second: setup.observers(*event),
        }),
        Target::Sequencer(sequencer) => Some(DeclarationLine {
            sort: DeclKind::Sequencer,
            name,
            number: 0,
            first: setup.takers(*sequencer),
            second: &[],
        }),
        Target::Cells(first, n) => Some(DeclarationLine {
            sort: DeclKind::Cells,
            name,
            number: *n,
            first: setup.writers(*first),
            second: setup.readers(*first),
        }),
        Target::Group(place) => Some(group_line(setup, name, heading.groups().get(*place)?)),
        Target::Worker(_) => None,
    }
}

/// Puts a word with a space before it.
fn put_word<W: Write>(out: &mut Output<'_, W>, word: &[u8])
    ensures { Puts out.old out.new (32 ∷ word.now) }
{
    out.put_byte(b' ');
    out.put(word);
}

/// Puts the names of workers, each with a space before it.
fn put_names<W: Write>(out: &mut Output<'_, W>, spellings: &Spellings<'_>, workers: &[WorkerId])
    ensures { Puts out.old out.new (with_spaces (names_of spellings.now workers.now)) }
{
    for worker in workers {
        put_word(out, spellings.worker(*worker));
    }
}

/// Puts a name with a space before it, if such a declaration has one.
fn put_name<W: Write>(out: &mut Output<'_, W>, sort: DeclKind, name: &[u8])
    ensures { Puts out.old out.new (with_spaces (name_words sort name.now)) }
{
    if sort.has_name() {
        put_word(out, name);
    }
}

/// Puts a number with a space before it, if such a declaration has one.
fn put_amount<W: Write>(out: &mut Output<'_, W>, sort: DeclKind, number: usize)
    ensures { Puts out.old out.new (with_spaces (number_words sort number)) }
{
    if sort.has_number() {
        out.put_byte(b' ');
        out.put_number(number as u64);
    }
}

/// Puts the second list with the word before it, nothing if the list is empty.
fn put_second<W: Write>(
    out: &mut Output<'_, W>,
    spellings: &Spellings<'_>,
    sort: DeclKind,
    workers: &[WorkerId],
)
    ensures { Puts out.old out.new (with_spaces (second_names spellings.now (second_opener sort) workers.now)) }
{
    if let Some(word) = sort.second_opener()
        && !workers.is_empty()
    {
        put_word(out, word);
        put_names(out, spellings, workers);
    }
}

/// Puts the line of a declaration, without LF.
#[tactic(auto, using(crate::proofs::shared::LineParts::line_parts))]
fn put_line<W: Write>(
    out: &mut Output<'_, W>,
    spellings: &Spellings<'_>,
    line: &DeclarationLine<'_>,
)
    ensures { Puts out.old out.new (declared_line spellings.now line.now) }
{
    out.put(line.sort.word());
    put_name(out, line.sort, line.name);
    put_amount(out, line.sort, line.number);
    put_word(out, line.sort.opener());
    put_names(out, spellings, line.first);
    put_second(out, spellings, line.sort, line.second);
}

/// Puts the names of the first workers, each with a space before it.
#[tactic(auto, using(crate::proofs::shared::LineParts::one_more_worker))]
fn put_workers<W: Write>(out: &mut Output<'_, W>, spellings: &Spellings<'_>, count: usize)
    requires { count ≤ 16 }
    ensures { Puts out.old out.new (with_spaces (names_of spellings.now (range_with_len 0 count))) }
{
    for number in 0..count {
        if let Some(worker) = WorkerId::new(number) {
            put_word(out, spellings.worker(worker));
        }
    }
}

/// Puts the line of what was declared for a target.
fn put_target<W: Write>(
    out: &mut Output<'_, W>,
    spellings: &Spellings<'_>,
    heading: &Heading,
    target: Target,
)
    ensures { Puts out.old out.new (declared_text spellings.now (declaration_of heading.now target)) }
{
    if let Some(line) = declaration_line(heading, target) {
        put_line(out, spellings, &line);
        out.put_byte(b'\n');
    }
}

/// Puts the lines of the declarations.
#[tactic(auto, using(crate::proofs::shared::LineParts::one_more_target))]
fn put_targets<W: Write>(out: &mut Output<'_, W>, spellings: &Spellings<'_>, heading: &Heading)
    ensures { Puts out.old out.new (lines_text (map (declared_line spellings.now) (declarations_of heading.now))) }
{
    for target in heading.declarations() {
        put_target(out, spellings, heading, *target);
    }
}

/// Returns the first line of a trace.
pub(crate) fn first_line(version: Version) -> &'static [u8]
    ensures { result.now ≡ trace_header version }
{
    match version {
        Version::One => b"evc-trace 1".as_slice(),
        Version::Two => b"evc-trace 2".as_slice(),
    }
}

/// Puts the limit, the workers and the declarations of a header, and `run`.
#[tactic(auto, using(crate::proofs::shared::LineParts::heading_parts))]
pub fn put_heading<W: Write>(out: &mut Output<'_, W>, spellings: &Spellings<'_>, heading: &Heading)
    ensures words { Puts out.old out.new (heading_text spellings.now heading.now) }
    ensures outline { (o : HeaderTree) → IsHeaderTree o → heading_of_tree o ≡ heading.now
        → spellings.now ≡ heading.now.words
        → Puts out.old out.new (lines_text (heading_lines o ++ codes "run" ∷ [])) }
{
    let setup = heading.setup();
    out.put(b"limit ");
    out.put_number(setup.limit().get());
    out.put(b"\nworkers");
    put_workers(out, spellings, setup.workers());
    out.put_byte(b'\n');
    put_targets(out, spellings, heading);
    out.put(b"run\n");
}

/// Puts the lines before the entries.
#[tactic(auto, using(crate::proofs::shared::LineParts::opening_parts))]
pub(crate) fn put_opening<W: Write>(
    out: &mut Output<'_, W>,
    spellings: &Spellings<'_>,
    heading: &Heading,
)
    ensures { Puts out.old out.new (opening_text spellings.now heading.now) }
{
    out.put(first_line(heading.version()));
    out.put_byte(b'\n');
    put_heading(out, spellings, heading);
}
