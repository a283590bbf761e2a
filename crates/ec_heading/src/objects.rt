//! The objects of a declaration, and the words for them.
ghost use Rattle.std.specs.Prelude.{◌≡◌, ◌≤◌, ◌<◌, ◌+◌, ◌++◌, ◌∷◌, [], None, OnErr, OnOk, false, true, length, replicate};
ghost use Rattle.ec_count.specs.Names.{find_name};
ghost use Rattle.ec_heading.specs.Kinds.{is_full_for};
ghost use Rattle.ec_heading.specs.Objects.{AreNew, group_of_declaration, ids_after, objects_of, shown_objects, spelled_objects, spelling, target_of};
ghost use Rattle.ec_heading.specs.HeaderTree.{objects_fault, with_objects};
ghost use Rattle.ec_heading.specs.DeclKinds.{is_in_range};

use crate::decl_kind::DeclKind;
use crate::group::Group;
use arrayvec::ArrayVec;
use ec_buffer::declare_buffer;
use ec_count::{CellId, EventId, SeqId, Setup, SymbolTable, Target, WorkerId};
use ec_database::declare_database;
use ec_semaphore::{declare_both, declare_semaphore};
use std::alloc::AllocError;

/// An object of a declaration: the suffix by which a word names it, as `in` for `B.in`, and what it
/// is. The suffix is empty if the name of the declaration names it.
#[derive(Clone, Copy)]
pub(crate) struct Object {
    pub(crate) word: &'static [u8],
    pub(crate) target: Target,
}

impl Object {
    fn new(word: &'static [u8], target: Target) -> Self
        ensures word { result.word.now ≡ word.now }
        ensures target { result.target ≡ target }
    {
        Object { word, target }
    }
}

/// Returns the eventcount with this number.
fn event(number: usize) -> EventId
    requires { number < 32 }
    ensures { result ≡ number }
{
    let Some(id) = EventId::new(number) else {
        unreachable!();
    };
    id
}

/// Returns the sequencer with this number.
fn sequencer(number: usize) -> SeqId
    requires { number < 32 }
    ensures { result ≡ number }
{
    let Some(id) = SeqId::new(number) else {
        unreachable!();
    };
    id
}

/// Returns the cell with this number.
fn cell(number: usize) -> CellId
    requires { number < 256 }
    ensures { result ≡ number }
{
    let Some(id) = CellId::new(number) else {
        unreachable!();
    };
    id
}

/// Returns what the name of the next declaration will denote, after this setup and `groups` groups;
/// `n` is its number.
pub(crate) fn target_of(setup: &Setup, groups: usize, sort: DeclKind, n: usize) -> Target
    requires room { is_full_for sort setup.now n ≡ false }
    requires some { is_in_range sort n ≡ true }
    ensures { result ≡ target_of sort (ids_after setup.now groups) n }
{
    match sort {
        DeclKind::EventCount => Target::Event(event(setup.events())),
        DeclKind::Sequencer => Target::Sequencer(sequencer(setup.sequencers())),
        DeclKind::Cells => Target::Cells(cell(setup.cells()), n),
        DeclKind::Buffer | DeclKind::Database | DeclKind::Semaphore | DeclKind::Both =>
            Target::Group(groups),
    }
}

/// Returns the word for an object: the name, or the name, a dot and the suffix, as `B.in`.
fn spelling(name: &[u8], word: &[u8]) -> ArrayVec<u8, 24>
    requires { length (spelling name.now word.now) ≤ 24 }
    ensures { result.items ≡ spelling name.now word.now }
{
    let mut bytes = ArrayVec::new();
    let Ok(()) = bytes.try_extend_from_slice(name) else {
        unreachable!();
    };
    if word.is_empty() {
        return bytes;
    }
    bytes.push(b'.');
    let Ok(()) = bytes.try_extend_from_slice(word) else {
        unreachable!();
    };
    bytes
}

/// Adds the words for these objects; on an error none of them.
fn add_words(words: &mut SymbolTable, name: &[u8], objects: &[Object]) -> Result<(), AllocError>
    requires { AreNew name.now words.old (shown_objects objects.now) }
    ensures ok { OnOk result (words.new ≡ words.old ++ spelled_objects name.now (shown_objects objects.now)) }
    ensures err { OnErr result (words.new ≡ words.old) }
{
    let before = words.len();
    for object in objects {
        let word = spelling(name, object.word);
        if words.add(word.as_slice(), object.target).is_err() {
            words.truncate(before);
            return Err(AllocError);
        }
    }
    Ok(())
}

/// Adds the words for the objects of the next declaration, after this setup and `groups` groups; on
/// an error none of them.
pub(crate) fn spell_objects(
    words: &mut SymbolTable,
    name: &[u8],
    setup: &Setup,
    groups: usize,
    sort: DeclKind,
    n: usize,
) -> Result<(), AllocError>
    requires room { is_full_for sort setup.now n ≡ false }
    requires some { is_in_range sort n ≡ true }
    requires new { AreNew name.now words.old (objects_of sort (ids_after setup.now groups) n) }
    ensures ok { OnOk result (words.new ≡ words.old ++ spelled_objects name.now (objects_of sort (ids_after setup.now groups) n)) }
    ensures err { OnErr result (words.new ≡ words.old) }
{
    let (events, sequencers) = (setup.events(), setup.sequencers());
    let itself = Object::new(b"", target_of(setup, groups, sort, n));
    match sort {
        DeclKind::EventCount | DeclKind::Sequencer | DeclKind::Cells => {
            add_words(words, name, &[itself])
        }
        DeclKind::Buffer => {
            let objects = [
                Object::new(b"in", Target::Event(event(events))),
                Object::new(b"out", Target::Event(event(events + 1))),
                Object::new(b"put", Target::Sequencer(sequencer(sequencers))),
                Object::new(b"take", Target::Sequencer(sequencer(sequencers + 1))),
                Object::new(b"", Target::Cells(cell(setup.cells()), n)),
            ];
            add_words(words, name, &objects)
        }
        DeclKind::Database => {
            let objects = [
                Object::new(b"start", Target::Event(event(events))),
                Object::new(b"done", Target::Event(event(events + 1))),
                Object::new(b"turn", Target::Sequencer(sequencer(sequencers))),
                Object::new(b"", Target::Cells(cell(setup.cells()), n)),
            ];
            add_words(words, name, &objects)
        }
        DeclKind::Semaphore | DeclKind::Both => {
            let objects = [
                Object::new(b"v", Target::Event(event(events))),
                Object::new(b"p", Target::Sequencer(sequencer(sequencers))),
                itself,
            ];
            add_words(words, name, &objects)
        }
    }
}

/// Adds the objects of a declaration, and returns the group that it is, if it is one.
pub(crate) fn add_objects(
    setup: &mut Setup,
    sort: DeclKind,
    n: usize,
    first: &[WorkerId],
    second: &[WorkerId],
) -> Option<Group>
    requires { objects_fault sort setup.old n first.now second.now ≡ None }
    ensures setup { setup.new ≡ with_objects sort setup.old n first.now second.now }
    ensures group { result ≡ group_of_declaration sort setup.old n }
{
    match sort {
        DeclKind::EventCount => {
            let _added = setup.add_event(first, second);
            None
        }
        DeclKind::Sequencer => {
            let _added = setup.add_sequencer(first);
            None
        }
        DeclKind::Cells => {
            let _added = setup.add_cells(n, first, second);
            None
        }
        DeclKind::Buffer => {
            let Ok(shape) = declare_buffer(setup, n, first, second) else {
                unreachable!();
            };
            Some(Group::Buffer(shape))
        }
        DeclKind::Database => {
            let Ok(shape) = declare_database(setup, n, first, second) else {
                unreachable!();
            };
            Some(Group::Database(shape))
        }
        DeclKind::Semaphore => {
            let Ok(shape) = declare_semaphore(setup, n as u64, first) else {
                unreachable!();
            };
            Some(Group::Semaphore(shape))
        }
        DeclKind::Both => {
            let Ok(shape) = declare_both(setup, first) else {
                unreachable!();
            };
            Some(Group::Both(shape))
        }
    }
}
