//! A header, built line by line.
ghost use Rattle.std.specs.Prelude.{◌≡◌, ◌≢◌, ◌+◌, ◌++◌, ◌≤◌, ◌∷◌, IfErr, IfOk, OnErr, OnOk, [], None, false, true, length, option_map, vec_capacity};
ghost use Rattle.std.specs.List.{All, cons_option};
ghost use Rattle.ec_text.specs.Words.{words_of};
ghost use Rattle.ec_heading.specs.Form.{parts_in, phrase_of_parts};
ghost use Rattle.ec_heading.specs.Groups.{FitsGroup};
ghost use Rattle.ec_heading.specs.Heading.{Lines, Steps, workers_in, words_step, opened_by, declared_or};
ghost use Rattle.ec_heading.specs.Kinds.{workers_fault, declaration_fault, declaration_of, second_list, is_full_for};
ghost use Rattle.ec_count.specs.Names.{AreNames};
ghost use Rattle.ec_heading.specs.Lists.{ids_in, worker_in};
ghost use Rattle.ec_heading.specs.Objects.{AreNew, ids_after, objects_of, spelled_objects};
ghost use Rattle.ec_heading.specs.HeadingInvariant.{IsHeading, HasHeaderTree};
ghost use Rattle.ec_heading.specs.DeclKinds.{is_in_range};
ghost use Rattle.ec_heading.specs.EntryWords.{event_in, sequencer_in, cell_in_word, cell_of};
ghost use Rattle.ec_heading.specs.Versions.{greatest_limit};
ghost use Rattle.ec_heading.specs.Upgrade.{upgrade_heading};
ghost use Rattle.ec_heading.specs.HeaderTree.{empty_heading, IsDeclarable, number_names, named_as, with_declaration};

use crate::decl_kind::DeclKind;
use crate::entry_words::{closed_number, cut_at};
use crate::form::{Parts, split_declaration};
use crate::group::Group;
use crate::kinds::{declaration_fault, size_of, workers_fault};
use crate::lists::{count_words, push_ids, worker_in};
use crate::objects::{add_objects, spell_objects, target_of};
use crate::version::Version;
use arrayvec::ArrayVec;
use ec_count::{
    CellId, EventId, Limit, NameFault, Names, SeqId, Setup, SymbolTable, Target, WorkerId,
};
use ec_text::{cut_word, has_blank};
use std::alloc::{AllocError, Global};
use std::marker::Model;
use thiserror::Error;

/// The most bytes of a line, without its LF.
pub const LINE_MAX: usize = 8192;

/// Why a line of a header is rejected: the first of these that holds of the line.
#[derive(Clone, Copy, Debug, PartialEq, Eq, Error)]
pub enum HeadFault {
    /// The line has none of the forms allowed in its place, or more than 8192 bytes.
    #[error("bad line")]
    BadLine,
    /// A word in the place of a new name is not a name.
    #[error("a word is no name")]
    BadName,
    /// A new name was used before, or a list names a worker twice.
    #[error("a name was used before")]
    NameTaken,
    /// A word in the place of a worker is not the name of one.
    #[error("a name is not declared")]
    UnknownName,
    /// A number is outside its range.
    #[error("a number is out of range")]
    BadNumber,
    /// A table would exceed its bound.
    #[error("a table would pass its bound")]
    TooMany,
    /// A worker is in both lists of a buffer or a database.
    #[error("a worker stands in both roles")]
    TwoRoles,
    /// An allocation failed.
    #[error("memory was refused")]
    Memory,
}

impl HeadFault {
    ghost use Rattle.ec_heading.specs.Kinds.{fault_number};

    /// Returns its number among the kinds of errors of scripts, from 2 to 9.
    ///
    /// `Memory` has none: it is no error of a line.
    pub fn number(self) -> Option<u64>
        ensures { result ≡ fault_number self }
    {
        match self {
            HeadFault::BadLine => Some(2),
            HeadFault::BadName => Some(3),
            HeadFault::NameTaken => Some(4),
            HeadFault::UnknownName => Some(5),
            HeadFault::BadNumber => Some(6),
            HeadFault::TooMany => Some(7),
            HeadFault::TwoRoles => Some(9),
            HeadFault::Memory => None,
        }
    }
}

/// A header: its version, its limit, its workers and its objects.
///
/// `names` has the names of workers and declarations, `words` the words by which lines name workers
/// and objects.
#[derive(Drop)]
pub struct Heading {
    pub(crate) version: Version,
    /// Boxed, since a `Setup` is large and a header is moved.
    pub(crate) setup: Box<Setup>,
    pub(crate) names: Names,
    pub(crate) words: SymbolTable,
    pub(crate) groups: Vec<Group>,
    pub(crate) declarations: Vec<Target>,
}

impl Model for Heading {
    ghost use Rattle.ec_heading.specs.HeadingModel.{HeadingModel};

    ghost Value = { HeadingModel };

    ghost use Rattle.ec_heading.specs.HeadingInvariant.{IsHeading};

    ghost view = { λ h. record { version = h.version; setup = h.setup.value; names = h.names; words = h.words; groups = h.groups.items; declarations = h.declarations.items } };

    ghost invariant = { λ h. IsHeading (record { version = h.version; setup = h.setup.value; names = h.names; words = h.words; groups = h.groups.items; declarations = h.declarations.items }) };
}

/// Returns the names that a line of workers lists, if it has that form.
#[tactic(auto, using(crate::proofs::WorkersLine::some_workers))]
fn worker_list(line: &[u8]) -> Option<&[u8]>
    ensures { option_map (λ list. words_of list.now) result ≡ workers_in (words_of line.now) }
{
    let (word, Some(list)) = cut_word(line) else {
        return None;
    };
    if word == b"workers".as_slice() {
        Some(list)
    } else {
        None
    }
}

/// Adds the names of the workers of a list, from `number` on.
fn name_workers(
    names: &mut Names,
    words: &mut SymbolTable,
    number: usize,
    list: &[u8],
) -> Result<(), NameFault>
    requires room { number + length (words_of list.now) ≤ 16 }
    requires same { words.old ≡ names.old }
    ensures names { OnOk result (names.new ≡ names.old ++ number_names number (words_of list.now)) }
    ensures words { OnOk result (words.new ≡ words.old ++ number_names number (words_of list.now)) }
{
    let (word, rest) = cut_word(list);
    let Some(worker) = WorkerId::new(number) else {
        unreachable!();
    };
    names.add_bytes(word, Target::Worker(worker))?;
    if words.add(word, Target::Worker(worker)).is_err() {
        return Err(NameFault::Memory);
    }
    match rest {
        None => Ok(()),
        Some(rest) => name_workers(names, words, number + 1, rest),
    }
}

/// Declares `count` workers.
fn add_workers(setup: &mut Setup, count: usize)
    requires { setup.old.workers + count ≤ 16 }
    ensures { setup.new ≡ record setup.old { workers = setup.old.workers + count } }
{
    for _worker in 0..count {
        let Ok(_) = setup.add_worker() else {
            unreachable!();
        };
    }
}

impl Heading {
    /// Returns a header with this limit and nothing declared.
    ///
    /// The version is that of the text, and must allow the limit: `Version::limit` returns such a
    /// limit.
    pub fn new(alloc: Global, version: Version, limit: Limit) -> Result<Self, AllocError>
        requires { limit ≤ greatest_limit version }
        ensures { IfOk result (λ heading. heading ≡ empty_heading version limit []) }
    {
        Ok(Heading {
            version,
            setup: Box::new(alloc, Setup::new(limit))?,
            names: Names::new(alloc)?,
            words: SymbolTable::new(alloc)?,
            groups: Vec::new(alloc),
            declarations: Vec::new(alloc),
        })
    }

    /// Adds a line, without its LF: first the line of the workers, then declarations.
    ///
    /// An error is the lowest fault of the line, or `Memory` if it has none, and changes nothing.
    /// After `Memory` the same line may be passed again.
    #[tactic(auto, unfolding(crate::specs::Heading::head_step))]
    pub fn line(&mut self, line: &[u8]) -> Result<(), HeadFault>
        ensures { Lines result self.old self.new line.now }
    {
        if line.len() > LINE_MAX || has_blank(line) {
            return Err(HeadFault::BadLine);
        }
        if self.setup.workers() == 0 {
            self.take_workers(line)
        } else {
            self.take_declaration(line)
        }
    }

    /// Adds the line of the workers. Nothing is declared before it.
    fn take_workers(&mut self, line: &[u8]) -> Result<(), HeadFault>
        requires { self.old.setup.workers ≡ 0 }
        ensures { Steps result self.old self.new (opened_by self.old.version self.old.setup.limit (workers_in (words_of line.now))) }
    {
        let Some(list) = worker_list(line) else {
            return Err(HeadFault::BadLine);
        };
        if let Some(fault) = workers_fault(list) {
            return Err(fault);
        }
        self.setup.invariant();
        let alloc = *self.declarations.allocator();
        let Ok(mut names) = Names::new(alloc) else {
            return Err(HeadFault::Memory);
        };
        let Ok(mut words) = SymbolTable::new(alloc) else {
            return Err(HeadFault::Memory);
        };
        let Ok(()) = name_workers(&mut names, &mut words, 0, list) else {
            return Err(HeadFault::Memory);
        };
        add_workers(&mut self.setup, count_words(list));
        self.names = names;
        self.words = words;
        Ok(())
    }

    /// Adds the line of a declaration.
    fn take_declaration(&mut self, line: &[u8]) -> Result<(), HeadFault>
        requires { self.old.setup.workers ≢ 0 }
        ensures { Steps result self.old self.new (declared_or self.old (parts_in (words_of line.now))) }
    {
        let Some(parts) = split_declaration(line) else {
            return Err(HeadFault::BadLine);
        };
        if let Some(fault) = declaration_fault(&self.setup, &self.words, &parts) {
            return Err(fault);
        }
        self.declare(&parts).map_err(|_| HeadFault::Memory)
    }

    /// Adds what a line without fault declares. What allocates comes first, so an error changes
    /// nothing.
    fn declare(&mut self, parts: &Parts<'_>) -> Result<(), AllocError>
        requires some { self.old.setup.workers ≢ 0 }
        requires may { IsDeclarable self.old
            (declaration_of self.old.words (phrase_of_parts parts.now)) }
        ensures ok { OnOk result (self.new ≡ with_declaration self.old (declaration_of self.old.words (phrase_of_parts parts.now))) }
        ensures err { OnErr result (self.new ≡ self.old) }
    {
        let first = workers_of(&self.words, parts.first);
        let second = second_workers(&self.words, parts);
        let n = size_of(parts) as usize;
        let groups = self.groups.len();
        let target = target_of(&self.setup, groups, parts.sort, n);
        reserve_one(&mut self.declarations, &mut self.groups)?;
        spell_declaration(
            &mut self.words,
            &mut self.names,
            &self.setup,
            groups,
            parts,
            n,
            &target,
        )?;
        let (first, second) = (first.as_slice(), second.as_slice());
        let group = add_objects(&mut self.setup, parts.sort, n, first, second);
        push_group(&mut self.groups, group);
        push_target(&mut self.declarations, target);
        Ok(())
    }

    /// Returns the version of its text.
    pub fn version(&self) -> Version
        ensures { result ≡ self.now.version }
    {
        self.version
    }

    /// Returns the same declarations under version 2.
    pub fn upgrade(self) -> Self
        ensures { result ≡ upgrade_heading self }
    {
        let mut heading = self;
        heading.version = Version::Two;
        heading
    }

    /// Returns what is declared.
    pub fn setup(&self) -> &Setup
        ensures { result.now ≡ self.now.setup }
    {
        &self.setup
    }

    /// Returns the names of the workers and of what is declared.
    pub fn names(&self) -> &Names
        ensures { result.now ≡ self.now.names }
    {
        &self.names
    }

    /// Returns the words by which lines name workers and objects, in order of declaration.
    pub fn words(&self) -> &SymbolTable
        ensures { result.now ≡ self.now.words }
    {
        &self.words
    }

    /// Returns the groups, in order of declaration.
    pub fn groups(&self) -> &[Group]
        ensures { result.now ≡ self.now.groups }
    {
        self.groups.as_slice()
    }

    /// Returns what was declared after the workers, in order; a group by its index.
    pub fn declarations(&self) -> &[Target]
        ensures { result.now ≡ self.now.declarations }
    {
        self.declarations.as_slice()
    }

    /// States what is true of every header.
    #[tactic(auto, using(crate::proofs::shared::Standing::has_outline_from))]
    pub fn invariant(&self)
        ensures heading { IsHeading self.now }
        ensures outline { 1 ≤ self.now.setup.workers → HasHeaderTree self.now }
        ensures names { AreNames self.now.names }
        ensures groups { All (FitsGroup self.now.setup) self.now.groups }
    {
        self.names.invariant();
        let _setup = &self.setup;
    }

    /// Returns the eventcount that a word names.
    pub fn event(&self, word: &[u8]) -> Option<EventId>
        ensures { result ≡ event_in self.now.words word.now }
    {
        match self.words.find(word)? {
            Target::Event(id) => Some(id),
            _ => None,
        }
    }

    /// Returns the sequencer that a word names.
    pub fn sequencer(&self, word: &[u8]) -> Option<SeqId>
        ensures { result ≡ sequencer_in self.now.words word.now }
    {
        match self.words.find(word)? {
            Target::Sequencer(id) => Some(id),
            _ => None,
        }
    }

    /// Returns the cell that a word names: its block's name, `[`, its number there, and `]`.
    #[tactic(auto, unfolding(crate::specs::EntryWords::cell_in_word))]
    pub fn cell(&self, word: &[u8]) -> Option<CellId>
        ensures { result ≡ cell_in_word self.now.words word.now }
    {
        let (name, rest) = cut_at(word, b'[')?;
        self.cell_of(name, closed_number(rest)?)
    }

    /// Returns the cell with this number in the block of this name.
    fn cell_of(&self, name: &[u8], i: u64) -> Option<CellId>
        ensures { result ≡ cell_of self.now.words name.now i }
    {
        match self.words.find(name)? {
            Target::Cells(first, n) if i < n as u64 => CellId::new(first.get() + i as usize),
            _ => None,
        }
    }

    /// Returns the worker that a word names.
    pub fn worker(&self, word: &[u8]) -> Option<WorkerId>
        ensures { result ≡ worker_in self.now.words word.now }
    {
        worker_in(&self.words, word)
    }
}

/// Adds the words and the name of the next declaration, after this setup and `groups` groups; on an
/// error none of them.
fn spell_declaration(
    words: &mut SymbolTable,
    names: &mut Names,
    setup: &Setup,
    groups: usize,
    parts: &Parts<'_>,
    n: usize,
    target: &Target,
) -> Result<(), AllocError>
    requires room { is_full_for parts.now.sort setup.now n ≡ false }
    requires some { is_in_range parts.now.sort n ≡ true }
    requires new { AreNew parts.now.name.now words.old (objects_of parts.now.sort (ids_after setup.now groups) n) }
    ensures words { OnOk result (words.new ≡ words.old ++ spelled_objects parts.now.name.now (objects_of parts.now.sort (ids_after setup.now groups) n)) }
    ensures names { OnOk result (names.new ≡ names.old ++ named_as parts.now.sort parts.now.name.now target.now) }
    ensures same_words { OnErr result (words.new ≡ words.old) }
    ensures same_names { OnErr result (names.new ≡ names.old) }
{
    let before = words.len();
    spell_objects(words, parts.name, setup, groups, parts.sort, n)?;
    if parts.sort.has_name() && names.add_bytes(parts.name, *target).is_err() {
        words.truncate(before);
        return Err(AllocError);
    }
    Ok(())
}

/// Makes room for one more of each.
fn reserve_one(declarations: &mut Vec<Target>, groups: &mut Vec<Group>) -> Result<(), AllocError>
    ensures declarations { declarations.new.items ≡ declarations.old.items }
    ensures groups { groups.new.items ≡ groups.old.items }
    ensures more { OnOk result (length declarations.new.items + 1 ≤ vec_capacity declarations.new) }
    ensures room { OnOk result (length groups.new.items + 1 ≤ vec_capacity groups.new) }
{
    declarations.reserve(1)?;
    groups.reserve(1)
}

/// Adds what was declared. Room for it was reserved.
fn push_target(declarations: &mut Vec<Target>, target: Target)
    requires { length declarations.old.items + 1 ≤ vec_capacity declarations.old }
    ensures { declarations.new.items ≡ declarations.old.items ++ target ∷ [] }
{
    if declarations.push(target).is_err() {
        unreachable!();
    }
}

/// Adds a group, if there is one. Room for it was reserved.
fn push_group(groups: &mut Vec<Group>, group: Option<Group>)
    requires { length groups.old.items + 1 ≤ vec_capacity groups.old }
    ensures { groups.new.items ≡ groups.old.items ++ cons_option group [] }
{
    if let Some(group) = group {
        if groups.push(group).is_err() {
            unreachable!();
        }
    }
}

/// Returns the workers that a list names.
fn workers_of(words: &SymbolTable, list: &[u8]) -> ArrayVec<WorkerId, 16>
    requires { length (ids_in words.now (words_of list.now)) ≤ 16 }
    ensures { result.items ≡ ids_in words.now (words_of list.now) }
{
    let mut ids = ArrayVec::new();
    push_ids(words, list, &mut ids);
    ids
}

/// Returns the workers that the second list names.
fn second_workers(words: &SymbolTable, parts: &Parts<'_>) -> ArrayVec<WorkerId, 16>
    requires { length (ids_in words.now (second_list (phrase_of_parts parts.now))) ≤ 16 }
    ensures { result.items ≡ ids_in words.now (second_list (phrase_of_parts parts.now)) }
{
    match parts.second {
        None => ArrayVec::new(),
        Some(list) => workers_of(words, list),
    }
}
