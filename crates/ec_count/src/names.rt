//! Names, in the order in which they were added.
ghost use Rattle.ec_count.specs.Names.{AreNames, find_name, name_fault, name_of, name_index, same_target, with_first};
ghost use Rattle.ec_count.specs.declared.target.Target.{Target};
ghost use Rattle.indexmap.specs.IndexMap.{spare};
ghost use Rattle.std.specs.Map.{lookup};
ghost use Rattle.ec_count.specs.Reserved.{is_name};
ghost use Rattle.std.specs.Prelude.{◌≡◌, ◌<◌, ◌++◌, ◌∷◌, [], true, length, IfErr, IfOk, OnErr, OnOk, MatchOption, option_map, slice_get};

use crate::Target;
use crate::reserved::is_name;
use indexmap::IndexMap;
use std::alloc::{AllocError, Global};
use std::marker::Model;
use std::str::from_utf8;
use thiserror::Error;

/// Why a name can't be added: the first reason that applies.
#[derive(Clone, Copy, Debug, PartialEq, Eq, Error)]
pub enum NameFault {
    /// The word is not a name.
    #[error("the word is no name")]
    BadName,
    /// The name was added before.
    #[error("the name was added before")]
    NameTaken,
    /// An allocation failed.
    #[error("memory was refused")]
    Memory,
}

/// Different names with their targets, in the order in which they were added.
///
/// A look-up by name, by position or by target costs about the same at any number of names.
#[derive(Drop)]
pub struct Names {
    table: IndexMap<Vec<u8>, Target>,
    /// The position of each target's first name.
    firsts: IndexMap<Target, usize>,
}

impl Model for Names {
    ghost use Rattle.std.specs.Prelude.{ℕ, List};
    ghost use Rattle.ec_count.specs.declared.target.Target.{Target};

    ghost Value = { List (List ℕ × Target) };

    ghost use Rattle.ec_count.specs.Names.{KeepsNames, by_bytes};

    ghost view = { λ n. by_bytes n.table.entries };

    ghost invariant = { λ n. KeepsNames (by_bytes n.table.entries) n.firsts.entries };
}

impl Names {
    /// Makes an empty table, with room for a few names.
    pub fn new(alloc: Global) -> Result<Self, AllocError>
        ensures { IfOk result (λ names. names ≡ []) }
    {
        let table = IndexMap::with_capacity(alloc, 16)?;
        let firsts = IndexMap::with_capacity(alloc, 16)?;
        Ok(Names { table, firsts })
    }

    /// States that each word of the table is a name, and that no two are the same.
    pub fn invariant(&self)
        ensures { AreNames self.now }
    {
        let _table = &self.table;
    }

    /// Returns how many names were added.
    pub fn len(&self) -> usize
        ensures { result ≡ length self.now }
    {
        self.table.len()
    }

    /// Returns the target of the name; `None` if it was not added.
    pub fn find(&self, name: &str) -> Option<Target>
        ensures { result ≡ find_name name.now self.now }
    {
        self.find_bytes(name.as_bytes())
    }

    /// Returns the target of the name of these bytes; `None` if it was not added.
    pub fn find_bytes(&self, name: &[u8]) -> Option<Target>
        ensures { result ≡ find_name name.now self.now }
    {
        self.table.get(name).copied()
    }

    fn fault(&self, name: &[u8]) -> Option<NameFault>
        ensures { result ≡ name_fault name.now self.now }
    {
        if !is_name(name) {
            return Some(NameFault::BadName);
        }
        if self.find_bytes(name).is_some() {
            return Some(NameFault::NameTaken);
        }
        None
    }

    /// Adds a name at the end, or returns the first fault that applies and changes nothing.
    pub fn add(&mut self, name: &str, target: Target) -> Result<(), NameFault>
        ensures fault { MatchOption (name_fault name.now self.old) (IfErr result (λ fault. fault ≡ NameFault.Memory)) (λ fault. result ≡ Err fault) }
        ensures ok { OnOk result (self.new ≡ self.old ++ (name.now, target) ∷ []) }
        ensures err { OnErr result (self.new ≡ self.old) }
    {
        self.add_bytes(name.as_bytes(), target)
    }

    /// Adds the name of these bytes at the end, as `add` does.
    pub fn add_bytes(&mut self, name: &[u8], target: Target) -> Result<(), NameFault>
        ensures fault { MatchOption (name_fault name.now self.old) (IfErr result (λ fault. fault ≡ NameFault.Memory)) (λ fault. result ≡ Err fault) }
        ensures ok { OnOk result (self.new ≡ self.old ++ (name.now, target) ∷ []) }
        ensures err { OnErr result (self.new ≡ self.old) }
    {
        if let Some(fault) = self.fault(name) {
            return Err(fault);
        }
        let place = self.len();
        let Ok(key) = Vec::from_slice(*self.table.allocator(), name) else {
            return Err(NameFault::Memory);
        };
        let Ok(()) = self.firsts.reserve(1) else {
            return Err(NameFault::Memory);
        };
        let Ok(_) = self.table.insert(key, target) else {
            return Err(NameFault::Memory);
        };
        note_first(&mut self.firsts, &target, place);
        Ok(())
    }

    /// Returns the name at a position, and its target.
    pub fn at(&self, place: usize) -> Option<(&str, Target)>
        ensures { option_map (λ e. (e.0.now, e.1)) result ≡ slice_get self.now place }
    {
        match self.table.get_index(place) {
            None => None,
            Some((name, target)) => Some((name_text(name.as_slice()), *target)),
        }
    }

    /// Returns the position of the first name that was added for the target.
    fn name_index(&self, target: &Target) -> Option<usize>
        ensures { result ≡ name_index target.now self.now }
    {
        self.firsts.get(target).copied()
    }

    /// Returns the first name that was added for the target.
    pub fn name_of(&self, target: Target) -> Option<&str>
        ensures { option_map (λ name. name.now) result ≡ name_of target self.now }
    {
        let place = self.name_index(&target)?;
        match self.at(place) {
            None => None,
            Some((name, _)) => Some(name),
        }
    }
}

/// Stores the position of a target's name, unless one is stored for the target already.
fn note_first(firsts: &mut IndexMap<Target, usize>, target: &Target, place: usize)
    requires { 0 < spare firsts.old }
    ensures { (t : Target) → lookup (same_target t) firsts.new.entries ≡ with_first target.now place t (lookup (same_target t) firsts.old.entries) }
{
    if firsts.contains_key(target) {
        return;
    }
    let Ok(_) = firsts.insert(*target, place) else {
        unreachable!();
    };
}

/// Returns the text of a name.
fn name_text(name: &[u8]) -> &str
    requires { is_name name.now ≡ true }
    ensures { result.now ≡ name.now }
{
    match from_utf8(name) {
        Ok(text) => text,
        Err(_) => unreachable!(),
    }
}
