//! The kinds of declarations, and the form of each.
ghost use Rattle.std.specs.Prelude.{◌≡◌, option_map};
ghost use Rattle.ec_heading.specs.DeclKinds.{sort_word, sort_of, has_name, has_number, least, greatest, is_in_range, is_called, opener, second_opener, needs_second, needs_disjoint_lists};

use ec_count::is_name;
use ec_semaphore::INITIAL_MAX;

/// The kind of a declaration.
#[derive(Clone, Copy, Debug, PartialEq, Eq)]
pub enum DeclKind {
    EventCount,
    Sequencer,
    Cells,
    Buffer,
    Database,
    Semaphore,
    Both,
}

/// Returns the kind of declaration that a word opens.
pub fn sort_of(word: &[u8]) -> Option<DeclKind>
    ensures { result ≡ sort_of word.now }
{
    if word == b"eventcount".as_slice() {
        return Some(DeclKind::EventCount);
    }
    if word == b"sequencer".as_slice() {
        return Some(DeclKind::Sequencer);
    }
    if word == b"cells".as_slice() {
        return Some(DeclKind::Cells);
    }
    if word == b"buffer".as_slice() {
        return Some(DeclKind::Buffer);
    }
    if word == b"database".as_slice() {
        return Some(DeclKind::Database);
    }
    if word == b"semaphore".as_slice() {
        return Some(DeclKind::Semaphore);
    }
    if word == b"both".as_slice() {
        return Some(DeclKind::Both);
    }
    None
}

impl DeclKind {
    /// Returns the word that opens such a declaration.
    pub fn word(self) -> &'static [u8]
        ensures { result.now ≡ sort_word self }
    {
        match self {
            DeclKind::EventCount => b"eventcount".as_slice(),
            DeclKind::Sequencer => b"sequencer".as_slice(),
            DeclKind::Cells => b"cells".as_slice(),
            DeclKind::Buffer => b"buffer".as_slice(),
            DeclKind::Database => b"database".as_slice(),
            DeclKind::Semaphore => b"semaphore".as_slice(),
            DeclKind::Both => b"both".as_slice(),
        }
    }

    /// Returns whether a name follows that word.
    pub fn has_name(self) -> bool
        ensures { result ≡ has_name self }
    {
        !matches!(self, DeclKind::Both)
    }

    /// Returns whether a declaration of this kind may be called so.
    ///
    /// That is by a name, or by the kind's own word if its form has no name.
    pub fn is_called(self, name: &[u8]) -> bool
        ensures { result ≡ is_called self name.now }
    {
        if self.has_name() {
            is_name(name)
        } else {
            name == self.word()
        }
    }

    /// Returns whether a number follows the name.
    pub fn has_number(self) -> bool
        ensures { result ≡ has_number self }
    {
        self.greatest() > 0
    }

    /// Returns the least number of such a declaration, 0 if its form has none.
    fn least(self) -> u64
        ensures { result ≡ least self }
    {
        match self {
            DeclKind::EventCount | DeclKind::Sequencer | DeclKind::Semaphore | DeclKind::Both => 0,
            DeclKind::Cells | DeclKind::Buffer | DeclKind::Database => 1,
        }
    }

    /// Returns the greatest number of such a declaration, 0 if its form has none.
    fn greatest(self) -> u64
        ensures { result ≡ greatest self }
    {
        match self {
            DeclKind::EventCount | DeclKind::Sequencer | DeclKind::Both => 0,
            DeclKind::Cells | DeclKind::Buffer | DeclKind::Database => 256,
            DeclKind::Semaphore => INITIAL_MAX,
        }
    }

    /// Returns whether a declaration of this kind may have this number.
    pub fn is_in_range(self, number: u64) -> bool
        ensures { result ≡ is_in_range self number }
    {
        self.least() <= number && number <= self.greatest()
    }

    /// Returns the word before the first list.
    pub fn opener(self) -> &'static [u8]
        ensures { result.now ≡ opener self }
    {
        match self {
            DeclKind::EventCount => b"signal".as_slice(),
            DeclKind::Sequencer => b"take".as_slice(),
            DeclKind::Cells => b"write".as_slice(),
            DeclKind::Buffer => b"produce".as_slice(),
            DeclKind::Database => b"write".as_slice(),
            DeclKind::Semaphore => b"use".as_slice(),
            DeclKind::Both => b"use".as_slice(),
        }
    }

    /// Returns the word before the second list; `None` if its form has no second list.
    pub fn second_opener(self) -> Option<&'static [u8]>
        ensures { option_map (λ w. w.now) result ≡ second_opener self }
    {
        match self {
            DeclKind::EventCount => Some(b"observe".as_slice()),
            DeclKind::Sequencer | DeclKind::Semaphore | DeclKind::Both => None,
            DeclKind::Cells | DeclKind::Database => Some(b"read".as_slice()),
            DeclKind::Buffer => Some(b"consume".as_slice()),
        }
    }

    /// Returns whether the second list must be there.
    pub fn needs_second(self) -> bool
        ensures { result ≡ needs_second self }
    {
        matches!(self, DeclKind::Buffer | DeclKind::Database)
    }

    /// Returns whether no worker may be in both lists.
    pub fn needs_disjoint_lists(self) -> bool
        ensures { result ≡ needs_disjoint_lists self }
    {
        matches!(self, DeclKind::Database | DeclKind::Buffer)
    }
}
