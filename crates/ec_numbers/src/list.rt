//! A list of numbers in 32 bits each, or in 64.
ghost use Rattle.std.specs.Prelude.{◌≡◌, ◌+◌, ◌^◌, ◌≤◌, ◌<◌, true, false, [], ◌∷◌, ◌++◌, length, take, slice_get, slice_index, vec_len, IfOk, IfSome, OnOk, OnErr};
ghost use Rattle.std.specs.List.{insert};
ghost use Rattle.std.specs.Vec.{vec_capacity};
ghost use Rattle.ec_numbers.specs.Numbers.{HasRoom, is_wide_with};

use std::alloc::{AllocError, Global};
use std::marker::Model;

/// The least number that needs 64 bits.
const WIDE: u64 = 1 << 32;

/// Numbers, in 32 bits each or in 64.
#[derive(Drop)]
enum Width {
    Narrow(Vec<u32>),
    Wide(Vec<u64>),
}

/// A list of numbers in 32 bits each, or in 64.
///
/// The first number that does not fit in 32 bits widens the whole list, which then stays wide.
#[derive(Drop)]
pub struct NumberList {
    list: Width,
}

impl Model for NumberList {
    ghost use Rattle.ec_numbers.specs.Numbers.{NumberListModel, numbers_in};

    ghost Value = { NumberListModel };

    ghost view = { λ s. numbers_in s.list };
}

/// Returns the numbers of a list in 64 bits each, with room for one more.
fn widen(list: &Vec<u32>) -> Result<Vec<u64>, AllocError>
    ensures items { IfOk result (λ wide. wide.items ≡ list.now.items) }
    ensures room { IfOk result (λ wide. vec_len wide < vec_capacity wide) }
{
    let mut wide = Vec::with_capacity(*list.allocator(), list.len() + 1)?;
    for narrow in list {
        wide.push_reserved(*narrow as u64);
    }
    Ok(wide)
}

/// Makes room for one more if there is none, and changes nothing if there is.
#[inline(always)]
fn make_room_in<T: Copy>(list: &mut Vec<T>) -> Result<(), AllocError>
    ensures items { list.new.items ≡ list.old.items }
    ensures len { vec_len list.new ≡ vec_len list.old }
    ensures room { OnOk result (vec_len list.new < vec_capacity list.new) }
    ensures kept { vec_len list.old < vec_capacity list.old
        → vec_capacity list.new ≡ vec_capacity list.old }
    ensures err { OnErr result (vec_capacity list.new ≡ vec_capacity list.old) }
    ensures full { OnErr result (vec_capacity list.old ≤ vec_len list.old) }
{
    if list.len() < list.capacity() {
        return Ok(());
    }
    list.reserve(1)
}

/// Inserts a number at a position of a list that has room for it.
#[inline(always)]
fn put_in<T: Copy>(list: &mut Vec<T>, place: usize, number: T)
    requires room { vec_len list.old < vec_capacity list.old }
    requires within { place ≤ length list.old.items }
    ensures items { list.new.items ≡ insert list.old.items place number }
    ensures len { vec_len list.new ≡ vec_len list.old + 1 }
    ensures capacity { vec_capacity list.new ≡ vec_capacity list.old }
{
    if place == list.len() {
        list.push_reserved(number);
        return;
    }
    let _ = list.insert(place, number);
}

impl NumberList {
    /// Makes an empty list of numbers of 32 bits, without allocating.
    pub fn new(alloc: Global) -> Self
        ensures { result ≡ record { list = []; wide = false; room = 0 } }
    {
        NumberList {
            list: Width::Narrow(Vec::new(alloc)),
        }
    }

    /// Returns how many numbers there are.
    pub fn len(&self) -> usize
        ensures { result ≡ length self.now.list }
    {
        match &self.list {
            Width::Narrow(list) => list.len(),
            Width::Wide(list) => list.len(),
        }
    }

    /// Returns the number at a position, counted from 0.
    #[inline(always)]
    pub fn at(&self, place: usize) -> u64
        requires { place < length self.now.list }
        ensures { result ≡ slice_index self.now.list place }
    {
        match &self.list {
            Width::Narrow(list) => list[place] as u64,
            Width::Wide(list) => list[place],
        }
    }

    /// Returns the number at a position, counted from 0; `None` if the list ends before it.
    #[inline(always)]
    pub fn get(&self, place: usize) -> Option<u64>
        ensures value { result ≡ slice_get self.now.list place }
        ensures within { IfSome result (λ _. place + 1 < 2 ^ 64) }
    {
        if place < self.len() {
            Some(self.at(place))
        } else {
            None
        }
    }

    /// Widens each number to 64 bits, and makes room for one more.
    ///
    /// It is not inlined into `reserve_for`, which is inlined into its callers: a list widens at
    /// most once.
    #[inline(never)]
    fn widen(&mut self) -> Result<(), AllocError>
        ensures same { self.new.list ≡ self.old.list }
        ensures wide { OnOk result (self.new.wide ≡ true) }
        ensures room { OnOk result (0 < self.new.room) }
        ensures err { OnErr result (self.new ≡ self.old) }
    {
        match &mut self.list {
            Width::Narrow(list) => self.list = Width::Wide(widen(list)?),
            Width::Wide(list) => list.reserve(1)?,
        }
        Ok(())
    }

    /// Makes room for this number, or changes nothing if there is room.
    ///
    /// There is no room if the list is full, or if this is its first number that needs 64 bits.
    #[inline(always)]
    pub fn reserve_for(&mut self, number: u64) -> Result<(), AllocError>
        ensures same { self.new.list ≡ self.old.list }
        ensures room { OnOk result (HasRoom self.new number) }
        ensures wide { OnOk result (self.new.wide ≡ is_wide_with self.old number) }
        ensures kept { HasRoom self.old number → self.new ≡ self.old }
        ensures err { OnErr result (self.new ≡ self.old) }
        ensures full { OnErr result (HasRoom self.old number → ⊥) }
    {
        match &mut self.list {
            Width::Narrow(_) if number >= WIDE => self.widen()?,
            Width::Narrow(list) => make_room_in(list)?,
            Width::Wide(list) => make_room_in(list)?,
        }
        Ok(())
    }

    /// Adds a number at the end of a list that has room for it, without allocating.
    #[inline(always)]
    fn put(&mut self, number: u64)
        requires { HasRoom self.old number }
        ensures list { self.new.list ≡ self.old.list ++ number ∷ [] }
        ensures wide { self.new.wide ≡ self.old.wide }
        ensures room { self.new.room + 1 ≡ self.old.room }
    {
        match &mut self.list {
            Width::Narrow(list) => list.push_reserved(number as u32),
            Width::Wide(list) => list.push_reserved(number),
        }
    }

    /// Adds a number at the end; if an allocation fails, changes nothing.
    ///
    /// If there is room for the number, nothing is allocated.
    #[inline(always)]
    pub fn push(&mut self, number: u64) -> Result<(), AllocError>
        ensures ok { OnOk result (self.new.list ≡ self.old.list ++ number ∷ []) }
        ensures wide { OnOk result (self.new.wide ≡ is_wide_with self.old number) }
        ensures in_place { HasRoom self.old number → self.new.room + 1 ≡ self.old.room }
        ensures err { OnErr result (self.new ≡ self.old) }
        ensures full { OnErr result (HasRoom self.old number → ⊥) }
    {
        self.reserve_for(number)?;
        self.put(number);
        Ok(())
    }

    /// Inserts a number at a position, usually the end, without allocating.
    ///
    /// The list has room for it.
    pub fn insert(&mut self, place: usize, number: u64)
        requires room { HasRoom self.old number }
        requires within { place ≤ length self.old.list }
        ensures list { self.new.list ≡ insert self.old.list place number }
        ensures wide { self.new.wide ≡ self.old.wide }
        ensures room { self.new.room + 1 ≡ self.old.room }
    {
        match &mut self.list {
            Width::Narrow(list) => put_in(list, place, number as u32),
            Width::Wide(list) => put_in(list, place, number),
        }
    }

    /// Keeps the first n numbers, and the memory and width of the list.
    pub fn truncate(&mut self, n: usize)
        ensures list { self.new.list ≡ take n self.old.list }
        ensures wide { self.new.wide ≡ self.old.wide }
        ensures room { self.new.room + length self.new.list ≡ self.old.room + length self.old.list }
    {
        match &mut self.list {
            Width::Narrow(list) => list.truncate(n),
            Width::Wide(list) => list.truncate(n),
        }
    }
}
