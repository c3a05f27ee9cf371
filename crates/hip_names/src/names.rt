ghost use Rattle.std.specs.Prelude.{◌≡◌, ◌<◌, ◌^◌, [], ◌∷◌, ◌++◌, length, map, if◌then◌else◌, not, IfOk, OnErr};
ghost use Rattle.std.specs.List.{list_all};
ghost use Rattle.hip_names.specs.Names.{is_among, number_of};

use crate::hashed::HashedNames;
use hip_types::{NoMemory, Row};
use std::alloc::Global;
use std::marker::Model;

/// Up to this number of names, a set takes memory only for the references to them.
const FEW: usize = 4;

/// Names that differ, numbered from 0 in the order of insertion.
#[derive(Drop)]
pub struct NameSet<'a> {
    alloc: Global,
    /// The first names, at most `FEW`.
    few: Row<&'a [u8]>,
    /// The names after them.
    more: HashedNames<'a>,
}

impl<'a> Model for NameSet<'a> {
    ghost use Rattle.std.specs.Prelude.{List, ℕ, map, ◌++◌};
    ghost use Rattle.hip_names.specs.Names.{IsFilled};

    ghost Value = { List (List ℕ) };

    ghost view = { λ s. map (λ name. name.now) s.few ++ s.more };

    ghost invariant = { λ s. IsFilled s.few s.more };
}

/// The number of the first of these names that is this one.
fn number_in(names: &[&[u8]], name: &[u8]) -> Option<usize>
    ensures { result ≡ number_of (map (λ n. n.now) names.now) name.now }
{
    'each: for number in 0..names.len() {
        if name == names[number] {
            return Some(number);
        }
    }
    None
}

/// Whether each of these names is one of the others.
fn all_within(names: &[&[u8]], others: &NameSet<'_>) -> bool
    ensures { result ≡ list_all (is_among others.now) (map (λ n. n.now) names.now) }
{
    'each: for name in names {
        if !others.contains(name) {
            return false;
        }
    }
    true
}

impl<'a> NameSet<'a> {
    /// A set without names. It takes no memory.
    pub fn new(alloc: Global) -> NameSet<'a>
        ensures { result ≡ [] }
    {
        NameSet {
            alloc,
            few: Row::new(alloc),
            more: HashedNames::new(),
        }
    }

    /// Inserts a name, and answers whether it is new. A name that is not new changes nothing.
    pub fn insert(&mut self, name: &'a [u8]) -> Result<bool, NoMemory>
        ensures new { IfOk result (λ is_new. is_new ≡ not (is_among self.old name.now)) }
        ensures names { IfOk result (λ is_new. self.new
            ≡ (if is_new then self.old ++ name.now ∷ [] else self.old)) }
        ensures err { OnErr result (self.new ≡ self.old) }
    {
        if number_in(self.few.as_slice(), name).is_some() {
            return Ok(false);
        }
        if self.few.len() < FEW {
            self.few.push(name)?;
            return Ok(true);
        }
        self.more.insert(self.alloc, name)
    }

    /// Takes the memory that `more` further names need. The names stay as they are.
    pub fn reserve(&mut self, more: usize) -> Result<(), NoMemory>
        ensures { self.new ≡ self.old }
    {
        if more <= FEW {
            return Ok(());
        }
        self.more.reserve(self.alloc, more)
    }

    /// The number of names.
    pub fn len(&self) -> usize
        ensures length { result ≡ length self.now }
        ensures small { result < 2 ^ 63 }
    {
        self.few.len() + self.more.as_slice().len()
    }

    /// Whether a name is one of these.
    pub fn contains(&self, name: &[u8]) -> bool
        ensures { result ≡ is_among self.now name.now }
    {
        self.number_of(name).is_some()
    }

    /// The number of a name.
    pub fn number_of(&self, name: &[u8]) -> Option<usize>
        ensures { result ≡ number_of self.now name.now }
    {
        match number_in(self.few.as_slice(), name) {
            Some(number) => Some(number),
            None => {
                let number = self.more.number_of(name)?;
                Some(self.few.len() + number)
            }
        }
    }

    /// Whether each of these names is one of the others.
    pub fn is_within(&self, others: &NameSet<'_>) -> bool
        ensures { result ≡ list_all (is_among others.now) self.now }
    {
        all_within(self.few.as_slice(), others) && all_within(self.more.as_slice(), others)
    }
}
