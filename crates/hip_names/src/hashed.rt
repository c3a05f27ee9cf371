ghost use Rattle.std.specs.Prelude.{◌≡◌, ◌<◌, ◌≤◌, ◌^◌, [], ◌∷◌, ◌++◌, length, map, if◌then◌else◌, not, IfOk, IfSome, OnErr};
ghost use Rattle.hip_names.specs.Names.{is_among, number_of};

use hip_types::NoMemory;
use indexmap::IndexSet;
use std::alloc::Global;
use std::marker::Model;

/// The greatest number of names. No machine has the memory for more.
const MOST: usize = 1 << 62;

/// Names that differ, numbered from 0 in the order of insertion and found by their hashes.
#[derive(Drop)]
pub struct HashedNames<'a> {
    // None until it holds names, or room for them: an empty hash table takes 112 bytes, and this takes 16.
    names: Option<Box<IndexSet<&'a [u8]>>>,
}

impl<'a> Model for HashedNames<'a> {
    ghost use Rattle.std.specs.Prelude.{List, ℕ, ◌≤◌, ◌^◌, length};
    ghost use Rattle.hip_names.specs.Names.{names_in};

    ghost Value = { List (List ℕ) };

    ghost view = { λ s. names_in (λ b. b.value.keys) s.names };

    ghost invariant = { λ s. length (names_in (λ b. b.value.keys) s.names) ≤ 2 ^ 62 };
}

// Inserts a name, and answers whether it is new.
fn insert_into<'a>(names: &mut IndexSet<&'a [u8]>, name: &'a [u8]) -> Result<bool, NoMemory>
    requires { length names.old.keys ≤ 2 ^ 62 }
    ensures new { IfOk result (λ is_new. is_new ≡ not (is_among (map (λ n. n.now) names.old.keys) name.now)) }
    ensures names { IfOk result (λ is_new. map (λ n. n.now) names.new.keys
        ≡ (if is_new then map (λ n. n.now) names.old.keys ++ name.now ∷ [] else map (λ n. n.now) names.old.keys)) }
    ensures err { OnErr result (names.new.keys ≡ names.old.keys) }
    ensures few { length names.new.keys ≤ 2 ^ 62 }
{
    if names.len() >= MOST {
        return Err(NoMemory);
    }
    match names.insert(name) {
        Ok(is_new) => Ok(is_new),
        Err(_) => Err(NoMemory),
    }
}

// Takes the memory that further names need.
fn reserve_in(names: &mut IndexSet<&[u8]>, more: usize) -> Result<(), NoMemory>
    ensures { names.new.keys ≡ names.old.keys }
{
    match names.reserve(more) {
        Ok(()) => Ok(()),
        Err(_) => Err(NoMemory),
    }
}

// An empty set with the memory for `count` names.
fn room_for<'a>(alloc: Global, count: usize) -> Result<Box<IndexSet<&'a [u8]>>, NoMemory>
    ensures { IfOk result (λ names. names.value.keys ≡ []) }
{
    let mut names = IndexSet::new(alloc);
    reserve_in(&mut names, count)?;
    match Box::new(alloc, names) {
        Ok(names) => Ok(names),
        Err(_) => Err(NoMemory),
    }
}

// A set of one name.
fn set_of(alloc: Global, name: &[u8]) -> Result<Box<IndexSet<&[u8]>>, NoMemory>
    ensures { IfOk result (λ names. map (λ n. n.now) names.value.keys ≡ name.now ∷ []) }
{
    let mut names = IndexSet::new(alloc);
    let _is_new = insert_into(&mut names, name)?;
    match Box::new(alloc, names) {
        Ok(names) => Ok(names),
        Err(_) => Err(NoMemory),
    }
}

impl<'a> HashedNames<'a> {
    /// No names. They take no memory.
    pub(crate) fn new() -> HashedNames<'a>
        ensures { result ≡ [] }
    {
        HashedNames { names: None }
    }

    /// Inserts a name, and answers whether it is new. A name that is not new changes nothing.
    pub(crate) fn insert(&mut self, alloc: Global, name: &'a [u8]) -> Result<bool, NoMemory>
        ensures new { IfOk result (λ is_new. is_new ≡ not (is_among self.old name.now)) }
        ensures names { IfOk result (λ is_new. self.new
            ≡ (if is_new then self.old ++ name.now ∷ [] else self.old)) }
        ensures err { OnErr result (self.new ≡ self.old) }
    {
        match &mut self.names {
            Some(names) => insert_into(names, name),
            None => {
                self.names = Some(set_of(alloc, name)?);
                Ok(true)
            }
        }
    }

    /// Takes the memory that `more` further names need. The names stay as they are.
    pub(crate) fn reserve(&mut self, alloc: Global, more: usize) -> Result<(), NoMemory>
        ensures { self.new ≡ self.old }
    {
        match &mut self.names {
            Some(names) => reserve_in(names, more),
            None => {
                self.names = Some(room_for(alloc, more)?);
                Ok(())
            }
        }
    }

    /// The names in order.
    pub(crate) fn as_slice(&self) -> &[&'a [u8]]
        ensures names { map (λ n. n.now) result.now ≡ self.now }
        ensures few { length result.now ≤ 2 ^ 62 }
    {
        match &self.names {
            Some(names) => names.as_slice(),
            None => &[],
        }
    }

    /// The number of a name.
    pub(crate) fn number_of(&self, name: &[u8]) -> Option<usize>
        ensures number { result ≡ number_of self.now name.now }
        ensures small { IfSome result (λ number. number < 2 ^ 62) }
    {
        match &self.names {
            Some(names) => names.get_index_of(name),
            None => None,
        }
    }
}
