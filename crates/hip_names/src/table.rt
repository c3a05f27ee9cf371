ghost use Rattle.std.specs.Prelude.{◌≡◌, List, [], ◌∷◌, ◌++◌, IfOk, OnErr};
ghost use Rattle.hip_names.specs.Tables.{Entry, TableStandsFor, value_beside};

use crate::names::NameSet;
use hip_types::{NoMemory, Row};
use std::alloc::Global;

/// Values by names. The first value of a name counts.
#[derive(Drop)]
pub struct NameTable<'a, V> {
    pub names: NameSet<'a>,
    pub values: Row<V>,
}

impl<'a, V> NameTable<'a, V> {
    /// A table without names. It takes no memory.
    pub fn new(alloc: Global) -> NameTable<'a, V>
        ensures { TableStandsFor result.names result.values [] }
    {
        NameTable {
            names: NameSet::new(alloc),
            values: Row::new(alloc),
        }
    }
}

impl<'a, V: Copy> NameTable<'a, V> {
    /// Takes the memory that `more` further names need. The table stays as it is.
    pub fn reserve(&mut self, more: usize) -> Result<(), NoMemory>
        ensures names { self.new.names ≡ self.old.names }
        ensures values { self.new.values ≡ self.old.values }
    {
        self.values.reserve(more)?;
        self.names.reserve(more)
    }

    /// The value of a name.
    pub fn get(&self, name: &[u8]) -> Option<V>
        ensures { result ≡ value_beside self.now.names self.now.values name.now }
    {
        match self.names.number_of(name) {
            Some(number) => self.values.get(number).copied(),
            None => None,
        }
    }

    /// Adds a value, unless its name has one. If there is no memory, the table stays as it is.
    pub fn add(&mut self, name: &'a [u8], value: V) -> Result<(), NoMemory>
        ensures ok { IfOk result (λ _. (entries : List (Entry V)) →
            TableStandsFor self.old.names self.old.values entries →
            TableStandsFor self.new.names self.new.values (entries ++ record { name = name.now; value = value } ∷ [])) }
        ensures err { OnErr result ((self.new.names ≡ self.old.names) × (self.new.values ≡ self.old.values)) }
    {
        let len = self.values.len();
        self.values.push(value)?;
        match self.names.insert(name) {
            Ok(true) => Ok(()),
            Ok(false) => {
                self.values.truncate(len);
                Ok(())
            }
            Err(NoMemory) => {
                self.values.truncate(len);
                Err(NoMemory)
            }
        }
    }
}
