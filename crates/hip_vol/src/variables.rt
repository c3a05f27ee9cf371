ghost use Rattle.std.specs.Prelude.{◌≡◌, ◌<◌, [], ◌∷◌, length, Some, IfOk, OnOk, OnErr, position, slice_get};
ghost use Rattle.hip_types.specs.Distinct.{met};
ghost use Rattle.hip_vol.specs.Bounds.{same_variable};
ghost use Rattle.hip_vol.specs.Tables.{variable_of};

use hip_types::NoMemory;
use indexmap::IndexSet;
use std::alloc::Global;
use std::marker::Model;

/// What has a level: a register of a function, or the result of a function, each by the function's number.
#[derive(Clone, Copy, PartialEq, Eq, Hash)]
pub enum Variable<'p> {
    Register(usize, &'p [u8]),
    Result(usize),
}

/// The least level that a rule allows: a known one, or the one at an offset from a variable's.
#[derive(Clone, Copy)]
pub enum Bound<'p> {
    Known(u8),
    AtOffset(u64, Variable<'p>),
}

/// Distinct variables, numbered from 0 in the order in which they were inserted.
#[derive(Drop)]
pub struct VariableSet<'p> {
    variables: IndexSet<Variable<'p>>,
}

impl<'p> Model for VariableSet<'p> {
    ghost use Rattle.std.specs.Prelude.{List, map};
    ghost use Rattle.hip_vol.specs.Bounds as seen;
    ghost use Rattle.hip_vol.specs.Tables.{variable_of};

    ghost Value = { List seen.Variable };

    ghost view = { λ s. map variable_of s.variables.keys };
}

impl<'p> VariableSet<'p> {
    pub fn new(alloc: Global) -> VariableSet<'p>
        ensures { result ≡ [] }
    {
        VariableSet {
            variables: IndexSet::new(alloc),
        }
    }

    /// The number of a variable, which is inserted if it is new.
    pub fn insert(&mut self, variable: Variable<'p>) -> Result<usize, NoMemory>
        ensures there { IfOk result (λ number. slice_get self.new number ≡ Some (variable_of variable.entry)) }
        ensures variables { OnOk result (self.new ≡ met same_variable self.old (variable_of variable.entry ∷ [])) }
        ensures err { OnErr result (self.new ≡ self.old) }
    {
        match self.variables.insert_full(variable) {
            Ok((number, _is_new)) => Ok(number),
            Err(_) => Err(NoMemory),
        }
    }

    /// How many variables there are.
    pub fn len(&self) -> usize
        ensures { result ≡ length self.now }
    {
        self.variables.len()
    }

    pub fn number_of(&self, variable: Variable<'_>) -> Option<usize>
        ensures { result ≡ position (same_variable (variable_of variable.entry)) self.now }
    {
        self.variables.get_index_of(&variable)
    }
}
