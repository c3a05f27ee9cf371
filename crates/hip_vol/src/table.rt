ghost use Rattle.std.specs.Prelude.{◌≡◌, ◌<◌, [], ◌∷◌, ◌++◌, length, is_some, IfOk, OnOk};
ghost use Rattle.hip_vol.specs.Closed.{IsLeast};
ghost use Rattle.hip_vol.specs.Numbered.{LeastIsWithin};
ghost use Rattle.hip_vol.specs.Tables.{VariablesGrow, IsSmall, bound_of, least_named, level_among, variable_at, variable_of};

use crate::numbered::{FREE, Least, LevelRule};
use crate::propagation::solve;
use crate::variables::{Bound, Variable, VariableSet};
use hip_types::{NoMemory, Row};
use std::alloc::Global;
use std::marker::Model;

/// Rules, whose variables are numbered in order of appearance. Contracts see the rules.
#[derive(Drop)]
pub struct RuleTable<'p> {
    variables: VariableSet<'p>,
    rules: Row<LevelRule>,
}

impl<'p> Model for RuleTable<'p> {
    ghost use Rattle.std.specs.Prelude.{List, map};
    ghost use Rattle.hip_vol.specs.Bounds as seen;
    ghost use Rattle.hip_vol.specs.Tables.{IsNumberedTable, named};

    ghost Value = { List seen.LevelRule };

    ghost view = { λ t. map (named t.variables) t.rules };

    ghost invariant = { λ t. IsNumberedTable t.variables t.rules };
}

/// The number of a variable. A new variable gets the next number.
fn number<'p>(variables: &mut VariableSet<'p>, variable: Variable<'p>) -> Result<usize, NoMemory>
    ensures grows { VariablesGrow variables.old variables.new }
    ensures within { IfOk result (λ number. number < length variables.new) }
    ensures there { IfOk result (λ number. variable_at variables.new number ≡ variable_of variable.entry) }
{
    variables.insert(variable)
}

/// A bound, with its variable by its number.
fn numbered_least<'p>(variables: &mut VariableSet<'p>, least: Bound<'p>) -> Result<Least, NoMemory>
    requires { IsSmall least }
    ensures grows { VariablesGrow variables.old variables.new }
    ensures within { IfOk result (λ numbered. LeastIsWithin (length variables.new) numbered) }
    ensures there { IfOk result (λ numbered. least_named variables.new numbered ≡ bound_of least.entry) }
{
    match least {
        Bound::Known(level) => Ok(Least::Known(level)),
        Bound::AtOffset(offset, other) => Ok(Least::AtOffset {
            offset,
            variable: number(variables, other)?,
        }),
    }
}

impl<'p> RuleTable<'p> {
    /// No rules. It takes no memory.
    pub fn new(alloc: Global) -> RuleTable<'p>
        ensures { result ≡ [] }
    {
        RuleTable {
            variables: VariableSet::new(alloc),
            rules: Row::new(alloc),
        }
    }

    /// Adds a rule.
    pub fn add(&mut self, variable: Variable<'p>, least: Bound<'p>) -> Result<(), NoMemory>
        requires { IsSmall least }
        ensures { OnOk result (self.new
            ≡ self.old ++ record { variable = variable_of variable.entry; least = bound_of least.entry } ∷ []) }
    {
        let variable = number(&mut self.variables, variable)?;
        let least = numbered_least(&mut self.variables, least)?;
        self.rules.push(LevelRule { variable, least })
    }

    /// The least levels that meet the rules. The time is linear in the rules times 33 at most.
    pub fn solve(self, alloc: Global) -> Result<LevelTable<'p>, NoMemory>
        ensures { IfOk result (λ levels. IsLeast self.entry (level_among levels)) }
    {
        let RuleTable { variables, rules } = self;
        let levels = solve(alloc, rules.as_slice(), variables.len())?;
        Ok(LevelTable { variables, levels })
    }
}

/// Variables and their levels. Contracts see the list of both.
#[derive(Drop)]
pub struct LevelTable<'p> {
    variables: VariableSet<'p>,
    levels: Row<u8>,
}

impl<'p> Model for LevelTable<'p> {
    ghost use Rattle.std.specs.Prelude.{List};
    ghost use Rattle.hip_vol.specs.Tables.{Leveled, leveled};

    ghost Value = { List Leveled };

    ghost view = { λ t. leveled t.variables t.levels };
}

impl<'p> LevelTable<'p> {
    /// Whether the level of a variable is not Free.
    pub fn is_low(&self, variable: Variable<'_>) -> bool
        ensures { result ≡ is_some (level_among self.now (variable_of variable.entry)) }
    {
        match self.variables.number_of(variable) {
            Some(number) => match self.levels.get(number) {
                Some(level) => *level < FREE,
                None => true,
            },
            None => true,
        }
    }
}
