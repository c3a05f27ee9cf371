ghost use Rattle.std.specs.Prelude.{map, IfOk};
ghost use Rattle.hip_names.specs.Numbered.{NumbersNames};
ghost use Rattle.hip_scope.specs.PhiNumbers.{NumbersPhis};

use hip_names::NameTable;
use hip_scope::{EdgeNumbers, place};
use hip_tree::{Edge, Phi};
use hip_types::{NoMemory, Row};
use std::alloc::Global;

fn edge_numbers(alloc: Global, edges: &[Edge]) -> Result<EdgeNumbers<'_>, NoMemory>
    ensures { IfOk result (λ table. NumbersNames table.names table.values (map (λ e. e.label) edges.now)) }
{
    let mut numbers = NameTable::new(alloc);
    'each: for number in 0..edges.len() {
        numbers.add(edges[number].label.as_slice(), place(number)?)?;
    }
    Ok(numbers)
}

/// The numbers of the edges of each phi.
pub fn numbers_of_phis(alloc: Global, phis: &[Phi]) -> Result<Row<EdgeNumbers<'_>>, NoMemory>
    ensures { IfOk result (λ tables. NumbersPhis tables phis.now) }
{
    let mut tables = Row::new(alloc);
    'each: for number in 0..phis.len() {
        let phi = &phis[number];
        let table = edge_numbers(alloc, phi.edges.as_slice())?;
        tables.push(table)?;
    }
    Ok(tables)
}
