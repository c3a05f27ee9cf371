ghost use Rattle.std.specs.Prelude.{IfOk, MatchOption};
ghost use Rattle.hip_names.specs.Names.{IsAmong};
ghost use Rattle.hip_sound.specs.Registers.{end_labels};
ghost use Rattle.hip_end_ops.specs.Edged.{Earlier, HasEdge, IsSource, IsTarget, LeadFrom, NewEdge};
ghost use Rattle.hip_scope.specs.Grown.{grown};
ghost use Rattle.hip_scope.specs.Scopes.{DescribesScope};

use crate::phis::phi_moves;
use hip_code::{OpEdge, Span};
use hip_scope::{Growing, Scope, number_at, place};
use hip_tree::Block;
use hip_types::{Name, NoMemory, Row};

/// A block, its number, and the number of the first edge that leads from it.
#[derive(Drop)]
pub struct EdgeSource<'a> {
    pub block: &'a Block,
    pub number: usize,
    pub first: usize,
}

/// The number of an edge to a block that exists already, if `made` has one for this block. The number in `made` counts
/// only if its edge leads from the source to that block.
fn earlier(tables: &Growing, made: &Row<u32>, first: usize, target: usize) -> Option<u32>
    ensures { MatchOption result (Unit {0}) (λ number. Earlier (grown tables.now) first target number) }
{
    let number = *made.get(target)?;
    let edge = tables.edges.get(number as usize)?;
    if number as usize >= first && edge.block as usize == target {
        Some(number)
    } else {
        None
    }
}

/// Makes an edge to the block of that number, with the moves of its phis.
fn new_edge(
    scope: &Scope<'_, '_>,
    tables: &mut Growing,
    source: &EdgeSource<'_>,
    target: usize,
) -> Result<u32, NoMemory>
    requires scope { DescribesScope scope.now }
    requires source { IsSource scope.now source.now }
    requires target { IsTarget scope.now source.now target }
    ensures { IfOk result (λ number. NewEdge scope.now (grown tables.old)
        (grown tables.new) source.now.number number target) }
{
    let to = match scope.function.blocks.get(target) {
        Some(block) => block,
        None => unreachable!(),
    };
    let numbers = match scope.sources.get(target) {
        Some(numbers) => numbers,
        None => unreachable!(),
    };
    let from = place(tables.moves.len())?;
    let count = place(to.phis.len())?;
    phi_moves(
        scope,
        tables,
        &source.block.label,
        to.phis.as_slice(),
        numbers,
    )?;
    let number = place(tables.edges.len())?;
    let block = place(target)?;
    let begins = number_at(scope.places.as_slice(), target);
    tables.edges.push(OpEdge {
        target: begins,
        block,
        moves: Span { from, count },
    })?;
    Ok(number)
}

/// Puts the number of the edge to a block into `made`, if `made` has a place for the block.
fn keep(made: &mut Row<u32>, target: usize, number: u32) {
    if target < made.len() {
        made.set(target, number);
    }
}

/// The edge from a block to the block with a label. If `made` has a place for each block of the function, there is only
/// one edge between two blocks, however often an end names its label.
pub fn edge(
    scope: &Scope<'_, '_>,
    tables: &mut Growing,
    made: &mut Row<u32>,
    source: &EdgeSource<'_>,
    label: &Name,
) -> Result<u32, NoMemory>
    requires scope { DescribesScope scope.now }
    requires source { IsSource scope.now source.now }
    requires lead { LeadFrom scope.now source.now.number source.now.first (grown tables.old) }
    requires named { IsAmong (end_labels source.now.block.now.«end») label.now }
    ensures { IfOk result (λ number. HasEdge scope.now (grown tables.old)
        (grown tables.new) source.now number label.now) }
{
    let target = match scope.labels.number_of(label.as_slice()) {
        Some(number) => number,
        None => unreachable!(),
    };
    if let Some(number) = earlier(tables, made, source.first, target) {
        return Ok(number);
    }
    let number = new_edge(scope, tables, source, target)?;
    keep(made, target, number);
    Ok(number)
}
