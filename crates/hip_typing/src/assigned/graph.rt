ghost use Rattle.std.specs.Prelude.{[], ◌≡◌, ◌++◌, map, IfOk, OnOk, MatchOption};
ghost use Rattle.hip_typing.specs.Seen.Inner.{block_number, label_numbers};
ghost use Rattle.hip_sound.specs.Registers.{end_labels};
ghost use Rattle.hip_names.specs.Tables.{value_beside};
ghost use Rattle.hip_typing.specs.declared.tables.inner_table.Inner.TheVariants as inner;

use crate::tables::inner_table::{Inner, InnerTable};
use hip_tree::{Block, Case, End};
use hip_types::{Name, NoMemory, Row};
use std::alloc::Global;

/// The number of the block that a label names, if there is one.
pub fn block_of(names: &InnerTable<'_>, label: &Name) -> Option<usize>
    ensures { MatchOption result (block_number (value_beside names.now.names names.now.values label.now) ≡ [])
        (λ number. value_beside names.now.names names.now.values label.now ≡ Some (inner.Label number)) }
{
    match names.get(label.as_slice()) {
        Some(Inner::Label(number)) => Some(number),
        Some(Inner::Parameter) => None,
        Some(Inner::Assigned { .. }) => None,
        None => None,
    }
}

/// Adds the number of the block that a label names, if there is one.
fn push_label(
    numbers: &mut Row<usize>,
    names: &InnerTable<'_>,
    label: &Name,
) -> Result<(), NoMemory>
    ensures { OnOk result
        (numbers.new ≡ numbers.old ++ block_number (value_beside names.now.names names.now.values label.now)) }
{
    match block_of(names, label) {
        Some(number) => numbers.push(number),
        None => Ok(()),
    }
}

/// Adds the numbers of the blocks that the cases of a switch go to.
fn push_cases(
    numbers: &mut Row<usize>,
    names: &InnerTable<'_>,
    cases: &[Case],
) -> Result<(), NoMemory>
    ensures { OnOk result
        (numbers.new ≡ numbers.old ++ label_numbers names.now.names names.now.values
        (map (λ c. c.label) cases.now)) }
{
    'cases: for case in cases {
        push_label(numbers, names, &case.label)?;
    }
    Ok(())
}

/// Adds the numbers of the blocks that the end of a block names.
fn push_end(numbers: &mut Row<usize>, names: &InnerTable<'_>, end: &End) -> Result<(), NoMemory>
    ensures { OnOk result
        (numbers.new ≡ numbers.old ++ label_numbers names.now.names names.now.values (end_labels end.now)) }
{
    match end {
        End::Br { label } => push_label(numbers, names, label),
        End::CondBr { yes, no, .. } => {
            push_label(numbers, names, yes)?;
            push_label(numbers, names, no)
        }
        End::Switch { other, cases, .. } => {
            push_label(numbers, names, other)?;
            push_cases(numbers, names, cases.as_slice())
        }
        End::Ret(_) => Ok(()),
        End::Unreachable => Ok(()),
    }
}

/// For each block the numbers of the blocks that its end names.
pub fn flow_graph(
    alloc: Global,
    names: &InnerTable<'_>,
    blocks: &[Block],
) -> Result<Row<Row<usize>>, NoMemory>
    ensures { IfOk result
        (λ graph. graph
        ≡ map (λ block. label_numbers names.now.names names.now.values (end_labels block.end)) blocks.now) }
{
    let mut graph = Row::new(alloc);
    'each_block: for block in blocks {
        let mut numbers = Row::new(alloc);
        push_end(&mut numbers, names, &block.end)?;
        graph.push(numbers)?;
    }
    Ok(graph)
}
