ghost use Rattle.std.specs.Prelude.{◌≡◌, IfOk, map};
ghost use Rattle.hip_names.specs.Names.{Knows};
ghost use Rattle.hip_typing.specs.Seen.TablesSeen.{DescribesProgram, DescribesFunction};

pub mod callees;
pub mod inner_table;
pub mod predecessors;
pub mod registers;

use crate::rules::globals::names_of_globals;
use crate::tables::callees::{CalleeTable, callees_of};
use crate::tables::predecessors::{Predecessors, predecessors_of};
use crate::tables::registers::{RegisterTable, registers_of};
use hip_names::NameSet;
use hip_tree::{Block, Function, Program};
use hip_types::NoMemory;
use std::alloc::Global;

/// What the functions of a program may name outside themselves.
#[derive(Drop)]
pub struct ProgramTables<'a> {
    pub program: &'a Program,
    pub globals: NameSet<'a>,
    pub callees: CalleeTable<'a>,
}

/// What the places of a function may name inside it.
#[derive(Drop)]
pub struct FunctionTables<'a> {
    pub function: &'a Function,
    pub registers: RegisterTable<'a>,
    pub labels: NameSet<'a>,
    pub before: Predecessors<'a>,
}

/// The labels of the blocks.
fn labels_of(alloc: Global, blocks: &[Block]) -> Result<NameSet<'_>, NoMemory>
    ensures { IfOk result (λ labels. Knows labels (map (λ b. b.label) blocks.now)) }
{
    let mut labels = NameSet::new(alloc);
    'each: for block in blocks {
        let _is_new = labels.insert(block.label.as_slice())?;
    }
    Ok(labels)
}

pub fn tables_of_program(alloc: Global, program: &Program) -> Result<ProgramTables<'_>, NoMemory>
    ensures describes { IfOk result (λ tables. DescribesProgram tables) }
    ensures program { IfOk result (λ tables. tables.program.now ≡ program.now) }
{
    let globals = names_of_globals(alloc, program.globals.as_slice())?;
    let callees = callees_of(alloc, program)?;
    Ok(ProgramTables {
        program,
        globals,
        callees,
    })
}

pub fn tables_of_function(
    alloc: Global,
    function: &Function,
) -> Result<FunctionTables<'_>, NoMemory>
    ensures describes { IfOk result (λ tables. DescribesFunction tables) }
    ensures function { IfOk result (λ tables. tables.function.now ≡ function.now) }
{
    let registers = registers_of(alloc, function)?;
    let labels = labels_of(alloc, function.blocks.as_slice())?;
    let before = predecessors_of(alloc, function.blocks.as_slice())?;
    Ok(FunctionTables {
        function,
        registers,
        labels,
        before,
    })
}
