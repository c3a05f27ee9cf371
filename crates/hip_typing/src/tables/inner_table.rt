ghost use Rattle.std.specs.Prelude.{◌+◌, ◌<◌, ◌^◌, [], ◌∷◌, map, IfOk, OnOk};
ghost use Rattle.hip_typing.specs.Seen.Inner as spec;
ghost use Rattle.hip_names.specs.Tables.{Gains};
ghost use Rattle.hip_sound.specs.Names.{numbered};
ghost use Rattle.hip_sound.specs.Declarations.{instr_declared, body_declared, block_declared, blocks_declared};
ghost use Rattle.hip_typing.specs.Seen.Inner.{entries, inner_entries};
ghost use Rattle.hip_names.specs.Tables.{TableStandsFor};

use crate::tables::registers::assigned_by;
use hip_names::NameTable;
use hip_tree::{Block, Function, Instr, Param, Phi};
use hip_types::{Name, NoMemory};
use std::alloc::Global;

/// What a name of a function denotes. Blocks are numbered from 0.
#[derive(Clone, Copy)]
pub enum Inner {
    Parameter,
    Label(usize),
    /// A register, by the block that assigns it and how many instructions of the body come before it can be used.
    Assigned { block: usize, after: usize },
}

/// The names of a function's parameters, blocks and registers.
pub type InnerTable<'a> = NameTable<'a, Inner>;

fn add_name<'a>(table: &mut InnerTable<'a>, name: &'a Name, inner: Inner) -> Result<(), NoMemory>
    ensures { OnOk result
        (Gains table.old.names table.old.values table.new.names table.new.values (spec.entry name.now inner ∷ [])) }
{
    table.add(name.as_slice(), inner)?;
    Ok(())
}

fn add_params<'a>(table: &mut InnerTable<'a>, params: &'a [Param]) -> Result<(), NoMemory>
    ensures { OnOk result
        (Gains table.old.names table.old.values table.new.names table.new.values (map entries.parameter params.now)) }
{
    table.reserve(params.len())?;
    'params: for param in params {
        add_name(table, &param.name, Inner::Parameter)?;
    }
    Ok(())
}

fn add_phis<'a>(table: &mut InnerTable<'a>, block: usize, phis: &'a [Phi]) -> Result<(), NoMemory>
    ensures { OnOk result
        (Gains table.old.names table.old.values table.new.names table.new.values
        (numbered (entries.phi block) phis.now)) }
{
    'phis: for phi in phis {
        add_name(table, &phi.dest, Inner::Assigned { block, after: 0 })?;
    }
    Ok(())
}

fn add_assigned<'a>(
    table: &mut InnerTable<'a>,
    block: usize,
    index: usize,
    instr: &'a Instr,
) -> Result<(), NoMemory>
    requires { index + 1 < 2 ^ 64 }
    ensures { OnOk result
        (Gains table.old.names table.old.values table.new.names table.new.values
        (instr_declared (entries.instr block) index instr.now)) }
{
    let inner = Inner::Assigned {
        block,
        after: index + 1,
    };
    match assigned_by(instr) {
        Some(register) => add_name(table, register.name, inner),
        None => Ok(()),
    }
}

fn add_body<'a>(table: &mut InnerTable<'a>, block: usize, body: &'a [Instr]) -> Result<(), NoMemory>
    ensures { OnOk result
        (Gains table.old.names table.old.values table.new.names table.new.values
        (body_declared (entries.instr block) body.now)) }
{
    'instrs: for index in 0..body.len() {
        add_assigned(table, block, index, &body[index])?;
    }
    Ok(())
}

fn add_block<'a>(
    table: &mut InnerTable<'a>,
    number: usize,
    block: &'a Block,
) -> Result<(), NoMemory>
    ensures { OnOk result
        (Gains table.old.names table.old.values table.new.names table.new.values
        (block_declared entries number block.now)) }
{
    add_name(table, &block.label, Inner::Label(number))?;
    add_phis(table, number, block.phis.as_slice())?;
    add_body(table, number, block.body.as_slice())?;
    Ok(())
}

fn add_blocks<'a>(table: &mut InnerTable<'a>, blocks: &'a [Block]) -> Result<(), NoMemory>
    ensures { OnOk result
        (Gains table.old.names table.old.values table.new.names table.new.values (blocks_declared entries blocks.now)) }
{
    'each_block: for number in 0..blocks.len() {
        add_block(table, number, &blocks[number])?;
    }
    Ok(())
}

/// The names of a function.
pub fn inner_table(alloc: Global, function: &Function) -> Result<InnerTable<'_>, NoMemory>
    ensures { IfOk result (λ table. TableStandsFor table.names table.values (inner_entries function.now)) }
{
    let mut table = NameTable::new(alloc);
    add_params(&mut table, function.params.as_slice())?;
    add_blocks(&mut table, function.blocks.as_slice())?;
    Ok(table)
}
