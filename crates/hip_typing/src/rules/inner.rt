ghost use Rattle.std.specs.Prelude.{◌≡◌, ◌++◌, OnOk, map};
ghost use Rattle.hip_typing.specs.Seen.Answers.{Answers};
ghost use Rattle.hip_sound.specs.Requirement.{each};
ghost use Rattle.hip_typing.specs.Seen.NamesSeen.{seen};
ghost use Rattle.hip_sound.specs.Names.{numbered};
ghost use Rattle.hip_sound.specs.Declarations.{instr_declared, body_declared, block_declared, blocks_declared};
ghost use Rattle.hip_sound.specs.Rules.{named_in, inner_required, inner_names_required};

use crate::refused::Refused;
use crate::rules::named::{NamedPlace, verify_all_differ};
use crate::tables::registers::assigned_by;
use hip_sound::Place;
use hip_tree::{Block, Function, Instr, Param, Phi, Program, Site};
use hip_types::{NoMemory, Row};
use std::alloc::Global;

/// Adds the names of parameters.
fn push_params<'a>(
    names: &mut Row<NamedPlace<'a>>,
    function: usize,
    params: &'a [Param],
) -> Result<(), NoMemory>
    ensures { OnOk result (seen names.new ≡ seen names.old ++ map (named_in function).parameter params.now) }
{
    'params: for number in 0..params.len() {
        names.push(NamedPlace {
            name: params[number].name.as_slice(),
            place: Place::Head(function),
        })?;
    }
    Ok(())
}

/// Adds the registers that phis assign.
fn push_phis<'a>(
    names: &mut Row<NamedPlace<'a>>,
    function: usize,
    block: usize,
    phis: &'a [Phi],
) -> Result<(), NoMemory>
    ensures { OnOk result (seen names.new ≡ seen names.old ++ numbered ((named_in function).phi block) phis.now) }
{
    'phis: for index in 0..phis.len() {
        names.push(NamedPlace {
            name: phis[index].dest.as_slice(),
            place: Place::Phi(Site {
                function,
                block,
                index,
            }),
        })?;
    }
    Ok(())
}

/// Adds the register that an instruction assigns.
fn push_instr<'a>(
    names: &mut Row<NamedPlace<'a>>,
    site: Site,
    instr: &'a Instr,
) -> Result<(), NoMemory>
    ensures { OnOk result
        (seen names.new ≡ seen names.old ++ instr_declared
        ((named_in site.function).instr site.block) site.index instr.now) }
{
    match assigned_by(instr) {
        Some(register) => names.push(NamedPlace {
            name: register.name.as_slice(),
            place: Place::Body(site),
        }),
        None => Ok(()),
    }
}

/// Adds the registers that a body assigns.
fn push_body<'a>(
    names: &mut Row<NamedPlace<'a>>,
    function: usize,
    block: usize,
    body: &'a [Instr],
) -> Result<(), NoMemory>
    ensures { OnOk result (seen names.new ≡ seen names.old
        ++ body_declared ((named_in function).instr block) body.now) }
{
    'body: for index in 0..body.len() {
        let site = Site {
            function,
            block,
            index,
        };
        push_instr(names, site, &body[index])?;
    }
    Ok(())
}

/// Adds a block's label and the registers that it assigns.
fn push_block<'a>(
    names: &mut Row<NamedPlace<'a>>,
    function: usize,
    number: usize,
    block: &'a Block,
) -> Result<(), NoMemory>
    ensures { OnOk result (seen names.new ≡ seen names.old ++ block_declared (named_in function) number block.now) }
{
    names.push(NamedPlace {
        name: block.label.as_slice(),
        place: Place::Head(function),
    })?;
    push_phis(names, function, number, block.phis.as_slice())?;
    push_body(names, function, number, block.body.as_slice())
}

/// Adds the labels of blocks and the registers that they assign.
fn push_blocks<'a>(
    names: &mut Row<NamedPlace<'a>>,
    function: usize,
    blocks: &'a [Block],
) -> Result<(), NoMemory>
    ensures { OnOk result (seen names.new ≡ seen names.old ++ blocks_declared (named_in function) blocks.now) }
{
    'each_block: for number in 0..blocks.len() {
        push_block(names, function, number, &blocks[number])?;
    }
    Ok(())
}

fn verify_inner(alloc: Global, number: usize, function: &Function) -> Result<(), Refused>
    ensures { Answers result (inner_required number function.now).found }
{
    let mut names = Row::new(alloc);
    push_params(&mut names, number, function.params.as_slice())?;
    push_blocks(&mut names, number, function.blocks.as_slice())?;
    verify_all_differ(alloc, names.as_slice())
}

fn verify_functions(alloc: Global, functions: &[Function]) -> Result<(), Refused>
    ensures { Answers result (each inner_required functions.now).found }
{
    'functions: for number in 0..functions.len() {
        if let Err(refused) = verify_inner(alloc, number, &functions[number]) {
            return Err(refused);
        }
    }
    Ok(())
}

/// Verifies that the parameters, labels and registers of a function differ: first the parameters, then for each block its
/// label, its phis and its body.
pub fn verify_registers(alloc: Global, program: &Program) -> Result<(), Refused>
    ensures { Answers result (inner_names_required program.now).found }
{
    verify_functions(alloc, program.functions.as_slice())
}
