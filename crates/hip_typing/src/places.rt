ghost use Rattle.hip_typing.specs.Seen.Answers.{Answers};
ghost use Rattle.hip_sound.specs.Requirement.{each};
ghost use Rattle.hip_typing.specs.Seen.InstrSeen.{instr_found};
ghost use Rattle.hip_typing.specs.Seen.PhiSeen.{phi_found};
ghost use Rattle.hip_sound.specs.Places as spec;
ghost use Rattle.hip_sound.specs.Rules.{phi_at, instr_at, block_required, function_required, places_required};
ghost use Rattle.hip_typing.specs.Seen.TablesSeen.{DescribesProgram, DescribesFunction, scope_in};

pub mod edges;
pub mod ends;
pub mod instrs;
pub mod operands;
pub mod targets;
pub mod uses;

use crate::places::edges::{edge_labels_known, edges_agree};
use crate::places::ends::verify_end;
use crate::places::instrs::{callee_known, instr_agrees, written_fits};
use crate::places::operands::{
    edges_fit, edges_have_type, edges_known, uses_agree, uses_fit, uses_known,
};
use crate::places::uses::Uses;
use crate::refused::{Refused, ask};
use crate::rules::globals::names_of_globals;
use crate::tables::callees::{CalleeTable, callees_of};
use crate::tables::registers::{RegisterTable, registers_of};
use crate::tables::{FunctionTables, ProgramTables, tables_of_function, tables_of_program};
use hip_names::NameSet;
use hip_sound::{Fault, Place};
use hip_tree::{Block, Function, Instr, Phi, Program, Site};
use std::alloc::Global;

/// Verifies an instruction: names exist, types that are written there fit, and types agree.
pub fn verify_instr(
    registers: &RegisterTable<'_>,
    globals: &NameSet<'_>,
    callees: &CalleeTable<'_>,
    instr: &Instr,
    place: Place,
) -> Result<(), Refused>
    ensures { Answers result
        (instr_found registers.now.names registers.now.values globals.now callees.now.names callees.now.values instr.now
        place) }
{
    let uses = Uses::of_instr(instr);
    ask(
        uses_known(registers, globals, &uses) && callee_known(callees, instr),
        Fault::Unknown,
        place,
    )?;
    ask(
        written_fits(instr) && uses_fit(&uses),
        Fault::TooLarge,
        place,
    )?;
    ask(
        uses_agree(registers, &uses) && instr_agrees(callees, instr),
        Fault::Mismatch,
        place,
    )
}

/// Verifies a phi: names exist, types that are written there fit, types agree, and its edges are those of its block's
/// predecessors.
fn verify_phi(
    alloc: Global,
    program: &ProgramTables<'_>,
    function: &FunctionTables<'_>,
    before: &NameSet<'_>,
    phi: &Phi,
    place: Place,
) -> Result<(), Refused>
    ensures { Answers result
        (phi_found function.now.registers.names function.now.registers.values program.now.globals function.now.labels
        before.now phi.now place) }
{
    let edges = phi.edges.as_slice();
    ask(
        edges_known(&function.registers, &program.globals, phi)
            && edge_labels_known(&function.labels, edges),
        Fault::Unknown,
        place,
    )?;
    ask(edges_fit(phi), Fault::TooLarge, place)?;
    ask(
        edges_have_type(&function.registers, phi),
        Fault::Mismatch,
        place,
    )?;
    ask(edges_agree(alloc, before, edges)?, Fault::BadEdge, place)
}

/// Verifies the phis of the block of that label.
fn verify_phis(
    alloc: Global,
    program: &ProgramTables<'_>,
    function: &FunctionTables<'_>,
    site: (usize, usize),
    label: &[u8],
    phis: &[Phi],
) -> Result<(), Refused>
    requires program { DescribesProgram program.now }
    requires function { DescribesFunction function.now }
    ensures { Answers result
        (each (phi_at (scope_in program.now function.now) label.now site.0 site.1) phis.now).found }
{
    let nobody = NameSet::new(alloc);
    let before = function.before.at(label, &nobody);
    'phis: for index in 0..phis.len() {
        let place = Place::Phi(Site {
            function: site.0,
            block: site.1,
            index,
        });
        if let Err(refused) = verify_phi(alloc, program, function, before, &phis[index], place) {
            return Err(refused);
        }
    }
    Ok(())
}

/// Verifies the instructions of a block's body.
fn verify_body(
    program: &ProgramTables<'_>,
    function: &FunctionTables<'_>,
    site: (usize, usize),
    body: &[Instr],
) -> Result<(), Refused>
    requires program { DescribesProgram program.now }
    requires function { DescribesFunction function.now }
    ensures { Answers result (each (instr_at (scope_in program.now function.now) site.0 site.1) body.now).found }
{
    'body: for index in 0..body.len() {
        let place = Place::Body(Site {
            function: site.0,
            block: site.1,
            index,
        });
        if let Err(refused) = verify_instr(
            &function.registers,
            &program.globals,
            &program.callees,
            &body[index],
            place,
        ) {
            return Err(refused);
        }
    }
    Ok(())
}

/// Verifies a block: its phis, its body, its end.
fn verify_block(
    alloc: Global,
    program: &ProgramTables<'_>,
    function: &FunctionTables<'_>,
    site: (usize, usize),
    block: &Block,
) -> Result<(), Refused>
    requires program { DescribesProgram program.now }
    requires function { DescribesFunction function.now }
    ensures { Answers result (block_required (scope_in program.now function.now) site.0 site.1 block.now).found }
{
    verify_phis(
        alloc,
        program,
        function,
        site,
        block.label.as_slice(),
        block.phis.as_slice(),
    )?;
    verify_body(program, function, site, block.body.as_slice())?;
    let place = Place::End {
        function: site.0,
        block: site.1,
    };
    verify_end(alloc, program, function, &block.end, place)
}

/// Verifies the blocks of a function.
fn verify_blocks(
    alloc: Global,
    program: &ProgramTables<'_>,
    function: &FunctionTables<'_>,
    number: usize,
    blocks: &[Block],
) -> Result<(), Refused>
    requires program { DescribesProgram program.now }
    requires function { DescribesFunction function.now }
    ensures { Answers result (each (block_required (scope_in program.now function.now) number) blocks.now).found }
{
    'each_block: for block in 0..blocks.len() {
        if let Err(refused) = verify_block(
            alloc,
            program,
            function,
            (number, block),
            &blocks[block],
        ) {
            return Err(refused);
        }
    }
    Ok(())
}

/// Verifies the places of a function.
fn verify_function(
    alloc: Global,
    program: &ProgramTables<'_>,
    number: usize,
    function: &Function,
) -> Result<(), Refused>
    requires { DescribesProgram program.now }
    ensures { Answers result (function_required program.now.program.now number function.now).found }
{
    let tables = tables_of_function(alloc, function)?;
    verify_blocks(alloc, program, &tables, number, function.blocks.as_slice())
}

fn verify_functions(
    alloc: Global,
    program: &ProgramTables<'_>,
    functions: &[Function],
) -> Result<(), Refused>
    requires { DescribesProgram program.now }
    ensures { Answers result (each (function_required program.now.program.now) functions.now).found }
{
    'functions: for number in 0..functions.len() {
        if let Err(refused) = verify_function(alloc, program, number, &functions[number]) {
            return Err(refused);
        }
    }
    Ok(())
}

/// Verifies each place of each function.
pub fn verify_places(alloc: Global, program: &Program) -> Result<(), Refused>
    ensures { Answers result (places_required program.now).found }
{
    let tables = tables_of_program(alloc, program)?;
    verify_functions(alloc, &tables, program.functions.as_slice())
}
