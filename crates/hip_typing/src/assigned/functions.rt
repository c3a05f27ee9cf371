ghost use Rattle.std.specs.Prelude.{◌<◌, length};
ghost use Rattle.hip_typing.specs.Seen.AssignedSeen.{DescribesPaths, AnswersUses, AnswersAssigned};
ghost use Rattle.hip_globals.specs.Constants.{joined};
ghost use Rattle.hip_sound.specs.Sound.{names_in_function};
ghost use Rattle.hip_names.specs.Names.{AllDiffer};
ghost use Rattle.hip_sound.specs.Names.{numbered};
ghost use Rattle.hip_sound.specs.Rules.{site, edge_register_uses, phi_register_uses, instr_register_uses, end_register_uses, block_register_uses, register_uses, inner_names_required};
ghost use Rattle.hip_sound.specs.declared.fault.Place.TheVariants as places;

use crate::assigned::graph::{block_of, flow_graph};
use crate::assigned::{NamedBody, NotAssigned, verify_operand, verify_uses};
use crate::places::uses::Uses;
use crate::tables::inner_table::{InnerTable, inner_table};
use hip_paths::Paths;
use hip_sound::{Place, Point};
use hip_tree::{Block, Edge, End, Function, Instr, Phi, Program, Site};
use hip_types::{Row, Scalar};
use std::alloc::Global;

/// Verifies that the operand of a phi's edge is assigned on every path to the end of the predecessor.
fn verify_edge(
    body: &NamedBody<'_, '_>,
    place: Place,
    ty: Scalar,
    edge: &Edge,
) -> Result<(), NotAssigned>
    requires { DescribesPaths body.now.function.now body.now.names.now.names body.now.names.now.values body.now.paths.now }
    ensures { AnswersUses body.now.function.now result
        (edge_register_uses body.now.function.now.blocks place ty edge.now) }
{
    match block_of(body.names, &edge.label) {
        Some(block) => verify_operand(body, place, block, Point::AtEnd, &edge.value),
        None => Ok(()),
    }
}

/// Verifies the operands of a phi.
fn verify_phi(body: &NamedBody<'_, '_>, place: Place, phi: &Phi) -> Result<(), NotAssigned>
    requires { DescribesPaths body.now.function.now body.now.names.now.names body.now.names.now.values body.now.paths.now }
    ensures { AnswersUses body.now.function.now result (phi_register_uses body.now.function.now.blocks place phi.now) }
{
    let edges = phi.edges.as_slice();
    'each: for index in 0..edges.len() {
        let edge = &edges[index];
        if let Err(refused) = verify_edge(body, place, phi.ty, edge) {
            return Err(refused);
        }
    }
    Ok(())
}

/// Verifies the operands of a block's phis.
fn verify_phis(
    body: &NamedBody<'_, '_>,
    function: usize,
    block: usize,
    phis: &Row<Phi>,
) -> Result<(), NotAssigned>
    requires { DescribesPaths body.now.function.now body.now.names.now.names body.now.names.now.values body.now.paths.now }
    ensures { AnswersUses body.now.function.now result
        (joined
        (numbered
        (λ i p. phi_register_uses body.now.function.now.blocks (places.Phi (site function block i)) p) phis.now)) }
{
    let items = phis.as_slice();
    'each: for index in 0..items.len() {
        let phi = &items[index];
        let place = Place::Phi(Site {
            function,
            block,
            index,
        });
        if let Err(refused) = verify_phi(body, place, phi) {
            return Err(refused);
        }
    }
    Ok(())
}

/// Verifies that what an instruction uses is assigned on every path to it.
fn verify_instr(body: &NamedBody<'_, '_>, site: Site, instr: &Instr) -> Result<(), NotAssigned>
    requires body { DescribesPaths body.now.function.now
        body.now.names.now.names body.now.names.now.values body.now.paths.now }
    requires block { site.block < length body.now.function.now.blocks }
    ensures { AnswersUses body.now.function.now result
        (instr_register_uses site.function site.block site.index instr.now) }
{
    let uses = Uses::of_instr(instr);
    verify_uses(
        body,
        Place::Body(site),
        site.block,
        Point::Before(site.index),
        &uses,
    )
}

/// Verifies what the instructions of a block use.
fn verify_instrs(
    body: &NamedBody<'_, '_>,
    function: usize,
    block: usize,
    instrs: &Row<Instr>,
) -> Result<(), NotAssigned>
    requires body { DescribesPaths body.now.function.now
        body.now.names.now.names body.now.names.now.values body.now.paths.now }
    requires block { block < length body.now.function.now.blocks }
    ensures { AnswersUses body.now.function.now result
        (joined (numbered (instr_register_uses function block) instrs.now)) }
{
    let items = instrs.as_slice();
    'each: for index in 0..items.len() {
        let instr = &items[index];
        let site = Site {
            function,
            block,
            index,
        };
        if let Err(refused) = verify_instr(body, site, instr) {
            return Err(refused);
        }
    }
    Ok(())
}

/// Verifies that what the end of a block uses is assigned on every path to it.
fn verify_end(
    body: &NamedBody<'_, '_>,
    function: usize,
    block: usize,
    end: &End,
) -> Result<(), NotAssigned>
    requires body { DescribesPaths body.now.function.now
        body.now.names.now.names body.now.names.now.values body.now.paths.now }
    requires block { block < length body.now.function.now.blocks }
    ensures { AnswersUses body.now.function.now result (end_register_uses function block end.now) }
{
    let uses = Uses::of_end(end);
    verify_uses(
        body,
        Place::End { function, block },
        block,
        Point::AtEnd,
        &uses,
    )
}

/// Verifies what a block uses: in its phis, its instructions, its end.
fn verify_block(
    body: &NamedBody<'_, '_>,
    function: usize,
    number: usize,
    block: &Block,
) -> Result<(), NotAssigned>
    requires body { DescribesPaths body.now.function.now
        body.now.names.now.names body.now.names.now.values body.now.paths.now }
    requires block { number < length body.now.function.now.blocks }
    ensures { AnswersUses body.now.function.now result
        (block_register_uses body.now.function.now.blocks function number block.now) }
{
    if let Err(refused) = verify_phis(body, function, number, &block.phis) {
        return Err(refused);
    }
    if let Err(refused) = verify_instrs(body, function, number, &block.body) {
        return Err(refused);
    }
    verify_end(body, function, number, &block.end)
}

/// Verifies what a function uses, block by block.
fn verify_blocks(body: &NamedBody<'_, '_>, function: usize) -> Result<(), NotAssigned>
    requires { DescribesPaths body.now.function.now body.now.names.now.names body.now.names.now.values body.now.paths.now }
    ensures { AnswersUses body.now.function.now result (register_uses function body.now.function.now) }
{
    let blocks = body.function.blocks.as_slice();
    'each: for number in 0..blocks.len() {
        let block = &blocks[number];
        if let Err(refused) = verify_block(body, function, number, block) {
            return Err(refused);
        }
    }
    Ok(())
}

/// Verifies what a function uses, by its names and its graph.
fn verify_on_graph(
    alloc: Global,
    number: usize,
    function: &Function,
    names: &InnerTable<'_>,
    graph: &[Row<usize>],
) -> Result<(), NotAssigned>
    requires { DescribesPaths function.now names.now.names names.now.values graph.now }
    ensures { AnswersUses function.now result (register_uses number function.now) }
{
    let paths = Paths::new(alloc, graph)?;
    let body = NamedBody {
        function,
        names,
        paths: &paths,
        alloc,
    };
    verify_blocks(&body, number)
}

/// Verifies that each use of a register in a function is assigned on every path to it. The time is linear in the
/// function's names and steps, times little more than the logarithm of the number of its blocks.
fn verify_function(alloc: Global, number: usize, function: &Function) -> Result<(), NotAssigned>
    requires { AllDiffer (names_in_function function.now) }
    ensures { AnswersUses function.now result (register_uses number function.now) }
{
    let names = inner_table(alloc, function)?;
    let graph = flow_graph(alloc, &names, function.blocks.as_slice())?;
    verify_on_graph(alloc, number, function, &names, graph.as_slice())
}

/// Verifies that each use of a register is assigned on every path to it. The first use that is not is refused, with a
/// path that does not assign it.
pub fn verify_assigned(alloc: Global, program: &Program) -> Result<(), NotAssigned>
    requires { (inner_names_required program.now).Holds }
    ensures { AnswersAssigned result program.now }
{
    let functions = program.functions.as_slice();
    'each: for number in 0..functions.len() {
        let function = &functions[number];
        if let Err(refused) = verify_function(alloc, number, function) {
            return Err(refused);
        }
    }
    Ok(())
}
