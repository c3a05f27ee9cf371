ghost use Rattle.std.specs.Prelude.{◌≡◌, length, nat_eq, slice_get, IfOk, OnOk};
ghost use Rattle.std.specs.List.{flat_map};
ghost use Rattle.hip_types.specs.Distinct.{met};
ghost use Rattle.hip_tree.specs.Sites.{instr_of};
ghost use Rattle.hip_calls.specs.Reach as spec;
ghost use Rattle.hip_calls.specs.Reach.{called_at, called_by, called_from, reached};

use crate::function_table::FunctionTable;
use hip_tree::{Block, Instr, Program, Site, instr_at};
use hip_types::{NoMemory, Row};
use indexmap::IndexSet;
use std::alloc::Global;

/// Adds the function that an instruction calls.
fn add_called(
    seen: &mut IndexSet<usize>,
    functions: &FunctionTable<'_>,
    instr: &Instr,
) -> Result<(), NoMemory>
    ensures { OnOk result (seen.new.keys ≡ met nat_eq seen.old.keys (called_by functions.now instr.now)) }
{
    if let Instr::Call { callee, .. } = instr {
        if let Some(number) = functions.number_of(callee.as_slice()) {
            let _is_new = seen.insert(number)?;
        }
    }
    Ok(())
}

/// Adds the functions that instructions call.
fn add_called_in_body(
    seen: &mut IndexSet<usize>,
    functions: &FunctionTable<'_>,
    body: &[Instr],
) -> Result<(), NoMemory>
    ensures { OnOk result (seen.new.keys ≡ met nat_eq seen.old.keys (flat_map (called_by functions.now) body.now)) }
{
    'instrs: for instr in body {
        add_called(seen, functions, instr)?;
    }
    Ok(())
}

/// Adds the functions that blocks call.
fn add_called_in_blocks(
    seen: &mut IndexSet<usize>,
    functions: &FunctionTable<'_>,
    blocks: &[Block],
) -> Result<(), NoMemory>
    ensures { OnOk result
        (seen.new.keys ≡
        met nat_eq seen.old.keys (flat_map (λ b. flat_map (called_by functions.now) b.body) blocks.now)) }
{
    'each: for block in blocks {
        add_called_in_body(seen, functions, block.body.as_slice())?;
    }
    Ok(())
}

/// Adds the functions that the function of a number calls.
fn add_called_from(
    seen: &mut IndexSet<usize>,
    functions: &FunctionTable<'_>,
    number: usize,
) -> Result<(), NoMemory>
    ensures { OnOk result (seen.new.keys ≡ met nat_eq seen.old.keys (called_from functions.now number)) }
{
    match functions.program().functions.get(number) {
        Some(function) => add_called_in_blocks(seen, functions, function.blocks.as_slice()),
        None => Ok(()),
    }
}

/// Adds the function that the call at a site calls.
fn add_called_at(
    seen: &mut IndexSet<usize>,
    functions: &FunctionTable<'_>,
    site: Site,
) -> Result<(), NoMemory>
    ensures { OnOk result
        (seen.new.keys ≡ met nat_eq seen.old.keys (called_at functions.now (instr_of functions.now site))) }
{
    match instr_at(functions.program(), site) {
        Some(instr) => add_called(seen, functions, instr),
        None => Ok(()),
    }
}

/// The callees of calls.
fn first_callees(
    alloc: Global,
    functions: &FunctionTable<'_>,
    calls: &[Site],
) -> Result<IndexSet<usize>, NoMemory>
    ensures { IfOk result (λ seen. seen.keys ≡ spec.first_callees functions.now calls.now) }
{
    let mut seen = IndexSet::new(alloc);
    'calls: for site in calls {
        add_called_at(&mut seen, functions, *site)?;
    }
    Ok(seen)
}

/// The number at a place of the list.
fn number_at(seen: &IndexSet<usize>, place: usize) -> Option<usize>
    ensures { result ≡ slice_get seen.now.keys place }
{
    seen.get_index(place).copied()
}

/// Adds the functions that calls reach from the functions in the list.
fn add_reached(seen: &mut IndexSet<usize>, functions: &FunctionTable<'_>) -> Result<(), NoMemory>
    ensures { OnOk result (seen.new.keys ≡ reached functions.now (length functions.now.functions) 0 seen.old.keys) }
{
    'places: for place in 0..functions.program().functions.len() {
        match number_at(seen, place) {
            Some(number) => add_called_from(seen, functions, number)?,
            None => return Ok(()),
        }
    }
    Ok(())
}

/// The numbers of the defined functions that calls reach from the calls at these sites, their callees included, each
/// once, in breadth-first order. A site that is no call of a defined function adds none.
///
/// Each function and each call is visited once; the memory is linear in the number of functions.
pub fn callees(alloc: Global, program: &Program, calls: &[Site]) -> Result<Row<usize>, NoMemory>
    ensures { IfOk result (λ found. found ≡ spec.callees program.now calls.now) }
{
    let functions = FunctionTable::new(alloc, program)?;
    let mut seen = first_callees(alloc, &functions, calls)?;
    add_reached(&mut seen, &functions)?;
    Row::from_slice(alloc, seen.as_slice())
}
