ghost use Rattle.std.specs.Prelude.{◌≡◌, ◌+◌, ◌<◌, suc, length, slice_get, Some, IfOk};
ghost use Rattle.hip_sound.specs.Sound.{IsSound, register_names};
ghost use Rattle.hip_names.specs.Names.{AllDiffer};
ghost use Rattle.hip_code.specs.Entries.{entry, entry_in, entry_of};
ghost use Rattle.hip_code.specs.Frames.{names_at, names_in};
ghost use Rattle.hip_scope.specs.Listed.{Lists, RegistersDiffer, SourcesOf};
ghost use Rattle.hip_scope.specs.Scopes.{DescribesScope, IsKnown, OfFunctions};

use crate::extents::extents;
use crate::name_sets::{label_names, register_names};
use crate::phi_numbers::numbers_of_phis;
use hip_scope::{EdgeNumbers, Known, Scope, number_at, place};
use hip_tree::{Block, Function, Program};
use hip_types::{NoMemory, Row};
use std::alloc::Global;

/// The place after a block that begins at a place.
fn place_after(start: u32, block: &Block) -> Result<u32, NoMemory>
    ensures { IfOk result (λ next. next ≡ start + suc (length block.now.body)) }
{
    let len = place(block.body.len())?;
    place(start as usize + len as usize + 1)
}

/// The place after blocks the first of which begins at a place.
fn place_after_all(start: u32, blocks: &[Block]) -> Result<u32, NoMemory>
    ensures { IfOk result (λ next. next ≡ start + entry_in blocks.now (length blocks.now)) }
{
    let mut next = start;
    'each: for index in 0..blocks.len() {
        next = place_after(next, &blocks[index])?;
    }
    Ok(next)
}

fn starts_of(alloc: Global, functions: &[Function]) -> Result<Row<u32>, NoMemory>
    ensures { IfOk result (λ starts. Lists starts (length functions.now) (λ g. entry_of functions.now g 0)) }
{
    let mut starts = Row::new(alloc);
    let mut next = 0;
    'each: for index in 0..functions.len() {
        starts.push(next)?;
        next = place_after_all(next, functions[index].blocks.as_slice())?;
    }
    Ok(starts)
}

/// The places where the functions begin. Code that ends at 2^32 or later is out of memory.
pub fn starts(alloc: Global, program: &Program) -> Result<Row<u32>, NoMemory>
    ensures { IfOk result (λ starts. OfFunctions program.now starts (λ g. entry program.now g 0)) }
{
    let starts = starts_of(alloc, program.functions.as_slice())?;
    Ok(starts)
}

/// How many registers a function has.
fn size(alloc: Global, function: &Function) -> Result<u32, NoMemory>
    requires differ { AllDiffer (register_names function.now) }
    ensures { IfOk result (λ size. size ≡ length (register_names function.now)) }
{
    let names = register_names(alloc, function)?;
    place(names.len())
}

fn sizes_of(alloc: Global, functions: &[Function]) -> Result<Row<u32>, NoMemory>
    requires differ { RegistersDiffer functions.now }
    ensures { IfOk result (λ sizes. Lists sizes (length functions.now)
        (λ g. length (names_in (slice_get functions.now g)))) }
{
    let mut sizes = Row::new(alloc);
    'each: for index in 0..functions.len() {
        let size = size(alloc, &functions[index])?;
        sizes.push(size)?;
    }
    Ok(sizes)
}

/// How many registers the functions have. A function with 2^32 or more is out of memory.
pub fn sizes(alloc: Global, program: &Program) -> Result<Row<u32>, NoMemory>
    requires { IsSound program.now }
    ensures { IfOk result (λ sizes. OfFunctions program.now sizes (λ g. length (names_at program.now g))) }
{
    let sizes = sizes_of(alloc, program.functions.as_slice())?;
    Ok(sizes)
}

/// The places where blocks begin, the first of them at a place.
fn block_places(alloc: Global, start: u32, blocks: &[Block]) -> Result<Row<u32>, NoMemory>
    ensures { IfOk result (λ places. Lists places (length blocks.now) (λ b. start + entry_in blocks.now b)) }
{
    let mut places = Row::new(alloc);
    let mut next = start;
    'each: for index in 0..blocks.len() {
        places.push(next)?;
        next = place_after(next, &blocks[index])?;
    }
    Ok(places)
}

/// For each phi of each block the numbers of its edges.
fn phi_sources(alloc: Global, blocks: &[Block]) -> Result<Row<Row<EdgeNumbers<'_>>>, NoMemory>
    ensures { IfOk result (λ sources. SourcesOf sources blocks.now) }
{
    let mut sources = Row::new(alloc);
    'each: for index in 0..blocks.len() {
        let block = &blocks[index];
        let tables = numbers_of_phis(alloc, block.phis.as_slice())?;
        sources.push(tables)?;
    }
    Ok(sources)
}

/// What the instructions of the function of that number name.
///
/// It takes time and memory linear in the function's text.
pub fn scope_of<'p, 'a>(known: &Known<'p, 'a>, number: usize) -> Result<Scope<'p, 'a>, NoMemory>
    requires known { IsKnown known.now }
    requires number { number < length known.now.program.now.functions }
    ensures describes { IfOk result (λ s. DescribesScope s) }
    ensures program { IfOk result (λ s. s.program.now ≡ known.now.program.now) }
    ensures base { IfOk result (λ s. s.base ≡ known.now.base) }
    ensures number { IfOk result (λ s. s.number ≡ number) }
{
    match known.program.functions.get(number) {
        Some(function) => {
            let registers = register_names(known.alloc, function)?;
            let labels = label_names(known.alloc, function)?;
            let start = number_at(known.starts, number);
            let places = block_places(known.alloc, start, function.blocks.as_slice())?;
            let sources = phi_sources(known.alloc, function.blocks.as_slice())?;
            let extents = extents(known.alloc, &labels, registers.len(), function)?;
            Ok(Scope {
                alloc: known.alloc,
                program: known.program,
                base: known.base,
                addresses: known.addresses,
                functions: known.functions,
                starts: known.starts,
                sizes: known.sizes,
                number,
                function,
                registers,
                labels,
                places,
                sources,
                extents,
            })
        }
        None => unreachable!(),
    }
}
