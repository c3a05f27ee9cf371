//! The code of a whole program.

ghost use Rattle.std.specs.Prelude.{◌≡◌, ◌<◌, [], length, suc, IfOk};
ghost use Rattle.hip_globals.specs.Addresses.{IsBase};
ghost use Rattle.hip_globals.specs.AddressesSeen.{address_beside};
ghost use Rattle.hip_globals.specs.Values.{global_address};
ghost use Rattle.hip_sound.specs.NumberedNames.{function_names};
ghost use Rattle.hip_sound.specs.Sound.{IsSound};
ghost use Rattle.hip_code.specs.Entries.{entry};
ghost use Rattle.hip_code.specs.Numbers.{tables_of};
ghost use Rattle.hip_scope.specs.Grown.{grown};
ghost use Rattle.hip_resolve.specs.Made.{IsFront};
ghost use Rattle.hip_resolve.specs.ResolvedProgram.{AreWhole, IsResolved};
ghost use Rattle.hip_scope.specs.Scopes.{IsKnown};

use crate::name_sets::{function_names, global_addresses};
use crate::program::resolve_function;
use crate::scopes::{scope_of, sizes, starts};
use hip_code::{Code, Op};
use hip_globals::GlobalAddresses;
use hip_names::NameSet;
use hip_scope::{Growing, Known};
use hip_sound::Checked;
use hip_tree::Program;
use hip_types::{NoMemory, Row};
use std::alloc::Global;

/// The code of a sound program, if the region begins at a base: constants are numbers in it, and names are slots and
/// places. Time and memory are linear in the program's text. A program with 2^32 ops or more, or with as many entries
/// in a table, is out of memory.
pub fn resolve(alloc: Global, checked: &Checked, base: u64) -> Result<Code, NoMemory>
    requires { IsBase base }
    ensures { IfOk result (λ code. IsResolved checked.now base code) }
{
    let program = checked.program();
    let addresses = global_addresses(alloc, program, base)?;
    let functions = function_names(alloc, program)?;
    with_names(alloc, program, base, &addresses, &functions)
}

/// The code of a program whose addresses and function names are known.
fn with_names<'p, 'a>(
    alloc: Global,
    program: &'p Program,
    base: u64,
    addresses: &'a GlobalAddresses<'p>,
    functions: &'a NameSet<'p>,
) -> Result<Code, NoMemory>
    requires sound { IsSound program.now }
    requires addresses { address_beside addresses.now ≡ global_address program.now.globals base }
    requires functions { functions.now ≡ function_names program.now.functions }
    ensures { IfOk result (λ code. IsResolved program.now base code) }
{
    let starts = starts(alloc, program)?;
    let sizes = sizes(alloc, program)?;
    let made = whole_of(&Known {
        alloc,
        program,
        base,
        addresses,
        functions,
        starts: starts.as_slice(),
        sizes: sizes.as_slice(),
    })?;
    Ok(code_of(made, starts, sizes))
}

/// The ops of a program, and the tables whose entries they name.
#[derive(Drop)]
struct ResolvedOps {
    tables: Growing,
    ops: Row<Op>,
}

/// The ops of all functions, in order.
fn whole_of(known: &Known<'_, '_>) -> Result<ResolvedOps, NoMemory>
    requires { IsKnown known.now }
    ensures { IfOk result (λ made. AreWhole known.now.program.now known.now.base made.ops (grown made.tables)) }
{
    let mut tables = Growing::new(known.alloc);
    let mut ops = Row::new(known.alloc);
    add_functions(known, &mut tables, &mut ops)?;
    Ok(ResolvedOps { tables, ops })
}

/// The code of these ops, with the places where the functions begin and the numbers of their registers.
fn code_of(made: ResolvedOps, starts: Row<u32>, sizes: Row<u32>) -> Code
    ensures ops { result.ops.items ≡ made.ops }
    ensures tables { tables_of result ≡ grown made.tables }
    ensures starts { result.starts.items ≡ starts }
    ensures sizes { result.sizes.items ≡ sizes }
{
    let ResolvedOps { tables, ops } = made;
    Code {
        ops: ops.into_vec(),
        constants: tables.constants.into_vec(),
        terms: tables.terms.into_vec(),
        moves: tables.moves.into_vec(),
        edges: tables.edges.into_vec(),
        cases: tables.cases.into_vec(),
        starts: starts.into_vec(),
        sizes: sizes.into_vec(),
    }
}

/// Adds the ops of all functions, where there are no ops yet.
fn add_functions(
    known: &Known<'_, '_>,
    tables: &mut Growing,
    ops: &mut Row<Op>,
) -> Result<(), NoMemory>
    requires known { IsKnown known.now }
    requires none { ops.old ≡ [] }
    ensures front { IfOk result (λ _. IsFront known.now.program.now known.now.base ops.new (grown tables.new)) }
    ensures place { IfOk result (λ _.
        length ops.new ≡ entry known.now.program.now (length known.now.program.now.functions) 0) }
{
    'functions: for number in 0..known.program.functions.len() {
        add_function(known, tables, ops, number)?;
    }
    Ok(())
}

/// Adds the ops of the function of a number after those of the functions before it.
fn add_function(
    known: &Known<'_, '_>,
    tables: &mut Growing,
    ops: &mut Row<Op>,
    number: usize,
) -> Result<(), NoMemory>
    requires known { IsKnown known.now }
    requires number { number < length known.now.program.now.functions }
    requires front { IsFront known.now.program.now known.now.base ops.old (grown tables.old) }
    requires place { length ops.old ≡ entry known.now.program.now number 0 }
    ensures front { IfOk result (λ _. IsFront known.now.program.now known.now.base ops.new (grown tables.new)) }
    ensures place { IfOk result (λ _. length ops.new ≡ entry known.now.program.now (suc number) 0) }
{
    let scope = scope_of(known, number)?;
    resolve_function(&scope, tables, ops)
}
