ghost use Rattle.std.specs.Prelude.{[], ◌∷◌, map, IfOk, OnOk};
ghost use Rattle.hip_typing.specs.Seen.Tables.{AddsCallees, FindsCallees, extern_entry, function_entry};

use hip_names::NameTable;
use hip_tree::{Extern, Function, Param, Program};
use hip_types::{NoMemory, Scalar};
use std::alloc::Global;

/// The parameters of an extern or of a function.
#[derive(Clone, Copy)]
pub enum Params<'a> {
    Scalars(&'a [Scalar]),
    Named(&'a [Param]),
}

/// The result and the parameters of what a call names.
#[derive(Clone, Copy)]
pub struct Callee<'a> {
    pub ret: Option<Scalar>,
    pub params: Params<'a>,
}

/// What a program's calls may name.
pub type CalleeTable<'a> = NameTable<'a, Callee<'a>>;

fn add_extern<'a>(table: &mut CalleeTable<'a>, external: &'a Extern) -> Result<(), NoMemory>
    ensures { OnOk result
        (AddsCallees table.old.names table.old.values table.new.names table.new.values
        (extern_entry external.now ∷ [])) }
{
    let callee = Callee {
        ret: external.ret,
        params: Params::Scalars(external.params.as_slice()),
    };
    table.add(external.name.as_slice(), callee)?;
    Ok(())
}

fn add_function<'a>(table: &mut CalleeTable<'a>, function: &'a Function) -> Result<(), NoMemory>
    ensures { OnOk result
        (AddsCallees table.old.names table.old.values table.new.names table.new.values
        (function_entry function.now ∷ [])) }
{
    let callee = Callee {
        ret: function.ret,
        params: Params::Named(function.params.as_slice()),
    };
    table.add(function.name.as_slice(), callee)?;
    Ok(())
}

fn add_externs<'a>(table: &mut CalleeTable<'a>, externs: &'a [Extern]) -> Result<(), NoMemory>
    ensures { OnOk result
        (AddsCallees table.old.names table.old.values table.new.names table.new.values (map extern_entry externs.now)) }
{
    'each: for external in externs {
        add_extern(table, external)?;
    }
    Ok(())
}

fn add_functions<'a>(table: &mut CalleeTable<'a>, functions: &'a [Function]) -> Result<(), NoMemory>
    ensures { OnOk result
        (AddsCallees table.old.names table.old.values table.new.names table.new.values
        (map function_entry functions.now)) }
{
    'each: for function in functions {
        add_function(table, function)?;
    }
    Ok(())
}

/// The externs and functions of a program by their names.
pub fn callees_of(alloc: Global, program: &Program) -> Result<CalleeTable<'_>, NoMemory>
    ensures { IfOk result (λ table. FindsCallees table.names table.values program.now) }
{
    let mut table = NameTable::new(alloc);
    add_externs(&mut table, program.externs.as_slice())?;
    add_functions(&mut table, program.functions.as_slice())?;
    Ok(table)
}
