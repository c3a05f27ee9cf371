ghost use Rattle.std.specs.Prelude.{◌≡◌, [], ◌++◌, map, IfOk, OnOk};
ghost use Rattle.std.specs.Str.{bytes_eq};
ghost use Rattle.hip_types.specs.Distinct.{met};
ghost use Rattle.hip_names.specs.Names.{is_among};
ghost use Rattle.hip_sound.specs.Sound.{top_names};
ghost use Rattle.hip_calls.specs.Fresh as spec;
ghost use Rattle.hip_calls.specs.Fresh.{name_of, numeral};

use hip_names::NameSet;
use hip_num::natural_into;
use hip_tree::{Extern, Function, GlobalVar, Program};
use hip_types::{Name, NoMemory, Row};
use indexmap::IndexSet;
use std::alloc::Global;

fn add_globals<'a>(names: &mut NameSet<'a>, globals: &'a [GlobalVar]) -> Result<(), NoMemory>
    ensures { OnOk result (names.new ≡ met bytes_eq names.old (map (λ g. g.name) globals.now)) }
{
    'each: for global in globals {
        let _is_new = names.insert(global.name.as_slice())?;
    }
    Ok(())
}

fn add_externs<'a>(names: &mut NameSet<'a>, externs: &'a [Extern]) -> Result<(), NoMemory>
    ensures { OnOk result (names.new ≡ met bytes_eq names.old (map (λ e. e.name) externs.now)) }
{
    'each: for external in externs {
        let _is_new = names.insert(external.name.as_slice())?;
    }
    Ok(())
}

fn add_functions<'a>(names: &mut NameSet<'a>, functions: &'a [Function]) -> Result<(), NoMemory>
    ensures { OnOk result (names.new ≡ met bytes_eq names.old (map (λ f. f.name) functions.now)) }
{
    'each: for function in functions {
        let _is_new = names.insert(function.name.as_slice())?;
    }
    Ok(())
}

/// The names of a program's globals, externs and functions.
fn taken_names(alloc: Global, program: &Program) -> Result<NameSet<'_>, NoMemory>
    ensures { IfOk result (λ names. names ≡ met bytes_eq [] (top_names program.now)) }
{
    let mut names = NameSet::new(alloc);
    add_globals(&mut names, program.globals.as_slice())?;
    add_externs(&mut names, program.externs.as_slice())?;
    add_functions(&mut names, program.functions.as_slice())?;
    Ok(names)
}

/// Adds a number in decimal.
fn add_number(text: &mut Name, number: usize) -> Result<(), NoMemory>
    ensures { OnOk result (text.new ≡ text.old ++ numeral number) }
{
    let mut digits = [0; 40];
    let len = natural_into(&mut digits, number as u128);
    text.extend_from_slice(&digits[..len])
}

/// The candidate of a number: `f.pm`, `f.pm1`, `f.pm2` and so on.
fn candidate(alloc: Global, name: &[u8], number: usize) -> Result<Name, NoMemory>
    ensures { IfOk result (λ text. text ≡ spec.candidate name.now number) }
{
    let mut text = Row::from_slice(alloc, name)?;
    text.extend_from_slice(b".pm")?;
    if number == 0 {
        return Ok(text);
    }
    add_number(&mut text, number)?;
    Ok(text)
}

/// Whether the program or an earlier copy has the name.
fn is_taken(taken: &NameSet<'_>, earlier: &IndexSet<Name>, name: &Name) -> bool
    ensures { result ≡ is_among (earlier.now.keys ++ taken.now) name.now }
{
    earlier.contains(name) || taken.contains(name.as_slice())
}

/// The first candidate that neither the program nor an earlier copy has.
fn fresh_name(
    alloc: Global,
    taken: &NameSet<'_>,
    earlier: &IndexSet<Name>,
    name: &[u8],
) -> Result<Name, NoMemory>
    ensures { IfOk result (λ text. text ≡ spec.fresh_name (earlier.now.keys ++ taken.now) name.now) }
{
    let limit = taken.len() + earlier.len();
    'numbers: for number in 0..limit {
        let text = candidate(alloc, name, number)?;
        if !is_taken(taken, earlier, &text) {
            return Ok(text);
        }
    }
    candidate(alloc, name, limit)
}

/// The name of the function of that number; empty if there is none.
pub fn name_of(program: &Program, number: usize) -> &[u8]
    ensures { result.now ≡ name_of program.now number }
{
    match program.functions.get(number) {
        Some(function) => function.name.as_slice(),
        None => &[],
    }
}

/// Names for copies of the functions of these numbers: for each, in order, the first of `f.pm`, `f.pm1`, `f.pm2` and so
/// on that no global, extern, function or earlier copy has.
///
/// If the functions differ, the time is linear in the names of the program and of the copies together.
pub fn fresh_names(
    alloc: Global,
    program: &Program,
    functions: &[usize],
) -> Result<Row<Name>, NoMemory>
    ensures { IfOk result (λ names. names ≡ spec.fresh_names program.now functions.now) }
{
    let taken = taken_names(alloc, program)?;
    let mut fresh = IndexSet::new(alloc);
    'each: for number in functions {
        let name = fresh_name(alloc, &taken, &fresh, name_of(program, *number))?;
        let _is_new = fresh.insert(name)?;
    }
    Ok(Row::from_vec(fresh.into_iter().collect(alloc)?))
}
