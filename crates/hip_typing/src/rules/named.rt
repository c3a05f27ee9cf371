ghost use Rattle.std.specs.Prelude.{◌≡◌, ◌++◌, OnOk};
ghost use Rattle.hip_typing.specs.Seen.Answers.{Answers};
ghost use Rattle.hip_sound.specs.Names.{all_differ};
ghost use Rattle.hip_sound.specs.Rules.{global_declarations, extern_declarations, function_declarations, names_required};
ghost use Rattle.hip_typing.specs.Seen.NamesSeen.{seen};

use crate::refused::Refused;
use hip_names::NameSet;
use hip_sound::{Fault, Finding, Place};
use hip_tree::{Extern, Function, GlobalVar, Program};
use hip_types::{NoMemory, Row};
use std::alloc::Global;

/// A name and the place at which it is declared.
#[derive(Clone, Copy)]
pub struct NamedPlace<'a> {
    pub name: &'a [u8],
    pub place: Place,
}

/// Verifies that each name differs from all before it.
pub fn verify_all_differ(alloc: Global, names: &[NamedPlace<'_>]) -> Result<(), Refused>
    ensures { Answers result (all_differ (seen names.now)).found }
{
    let mut earlier = NameSet::new(alloc);
    earlier.reserve(names.len())?;
    'names: for named in names {
        if !earlier.insert(named.name)? {
            return Err(Refused::Found(Finding {
                fault: Fault::Duplicate,
                place: named.place,
            }));
        }
    }
    Ok(())
}

/// Adds the names of globals.
fn push_globals<'a>(
    names: &mut Row<NamedPlace<'a>>,
    globals: &'a [GlobalVar],
) -> Result<(), NoMemory>
    ensures { OnOk result (seen names.new ≡ seen names.old ++ global_declarations globals.now) }
{
    'globals: for number in 0..globals.len() {
        names.push(NamedPlace {
            name: globals[number].name.as_slice(),
            place: Place::Global(number),
        })?;
    }
    Ok(())
}

/// Adds the names of externs.
fn push_externs<'a>(names: &mut Row<NamedPlace<'a>>, externs: &'a [Extern]) -> Result<(), NoMemory>
    ensures { OnOk result (seen names.new ≡ seen names.old ++ extern_declarations externs.now) }
{
    'externs: for number in 0..externs.len() {
        names.push(NamedPlace {
            name: externs[number].name.as_slice(),
            place: Place::Extern(number),
        })?;
    }
    Ok(())
}

/// Adds the names of functions.
fn push_functions<'a>(
    names: &mut Row<NamedPlace<'a>>,
    functions: &'a [Function],
) -> Result<(), NoMemory>
    ensures { OnOk result (seen names.new ≡ seen names.old ++ function_declarations functions.now) }
{
    'functions: for number in 0..functions.len() {
        names.push(NamedPlace {
            name: functions[number].name.as_slice(),
            place: Place::Head(number),
        })?;
    }
    Ok(())
}

/// Verifies that the names of globals, externs and functions differ, with the three lists in this order.
pub fn verify_names(alloc: Global, program: &Program) -> Result<(), Refused>
    ensures { Answers result (names_required program.now).found }
{
    let mut names = Row::new(alloc);
    push_globals(&mut names, program.globals.as_slice())?;
    push_externs(&mut names, program.externs.as_slice())?;
    push_functions(&mut names, program.functions.as_slice())?;
    verify_all_differ(alloc, names.as_slice())
}
