ghost use Rattle.std.specs.Prelude.{IfOk, map};
ghost use Rattle.hip_typing.specs.Seen.Answers.{Answers};
ghost use Rattle.hip_sound.specs.Requirement.{each};
ghost use Rattle.hip_names.specs.Names.{Knows};
ghost use Rattle.hip_sound.specs.Rules.{global_required, globals_required};

use crate::constants::shape::const_has_shape;
use crate::constants::{names_known, type_fits, types_fit};
use crate::refused::{Refused, ask};
use hip_names::NameSet;
use hip_sound::{Fault, Place};
use hip_tree::{GlobalVar, Program};
use hip_types::NoMemory;
use std::alloc::Global;

/// The names of the globals.
pub fn names_of_globals<'a>(
    alloc: Global,
    globals: &'a [GlobalVar],
) -> Result<NameSet<'a>, NoMemory>
    ensures { IfOk result (λ names. Knows names (map (λ g. g.name) globals.now)) }
{
    let mut names = NameSet::new(alloc);
    'globals: for global in globals {
        let _is_new = names.insert(global.name.as_slice())?;
    }
    Ok(names)
}

fn verify_global(known: &NameSet<'_>, number: usize, global: &GlobalVar) -> Result<(), Refused>
    ensures { Answers result (global_required known.now number global.now).found }
{
    let place = Place::Global(number);
    ask(
        type_fits(&global.ty) && types_fit(&global.init),
        Fault::TooLarge,
        place,
    )?;
    ask(
        const_has_shape(&global.init, &global.ty),
        Fault::BadGlobal,
        place,
    )?;
    ask(names_known(&global.init, known), Fault::Unknown, place)
}

fn verify_each_global(known: &NameSet<'_>, globals: &[GlobalVar]) -> Result<(), Refused>
    ensures { Answers result (each (global_required known.now) globals.now).found }
{
    'globals: for number in 0..globals.len() {
        if let Err(refused) = verify_global(known, number, &globals[number]) {
            return Err(refused);
        }
    }
    Ok(())
}

/// Verifies that the types of globals fit, and that their initialisers have their types' shape and name globals.
pub fn verify_globals(alloc: Global, program: &Program) -> Result<(), Refused>
    ensures { Answers result (globals_required program.now).found }
{
    let globals = program.globals.as_slice();
    let known = names_of_globals(alloc, globals)?;
    verify_each_global(&known, globals)
}
