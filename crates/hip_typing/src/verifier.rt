ghost use Rattle.std.specs.Prelude.{◌≡◌};
ghost use Rattle.hip_typing.specs.Verified.{Checks};

use crate::assigned::functions::verify_assigned;
use crate::refusal::{refusal_of, refusal_on_paths};
use crate::rules::verify_rules;
use hip_ir::spelled;
use hip_sound::{Checked, Place, TypeFault, TypeRefusal};
use hip_tree::Program;
use std::alloc::Global;

/// The first rule that the program breaks, at the first place.
fn find_fault(alloc: Global, program: &Program) -> Result<(), TypeRefusal>
    ensures { Checks program.now result (λ _. Unit {0}) }
{
    if !spelled(program) {
        return Err(TypeRefusal {
            fault: TypeFault::BadShape,
            place: Place::Whole,
        });
    }
    if let Err(refused) = verify_rules(alloc, program) {
        return Err(refusal_of(refused));
    }
    match verify_assigned(alloc, program) {
        Ok(()) => Ok(()),
        Err(refused) => Err(refusal_on_paths(refused)),
    }
}

/// The program, if it is sound; it is dropped on a refusal. The refusal is the first rule that the program breaks, at
/// the first place, in this order: some text reads as the program; names of globals, externs and functions differ;
/// types and initialisers of globals; externs; sizes; `main`; names inside functions; names, types, cases and edges at
/// each place; each use of a register is assigned on every path. Out of memory is a refusal at the whole program.
///
/// The time is little more than linear in the program, and so is the memory that it takes for a while.
pub fn check(alloc: Global, program: Program) -> Result<Checked, TypeRefusal>
    ensures { Checks program result (λ checked. checked ≡ program) }
{
    match find_fault(alloc, &program) {
        Ok(()) => Ok(Checked::of_sound(program)),
        Err(refusal) => Err(refusal),
    }
}
