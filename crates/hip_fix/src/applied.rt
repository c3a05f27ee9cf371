ghost use Rattle.std.specs.Prelude.{◌≡◌, length, IfOk};
ghost use Rattle.hip_tree.specs.Sites.{has_site};
ghost use Rattle.hip_repairs.specs.CloneNumbers.{numbered_from};
ghost use Rattle.hip_repairs.specs.Direct.{direct};
ghost use Rattle.hip_repairs.specs.StayOutside.{StayOutside};
ghost use Rattle.hip_fix.specs.Applied.{IsApplied, IsThorough};

use crate::direct::direct_stores;
use crate::program::repaired_program;
use hip_calls::{callees, fresh_names};
use hip_repairs::{
    CloneOf, Plan, Repaired, direct_stores_stay_outside, hoisted_calls_are_covered,
    hoisted_calls_are_fenced, repaired_is_sound, repairs_are_clean, repairs_do_no_harm,
};
use hip_sound::Checked;
use hip_tree::{Function, Site};
use hip_types::{NoMemory, Row};
use std::alloc::Global;

/// The clones of the functions of these numbers, numbered after all functions.
fn numbered(
    alloc: Global,
    functions: &[Function],
    originals: &[usize],
) -> Result<Row<CloneOf>, NoMemory>
    ensures { IfOk result (λ clones. clones ≡ numbered_from (length functions.now) originals.now) }
{
    let mut clones = Row::new(alloc);
    'each: for place in 0..originals.len() {
        clones.push(CloneOf {
            original: originals[place],
            copy: functions.len() + place,
        })?;
    }
    Ok(clones)
}

/// The program repaired by a plan. Its clones do not flush the stores of `skip`. It does no harm. If no store of `skip`
/// ever lies in the region, it is clean and its hoisted calls are covered. The program, the plan and `skip` stay as
/// they are.
///
/// Time and memory are linear in the program, the plan, `skip` and the clones together.
pub fn apply_skipping(
    alloc: Global,
    checked: &Checked,
    plan: &Plan,
    skip: &[Site],
) -> Result<Repaired, NoMemory>
    ensures repaired { IfOk result (IsApplied checked.now plan.now (has_site skip.now)) }
    ensures thorough { IfOk result (λ r. StayOutside checked.now (has_site skip.now) →
        IsThorough checked.now plan.now r.checked) }
{
    // Lemmas: the repaired program is sound, and keeps the promises of a repair.
    repaired_is_sound();
    repairs_do_no_harm();
    repairs_are_clean();
    hoisted_calls_are_covered();
    hoisted_calls_are_fenced();
    let program = checked.program();
    let originals = callees(alloc, program, plan.hoist.as_slice())?;
    let names = fresh_names(alloc, program, originals.as_slice())?;
    let clones = numbered(alloc, program.functions.as_slice(), originals.as_slice())?;
    let repaired = repaired_program(
        alloc,
        program,
        plan,
        skip,
        originals.as_slice(),
        names.as_slice(),
    )?;
    Ok(Repaired {
        checked: Checked::of_sound(repaired),
        clones,
    })
}

/// The program repaired by a plan. Its clones do not flush the stores whose address is a register assigned by `alloca`,
/// or the name of a volatile global: those never lie in the region. It does no harm, it is clean, and its hoisted calls
/// are covered.
///
/// Time and memory are linear in the program, the plan and the clones together.
pub fn apply(alloc: Global, checked: &Checked, plan: &Plan) -> Result<Repaired, NoMemory>
    ensures repaired { IfOk result (IsApplied checked.now plan.now (direct checked.now)) }
    ensures thorough { IfOk result (λ r. IsThorough checked.now plan.now r.checked) }
{
    // Lemma: no direct store ever lies in the region.
    direct_stores_stay_outside();
    let skip = direct_stores(alloc, checked.program())?;
    apply_skipping(alloc, checked, plan, skip.as_slice())
}
