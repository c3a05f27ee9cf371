ghost use Rattle.std.specs.Prelude.{◌≡◌, length, IfOk};
ghost use Rattle.hip_calls.specs.Fresh.{fresh_names};
ghost use Rattle.hip_tree.specs.Sites.{has_site};
ghost use Rattle.hip_repairs.specs.Repaired.{cloned, clones_from, repaired, wanted_by};
ghost use Rattle.hip_fix.specs.Walk.{wanted_in};
ghost use Rattle.hip_fix.specs.Walked.{walked};

use crate::clone_table::CloneTable;
use crate::externs::declarations;
use crate::repair::{RepairSites, RepairedFunctions};
use hip_ir::Structural;
use hip_repairs::Plan;
use hip_sites::SiteSet;
use hip_tree::{Program, Site};
use hip_types::{Name, NoMemory};
use std::alloc::Global;

/// The sites of a plan as sets, in a program whose functions of these numbers have clones of these names.
fn repair_of<'a>(
    alloc: Global,
    program: &'a Program,
    plan: &Plan,
    skip: &[Site],
    originals: &'a [usize],
    names: &'a [Name],
) -> Result<RepairSites<'a>, NoMemory>
    ensures wanted { IfOk result (λ r. wanted_in r ≡ wanted_by plan.now (has_site skip.now)) }
    ensures clones { IfOk result (λ r. r.clones ≡ clones_from program.now originals.now names.now) }
{
    Ok(RepairSites {
        flush_after: SiteSet::of(alloc, plan.flush_after.as_slice())?,
        fence_after: SiteSet::of(alloc, plan.fence_after.as_slice())?,
        hoist: SiteSet::of(alloc, plan.hoist.as_slice())?,
        skip: SiteSet::of(alloc, skip)?,
        clones: CloneTable::new(alloc, program, originals, names)?,
    })
}

/// The program that one walk makes. The clones of the functions of these numbers follow all functions.
fn walk(
    alloc: Global,
    repair: &RepairSites<'_>,
    program: &Program,
    originals: &[usize],
    names: &[Name],
) -> Result<Program, NoMemory>
    requires { length names.now ≡ length originals.now }
    ensures { IfOk result (λ p. p
        ≡ walked program.now repair.now.clones (wanted_in repair.now) originals.now names.now) }
{
    let mut made = RepairedFunctions::none(alloc);
    repair.add_functions(alloc, &mut made, program.functions.as_slice())?;
    repair.add_clones(alloc, &mut made, program, originals, names)?;
    Ok(Program {
        globals: program.globals.copy(alloc)?,
        externs: declarations(alloc, &program.externs, made.needed)?,
        functions: made.functions,
    })
}

/// The repaired program. The functions of these numbers have clones of these names.
pub fn repaired_program(
    alloc: Global,
    program: &Program,
    plan: &Plan,
    skip: &[Site],
    originals: &[usize],
    names: &[Name],
) -> Result<Program, NoMemory>
    requires originals { originals.now ≡ cloned program.now plan.now }
    requires names { names.now ≡ fresh_names program.now originals.now }
    ensures { IfOk result (λ p. p ≡ repaired program.now plan.now (has_site skip.now)) }
{
    let repair = repair_of(alloc, program, plan, skip, originals, names)?;
    walk(alloc, &repair, program, originals, names)
}
