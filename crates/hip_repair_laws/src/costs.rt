//! Laws of what a repair costs.

ghost use Rattle.hip_tree.specs.declared.program.Program.{Program};
ghost use Rattle.hip_tree.specs.declared.site.Site.{Site};
ghost use Rattle.hip_repair_laws.specs.Again.{RepairsFit, RepairsTwice};
ghost use Rattle.hip_repair_laws.specs.Sizes.{StaysSmall};
ghost use Rattle.hip_repair_laws.specs.Steps.{AddsFewSteps};
ghost use Rattle.hip_repairs.specs.Suits.{IsSuiting};
ghost use Rattle.hip_repairs.specs.declared.plan.Plan.{Plan};
ghost use Rattle.hip_sound.specs.Sound.{IsSound};
ghost use Rattle.std.specs.Prelude.{Bool};

use hip_repair_answers::second_repair;

/// The canonical text of a repaired program has at most ten times as many bytes as the program's, and 104 more, whatever
/// the plan is, if the program's has fewer than 100,000,000.
pub fn repairs_stay_small()
    ensures { (P : Program) → (plan : Plan) → (skip : Site → Bool) → StaysSmall P plan skip }
{}

/// If the canonical text of a program has at most 1,677,711 bytes, that of each repair of it has at most 16,777,216, so
/// it can be read. A second repair, for the trace of the repaired program's run, then gives the same text and five zeros.
pub fn small_programs_are_repaired_twice()
    ensures fit { RepairsFit }
    ensures twice { RepairsTwice }
{
    second_repair();
}

/// The steps that a repair adds to a run are at most two for each store that the program's run makes, one for each call
/// that flushes, and one for each hoisted call, on every valid input, if the plan suits the program.
pub fn repairs_add_few_steps()
    ensures { (P : Program) → (plan : Plan) → (skip : Site → Bool) → IsSound P → IsSuiting P plan →
        AddsFewSteps P plan skip }
{}
