//! Laws of crashes where some flushes are ordered.

ghost use Rattle.hip_tree.specs.declared.program.Program.{Program};
ghost use Rattle.hip_tree.specs.declared.site.Site.{Site};
ghost use Rattle.hip_externs.specs.declared.call.ExternCall.{ExternCall};
ghost use Rattle.hip_repair_laws.specs.OrderedHistories.{AddsNothingOrdered, WeakImagesAreAll};
ghost use Rattle.hip_repairs.specs.declared.plan.Plan.{Plan};
ghost use Rattle.hip_runs.specs.declared.input.Input.{Input};
ghost use Rattle.hip_sound.specs.Sound.{IsSound};
ghost use Rattle.std.specs.Prelude.{Bool, List, ℕ};

use hip_histories::repairs_take_the_same_steps;
use hip_repairs::repairs_do_no_harm;

/// Whichever external functions flush in order, a repair adds no crash image and no crash history, whatever its plan is.
/// For CLFLUSH that is the order of Intel's manual.
pub fn repairs_add_nothing_ordered()
    ensures { (ordered : ExternCall → Bool) → (P : Program) → (plan : Plan) → (skip : Site → Bool) → IsSound P →
        AddsNothingOrdered ordered P plan skip }
{
    repairs_do_no_harm();
    repairs_take_the_same_steps();
}

/// If no flush is ordered, the crash images are those of the other crates.
pub fn weak_images_are_all()
    ensures { (P : Program) → (I : Input) → (n : ℕ) → (content : List ℕ) → WeakImagesAreAll P I n content }
{}
