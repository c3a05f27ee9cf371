//! Laws of plans: what the plan for a run's findings has, and which plans suit.

ghost use Rattle.hip_tree.specs.Sites.{has_site, sites_of};
ghost use Rattle.hip_tree.specs.declared.program.Program.{Program};
ghost use Rattle.hip_tree.specs.declared.site.Site.{Site};
ghost use Rattle.hip_runs.specs.Found.Marks.{IsFound};
ghost use Rattle.hip_runs.specs.StoredParts.Parts.{In};
ghost use Rattle.hip_runs.specs.Validity.{IsValid};
ghost use Rattle.hip_runs.specs.declared.input.Input.{Input};
ghost use Rattle.hip_runs.specs.declared.report.Findings.{Findings};
ghost use Rattle.hip_repairs.specs.Choice.{Contains, plan_for};
ghost use Rattle.hip_repairs.specs.CloneNumbers.{IsCloneOf, clone_numbers};
ghost use Rattle.hip_repairs.specs.Planned.{IsAsked, PlanIsWithin, union};
ghost use Rattle.hip_repairs.specs.Repaired.{cloned, repaired};
ghost use Rattle.hip_repairs.specs.Suits.{IsStrictOrder, IsSuiting, is_ascending, no_repairs};
ghost use Rattle.hip_repairs.specs.declared.plan.CloneOf.{CloneOf};
ghost use Rattle.hip_repairs.specs.declared.plan.Plan.{Plan};
ghost use Rattle.std.specs.List.{filter};
ghost use Rattle.std.specs.Prelude.{◌≡◌, ℕ, List, [], Bool, true};

/// Sites are strictly ordered; the program's sites that pass a test ascend; and ascending lists with the same sites
/// are equal.
pub fn sites_are_ordered()
    ensures order { IsStrictOrder }
    ensures ascends { (P : Program) → (test : Site → Bool) → is_ascending (filter test (sites_of P)) ≡ true }
    ensures same { (xs ys : List Site) → is_ascending xs ≡ true → is_ascending ys ≡ true →
        ((s : Site) → has_site xs s ≡ has_site ys s) → xs ≡ ys }
{}

/// A site is in a list of the plan exactly if it is one of the program's and some report needs it there.
pub fn plans_have_what_is_asked()
    ensures { (P : Program) → (found : Findings) → IsAsked P found }
{}

/// The plan for what a run found suits the program.
pub fn plans_suit()
    ensures { (P : Program) → (I : Input) → (found : Findings) → IsFound P I found
        → IsSuiting P (plan_for P found) }
{}

/// The union of two plans contains each plan that names only sites of the program, as a plan that suits it does; and it
/// suits the program if both do.
pub fn plans_unite()
    ensures first { (P : Program) → (a b : Plan) → PlanIsWithin P a → Contains (union P a b) a }
    ensures second { (P : Program) → (a b : Plan) → PlanIsWithin P b → Contains (union P a b) b }
    ensures within { (P : Program) → (plan : Plan) → IsSuiting P plan → PlanIsWithin P plan }
    ensures suits { (P : Program) → (a b : Plan) → IsSuiting P a → IsSuiting P b → IsSuiting P (union P a b) }
{}

/// If nothing was reported the plan is empty, and the program repaired by the empty plan is the program itself.
pub fn nothing_is_changed_without_reports()
    ensures plan { (P : Program) → (found : Findings) → found.reports ≡ [] → plan_for P found ≡ no_repairs }
    ensures program { (P : Program) → (skip : Site → Bool) → repaired P no_repairs skip ≡ P }
{}

/// A valid input of a program is a valid input of the repaired program, whatever the plan is.
pub fn inputs_stay_valid()
    ensures { (P : Program) → (plan : Plan) → (skip : Site → Bool) → (I : Input) → IsValid P I →
        IsValid (repaired P plan skip) I }
{}

/// The clones that are numbered for a plan are those of the repaired program: each has its number there, as the clone
/// of the function that it was made of, and each function that is cloned has one.
pub fn clones_are_numbered()
    ensures clone { (P : Program) → (plan : Plan) → (skip : Site → Bool) → (clone : CloneOf) →
        In clone (clone_numbers P plan) → IsCloneOf P plan skip clone }
    ensures original { (P : Program) → (plan : Plan) → (function : ℕ) → In function (cloned P plan) →
        (clone : CloneOf) × In clone (clone_numbers P plan) × (clone.original ≡ function) }
{}
