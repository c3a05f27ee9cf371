//! Laws of unions of plans.

ghost use Rattle.std.specs.Prelude.{◌≡◌, List, [], ◌∷◌};
ghost use Rattle.hip_tree.specs.declared.program.Program.{Program};
ghost use Rattle.hip_repairs.specs.Planned.{PlanIsWithin, union};
ghost use Rattle.hip_repairs.specs.Suits.{no_repairs};
ghost use Rattle.hip_repairs.specs.declared.plan.Plan.{Plan};
ghost use Rattle.hip_many.specs.Union.{IsUnion};

/// Plans have one union. That of no plans is the empty plan, and that of two plans of a program is the union that is
/// defined by the program's sites.
pub fn unions_are_one()
    ensures one { (plans : List Plan) → (a b : Plan) → IsUnion plans a → IsUnion plans b → a ≡ b }
    ensures none { IsUnion [] no_repairs }
    ensures two { (P : Program) → (a b : Plan) → PlanIsWithin P a → PlanIsWithin P b
        → IsUnion (a ∷ b ∷ []) (union P a b) }
{}
