//! The laws of pointer levels, on definitions alone.

ghost use Rattle.std.specs.Prelude.{◌≡◌, true};
ghost use Rattle.hip_tree.specs.declared.program.Program.{Program};
ghost use Rattle.hip_tree.specs.declared.site.Site.{Site};
ghost use Rattle.hip_sound.specs.Sound.{IsSound};
ghost use Rattle.hip_repairs.specs.Direct.{direct};
ghost use Rattle.hip_repairs.specs.StayOutside.{StayOutside};
ghost use Rattle.hip_vol.specs.Bounds.{Assignment, Variable};
ghost use Rattle.hip_vol.specs.Closed.{IsLeast};
ghost use Rattle.hip_vol.specs.LowStores.{least_levels, low_stores};
ghost use Rattle.hip_vol.specs.Rules.{level_rules};

/// `least_levels` is a least closed assignment of levels, and the only one.
pub fn least_levels_are_least()
    ensures least { (P : Program) → IsLeast (level_rules P) (least_levels P) }
    ensures one { (P : Program) → (A : Assignment) → IsLeast (level_rules P) A → (v : Variable) →
        A v ≡ least_levels P v }
{}

/// A store whose address has another level than Free never lies in the region, in the run of any valid input.
pub fn low_stores_stay_outside()
    ensures { (P : Program) → IsSound P → StayOutside P (low_stores P) }
{}

/// The stores whose address is a register assigned by `alloca`, or the name of a volatile global, are low.
pub fn direct_stores_are_low()
    ensures { (P : Program) → IsSound P → (s : Site) → direct P s ≡ true → low_stores P s ≡ true }
{}
