//! Laws of picks.

ghost use Rattle.std.specs.Prelude.{◌≡◌, ℕ, List, None};
ghost use Rattle.hip_crash.specs.Picks.{first_failure, picked};
ghost use Rattle.hip_tree.specs.declared.program.Program.{Program};
ghost use Rattle.hip_types.specs.declared.pick.Pick.{Pick};
ghost use Rattle.hip_runs.specs.Crash.{IsCrashImage, crash_image};
ghost use Rattle.hip_runs.specs.Step.{run};
ghost use Rattle.hip_runs.specs.Validity.{IsValid};
ghost use Rattle.hip_runs.specs.declared.input.Input.{Input};

/// Picks, none of which fails, give a crash image.
pub fn fitting_picks_give_images()
    ensures { (P : Program) → (I : Input) → (n : ℕ) → (picks : List Pick) → IsValid P I →
        first_failure (run P I n) picks ≡ None →
        IsCrashImage I (run P I n) (crash_image I (run P I n) (picked (run P I n) picks)) }
{}
