//! The laws of runs, on definitions alone.

ghost use Rattle.std.specs.Prelude.{ℕ};
ghost use Rattle.hip_tree.specs.declared.program.Program.{Program};
ghost use Rattle.hip_runs.specs.Ends.{Ends};
ghost use Rattle.hip_runs.specs.StoredParts.History.{HasHistory};
ghost use Rattle.hip_runs.specs.Step.{run};
ghost use Rattle.hip_runs.specs.declared.input.Input.{Input};

/// Every run ends, since a basic block ends with a turn, and an input limits the turns.
pub fn runs_end()
    ensures { (P : Program) → (I : Input) → Ends P I }
{}

/// What each part of a store in the lines of a run carries: an earlier step made it, and its first flush was an earlier
/// step; the parts of one store share their history of fences; and its calls are calls that have returned, followed by
/// the outermost ones of the calls that have not returned.
pub fn parts_carry_their_history()
    ensures { (P : Program) → (I : Input) → (n : ℕ) → HasHistory P (run P I n) }
{}
