//! Laws of the generated programs.

ghost use Rattle.std.specs.Prelude.{ℕ, ◌≤◌};
ghost use Rattle.hip_gen.specs.Read.{IsReadAsSound};
ghost use Rattle.hip_gen.specs.declared.limits.TheConstants.{LARGEST_SIZE};

/// The text for a seed and a size is the canonical text of a sound program, and reads as that program.
pub fn generated_programs_are_sound()
    ensures { (seed size : ℕ) → size ≤ LARGEST_SIZE → IsReadAsSound seed size }
{}
