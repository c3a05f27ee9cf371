//! The laws of what is true in every run, on definitions alone.

ghost use Rattle.std.specs.Prelude.{ℕ, ◌<◌, ◌^◌, List};
ghost use Rattle.hip_tree.specs.declared.program.Program.{Program};
ghost use Rattle.hip_sound.specs.Sound.{IsSound};
ghost use Rattle.hip_runs.specs.Ends.{longest};
ghost use Rattle.hip_runs.specs.State.{Frame};
ghost use Rattle.hip_runs.specs.Step.{run};
ghost use Rattle.hip_runs.specs.Laws.StepLaws.{IsTop};
ghost use Rattle.hip_runs.specs.Validity.{IsValid};
ghost use Rattle.hip_runs.specs.declared.input.Input.{Input};
ghost use Rattle.hip_invariants.specs.Bounds.{CountsFit, IsBounded};
ghost use Rattle.hip_invariants.specs.NeverStuck.{IsNeverStuck};
ghost use Rattle.hip_invariants.specs.ObjectsApart.{ObjectsAreApart};
ghost use Rattle.hip_invariants.specs.PointerLevels.{IsClosed, Levels, RegistersAreWithin};
ghost use Rattle.hip_invariants.specs.StackShape.{StackIsShaped};
ghost use Rattle.hip_invariants.specs.Types.{AreUncut, CodeFits, OperandsFit, RegistersFit};

/// A run of a sound program never gets stuck, whatever its input. There is a frame. Each register that the next step
/// reads has been assigned, and so has each register that a frame below may read, except the one that waits for its
/// call's result. The run traps as unreachable only at an `unreachable`. On a valid input each value that the next step
/// reads fits its type.
pub fn sound_programs_never_get_stuck()
    ensures { (P : Program) → IsSound P → (I : Input) → (n : ℕ) → IsNeverStuck P I n }
{}

/// Each register of each frame has a value of the type that its function gives it: below 2^N for an integer of N
/// bits, and below 2^64 for a pointer.
pub fn registers_fit_their_types()
    ensures { (P : Program) → IsSound P → (I : Input) → IsValid P I → (n : ℕ)
        → RegistersFit P (run P I n).frames }
{}

/// Each operand that the next step reads has a value of the type that its place states, and what the bottom frame
/// returns is a number of 32 bits. So a comparison, an index or the code of a stop does not change them when it cuts
/// them to their widths.
pub fn operands_fit_their_types()
    ensures operands { (P : Program) → IsSound P → (I : Input) → IsValid P I → (n : ℕ) →
        (f : Frame) → (fs : List Frame) → IsTop (run P I n) f fs → OperandsFit P I f }
    ensures code { (P : Program) → IsSound P → (I : Input) → IsValid P I → (n : ℕ) → CodeFits P I n }
    ensures uncut { AreUncut }
{}

/// If levels are closed, each register of each frame has a value within its level: at most the stack's end and 64 MiB
/// for each level.
pub fn levels_bound_registers()
    ensures { (P : Program) → IsSound P → (L : Levels) → IsClosed P L → (I : Input) → (n : ℕ) →
        RegistersAreWithin L (run P I n).frames }
{}

/// The blocks and the marks of the frames are in order below the stack's mark. There are at most 16,384 frames. Each
/// frame except the bottom one has the call that made it, so there is one call fewer than frames.
pub fn stack_keeps_its_shape()
    ensures { (P : Program) → (I : Input) → (n : ℕ) → StackIsShaped (run P I n) }
{}

/// At most one object contains an address: no two globals have a byte in common, and neither have two blocks on the
/// stack, or a global and a block. The object that an address points into is the one that contains it.
pub fn objects_are_apart()
    ensures { (P : Program) → IsSound P → (I : Input) → IsValid P I → (n : ℕ)
        → ObjectsAreApart P I.base (run P I n).frames }
{}

/// A run has at most as many steps as its limit of turns plus one, times the longest body with its end, and at most one
/// entry for each step after those of its header. So both counts are numbers of 128 bits if each body's length is a
/// number of 64 bits.
pub fn runs_are_bounded()
    ensures bounded { (P : Program) → (I : Input) → (n : ℕ) → IsBounded P I n }
    ensures fit { (P : Program) → (I : Input) → IsSound P → IsValid P I → longest P < 2 ^ 64 →
        (n : ℕ) → CountsFit P I n }
{}
