//! Laws of crash images: line by line, and as the initial region of another run; and of the state at an entry of a
//! trace.

ghost use Rattle.hip_tree.specs.declared.program.Program.{Program};
ghost use Rattle.hip_lines.specs.Image.{byte_after};
ghost use Rattle.hip_lines.specs.Line.{Line};
ghost use Rattle.hip_runs.specs.Crash.{IsCrashImage, byte_of, covers, is_crash_image};
ghost use Rattle.hip_runs.specs.Entry.{IsAtEntry};
ghost use Rattle.hip_runs.specs.State.{State, StorePart};
ghost use Rattle.hip_runs.specs.Step.{header_entries, run};
ghost use Rattle.hip_runs.specs.Validity.{IsInput, IsValid};
ghost use Rattle.hip_runs.specs.declared.input.Input.{Input};
ghost use Rattle.std.specs.Prelude.{◌≡◌, ◌-◌, ◌<◌, ◌≤◌, ℕ, List, drop, take, true};

/// The byte after the first parts of a line, from the byte after its durable parts.
pub fn bytes_follow_the_durable()
    ensures { (line : Line StorePart) → (upto byte first : ℕ) → line.durable ≤ upto →
        byte_after covers byte_of (take upto line.parts) byte first
        ≡ byte_after covers byte_of (take (upto - line.durable) (drop line.durable line.parts)) byte
        (byte_after covers byte_of (take line.durable line.parts) byte first) }
{}

/// Whether a content is a crash image is decided line by line.
pub fn images_are_decided_by_lines()
    ensures image { (I : Input) → (s : State) → (content : List ℕ) →
        is_crash_image I s content ≡ true → IsCrashImage I s content }
    ensures decided { (I : Input) → (s : State) → (content : List ℕ) →
        IsCrashImage I s content → is_crash_image I s content ≡ true }
{}

/// A valid input that begins with a crash image of one of its runs instead of its initial bytes is valid too.
pub fn images_make_valid_inputs()
    ensures valid { (P : Program) → (I : Input) → (n : ℕ) → (content : List ℕ) → IsValid P I →
        IsCrashImage I (run P I n) content → IsValid P (record I { image = content }) }
    ensures input { (P : Program) → (I : Input) → (n : ℕ) → (content : List ℕ) → IsInput I
        → IsValid P I →
        IsCrashImage I (run P I n) content → IsInput (record I { image = content }) }
{}

/// If a number of entries is ever reached, there is exactly one number of steps after which it is first reached. If the
/// number is greater than the number of entries in the header, the state there has exactly that number of entries.
pub fn entries_find_one_state()
    ensures there { (P : Program) → (I : Input) → (entry steps : ℕ)
        → entry ≤ (run P I steps).counts.entries →
        (n : ℕ) × (n ≤ steps) × IsAtEntry P I entry n }
    ensures one { (P : Program) → (I : Input) → (entry m n : ℕ) →
        IsAtEntry P I entry m → IsAtEntry P I entry n → m ≡ n }
    ensures exact { (P : Program) → (I : Input) → (entry n : ℕ) → header_entries I < entry
        → IsAtEntry P I entry n →
        (run P I n).counts.entries ≡ entry }
{}
