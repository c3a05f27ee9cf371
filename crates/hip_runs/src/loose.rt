//! Laws of loose parts of stores: the loose bytes of a range determine them, and so the reports of a check.

ghost use Rattle.hip_tree.specs.declared.program.Program.{Program};
ghost use Rattle.hip_lines.specs.Line.{Line};
ghost use Rattle.hip_lines.specs.declared.part.LooseByte.{LooseByte};
ghost use Rattle.hip_runs.specs.StoredParts.Parts.{In};
ghost use Rattle.hip_runs.specs.Found.Reports.{LoosePart, Range, loose_parts, check_reports, reports_for};
ghost use Rattle.hip_runs.specs.State.{StorePart};
ghost use Rattle.hip_runs.specs.Step.{run};
ghost use Rattle.hip_runs.specs.Found.Tags.{AreStatedBy, AscendWithin, HoldsTags, IsLoosePart, IsNoneBeside, loose_bytes};
ghost use Rattle.hip_runs.specs.declared.input.Input.{Input};
ghost use Rattle.hip_runs.specs.declared.report.Report.{Report};
ghost use Rattle.std.specs.List.{flat_map, range_with_len};
ghost use Rattle.std.specs.Prelude.{◌≡◌, ◌<◌, ℕ, List, Some};

/// A step's store has loose parts in a range exactly if one of the range's loose bytes has its tag, and all its loose
/// parts are flushed exactly if all those bytes are. For each of these parts there is a byte with the tag that is
/// flushed exactly if the part is, and for each of these bytes there is a part in the same way.
pub fn loose_bytes_tell_loose_parts()
    ensures { (P : Program) → (I : Input) → (n offset size made : ℕ) →
        AreStatedBy (loose_parts offset size (run P I n).lines made) (loose_bytes (run P I n) offset size) made }
{}

/// A part is a loose part of a step's store in a range exactly if it makes some byte of the range loose and that step
/// made its store. It is flushed if its place is before the flushed number of its line.
pub fn loose_parts_are_last_over_loose_bytes()
    ensures byte { (offset size made : ℕ) → (lines : List (Line StorePart)) → (part : LoosePart) →
        In part (loose_parts offset size lines made) → IsLoosePart offset size made lines part }
    ensures part { (offset size made : ℕ) → (lines : List (Line StorePart)) → (part : LoosePart) →
        IsLoosePart offset size made lines part → In part (loose_parts offset size lines made) }
{}

/// The tag of a loose byte is a step that was taken.
pub fn tags_are_steps()
    ensures { (P : Program) → (I : Input) → (n offset size : ℕ) → (b : LooseByte) →
        In b (loose_bytes (run P I n) offset size) → b.tag < (run P I n).counts.steps }
{}

/// A flat map over all numbers below n equals the flat map over an ascending list of some of them, if the function
/// gives nothing for the others.
pub fn steps_of_nothing_may_be_left_out()
    ensures { (f : ℕ → List Report) → (n : ℕ) → (members : List ℕ) → AscendWithin 0 n members →
        IsNoneBeside f 0 n members → flat_map f (range_with_len 0 n) ≡ flat_map f members }
{}

/// The reports of a check are the reports of the stores whose tags occur among its loose bytes, in ascending order.
pub fn reports_follow_the_tags()
    ensures { (P : Program) → (I : Input) → (n : ℕ) → (range : Range) → (tags : List ℕ) →
        HoldsTags (run P I n) range tags →
        check_reports (run P I n) (Some range) ≡ flat_map (reports_for (run P I n) range) tags }
{}
