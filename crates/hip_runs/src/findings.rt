//! Laws of what a run finds: its reports and its marks.

ghost use Rattle.hip_tree.specs.declared.program.Program.{Program};
ghost use Rattle.hip_tree.specs.declared.site.Site.{Site};
ghost use Rattle.hip_runs.specs.Found.Marks.{IsFound, hit, pointed, same_mark};
ghost use Rattle.hip_runs.specs.StoredParts.Parts.{In};
ghost use Rattle.hip_runs.specs.Found.Reports.{reports};
ghost use Rattle.hip_runs.specs.Found.Scores.{worth, worth_at, worths};
ghost use Rattle.hip_runs.specs.Found.WellFormed.{IsWellFormed};
ghost use Rattle.hip_runs.specs.declared.input.Input.{Input};
ghost use Rattle.hip_runs.specs.declared.report.Findings.{Findings};
ghost use Rattle.hip_runs.specs.declared.report.Mark.{Mark};
ghost use Rattle.hip_runs.specs.declared.report.Marks.{Marks};
ghost use Rattle.hip_runs.specs.declared.report.Report.{Report};
ghost use Rattle.hip_types.specs.Distinct.{met};
ghost use Rattle.std.specs.List.{IsDistinct};
ghost use Rattle.std.specs.Prelude.{◌≡◌, ℕ, List, ◌++◌, nat_eq, true};

/// A run has exactly one record of findings.
pub fn findings_are_one()
    ensures there { (P : Program) → (I : Input) → (found : Findings) × IsFound P I found }
    ensures one { (P : Program) → (I : Input) → (a b : Findings) → IsFound P I a → IsFound P I b → a ≡ b }
{}

/// Marks are the same exactly if they are equal.
pub fn same_marks_are_equal()
    ensures same { (a : Mark) → (b : Mark) → same_mark a b ≡ true → a ≡ b }
    ensures equal { (a : Mark) → (b : Mark) → a ≡ b → same_mark a b ≡ true }
{}

/// A report names a flush exactly if only a fence is missing. The number of returned calls is less than the length of
/// its path. The path begins at a store and continues with calls of functions of the program. The flush is a call that
/// flushes and takes no fence.
pub fn reports_are_well_formed()
    ensures { (P : Program) → (I : Input) → (n : ℕ) → (r : Report) → In r (reports P I n)
        → IsWellFormed P r }
{}

/// No mark and no persistent global occurs twice, and to add new items list by list gives the same as to add the items
/// of the appended lists.
pub fn marks_are_met_once()
    ensures pointed { (P : Program) → (I : Input) → (n : ℕ) → IsDistinct same_mark (pointed P I n) }
    ensures hit { (P : Program) → (I : Input) → (n : ℕ) → IsDistinct nat_eq (hit P I n) }
    ensures marks { (seen first second : List Mark) →
        met same_mark seen (first ++ second) ≡ met same_mark (met same_mark seen first) second }
{}

/// The table of worths, made by one pass over the marks, gives each operand of each site its worth.
pub fn worths_are_made_by_one_pass()
    ensures { (marks : Marks) → (site : Site) → (operand : ℕ) →
        worth_at (worths marks) site operand ≡ worth marks site operand }
{}
