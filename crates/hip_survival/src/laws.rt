//! Laws of what survives a crash, on definitions alone.

ghost use Rattle.hip_tree.specs.declared.program.Program.{Program};
ghost use Rattle.hip_lines.specs.declared.part.LooseByte.{LooseByte};
ghost use Rattle.hip_runs.specs.Crash.{IsCrashImage, covers};
ghost use Rattle.hip_runs.specs.Entry.{IsAtEntry};
ghost use Rattle.hip_runs.specs.Found.Reports.{Range, check_reports, next_check};
ghost use Rattle.hip_runs.specs.Found.Tags.{loose_bytes};
ghost use Rattle.hip_runs.specs.State.{StorePart};
ghost use Rattle.hip_runs.specs.Step.{event, has_ended, run};
ghost use Rattle.hip_runs.specs.StoredParts.Parts.{In};
ghost use Rattle.hip_runs.specs.StoredParts.Since.{IsDurableAt, IsFlushedThenFenced, IsPartAt};
ghost use Rattle.hip_runs.specs.Validity.{IsValid};
ghost use Rattle.hip_runs.specs.declared.event.Ending.TheVariants.{Stop};
ghost use Rattle.hip_runs.specs.declared.event.Event.TheVariants as events;
ghost use Rattle.hip_runs.specs.declared.input.Input.{Input};
ghost use Rattle.hip_runs.specs.declared.report.Report.{Report};
ghost use Rattle.hip_survival.specs.Survival.{HasAllParts, HasDurableAlone, IsFromPartOn, IsLooseAt, IsOfByte, IsOnlyImage, IsReportedAt, IsWholeImage, Survives, durable_byte, working_byte};
ghost use Rattle.hip_sound.specs.Sound.{IsSound};
ghost use Rattle.std.specs.Prelude.{◌≡◌, ◌≢◌, ◌⊎◌, ◌+◌, ◌<◌, ◌≤◌, ℕ, suc, ℤ, List, [], Some, length, slice_index, true, false};

/// In each state of a run each byte of the region in working memory is the initial byte, changed by all parts of its
/// cache line in order. So working memory is one of the crash images: the one that has all parts of each line.
pub fn working_memory_is_a_crash_image()
    ensures bytes { (P : Program) → IsSound P → (I : Input) → IsValid P I → (n : ℕ) → (b : ℕ) →
        b < length I.image → HasAllParts P I (run P I n) b }
    ensures image { (P : Program) → IsSound P → (I : Input) → IsValid P I → (n : ℕ) →
        IsWholeImage P I (run P I n) }
{}

/// A byte of the region that is not loose survives a crash: every crash image has the value that working memory has
/// there.
pub fn durable_bytes_survive()
    ensures { (P : Program) → IsSound P → (I : Input) → IsValid P I → (n : ℕ) → (b : ℕ) →
        b < length I.image → ¬ IsLooseAt (run P I n) b → Survives P I (run P I n) b }
{}

/// No crash image loses a durable part of a store: in each image, a byte that the part covers has the value of that
/// part, or of a later part of its line. The same holds of a part that was flushed and then fenced.
pub fn durable_stores_are_in_each_image()
    ensures durable { (P : Program) → (I : Input) → (n : ℕ) → (line : ℕ) → (place : ℕ) → (part : StorePart) →
        IsDurableAt (run P I n) line place part →
        (content : List ℕ) → IsCrashImage I (run P I n) content → (b : ℕ) → covers part b ≡ true →
        IsFromPartOn (run P I n) line place content b }
    ensures fenced { (P : Program) → (I : Input) → (n : ℕ) → (line : ℕ) → (place : ℕ) → (part : StorePart) →
        IsPartAt (run P I n) line place part → IsFlushedThenFenced P I line part.step n →
        (content : List ℕ) → IsCrashImage I (run P I n) content → (b : ℕ) → covers part b ≡ true →
        IsFromPartOn (run P I n) line place content b }
{}

/// In some crash image each byte is what the durable parts alone give. So a byte survives only if the durable parts
/// give its value in working memory.
pub fn what_is_not_durable_may_be_lost()
    ensures image { (P : Program) → (I : Input) → IsValid P I → (n : ℕ) →
        (content : List ℕ) × IsCrashImage I (run P I n) content × HasDurableAlone I (run P I n) content }
    ensures surviving { (P : Program) → (I : Input) → IsValid P I → (n : ℕ) → (b : ℕ) → b < length I.image →
        Survives P I (run P I n) b → durable_byte I (run P I n) b ≡ working_byte P I (run P I n) b }
    ensures lost { (P : Program) → (I : Input) → IsValid P I → (n : ℕ) → (b : ℕ) → b < length I.image →
        durable_byte I (run P I n) b ≢ working_byte P I (run P I n) b →
        (content : List ℕ) × IsCrashImage I (run P I n) content
        × (slice_index content b ≢ working_byte P I (run P I n) b) }
{}

/// A byte of the region is loose exactly if `Lines::not_durable` yields it for the cache lines of the run.
pub fn lines_tell_loose_bytes()
    ensures stated { (P : Program) → (I : Input) → (n : ℕ) → (b : ℕ) → IsLooseAt (run P I n) b →
        (x : LooseByte) × In x (loose_bytes (run P I n) b 1) }
    ensures loose { (P : Program) → (I : Input) → (n : ℕ) → (b : ℕ) → (x : LooseByte) →
        In x (loose_bytes (run P I n) b 1) → IsLooseAt (run P I n) b }
{}

/// A check reports nothing exactly if no byte of its range is loose, and its range is in the region.
pub fn checks_tell_loose_bytes()
    ensures none { (P : Program) → (I : Input) → (n : ℕ) → (range : Range) →
        check_reports (run P I n) (Some range) ≡ [] →
        (b : ℕ) → range.offset ≤ b → b < range.offset + range.size → ¬ IsLooseAt (run P I n) b }
    ensures some { (P : Program) → (I : Input) → (n : ℕ) → (range : Range) →
        ((b : ℕ) → range.offset ≤ b → b < range.offset + range.size → ¬ IsLooseAt (run P I n) b) →
        check_reports (run P I n) (Some range) ≡ [] }
    ensures inside { (P : Program) → (I : Input) → (n : ℕ) → (range : Range) →
        next_check P I (run P I n) ≡ Some range → range.offset + range.size ≤ length I.image }
{}

/// Each report of a check is of a byte of the checked range that has, in some crash image, the value before the
/// report's store.
pub fn reports_are_of_bytes_that_may_be_lost()
    ensures { (P : Program) → IsSound P → (I : Input) → IsValid P I → (n : ℕ) → (range : Range) → (r : Report) →
        In r (check_reports (run P I n) (Some range)) → IsOfByte P I (run P I n) range r }
{}

/// If a check reports nothing, each byte that it checks survives a crash.
pub fn what_is_checked_survives()
    ensures { (P : Program) → IsSound P → (I : Input) → IsValid P I → (n : ℕ) → (range : Range) →
        next_check P I (run P I n) ≡ Some range → check_reports (run P I n) (Some range) ≡ [] →
        (b : ℕ) → range.offset ≤ b → b < range.offset + range.size → Survives P I (run P I n) b }
{}

/// If a run stops with nothing to report at its stop, working memory is the only crash image after the stop.
pub fn a_clean_stop_leaves_one_image()
    ensures { (P : Program) → IsSound P → (I : Input) → IsValid P I → (n : ℕ) → (code : ℤ) →
        has_ended (run P I n) ≡ false → event P I (run P I n) ≡ events.End (Stop code) →
        check_reports (run P I n) (next_check P I (run P I n)) ≡ [] → IsOnlyImage P I (run P I (suc n)) }
{}

/// Each byte that a check checks survives a crash, or the check reports the store that was the last over it. So a
/// check names every byte of its range that a crash may lose.
pub fn checked_bytes_survive_or_are_reported()
    ensures reported { (P : Program) → (I : Input) → (n : ℕ) → (range : Range) → (b : ℕ) → range.offset ≤ b →
        b < range.offset + range.size → IsLooseAt (run P I n) b → IsReportedAt P I n range b }
    ensures decided { (P : Program) → IsSound P → (I : Input) → IsValid P I → (n : ℕ) → (range : Range) →
        next_check P I (run P I n) ≡ Some range → (b : ℕ) → range.offset ≤ b → b < range.offset + range.size →
        Survives P I (run P I n) b ⊎ IsReportedAt P I n range b }
{}

/// What a crash may leave in any state of a run, it may leave at an entry of the run's trace, and so `crash` misses no
/// content that a crash may leave.
pub fn crashes_come_at_entries()
    ensures { (P : Program) → (I : Input) → (n : ℕ) → (content : List ℕ) → IsCrashImage I (run P I n) content →
        (m : ℕ) × IsAtEntry P I (run P I n).counts.entries m × IsCrashImage I (run P I m) content }
{}
