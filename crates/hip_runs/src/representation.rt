//! Laws of what a machine's memory and cache lines represent.

ghost use Rattle.hip_globals.specs.Addresses.{volatile_end};
ghost use Rattle.hip_globals.specs.Initial.{volatile_bytes};
ghost use Rattle.hip_tree.specs.declared.program.Program.{Program};
ghost use Rattle.hip_tree.specs.declared.site.Site.{Site};
ghost use Rattle.hip_lines.specs.Line.{Line, change_range, fresh_lines, stored};
ghost use Rattle.hip_lines.specs.Parts.{none_pending_all, pending_fenced_all, pending_flushed_all, pending_stored};
ghost use Rattle.hip_lines.specs.Pending.{Pending};
ghost use Rattle.hip_lines.specs.declared.part.Part.{Part};
ghost use Rattle.hip_mem.specs.Areas as areas;
ghost use Rattle.hip_mem.specs.Areas.{Areas};
ghost use Rattle.hip_types.specs.declared.areas.TheConstants.{VOLATILE_START};
ghost use Rattle.hip_runs.specs.Actions.{are_valid};
ghost use Rattle.hip_runs.specs.StoredParts.Persistence.{fenced_lines, flush_line, part_of_store};
ghost use Rattle.hip_runs.specs.StoredParts.Shown.{shown};
ghost use Rattle.hip_runs.specs.Represented.{HoldsLines, HoldsMemory};
ghost use Rattle.hip_runs.specs.State.{Counts, Flush, Level, StorePart, World};
ghost use Rattle.hip_runs.specs.declared.input.Input.{Input};
ghost use Rattle.std.specs.Prelude.{◌≡◌, ◌+◌, ◌<◌, ℕ, List, length};

/// The pending parts of a `Lines` follow the cache lines of a run through each store, flush and fence.
pub fn shown_lines_follow_the_run()
    ensures fresh { (n : ℕ) → none_pending_all n ≡ shown (fresh_lines n) }
    ensures stored { (I : Input) → (ps : List (Pending Part)) → (ls : List (Line StorePart))
        → HoldsLines I ps ls →
        (counts : Counts) → (site : Site) → (levels : List Level) → (offset : ℕ) → (bytes : List ℕ) →
        HoldsLines I (pending_stored offset (length bytes) counts.steps ps)
        (stored (part_of_store counts site levels offset bytes) offset (length bytes) ls) }
    ensures flushed { (I : Input) → (ps : List (Pending Part)) → (ls : List (Line StorePart))
        → HoldsLines I ps ls →
        (flush : Flush) → (offset : ℕ) → (size : ℕ) →
        HoldsLines I (pending_flushed_all offset size ps) (change_range (λ _ l. flush_line flush l) offset size ls) }
    ensures fenced { (I : Input) → (ps : List (Pending Part)) → (ls : List (Line StorePart))
        → HoldsLines I ps ls →
        HoldsLines I (pending_fenced_all ps) (fenced_lines ls) }
{}

/// If a `Ram` holds the memory of a run, the same bytes are valid in it as in the run.
pub fn valid_bytes_are_those_of_the_run()
    ensures { (P : Program) → (I : Input) → (w : World) → (r : Areas) → (addr : ℕ) → (size : ℕ)
        → 0 < size →
        VOLATILE_START + length (volatile_bytes P I.base) ≡ volatile_end P → HoldsMemory P I r w.writes w.mark →
        areas.are_valid r addr size ≡ are_valid P I w addr size }
{}
