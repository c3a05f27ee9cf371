//! Laws of runs: what the cache lines keep of the earlier steps, and which contents a crash may leave.

ghost use Rattle.hip_tree.specs.declared.program.Program.{Program};
ghost use Rattle.hip_types.specs.declared.areas.TheConstants.{LINE_SIZE};
ghost use Rattle.hip_runs.specs.Crash.{IsCrashImage, IsCrashPick, crash_image};
ghost use Rattle.hip_runs.specs.StoredParts.Parts.{PartOf};
ghost use Rattle.hip_runs.specs.StoredParts.Since.{stores, fences, FencedSince, IsFirstFlush, IsFlushedThenFenced, IsOfStore, IsPartAt, IsDurableAt};
ghost use Rattle.hip_runs.specs.State.{Flush, StorePart};
ghost use Rattle.hip_runs.specs.Step.{event, run};
ghost use Rattle.hip_runs.specs.Validity.{IsValid};
ghost use Rattle.hip_runs.specs.declared.input.Input.{Input};
ghost use Rattle.std.specs.Prelude.{◌≡◌, ℕ, suc, ◌+◌, ◌/◌, true, false, List, Option};

/// Each choice of first parts for each line, with all durable parts, gives a crash image, and each crash image is given
/// by such a choice.
pub fn images_are_choices()
    ensures choice { (P : Program) → (I : Input) → (n : ℕ) → (pick : ℕ → ℕ) → IsValid P I →
        IsCrashPick (run P I n) pick → IsCrashImage I (run P I n) (crash_image I (run P I n) pick) }
    ensures image { (P : Program) → (I : Input) → (n : ℕ) → (content : List ℕ) → IsValid P I →
        IsCrashImage I (run P I n) content →
        (pick : ℕ → ℕ) × IsCrashPick (run P I n) pick × (crash_image I (run P I n) pick ≡ content) }
{}

/// Only a store into the region adds crash images, and only a fence removes some.
pub fn images_shrink()
    ensures added { (P : Program) → (I : Input) → (n : ℕ) → (content : List ℕ) →
        stores (event P I (run P I n)) ≡ false →
        IsCrashImage I (run P I (suc n)) content → IsCrashImage I (run P I n) content }
    ensures removed { (P : Program) → (I : Input) → (n : ℕ) → (content : List ℕ) →
        fences (event P I (run P I n)) ≡ false →
        IsCrashImage I (run P I n) content → IsCrashImage I (run P I (suc n)) content }
{}

/// A part of a store is durable exactly if its cache line was flushed after the store, and a fence came with the flush
/// or after it.
pub fn durable_stores_were_flushed_then_fenced()
    ensures came { (P : Program) → (I : Input) → (n line place : ℕ) → (part : StorePart) →
        IsDurableAt (run P I n) line place part → IsFlushedThenFenced P I line part.step n }
    ensures durable { (P : Program) → (I : Input) → (n line place : ℕ) → (part : StorePart) →
        IsPartAt (run P I n) line place part → IsFlushedThenFenced P I line part.step n →
        IsDurableAt (run P I n) line place part }
{}

/// A durable part of a store stays durable, at its place in its line, and does not change.
pub fn durable_stores_stay_durable()
    ensures { (P : Program) → (I : Input) → (n d line place : ℕ) → (part : StorePart) →
        IsDurableAt (run P I n) line place part → IsDurableAt (run P I (n + d)) line place part }
{}

/// Each part in a cache line is one of a store that the run made: it has the store's bytes in that line, and the site
/// and the calls of the store.
pub fn parts_are_of_stores()
    ensures { (P : Program) → (I : Input) → (n : ℕ) → (part : StorePart) →
        PartOf (run P I n).lines part → IsOfStore P I part }
{}

/// A part of a store is fenced exactly if a fence came after its store.
pub fn fences_are_stated()
    ensures came { (P : Program) → (I : Input) → (n : ℕ) → (part : StorePart)
        → PartOf (run P I n).lines part →
        part.fenced ≡ true → FencedSince P I part.step n }
    ensures stated { (P : Program) → (I : Input) → (n : ℕ) → (part : StorePart)
        → PartOf (run P I n).lines part →
        FencedSince P I part.step n → part.fenced ≡ true }
{}

/// A part of a store has the first flush of its cache line after its store, or none if there was none; and there is at
/// most one first flush.
pub fn first_flushes_are_stated()
    ensures stated { (P : Program) → (I : Input) → (n : ℕ) → (part : StorePart)
        → PartOf (run P I n).lines part →
        IsFirstFlush P I (part.offset / LINE_SIZE) part.step n part.first_flush }
    ensures one { (P : Program) → (I : Input) → (line from n : ℕ) → (first other : Option Flush) →
        IsFirstFlush P I line from n first → IsFirstFlush P I line from n other → first ≡ other }
{}
