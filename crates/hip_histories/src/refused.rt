//! Wrong repairs, each with the law that refuses it.

ghost use Rattle.hip_histories.specs.Histories.{AddsNoHistory};
ghost use Rattle.hip_histories.specs.examples.WrongRepairs.{clone_fences_early, clone_without_store, fence_before_flush, flush_before_store};
ghost use Rattle.hip_repairs.specs.Clean.{IsClean};
ghost use Rattle.hip_repairs.specs.Covered.{IsCovered};
ghost use Rattle.hip_repairs.specs.examples.CopyHoisted.{copy_hoisted};
ghost use Rattle.hip_repairs.specs.examples.FenceWithoutFlush.{fence_without_flush, fence_without_flush_repaired};
ghost use Rattle.hip_repairs.specs.examples.Words.{zeroed};

/// A repair that drops a flush of the program adds a crash history: the program without the flush can end with the
/// store lost, and the program with the flush cannot.
pub fn a_dropped_flush_adds_a_history()
    ensures { ¬ AddsNoHistory fence_without_flush_repaired fence_without_flush }
{}

/// With a flush before the store, or a fence before the flush, the program still has something to report.
pub fn early_flushes_and_fences_are_not_clean()
    ensures flush { ¬ IsClean flush_before_store (zeroed 1) }
    ensures fence { ¬ IsClean fence_before_flush (zeroed 1) }
{}

/// A clone that flushes and fences before its last store does not cover the hoisted call.
pub fn a_clone_that_fences_early_does_not_cover()
    ensures { ¬ IsCovered copy_hoisted clone_fences_early }
{}

/// A clone that leaves out a store of its function is no clone of it, so it does not cover the hoisted call.
pub fn a_clone_that_leaves_out_a_store_does_not_cover()
    ensures { ¬ IsCovered copy_hoisted clone_without_store }
{}
