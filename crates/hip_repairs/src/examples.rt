//! Small programs with the reports of their runs and their repairs, computed by the definitions.

ghost use Rattle.hip_repairs.specs.examples.AssertInsideCallee.{assert_inside_callee, assert_inside_callee_repaired, assert_inside_callee_reports};
ghost use Rattle.hip_repairs.specs.examples.CopyHoisted.{copy_hoisted, copy_hoisted_repaired, copy_hoisted_report};
ghost use Rattle.hip_repairs.specs.examples.FenceWithoutFlush.{fence_without_flush, fence_without_flush_repaired, fence_without_flush_report};
ghost use Rattle.hip_repairs.specs.examples.FlushWithoutFence.{flush_without_fence, flush_without_fence_repaired, flush_without_fence_report};
ghost use Rattle.hip_repairs.specs.examples.MutualRecursion.{mutual_recursion, mutual_recursion_repaired, mutual_recursion_report};
ghost use Rattle.hip_repairs.specs.examples.OneStore.{one_store, one_store_repaired, one_store_report};
ghost use Rattle.hip_repairs.specs.examples.OverwrittenStore.{overwritten_store, overwritten_store_repaired, overwritten_store_report};
ghost use Rattle.hip_repairs.specs.examples.StoreInTwoLines.{store_in_two_lines, store_in_two_lines_repaired, store_in_two_lines_report};
ghost use Rattle.hip_repairs.specs.examples.Words.{ExampleIsHoisted, IsWorked, zeroed};
ghost use Rattle.std.specs.Prelude.{[], ◌∷◌};

/// A store that is neither flushed nor fenced: a flush and a fence follow it, and both are declared.
pub fn one_store_is_repaired()
    ensures { IsWorked one_store (zeroed 1) 2 (one_store_report ∷ []) one_store_repaired }
{}

/// A store with a fence and no flush after it: the flush goes between them.
pub fn fence_without_flush_is_repaired()
    ensures { IsWorked fence_without_flush (zeroed 1) 3
        (fence_without_flush_report ∷ []) fence_without_flush_repaired }
{}

/// A store with a flush and no fence after it: the fence follows the flush.
pub fn flush_without_fence_is_repaired()
    ensures { IsWorked flush_without_fence (zeroed 1) 3
        (flush_without_fence_report ∷ []) flush_without_fence_repaired }
{}

/// A store that a second one overwrites: only the second is reported, and the flush and the fence follow it.
pub fn overwritten_store_is_repaired()
    ensures { IsWorked overwritten_store (zeroed 1) 3 (overwritten_store_report ∷ []) overwritten_store_repaired }
{}

/// A store that spans two cache lines: a flush of its eight bytes and a fence follow it.
pub fn store_in_two_lines_is_repaired()
    ensures { IsWorked store_in_two_lines (zeroed 2) 2 (store_in_two_lines_report ∷ []) store_in_two_lines_repaired }
{}

/// A function that is called once for the stack and once for a persistent global: the second call goes to a clone that
/// flushes what it stores, with a fence after the call.
pub fn copy_is_hoisted()
    ensures { ExampleIsHoisted copy_hoisted (zeroed 1) 12 (copy_hoisted_report ∷ []) copy_hoisted_repaired }
{}

/// A function that asserts what it stored: the store is reported at the assert and at the end, and a flush and a fence
/// follow the store, before the assert.
pub fn assert_inside_callee_is_repaired()
    ensures { ExampleIsHoisted assert_inside_callee (zeroed 1) 6 assert_inside_callee_reports assert_inside_callee_repaired }
{}

/// Two functions that call one another, first for the stack and then for a persistent global: the second call from
/// `main` goes to a clone, and the clones call one another.
pub fn mutual_recursion_is_hoisted()
    ensures { ExampleIsHoisted mutual_recursion (zeroed 1) 38 (mutual_recursion_report ∷ []) mutual_recursion_repaired }
{}
