//! Laws of the order of a run: of the parts in a cache line, of flushes and fences, and of calls and the frames that
//! they make.

ghost use Rattle.hip_tree.specs.declared.program.Program.{Program};
ghost use Rattle.hip_runs.specs.StoredParts.After.{lines_after};
ghost use Rattle.hip_runs.specs.Frames.{FramesMove};
ghost use Rattle.hip_runs.specs.Outputs.{ending_by, printed_by};
ghost use Rattle.hip_runs.specs.StoredParts.Order.{HasCalls, HasOrder, is_before, last_fence};
ghost use Rattle.hip_runs.specs.StoredParts.Parts.{PartOf};
ghost use Rattle.hip_runs.specs.StoredParts.Since.{top_site};
ghost use Rattle.hip_runs.specs.Sites.{HasSites};
ghost use Rattle.hip_runs.specs.State.{StorePart, levels_of};
ghost use Rattle.hip_runs.specs.Step.{counted, event, has_ended, run};
ghost use Rattle.hip_runs.specs.declared.input.Input.{Input};
ghost use Rattle.std.specs.Prelude.{◌≡◌, ◌++◌, ℕ, suc, true, false};

/// In each line of a run the parts are in the order of their stores' steps, each covers only bytes of its line, and it
/// is flushed exactly if it has a first flush.
pub fn lines_keep_their_order()
    ensures { (P : Program) → (I : Input) → (n : ℕ) → HasOrder (run P I n) }
{}

/// A part is fenced exactly if its store came before the last fence.
pub fn the_last_fence_tells()
    ensures { (P : Program) → (I : Input) → (n : ℕ) → (part : StorePart) → PartOf (run P I n).lines part →
        part.fenced ≡ is_before part.step (last_fence P I n) }
{}

/// A step leaves the frames below the top one, or below the one that it returns to, as they were. The top frame stays,
/// or it calls a function whose frame is put on top, or it returns. A run that has ended stays as it is.
pub fn a_step_moves_the_top()
    ensures { (P : Program) → (I : Input) → (n : ℕ) → FramesMove P (run P I n) (run P I (suc n)) }
{}

/// The calls that have not returned were made one after another, and so were the calls of each part, before its store.
pub fn calls_were_made_in_order()
    ensures { (P : Program) → (I : Input) → (n : ℕ) → HasCalls (run P I n) }
{}

/// The site of a part is the site of a store. The site of its first flush is that of a call that flushes, which takes
/// no fence if the part is not durable. The calls that have not returned, and the calls of each part, are calls of
/// functions of the program.
pub fn states_name_what_stands_there()
    ensures { (P : Program) → (I : Input) → (n : ℕ) → HasSites P (run P I n) }
{}

/// The cache lines after a step follow from the step's event, the site and the calls of the top frame, and the counts.
pub fn events_tell_the_next_lines()
    ensures { (P : Program) → (I : Input) → (n : ℕ) →
        (run P I (suc n)).lines ≡ lines_after I (event P I (run P I n)) (run P I n).counts
        (top_site (run P I n).frames) (levels_of (run P I n).frames) (run P I n).lines }
{}

/// A step counts itself, and its entry in the trace if it has one; a run that has ended stays as it is.
pub fn steps_are_counted()
    ensures counted { (P : Program) → (I : Input) → (n : ℕ) → has_ended (run P I n) ≡ false →
        (run P I (suc n)).counts ≡ counted (event P I (run P I n)) (run P I n).counts }
    ensures rests { (P : Program) → (I : Input) → (n : ℕ) → has_ended (run P I n) ≡ true →
        run P I (suc n) ≡ run P I n }
{}

/// The event of a step gives what the run prints in it, which comes after all that it printed before, and whether the
/// run ends. A run that has ended prints nothing more.
pub fn events_tell_output_and_ending()
    ensures output { (P : Program) → (I : Input) → (n : ℕ) →
        (run P I (suc n)).world.output ≡ (run P I n).world.output ++ printed_by (event P I (run P I n)) }
    ensures ending { (P : Program) → (I : Input) → (n : ℕ) →
        (run P I (suc n)).world.ending ≡ ending_by (event P I (run P I n)) }
{}
