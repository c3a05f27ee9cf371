//! The laws of traces, on definitions alone.

ghost use Rattle.hip_tree.specs.declared.program.Program.{Program};
ghost use Rattle.hip_run_traces.specs.Headers.{Gives, Stops, header};
ghost use Rattle.hip_run_traces.specs.Misfits.{DiffersAt, FirstDiffers, IsMisfit, IsTraceOf};
ghost use Rattle.hip_run_traces.specs.Traces.{IsTrace, entry_list, entry_of_event, header_of, trace};
ghost use Rattle.hip_run_traces.specs.declared.misfit.MisfitKind.{MisfitKind};
ghost use Rattle.hip_runs.specs.Step.{event, has_ended, header_entries, run};
ghost use Rattle.hip_runs.specs.Validity.{IsInput, IsValid};
ghost use Rattle.hip_runs.specs.declared.input.Input.{Input};
ghost use Rattle.hip_trace.specs.Fits.{IsSpelled, ValuesFit};
ghost use Rattle.hip_trace.specs.Pieces.{spelled};
ghost use Rattle.hip_trace.specs.Texts.{lines_of};
ghost use Rattle.hip_trace.specs.declared.entry.Entry.{Entry};
ghost use Rattle.hip_sound.specs.Sound.{IsSound};
ghost use Rattle.std.specs.Prelude.{◌≡◌, ◌+◌, ◌<◌, ◌++◌, ◌⊎◌, ◌≤◌, ℕ, Bool, List, Option, Some, All, length, map, slice_get, suc, take, true, false};

/// The trace of a run's first steps has as many entries as the run counts, and the trace of more steps begins with it.
pub fn traces_follow_the_run()
    ensures header { (I : Input) → length (header_of I) ≡ header_entries I }
    ensures length { (P : Program) → (I : Input) → (n : ℕ)
        → length (trace P I n) ≡ (run P I n).counts.entries }
    ensures front { (P : Program) → (I : Input) → (n d : ℕ) →
        (more : List Entry) × (trace P I (n + d) ≡ trace P I n ++ more) }
    ensures step { (P : Program) → (I : Input) → (n : ℕ) → has_ended (run P I n) ≡ false →
        trace P I (suc n) ≡ trace P I n ++ entry_list (entry_of_event (event P I (run P I n))) }
    ensures rests { (P : Program) → (I : Input) → (n : ℕ) → has_ended (run P I n) ≡ true →
        trace P I (suc n) ≡ trace P I n }
{}

/// Each run has one trace, which begins with the trace of any number of its steps.
pub fn each_run_has_one_trace()
    ensures there { (P : Program) → (I : Input) → (es : List Entry) × IsTrace P I es }
    ensures one { (P : Program) → (I : Input) → (es fs : List Entry) → IsTrace P I es → IsTrace P I fs
        → es ≡ fs }
    ensures front { (P : Program) → (I : Input) → (n : ℕ) → (es : List Entry) → IsTrace P I es →
        (more : List Entry) × (es ≡ trace P I n ++ more) }
{}

/// The header of a run's trace gives back the run's input: base, initial bytes, numbers and limit.
pub fn headers_read_back()
    ensures { (P : Program) → (I : Input) → (n : ℕ) → IsValid P I →
        header P (map (λ e. Some e) (trace P I n)) ≡ Gives (header_entries I) I }
{}

/// What a header gives is a valid input, and its entries are those before the first step of the run on it.
pub fn headers_give_valid_inputs()
    ensures input { (P : Program) → (bytes : List ℕ) → (whole : Bool) → (h : ℕ) → (I : Input) →
        header P (spelled whole bytes) ≡ Gives h I → IsInput I }
    ensures valid { (P : Program) → (bytes : List ℕ) → (whole : Bool) → (h : ℕ) → (I : Input) →
        header P (spelled whole bytes) ≡ Gives h I → IsValid P I }
    ensures entries { (P : Program) → (bytes : List ℕ) → (whole : Bool) → (h : ℕ) → (I : Input) →
        header P (spelled whole bytes) ≡ Gives h I → h ≡ header_entries I }
    ensures front { (P : Program) → (bytes : List ℕ) → (whole : Bool) → (h : ℕ) → (I : Input) →
        header P (spelled whole bytes) ≡ Gives h I →
        (rest : List (Option Entry)) × (spelled whole bytes ≡ map (λ e. Some e) (header_of I) ++ rest) }
{}

/// Each entry of the trace of a sound program's run on a valid input is spelled by its canonical text.
pub fn trace_entries_are_spelled()
    ensures fit { (P : Program) → IsSound P → (I : Input) → IsInput I → IsValid P I → (n : ℕ) →
        All ValuesFit (trace P I n) }
    ensures spelled { (P : Program) → IsSound P → (I : Input) → IsInput I → IsValid P I → (n : ℕ) →
        All IsSpelled (trace P I n) }
{}

/// There is at most one misfit, and no misfit if the file is the trace of a run. The misfit comes after the header.
pub fn misfits_are_one()
    ensures entry { (P : Program) → (bytes : List ℕ) → (whole : Bool) → (e e' : ℕ) → (k k' : MisfitKind) →
        IsMisfit P bytes whole e k → IsMisfit P bytes whole e' k' → e ≡ e' }
    ensures kind { (P : Program) → (bytes : List ℕ) → (whole : Bool) → (e e' : ℕ) → (k k' : MisfitKind) →
        IsMisfit P bytes whole e k → IsMisfit P bytes whole e' k' → k ≡ k' }
    ensures none { (P : Program) → (bytes : List ℕ) → (I : Input) → (e : ℕ) → (k : MisfitKind) →
        IsTraceOf P bytes I → IsMisfit P bytes true e k → ⊥ }
    ensures after { (P : Program) → (bytes : List ℕ) → (whole : Bool) → (I : Input) → (h e : ℕ)
        → (k : MisfitKind) →
        IsMisfit P bytes whole e k → header P (spelled whole bytes) ≡ Gives h I → h < e }
{}

/// If the first bytes of a file show a misfit, it is the misfit of the file, whatever follows and whether or not the
/// file is whole.
pub fn first_bytes_decide_misfits()
    ensures { (P : Program) → (front rest : List ℕ) → (whole : Bool) → (e : ℕ) → (k : MisfitKind) →
        IsMisfit P front false e k → IsMisfit P (front ++ rest) whole e k }
{}

/// After entries that the pieces spell, the first difference is the first difference of the rest. If pieces differ from
/// the trace of a run's first steps before that trace ends, they differ in the same way from the run's trace.
pub fn first_steps_decide_misfits()
    ensures here { (whole : Bool) → (front : List Entry) → (pieces : List (Option Entry))
        → (more : List Entry) →
        (k : MisfitKind) → DiffersAt whole (slice_get pieces 0) (slice_get more 0) k →
        FirstDiffers whole (map (λ e. Some e) front ++ pieces) (front ++ more) (length front) k }
    ensures longer { (P : Program) → (I : Input) → (n : ℕ) → (whole : Bool)
        → (pieces : List (Option Entry)) →
        (es : List Entry) → (count : ℕ) → (k : MisfitKind) → IsTrace P I es → count < length (trace P I n) →
        FirstDiffers whole pieces (trace P I n) count k → FirstDiffers whole pieces es count k }
{}

/// A front of a file shows no misfit if its pieces are all valid entries of a header with less than two entries, or all
/// spell the first entries of the run's trace.
pub fn fronts_that_agree_show_no_misfit()
    ensures stops { (P : Program) → (bytes : List ℕ) → (h e : ℕ) → (k : MisfitKind) →
        header P (spelled false bytes) ≡ Stops h → length (spelled false bytes) ≤ h → IsMisfit P bytes false e k
        → ⊥ }
    ensures gives { (P : Program) → (bytes : List ℕ) → (I : Input) → (h : ℕ) → (es : List Entry)
        → (e : ℕ) →
        (k : MisfitKind) → header P (spelled false bytes) ≡ Gives h I → IsTrace P I es →
        spelled false bytes ≡ map (λ x. Some x) (take (length (spelled false bytes)) es) →
        IsMisfit P bytes false e k → ⊥ }
{}

/// A front of a file shows no misfit if its pieces are the first of those that spell the entries of a run's steps.
pub fn fronts_of_traces_show_no_misfit()
    ensures { (P : Program) → (I : Input) → (n : ℕ) → (bytes : List ℕ) → (more : List (Option Entry))
        → (e : ℕ) →
        (k : MisfitKind) → IsValid P I → map (λ x. Some x) (trace P I n) ≡ spelled false bytes ++ more →
        IsMisfit P bytes false e k → ⊥ }
{}

/// Each whole file is the trace of a run of the program or has a misfit. A front of a file shows a misfit or does not.
pub fn misfits_are_decided()
    ensures whole { (P : Program) → (bytes : List ℕ) →
        ((I : Input) × IsTraceOf P bytes I) ⊎ ((e : ℕ) × (k : MisfitKind) × IsMisfit P bytes true e k) }
    ensures front { (P : Program) → (bytes : List ℕ)
        → ((e : ℕ) × (k : MisfitKind) × IsMisfit P bytes false e k)
        ⊎ ((e : ℕ) → (k : MisfitKind) → IsMisfit P bytes false e k → ⊥) }
{}

/// The text of a run's trace, with a line for each entry, reads as the trace of the run on the same input.
pub fn written_traces_are_read_back()
    ensures { (P : Program) → IsSound P → (I : Input) → IsInput I → IsValid P I → (es : List Entry)
        → IsTrace P I es →
        IsTraceOf P (lines_of es) I }
{}
