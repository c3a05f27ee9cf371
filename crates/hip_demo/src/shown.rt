//! What a demonstration counts.

ghost use Rattle.std.specs.Prelude.{◌<◌, ◌≤◌, IfOk};
ghost use Rattle.hip_demo.specs.Demo.{HasShown, demo_input};
ghost use Rattle.hip_demo.specs.Replays.{HasFoundAgain};
ghost use Rattle.hip_gen.specs.Generated.{generated_program};
ghost use Rattle.hip_runs.specs.Validity.{IsInput, IsValid};

use crate::generated::load_generated;
use crate::replayed::{Kept, keep_run, replay_text};
use hip_gen::{LARGEST_SIZE, SEED_END};
use hip_repair_answers::repairs_cure;
use hip_repairs::{Plan, inputs_stay_valid};
use hip_replay::Replayed;
use hip_run_repairs::{Repair, repair_for};
use hip_run_traces::{each_run_has_one_trace, written_traces_are_read_back};
use hip_runs::{DEFAULT_LIMIT, Input, first_input};
use hip_sound::Checked;
use hip_types::{LOWEST_BASE, NoMemory, Row};
use std::alloc::Global;

/// What a demonstration counts while it records, replays, repairs and runs a program again.
#[derive(Drop)]
pub(crate) struct Shown {
    /// How many entries the trace has.
    pub entries: u128,
    /// How many reports the run has.
    pub reports: usize,
    pub plan: Plan,
    pub clones: usize,
    /// How many entries the trace of the repaired program has.
    pub rerun: u128,
    /// How many reports the repaired program's run has.
    pub after: usize,
}

/// Records the run of a program, and replays the trace.
fn find(alloc: Global, checked: &Checked, input: &Input) -> Result<Replayed, NoMemory>
    requires input { IsInput input.now }
    requires valid { IsValid checked.now input.now }
    ensures { IfOk result (λ replayed. HasFoundAgain checked.now input.now replayed) }
{
    // Lemmas: a run has one trace, which is read back, and the program is sound.
    each_run_has_one_trace();
    written_traces_are_read_back();
    let _program = checked.program();
    let Kept { recorded: _, text } = keep_run(alloc, checked, input)?;
    replay_text(alloc, checked, text)
}

/// Repairs a program for what its run found, and records the run of the repaired program on the same input.
fn mend(alloc: Global, checked: &Checked, replayed: Replayed) -> Result<Shown, NoMemory>
    requires found { HasFoundAgain checked.now replayed.input replayed }
    requires valid { IsValid checked.now replayed.input }
    ensures { IfOk result (λ shown. HasShown checked.now replayed.input shown) }
{
    // Lemmas: an input of the program is one of the repaired program, what a repair cures, and the program is sound.
    inputs_stay_valid();
    repairs_cure();
    let _program = checked.program();
    let repair = repair_for(alloc, checked, &replayed.findings)?;
    let rerun = keep_run(alloc, &repair.repaired.checked, &replayed.input)?;
    let reports = replayed.findings.reports().len();
    let clones = repair.repaired.clones.len();
    let after = rerun.recorded.findings.reports().len();
    let Repair { plan, .. } = repair;
    Ok(Shown {
        entries: replayed.entries,
        reports,
        plan,
        clones,
        rerun: rerun.recorded.entries,
        after,
    })
}

/// What is shown of the generated program for a seed and a size.
pub(crate) fn show_generated(alloc: Global, seed: u64, size: u64) -> Result<Shown, NoMemory>
    requires seed { seed < SEED_END }
    requires some { 1 ≤ size }
    requires small { size ≤ LARGEST_SIZE }
    ensures { IfOk result (λ shown. HasShown (generated_program seed size) (demo_input seed size) shown) }
{
    let checked = load_generated(alloc, seed, size)?;
    let input = first_input(alloc, &checked, LOWEST_BASE, DEFAULT_LIMIT, Row::new(alloc))?;
    let replayed = find(alloc, &checked, &input)?;
    mend(alloc, &checked, replayed)
}
