//! What a command says of what it did, and the end of a call.

ghost use Rattle.std.specs.Prelude.{◌≡◌};
ghost use Rattle.hip_command_io.specs.Notes.{thin_counts};
ghost use Rattle.hip_command_io.specs.Results.{WritesResult, notes_of, status_of_counts};
ghost use Rattle.hip_io.specs.Sinks.{Writes};

use crate::many_lines::put_many_counts;
use hip_answers::{Status, finish, put_ending, refuse, status_of_ending};
use hip_io::{Put, Sink};
use hip_repairs::Plan;
use hip_report_lines::{put_check_counts, put_count, put_repair_counts, put_rerun_counts};
use hip_run_repairs::ManyRepair;
use hip_runs::Ending;
use hip_sound::Checked;

/// The repair for many runs of a program, and how many traces and reports it is for.
#[derive(Drop)]
pub struct ManyCounts {
    pub checked: Checked,
    pub traces: usize,
    pub reports: u128,
    pub made: ManyRepair,
}

/// What a command that was carried out says on the notes.
#[derive(Drop)]
pub enum Counts {
    /// Nothing: all that it says is in its text.
    Nothing,
    /// How the run has ended.
    Ending(Ending),
    /// How many reports a run has.
    Reports(usize),
    /// What a repair did.
    Repair {
        reports: usize,
        plan: Plan,
        clones: usize,
    },
    /// What a repair did whose clones do not flush the low stores, and how many stores it spared.
    Thin {
        reports: usize,
        plan: Plan,
        clones: usize,
        spared: usize,
    },
    /// How many reports a run has, and how many the run of the repaired program.
    Rerun {
        before: usize,
        after: usize,
    },
    /// What one repair for many runs did, and why.
    Many(ManyCounts),
}

impl Counts {
    /// The status of the command: it was carried out.
    fn status(&self) -> Status
        ensures { result ≡ status_of_counts self.now }
    {
        match self {
            Counts::Ending(ending) => status_of_ending(*ending),
            Counts::Nothing
            | Counts::Reports(_)
            | Counts::Repair { .. }
            | Counts::Thin { .. }
            | Counts::Rerun { .. }
            | Counts::Many(_) => Status::Done,
        }
    }
}

/// What `thin` writes to the notes.
fn put_thin_counts<N: Sink>(
    notes: &mut N,
    reports: usize,
    plan: &Plan,
    clones: usize,
    spared: usize,
) -> Put
    ensures { Writes Put.Done result (N.state notes.old) (N.state notes.new)
        (thin_counts reports plan.now clones spared) }
{
    let put = put_repair_counts(notes, reports, plan, clones);
    put_count(put, notes, b"spared", spared)
}

/// Writes the counts of a command to the notes.
#[tactic(auto, unfolding(crate::specs::Results::notes_of))]
fn put_counts<N: Sink>(notes: &mut N, counts: &Counts) -> Put
    ensures { Writes Put.Done result (N.state notes.old) (N.state notes.new) (notes_of counts.now) }
{
    match counts {
        Counts::Nothing => Put::Done,
        Counts::Ending(ending) => put_ending(notes, *ending),
        Counts::Reports(reports) => put_check_counts(notes, *reports),
        Counts::Repair {
            reports,
            plan,
            clones,
        } => put_repair_counts(notes, *reports, plan, *clones),
        Counts::Thin {
            reports,
            plan,
            clones,
            spared,
        } => put_thin_counts(notes, *reports, plan, *clones, *spared),
        Counts::Rerun { before, after } => put_rerun_counts(notes, *before, *after),
        Counts::Many(counts) => put_many_counts(notes, counts),
    }
}

/// The end of a call: writes to the notes what a command says of what it did, or the line of its refusal, as far as it
/// can be written, and answers the status of the call. No command writes to the notes itself.
pub fn conclude<N: Sink>(notes: &mut N, given: Result<Counts, Status>) -> Status
    ensures { WritesResult given (N.state notes.old) (N.state notes.new) result }
{
    match given {
        Ok(counts) => {
            let tried = put_counts(notes, &counts);
            finish(notes, tried, counts.status())
        }
        Err(status) => refuse(notes, status),
    }
}
