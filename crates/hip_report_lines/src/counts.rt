ghost use Rattle.hip_io.specs.Sinks.{Writes};
ghost use Rattle.hip_report_lines.specs.Counts.{check_counts, count_line, repair_counts, rerun_counts};

use hip_answers::put_number;
use hip_io::{Put, Sink, put_after};
use hip_repairs::Plan;

/// A word and a number, on a line.
pub fn put_total<S: Sink>(before: Put, out: &mut S, word: &[u8], n: u128) -> Put
    ensures { Writes before result (S.state out.old) (S.state out.new) (count_line word.now n) }
{
    let put = put_after(before, out, word);
    let put = put_after(put, out, b" ");
    let put = put_number(put, out, n);
    put_after(put, out, b"\n")
}

/// A word and a count, on a line.
pub fn put_count<S: Sink>(before: Put, out: &mut S, word: &[u8], n: usize) -> Put
    ensures { Writes before result (S.state out.old) (S.state out.new) (count_line word.now n) }
{
    put_total(before, out, word, n as u128)
}

/// What `check` writes to the notes.
pub fn put_check_counts<N: Sink>(notes: &mut N, reports: usize) -> Put
    ensures { Writes Put.Done result (N.state notes.old) (N.state notes.new) (check_counts reports) }
{
    put_count(Put::Done, notes, b"reports", reports)
}

/// What `repair` writes to the notes.
pub fn put_repair_counts<N: Sink>(notes: &mut N, reports: usize, plan: &Plan, clones: usize) -> Put
    ensures { Writes Put.Done result (N.state notes.old) (N.state notes.new) (repair_counts reports plan.now clones) }
{
    put_repair_totals(Put::Done, notes, reports as u128, plan, clones)
}

/// The counts of a repair; the reports may be those of many runs.
pub fn put_repair_totals<N: Sink>(
    before: Put,
    notes: &mut N,
    reports: u128,
    plan: &Plan,
    clones: usize,
) -> Put
    ensures { Writes before result (N.state notes.old) (N.state notes.new) (repair_counts reports plan.now clones) }
{
    let put = put_total(before, notes, b"reports", reports);
    let put = put_count(put, notes, b"flushes", plan.flush_after.len());
    let put = put_count(put, notes, b"fences", plan.fence_after.len());
    let put = put_count(put, notes, b"hoists", plan.hoist.len());
    put_count(put, notes, b"clones", clones)
}

/// What `rerun` writes to the notes.
pub fn put_rerun_counts<N: Sink>(notes: &mut N, before: usize, after: usize) -> Put
    ensures { Writes Put.Done result (N.state notes.old) (N.state notes.new) (rerun_counts before after) }
{
    let put = put_count(Put::Done, notes, b"before", before);
    put_count(put, notes, b"after", after)
}
