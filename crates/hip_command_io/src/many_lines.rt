//! What `many` writes to the notes.

ghost use Rattle.std.specs.Prelude.{◌≡◌, ◌++◌, codes, length};
ghost use Rattle.hip_command_io.specs.Notes.{many_notes, reason_line, reason_lines, sort_word};
ghost use Rattle.hip_io.specs.Sinks.{Writes};
ghost use Rattle.hip_report_lines.specs.Reports.{numbered};

use crate::counts::ManyCounts;
use hip_answers::put_number;
use hip_io::{Put, Sink, put_after};
use hip_many::{Reason, Sort};
use hip_report_lines::{put_count, put_repair_totals, put_site};
use hip_tree::Program;

fn sort_word(sort: Sort) -> &'static [u8]
    ensures { result.now ≡ sort_word sort }
{
    match sort {
        Sort::Flush => b"flush".as_slice(),
        Sort::Fence => b"fence".as_slice(),
        Sort::Hoist => b"hoist".as_slice(),
    }
}

fn put_sort<N: Sink>(before: Put, notes: &mut N, sort: Sort) -> Put
    ensures { Writes before result (N.state notes.old) (N.state notes.new) (codes "why " ++ sort_word sort) }
{
    let put = put_after(before, notes, b"why ");
    put_after(put, notes, sort_word(sort))
}

fn put_traces<N: Sink>(before: Put, notes: &mut N, traces: u64) -> Put
    ensures { Writes before result (N.state notes.old) (N.state notes.new) (numbered (codes " traces ") traces) }
{
    let put = put_after(before, notes, b" traces ");
    put_number(put, notes, traces as u128)
}

fn put_reason<N: Sink>(before: Put, notes: &mut N, program: &Program, reason: &Reason) -> Put
    ensures { Writes before result (N.state notes.old) (N.state notes.new) (reason_line program.now reason.now) }
{
    let put = put_sort(before, notes, reason.sort);
    let put = put_after(put, notes, b" ");
    let put = put_site(put, notes, program, reason.site);
    let put = put_traces(put, notes, reason.traces);
    put_after(put, notes, b"\n")
}

fn put_reasons<N: Sink>(before: Put, notes: &mut N, program: &Program, reasons: &[Reason]) -> Put
    ensures { Writes before result (N.state notes.old) (N.state notes.new) (reason_lines program.now reasons.now) }
{
    let mut put = before;
    'each: for reason in reasons {
        put = put_reason(put, notes, program, reason);
    }
    put
}

/// How many traces, reports, flushes, fences, hoisted calls and clones there are, and a line for each reason. Takes no
/// memory.
pub(crate) fn put_many_counts<N: Sink>(notes: &mut N, counts: &ManyCounts) -> Put
    ensures { Writes Put.Done result (N.state notes.old) (N.state notes.new)
        (many_notes counts.now.checked counts.now.traces counts.now.reports counts.now.made.repair.plan
        (length counts.now.made.repair.repaired.clones) counts.now.made.reasons) }
{
    let made = &counts.made;
    let put = put_count(Put::Done, notes, b"traces", counts.traces);
    let clones = made.repair.repaired.clones.len();
    let put = put_repair_totals(put, notes, counts.reports, &made.repair.plan, clones);
    put_reasons(
        put,
        notes,
        counts.checked.program(),
        made.reasons.as_slice(),
    )
}
