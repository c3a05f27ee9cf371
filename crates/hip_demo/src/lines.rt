//! The lines of a demonstration.

ghost use Rattle.hip_demo.specs.Demo.{demo_text, first_line};
ghost use Rattle.hip_io.specs.Sinks.{Delivers, Writes};

use crate::shown::Shown;
use hip_answers::put_number;
use hip_io::{Put, Sink, deliver_after, put_after};
use hip_report_lines::{put_count, put_repair_totals, put_total};

fn put_first_line<S: Sink>(out: &mut S, seed: u64, size: u64) -> Put
    ensures { Writes Put.Done result (S.state out.old) (S.state out.new) (first_line seed size) }
{
    let put = put_after(Put::Done, out, b"seed ");
    let put = put_number(put, out, seed as u128);
    let put = put_after(put, out, b" size ");
    let put = put_number(put, out, size as u128);
    put_after(put, out, b"\n")
}

/// Writes what is shown of the generated program for a seed and a size, and delivers it.
pub(crate) fn put_shown<S: Sink>(out: &mut S, seed: u64, size: u64, shown: &Shown) -> Put
    ensures { Delivers Put.Done result (S.state out.old) (S.state out.new) (S.held out.new)
        (demo_text seed size shown.now) }
{
    let put = put_lines(out, seed, size, shown);
    deliver_after(put, out)
}

fn put_lines<S: Sink>(out: &mut S, seed: u64, size: u64, shown: &Shown) -> Put
    ensures { Writes Put.Done result (S.state out.old) (S.state out.new) (demo_text seed size shown.now) }
{
    let put = put_first_line(out, seed, size);
    let put = put_total(put, out, b"entries", shown.entries);
    let put = put_repair_totals(put, out, shown.reports as u128, &shown.plan, shown.clones);
    let put = put_total(put, out, b"rerun", shown.rerun);
    put_count(put, out, b"after", shown.after)
}
