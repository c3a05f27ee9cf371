ghost use Rattle.std.specs.Prelude.{◌≡◌, ◌++◌, codes};
ghost use Rattle.hip_io.specs.Sinks.{Delivers, Writes, Wrote};
ghost use Rattle.hip_report_lines.specs.Reports.{flush_text, kind_word, numbered, path_text, report_line, report_lines, site_text};

use crate::sites::put_site;
use hip_answers::put_number;
use hip_findings::{SharedReport, SharedReports};
use hip_io::{Put, Sink, WriteFault, deliver_after, put_after};
use hip_runs::Kind;
use hip_sound::Checked;
use hip_tree::{Program, Site};

fn kind_word(kind: Kind) -> &'static [u8]
    ensures { result.now ≡ kind_word kind }
{
    match kind {
        Kind::MissingFlush => b"flush".as_slice(),
        Kind::MissingFence => b"fence".as_slice(),
        Kind::MissingBoth => b"both".as_slice(),
    }
}

fn put_kind<S: Sink>(before: Put, out: &mut S, kind: Kind) -> Put
    ensures { Writes before result (S.state out.old) (S.state out.new) (codes "report " ++ kind_word kind) }
{
    let put = put_after(before, out, b"report ");
    put_after(put, out, kind_word(kind))
}

/// Words and a number.
fn put_numbered<S: Sink>(before: Put, out: &mut S, words: &[u8], n: u128) -> Put
    ensures { Writes before result (S.state out.old) (S.state out.new) (numbered words.now n) }
{
    let put = put_after(before, out, words);
    put_number(put, out, n)
}

fn put_flush<S: Sink>(before: Put, out: &mut S, program: &Program, site: Option<Site>) -> Put
    ensures { Writes before result (S.state out.old) (S.state out.new) (flush_text program.now site) }
{
    match site {
        Some(site) => {
            let put = put_after(before, out, b" flush ");
            put_site(put, out, program, site)
        }
        None => put_after(before, out, b""),
    }
}

fn put_step<S: Sink>(before: Put, out: &mut S, program: &Program, site: Site) -> Put
    ensures { Writes before result (S.state out.old) (S.state out.new) (codes " " ++ site_text program.now site) }
{
    let put = put_after(before, out, b" ");
    put_site(put, out, program, site)
}

fn put_path<S: Sink>(before: Put, out: &mut S, program: &Program, report: &SharedReport<'_>) -> Put
    ensures { Writes before result (S.state out.old) (S.state out.new) (path_text program.now report.now.path) }
{
    let mut put = before;
    'each: for site in report.path() {
        put = put_step(put, out, program, site);
    }
    put
}

fn put_report<S: Sink>(
    before: Put,
    out: &mut S,
    program: &Program,
    report: &SharedReport<'_>,
) -> Put
    ensures { Writes before result (S.state out.old) (S.state out.new) (report_line program.now report.now) }
{
    let put = put_kind(before, out, report.kind());
    let put = put_numbered(put, out, b" entry ", report.entry());
    let put = put_numbered(put, out, b" check ", report.check_entry());
    let put = put_numbered(put, out, b" closed ", report.closed() as u128);
    let put = put_flush(put, out, program, report.flush_site());
    let put = put_after(put, out, b" path");
    let put = put_path(put, out, program, report);
    put_after(put, out, b"\n")
}

/// Writes the lines of reports and delivers them. Takes no memory.
pub fn put_reports<S: Sink>(out: &mut S, program: &Program, reports: &SharedReports) -> Put
    ensures { Delivers Put.Done result (S.state out.old) (S.state out.new) (S.held out.new)
        (report_lines program.now reports.now) }
{
    let put = put_each(out, program, reports);
    deliver_after(put, out)
}

fn put_each<S: Sink>(out: &mut S, program: &Program, reports: &SharedReports) -> Put
    ensures { Writes Put.Done result (S.state out.old) (S.state out.new) (report_lines program.now reports.now) }
{
    let mut put = Put::Done;
    'each: for report in reports.iter() {
        put = put_report(put, out, program, &report);
    }
    put
}

/// The line of a report. Takes no memory.
pub fn write_report<S: Sink>(
    checked: &Checked,
    report: &SharedReport<'_>,
    out: &mut S,
) -> Result<(), WriteFault>
    ensures { Wrote (S.state out.old) (S.state out.new) (report_line checked.now report.now) result }
{
    match put_report(Put::Done, out, checked.program(), report) {
        Put::Done => Ok(()),
        Put::Failed => Err(WriteFault),
    }
}
