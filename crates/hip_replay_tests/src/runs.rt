//! Runs that are recorded and replayed in memory.

ghost use Rattle.std.specs.Prelude.{◌≤◌};

use hip_examples::AMPLE;
use hip_io::{Cabinet, Fetched, MemCabinet, MemSink, NamedFile};
use hip_parse::parse;
use hip_replay::{Recorded, ReplayRefusal, Replayed, Sought, record_run, replay};
use hip_report::SharedReports;
use hip_report_lines::put_reports;
use hip_sound::Checked;
use hip_step::{Input, why_not};
use hip_trace::Reader;
use hip_types::Row;
use hip_typing::check;
use std::alloc::Global;
use std::process::Abort;

/// Where the region begins.
pub const BASE: u64 = 4_294_967_296;

/// The sound program of a text.
pub fn checked(rt: &impl Abort, alloc: Global, text: &str) -> Checked {
    let program = parse(alloc, text.as_bytes()).expect(rt, "the text is read");
    check(alloc, program).expect(rt, "the program is sound")
}

/// The input of a run that begins with the initialisers' bytes.
pub fn input(
    rt: &impl Abort,
    alloc: Global,
    checked: &Checked,
    numbers: &[i64],
    limit: u64,
) -> Input {
    Input {
        base: BASE,
        image: checked.region_bytes(alloc, BASE).expect(rt, AMPLE),
        numbers: Row::from_slice(alloc, numbers).expect(rt, AMPLE),
        limit,
    }
}

/// Records the run of a program on a valid input.
pub fn record(
    rt: &impl Abort,
    alloc: Global,
    checked: &Checked,
    input: &Input,
    out: &mut MemSink,
) -> Recorded {
    assert!(rt; why_not(checked, input).is_none(), "the input is valid");
    record_run(alloc, checked, input, out).expect(rt, "the run is recorded")
}

/// A cabinet with the file `trace`, which gives `chunk` bytes at a time.
pub fn in_chunks(rt: &impl Abort, alloc: Global, trace: &[u8], chunk: usize) -> MemCabinet
    requires { 1 ≤ chunk }
{
    let mut files = Row::new(alloc);
    files
        .push(NamedFile {
            name: Row::from_slice(alloc, b"trace").expect(rt, AMPLE),
            bytes: Row::from_slice(alloc, trace).expect(rt, AMPLE),
        })
        .expect(rt, AMPLE);
    MemCabinet::new(files, chunk)
}

/// Replays the file `trace` of a cabinet.
pub fn replayed<C: Cabinet>(
    alloc: Global,
    checked: &Checked,
    cabinet: &mut C,
) -> Result<Replayed, ReplayRefusal> {
    match cabinet.fetch("trace") {
        Fetched::Ready => {
            let mut reader = Reader::new();
            replay(alloc, checked, Sought::Findings, &mut reader, cabinet)
        }
        _ => Err(ReplayRefusal::ReadFault),
    }
}

/// Asserts the lines of reports.
pub fn assert_reports(
    rt: &impl Abort,
    alloc: Global,
    checked: &Checked,
    reports: &SharedReports,
    lines: &str,
) {
    let mut out = MemSink::new(alloc, 2_000).expect(rt, AMPLE);
    let _put = put_reports(&mut out, checked.program(), reports);
    assert_eq!(rt; out.bytes(), lines.as_bytes());
}
