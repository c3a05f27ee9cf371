//! A log of keys and values: 40 inserts, with stores that lack something at most places.

use crate::runs::{checked, in_chunks, input, record, replayed};
use hip_examples::{AMPLE, KEY_VALUE_LOG};
use hip_io::MemSink;
use hip_replay::Replayed;
use hip_report_lines::write_report;
use hip_runs::Ending;
use hip_sound::Checked;
use hip_step::Input;
use std::alloc::Global;
use std::process::Abort;

const FIRST: &str = "report flush entry 7 check 243 closed 1 path @fill:entry:1 @main:loop:6\n";

const LAST: &str = "report flush entry 237 check 243 closed 0 path @main:loop:3
report fence entry 239 check 243 closed 1 flush @take_slot:entry:3 path @take_slot:entry:2 @main:loop:5
report both entry 241 check 243 closed 1 path @fill:entry:1 @main:loop:6
report both entry 242 check 243 closed 1 path @fill:entry:3 @main:loop:6
";

/// The entries before the first step, and those of the first insert.
const FRONT: &str = "START;1000000000
REGISTER;0x100000000;0x300
STORE;0x1000002c0;0x1;0x8
FENCE
STORE;0x100000000;0x1;0x8
FLUSH;0x100000000;0x40
STORE;0x100000040;0x0;0x8
STORE;0x100000048;0x0;0x8
STORE;0x1000002c0;0x2;0x8
";

/// The input of the log's run.
fn log_input(rt: &impl Abort, alloc: Global, checked: &Checked) -> Input {
    input(rt, alloc, checked, &[], 1_000_000_000)
}

/// What is found where the log's run is recorded and its trace is replayed, 100 bytes at a time.
fn replay_of_the_log(rt: &impl Abort, alloc: Global, checked: &Checked, input: &Input) -> Replayed {
    let mut out = MemSink::new(alloc, 10_000).expect(rt, AMPLE);
    let _recorded = record(rt, alloc, checked, input, &mut out);
    let mut cabinet = in_chunks(rt, alloc, out.bytes(), 100);
    replayed(alloc, checked, &mut cabinet).expect(rt, "the trace is replayed")
}

/// Asserts the text of the log's trace.
fn assert_text(rt: &impl Abort, out: &MemSink) {
    assert!(rt; out.bytes().starts_with(FRONT.as_bytes()));
    let lines = out.bytes().iter().filter(|b| **b == b'\n').count();
    assert_eq!(rt; lines, 243);
}

fn assert_log(rt: &impl Abort, alloc: Global, checked: &Checked, input: &Input) {
    let mut out = MemSink::new(alloc, 10_000).expect(rt, AMPLE);
    let recorded = record(rt, alloc, checked, input, &mut out);
    assert_eq!(rt; recorded.entries, 243);
    assert!(rt; recorded.ending == Ending::Stop(0));
    assert_text(rt, &out);
}

fn assert_some(rt: &impl Abort, alloc: Global, checked: &Checked, found: &Replayed) {
    let reports = found.findings.reports();
    assert_eq!(rt; reports.len(), 82);
    let mut first = MemSink::new(alloc, 2_000).expect(rt, AMPLE);
    for report in reports.iter().take(1) {
        assert!(rt; write_report(checked, &report, &mut first).is_ok());
    }
    assert_eq!(rt; first.bytes(), FIRST.as_bytes());
    let mut last = MemSink::new(alloc, 2_000).expect(rt, AMPLE);
    for report in reports.iter().skip(78) {
        assert!(rt; write_report(checked, &report, &mut last).is_ok());
    }
    assert_eq!(rt; last.bytes(), LAST.as_bytes());
}

#[test]
fn key_value_log(rt: HostRuntime) {
    let checked = checked(&rt, rt.alloc(), KEY_VALUE_LOG);
    let input = log_input(&rt, rt.alloc(), &checked);
    assert_log(&rt, rt.alloc(), &checked, &input);
}

#[test]
fn reports_of_the_log(rt: HostRuntime) {
    let checked = checked(&rt, rt.alloc(), KEY_VALUE_LOG);
    let input = log_input(&rt, rt.alloc(), &checked);
    let found = replay_of_the_log(&rt, rt.alloc(), &checked, &input);
    assert_some(&rt, rt.alloc(), &checked, &found);
}
