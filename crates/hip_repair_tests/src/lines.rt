//! The lines of reports and of counts, byte by byte, and cut by a sink that is full.

use crate::programs::{Place, checked, path, site, sites};
use hip_examples::{AMPLE, EVEN_AND_ODD, KEY_VALUE_LOG, ONE_STORE};
use hip_findings::{SharedReport, SharedReports, StoreReport};
use hip_io::{MemSink, Put};
use hip_repairs::Plan;
use hip_report_lines::{
    put_check_counts, put_repair_counts, put_reports, put_rerun_counts, write_report,
};
use hip_runs::Kind;
use hip_sound::Checked;
use hip_types::Row;
use std::alloc::Global;
use std::process::Abort;

/// A report, and its line.
#[derive(Clone, Copy)]
struct Case {
    entries: (u128, u128),
    kind: Kind,
    flush: Option<Place>,
    store: Place,
    calls: &'static [Place],
    closed: usize,
    line: &'static str,
}

fn found(rt: &impl Abort, alloc: Global, case: &Case) -> StoreReport {
    StoreReport {
        entry: case.entries.0,
        kind: case.kind,
        flush_site: case.flush.map(site),
        path: path(rt, alloc, case.store, case.calls),
        closed: case.closed,
    }
}

/// Asserts that each sink with less room than a line takes a front of the line.
fn assert_cut(
    rt: &impl Abort,
    alloc: Global,
    program: &Checked,
    report: &SharedReport<'_>,
    line: &[u8],
) {
    for room in 0..line.len() as u64 {
        let mut short = MemSink::new(alloc, room).expect(rt, AMPLE);
        assert!(rt;
            write_report(program, report, &mut short).is_err(),
            "{room}"
        );
        assert!(rt; line.starts_with(short.bytes()), "{room}");
    }
}

fn assert_line(rt: &impl Abort, alloc: Global, program: &Checked, case: &Case) {
    let found = found(rt, alloc, case);
    let report = SharedReport::new(case.entries.1, &found);
    let line = case.line.as_bytes();
    assert_cut(rt, alloc, program, &report, line);
    let mut sink = MemSink::new(alloc, line.len() as u64).expect(rt, AMPLE);
    assert!(rt; write_report(program, &report, &mut sink).is_ok());
    assert_eq!(rt; sink.bytes(), line);
}

fn assert_lines(rt: &impl Abort, alloc: Global, text: &str, cases: &[Case]) {
    let program = checked(rt, alloc, text);
    for case in cases {
        assert_line(rt, alloc, &program, case);
    }
}

const OF_ONE_STORE: [Case; 1] = [Case {
    entries: (3, 4),
    kind: Kind::MissingBoth,
    flush: None,
    store: (0, 0, 0),
    calls: &[],
    closed: 0,
    line: "report both entry 3 check 4 closed 0 path @main:entry:0\n",
}];

const OF_EVEN_AND_ODD: [Case; 2] = [
    Case {
        entries: (4, 5),
        kind: Kind::MissingBoth,
        flush: None,
        store: (1, 1, 0),
        calls: &[(0, 1, 2), (2, 0, 2)],
        closed: 2,
        line: "report both entry 4 check 5 closed 2 path @odd:more:0 @even:more:2 @main:entry:2\n",
    },
    Case {
        entries: (340_282_366_920_938_463_463_374_607_431_768_211_455, 1),
        kind: Kind::MissingFlush,
        flush: None,
        store: (1, 1, 0),
        calls: &[],
        closed: 0,
        line: "report flush entry 340282366920938463463374607431768211455 check 1 closed 0 path @odd:more:0\n",
    },
];

const OF_KEY_VALUE_LOG: [Case; 4] = [
    Case {
        entries: (7, 243),
        kind: Kind::MissingFlush,
        flush: None,
        store: (1, 0, 1),
        calls: &[(2, 1, 6)],
        closed: 1,
        line: "report flush entry 7 check 243 closed 1 path @fill:entry:1 @main:loop:6\n",
    },
    Case {
        entries: (237, 243),
        kind: Kind::MissingFlush,
        flush: None,
        store: (2, 1, 3),
        calls: &[],
        closed: 0,
        line: "report flush entry 237 check 243 closed 0 path @main:loop:3\n",
    },
    Case {
        entries: (239, 243),
        kind: Kind::MissingFence,
        flush: Some((0, 0, 3)),
        store: (0, 0, 2),
        calls: &[(2, 1, 5)],
        closed: 1,
        line: "report fence entry 239 check 243 closed 1 flush @take_slot:entry:3 path @take_slot:entry:2 @main:loop:5\n",
    },
    Case {
        entries: (242, 243),
        kind: Kind::MissingBoth,
        flush: None,
        store: (1, 0, 3),
        calls: &[(2, 1, 6)],
        closed: 1,
        line: "report both entry 242 check 243 closed 1 path @fill:entry:3 @main:loop:6\n",
    },
];

#[test]
fn lines_of_reports(rt: HostRuntime) {
    assert_lines(&rt, rt.alloc(), ONE_STORE, &OF_ONE_STORE);
    assert_lines(&rt, rt.alloc(), EVEN_AND_ODD, &OF_EVEN_AND_ODD);
    assert_lines(&rt, rt.alloc(), KEY_VALUE_LOG, &OF_KEY_VALUE_LOG);
}

const LINES_OF_TWO: &str = "report flush entry 237 check 243 closed 0 path @main:loop:3
report both entry 242 check 243 closed 1 path @fill:entry:3 @main:loop:6
";

/// These two reports of the log, of one check.
fn two_reports(rt: &impl Abort, alloc: Global) -> SharedReports {
    let mut stores = Row::new(alloc);
    let flush = found(rt, alloc, &OF_KEY_VALUE_LOG[1]);
    stores.push(flush).expect(rt, AMPLE);
    let both = found(rt, alloc, &OF_KEY_VALUE_LOG[3]);
    stores.push(both).expect(rt, AMPLE);
    let mut reports = SharedReports::new(alloc);
    reports.push(alloc, 243, stores).expect(rt, AMPLE);
    reports
}

/// Asserts that these reports have these lines.
fn assert_put(
    rt: &impl Abort,
    alloc: Global,
    program: &Checked,
    reports: &SharedReports,
    lines: &str,
) {
    let mut sink = MemSink::new(alloc, 1_000).expect(rt, AMPLE);
    let put = put_reports(&mut sink, program.program(), reports);
    assert!(rt; put == Put::Done);
    assert!(rt; sink.bytes() == lines.as_bytes());
}

/// The lines of two reports are in the order of the reports.
#[test]
fn lines_of_two_reports(rt: HostRuntime) {
    let program = checked(&rt, rt.alloc(), KEY_VALUE_LOG);
    let reports = two_reports(&rt, rt.alloc());
    assert_put(&rt, rt.alloc(), &program, &reports, LINES_OF_TWO);
}

const COUNTS: &str = "reports 82
reports 82
flushes 1
fences 2
hoists 0
clones 12
before 82
after 0
";

/// The counts of the key-value log's commands.
#[test]
fn lines_of_counts(rt: HostRuntime) {
    let alloc = rt.alloc();
    let plan = Plan {
        flush_after: sites(&rt, alloc, &[(2, 1, 3)]),
        fence_after: sites(&rt, alloc, &[(0, 0, 3), (1, 0, 1)]),
        hoist: Row::new(alloc),
    };
    let mut notes = MemSink::new(alloc, 1_000).expect(&rt, AMPLE);
    assert!(rt; put_check_counts(&mut notes, 82) == Put::Done);
    assert!(rt; put_repair_counts(&mut notes, 82, &plan, 12) == Put::Done);
    assert!(rt; put_rerun_counts(&mut notes, 82, 0) == Put::Done);
    assert_eq!(rt; notes.bytes(), COUNTS.as_bytes());
}
