//! The traces of runs and what the runs find, when they are recorded and when the traces are replayed.

use crate::programs::{
    ASSERT_UNDER_RECURSION, ASSERTED_RANGES, CALLED_AGAIN, FLUSHED_RANGES, HALF_OVERWRITTEN,
    MISALIGNED, OVERWRITTEN_BY_HALVES, TWO_NUMBERS,
};
use crate::runs::{assert_reports, checked, in_chunks, input, record, replayed};
use hip_examples::{
    AMPLE, ASSERT_INSIDE_CALLEE, BOTH_LINES_FLUSHED, COPY, DIVIDE_BY_ZERO, ENDLESS_LOOP,
    EVEN_AND_ODD, FENCE_WITHOUT_FLUSH, FLUSH_OF_A_RANGE, FLUSH_WITHOUT_FENCE, ONE_OF_TWO_LINES,
    ONE_STORE, OVERWRITTEN, PERSIST, REACH, SEVEN, SHARED_LINE, TWO_LINES,
};
use hip_io::MemSink;
use hip_replay::Recorded;
use hip_runs::{Ending, TrapKind};
use hip_sound::Checked;
use hip_step::Input;
use std::alloc::Global;
use std::process::Abort;

/// A program with its numbers and limit, the text of its run's trace, how the run ends, and the lines of its reports.
struct Recording {
    program: &'static str,
    numbers: &'static [i64],
    limit: u64,
    trace: &'static str,
    entries: u128,
    ending: Ending,
    reports: &'static str,
}

const LIMIT: u64 = 1_000_000_000;

const STOPS: Ending = Ending::Stop(0);

/// Asserts what is found where the trace is replayed.
fn assert_replayed(rt: &impl Abort, alloc: Global, checked: &Checked, case: &Recording) {
    let mut cabinet = in_chunks(rt, alloc, case.trace.as_bytes(), 7);
    let found = replayed(alloc, checked, &mut cabinet).expect(rt, case.trace);
    assert!(rt; found.entries == case.entries, "{}", case.trace);
    assert!(rt; found.ending == case.ending, "{}", case.trace);
    let reports = found.findings.reports();
    assert_reports(rt, alloc, checked, reports, case.reports);
}

fn assert_found(
    rt: &impl Abort,
    alloc: Global,
    checked: &Checked,
    case: &Recording,
    found: &Recorded,
) {
    assert!(rt; found.entries == case.entries, "{}", case.trace);
    assert!(rt; found.ending == case.ending, "{}", case.trace);
    let reports = found.findings.reports();
    assert_reports(rt, alloc, checked, reports, case.reports);
}

/// Asserts what is written and found where the run is recorded.
fn assert_recorded(
    rt: &impl Abort,
    alloc: Global,
    checked: &Checked,
    input: &Input,
    case: &Recording,
) {
    let mut out = MemSink::new(alloc, 2_000).expect(rt, AMPLE);
    let found = record(rt, alloc, checked, input, &mut out);
    assert_eq!(rt; out.bytes(), case.trace.as_bytes());
    assert_found(rt, alloc, checked, case, &found);
}

fn assert_both(rt: &impl Abort, alloc: Global, checked: &Checked, case: &Recording) {
    let input = input(rt, alloc, checked, case.numbers, case.limit);
    assert_recorded(rt, alloc, checked, &input, case);
    assert_replayed(rt, alloc, checked, case);
}

/// Asserts, for each run, what is recorded and what is replayed.
fn assert_all(rt: &impl Abort, alloc: Global, cases: &[Recording]) {
    for case in cases {
        let checked = checked(rt, alloc, case.program);
        assert_both(rt, alloc, &checked, case);
    }
}

const OF_ONE_FUNCTION: &[Recording] = &[
    Recording {
        program: ONE_STORE,
        numbers: &[],
        limit: LIMIT,
        trace: "START;1000000000
REGISTER;0x100000000;0x40
STORE;0x100000000;0x5;0x8
STOP;0
",
        entries: 4,
        ending: STOPS,
        reports: "report both entry 3 check 4 closed 0 path @main:entry:0\n",
    },
    Recording {
        program: FENCE_WITHOUT_FLUSH,
        numbers: &[],
        limit: LIMIT,
        trace: "START;1000000000
REGISTER;0x100000000;0x40
STORE;0x100000000;0x5;0x8
FENCE
STOP;0
",
        entries: 5,
        ending: STOPS,
        reports: "report flush entry 3 check 5 closed 0 path @main:entry:0\n",
    },
    Recording {
        program: FLUSH_WITHOUT_FENCE,
        numbers: &[],
        limit: LIMIT,
        trace: "START;1000000000
REGISTER;0x100000000;0x40
STORE;0x100000000;0x5;0x8
FLUSH;0x100000000;0x40
STOP;0
",
        entries: 5,
        ending: STOPS,
        reports: "report fence entry 3 check 5 closed 0 flush @main:entry:1 path @main:entry:0\n",
    },
    Recording {
        program: SHARED_LINE,
        numbers: &[],
        limit: LIMIT,
        trace: "START;1000000000
REGISTER;0x100000000;0x40
STORE;0x100000000;0x5;0x8
STORE;0x100000008;0x6;0x8
FLUSH;0x100000000;0x40
FENCE
STOP;0
",
        entries: 7,
        ending: STOPS,
        reports: "",
    },
];

const OF_OVERWRITTEN_STORES: &[Recording] = &[
    Recording {
        program: OVERWRITTEN,
        numbers: &[],
        limit: LIMIT,
        trace: "START;1000000000
REGISTER;0x100000000;0x40
STORE;0x100000000;0x5;0x8
STORE;0x100000000;0x6;0x8
STOP;0
",
        entries: 5,
        ending: STOPS,
        reports: "report both entry 4 check 5 closed 0 path @main:entry:1\n",
    },
    Recording {
        program: OVERWRITTEN_BY_HALVES,
        numbers: &[],
        limit: LIMIT,
        trace: "START;1000000000
REGISTER;0x100000000;0x40
STORE;0x100000000;0x5;0x8
STORE;0x100000000;0x1;0x4
STORE;0x100000004;0x2;0x4
STOP;0
",
        entries: 6,
        ending: STOPS,
        reports: "report both entry 4 check 6 closed 0 path @main:entry:1
report both entry 5 check 6 closed 0 path @main:entry:3
",
    },
    Recording {
        program: HALF_OVERWRITTEN,
        numbers: &[],
        limit: LIMIT,
        trace: "START;1000000000
REGISTER;0x100000000;0x40
STORE;0x100000000;0x5;0x8
STORE;0x100000000;0x1;0x4
STOP;-1
",
        entries: 5,
        ending: Ending::Stop(-1),
        reports: "report both entry 3 check 5 closed 0 path @main:entry:0
report both entry 4 check 5 closed 0 path @main:entry:1
",
    },
];

const OF_CALLS: &[Recording] = &[
    Recording {
        program: COPY,
        numbers: &[],
        limit: LIMIT,
        trace: "START;1000000000
REGISTER;0x100000000;0x40
STORE;0x100000000;0x9;0x8
STOP;0
",
        entries: 4,
        ending: STOPS,
        reports: "report both entry 3 check 4 closed 1 path @copy:entry:1 @main:entry:4\n",
    },
    Recording {
        program: REACH,
        numbers: &[],
        limit: LIMIT,
        trace: "START;1000000000
REGISTER;0x100000000;0x40
STORE;0x100000000;0x4;0x8
STOP;0
",
        entries: 4,
        ending: STOPS,
        reports: "report both entry 3 check 4 closed 1 path @reach:entry:3 @main:entry:1\n",
    },
    Recording {
        program: ASSERT_INSIDE_CALLEE,
        numbers: &[],
        limit: LIMIT,
        trace: "START;1000000000
REGISTER;0x100000000;0x40
STORE;0x100000000;0x9;0x8
ASSERT;0x100000000;0x8
STOP;0
",
        entries: 5,
        ending: STOPS,
        reports: "report both entry 3 check 4 closed 0 path @copy:entry:1 @main:entry:0
report both entry 3 check 5 closed 1 path @copy:entry:1 @main:entry:0
",
    },
];

const OF_FRAMES: &[Recording] = &[
    Recording {
        program: EVEN_AND_ODD,
        numbers: &[],
        limit: LIMIT,
        trace: "START;1000000000
REGISTER;0x100000000;0x40
STORE;0x100000000;0x2;0x8
STORE;0x100000000;0x1;0x8
STOP;0
",
        entries: 5,
        ending: STOPS,
        reports: "report both entry 4 check 5 closed 2 path @odd:more:0 @even:more:2 @main:entry:2\n",
    },
    Recording {
        program: CALLED_AGAIN,
        numbers: &[],
        limit: LIMIT,
        trace: "START;1000000000
REGISTER;0x100000000;0x40
STORE;0x100000000;0x7;0x8
ASSERT;0x100000000;0x8
STOP;0
",
        entries: 5,
        ending: STOPS,
        reports: "report both entry 3 check 4 closed 1 path @visit:first:0 @main:loop:0
report both entry 3 check 5 closed 1 path @visit:first:0 @main:loop:0
",
    },
    Recording {
        program: ASSERT_UNDER_RECURSION,
        numbers: &[],
        limit: LIMIT,
        trace: "START;1000000000
REGISTER;0x100000000;0x40
STORE;0x100000000;0x2;0x8
STORE;0x100000000;0x1;0x8
ASSERT;0x100000000;0x8
STOP;0
",
        entries: 6,
        ending: STOPS,
        reports: "report both entry 4 check 5 closed 0 path @descend:more:0 @descend:more:2 @main:entry:0
report both entry 4 check 6 closed 2 path @descend:more:0 @descend:more:2 @main:entry:0
",
    },
];

const OF_ENDINGS: &[Recording] = &[
    Recording {
        program: ENDLESS_LOOP,
        numbers: &[],
        limit: 4,
        trace: "START;4
REGISTER;0x100000000;0x40
STORE;0x100000000;0x7;0x8
ASSERT;0x100000000;0x8
CUT
",
        entries: 5,
        ending: Ending::Cut,
        reports: "report both entry 3 check 4 closed 0 path @main:loop:0\n",
    },
    Recording {
        program: ENDLESS_LOOP,
        numbers: &[],
        limit: 0,
        trace: "START;0
REGISTER;0x100000000;0x40
CUT
",
        entries: 3,
        ending: Ending::Cut,
        reports: "",
    },
    Recording {
        program: DIVIDE_BY_ZERO,
        numbers: &[],
        limit: LIMIT,
        trace: "START;1000000000
REGISTER;0x100000000;0x40
STORE;0x100000000;0x5;0x8
TRAP;divzero
",
        entries: 4,
        ending: Ending::Trap(TrapKind::DivZero),
        reports: "",
    },
    Recording {
        program: ASSERTED_RANGES,
        numbers: &[],
        limit: LIMIT,
        trace: "START;1000000000
REGISTER;0x100000000;0x40
ASSERT;0x100000000;0x0
ASSERT;0x10000003f;0x1
TRAP;address
",
        entries: 5,
        ending: Ending::Trap(TrapKind::Address),
        reports: "",
    },
];

const OF_INPUTS: &[Recording] = &[
    Recording {
        program: SEVEN,
        numbers: &[],
        limit: LIMIT,
        trace: "START;1000000000
REGISTER;0x100000000;0x40
IMAGE;0x100000000;07000000000000000000000000000000000000000000000000000000000000000000000000000000000000000000000000000000000000000000000000000000
STOP;0
",
        entries: 4,
        ending: STOPS,
        reports: "",
    },
    Recording {
        program: TWO_NUMBERS,
        numbers: &[-5, 9_223_372_036_854_775_807],
        limit: LIMIT,
        trace: "START;1000000000
REGISTER;0x100000000;0x0
INPUT;-5
INPUT;9223372036854775807
STOP;0
",
        entries: 5,
        ending: STOPS,
        reports: "",
    },
    Recording {
        program: TWO_NUMBERS,
        numbers: &[-9_223_372_036_854_775_808],
        limit: LIMIT,
        trace: "START;1000000000
REGISTER;0x100000000;0x0
INPUT;-9223372036854775808
TRAP;input
",
        entries: 4,
        ending: Ending::Trap(TrapKind::InputEnd),
        reports: "",
    },
];

const OF_RANGES: &[Recording] = &[
    Recording {
        program: PERSIST,
        numbers: &[],
        limit: LIMIT,
        trace: "START;1000000000
REGISTER;0x100000000;0x40
STORE;0x100000000;0x5;0x8
PERSIST;0x100000000;0x40
STOP;0
",
        entries: 5,
        ending: STOPS,
        reports: "",
    },
    Recording {
        program: FLUSH_OF_A_RANGE,
        numbers: &[],
        limit: LIMIT,
        trace: "START;1000000000
REGISTER;0x100000000;0x40
STORE;0x100000000;0x5;0x8
FLUSH;0x100000000;0x40
STOP;0
",
        entries: 5,
        ending: STOPS,
        reports: "report fence entry 3 check 5 closed 0 flush @main:entry:1 path @main:entry:0\n",
    },
    Recording {
        program: FLUSHED_RANGES,
        numbers: &[],
        limit: LIMIT,
        trace: "START;1000000000
REGISTER;0x100000000;0x80
FLUSH;0x100000000;0x80
TRAP;address
",
        entries: 4,
        ending: Ending::Trap(TrapKind::Address),
        reports: "",
    },
];

const OF_TWO_LINES: &[Recording] = &[
    Recording {
        program: TWO_LINES,
        numbers: &[],
        limit: LIMIT,
        trace: "START;1000000000
REGISTER;0x100000000;0x80
STORE;0x10000003c;0x5;0x8
STOP;0
",
        entries: 4,
        ending: STOPS,
        reports: "report both entry 3 check 4 closed 0 path @main:entry:0\n",
    },
    Recording {
        program: MISALIGNED,
        numbers: &[],
        limit: LIMIT,
        trace: "START;1000000000
REGISTER;0x100000000;0x80
TRAP;misaligned
",
        entries: 3,
        ending: Ending::Trap(TrapKind::Misaligned),
        reports: "",
    },
    Recording {
        program: ONE_OF_TWO_LINES,
        numbers: &[],
        limit: LIMIT,
        trace: "START;1000000000
REGISTER;0x100000000;0x80
STORE;0x10000003c;0x5;0x8
FLUSH;0x100000000;0x40
FENCE
STOP;0
",
        entries: 6,
        ending: STOPS,
        reports: "report flush entry 3 check 6 closed 0 path @main:entry:0\n",
    },
    Recording {
        program: BOTH_LINES_FLUSHED,
        numbers: &[],
        limit: LIMIT,
        trace: "START;1000000000
REGISTER;0x100000000;0x80
STORE;0x10000003c;0x5;0x8
FLUSH;0x100000000;0x40
FLUSH;0x100000040;0x40
STOP;0
",
        entries: 6,
        ending: STOPS,
        reports: "report fence entry 3 check 6 closed 0 flush @main:entry:2 path @main:entry:0\n",
    },
];

#[test]
fn kinds_of_reports(rt: HostRuntime) {
    assert_all(&rt, rt.alloc(), OF_ONE_FUNCTION);
}

#[test]
fn overwritten_stores(rt: HostRuntime) {
    assert_all(&rt, rt.alloc(), OF_OVERWRITTEN_STORES);
}

#[test]
fn paths_of_calls(rt: HostRuntime) {
    assert_all(&rt, rt.alloc(), OF_CALLS);
}

#[test]
fn frames_by_their_births(rt: HostRuntime) {
    assert_all(&rt, rt.alloc(), OF_FRAMES);
}

#[test]
fn cuts_and_traps(rt: HostRuntime) {
    assert_all(&rt, rt.alloc(), OF_ENDINGS);
}

#[test]
fn images_and_numbers(rt: HostRuntime) {
    assert_all(&rt, rt.alloc(), OF_INPUTS);
}

#[test]
fn flushed_ranges(rt: HostRuntime) {
    assert_all(&rt, rt.alloc(), OF_RANGES);
}

#[test]
fn stores_in_two_lines(rt: HostRuntime) {
    assert_all(&rt, rt.alloc(), OF_TWO_LINES);
}
