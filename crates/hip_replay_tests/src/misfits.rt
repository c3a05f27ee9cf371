//! The first entry of a trace that differs from the run's, and how.

ghost use Rattle.std.specs.Prelude.{◌≤◌};

use crate::programs::TWO_NUMBERS;
use crate::runs::{assert_reports, checked, in_chunks, replayed};
use hip_examples::{AMPLE, ENDLESS_LOOP, ONE_STORE, SEVEN, TWO_LINES};
use hip_replay::{MisfitKind, ReplayRefusal};
use hip_run_traces::MisfitKind::{Differs, Early, Extra, Malformed};
use hip_sound::Checked;
use std::alloc::Global;
use std::process::Abort;

/// A trace, and its misfit.
struct Misfit {
    trace: &'static str,
    entry: u128,
    kind: MisfitKind,
}

/// Asserts how a trace is refused that comes in chunks of `chunk` bytes.
fn assert_refused(
    rt: &impl Abort,
    alloc: Global,
    checked: &Checked,
    trace: &str,
    misfit: ReplayRefusal,
    chunk: usize,
)
    requires { 1 ≤ chunk }
{
    let mut cabinet = in_chunks(rt, alloc, trace.as_bytes(), chunk);
    match replayed(alloc, checked, &mut cabinet) {
        Err(refusal) => assert!(rt; refusal == misfit, "{trace}"),
        Ok(_) => assert!(rt; false, "{trace}"),
    }
}

/// Asserts the misfit of each trace with a program; the trace comes in chunks of `chunk` bytes.
fn assert_misfits(rt: &impl Abort, alloc: Global, program: &str, cases: &[Misfit], chunk: usize)
    requires { 1 ≤ chunk }
{
    let checked = checked(rt, alloc, program);
    for case in cases {
        let misfit = ReplayRefusal::Misfit {
            entry: case.entry,
            kind: case.kind,
        };
        assert_refused(rt, alloc, &checked, case.trace, misfit, chunk);
    }
}

const OF_ONE_STORE: &[Misfit] = &[
    Misfit {
        trace: "START;1000000000|REGISTER;0x100000000;0x40|STORE;0x100000000;0x6;0x8|FENCE|STOP;0",
        entry: 3,
        kind: Differs,
    },
    Misfit {
        trace: "START;1000000000|REGISTER;0x100000000;0x40|STORE;0x100000000;0x5;0x4|STOP;0",
        entry: 3,
        kind: Differs,
    },
    Misfit {
        trace: "START;1000000000|REGISTER;0x100000000;0x40|STORE;0x100000000;0x5;0x8|STOP;1",
        entry: 4,
        kind: Differs,
    },
    Misfit {
        trace: "START;1|REGISTER;0x100000000;0x40|STORE;0x100000000;0x5;0x8|STOP;0",
        entry: 4,
        kind: Differs,
    },
    Misfit {
        trace: "START;1000000000|REGISTER;0x100000000;0x40|STORE;0x100000000;0x5;0x8|STOP;0|FENCE",
        entry: 5,
        kind: Extra,
    },
    Misfit {
        trace: "START;1000000000|REGISTER;0x100000000;0x40|STORE;0x100000000;0x5;0x8|STOP;0||",
        entry: 5,
        kind: Malformed,
    },
    Misfit {
        trace: "START;1000000000|REGISTER;0x100000000;0x40|STORE;5|STOP;0",
        entry: 3,
        kind: Malformed,
    },
];

const SHORT: &[Misfit] = &[
    Misfit {
        trace: "",
        entry: 1,
        kind: Early,
    },
    Misfit {
        trace: "START;5",
        entry: 2,
        kind: Early,
    },
    Misfit {
        trace: "START;5|REGISTER;0x100000000;0x40\n",
        entry: 3,
        kind: Early,
    },
    Misfit {
        trace: "START;1000000000|REGISTER;0x100000000;0x40|STORE;0x100000000;0x5;0x8",
        entry: 4,
        kind: Early,
    },
];

const HEADERS: &[Misfit] = &[
    Misfit {
        trace: "|",
        entry: 1,
        kind: Malformed,
    },
    Misfit {
        trace: "FENCE",
        entry: 1,
        kind: Differs,
    },
    Misfit {
        trace: "START;1099511627777",
        entry: 1,
        kind: Differs,
    },
    Misfit {
        trace: "START;18446744073709551616",
        entry: 1,
        kind: Malformed,
    },
    Misfit {
        trace: "START;5|START;5",
        entry: 2,
        kind: Differs,
    },
    Misfit {
        trace: "START;1000000000|REGISTER;0x100000001;0x40|STORE;0x100000000;0x5;0x8|STOP;0",
        entry: 2,
        kind: Differs,
    },
    Misfit {
        trace: "START;1000000000|REGISTER;0x100000000;0x80|STORE;0x100000000;0x5;0x8|STOP;0",
        entry: 2,
        kind: Differs,
    },
    Misfit {
        trace: "START;1000000000|REGISTER;0x100000000;0x40|REGISTER;0x100000000;0x40|STOP;0",
        entry: 3,
        kind: Differs,
    },
];

const IMAGES: &[Misfit] = &[
    Misfit {
        trace: "START;9|REGISTER;0x100000000;0x80|IMAGE;0x100000000;00000000000000000000000000000000000000000000000000000000000000000000000000000000000000000000000000000000000000000000000000000000",
        entry: 3,
        kind: Differs,
    },
    Misfit {
        trace: "START;9|REGISTER;0x100000000;0x80|IMAGE;0x100000080;07000000000000000000000000000000000000000000000000000000000000000000000000000000000000000000000000000000000000000000000000000000",
        entry: 3,
        kind: Differs,
    },
    Misfit {
        trace: "START;9|REGISTER;0x100000000;0x80|IMAGE;0x100000040;07000000000000000000000000000000000000000000000000000000000000000000000000000000000000000000000000000000000000000000000000000000|IMAGE;0x100000000;07000000000000000000000000000000000000000000000000000000000000000000000000000000000000000000000000000000000000000000000000000000",
        entry: 4,
        kind: Differs,
    },
    Misfit {
        trace: "START;9|REGISTER;0x100000000;0x80|IMAGE;0x100000001;07000000000000000000000000000000000000000000000000000000000000000000000000000000000000000000000000000000000000000000000000000000",
        entry: 3,
        kind: Malformed,
    },
];

const BEHIND_AN_IMAGE: &[Misfit] = &[Misfit {
    trace: "START;9|REGISTER;0x100000000;0x40|IMAGE;0x100000000;07000000000000000000000000000000000000000000000000000000000000000000000000000000000000000000000000000000000000000000000000000000|INPUT;1|STOP;0",
    entry: 4,
    kind: Differs,
}];

/// The run of the first trace is too long for a test.
const IN_LOCKSTEP: &[Misfit] = &[
    Misfit {
        trace: "START;1099511627776|REGISTER;0x100000000;0x40|STORE;0x100000000;0x8;0x8",
        entry: 3,
        kind: Differs,
    },
    Misfit {
        trace: "START;1099511627776|REGISTER;0x100000000;0x40",
        entry: 3,
        kind: Early,
    },
];

const OF_NUMBERS: &[Misfit] = &[
    Misfit {
        trace: "START;9|REGISTER;0x100000000;0x0|INPUT;1|INPUT;2|TRAP;input",
        entry: 5,
        kind: Differs,
    },
    Misfit {
        trace: "START;9|REGISTER;0x100000000;0x0|INPUT;1|STOP;0",
        entry: 4,
        kind: Differs,
    },
    Misfit {
        trace: "START;9|REGISTER;0x100000000;0x0|INPUT;9223372036854775808|STOP;0",
        entry: 3,
        kind: Malformed,
    },
];

#[test]
fn misfit_kinds(rt: HostRuntime) {
    assert_misfits(&rt, rt.alloc(), ONE_STORE, OF_ONE_STORE, 7);
}

#[test]
fn short_traces(rt: HostRuntime) {
    assert_misfits(&rt, rt.alloc(), ONE_STORE, SHORT, 1);
}

#[test]
fn header_rules(rt: HostRuntime) {
    assert_misfits(&rt, rt.alloc(), ONE_STORE, HEADERS, 4_096);
}

#[test]
fn image_rules(rt: HostRuntime) {
    assert_misfits(&rt, rt.alloc(), TWO_LINES, IMAGES, 100);
    assert_misfits(&rt, rt.alloc(), SEVEN, BEHIND_AN_IMAGE, 4_096);
}

#[test]
fn lockstep(rt: HostRuntime) {
    assert_misfits(&rt, rt.alloc(), ENDLESS_LOOP, IN_LOCKSTEP, 4_096);
}

#[test]
fn numbers_that_are_read(rt: HostRuntime) {
    assert_misfits(&rt, rt.alloc(), TWO_NUMBERS, OF_NUMBERS, 3);
}

/// Asserts that a trace of the program of one store is the run's.
fn assert_fits(rt: &impl Abort, alloc: Global, trace: &str, chunk: usize)
    requires { 1 ≤ chunk }
{
    let checked = checked(rt, alloc, ONE_STORE);
    let mut cabinet = in_chunks(rt, alloc, trace.as_bytes(), chunk);
    let found = replayed(alloc, &checked, &mut cabinet).expect(rt, "the trace fits");
    assert_reports(
        rt,
        alloc,
        &checked,
        found.findings.reports(),
        "report both entry 3 check 4 closed 0 path @main:entry:0\n",
    );
}

/// The same entries in other spellings.
const SPELLINGS: &[&str] = &[
    "START;1000000000|REGISTER;0x100000000;0x40|STORE;0x100000000;0x5;0x8|STOP;0",
    "START;1000000000\nREGISTER;0x100000000;0x40\nSTORE;0x100000000;0x5;0x8\nSTOP;0\n",
    "START;0001000000000|REGISTER;0x000100000000;0x0040\nSTORE;0x0100000000;0x05;0x8|STOP;-0|",
];

#[test]
fn chunks_of_any_size(rt: HostRuntime) {
    for trace in SPELLINGS {
        assert_fits(&rt, rt.alloc(), trace, 1);
        assert_fits(&rt, rt.alloc(), trace, 7);
        assert_fits(&rt, rt.alloc(), trace, 4_096);
    }
}

/// The trace of the program of one store, where an entry of 25 bytes has this number of further zeros in its address.
fn with_zeros(rt: &impl Abort, alloc: Global, zeros: usize) -> String {
    let zeros = "0".repeat(alloc, zeros).expect(rt, AMPLE);
    format!(in alloc;
        "START;1000000000|REGISTER;0x100000000;0x40|STORE;0x{}100000000;0x5;0x8|STOP;0",
        zeros.as_str()
    )
    .expect(rt, AMPLE)
}

#[test]
fn longest_entry(rt: HostRuntime) {
    let longest = with_zeros(&rt, rt.alloc(), 231);
    assert_fits(&rt, rt.alloc(), longest.as_str(), 100);
    let checked = checked(&rt, rt.alloc(), ONE_STORE);
    let longer = with_zeros(&rt, rt.alloc(), 232);
    let misfit = ReplayRefusal::Misfit {
        entry: 3,
        kind: Malformed,
    };
    assert_refused(&rt, rt.alloc(), &checked, longer.as_str(), misfit, 100);
}
