//! The first entry of a trace that differs from the run's.

use crate::commands::{assert_outcome, outcome_in_chunks};
use hip_examples::{AMPLE, ONE_STORE};
use std::alloc::Global;
use std::process::Abort;

/// A trace that is not that of the run of the program of one store, with the misfit.
struct Misfit {
    trace: &'static str,
    misfit: &'static str,
}

/// Asserts what `repair` of the program of one store answers to each trace.
fn assert_misfits(rt: &impl Abort, alloc: Global, cases: &[Misfit]) {
    for case in cases {
        let files = &[("a", ONE_STORE), ("b", case.trace)];
        let outcome = outcome_in_chunks(rt, alloc, &["repair", "a", "b"], files, 7);
        let notes = format!(in alloc; "hippo: trace entry {}\n", case.misfit).expect(rt, AMPLE);
        assert_outcome(rt, &outcome, 6, "", notes.as_str(), case.trace);
    }
}

const SHORT_TRACES: &[Misfit] = &[
    Misfit {
        trace: "",
        misfit: "1: early",
    },
    Misfit {
        trace: "START;5",
        misfit: "2: early",
    },
    Misfit {
        trace: "START;1000000000|REGISTER;0x100000000;0x40|STORE;0x100000000;0x5;0x8",
        misfit: "4: early",
    },
];

#[test]
fn empty_and_short_traces(rt: HostRuntime) {
    assert_misfits(&rt, rt.alloc(), SHORT_TRACES);
}

const OTHER_RUNS: &[Misfit] = &[
    Misfit {
        trace: "START;1000000000|REGISTER;0x100000000;0x40|STORE;0x100000000;0x6;0x8|FENCE|STOP;0",
        misfit: "3: differs",
    },
    Misfit {
        trace: "START;1000000000|REGISTER;0x100000000;0x40|STORE;0x100000000;0x6;0x8|STOP;1",
        misfit: "3: differs",
    },
    Misfit {
        trace: "START;1000000000|REGISTER;0x100000000;0x40|STORE;0x100000000;0x5;0x8|STOP;0|FENCE",
        misfit: "5: extra",
    },
    Misfit {
        trace: "START;1000000000|REGISTER;0x100000000;0x40|STORE;0x100000000;0x5;0x8|STOP;0|STOP;0",
        misfit: "5: extra",
    },
    Misfit {
        trace: "START;1000000000|REGISTER;0x100000000;0x40|STORE;0x100000000;0x5;0x8|STOP;0||",
        misfit: "5: malformed",
    },
    Misfit {
        trace: "START;1000000000|REGISTER;0x100000000;0x40|STORE;5|STOP;0",
        misfit: "3: malformed",
    },
    Misfit {
        trace: "START;1|REGISTER;0x100000000;0x40|STORE;0x100000000;0x5;0x8|STOP;0",
        misfit: "4: differs",
    },
];

#[test]
fn misfit_kinds(rt: HostRuntime) {
    assert_misfits(&rt, rt.alloc(), OTHER_RUNS);
}

const BAD_HEADERS: &[Misfit] = &[
    Misfit {
        trace: "START;1000000000|REGISTER;0x100000001;0x40|STORE;0x100000000;0x5;0x8|STOP;0",
        misfit: "2: differs",
    },
    Misfit {
        trace: "START;1099511627777",
        misfit: "1: differs",
    },
    Misfit {
        trace: "START;18446744073709551616",
        misfit: "1: malformed",
    },
    Misfit {
        trace: "|",
        misfit: "1: malformed",
    },
    Misfit {
        trace: "START;1000000000|REGISTER;0x100000000;0x40|REGISTER;0x100000000;0x40|STOP;0",
        misfit: "3: differs",
    },
];

#[test]
fn header_rules(rt: HostRuntime) {
    assert_misfits(&rt, rt.alloc(), BAD_HEADERS);
}
