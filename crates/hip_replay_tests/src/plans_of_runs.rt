//! Plans for what runs find: the trace of a run is replayed, and the plan is made for the findings.

use crate::runs::{checked, in_chunks, replayed};
use hip_examples::{
    AMPLE, ASSERT_INSIDE_CALLEE, COPY, EVEN_AND_ODD, FENCE_WITHOUT_FLUSH, FLUSH_WITHOUT_FENCE,
    ONE_STORE, ONE_STORE_TRACE,
};
use hip_plan::plan;
use hip_tree::Site;
use std::alloc::Global;
use std::process::Abort;

/// A function, a block and a place in the block, by their numbers.
type Place = (usize, usize, usize);

/// A program, the trace of its run, and where it is repaired.
struct Planned {
    name: &'static str,
    program: &'static str,
    trace: &'static str,
    flushes: &'static [Place],
    fences: &'static [Place],
    hoists: &'static [Place],
}

const CASES: &[Planned] = &[
    Planned {
        name: "a store in main gets a flush, and a fence after it",
        program: ONE_STORE,
        trace: ONE_STORE_TRACE,
        flushes: &[(0, 0, 0)],
        fences: &[(0, 0, 0)],
        hoists: &[],
    },
    Planned {
        name: "the call is hoisted whose callee also stores to the stack",
        program: COPY,
        trace: "START;1000000000|REGISTER;0x100000000;0x40|STORE;0x100000000;0x9;0x8|STOP;0",
        flushes: &[],
        fences: &[],
        hoists: &[(1, 0, 4)],
    },
    Planned {
        name: "a flush gets the fence that it lacks",
        program: FLUSH_WITHOUT_FENCE,
        trace: "START;1000000000|REGISTER;0x100000000;0x40
STORE;0x100000000;0x5;0x8|FLUSH;0x100000000;0x40|STOP;0",
        flushes: &[],
        fences: &[(0, 0, 1)],
        hoists: &[],
    },
    Planned {
        name: "a store that a fence follows gets a flush alone",
        program: FENCE_WITHOUT_FLUSH,
        trace: "START;1000000000|REGISTER;0x100000000;0x40|STORE;0x100000000;0x5;0x8|FENCE|STOP;0",
        flushes: &[(0, 0, 0)],
        fences: &[],
        hoists: &[],
    },
    Planned {
        name: "a check before the return, and a tie between the store and its call",
        program: ASSERT_INSIDE_CALLEE,
        trace: "START;1000000000|REGISTER;0x100000000;0x40
STORE;0x100000000;0x9;0x8|ASSERT;0x100000000;0x8|STOP;0",
        flushes: &[(0, 0, 1)],
        fences: &[(0, 0, 1)],
        hoists: &[],
    },
    Planned {
        name: "the outermost of three levels is hoisted",
        program: EVEN_AND_ODD,
        trace: "START;1000000000|REGISTER;0x100000000;0x40
STORE;0x100000000;0x2;0x8|STORE;0x100000000;0x1;0x8|STOP;0",
        flushes: &[],
        fences: &[],
        hoists: &[(2, 0, 2)],
    },
];

/// Asserts one list of a plan.
fn assert_sites(rt: &impl Abort, sites: &[Site], places: &[Place], name: &str) {
    assert!(rt; sites.len() == places.len(), "{name}");
    for (site, place) in sites.iter().zip(places.iter()) {
        assert!(rt; (site.function, site.block, site.index) == *place, "{name}");
    }
}

fn assert_planned(rt: &impl Abort, alloc: Global, case: &Planned) {
    let checked = checked(rt, alloc, case.program);
    let mut cabinet = in_chunks(rt, alloc, case.trace.as_bytes(), 7);
    let found = replayed(alloc, &checked, &mut cabinet).expect(rt, case.name);
    let plan = plan(alloc, &checked, &found.findings).expect(rt, AMPLE);
    assert_sites(rt, plan.flush_after.as_slice(), case.flushes, case.name);
    assert_sites(rt, plan.fence_after.as_slice(), case.fences, case.name);
    assert_sites(rt, plan.hoist.as_slice(), case.hoists, case.name);
}

#[test]
fn plans_of_what_runs_find(rt: HostRuntime) {
    for case in CASES {
        assert_planned(&rt, rt.alloc(), case);
    }
}
