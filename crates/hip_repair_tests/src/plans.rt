//! Scores, levels and plans for given findings.

use crate::programs::{Place, checked, path, site, sites};
use hip_examples::{AMPLE, ASSERT_INSIDE_CALLEE, COPY, EVEN_AND_ODD, KEY_VALUE_LOG};
use hip_findings::{SharedFindings, SharedReport, SharedReports, StoreReport};
use hip_fix::suits;
use hip_many::mends_all;
use hip_plan::{choose, plan, score};
use hip_repairs::Plan;
use hip_runs::{Kind, Mark, Marks, Object};
use hip_sound::Checked;
use hip_types::Row;
use std::alloc::Global;
use std::process::Abort;

/// A report of a store, the calls that it was made in, and how many of them had returned.
#[derive(Drop)]
struct Found {
    kind: Kind,
    entries: (u128, u128),
    store: Place,
    calls: &'static [Place],
    closed: usize,
    // The level that is chosen for it.
    level: usize,
}

/// An operand of a place, and the global or the block of an `alloca` that it pointed into.
struct Pointed {
    place: Place,
    operand: usize,
    into: Into,
}

#[derive(Clone, Copy)]
enum Into {
    Global(usize),
    Slot(Place),
}

/// What a run of a program found, and the plan for it.
struct Case {
    name: &'static str,
    program: &'static str,
    found: &'static [Found],
    pointed: &'static [Pointed],
    hit: &'static [usize],
    scores: &'static [(Place, Option<i128>)],
    flushes: &'static [Place],
    fences: &'static [Place],
    hoists: &'static [Place],
}

/// What the run of `COPY` points into: the stack with the first call, persistent memory with the second.
const COPIED: &[Pointed] = &[
    Pointed {
        place: (1, 0, 2),
        operand: 0,
        into: Into::Slot((1, 0, 0)),
    },
    Pointed {
        place: (1, 0, 3),
        operand: 0,
        into: Into::Slot((1, 0, 1)),
    },
    Pointed {
        place: (1, 0, 3),
        operand: 1,
        into: Into::Slot((1, 0, 0)),
    },
    Pointed {
        place: (0, 0, 1),
        operand: 0,
        into: Into::Slot((1, 0, 1)),
    },
    Pointed {
        place: (1, 0, 4),
        operand: 0,
        into: Into::Global(0),
    },
    Pointed {
        place: (1, 0, 4),
        operand: 1,
        into: Into::Slot((1, 0, 1)),
    },
    Pointed {
        place: (0, 0, 1),
        operand: 0,
        into: Into::Global(0),
    },
    Pointed {
        place: (1, 0, 2),
        operand: 0,
        into: Into::Slot((1, 0, 0)),
    },
];

/// The one call of `ASSERT_INSIDE_CALLEE` and its store.
const ONE_COPY: &[Pointed] = &[
    Pointed {
        place: (1, 0, 0),
        operand: 0,
        into: Into::Global(0),
    },
    Pointed {
        place: (1, 0, 0),
        operand: 1,
        into: Into::Global(1),
    },
    Pointed {
        place: (0, 0, 1),
        operand: 0,
        into: Into::Global(0),
    },
];

/// Each site points into the stack with the first call of `EVEN_AND_ODD`, and into `@p` with the second.
const COUNTED: &[Pointed] = &[
    Pointed {
        place: (2, 0, 1),
        operand: 0,
        into: Into::Slot((2, 0, 0)),
    },
    Pointed {
        place: (0, 1, 0),
        operand: 0,
        into: Into::Slot((2, 0, 0)),
    },
    Pointed {
        place: (0, 1, 2),
        operand: 0,
        into: Into::Slot((2, 0, 0)),
    },
    Pointed {
        place: (1, 1, 0),
        operand: 0,
        into: Into::Slot((2, 0, 0)),
    },
    Pointed {
        place: (1, 1, 2),
        operand: 0,
        into: Into::Slot((2, 0, 0)),
    },
    Pointed {
        place: (2, 0, 2),
        operand: 0,
        into: Into::Global(0),
    },
    Pointed {
        place: (0, 1, 0),
        operand: 0,
        into: Into::Global(0),
    },
    Pointed {
        place: (0, 1, 2),
        operand: 0,
        into: Into::Global(0),
    },
    Pointed {
        place: (1, 1, 0),
        operand: 0,
        into: Into::Global(0),
    },
    Pointed {
        place: (1, 1, 2),
        operand: 0,
        into: Into::Global(0),
    },
];

const CASES: &[Case] = &[
    Case {
        name: "a function that stores to the stack and to the region",
        program: COPY,
        found: &[Found {
            kind: Kind::MissingBoth,
            entries: (3, 4),
            store: (0, 0, 1),
            calls: &[(1, 0, 4)],
            closed: 1,
            level: 1,
        }],
        pointed: COPIED,
        hit: &[0],
        scores: &[
            ((0, 0, 1), Some(0)),
            ((1, 0, 4), Some(1)),
            ((1, 0, 3), Some(-1)),
            ((0, 0, 0), None),
            ((2, 0, 0), None),
        ],
        flushes: &[],
        fences: &[],
        hoists: &[(1, 0, 4)],
    },
    Case {
        name: "a check inside of the function, and one after its call",
        program: ASSERT_INSIDE_CALLEE,
        found: &[
            Found {
                kind: Kind::MissingBoth,
                entries: (3, 4),
                store: (0, 0, 1),
                calls: &[(1, 0, 0)],
                closed: 0,
                level: 0,
            },
            Found {
                kind: Kind::MissingBoth,
                entries: (3, 5),
                store: (0, 0, 1),
                calls: &[(1, 0, 0)],
                closed: 1,
                level: 0,
            },
        ],
        pointed: ONE_COPY,
        hit: &[0],
        scores: &[
            ((0, 0, 1), Some(1)),
            ((1, 0, 0), Some(1)),
            ((0, 0, 2), None),
        ],
        flushes: &[(0, 0, 1)],
        fences: &[(0, 0, 1)],
        hoists: &[],
    },
    Case {
        name: "a tie goes to the innermost level",
        program: ASSERT_INSIDE_CALLEE,
        found: &[Found {
            kind: Kind::MissingFlush,
            entries: (3, 5),
            store: (0, 0, 1),
            calls: &[(1, 0, 0)],
            closed: 1,
            level: 0,
        }],
        pointed: ONE_COPY,
        hit: &[0],
        scores: &[],
        flushes: &[(0, 0, 1)],
        fences: &[],
        hoists: &[],
    },
    Case {
        name: "two functions that call each other",
        program: EVEN_AND_ODD,
        found: &[Found {
            kind: Kind::MissingBoth,
            entries: (4, 5),
            store: (1, 1, 0),
            calls: &[(0, 1, 2), (2, 0, 2)],
            closed: 2,
            level: 2,
        }],
        pointed: COUNTED,
        hit: &[0],
        scores: &[
            ((1, 1, 0), Some(0)),
            ((0, 1, 2), Some(0)),
            ((2, 0, 2), Some(1)),
        ],
        flushes: &[],
        fences: &[],
        hoists: &[(2, 0, 2)],
    },
];

fn store(rt: &impl Abort, alloc: Global, found: &Found) -> StoreReport {
    StoreReport {
        entry: found.entries.0,
        kind: found.kind,
        flush_site: None,
        path: path(rt, alloc, found.store, found.calls),
        closed: found.closed,
    }
}

fn reports(rt: &impl Abort, alloc: Global, found: &[Found]) -> SharedReports {
    let mut reports = SharedReports::new(alloc);
    for one in found {
        let mut stores = Row::new(alloc);
        stores.push(store(rt, alloc, one)).expect(rt, AMPLE);
        reports.push(alloc, one.entries.1, stores).expect(rt, AMPLE);
    }
    reports
}

fn object(into: Into) -> Object {
    match into {
        Into::Global(number) => Object::Global(number),
        Into::Slot(alloca) => Object::Slot(site(alloca)),
    }
}

fn marks(rt: &impl Abort, alloc: Global, pointed: &[Pointed], hit: &[usize]) -> Marks {
    let mut all = Row::new(alloc);
    for one in pointed {
        let mark = Mark {
            site: site(one.place),
            operand: one.operand,
            object: object(one.into),
        };
        all.push(mark).expect(rt, AMPLE);
    }
    Marks {
        pointed: all,
        hit: Row::from_slice(alloc, hit).expect(rt, AMPLE),
    }
}

/// Asserts that the plan for the findings has these lists, and suits.
fn assert_planned(
    rt: &impl Abort,
    alloc: Global,
    checked: &Checked,
    findings: &SharedFindings,
    case: &Case,
) {
    let plan = plan(alloc, checked, findings).expect(rt, AMPLE);
    assert!(rt;
        plan.flush_after == sites(rt, alloc, case.flushes),
        "{}",
        case.name
    );
    assert!(rt;
        plan.fence_after == sites(rt, alloc, case.fences),
        "{}",
        case.name
    );
    assert!(rt;
        plan.hoist == sites(rt, alloc, case.hoists),
        "{}",
        case.name
    );
    assert!(rt; suits(checked, &plan), "{}", case.name);
}

fn assert_levels(
    rt: &impl Abort,
    alloc: Global,
    checked: &Checked,
    findings: &SharedFindings,
    case: &Case,
) {
    for found in case.found {
        let store = store(rt, alloc, found);
        let report = SharedReport::new(found.entries.1, &store);
        assert!(rt;
            choose(checked, findings, &report) == found.level,
            "{}",
            case.name
        );
    }
}

fn assert_scores(rt: &impl Abort, checked: &Checked, findings: &SharedFindings, case: &Case) {
    for (place, expected) in case.scores {
        assert!(rt;
            score(checked, findings, site(*place)) == *expected,
            "{}",
            case.name
        );
    }
}

fn assert_case(rt: &impl Abort, alloc: Global, case: &Case) {
    let checked = checked(rt, alloc, case.program);
    let findings = SharedFindings::new(
        reports(rt, alloc, case.found),
        marks(rt, alloc, case.pointed, case.hit),
    );
    assert_scores(rt, &checked, &findings, case);
    assert_levels(rt, alloc, &checked, &findings, case);
    assert_planned(rt, alloc, &checked, &findings, case);
}

#[test]
fn plans_of_findings(rt: HostRuntime) {
    for case in CASES {
        assert_case(&rt, rt.alloc(), case);
    }
}

/// A plan, how many calls had returned at the check of a store that lacks a flush and a fence, and whether the plan mends
/// the report of it.
struct Tried {
    flushes: &'static [Place],
    fences: &'static [Place],
    hoists: &'static [Place],
    closed: usize,
    mends: bool,
}

const TRIED: &[Tried] = &[
    Tried {
        flushes: &[(0, 0, 1)],
        fences: &[(0, 0, 1)],
        hoists: &[],
        closed: 1,
        mends: true,
    },
    Tried {
        flushes: &[(0, 0, 1)],
        fences: &[(1, 0, 4)],
        hoists: &[],
        closed: 1,
        mends: false,
    },
    Tried {
        flushes: &[],
        fences: &[(0, 0, 1)],
        hoists: &[],
        closed: 1,
        mends: false,
    },
    Tried {
        flushes: &[],
        fences: &[],
        hoists: &[(1, 0, 3), (1, 0, 4)],
        closed: 1,
        mends: true,
    },
    Tried {
        flushes: &[],
        fences: &[],
        hoists: &[(1, 0, 4)],
        closed: 0,
        mends: false,
    },
];

fn assert_tried(rt: &impl Abort, alloc: Global, tried: &Tried) {
    let found = Found {
        kind: Kind::MissingBoth,
        entries: (3, 4),
        store: (0, 0, 1),
        calls: &[(1, 0, 4)],
        closed: tried.closed,
        level: 0,
    };
    let findings = SharedFindings::new(reports(rt, alloc, &[found]), marks(rt, alloc, &[], &[]));
    let plan = Plan {
        flush_after: sites(rt, alloc, tried.flushes),
        fence_after: sites(rt, alloc, tried.fences),
        hoist: sites(rt, alloc, tried.hoists),
    };
    let mends = mends_all(alloc, &plan, &findings).expect(rt, AMPLE);
    assert!(rt; mends == tried.mends);
}

#[test]
fn plans_that_mend(rt: HostRuntime) {
    for tried in TRIED {
        assert_tried(&rt, rt.alloc(), tried);
    }
}

/// What the run of `KEY_VALUE_LOG` points into, and what comes of its reports.
const LOG: &Case = &Case {
    name: "the key-value log",
    program: KEY_VALUE_LOG,
    found: &[],
    pointed: &[
        Pointed {
            place: (2, 1, 1),
            operand: 0,
            into: Into::Slot((2, 0, 0)),
        },
        Pointed {
            place: (1, 0, 1),
            operand: 0,
            into: Into::Slot((2, 0, 0)),
        },
        Pointed {
            place: (1, 0, 3),
            operand: 0,
            into: Into::Slot((2, 0, 0)),
        },
        Pointed {
            place: (2, 1, 3),
            operand: 0,
            into: Into::Global(2),
        },
        Pointed {
            place: (0, 0, 2),
            operand: 0,
            into: Into::Global(0),
        },
        Pointed {
            place: (2, 1, 6),
            operand: 0,
            into: Into::Global(1),
        },
        Pointed {
            place: (1, 0, 1),
            operand: 0,
            into: Into::Global(1),
        },
        Pointed {
            place: (1, 0, 3),
            operand: 0,
            into: Into::Global(1),
        },
    ],
    hit: &[2, 0, 1],
    scores: &[
        ((1, 0, 1), Some(0)),
        ((2, 1, 6), Some(1)),
        ((2, 1, 3), Some(1)),
        ((2, 1, 5), None),
    ],
    flushes: &[(2, 1, 3)],
    fences: &[(0, 0, 3)],
    hoists: &[(2, 1, 6)],
};

/// A report of a store at an index of the function that the call at place 6 of the loop calls.
fn filled(rt: &impl Abort, alloc: Global, entry: u128, kind: Kind, index: usize) -> StoreReport {
    StoreReport {
        entry,
        kind,
        flush_site: None,
        path: path(rt, alloc, (1, 0, index), &[(2, 1, 6)]),
        closed: 1,
    }
}

/// The report of the store of `@head`, whose flush lacks a fence.
fn unfenced(rt: &impl Abort, alloc: Global) -> StoreReport {
    StoreReport {
        entry: 239,
        kind: Kind::MissingFence,
        flush_site: Some(site((0, 0, 3))),
        path: path(rt, alloc, (0, 0, 2), &[(2, 1, 5)]),
        closed: 1,
    }
}

/// The report of the last store of `@count`.
const COUNT: Found = Found {
    kind: Kind::MissingFlush,
    entries: (237, 243),
    store: (2, 1, 3),
    calls: &[],
    closed: 0,
    level: 0,
};

/// What the check at the end of the run of `KEY_VALUE_LOG` finds, in the order of the stores.
fn logged(rt: &impl Abort, alloc: Global) -> Row<StoreReport> {
    let mut stores = Row::new(alloc);
    for turn in 0..39u64 {
        let first = 7 + 6 * u128::from(turn);
        let key = filled(rt, alloc, first, Kind::MissingFlush, 1);
        stores.push(key).expect(rt, AMPLE);
        let value = filled(rt, alloc, first + 1, Kind::MissingFlush, 3);
        stores.push(value).expect(rt, AMPLE);
    }
    stores.push(store(rt, alloc, &COUNT)).expect(rt, AMPLE);
    stores.push(unfenced(rt, alloc)).expect(rt, AMPLE);
    let key = filled(rt, alloc, 241, Kind::MissingBoth, 1);
    stores.push(key).expect(rt, AMPLE);
    let value = filled(rt, alloc, 242, Kind::MissingBoth, 3);
    stores.push(value).expect(rt, AMPLE);
    stores
}

/// What the tracker finds in the run of `KEY_VALUE_LOG`.
fn log_findings(rt: &impl Abort, alloc: Global) -> SharedFindings {
    let mut reports = SharedReports::new(alloc);
    reports
        .push(alloc, 243, logged(rt, alloc))
        .expect(rt, AMPLE);
    SharedFindings::new(reports, marks(rt, alloc, LOG.pointed, LOG.hit))
}

#[test]
fn key_value_log(rt: HostRuntime) {
    let checked = checked(&rt, rt.alloc(), KEY_VALUE_LOG);
    let findings = log_findings(&rt, rt.alloc());
    assert!(rt; findings.reports().len() == 82);
    assert_scores(&rt, &checked, &findings, LOG);
    assert_planned(&rt, rt.alloc(), &checked, &findings, LOG);
}
