//! Unions of plans, and how many of the plans have each site of a union.

use crate::programs::{Place, site, sites};
use hip_examples::AMPLE;
use hip_fix::Plan;
use hip_many::{Reason, Sort, plan_many, reasons};
use hip_tree::Site;
use hip_types::Row;
use std::alloc::Global;
use std::process::Abort;

/// Plans that each put a flush and a fence after one store, and the stores of their union with how many plans name
/// each.
struct Case {
    name: &'static str,
    stores: &'static [Place],
    united: &'static [(Place, u64)],
}

const CASES: &[Case] = &[
    Case {
        name: "no plans",
        stores: &[],
        united: &[],
    },
    Case {
        name: "one plan",
        stores: &[(0, 2, 0)],
        united: &[((0, 2, 0), 1)],
    },
    Case {
        name: "two plans, the later store first",
        stores: &[(0, 2, 0), (0, 1, 0)],
        united: &[((0, 1, 0), 1), ((0, 2, 0), 1)],
    },
    Case {
        name: "one plan twice",
        stores: &[(0, 1, 0), (0, 1, 0)],
        united: &[((0, 1, 0), 2)],
    },
];

fn flushed(rt: &impl Abort, alloc: Global, store: Place) -> Plan {
    Plan {
        flush_after: sites(rt, alloc, &[store]),
        fence_after: sites(rt, alloc, &[store]),
        hoist: Row::new(alloc),
    }
}

fn plans(rt: &impl Abort, alloc: Global, stores: &[Place]) -> Vec<Plan> {
    let mut plans = Vec::new(alloc);
    for store in stores {
        plans.push(flushed(rt, alloc, *store)).expect(rt, AMPLE);
    }
    plans
}

/// The stores of the union, in their order.
fn stores_in(rt: &impl Abort, alloc: Global, united: &[(Place, u64)]) -> Row<Site> {
    let mut stores = Row::new(alloc);
    for (place, _) in united {
        stores.push(site(*place)).expect(rt, AMPLE);
    }
    stores
}

/// Appends the reasons of a sort.
fn push_reasons(rt: &impl Abort, sort: Sort, united: &[(Place, u64)], reasons: &mut Row<Reason>) {
    for (place, traces) in united {
        let reason = Reason {
            sort,
            site: site(*place),
            traces: *traces,
        };
        reasons.push(reason).expect(rt, AMPLE);
    }
}

fn assert_union(rt: &impl Abort, alloc: Global, union: &Plan, case: &Case) {
    let stores = stores_in(rt, alloc, case.united);
    assert!(rt; union.flush_after == stores, "{}", case.name);
    assert!(rt; union.fence_after == stores, "{}", case.name);
    assert!(rt; union.hoist.is_empty(), "{}", case.name);
}

fn assert_reasons(rt: &impl Abort, alloc: Global, plans: &[Plan], union: &Plan, case: &Case) {
    let found = reasons(alloc, plans, union).expect(rt, AMPLE);
    let mut expected = Row::new(alloc);
    push_reasons(rt, Sort::Flush, case.united, &mut expected);
    push_reasons(rt, Sort::Fence, case.united, &mut expected);
    assert!(rt; found.as_slice() == expected.as_slice(), "{}", case.name);
}

fn assert_case(rt: &impl Abort, alloc: Global, case: &Case) {
    let plans = plans(rt, alloc, case.stores);
    let union = plan_many(alloc, plans.as_slice()).expect(rt, AMPLE);
    assert_union(rt, alloc, &union, case);
    assert_reasons(rt, alloc, plans.as_slice(), &union, case);
}

#[test]
fn unions_of_plans(rt: HostRuntime) {
    for case in CASES {
        assert_case(&rt, rt.alloc(), case);
    }
}
