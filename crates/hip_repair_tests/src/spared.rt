//! Clones without the flushes of stores that are never in the region.

use crate::programs::{assert_written, checked, sites};
use hip_examples::{AMPLE, NOTES, NOTES_THIN};
use hip_fix::{CloneOf, Plan, apply, apply_skipping, suits};
use hip_ir::same;
use hip_sound::Checked;
use hip_types::Row;
use hip_vol::{apply_quiet, quiet_stores};
use std::alloc::Global;
use std::process::Abort;

/// The plan that sends the second call of `@work` to clones.
fn plan(rt: &impl Abort, alloc: Global) -> Plan {
    Plan {
        flush_after: Row::new(alloc),
        fence_after: Row::new(alloc),
        hoist: sites(rt, alloc, &[(2, 0, 2)]),
    }
}

const CLONES: [CloneOf; 2] = [
    CloneOf {
        original: 1,
        copy: 3,
    },
    CloneOf {
        original: 0,
        copy: 4,
    },
];

/// Asserts that the stores of the callee are never in the region.
fn assert_quiet(rt: &impl Abort, alloc: Global, checked: &Checked) {
    let quiet = quiet_stores(alloc, checked).expect(rt, AMPLE);
    assert!(rt; quiet == sites(rt, alloc, &[(0, 0, 0)]));
}

/// Asserts that the clones of the repair have no flush that cannot matter.
fn assert_spared(rt: &impl Abort, alloc: Global, checked: &Checked) {
    let plan = plan(rt, alloc);
    assert!(rt; suits(checked, &plan));
    let repaired = apply_quiet(alloc, checked, &plan).expect(rt, AMPLE);
    assert_written(rt, alloc, repaired.checked.program(), NOTES_THIN);
    assert!(rt; repaired.clones.as_slice() == CLONES.as_slice());
}

#[test]
fn spared_flush(rt: HostRuntime) {
    let checked = checked(&rt, rt.alloc(), NOTES);
    assert_quiet(&rt, rt.alloc(), &checked);
    assert_spared(&rt, rt.alloc(), &checked);
}

/// Asserts that the program is the one of the usual repair if no store is skipped.
fn assert_nothing_skipped(rt: &impl Abort, alloc: Global, checked: &Checked) {
    let plan = plan(rt, alloc);
    let usual = apply(alloc, checked, &plan).expect(rt, AMPLE);
    let none = apply_skipping(alloc, checked, &plan, &[]).expect(rt, AMPLE);
    assert!(rt; same(usual.checked.program(), none.checked.program()));
}

/// No address operand is a register assigned by `alloca` or a volatile global there, so that nothing is skipped.
#[test]
fn no_direct_store(rt: HostRuntime) {
    let checked = checked(&rt, rt.alloc(), NOTES);
    assert_nothing_skipped(&rt, rt.alloc(), &checked);
}
