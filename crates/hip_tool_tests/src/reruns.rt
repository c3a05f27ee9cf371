//! `rerun`: the trace of the repaired program on the trace's input.

use crate::commands::{Case, assert_cases};
use hip_examples::{ENDLESS_LOOP, ONE_STORE, ONE_STORE_TRACE, OVERWRITTEN, TWO_LINES};

const ONE_STORES: &[Case] = &[Case {
    words: &["rerun", "a", "b"],
    files: &[("a", ONE_STORE), ("b", ONE_STORE_TRACE)],
    code: 0,
    out: "START;1000000000\nREGISTER;0x100000000;0x40\nSTORE;0x100000000;0x5;0x8\nFLUSH;0x100000000;0x40\nFENCE\nSTOP;0\n",
    notes: "before 1\nafter 0\n",
}];

#[test]
fn one_store_again(rt: HostRuntime) {
    assert_cases(&rt, rt.alloc(), ONE_STORES);
}

const OVERWRITTEN_STORES: &[Case] = &[Case {
    words: &["rerun", "a", "b"],
    files: &[
        ("a", OVERWRITTEN),
        (
            "b",
            "START;1000000000|REGISTER;0x100000000;0x40|STORE;0x100000000;0x5;0x8|STORE;0x100000000;0x6;0x8|STOP;0",
        ),
    ],
    code: 0,
    out: "START;1000000000\nREGISTER;0x100000000;0x40\nSTORE;0x100000000;0x5;0x8\nSTORE;0x100000000;0x6;0x8\nFLUSH;0x100000000;0x40\nFENCE\nSTOP;0\n",
    notes: "before 1\nafter 0\n",
}];

#[test]
fn overwritten_store_again(rt: HostRuntime) {
    assert_cases(&rt, rt.alloc(), OVERWRITTEN_STORES);
}

const LOOPS: &[Case] = &[Case {
    words: &["rerun", "a", "b"],
    files: &[
        ("a", ENDLESS_LOOP),
        (
            "b",
            "START;4\nREGISTER;0x100000000;0x40\nSTORE;0x100000000;0x7;0x8\nASSERT;0x100000000;0x8\nCUT\n",
        ),
    ],
    code: 0,
    out: "START;4\nREGISTER;0x100000000;0x40\nSTORE;0x100000000;0x7;0x8\nFLUSH;0x100000000;0x40\nFENCE\nASSERT;0x100000000;0x8\nCUT\n",
    notes: "before 1\nafter 0\n",
}];

#[test]
fn endless_loop_again(rt: HostRuntime) {
    assert_cases(&rt, rt.alloc(), LOOPS);
}

const WIDE_STORES: &[Case] = &[Case {
    words: &["rerun", "a", "b"],
    files: &[
        ("a", TWO_LINES),
        (
            "b",
            "START;1000000000|REGISTER;0x100000000;0x80|STORE;0x10000003c;0x5;0x8|STOP;0",
        ),
    ],
    code: 0,
    out: "START;1000000000\nREGISTER;0x100000000;0x80\nSTORE;0x10000003c;0x5;0x8\nFLUSH;0x100000000;0x80\nFENCE\nSTOP;0\n",
    notes: "before 1\nafter 0\n",
}];

#[test]
fn store_in_two_lines_again(rt: HostRuntime) {
    assert_cases(&rt, rt.alloc(), WIDE_STORES);
}
