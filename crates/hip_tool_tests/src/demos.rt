//! `demo`: a generated program is recorded, repaired and run again.

use crate::commands::{Case, assert_cases, outcome_in_room};

const SMALL: &[Case] = &[Case {
    words: &["demo", "1", "8"],
    files: &[],
    code: 0,
    out: "seed 1 size 8\nentries 8\nreports 4\nflushes 0\nfences 1\nhoists 1\nclones 1\nrerun 11\nafter 0\n",
    notes: "",
}];

#[test]
fn small_demo(rt: HostRuntime) {
    assert_cases(&rt, rt.alloc(), SMALL);
}

/// The largest program: its first line names it, and its last line counts no report after the repair.
#[test]
fn large_demo(rt: HostRuntime) {
    let outcome = outcome_in_room(&rt, rt.alloc(), &["demo", "1", "50000"], &[], 1_000, 1_000);
    assert_eq!(&rt; outcome.code, 0);
    assert!(&rt; outcome.out.bytes().starts_with(b"seed 1 size 50000\n"));
    assert!(&rt; outcome.out.bytes().ends_with(b"\nafter 0\n"));
}
