//! Traces of many entries.

use crate::commands::{Outcome, outcome_in_room, outcome_of_bytes};
use hip_examples::DURABLE_STORES;
use std::alloc::Global;
use std::process::Abort;

/// How many lines the text has.
fn lines_of(bytes: &[u8]) -> usize {
    let mut lines: usize = 0;
    for byte in bytes {
        if *byte == b'\n' {
            lines = lines.saturating_add(1);
        }
    }
    lines
}

fn recorded(rt: &impl Abort, alloc: Global) -> Outcome {
    let files = &[("a", DURABLE_STORES)];
    let outcome = outcome_in_room(rt, alloc, &["record", "a"], files, 16_000_000, 100);
    assert_eq!(rt; outcome.code, 0);
    outcome
}

/// Two entries for the header, three for each turn, and one for the end.
#[test]
fn many_entries_are_recorded_and_checked(rt: HostRuntime) {
    let trace = recorded(&rt, rt.alloc());
    assert_eq!(&rt; lines_of(trace.out.bytes()), 300_003);
    let files: &[(&str, &[u8])] = &[("a", DURABLE_STORES.as_bytes()), ("b", trace.out.bytes())];
    let checked = outcome_of_bytes(&rt, rt.alloc(), &["check", "a", "b"], files);
    assert_eq!(&rt; checked.code, 0);
    assert_eq!(&rt; checked.out.bytes().len(), 0);
    assert!(&rt; checked.notes.bytes() == b"reports 0\n".as_slice());
}
