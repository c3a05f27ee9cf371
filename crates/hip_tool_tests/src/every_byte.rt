//! Files that fail at each byte, sinks that have room for each number of bytes, and programs that are cut at each byte.

use crate::commands::{
    assert_outcome, outcome_in_chunks, outcome_in_room, outcome_of_bytes, outcome_of_fault,
};
use hip_examples::{AMPLE, COPY, ONE_STORE, ONE_STORE_REPAIRED, ONE_STORE_TRACE};
use hip_gen::generate;
use hip_io::FailAt;
use std::alloc::Global;
use std::process::Abort;

const READ_FAULT: &str = "hippo: read fault\n";

const WRITE_FAULT: &str = "hippo: write fault\n";

const COUNTS: &str = "reports 1\nflushes 1\nfences 1\nhoists 0\nclones 0\n";

/// The trace of the run of `COPY`.
pub const COPY_TRACE: &str =
    "START;1000000000|REGISTER;0x100000000;0x40|STORE;0x100000000;0x9;0x8|STOP;0";

pub const COPY_FILES: &[(&str, &str)] = &[("a", COPY), ("b", COPY_TRACE)];

/// Asserts a read fault if the file fails at any of its bytes, or after the last one.
fn assert_faults(rt: &impl Abort, alloc: Global, words: &[&str], name: &str, length: usize) {
    for byte in 0..=length {
        let at = FailAt::Byte(byte as u64);
        let outcome = outcome_of_fault(rt, alloc, words, COPY_FILES, name, at);
        assert_outcome(rt, &outcome, 3, "", READ_FAULT, name);
    }
}

/// Each command that reads a program and a trace.
const OF_TWO_FILES: &[&[&str]] = &[
    &["check", "a", "b"],
    &["repair", "a", "b"],
    &["rerun", "a", "b"],
    &["thin", "a", "b"],
    &["many", "a", "b"],
    &["crash", "a", "b", "1"],
];

#[test]
fn program_fails_at_each_byte(rt: HostRuntime) {
    for words in OF_TWO_FILES {
        assert_faults(&rt, rt.alloc(), *words, "a", COPY.len());
    }
}

#[test]
fn trace_fails_at_each_byte(rt: HostRuntime) {
    for words in OF_TWO_FILES {
        assert_faults(&rt, rt.alloc(), *words, "b", COPY_TRACE.len());
    }
}

/// The third entry differs from the run's. The separator after it is byte 68.
const DIFFERS_AT_BYTE_68: &str =
    "START;1000000000|REGISTER;0x100000000;0x40|STORE;0x100000000;0x6;0x8|STOP;0";

/// A misfit is answered as soon as the entry's end is read; a fault before that is answered instead.
#[test]
fn fault_before_and_after_a_misfit(rt: HostRuntime) {
    let files = &[("a", ONE_STORE), ("b", DIFFERS_AT_BYTE_68)];
    for byte in 0..=DIFFERS_AT_BYTE_68.len() {
        let at = FailAt::Byte(byte as u64);
        let outcome = outcome_of_fault(&rt, rt.alloc(), &["repair", "a", "b"], files, "b", at);
        if byte <= 68 {
            assert_outcome(&rt, &outcome, 3, "", READ_FAULT, "before");
        } else {
            assert_outcome(
                &rt,
                &outcome,
                6,
                "",
                "hippo: trace entry 3: differs\n",
                "after",
            );
        }
    }
}

const STORE_FILES: &[(&str, &str)] = &[("a", ONE_STORE), ("b", ONE_STORE_TRACE)];

#[test]
fn output_has_room_for_some_bytes(rt: HostRuntime) {
    let text = ONE_STORE_REPAIRED.as_bytes();
    for room in 0..text.len() {
        let outcome = outcome_in_room(
            &rt,
            rt.alloc(),
            &["repair", "a", "b"],
            STORE_FILES,
            room as u64,
            100,
        );
        assert_eq!(rt; outcome.code, 4);
        assert_eq!(rt; outcome.out.bytes(), &text[..room]);
        assert_eq!(rt; outcome.notes.bytes(), WRITE_FAULT.as_bytes());
    }
}

/// The output is whole even if the notes have too little room.
#[test]
fn notes_have_room_for_some_bytes(rt: HostRuntime) {
    let notes = COUNTS.as_bytes();
    for room in 0..notes.len() {
        let outcome = outcome_in_room(
            &rt,
            rt.alloc(),
            &["repair", "a", "b"],
            STORE_FILES,
            1_000,
            room as u64,
        );
        assert_eq!(rt; outcome.code, 4);
        assert_eq!(rt; outcome.out.bytes(), ONE_STORE_REPAIRED.as_bytes());
        assert_eq!(rt; outcome.notes.bytes(), &notes[..room]);
    }
}

/// The refusal is answered even if there is no room for its line.
#[test]
fn line_of_a_refusal_has_room_for_some_bytes(rt: HostRuntime) {
    let files = &[("a", ONE_STORE), ("b", "")];
    let line = "hippo: trace entry 1: early\n".as_bytes();
    for room in 0..line.len() {
        let outcome = outcome_in_room(
            &rt,
            rt.alloc(),
            &["repair", "a", "b"],
            files,
            100,
            room as u64,
        );
        assert_eq!(rt; outcome.code, 6);
        assert_eq!(rt; outcome.out.bytes(), b"".as_slice());
        assert_eq!(rt; outcome.notes.bytes(), &line[..room]);
    }
}

/// A trace of the program of one store, and the first entry that differs from the run's.
const BAD_ENTRIES: &[(&str, &str)] = &[
    ("|", "hippo: trace entry 1: malformed\n"),
    (
        "START;18446744073709551616",
        "hippo: trace entry 1: malformed\n",
    ),
    (
        "START;1000000000|REGISTER;0x100000000;0x40|REGISTER;0x100000000;0x40|STOP;0",
        "hippo: trace entry 3: differs\n",
    ),
];

#[test]
fn bad_entries(rt: HostRuntime) {
    for (trace, notes) in BAD_ENTRIES {
        let files = &[("a", ONE_STORE), ("b", *trace)];
        let outcome = outcome_in_chunks(&rt, rt.alloc(), &["repair", "a", "b"], files, 7);
        assert_outcome(&rt, &outcome, 6, "", *notes, *trace);
    }
}

/// No proper front of a program's text is a program, as its last brace is missing.
#[test]
fn program_prefixes(rt: HostRuntime) {
    let text = generate(rt.alloc(), 1, 100).expect(&rt, AMPLE);
    let text = text.as_slice();
    assert!(rt; !text.is_empty());
    for length in 0..2_000 {
        if length < text.len() {
            let trace = ONE_STORE_TRACE.as_bytes();
            let files = &[("a", &text[..length]), ("b", trace)];
            let outcome = outcome_of_bytes(&rt, rt.alloc(), &["repair", "a", "b"], files);
            assert_eq!(rt; outcome.code, 5);
            assert_eq!(rt; outcome.out.bytes(), b"".as_slice());
        }
    }
}
