//! Traces that a cabinet gives in chunks of several sizes, and entries of every kind in them.

ghost use Rattle.std.specs.Prelude.{◌≤◌};

use crate::commands::{assert_outcome, outcome_in_chunks};
use crate::every_byte::COPY_FILES;
use hip_examples::ONE_STORE;
use std::alloc::Global;
use std::process::Abort;

/// A trace, and the exit code and the notes of `repair` of the program of one store.
struct Replay {
    trace: &'static str,
    code: u8,
    notes: &'static str,
}

const COUNTS: &str = "reports 1\nflushes 1\nfences 1\nhoists 0\nclones 0\n";

const REPLAYS: &[Replay] = &[
    Replay {
        trace: "START;1000000000|REGISTER;0x100000000;0x40\nSTORE;0x0100000000;0x05;0x8|STOP;-0\n",
        code: 0,
        notes: COUNTS,
    },
    Replay {
        trace: "START;1000000000|REGISTER;0x100000000;0x40|FLUSH;0x100000000;0x40|STOP;0",
        code: 6,
        notes: "hippo: trace entry 3: differs\n",
    },
    Replay {
        trace: "START;1000000000|REGISTER;0x100000000;0x40|PERSIST;0x100000000;0x41|STOP;0",
        code: 6,
        notes: "hippo: trace entry 3: malformed\n",
    },
    Replay {
        trace: "START;1000000000|REGISTER;0x100000000;0x40|STORE;0x100000000;0x5;0x8|TRAP;shift",
        code: 6,
        notes: "hippo: trace entry 4: differs\n",
    },
    Replay {
        trace: "FENCE|START;5",
        code: 6,
        notes: "hippo: trace entry 1: differs\n",
    },
    Replay {
        trace: "START;5|ASSERT;0x100000000;0x8",
        code: 6,
        notes: "hippo: trace entry 2: differs\n",
    },
];

fn assert_replays(rt: &impl Abort, alloc: Global, chunk: usize)
    requires { 1 ≤ chunk }
{
    for case in REPLAYS {
        let files = &[("a", ONE_STORE), ("b", case.trace)];
        let outcome = outcome_in_chunks(rt, alloc, &["repair", "a", "b"], files, chunk);
        assert_eq!(rt; outcome.code, case.code, "{}", case.trace);
        assert_eq!(rt;
            outcome.notes.bytes(),
            case.notes.as_bytes(),
            "{}",
            case.trace
        );
    }
}

#[test]
fn one_byte_at_a_time(rt: HostRuntime) {
    assert_replays(&rt, rt.alloc(), 1);
}

#[test]
fn whole_pages(rt: HostRuntime) {
    assert_replays(&rt, rt.alloc(), 5000);
}

fn assert_copy(rt: &impl Abort, alloc: Global, chunk: usize)
    requires { 1 ≤ chunk }
{
    let outcome = outcome_in_chunks(rt, alloc, &["check", "a", "b"], COPY_FILES, chunk);
    let report = "report both entry 3 check 4 closed 1 path @copy:entry:1 @main:entry:4\n";
    assert_outcome(rt, &outcome, 0, report, "reports 1\n", "copy");
}

#[test]
fn check_of_the_copy_in_chunks(rt: HostRuntime) {
    assert_copy(&rt, rt.alloc(), 1);
    assert_copy(&rt, rt.alloc(), 7);
    assert_copy(&rt, rt.alloc(), 4096);
}
