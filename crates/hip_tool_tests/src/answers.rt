//! What `hippo` answers to words, files and faults of files.

use crate::commands::{assert_outcome, outcome_in_chunks, outcome_in_room, outcome_of_fault};
use hip_examples::{AMPLE, ONE_STORE, ONE_STORE_TRACE};
use hip_io::FailAt;
use hip_tool::Status;
use std::alloc::Global;
use std::process::Abort;

/// A program `a`, and the trace `b` of its run.
const FILES: &[(&str, &str)] = &[("a", ONE_STORE), ("b", ONE_STORE_TRACE)];

const USAGE: &str = "hippo: usage
usage: hippo run PROGRAM [--limit N] [NUMBERS...]
       hippo record PROGRAM [--base N] [--limit N] [NUMBERS...]
       hippo check PROGRAM TRACE
       hippo repair PROGRAM TRACE
       hippo rerun PROGRAM TRACE
       hippo demo SEED SIZE
       hippo many PROGRAM TRACES...
       hippo crash PROGRAM TRACE ENTRY [PICKS...]
       hippo thin PROGRAM TRACE
";

/// Words that are no command, or that name a missing file.
struct Words {
    words: &'static [&'static str],
    code: u8,
    notes: &'static str,
}

fn assert_refused(rt: &impl Abort, alloc: Global, cases: &[Words]) {
    for case in cases {
        let outcome = outcome_in_chunks(rt, alloc, case.words, FILES, 7);
        assert_outcome(rt, &outcome, case.code, "", case.notes, case.notes);
    }
}

const BAD_WORDS: &[Words] = &[
    Words {
        words: &[],
        code: 1,
        notes: USAGE,
    },
    Words {
        words: &["mend", "a", "b"],
        code: 1,
        notes: USAGE,
    },
    Words {
        words: &["repair", "a"],
        code: 1,
        notes: USAGE,
    },
    Words {
        words: &["repair", "-a", "b"],
        code: 1,
        notes: USAGE,
    },
    Words {
        words: &["run", "a", "--limit", "x"],
        code: 1,
        notes: USAGE,
    },
    Words {
        words: &["run", "--help"],
        code: 1,
        notes: USAGE,
    },
    Words {
        words: &["demo", "1", "0"],
        code: 1,
        notes: USAGE,
    },
    Words {
        words: &["record", "a", "--base", "4294967297"],
        code: 1,
        notes: USAGE,
    },
    Words {
        words: &["run", "a", "--limit", "1099511627777"],
        code: 1,
        notes: USAGE,
    },
    Words {
        words: &["many", "a"],
        code: 1,
        notes: USAGE,
    },
    Words {
        words: &["crash", "a", "b", "4", "0"],
        code: 1,
        notes: USAGE,
    },
];

#[test]
fn usage(rt: HostRuntime) {
    assert_refused(&rt, rt.alloc(), BAD_WORDS);
}

const NO_FILES: &[Words] = &[
    Words {
        words: &["repair", "c", "b"],
        code: 2,
        notes: "hippo: no file: program\n",
    },
    Words {
        words: &["check", "c", "b"],
        code: 2,
        notes: "hippo: no file: program\n",
    },
    Words {
        words: &["rerun", "c", "b"],
        code: 2,
        notes: "hippo: no file: program\n",
    },
    Words {
        words: &["thin", "c", "b"],
        code: 2,
        notes: "hippo: no file: program\n",
    },
    Words {
        words: &["many", "c", "b"],
        code: 2,
        notes: "hippo: no file: program\n",
    },
    Words {
        words: &["run", "c"],
        code: 2,
        notes: "hippo: no file: program\n",
    },
    Words {
        words: &["record", "c"],
        code: 2,
        notes: "hippo: no file: program\n",
    },
    Words {
        words: &["crash", "c", "b", "1"],
        code: 2,
        notes: "hippo: no file: program\n",
    },
    Words {
        words: &["repair", "a", "c"],
        code: 2,
        notes: "hippo: no file: trace\n",
    },
    Words {
        words: &["check", "a", "c"],
        code: 2,
        notes: "hippo: no file: trace\n",
    },
    Words {
        words: &["rerun", "a", "c"],
        code: 2,
        notes: "hippo: no file: trace\n",
    },
    Words {
        words: &["thin", "a", "c"],
        code: 2,
        notes: "hippo: no file: trace\n",
    },
    Words {
        words: &["crash", "a", "c", "1"],
        code: 2,
        notes: "hippo: no file: trace\n",
    },
    Words {
        words: &["many", "a", "b", "c"],
        code: 2,
        notes: "hippo: no file: trace 2\n",
    },
];

#[test]
fn missing_files(rt: HostRuntime) {
    assert_refused(&rt, rt.alloc(), NO_FILES);
}

/// Commands with the first ten bytes of their output, which has no more room.
const CUT_SHORT: &[(&[&str], &str)] = &[
    (&["repair", "a", "b"], "@x = globa"),
    (&["thin", "a", "b"], "@x = globa"),
    (&["many", "a", "b"], "@x = globa"),
    (&["check", "a", "b"], "report bot"),
    (&["rerun", "a", "b"], "START;1000"),
    (&["record", "a"], "START;1000"),
    (&["crash", "a", "b", "4"], "START;1000"),
    (&["demo", "1", "8"], "seed 1 siz"),
];

#[test]
fn out_of_room(rt: HostRuntime) {
    for (words, out) in CUT_SHORT {
        let outcome = outcome_in_room(&rt, rt.alloc(), *words, FILES, 10, 100);
        assert_outcome(&rt, &outcome, 4, *out, "hippo: write fault\n", *out);
    }
}

/// Where a file fails.
struct Failing {
    words: &'static [&'static str],
    name: &'static str,
    at: FailAt,
}

const FAILING_FILES: &[Failing] = &[
    Failing {
        words: &["repair", "a", "b"],
        name: "b",
        at: FailAt::Byte(20),
    },
    Failing {
        words: &["repair", "a", "b"],
        name: "b",
        at: FailAt::Fetch,
    },
    Failing {
        words: &["repair", "a", "b"],
        name: "a",
        at: FailAt::Fetch,
    },
    Failing {
        words: &["repair", "a", "b"],
        name: "a",
        at: FailAt::Byte(0),
    },
    Failing {
        words: &["check", "a", "b"],
        name: "b",
        at: FailAt::Byte(74),
    },
    Failing {
        words: &["check", "a", "b"],
        name: "a",
        at: FailAt::Byte(50),
    },
    Failing {
        words: &["rerun", "a", "b"],
        name: "b",
        at: FailAt::Byte(20),
    },
    Failing {
        words: &["thin", "a", "b"],
        name: "b",
        at: FailAt::Byte(20),
    },
    Failing {
        words: &["many", "a", "b"],
        name: "b",
        at: FailAt::Byte(20),
    },
    Failing {
        words: &["crash", "a", "b", "1"],
        name: "b",
        at: FailAt::Byte(20),
    },
    Failing {
        words: &["record", "a"],
        name: "a",
        at: FailAt::Byte(20),
    },
];

#[test]
fn read_faults(rt: HostRuntime) {
    for case in FAILING_FILES {
        let outcome = outcome_of_fault(&rt, rt.alloc(), case.words, FILES, case.name, case.at);
        assert_outcome(&rt, &outcome, 3, "", "hippo: read fault\n", case.words[0]);
    }
}

#[test]
fn too_large_program(rt: HostRuntime) {
    let spaces = " ".repeat(rt.alloc(), 16_777_217).expect(&rt, AMPLE);
    let files = &[("a", spaces.as_str()), ("b", "")];
    let outcome = outcome_in_chunks(&rt, rt.alloc(), &["repair", "a", "b"], files, 5000);
    assert_outcome(&rt, &outcome, 8, "", "hippo: program too large\n", "spaces");
}

#[test]
fn codes_of_other_statuses(rt: HostRuntime) {
    assert_eq!(rt; Status::NoMemory.code(), 7);
    assert_eq!(rt; Status::Cut.code(), 10);
}
