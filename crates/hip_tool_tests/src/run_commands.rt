//! What `hippo run` answers and writes.

use crate::commands::{Case, assert_cases, assert_outcome, outcome_in_room, outcome_of_fault};
use hip_examples::{DIVIDE_BY_ZERO, ENDLESS_LOOP, KEY_VALUE_LOG, ONE_STORE, SUM_OF_NUMBERS};
use hip_io::FailAt;

/// A program that prints three numbers, each on a line of two bytes or more, and returns a negative number.
const THREE_LINES: &str = "declare void @print_i64(i64)
define i32 @main() {
entry:
  call void @print_i64(i64 7)
  call void @print_i64(i64 -8)
  call void @print_i64(i64 9)
  ret i32 -1
}
";

const UNSOUND: &str = "define i32 @main() {
entry:
  ret i32 %x
}
";

const SUMS: &[Case] = &[
    Case {
        words: &["run", "a", "--", "-5", "3"],
        files: &[("a", SUM_OF_NUMBERS)],
        code: 0,
        out: "-2\n",
        notes: "stop 0\n",
    },
    Case {
        words: &["run", "a", "9223372036854775807", "1"],
        files: &[("a", SUM_OF_NUMBERS)],
        code: 0,
        out: "-9223372036854775808\n",
        notes: "stop 0\n",
    },
    Case {
        words: &["run", "a", "--limit", "0", "7", "8"],
        files: &[("a", SUM_OF_NUMBERS)],
        code: 10,
        out: "",
        notes: "cut\n",
    },
    Case {
        words: &["run", "a", "7"],
        files: &[("a", SUM_OF_NUMBERS)],
        code: 9,
        out: "",
        notes: "trap input\n",
    },
];

#[test]
fn sum_of_numbers(rt: HostRuntime) {
    assert_cases(&rt, rt.alloc(), SUMS);
}

const TRAPS: &[Case] = &[Case {
    words: &["run", "a"],
    files: &[("a", DIVIDE_BY_ZERO)],
    code: 9,
    out: "",
    notes: "trap divzero\n",
}];

#[test]
fn divide_by_zero(rt: HostRuntime) {
    assert_cases(&rt, rt.alloc(), TRAPS);
}

const LINES: &[Case] = &[Case {
    words: &["run", "a"],
    files: &[("a", THREE_LINES)],
    code: 0,
    out: "7\n-8\n9\n",
    notes: "stop -1\n",
}];

#[test]
fn output_and_code(rt: HostRuntime) {
    assert_cases(&rt, rt.alloc(), LINES);
}

const CUTS: &[Case] = &[
    Case {
        words: &["run", "a", "--limit", "2"],
        files: &[("a", THREE_LINES)],
        code: 10,
        out: "7\n-8\n",
        notes: "cut\n",
    },
    Case {
        words: &["run", "a", "--limit=4"],
        files: &[("a", ENDLESS_LOOP)],
        code: 10,
        out: "",
        notes: "cut\n",
    },
];

#[test]
fn runs_that_are_cut(rt: HostRuntime) {
    assert_cases(&rt, rt.alloc(), CUTS);
}

const WORKED: &[Case] = &[
    Case {
        words: &["run", "a"],
        files: &[("a", ONE_STORE)],
        code: 0,
        out: "",
        notes: "stop 0\n",
    },
    Case {
        words: &["run", "a"],
        files: &[("a", KEY_VALUE_LOG)],
        code: 0,
        out: "40\n",
        notes: "stop 0\n",
    },
];

#[test]
fn worked_programs(rt: HostRuntime) {
    assert_cases(&rt, rt.alloc(), WORKED);
}

const REFUSED: &[Case] = &[
    Case {
        words: &["run", "a"],
        files: &[("a", UNSOUND)],
        code: 5,
        out: "",
        notes: "hippo: program: unknown at function 0 block 0 end\n",
    },
    Case {
        words: &["run", "a"],
        files: &[("a", "@x = global float 0\n")],
        code: 5,
        out: "",
        notes: "hippo: program line 1: unsupported\n",
    },
];

#[test]
fn refused_before_a_run(rt: HostRuntime) {
    assert_cases(&rt, rt.alloc(), REFUSED);
}

/// How many bytes of the text of three lines there is room for, and what is written when a write has failed.
const ROOMS: &[(u64, &str)] = &[
    (0, ""),
    (1, "7"),
    (2, "7\n"),
    (3, "7\n-"),
    (4, "7\n-8"),
    (5, "7\n-8\n"),
    (6, "7\n-8\n9"),
];

#[test]
fn output_is_cut_where_it_fails(rt: HostRuntime) {
    for (room, out) in ROOMS {
        let files = &[("a", THREE_LINES)];
        let outcome = outcome_in_room(&rt, rt.alloc(), &["run", "a"], files, *room, 100);
        assert_outcome(&rt, &outcome, 4, *out, "hippo: write fault\n", *out);
    }
}

/// The output is whole and the notes are not: the command tries to write the line of the write fault after them.
#[test]
fn notes_are_cut_where_they_fail(rt: HostRuntime) {
    let files = &[("a", THREE_LINES)];
    let outcome = outcome_in_room(&rt, rt.alloc(), &["run", "a"], files, 100, 5);
    assert_outcome(&rt, &outcome, 4, "7\n-8\n9\n", "stop ", "notes");
}

/// Where the program's file fails.
const FAULTS: &[FailAt] = &[FailAt::Fetch, FailAt::Byte(0), FailAt::Byte(20)];

#[test]
fn run_read_faults(rt: HostRuntime) {
    for at in FAULTS {
        let files = &[("a", THREE_LINES)];
        let outcome = outcome_of_fault(&rt, rt.alloc(), &["run", "a"], files, "a", *at);
        assert_outcome(&rt, &outcome, 3, "", "hippo: read fault\n", "fault");
    }
}
