//! `check`: a line for each report.

use crate::commands::{Case, assert_cases};
use hip_examples::{
    ASSERT_INSIDE_CALLEE, BOTH_LINES_FLUSHED, COPY, EVEN_AND_ODD, FENCE_WITHOUT_FLUSH,
    FLUSH_OF_A_RANGE, FLUSH_WITHOUT_FENCE, ONE_OF_TWO_LINES, ONE_STORE, ONE_STORE_TRACE,
    OVERWRITTEN, PERSIST, SHARED_LINE, TWO_LINES,
};

const ONE_STORES: &[Case] = &[Case {
    words: &["check", "a", "b"],
    files: &[("a", ONE_STORE), ("b", ONE_STORE_TRACE)],
    code: 0,
    out: "report both entry 3 check 4 closed 0 path @main:entry:0\n",
    notes: "reports 1\n",
}];

#[test]
fn one_store_is_reported(rt: HostRuntime) {
    assert_cases(&rt, rt.alloc(), ONE_STORES);
}

const KINDS: &[Case] = &[
    Case {
        words: &["check", "a", "b"],
        files: &[
            ("a", FENCE_WITHOUT_FLUSH),
            (
                "b",
                "START;1000000000|REGISTER;0x100000000;0x40|STORE;0x100000000;0x5;0x8|FENCE|STOP;0",
            ),
        ],
        code: 0,
        out: "report flush entry 3 check 5 closed 0 path @main:entry:0\n",
        notes: "reports 1\n",
    },
    Case {
        words: &["check", "a", "b"],
        files: &[
            ("a", FLUSH_WITHOUT_FENCE),
            (
                "b",
                "START;1000000000|REGISTER;0x100000000;0x40|STORE;0x100000000;0x5;0x8|FLUSH;0x100000000;0x40|STOP;0",
            ),
        ],
        code: 0,
        out: "report fence entry 3 check 5 closed 0 flush @main:entry:1 path @main:entry:0\n",
        notes: "reports 1\n",
    },
    Case {
        words: &["check", "a", "b"],
        files: &[
            ("a", OVERWRITTEN),
            (
                "b",
                "START;1000000000|REGISTER;0x100000000;0x40|STORE;0x100000000;0x5;0x8|STORE;0x100000000;0x6;0x8|STOP;0",
            ),
        ],
        code: 0,
        out: "report both entry 4 check 5 closed 0 path @main:entry:1\n",
        notes: "reports 1\n",
    },
];

#[test]
fn kinds_of_reports(rt: HostRuntime) {
    assert_cases(&rt, rt.alloc(), KINDS);
}

const DURABLE: &[Case] = &[
    Case {
        words: &["check", "a", "b"],
        files: &[
            ("a", SHARED_LINE),
            (
                "b",
                "START;1000000000|REGISTER;0x100000000;0x40|STORE;0x100000000;0x5;0x8|STORE;0x100000008;0x6;0x8|FLUSH;0x100000000;0x40|FENCE|STOP;0",
            ),
        ],
        code: 0,
        out: "",
        notes: "reports 0\n",
    },
    Case {
        words: &["check", "a", "b"],
        files: &[
            ("a", PERSIST),
            (
                "b",
                "START;1000000000|REGISTER;0x100000000;0x40|STORE;0x100000000;0x5;0x8|PERSIST;0x100000000;0x40|STOP;0",
            ),
        ],
        code: 0,
        out: "",
        notes: "reports 0\n",
    },
];

#[test]
fn nothing_is_reported(rt: HostRuntime) {
    assert_cases(&rt, rt.alloc(), DURABLE);
}

const PATHS: &[Case] = &[
    Case {
        words: &["check", "a", "b"],
        files: &[
            ("a", COPY),
            (
                "b",
                "START;1000000000|REGISTER;0x100000000;0x40|STORE;0x100000000;0x9;0x8|STOP;0",
            ),
        ],
        code: 0,
        out: "report both entry 3 check 4 closed 1 path @copy:entry:1 @main:entry:4\n",
        notes: "reports 1\n",
    },
    Case {
        words: &["check", "a", "b"],
        files: &[
            ("a", EVEN_AND_ODD),
            (
                "b",
                "START;1000000000|REGISTER;0x100000000;0x40|STORE;0x100000000;0x2;0x8|STORE;0x100000000;0x1;0x8|STOP;0",
            ),
        ],
        code: 0,
        out: "report both entry 4 check 5 closed 2 path @odd:more:0 @even:more:2 @main:entry:2\n",
        notes: "reports 1\n",
    },
];

#[test]
fn paths_of_reports(rt: HostRuntime) {
    assert_cases(&rt, rt.alloc(), PATHS);
}

const CALLEES: &[Case] = &[Case {
    words: &["check", "a", "b"],
    files: &[
        ("a", ASSERT_INSIDE_CALLEE),
        (
            "b",
            "START;1000000000|REGISTER;0x100000000;0x40|STORE;0x100000000;0x9;0x8|ASSERT;0x100000000;0x8|STOP;0",
        ),
    ],
    code: 0,
    out: "report both entry 3 check 4 closed 0 path @copy:entry:1 @main:entry:0\nreport both entry 3 check 5 closed 1 path @copy:entry:1 @main:entry:0\n",
    notes: "reports 2\n",
}];

#[test]
fn checks_inside_a_callee(rt: HostRuntime) {
    assert_cases(&rt, rt.alloc(), CALLEES);
}

const LIBPMEM: &[Case] = &[Case {
    words: &["check", "a", "b"],
    files: &[
        ("a", FLUSH_OF_A_RANGE),
        (
            "b",
            "START;1000000000|REGISTER;0x100000000;0x40|STORE;0x100000000;0x5;0x8|FLUSH;0x100000000;0x40|STOP;0",
        ),
    ],
    code: 0,
    out: "report fence entry 3 check 5 closed 0 flush @main:entry:1 path @main:entry:0\n",
    notes: "reports 1\n",
}];

#[test]
fn kinds_with_libpmem(rt: HostRuntime) {
    assert_cases(&rt, rt.alloc(), LIBPMEM);
}

const IN_TWO_LINES: &[Case] = &[
    Case {
        words: &["check", "a", "b"],
        files: &[
            ("a", TWO_LINES),
            (
                "b",
                "START;1000000000|REGISTER;0x100000000;0x80|STORE;0x10000003c;0x5;0x8|STOP;0",
            ),
        ],
        code: 0,
        out: "report both entry 3 check 4 closed 0 path @main:entry:0\n",
        notes: "reports 1\n",
    },
    Case {
        words: &["check", "a", "b"],
        files: &[
            ("a", ONE_OF_TWO_LINES),
            (
                "b",
                "START;1000000000|REGISTER;0x100000000;0x80|STORE;0x10000003c;0x5;0x8|FLUSH;0x100000000;0x40|FENCE|STOP;0",
            ),
        ],
        code: 0,
        out: "report flush entry 3 check 6 closed 0 path @main:entry:0\n",
        notes: "reports 1\n",
    },
    Case {
        words: &["check", "a", "b"],
        files: &[
            ("a", BOTH_LINES_FLUSHED),
            (
                "b",
                "START;1000000000|REGISTER;0x100000000;0x80|STORE;0x10000003c;0x5;0x8|FLUSH;0x100000000;0x40|FLUSH;0x100000040;0x40|STOP;0",
            ),
        ],
        code: 0,
        out: "report fence entry 3 check 6 closed 0 flush @main:entry:2 path @main:entry:0\n",
        notes: "reports 1\n",
    },
];

#[test]
fn two_line_kinds(rt: HostRuntime) {
    assert_cases(&rt, rt.alloc(), IN_TWO_LINES);
}
