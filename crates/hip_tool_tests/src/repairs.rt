//! `repair`: a flush after a store, a fence after a flush, and programs without anything to repair.

use crate::commands::{Case, assert_cases};
use hip_examples::{
    DIVIDE_BY_ZERO, FENCE_WITHOUT_FLUSH, FLUSH_OF_A_RANGE, FLUSH_WITHOUT_FENCE, ONE_STORE,
    ONE_STORE_REPAIRED, ONE_STORE_TRACE, OVERWRITTEN, PERSIST, SHARED_LINE, TWO_LINES,
    TWO_LINES_REPAIRED,
};

/// The counts of one flush and one fence.
const ONE_REPAIR: &str = "reports 1
flushes 1
fences 1
hoists 0
clones 0
";

/// The counts where nothing is reported.
const NO_REPAIR: &str = "reports 0
flushes 0
fences 0
hoists 0
clones 0
";

/// `FENCE_WITHOUT_FLUSH` repaired: its own fence is used.
const FENCE_WITHOUT_FLUSH_REPAIRED: &str = "@x = global i64 0, section \".pm\"
declare void @llvm.x86.sse.sfence()
declare void @llvm.x86.clwb(ptr)
define i32 @main() {
entry:
  store i64 5, ptr @x
  call void @llvm.x86.clwb(ptr @x)
  call void @llvm.x86.sse.sfence()
  ret i32 0
}
";

/// `OVERWRITTEN` repaired: the first store needs no flush.
const OVERWRITTEN_REPAIRED: &str = "@x = global i64 0, section \".pm\"
declare void @llvm.x86.clwb(ptr)
declare void @llvm.x86.sse.sfence()
define i32 @main() {
entry:
  store i64 5, ptr @x
  store i64 6, ptr @x
  call void @llvm.x86.clwb(ptr @x)
  call void @llvm.x86.sse.sfence()
  ret i32 0
}
";

/// `FLUSH_OF_A_RANGE` repaired.
const FLUSH_OF_A_RANGE_REPAIRED: &str = "@x = global i64 0, section \".pm\"
declare void @pmem_flush(ptr, i64)
declare void @llvm.x86.sse.sfence()
define i32 @main() {
entry:
  store i64 5, ptr @x
  call void @pmem_flush(ptr @x, i64 8)
  call void @llvm.x86.sse.sfence()
  ret i32 0
}
";

const ONE_STORES: &[Case] = &[
    Case {
        words: &["repair", "a", "b"],
        files: &[("a", ONE_STORE), ("b", ONE_STORE_TRACE)],
        code: 0,
        out: ONE_STORE_REPAIRED,
        notes: ONE_REPAIR,
    },
    Case {
        words: &["repair", "--", "a", "b"],
        files: &[("a", ONE_STORE), ("b", ONE_STORE_TRACE)],
        code: 0,
        out: ONE_STORE_REPAIRED,
        notes: ONE_REPAIR,
    },
];

#[test]
fn one_store(rt: HostRuntime) {
    assert_cases(&rt, rt.alloc(), ONE_STORES);
}

const REPAIRED: &[Case] = &[Case {
    words: &["repair", "a", "b"],
    files: &[
        ("a", ONE_STORE_REPAIRED),
        (
            "b",
            "START;1000000000|REGISTER;0x100000000;0x40|STORE;0x100000000;0x5;0x8|FLUSH;0x100000000;0x40|FENCE|STOP;0",
        ),
    ],
    code: 0,
    out: ONE_STORE_REPAIRED,
    notes: NO_REPAIR,
}];

#[test]
fn repaired_is_stable(rt: HostRuntime) {
    assert_cases(&rt, rt.alloc(), REPAIRED);
}

const FENCED: &[Case] = &[Case {
    words: &["repair", "a", "b"],
    files: &[
        ("a", FENCE_WITHOUT_FLUSH),
        (
            "b",
            "START;1000000000|REGISTER;0x100000000;0x40|STORE;0x100000000;0x5;0x8|FENCE|STOP;0",
        ),
    ],
    code: 0,
    out: FENCE_WITHOUT_FLUSH_REPAIRED,
    notes: "reports 1\nflushes 1\nfences 0\nhoists 0\nclones 0\n",
}];

#[test]
fn fence_without_flush(rt: HostRuntime) {
    assert_cases(&rt, rt.alloc(), FENCED);
}

const FLUSHED: &[Case] = &[Case {
    words: &["repair", "a", "b"],
    files: &[
        ("a", FLUSH_WITHOUT_FENCE),
        (
            "b",
            "START;1000000000|REGISTER;0x100000000;0x40|STORE;0x100000000;0x5;0x8|FLUSH;0x100000000;0x40|STOP;0",
        ),
    ],
    code: 0,
    out: ONE_STORE_REPAIRED,
    notes: "reports 1\nflushes 0\nfences 1\nhoists 0\nclones 0\n",
}];

#[test]
fn flush_without_fence(rt: HostRuntime) {
    assert_cases(&rt, rt.alloc(), FLUSHED);
}

const OVERWRITTEN_STORES: &[Case] = &[Case {
    words: &["repair", "a", "b"],
    files: &[
        ("a", OVERWRITTEN),
        (
            "b",
            "START;1000000000|REGISTER;0x100000000;0x40|STORE;0x100000000;0x5;0x8|STORE;0x100000000;0x6;0x8|STOP;0",
        ),
    ],
    code: 0,
    out: OVERWRITTEN_REPAIRED,
    notes: ONE_REPAIR,
}];

#[test]
fn overwritten_store(rt: HostRuntime) {
    assert_cases(&rt, rt.alloc(), OVERWRITTEN_STORES);
}

const DURABLE: &[Case] = &[
    Case {
        words: &["repair", "a", "b"],
        files: &[
            ("a", SHARED_LINE),
            (
                "b",
                "START;1000000000|REGISTER;0x100000000;0x40|STORE;0x100000000;0x5;0x8|STORE;0x100000008;0x6;0x8|FLUSH;0x100000000;0x40|FENCE|STOP;0",
            ),
        ],
        code: 0,
        out: SHARED_LINE,
        notes: NO_REPAIR,
    },
    Case {
        words: &["repair", "a", "b"],
        files: &[
            ("a", DIVIDE_BY_ZERO),
            (
                "b",
                "START;1000000000|REGISTER;0x100000000;0x40|STORE;0x100000000;0x5;0x8|TRAP;divzero",
            ),
        ],
        code: 0,
        out: DIVIDE_BY_ZERO,
        notes: NO_REPAIR,
    },
    Case {
        words: &["repair", "a", "b"],
        files: &[
            ("a", PERSIST),
            (
                "b",
                "START;1000000000|REGISTER;0x100000000;0x40|STORE;0x100000000;0x5;0x8|PERSIST;0x100000000;0x40|STOP;0",
            ),
        ],
        code: 0,
        out: PERSIST,
        notes: NO_REPAIR,
    },
];

#[test]
fn nothing_to_repair(rt: HostRuntime) {
    assert_cases(&rt, rt.alloc(), DURABLE);
}

const PMEM_FLUSHES: &[Case] = &[Case {
    words: &["repair", "a", "b"],
    files: &[
        ("a", FLUSH_OF_A_RANGE),
        (
            "b",
            "START;1000000000|REGISTER;0x100000000;0x40|STORE;0x100000000;0x5;0x8|FLUSH;0x100000000;0x40|STOP;0",
        ),
    ],
    code: 0,
    out: FLUSH_OF_A_RANGE_REPAIRED,
    notes: "reports 1\nflushes 0\nfences 1\nhoists 0\nclones 0\n",
}];

#[test]
fn pmem_flush_call(rt: HostRuntime) {
    assert_cases(&rt, rt.alloc(), PMEM_FLUSHES);
}

const WIDE_STORES: &[Case] = &[Case {
    words: &["repair", "a", "b"],
    files: &[
        ("a", TWO_LINES),
        (
            "b",
            "START;1000000000|REGISTER;0x100000000;0x80|STORE;0x10000003c;0x5;0x8|STOP;0",
        ),
    ],
    code: 0,
    out: TWO_LINES_REPAIRED,
    notes: ONE_REPAIR,
}];

#[test]
fn store_in_two_lines(rt: HostRuntime) {
    assert_cases(&rt, rt.alloc(), WIDE_STORES);
}
