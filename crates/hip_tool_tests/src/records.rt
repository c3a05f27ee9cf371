//! `record`: the trace of a run.

use crate::commands::{Case, assert_cases};
use hip_examples::{ENDLESS_LOOP, SEVEN};

/// An empty range at the base, the last byte of the region, and one byte after it.
const ASSERTED_RANGES: &str = "@p = global i64 0, section \".pm\"
declare void @pm_assert(ptr, i64)
define i32 @main() {
entry:
  call void @pm_assert(ptr @p, i64 0)
  call void @pm_assert(ptr getelementptr (i8, ptr @p, i64 63), i64 1)
  call void @pm_assert(ptr getelementptr (i8, ptr @p, i64 63), i64 2)
  ret i32 0
}
";

/// An empty range, one in two cache lines, and one that leaves the region.
const PMEM_FLUSH_RANGES: &str = "@a = global [16 x i64] zeroinitializer, section \".pm\"
declare void @pmem_flush(ptr, i64)
define i32 @main() {
entry:
  call void @pmem_flush(ptr @a, i64 0)
  call void @pmem_flush(ptr getelementptr (i8, ptr @a, i64 56), i64 16)
  call void @pmem_flush(ptr @a, i64 129)
  ret i32 0
}
";

const CUTS: &[Case] = &[
    Case {
        words: &["record", "a", "--limit", "4"],
        files: &[("a", ENDLESS_LOOP)],
        code: 10,
        out: "START;4\nREGISTER;0x100000000;0x40\nSTORE;0x100000000;0x7;0x8\nASSERT;0x100000000;0x8\nCUT\n",
        notes: "cut\n",
    },
    Case {
        words: &["record", "a", "--limit", "0"],
        files: &[("a", ENDLESS_LOOP)],
        code: 10,
        out: "START;0\nREGISTER;0x100000000;0x40\nCUT\n",
        notes: "cut\n",
    },
];

#[test]
fn endless_loop_cut(rt: HostRuntime) {
    assert_cases(&rt, rt.alloc(), CUTS);
}

const RANGES: &[Case] = &[Case {
    words: &["record", "a"],
    files: &[("a", ASSERTED_RANGES)],
    code: 9,
    out: "START;1000000000\nREGISTER;0x100000000;0x40\nASSERT;0x100000000;0x0\nASSERT;0x10000003f;0x1\nTRAP;address\n",
    notes: "trap address\n",
}];

#[test]
fn asserted_ranges(rt: HostRuntime) {
    assert_cases(&rt, rt.alloc(), RANGES);
}

const IMAGES: &[Case] = &[Case {
    words: &["record", "a"],
    files: &[("a", SEVEN)],
    code: 0,
    out: "START;1000000000\nREGISTER;0x100000000;0x40\nIMAGE;0x100000000;07000000000000000000000000000000000000000000000000000000000000000000000000000000000000000000000000000000000000000000000000000000\nSTOP;0\n",
    notes: "stop 0\n",
}];

#[test]
fn initial_image(rt: HostRuntime) {
    assert_cases(&rt, rt.alloc(), IMAGES);
}

const FLUSHES: &[Case] = &[Case {
    words: &["record", "a"],
    files: &[("a", PMEM_FLUSH_RANGES)],
    code: 9,
    out: "START;1000000000\nREGISTER;0x100000000;0x80\nFLUSH;0x100000000;0x80\nTRAP;address\n",
    notes: "trap address\n",
}];

#[test]
fn pmem_flush_ranges(rt: HostRuntime) {
    assert_cases(&rt, rt.alloc(), FLUSHES);
}
