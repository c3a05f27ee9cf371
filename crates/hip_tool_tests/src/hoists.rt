//! `repair` by persistent clones of functions, with a fence after the call.

use crate::commands::{Case, assert_cases};
use hip_examples::{
    ASSERT_INSIDE_CALLEE, COPY, COPY_REPAIRED, EVEN_AND_ODD, EVEN_AND_ODD_REPAIRED, REACH,
    REACH_REPAIRED,
};

/// The counts of one hoisted call and one clone.
const ONE_HOIST: &str = "reports 1
flushes 0
fences 0
hoists 1
clones 1
";

/// `ASSERT_INSIDE_CALLEE` repaired at the store: the call has not returned where the copied bytes are checked.
const ASSERT_INSIDE_CALLEE_REPAIRED: &str = "@p = global i64 0, section \".pm\"
@q = global i64 9
declare void @pm_assert(ptr, i64)
declare void @llvm.x86.clwb(ptr)
declare void @llvm.x86.sse.sfence()
define void @copy(ptr %dst, ptr %src) {
entry:
  %v = load i64, ptr %src
  store i64 %v, ptr %dst
  call void @llvm.x86.clwb(ptr %dst)
  call void @llvm.x86.sse.sfence()
  call void @pm_assert(ptr %dst, i64 8)
  ret void
}
define i32 @main() {
entry:
  call void @copy(ptr @p, ptr @q)
  ret i32 0
}
";

/// The store and its call have equal scores.
const TIE: &str = "@p = global i64 0, section \".pm\"
@q = global i64 9
define void @copy(ptr %dst, ptr %src) {
entry:
  %v = load i64, ptr %src
  store i64 %v, ptr %dst
  ret void
}
define i32 @main() {
entry:
  call void @copy(ptr @p, ptr @q)
  ret i32 0
}
";

/// The same, repaired at the innermost site.
const TIE_REPAIRED: &str = "@p = global i64 0, section \".pm\"
@q = global i64 9
declare void @llvm.x86.clwb(ptr)
declare void @llvm.x86.sse.sfence()
define void @copy(ptr %dst, ptr %src) {
entry:
  %v = load i64, ptr %src
  store i64 %v, ptr %dst
  call void @llvm.x86.clwb(ptr %dst)
  call void @llvm.x86.sse.sfence()
  ret void
}
define i32 @main() {
entry:
  call void @copy(ptr @p, ptr @q)
  ret i32 0
}
";

/// A function has the name that the clone would get.
const NAME_TAKEN: &str = "@p = global i64 0, section \".pm\"
define void @copy(ptr %dst, ptr %src) {
entry:
  %v = load i64, ptr %src
  store i64 %v, ptr %dst
  ret void
}
define i32 @main() {
entry:
  %a = alloca i64
  %b = alloca i64
  store i64 9, ptr %a
  call void @copy(ptr %b, ptr %a)
  call void @copy(ptr @p, ptr %b)
  ret i32 0
}
define void @copy.pm(ptr %d, ptr %s) {
entry:
  ret void
}
";

/// The same, repaired.
const NAME_TAKEN_REPAIRED: &str = "@p = global i64 0, section \".pm\"
declare void @llvm.x86.clwb(ptr)
declare void @llvm.x86.sse.sfence()
define void @copy(ptr %dst, ptr %src) {
entry:
  %v = load i64, ptr %src
  store i64 %v, ptr %dst
  ret void
}
define i32 @main() {
entry:
  %a = alloca i64
  %b = alloca i64
  store i64 9, ptr %a
  call void @copy(ptr %b, ptr %a)
  call void @copy.pm1(ptr @p, ptr %b)
  call void @llvm.x86.sse.sfence()
  ret i32 0
}
define void @copy.pm(ptr %d, ptr %s) {
entry:
  ret void
}
define void @copy.pm1(ptr %dst, ptr %src) {
entry:
  %v = load i64, ptr %src
  store i64 %v, ptr %dst
  call void @llvm.x86.clwb(ptr %dst)
  ret void
}
";

/// A trace whose only store is of the number 9.
const ONE_STORE_OF_NINE: &str =
    "START;1000000000|REGISTER;0x100000000;0x40|STORE;0x100000000;0x9;0x8|STOP;0";

const COPIES: &[Case] = &[Case {
    words: &["repair", "a", "b"],
    files: &[("a", COPY), ("b", ONE_STORE_OF_NINE)],
    code: 0,
    out: COPY_REPAIRED,
    notes: ONE_HOIST,
}];

#[test]
fn copy_hoisted(rt: HostRuntime) {
    assert_cases(&rt, rt.alloc(), COPIES);
}

const REPAIRED_COPIES: &[Case] = &[Case {
    words: &["repair", "a", "b"],
    files: &[
        ("a", COPY_REPAIRED),
        (
            "b",
            "START;1000000000\nREGISTER;0x100000000;0x40\nSTORE;0x100000000;0x9;0x8\nFLUSH;0x100000000;0x40\nFENCE\nSTOP;0\n",
        ),
    ],
    code: 0,
    out: COPY_REPAIRED,
    notes: "reports 0\nflushes 0\nfences 0\nhoists 0\nclones 0\n",
}];

#[test]
fn repaired_copy_is_stable(rt: HostRuntime) {
    assert_cases(&rt, rt.alloc(), REPAIRED_COPIES);
}

const ASSERTS: &[Case] = &[Case {
    words: &["repair", "a", "b"],
    files: &[
        ("a", ASSERT_INSIDE_CALLEE),
        (
            "b",
            "START;1000000000|REGISTER;0x100000000;0x40|STORE;0x100000000;0x9;0x8|ASSERT;0x100000000;0x8|STOP;0",
        ),
    ],
    code: 0,
    out: ASSERT_INSIDE_CALLEE_REPAIRED,
    notes: "reports 2\nflushes 1\nfences 1\nhoists 0\nclones 0\n",
}];

#[test]
fn assert_inside_callee(rt: HostRuntime) {
    assert_cases(&rt, rt.alloc(), ASSERTS);
}

const TIES: &[Case] = &[Case {
    words: &["repair", "a", "b"],
    files: &[("a", TIE), ("b", ONE_STORE_OF_NINE)],
    code: 0,
    out: TIE_REPAIRED,
    notes: "reports 1\nflushes 1\nfences 1\nhoists 0\nclones 0\n",
}];

#[test]
fn tie_goes_innermost(rt: HostRuntime) {
    assert_cases(&rt, rt.alloc(), TIES);
}

const RECURSIONS: &[Case] = &[Case {
    words: &["repair", "a", "b"],
    files: &[
        ("a", EVEN_AND_ODD),
        (
            "b",
            "START;1000000000|REGISTER;0x100000000;0x40|STORE;0x100000000;0x2;0x8|STORE;0x100000000;0x1;0x8|STOP;0",
        ),
    ],
    code: 0,
    out: EVEN_AND_ODD_REPAIRED,
    notes: "reports 1\nflushes 0\nfences 0\nhoists 1\nclones 2\n",
}];

#[test]
fn mutual_recursion(rt: HostRuntime) {
    assert_cases(&rt, rt.alloc(), RECURSIONS);
}

const TAKEN_NAMES: &[Case] = &[Case {
    words: &["repair", "a", "b"],
    files: &[("a", NAME_TAKEN), ("b", ONE_STORE_OF_NINE)],
    code: 0,
    out: NAME_TAKEN_REPAIRED,
    notes: ONE_HOIST,
}];

#[test]
fn clone_name_taken(rt: HostRuntime) {
    assert_cases(&rt, rt.alloc(), TAKEN_NAMES);
}

const REACHES: &[Case] = &[Case {
    words: &["repair", "a", "b"],
    files: &[
        ("a", REACH),
        (
            "b",
            "START;1000000000|REGISTER;0x100000000;0x40|STORE;0x100000000;0x4;0x8|STOP;0",
        ),
    ],
    code: 0,
    out: REACH_REPAIRED,
    notes: ONE_HOIST,
}];

#[test]
fn alloca_gets_no_flush(rt: HostRuntime) {
    assert_cases(&rt, rt.alloc(), REACHES);
}
