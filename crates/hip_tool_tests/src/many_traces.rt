//! `many`: one repair for the runs of many traces.

use crate::commands::{Case, assert_cases};

/// The first number decides which of two stores is made.
const TWO_BRANCHES: &str = "@x = global i64 0, section \".pm\"
@y = global i64 0, section \".pm\", align 64
declare i64 @read_i64()
define i32 @main() {
entry:
  %n = call i64 @read_i64()
  %z = icmp eq i64 %n, 0
  br i1 %z, label %a, label %b
a:
  store i64 5, ptr @x
  ret i32 0
b:
  store i64 6, ptr @y
  ret i32 0
}
";

/// The same, repaired in both branches.
const TWO_BRANCHES_REPAIRED: &str = "@x = global i64 0, section \".pm\"
@y = global i64 0, section \".pm\", align 64
declare i64 @read_i64()
declare void @llvm.x86.clwb(ptr)
declare void @llvm.x86.sse.sfence()
define i32 @main() {
entry:
  %n = call i64 @read_i64()
  %z = icmp eq i64 %n, 0
  br i1 %z, label %a, label %b
a:
  store i64 5, ptr @x
  call void @llvm.x86.clwb(ptr @x)
  call void @llvm.x86.sse.sfence()
  ret i32 0
b:
  store i64 6, ptr @y
  call void @llvm.x86.clwb(ptr @y)
  call void @llvm.x86.sse.sfence()
  ret i32 0
}
";

/// The same, repaired in the first branch alone.
const ONE_BRANCH_REPAIRED: &str = "@x = global i64 0, section \".pm\"
@y = global i64 0, section \".pm\", align 64
declare i64 @read_i64()
declare void @llvm.x86.clwb(ptr)
declare void @llvm.x86.sse.sfence()
define i32 @main() {
entry:
  %n = call i64 @read_i64()
  %z = icmp eq i64 %n, 0
  br i1 %z, label %a, label %b
a:
  store i64 5, ptr @x
  call void @llvm.x86.clwb(ptr @x)
  call void @llvm.x86.sse.sfence()
  ret i32 0
b:
  store i64 6, ptr @y
  ret i32 0
}
";

/// The trace of the first branch.
const FIRST: &str =
    "START;1000000000|REGISTER;0x100000000;0x80|INPUT;0|STORE;0x100000000;0x5;0x8|STOP;0";

/// The trace of the second branch.
const SECOND: &str =
    "START;1000000000|REGISTER;0x100000000;0x80|INPUT;1|STORE;0x100000040;0x6;0x8|STOP;0";

/// The same with another value.
const OTHER: &str =
    "START;1000000000|REGISTER;0x100000000;0x80|INPUT;1|STORE;0x100000040;0x7;0x8|STOP;0";

const BOTH: &[Case] = &[Case {
    words: &["many", "g", "t1", "t2"],
    files: &[("g", TWO_BRANCHES), ("t1", FIRST), ("t2", SECOND)],
    code: 0,
    out: TWO_BRANCHES_REPAIRED,
    notes: "traces 2\nreports 2\nflushes 2\nfences 2\nhoists 0\nclones 0\nwhy flush @main:a:0 traces 1\nwhy flush @main:b:0 traces 1\nwhy fence @main:a:0 traces 1\nwhy fence @main:b:0 traces 1\n",
}];

#[test]
fn two_branches_two_traces(rt: HostRuntime) {
    assert_cases(&rt, rt.alloc(), BOTH);
}

const TWICE: &[Case] = &[Case {
    words: &["many", "g", "t1", "t1"],
    files: &[("g", TWO_BRANCHES), ("t1", FIRST)],
    code: 0,
    out: ONE_BRANCH_REPAIRED,
    notes: "traces 2\nreports 2\nflushes 1\nfences 1\nhoists 0\nclones 0\nwhy flush @main:a:0 traces 2\nwhy fence @main:a:0 traces 2\n",
}];

#[test]
fn same_trace_twice(rt: HostRuntime) {
    assert_cases(&rt, rt.alloc(), TWICE);
}

const SECOND_MISFITS: &[Case] = &[
    Case {
        words: &["many", "g", "t1", "t3"],
        files: &[("g", TWO_BRANCHES), ("t1", FIRST), ("t3", OTHER)],
        code: 11,
        out: "",
        notes: "hippo: trace 2 entry 4: differs\n",
    },
    Case {
        words: &["many", "g", "t1", "t9"],
        files: &[("g", TWO_BRANCHES), ("t1", FIRST)],
        code: 2,
        out: "",
        notes: "hippo: no file: trace 2\n",
    },
];

#[test]
fn second_trace_misfit(rt: HostRuntime) {
    assert_cases(&rt, rt.alloc(), SECOND_MISFITS);
}
