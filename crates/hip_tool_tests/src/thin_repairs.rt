//! `thin`: clones without the flushes that cannot matter.

use crate::commands::{Case, assert_cases};
use hip_examples::{NOTES, NOTES_THIN, REACH, REACH_REPAIRED};

/// `NOTES` repaired: each clone flushes each store.
const NOTES_REPAIRED: &str = "@p = global i64 0, section \".pm\"
declare void @llvm.x86.clwb(ptr)
declare void @llvm.x86.sse.sfence()
define void @note(ptr %t) {
entry:
  store i64 1, ptr %t
  ret void
}
define void @work(ptr %d, ptr %t) {
entry:
  call void @note(ptr %t)
  store i64 2, ptr %d
  ret void
}
define i32 @main() {
entry:
  %a = alloca i64
  call void @work(ptr %a, ptr %a)
  call void @work.pm(ptr @p, ptr %a)
  call void @llvm.x86.sse.sfence()
  ret i32 0
}
define void @work.pm(ptr %d, ptr %t) {
entry:
  call void @note.pm(ptr %t)
  store i64 2, ptr %d
  call void @llvm.x86.clwb(ptr %d)
  ret void
}
define void @note.pm(ptr %t) {
entry:
  store i64 1, ptr %t
  call void @llvm.x86.clwb(ptr %t)
  ret void
}
";

/// The trace of the run of `NOTES`.
const NOTES_TRACE: &str =
    "START;1000000000|REGISTER;0x100000000;0x40|STORE;0x100000000;0x2;0x8|STOP;0";

const SPARED: &[Case] = &[
    Case {
        words: &["check", "a", "b"],
        files: &[("a", NOTES), ("b", NOTES_TRACE)],
        code: 0,
        out: "report both entry 3 check 4 closed 1 path @work:entry:1 @main:entry:2\n",
        notes: "reports 1\n",
    },
    Case {
        words: &["repair", "a", "b"],
        files: &[("a", NOTES), ("b", NOTES_TRACE)],
        code: 0,
        out: NOTES_REPAIRED,
        notes: "reports 1\nflushes 0\nfences 0\nhoists 1\nclones 2\n",
    },
    Case {
        words: &["thin", "a", "b"],
        files: &[("a", NOTES), ("b", NOTES_TRACE)],
        code: 0,
        out: NOTES_THIN,
        notes: "reports 1\nflushes 0\nfences 0\nhoists 1\nclones 2\nspared 1\n",
    },
];

#[test]
fn spared_flush(rt: HostRuntime) {
    assert_cases(&rt, rt.alloc(), SPARED);
}

const FREE: &[Case] = &[Case {
    words: &["thin", "a", "b"],
    files: &[
        ("a", REACH),
        (
            "b",
            "START;1000000000|REGISTER;0x100000000;0x40|STORE;0x100000000;0x4;0x8|STOP;0",
        ),
    ],
    code: 0,
    out: REACH_REPAIRED,
    notes: "reports 1\nflushes 0\nfences 0\nhoists 1\nclones 1\nspared 0\n",
}];

#[test]
fn register_index_is_free(rt: HostRuntime) {
    assert_cases(&rt, rt.alloc(), FREE);
}
