//! Repaired programs, by plans.

use crate::programs::{Place, assert_written, checked, site, sites};
use hip_calls::{callees, fresh_names};
use hip_examples::{
    AMPLE, COPY, COPY_REPAIRED, EVEN_AND_ODD, EVEN_AND_ODD_REPAIRED, REACH, REACH_REPAIRED,
    TWO_LINES, TWO_LINES_REPAIRED,
};
use hip_fix::{CloneOf, Plan, apply, apply_skipping, suits};
use std::alloc::Global;
use std::process::Abort;

/// A plan of these sites.
fn plan(
    rt: &impl Abort,
    alloc: Global,
    flush_after: &[Place],
    fence_after: &[Place],
    hoist: &[Place],
) -> Plan {
    Plan {
        flush_after: sites(rt, alloc, flush_after),
        fence_after: sites(rt, alloc, fence_after),
        hoist: sites(rt, alloc, hoist),
    }
}

/// Asserts that the plan suits, and that the program of the one text, repaired by it, is the other text, with these
/// clones.
fn assert_repaired(
    rt: &impl Abort,
    alloc: Global,
    text: &str,
    plan: &Plan,
    repaired: &str,
    clones: &[CloneOf],
) {
    let checked = checked(rt, alloc, text);
    assert!(rt; suits(&checked, plan));
    let answer = apply(alloc, &checked, plan).expect(rt, AMPLE);
    assert_written(rt, alloc, answer.checked.program(), repaired);
    assert!(rt; answer.clones.as_slice() == clones);
}

const COPY_FLUSHED: &str = "@p = global i64 0, section \".pm\"
declare void @llvm.x86.clwb(ptr)
define void @copy(ptr %dst, ptr %src) {
entry:
  %v = load i64, ptr %src
  store i64 %v, ptr %dst
  call void @llvm.x86.clwb(ptr %dst)
  ret void
}
define i32 @main() {
entry:
  %a = alloca i64
  %b = alloca i64
  store i64 9, ptr %a
  call void @copy(ptr %b, ptr %a)
  call void @copy(ptr @p, ptr %b)
  ret i32 0
}
";

#[test]
fn flush_in_callee(rt: HostRuntime) {
    let plan = plan(&rt, rt.alloc(), &[(0, 0, 1)], &[], &[]);
    assert_repaired(&rt, rt.alloc(), COPY, &plan, COPY_FLUSHED, &[]);
}

#[test]
fn copy_hoisted(rt: HostRuntime) {
    let plan = plan(&rt, rt.alloc(), &[], &[], &[(1, 0, 4)]);
    let clone = CloneOf {
        original: 0,
        copy: 2,
    };
    assert_repaired(&rt, rt.alloc(), COPY, &plan, COPY_REPAIRED, &[clone]);
}

#[test]
fn mutual_recursion(rt: HostRuntime) {
    let plan = plan(&rt, rt.alloc(), &[], &[], &[(2, 0, 2)]);
    let even = CloneOf {
        original: 0,
        copy: 3,
    };
    let odd = CloneOf {
        original: 1,
        copy: 4,
    };
    assert_repaired(
        &rt,
        rt.alloc(),
        EVEN_AND_ODD,
        &plan,
        EVEN_AND_ODD_REPAIRED,
        &[even, odd],
    );
}

const HOISTED_INSIDE: &str = "@p = global i64 0, section \".pm\"
declare void @llvm.x86.clwb(ptr)
declare void @llvm.x86.sse.sfence()
define void @even(ptr %d, i64 %n) {
entry:
  %z = icmp eq i64 %n, 0
  br i1 %z, label %done, label %more
more:
  store i64 %n, ptr %d
  %m = sub i64 %n, 1
  call void @odd.pm(ptr %d, i64 %m)
  call void @llvm.x86.sse.sfence()
  br label %done
done:
  ret void
}
define void @odd(ptr %d, i64 %n) {
entry:
  %z = icmp eq i64 %n, 0
  br i1 %z, label %done, label %more
more:
  store i64 %n, ptr %d
  %m = sub i64 %n, 1
  call void @even(ptr %d, i64 %m)
  br label %done
done:
  ret void
}
define i32 @main() {
entry:
  %t = alloca i64
  call void @even(ptr %t, i64 2)
  call void @even.pm(ptr @p, i64 2)
  call void @llvm.x86.sse.sfence()
  ret i32 0
}
define void @odd.pm(ptr %d, i64 %n) {
entry:
  %z = icmp eq i64 %n, 0
  br i1 %z, label %done, label %more
more:
  store i64 %n, ptr %d
  call void @llvm.x86.clwb(ptr %d)
  %m = sub i64 %n, 1
  call void @even.pm(ptr %d, i64 %m)
  br label %done
done:
  ret void
}
define void @even.pm(ptr %d, i64 %n) {
entry:
  %z = icmp eq i64 %n, 0
  br i1 %z, label %done, label %more
more:
  store i64 %n, ptr %d
  call void @llvm.x86.clwb(ptr %d)
  %m = sub i64 %n, 1
  call void @odd.pm(ptr %d, i64 %m)
  call void @llvm.x86.sse.sfence()
  br label %done
done:
  ret void
}
";

#[test]
fn hoists_inside_clones(rt: HostRuntime) {
    let plan = plan(&rt, rt.alloc(), &[], &[], &[(0, 1, 2), (2, 0, 2)]);
    let odd = CloneOf {
        original: 1,
        copy: 3,
    };
    let even = CloneOf {
        original: 0,
        copy: 4,
    };
    assert_repaired(
        &rt,
        rt.alloc(),
        EVEN_AND_ODD,
        &plan,
        HOISTED_INSIDE,
        &[odd, even],
    );
}

/// An empty list of call sites reaches no functions, and an empty list of functions gets no names.
fn assert_no_names(rt: &impl Abort, alloc: Global) {
    let program = checked(rt, alloc, COPY);
    let reached = callees(alloc, program.program(), &[]).expect(rt, AMPLE);
    assert!(rt; reached.is_empty());
    let names = fresh_names(alloc, program.program(), &[]).expect(rt, AMPLE);
    assert!(rt; names.is_empty());
}

#[test]
fn no_calls_no_clones(rt: HostRuntime) {
    assert_no_names(&rt, rt.alloc());
    let nothing = plan(&rt, rt.alloc(), &[], &[], &[]);
    assert_repaired(&rt, rt.alloc(), COPY, &nothing, COPY, &[]);
}

const NAME_TAKEN: &str = "define void @copy(ptr %d) {
entry:
  store i64 1, ptr %d
  ret void
}
define void @copy.pm(ptr %d, ptr %s) {
entry:
  ret void
}
define i32 @main() {
entry:
  %a = alloca i64
  call void @copy(ptr %a)
  ret i32 0
}
";

const NAME_TAKEN_REPAIRED: &str = "declare void @llvm.x86.clwb(ptr)
declare void @llvm.x86.sse.sfence()
define void @copy(ptr %d) {
entry:
  store i64 1, ptr %d
  ret void
}
define void @copy.pm(ptr %d, ptr %s) {
entry:
  ret void
}
define i32 @main() {
entry:
  %a = alloca i64
  call void @copy.pm1(ptr %a)
  call void @llvm.x86.sse.sfence()
  ret i32 0
}
define void @copy.pm1(ptr %d) {
entry:
  store i64 1, ptr %d
  call void @llvm.x86.clwb(ptr %d)
  ret void
}
";

#[test]
fn clone_name_taken(rt: HostRuntime) {
    let plan = plan(&rt, rt.alloc(), &[], &[], &[(2, 0, 1)]);
    let clone = CloneOf {
        original: 0,
        copy: 3,
    };
    assert_repaired(
        &rt,
        rt.alloc(),
        NAME_TAKEN,
        &plan,
        NAME_TAKEN_REPAIRED,
        &[clone],
    );
}

/// Asserts that the clones of the repair do not flush the store into the block of the stack.
fn assert_skipped(rt: &impl Abort, alloc: Global, plan: &Plan) {
    let program = checked(rt, alloc, REACH);
    let skipped = apply_skipping(alloc, &program, plan, &[site((0, 0, 2))]).expect(rt, AMPLE);
    assert_written(rt, alloc, skipped.checked.program(), REACH_REPAIRED);
}

#[test]
fn alloca_gets_no_flush(rt: HostRuntime) {
    let plan = plan(&rt, rt.alloc(), &[], &[], &[(1, 0, 1)]);
    let clone = CloneOf {
        original: 0,
        copy: 2,
    };
    assert_repaired(&rt, rt.alloc(), REACH, &plan, REACH_REPAIRED, &[clone]);
    assert_skipped(&rt, rt.alloc(), &plan);
}

#[test]
fn store_in_two_lines(rt: HostRuntime) {
    let plan = plan(&rt, rt.alloc(), &[(0, 0, 0)], &[(0, 0, 0)], &[]);
    assert_repaired(&rt, rt.alloc(), TWO_LINES, &plan, TWO_LINES_REPAIRED, &[]);
}
