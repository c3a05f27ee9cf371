//! Long runs, of which little is kept.

use crate::runs::{checked, in_chunks, input, record, replayed};
use hip_examples::{AMPLE, DURABLE_STORES};
use hip_io::MemSink;
use hip_sound::Checked;
use std::alloc::Global;
use std::process::Abort;

/// A million stores under 4,001 calls, and then a flush of each line and a fence.
const DEEP_STORES: &str = "@a = global [1000000 x i64] zeroinitializer, section \".pm\"
declare void @llvm.x86.clwb(ptr)
declare void @llvm.x86.sse.sfence()
define void @down(i64 %n) {
entry:
  %z = icmp eq i64 %n, 0
  br i1 %z, label %stores, label %more
more:
  %m = sub i64 %n, 1
  call void @down(i64 %m)
  ret void
stores:
  %i = phi i64 [ 0, %entry ], [ %j, %stores ]
  %p = getelementptr [1000000 x i64], ptr @a, i64 0, i64 %i
  store i64 %i, ptr %p
  %j = add i64 %i, 1
  %c = icmp ult i64 %j, 1000000
  br i1 %c, label %stores, label %flushes
flushes:
  %k = phi i64 [ 0, %stores ], [ %l, %flushes ]
  %q = getelementptr [1000000 x i64], ptr @a, i64 0, i64 %k
  call void @llvm.x86.clwb(ptr %q)
  %l = add i64 %k, 8
  %d = icmp ult i64 %l, 1000000
  br i1 %d, label %flushes, label %done
done:
  call void @llvm.x86.sse.sfence()
  ret void
}
define i32 @main() {
entry:
  call void @down(i64 4000)
  ret i32 0
}
";

/// How many entries and reports a recorded run has, and how many globals were stored to.
#[derive(Clone, Copy, PartialEq)]
struct Counts {
    entries: u128,
    reports: usize,
    hit: usize,
}

/// Records the run of a program.
fn counts_of(rt: &impl Abort, alloc: Global, checked: &Checked, out: &mut MemSink) -> Counts {
    let input = input(rt, alloc, checked, &[], 1_000_000_000);
    let recorded = record(rt, alloc, checked, &input, out);
    Counts {
        entries: recorded.entries,
        reports: recorded.findings.reports().len(),
        hit: recorded.findings.marks().hit.len(),
    }
}

/// Asserts how many entries a trace has that is replayed.
fn assert_replayed(rt: &impl Abort, alloc: Global, checked: &Checked, trace: &[u8], entries: u128) {
    let mut cabinet = in_chunks(rt, alloc, trace, 4_096);
    let found = replayed(alloc, checked, &mut cabinet).expect(rt, "the trace fits");
    assert!(rt; found.entries == entries);
}

const OF_DURABLE_STORES: Counts = Counts {
    entries: 300_003,
    reports: 0,
    hit: 1,
};

#[test]
fn many_fences(rt: HostRuntime) {
    let checked = checked(&rt, rt.alloc(), DURABLE_STORES);
    let mut out = MemSink::new(rt.alloc(), 10_000_000).expect(&rt, AMPLE);
    assert!(rt; counts_of(&rt, rt.alloc(), &checked, &mut out) == OF_DURABLE_STORES);
    assert_replayed(
        &rt,
        rt.alloc(),
        &checked,
        out.bytes(),
        OF_DURABLE_STORES.entries,
    );
}

const OF_DEEP_STORES: Counts = Counts {
    entries: 1_125_004,
    reports: 0,
    hit: 1,
};

#[test]
fn deep_shared_paths(rt: HostRuntime) {
    let checked = checked(&rt, rt.alloc(), DEEP_STORES);
    let mut out = MemSink::new(rt.alloc(), 50_000_000).expect(&rt, AMPLE);
    assert!(rt; counts_of(&rt, rt.alloc(), &checked, &mut out) == OF_DEEP_STORES);
}
