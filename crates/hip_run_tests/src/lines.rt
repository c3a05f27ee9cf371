//! The cache lines that a machine shows: how many bytes are not durable after each event of a run.

use crate::machines::{checked, input, machine};
use hip_examples::AMPLE;
use hip_lines::LooseByte;
use hip_step::{Event, Machine};
use std::alloc::Global;
use std::process::Abort;

/// How many bytes of the region are not durable after a step, and how many of these are flushed.
type Loose = (usize, usize);

/// A store that lies in two cache lines is durable line by line.
const TORN: &str = "declare void @llvm.x86.clwb(ptr)
declare void @llvm.x86.sse.sfence()
declare void @pmem_flush(ptr, i64)
@a = global [16 x i64] zeroinitializer, section \".pm\"
define i32 @main() {
entry:
  %end = getelementptr i8, ptr @a, i64 60
  store i64 5, ptr %end, align 4
  call void @llvm.x86.clwb(ptr @a)
  call void @llvm.x86.sse.sfence()
  call void @pmem_flush(ptr %end, i64 8)
  call void @llvm.x86.sse.sfence()
  ret i32 0
}
";

/// A persist of a volatile number is a fence, and one of a range flushes all lines of the range.
const PERSISTS: &str = "declare void @llvm.x86.clwb(ptr)
declare void @pmem_persist(ptr, i64)
@v = global i16 258
@a = global [16 x i64] zeroinitializer, section \".pm\"
define i32 @main() {
entry:
  %second = getelementptr i8, ptr @a, i64 64
  store i8 1, ptr @a
  store i8 2, ptr %second
  call void @llvm.x86.clwb(ptr @a)
  call void @pmem_persist(ptr @v, i64 2)
  call void @pmem_persist(ptr @a, i64 65)
  ret i32 0
}
";

/// Stores into volatile memory, and one that is refused for its alignment.
const OUTSIDE: &str = "@v = global i16 258
@a = global [16 x i64] zeroinitializer, section \".pm\"
define i32 @main() {
entry:
  %block = alloca i64
  store i64 9, ptr %block
  store i16 3, ptr @v
  %end = getelementptr i8, ptr @a, i64 60
  store i64 5, ptr %end, align 8
  ret i32 0
}
";

/// How many bytes are not durable now, and how many of these are flushed.
fn loose(rt: &impl Abort, alloc: Global, machine: &Machine<'_>) -> Loose {
    let size = machine.input().image.len() as u64;
    assert!(rt; size == 128);
    let bytes: Vec<LooseByte> = machine
        .lines()
        .not_durable(0, size)
        .collect(alloc)
        .expect(rt, AMPLE);
    let flushed = bytes.iter().filter(|byte| byte.flushed).count();
    (bytes.len(), flushed)
}

/// Takes the steps of a run, and asserts what is not durable after each of them.
fn assert_loose(rt: &impl Abort, alloc: Global, text: &str, steps: &[Loose]) {
    let checked = checked(rt, alloc, text);
    let input = input(rt, alloc, &checked, &[], 100);
    let mut machine = machine(rt, alloc, &checked, &input);
    for (number, step) in steps.iter().enumerate() {
        let _event = machine.step().expect(rt, AMPLE);
        assert!(rt; loose(rt, alloc, &machine) == *step, "step {number}");
    }
    let last = machine.step().expect(rt, AMPLE);
    assert!(rt; matches!(last, Event::End(_)), "the run ends");
}

#[test]
fn store_in_two_lines(rt: HostRuntime) {
    let steps = [(0, 0), (8, 0), (8, 4), (4, 0), (4, 4), (0, 0)];
    assert_loose(&rt, rt.alloc(), TORN, &steps);
}

#[test]
fn persists_of_ranges(rt: HostRuntime) {
    let steps = [(0, 0), (1, 0), (2, 0), (2, 1), (1, 0), (0, 0)];
    assert_loose(&rt, rt.alloc(), PERSISTS, &steps);
}

#[test]
fn stores_outside_the_region(rt: HostRuntime) {
    let steps = [(0, 0), (0, 0), (0, 0), (0, 0), (0, 0)];
    assert_loose(&rt, rt.alloc(), OUTSIDE, &steps);
}
