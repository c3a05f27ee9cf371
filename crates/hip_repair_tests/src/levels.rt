//! Which stores are never in the region, by the levels of their addresses.

use crate::programs::{Place, checked, sites};
use hip_examples::{AMPLE, COPY, REACH};
use hip_vol::quiet_stores;
use std::alloc::Global;
use std::process::Abort;

/// Asserts which stores of the program of a text are never in the region.
fn assert_quiet(rt: &impl Abort, alloc: Global, text: &str, expected: &[Place]) {
    let checked = checked(rt, alloc, text);
    let quiet = quiet_stores(alloc, &checked).expect(rt, AMPLE);
    assert_eq!(rt; quiet, sites(rt, alloc, expected));
}

/// Rows of the table: what has level 0, what is free, offsets, and the greatest of two.
const ROWS: &str = "@p = global [2 x i64] zeroinitializer, section \".pm\"
@v = global [2 x i64] zeroinitializer
define i32 @main() {
entry:
  %a = alloca ptr
  %b = alloca [67108863 x i8]
  store i64 1, ptr %a
  store i64 1, ptr @v
  store i64 1, ptr getelementptr ([2 x i64], ptr @v, i64 0, i64 1)
  store i64 1, ptr @p
  store i64 1, ptr getelementptr ([2 x i64], ptr @p, i64 0, i64 1)
  %l = load ptr, ptr %a
  store i64 1, ptr %l
  %i = ptrtoint ptr %a to i64
  %t = inttoptr i64 %i to ptr
  store i64 1, ptr %t
  %e = getelementptr i8, ptr %b, i64 67108863
  store i8 1, ptr %e
  %f = getelementptr i8, ptr %b, i64 67108864
  store i8 1, ptr %f
  %g = getelementptr i8, ptr %b, i64 -1
  store i8 1, ptr %g
  %z = getelementptr [67108863 x i8], ptr %b, i64 0, i64 zeroinitializer
  store i8 1, ptr %z
  %r = getelementptr {}, ptr %b, i64 %i
  store i8 1, ptr %r
  %s = select i1 true, ptr %a, ptr @v
  store i64 1, ptr %s
  %u = select i1 true, ptr %a, ptr @p
  store i64 1, ptr %u
  ret i32 0
}
";

#[test]
fn rows_of_the_table(rt: HostRuntime) {
    let quiet = [
        (0, 0, 2),
        (0, 0, 3),
        (0, 0, 4),
        (0, 0, 13),
        (0, 0, 19),
        (0, 0, 23),
    ];
    assert_quiet(&rt, rt.alloc(), ROWS, &quiet);
}

/// A pointer that is stepped in a loop depends on its own level; one that is only passed around keeps its level.
const LOOP: &str = "define i32 @main() {
entry:
  %a = alloca [9 x i8]
  br label %more
more:
  %p = phi ptr [ %a, %entry ], [ %q, %more ]
  %k = phi ptr [ %a, %entry ], [ %k, %more ]
  %n = phi i64 [ 0, %entry ], [ %m, %more ]
  store i8 1, ptr %p
  store i8 1, ptr %k
  %q = getelementptr i8, ptr %p, i64 1
  store i8 1, ptr %q
  %m = add i64 %n, 1
  %c = icmp ult i64 %m, 8
  br i1 %c, label %more, label %done
done:
  ret i32 0
}
";

#[test]
fn stepped_in_a_loop(rt: HostRuntime) {
    assert_quiet(&rt, rt.alloc(), LOOP, &[(0, 1, 1)]);
}

/// Recursion through a result: one function steps the pointer that it returns, the other returns it as it is. A call
/// that no path reaches makes a parameter free, and a function without calls or returns has level 0 throughout.
const CALLS: &str = "@p = global i64 0, section \".pm\"
define ptr @step(ptr %s, i64 %n) {
entry:
  %z = icmp eq i64 %n, 0
  br i1 %z, label %done, label %more
more:
  %m = sub i64 %n, 1
  %r = call ptr @step(ptr %s, i64 %m)
  %q = getelementptr i8, ptr %r, i64 1
  ret ptr %q
done:
  ret ptr %s
}
define ptr @same(ptr %s, i64 %n) {
entry:
  %z = icmp eq i64 %n, 0
  br i1 %z, label %done, label %more
more:
  %m = sub i64 %n, 1
  %r = call ptr @same(ptr %s, i64 %m)
  ret ptr %r
done:
  ret ptr %s
}
define void @given(ptr %g) {
entry:
  store i64 1, ptr %g
  ret void
}
define ptr @alone(ptr %s) {
entry:
  store i64 1, ptr %s
  unreachable
}
define i32 @main() {
entry:
  %a = alloca i64
  %x = call ptr @step(ptr %a, i64 3)
  store i8 1, ptr %x
  %y = call ptr @same(ptr %a, i64 3)
  store i8 1, ptr %y
  call void @given(ptr %a)
  ret i32 0
never:
  call void @given(ptr @p)
  %w = call ptr @alone(ptr %a)
  store i8 1, ptr %w
  ret i32 0
}
";

#[test]
fn levels_through_calls(rt: HostRuntime) {
    let quiet = [(3, 0, 0), (4, 0, 4), (4, 1, 2)];
    assert_quiet(&rt, rt.alloc(), CALLS, &quiet);
}

#[test]
fn register_index_is_free(rt: HostRuntime) {
    assert_quiet(&rt, rt.alloc(), REACH, &[(0, 0, 2)]);
}

#[test]
fn argument_in_the_region_is_free(rt: HostRuntime) {
    assert_quiet(&rt, rt.alloc(), COPY, &[(1, 0, 2)]);
}
