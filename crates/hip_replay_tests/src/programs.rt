//! Programs whose runs are recorded.

/// A store whose bytes are overwritten by two halves.
pub const OVERWRITTEN_BY_HALVES: &str = "@x = global i64 0, section \".pm\"
define i32 @main() {
entry:
  store i64 5, ptr @x
  store i32 1, ptr @x
  %q = getelementptr i8, ptr @x, i64 4
  store i32 2, ptr %q
  ret i32 0
}
";

/// A store of which half is overwritten.
pub const HALF_OVERWRITTEN: &str = "@x = global i64 0, section \".pm\"
define i32 @main() {
entry:
  store i64 5, ptr @x
  store i32 1, ptr @x
  ret i32 -1
}
";

/// One call is made twice: its first frame has returned when the second one asserts.
pub const CALLED_AGAIN: &str = "@p = global i64 0, section \".pm\"
declare void @pm_assert(ptr, i64)
define void @visit(i64 %n) {
entry:
  %z = icmp eq i64 %n, 0
  br i1 %z, label %first, label %second
first:
  store i64 7, ptr @p
  ret void
second:
  call void @pm_assert(ptr @p, i64 8)
  ret void
}
define i32 @main() {
entry:
  br label %loop
loop:
  %i = phi i64 [ 0, %entry ], [ %j, %loop ]
  call void @visit(i64 %i)
  %j = add i64 %i, 1
  %c = icmp ult i64 %j, 2
  br i1 %c, label %loop, label %done
done:
  ret i32 0
}
";

/// A recursion whose last frame asserts, while all frames that stored are still on the stack.
pub const ASSERT_UNDER_RECURSION: &str = "@p = global i64 0, section \".pm\"
declare void @pm_assert(ptr, i64)
define void @descend(i64 %n) {
entry:
  %z = icmp eq i64 %n, 0
  br i1 %z, label %last, label %more
more:
  store i64 %n, ptr @p
  %m = sub i64 %n, 1
  call void @descend(i64 %m)
  ret void
last:
  call void @pm_assert(ptr @p, i64 8)
  ret void
}
define i32 @main() {
entry:
  call void @descend(i64 2)
  ret i32 0
}
";

/// Ranges at the region's start and end, and one past its end.
pub const ASSERTED_RANGES: &str = "@p = global i64 0, section \".pm\"
declare void @pm_assert(ptr, i64)
define i32 @main() {
entry:
  %q = getelementptr i8, ptr @p, i64 63
  call void @pm_assert(ptr @p, i64 0)
  call void @pm_assert(ptr %q, i64 1)
  call void @pm_assert(ptr %q, i64 2)
  ret i32 0
}
";

/// Two numbers are read.
pub const TWO_NUMBERS: &str = "declare i64 @read_i64()
define i32 @main() {
entry:
  %a = call i64 @read_i64()
  %b = call i64 @read_i64()
  ret i32 0
}
";

/// Flushes of no byte, of bytes in two lines, and of bytes past the region's end.
pub const FLUSHED_RANGES: &str = "@a = global [16 x i64] zeroinitializer, section \".pm\"
declare void @pmem_flush(ptr, i64)
define i32 @main() {
entry:
  %q = getelementptr i8, ptr @a, i64 56
  call void @pmem_flush(ptr @a, i64 0)
  call void @pmem_flush(ptr %q, i64 16)
  call void @pmem_flush(ptr @a, i64 129)
  ret i32 0
}
";

/// A store in two cache lines, at an alignment of 8.
pub const MISALIGNED: &str = "@a = global [16 x i64] zeroinitializer, section \".pm\"
define i32 @main() {
entry:
  store i64 5, ptr getelementptr ([128 x i8], ptr @a, i64 0, i64 60)
  ret i32 0
}
";
