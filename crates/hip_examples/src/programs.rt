//! Programs, each in its canonical form.

/// One store of a persistent number, which is not flushed.
pub const ONE_STORE: &str = "@x = global i64 0, section \".pm\"
define i32 @main() {
entry:
  store i64 5, ptr @x
  ret i32 0
}
";

/// One function that copies, called once over the stack and once into persistent memory.
pub const COPY: &str = "@p = global i64 0, section \".pm\"
define void @copy(ptr %dst, ptr %src) {
entry:
  %v = load i64, ptr %src
  store i64 %v, ptr %dst
  ret void
}
define i32 @main() {
entry:
  %a = alloca i64
  %b = alloca i64
  store i64 9, ptr %a
  call void @copy(ptr %b, ptr %a)
  call void @copy(ptr @p, ptr %b)
  ret i32 0
}
";

/// A function that copies, and itself asserts what it copied.
pub const ASSERT_INSIDE_CALLEE: &str = "@p = global i64 0, section \".pm\"
@q = global i64 9
declare void @pm_assert(ptr, i64)
define void @copy(ptr %dst, ptr %src) {
entry:
  %v = load i64, ptr %src
  store i64 %v, ptr %dst
  call void @pm_assert(ptr %dst, i64 8)
  ret void
}
define i32 @main() {
entry:
  call void @copy(ptr @p, ptr @q)
  ret i32 0
}
";

/// A function that stores through each of its parameters: through one of them by a call of a function that never stores
/// into the region.
pub const NOTES: &str = "@p = global i64 0, section \".pm\"
define void @note(ptr %t) {
entry:
  store i64 1, ptr %t
  ret void
}
define void @work(ptr %d, ptr %t) {
entry:
  call void @note(ptr %t)
  store i64 2, ptr %d
  ret void
}
define i32 @main() {
entry:
  %a = alloca i64
  call void @work(ptr %a, ptr %a)
  call void @work(ptr @p, ptr %a)
  ret i32 0
}
";

/// Two functions that call each other.
pub const EVEN_AND_ODD: &str = "@p = global i64 0, section \".pm\"
define void @even(ptr %d, i64 %n) {
entry:
  %z = icmp eq i64 %n, 0
  br i1 %z, label %done, label %more
more:
  store i64 %n, ptr %d
  %m = sub i64 %n, 1
  call void @odd(ptr %d, i64 %m)
  br label %done
done:
  ret void
}
define void @odd(ptr %d, i64 %n) {
entry:
  %z = icmp eq i64 %n, 0
  br i1 %z, label %done, label %more
more:
  store i64 %n, ptr %d
  %m = sub i64 %n, 1
  call void @even(ptr %d, i64 %m)
  br label %done
done:
  ret void
}
define i32 @main() {
entry:
  %t = alloca i64
  call void @even(ptr %t, i64 2)
  call void @even(ptr @p, i64 2)
  ret i32 0
}
";

/// A function that reaches persistent memory by an offset from its own stack block.
pub const REACH: &str = "@p = global i64 0, section \".pm\"
@v = global i64 0
define void @reach(ptr %d, i64 %o) {
entry:
  %a = alloca i64
  %q = getelementptr i8, ptr %a, i64 %o
  store i64 3, ptr %a
  store i64 4, ptr %q
  ret void
}
define i32 @main() {
entry:
  call void @reach(ptr @v, i64 0)
  call void @reach(ptr @p, i64 4026531840)
  ret i32 0
}
";

/// A loop without end, which stores and asserts.
pub const ENDLESS_LOOP: &str = "@x = global i64 0, section \".pm\"
declare void @pm_assert(ptr, i64)
define i32 @main() {
entry:
  br label %loop
loop:
  store i64 7, ptr @x
  call void @pm_assert(ptr @x, i64 8)
  br label %loop
}
";

/// A program that reads two numbers and prints their sum.
pub const SUM_OF_NUMBERS: &str = "declare i64 @read_i64()
declare void @print_i64(i64)
define i32 @main() {
entry:
  %a = call i64 @read_i64()
  %b = call i64 @read_i64()
  %c = add i64 %a, %b
  call void @print_i64(i64 %c)
  ret i32 0
}
";

/// A log of keys and values with an allocator of its slots.
pub const KEY_VALUE_LOG: &str = "@head = global i64 0, section \".pm\", align 64
@log = global [40 x { i64, i64 }] zeroinitializer, section \".pm\", align 64
@count = global i64 0, section \".pm\", align 64
declare void @llvm.x86.clwb(ptr)
declare void @llvm.x86.sse.sfence()
declare void @print_i64(i64)
define ptr @take_slot() {
entry:
  %h = load i64, ptr @head
  %n = add i64 %h, 1
  store i64 %n, ptr @head
  call void @llvm.x86.clwb(ptr @head)
  %s = getelementptr [40 x { i64, i64 }], ptr @log, i64 0, i64 %h
  ret ptr %s
}
define void @fill(ptr %s, i64 %k, i64 %v) {
entry:
  %a = getelementptr { i64, i64 }, ptr %s, i64 0, i32 0
  store i64 %k, ptr %a
  %b = getelementptr { i64, i64 }, ptr %s, i64 0, i32 1
  store i64 %v, ptr %b
  ret void
}
define i32 @main() {
entry:
  %tmp = alloca { i64, i64 }
  br label %loop
loop:
  %i = phi i64 [ 0, %entry ], [ %j, %loop ]
  %sq = mul i64 %i, %i
  call void @fill(ptr %tmp, i64 %i, i64 %sq)
  %j = add i64 %i, 1
  store i64 %j, ptr @count
  call void @llvm.x86.sse.sfence()
  %s = call ptr @take_slot()
  call void @fill(ptr %s, i64 %i, i64 %sq)
  %c = icmp ult i64 %j, 40
  br i1 %c, label %loop, label %done
done:
  %z = load i64, ptr @count
  call void @print_i64(i64 %z)
  ret i32 0
}
";

/// A program that stores a number 100,000 times, and flushes and fences each store.
pub const DURABLE_STORES: &str = "@x = global i64 0, section \".pm\"
declare void @llvm.x86.clwb(ptr)
declare void @llvm.x86.sse.sfence()
define i32 @main() {
entry:
  br label %turn
turn:
  %i = phi i64 [ 0, %entry ], [ %next, %turn ]
  store i64 %i, ptr @x
  call void @llvm.x86.clwb(ptr @x)
  call void @llvm.x86.sse.sfence()
  %next = add i64 %i, 1
  %more = icmp ult i64 %next, 100000
  br i1 %more, label %turn, label %done
done:
  ret i32 0
}
";
