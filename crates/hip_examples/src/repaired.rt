//! Repaired programs, each in its canonical form.

/// `ONE_STORE` repaired.
pub const ONE_STORE_REPAIRED: &str = "@x = global i64 0, section \".pm\"
declare void @llvm.x86.clwb(ptr)
declare void @llvm.x86.sse.sfence()
define i32 @main() {
entry:
  store i64 5, ptr @x
  call void @llvm.x86.clwb(ptr @x)
  call void @llvm.x86.sse.sfence()
  ret i32 0
}
";

/// `TWO_LINES` repaired: both lines are flushed by one call.
pub const TWO_LINES_REPAIRED: &str = "@a = global [16 x i64] zeroinitializer, section \".pm\"
declare void @llvm.x86.sse.sfence()
declare void @pmem_flush(ptr, i64)
define i32 @main() {
entry:
  store i64 5, ptr getelementptr ([128 x i8], ptr @a, i64 0, i64 60), align 4
  call void @pmem_flush(ptr getelementptr ([128 x i8], ptr @a, i64 0, i64 60), i64 8)
  call void @llvm.x86.sse.sfence()
  ret i32 0
}
";

/// `COPY` repaired: the second call copies by the clone.
pub const COPY_REPAIRED: &str = "@p = global i64 0, section \".pm\"
declare void @llvm.x86.clwb(ptr)
declare void @llvm.x86.sse.sfence()
define void @copy(ptr %dst, ptr %src) {
entry:
  %v = load i64, ptr %src
  store i64 %v, ptr %dst
  ret void
}
define i32 @main() {
entry:
  %a = alloca i64
  %b = alloca i64
  store i64 9, ptr %a
  call void @copy(ptr %b, ptr %a)
  call void @copy.pm(ptr @p, ptr %b)
  call void @llvm.x86.sse.sfence()
  ret i32 0
}
define void @copy.pm(ptr %dst, ptr %src) {
entry:
  %v = load i64, ptr %src
  store i64 %v, ptr %dst
  call void @llvm.x86.clwb(ptr %dst)
  ret void
}
";

/// `NOTES` repaired without the flush in the clone that never stores into the region.
pub const NOTES_THIN: &str = "@p = global i64 0, section \".pm\"
declare void @llvm.x86.clwb(ptr)
declare void @llvm.x86.sse.sfence()
define void @note(ptr %t) {
entry:
  store i64 1, ptr %t
  ret void
}
define void @work(ptr %d, ptr %t) {
entry:
  call void @note(ptr %t)
  store i64 2, ptr %d
  ret void
}
define i32 @main() {
entry:
  %a = alloca i64
  call void @work(ptr %a, ptr %a)
  call void @work.pm(ptr @p, ptr %a)
  call void @llvm.x86.sse.sfence()
  ret i32 0
}
define void @work.pm(ptr %d, ptr %t) {
entry:
  call void @note.pm(ptr %t)
  store i64 2, ptr %d
  call void @llvm.x86.clwb(ptr %d)
  ret void
}
define void @note.pm(ptr %t) {
entry:
  store i64 1, ptr %t
  ret void
}
";

/// `EVEN_AND_ODD` repaired: the clones call each other.
pub const EVEN_AND_ODD_REPAIRED: &str = "@p = global i64 0, section \".pm\"
declare void @llvm.x86.clwb(ptr)
declare void @llvm.x86.sse.sfence()
define void @even(ptr %d, i64 %n) {
entry:
  %z = icmp eq i64 %n, 0
  br i1 %z, label %done, label %more
more:
  store i64 %n, ptr %d
  %m = sub i64 %n, 1
  call void @odd(ptr %d, i64 %m)
  br label %done
done:
  ret void
}
define void @odd(ptr %d, i64 %n) {
entry:
  %z = icmp eq i64 %n, 0
  br i1 %z, label %done, label %more
more:
  store i64 %n, ptr %d
  %m = sub i64 %n, 1
  call void @even(ptr %d, i64 %m)
  br label %done
done:
  ret void
}
define i32 @main() {
entry:
  %t = alloca i64
  call void @even(ptr %t, i64 2)
  call void @even.pm(ptr @p, i64 2)
  call void @llvm.x86.sse.sfence()
  ret i32 0
}
define void @even.pm(ptr %d, i64 %n) {
entry:
  %z = icmp eq i64 %n, 0
  br i1 %z, label %done, label %more
more:
  store i64 %n, ptr %d
  call void @llvm.x86.clwb(ptr %d)
  %m = sub i64 %n, 1
  call void @odd.pm(ptr %d, i64 %m)
  br label %done
done:
  ret void
}
define void @odd.pm(ptr %d, i64 %n) {
entry:
  %z = icmp eq i64 %n, 0
  br i1 %z, label %done, label %more
more:
  store i64 %n, ptr %d
  call void @llvm.x86.clwb(ptr %d)
  %m = sub i64 %n, 1
  call void @even.pm(ptr %d, i64 %m)
  br label %done
done:
  ret void
}
";

/// `REACH` repaired: the store to the `alloca` itself gets no flush.
pub const REACH_REPAIRED: &str = "@p = global i64 0, section \".pm\"
@v = global i64 0
declare void @llvm.x86.clwb(ptr)
declare void @llvm.x86.sse.sfence()
define void @reach(ptr %d, i64 %o) {
entry:
  %a = alloca i64
  %q = getelementptr i8, ptr %a, i64 %o
  store i64 3, ptr %a
  store i64 4, ptr %q
  ret void
}
define i32 @main() {
entry:
  call void @reach(ptr @v, i64 0)
  call void @reach.pm(ptr @p, i64 4026531840)
  call void @llvm.x86.sse.sfence()
  ret i32 0
}
define void @reach.pm(ptr %d, i64 %o) {
entry:
  %a = alloca i64
  %q = getelementptr i8, ptr %a, i64 %o
  store i64 3, ptr %a
  store i64 4, ptr %q
  call void @llvm.x86.clwb(ptr %q)
  ret void
}
";
