//! Programs of one function with few stores, flushes and fences, each in its canonical form.

/// A store with a fence after it.
pub const FENCE_WITHOUT_FLUSH: &str = "@x = global i64 0, section \".pm\"
declare void @llvm.x86.sse.sfence()
define i32 @main() {
entry:
  store i64 5, ptr @x
  call void @llvm.x86.sse.sfence()
  ret i32 0
}
";

/// A store with a flush after it.
pub const FLUSH_WITHOUT_FENCE: &str = "@x = global i64 0, section \".pm\"
declare void @llvm.x86.clwb(ptr)
define i32 @main() {
entry:
  store i64 5, ptr @x
  call void @llvm.x86.clwb(ptr @x)
  ret i32 0
}
";

/// A store whose bytes are all overwritten by the next.
pub const OVERWRITTEN: &str = "@x = global i64 0, section \".pm\"
define i32 @main() {
entry:
  store i64 5, ptr @x
  store i64 6, ptr @x
  ret i32 0
}
";

/// Two stores in one cache line, which one flush covers.
pub const SHARED_LINE: &str = "@x = global i64 0, section \".pm\"
@y = global i64 0, section \".pm\"
declare void @llvm.x86.clwb(ptr)
declare void @llvm.x86.sse.sfence()
define i32 @main() {
entry:
  store i64 5, ptr @x
  store i64 6, ptr @y
  call void @llvm.x86.clwb(ptr @y)
  call void @llvm.x86.sse.sfence()
  ret i32 0
}
";

/// A store that one call flushes and fences.
pub const PERSIST: &str = "@x = global i64 0, section \".pm\"
declare void @pmem_persist(ptr, i64)
define i32 @main() {
entry:
  store i64 5, ptr @x
  call void @pmem_persist(ptr @x, i64 8)
  ret i32 0
}
";

/// A store with a flush of a range.
pub const FLUSH_OF_A_RANGE: &str = "@x = global i64 0, section \".pm\"
declare void @pmem_flush(ptr, i64)
define i32 @main() {
entry:
  store i64 5, ptr @x
  call void @pmem_flush(ptr @x, i64 8)
  ret i32 0
}
";

/// A store in two cache lines.
pub const TWO_LINES: &str = "@a = global [16 x i64] zeroinitializer, section \".pm\"
define i32 @main() {
entry:
  store i64 5, ptr getelementptr ([128 x i8], ptr @a, i64 0, i64 60), align 4
  ret i32 0
}
";

/// A store in two cache lines, of which one is made durable.
pub const ONE_OF_TWO_LINES: &str = "@a = global [16 x i64] zeroinitializer, section \".pm\"
declare void @llvm.x86.clwb(ptr)
declare void @llvm.x86.sse.sfence()
define i32 @main() {
entry:
  store i64 5, ptr getelementptr ([128 x i8], ptr @a, i64 0, i64 60), align 4
  call void @llvm.x86.clwb(ptr @a)
  call void @llvm.x86.sse.sfence()
  ret i32 0
}
";

/// A store in two cache lines, both of which are flushed but not fenced.
pub const BOTH_LINES_FLUSHED: &str = "@a = global [16 x i64] zeroinitializer, section \".pm\"
declare void @llvm.x86.clwb(ptr)
define i32 @main() {
entry:
  store i64 5, ptr getelementptr ([128 x i8], ptr @a, i64 0, i64 60), align 4
  call void @llvm.x86.clwb(ptr @a)
  call void @llvm.x86.clwb(ptr getelementptr ([128 x i8], ptr @a, i64 0, i64 64))
  ret i32 0
}
";

/// A trap after a store.
pub const DIVIDE_BY_ZERO: &str = "@x = global i64 0, section \".pm\"
define i32 @main() {
entry:
  store i64 5, ptr @x
  %d = udiv i64 1, 0
  ret i32 0
}
";

/// A persistent number that is not 0.
pub const SEVEN: &str = "@x = global i64 7, section \".pm\"
define i32 @main() {
entry:
  ret i32 0
}
";
