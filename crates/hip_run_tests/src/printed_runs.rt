//! What programs print, and how their runs end.

use crate::machines::{checked, input};
use hip_examples::{AMPLE, SUM_OF_NUMBERS};
use hip_io::MemSink;
use hip_replay::print_run;
use hip_sound::Checked;
use hip_step::{Ending, Input, TrapKind, why_not};
use std::alloc::Global;
use std::process::Abort;

/// A program with its input, what it prints, and how its run ends.
pub struct Run {
    pub name: &'static str,
    pub program: &'static str,
    pub numbers: &'static [i64],
    pub limit: u64,
    pub printed: &'static str,
    pub ending: Ending,
}

/// Asserts what a program prints and how its run ends.
fn assert_prints(rt: &impl Abort, alloc: Global, checked: &Checked, input: &Input, run: &Run) {
    assert!(rt; why_not(checked, input).is_none(), "{}", run.name);
    let mut out = MemSink::new(alloc, 1_000).expect(rt, AMPLE);
    let ending = print_run(alloc, checked, input, &mut out);
    assert!(rt; ending == Ok(run.ending), "{}", run.name);
    assert!(rt; out.bytes() == run.printed.as_bytes(), "{}", run.name);
}

fn assert_run(rt: &impl Abort, alloc: Global, run: &Run) {
    let checked = checked(rt, alloc, run.program);
    let input = input(rt, alloc, &checked, run.numbers, run.limit);
    assert_prints(rt, alloc, &checked, &input, run);
}

/// Asserts what each program prints and how its run ends.
pub fn assert_runs(rt: &impl Abort, alloc: Global, runs: &[Run]) {
    for run in runs {
        assert_run(rt, alloc, run);
    }
}

const ENDLESS_RECURSION: &str = "define void @f() {
entry:
  call void @f()
  ret void
}
define i32 @main() {
entry:
  call void @f()
  ret i32 0
}
";

const RUNS: &[Run] = &[
    Run {
        name: "a negative sum",
        program: SUM_OF_NUMBERS,
        numbers: &[-5, 3],
        limit: 100,
        printed: "-2\n",
        ending: Ending::Stop(0),
    },
    Run {
        name: "a sum that wraps",
        program: SUM_OF_NUMBERS,
        numbers: &[9_223_372_036_854_775_807, 1],
        limit: 100,
        printed: "-9223372036854775808\n",
        ending: Ending::Stop(0),
    },
    Run {
        name: "a number that is missing",
        program: SUM_OF_NUMBERS,
        numbers: &[7],
        limit: 100,
        printed: "",
        ending: Ending::Trap(TrapKind::InputEnd),
    },
    Run {
        name: "a limit that is reached",
        program: SUM_OF_NUMBERS,
        numbers: &[1, 2],
        limit: 4,
        printed: "3\n",
        ending: Ending::Cut,
    },
    Run {
        name: "the deepest recursion",
        program: ENDLESS_RECURSION,
        numbers: &[],
        limit: 16_384,
        printed: "",
        ending: Ending::Trap(TrapKind::Depth),
    },
    Run {
        name: "a recursion that is cut",
        program: ENDLESS_RECURSION,
        numbers: &[],
        limit: 16_383,
        printed: "",
        ending: Ending::Cut,
    },
    Run {
        name: "phis that take each other's values",
        program: "declare void @print_i64(i64)
define i32 @main() {
entry:
  br label %loop
loop:
  %a = phi i64 [ 1, %entry ], [ %b, %loop ]
  %b = phi i64 [ 2, %entry ], [ %a, %loop ]
  %n = phi i64 [ 1, %entry ], [ %m, %loop ]
  call void @print_i64(i64 %a)
  %m = add i64 %n, 1
  %c = icmp ule i64 %m, 3
  br i1 %c, label %loop, label %done
done:
  ret i32 0
}
",
        numbers: &[],
        limit: 100,
        printed: "1\n2\n1\n",
        ending: Ending::Stop(0),
    },
    Run {
        name: "two phis alone that take each other's values",
        program: "declare void @print_i64(i64)
define i32 @main() {
entry:
  br label %loop
loop:
  %a = phi i64 [ 1, %entry ], [ %b, %loop ]
  %b = phi i64 [ 2, %entry ], [ %a, %loop ]
  call void @print_i64(i64 %a)
  call void @print_i64(i64 %b)
  %c = icmp eq i64 %a, 2
  br i1 %c, label %done, label %loop
done:
  ret i32 0
}
",
        numbers: &[],
        limit: 100,
        printed: "1\n2\n2\n1\n",
        ending: Ending::Stop(0),
    },
    Run {
        name: "a stack that is full",
        program: "define i32 @main() {
entry:
  %a = alloca [16777216 x i8]
  %b = alloca i8
  ret i32 0
}
",
        numbers: &[],
        limit: 100,
        printed: "",
        ending: Ending::Trap(TrapKind::Stack),
    },
    Run {
        name: "a block of no bytes on a full stack",
        program: "define i32 @main() {
entry:
  %a = alloca [16777216 x i8]
  %b = alloca {}
  ret i32 3
}
",
        numbers: &[],
        limit: 100,
        printed: "",
        ending: Ending::Stop(3),
    },
    Run {
        name: "a return that takes its blocks away",
        program: "define void @f() {
entry:
  %a = alloca [16777216 x i8]
  ret void
}
define i32 @main() {
entry:
  call void @f()
  call void @f()
  ret i32 0
}
",
        numbers: &[],
        limit: 100,
        printed: "",
        ending: Ending::Stop(0),
    },
    Run {
        name: "a division by 0",
        program: "@x = global i64 0, section \".pm\"
define i32 @main() {
entry:
  store i64 5, ptr @x
  %d = udiv i64 1, 0
  ret i32 0
}
",
        numbers: &[],
        limit: 100,
        printed: "",
        ending: Ending::Trap(TrapKind::DivZero),
    },
    Run {
        name: "a quotient that does not fit",
        program: "define i32 @main() {
entry:
  %d = sdiv i8 -128, -1
  ret i32 0
}
",
        numbers: &[],
        limit: 100,
        printed: "",
        ending: Ending::Trap(TrapKind::DivOverflow),
    },
    Run {
        name: "a shift by all bits",
        program: "define i32 @main() {
entry:
  %d = shl i16 1, 16
  ret i32 0
}
",
        numbers: &[],
        limit: 100,
        printed: "",
        ending: Ending::Trap(TrapKind::ShiftRange),
    },
    Run {
        name: "an address outside",
        program: "define i32 @main() {
entry:
  store i8 1, ptr null
  ret i32 0
}
",
        numbers: &[],
        limit: 100,
        printed: "",
        ending: Ending::Trap(TrapKind::Address),
    },
    Run {
        name: "an unreachable that is reached",
        program: "define i32 @main() {
entry:
  unreachable
}
",
        numbers: &[],
        limit: 100,
        printed: "",
        ending: Ending::Trap(TrapKind::Unreachable),
    },
    Run {
        name: "an i1 in memory, and a switch on it",
        program: "@b = global i1 false
@n = global i64 0
declare void @print_i64(i64)
define i32 @main() {
entry:
  store i8 3, ptr @b
  %b = load i1, ptr @b
  switch i1 %b, label %no [ i1 true, label %yes ]
yes:
  %w = zext i1 %b to i64
  call void @print_i64(i64 %w)
  %s = sext i1 %b to i64
  call void @print_i64(i64 %s)
  ret i32 1
no:
  ret i32 0
}
",
        numbers: &[],
        limit: 100,
        printed: "1\n-1\n",
        ending: Ending::Stop(1),
    },
    Run {
        name: "indices with a sign, of several widths",
        program: "@a = global [4 x i64] [i64 10, i64 20, i64 30, i64 40]
declare void @print_i64(i64)
define i32 @main() {
entry:
  %end = getelementptr [4 x i64], ptr @a, i64 0, i64 3
  %i = sub i8 0, 1
  %p = getelementptr i64, ptr %end, i8 %i
  %x = load i64, ptr %p
  call void @print_i64(i64 %x)
  %j = sub i32 0, 3
  %q = getelementptr i64, ptr %end, i32 %j
  %y = load i64, ptr %q
  call void @print_i64(i64 %y)
  ret i32 0
}
",
        numbers: &[],
        limit: 100,
        printed: "30\n10\n",
        ending: Ending::Stop(0),
    },
    Run {
        name: "main called by another function",
        program: "@n = global i64 0
declare void @print_i64(i64)
define i64 @again() {
entry:
  %r = call i32 @main()
  %w = sext i32 %r to i64
  ret i64 %w
}
define i32 @main() {
entry:
  %n = load i64, ptr @n
  %m = add i64 %n, 1
  store i64 %m, ptr @n
  switch i64 %n, label %last [ i64 0, label %first ]
first:
  %r = call i64 @again()
  call void @print_i64(i64 %r)
  ret i32 7
last:
  ret i32 -4
}
",
        numbers: &[],
        limit: 100,
        printed: "-4\n",
        ending: Ending::Stop(7),
    },
    Run {
        name: "arguments, a select and a comparison with a sign",
        program: "declare void @print_i64(i64)
define i64 @larger(i64 %a, i64 %b) {
entry:
  %c = icmp slt i64 %a, %b
  %m = select i1 %c, i64 %b, i64 %a
  ret i64 %m
}
define i32 @main() {
entry:
  %x = call i64 @larger(i64 -7, i64 3)
  %y = call i64 @larger(i64 %x, i64 -9)
  call void @print_i64(i64 %y)
  ret i32 0
}
",
        numbers: &[],
        limit: 100,
        printed: "3\n",
        ending: Ending::Stop(0),
    },
];

#[test]
fn programs_print_and_end(rt: HostRuntime) {
    assert_runs(&rt, rt.alloc(), RUNS);
}
