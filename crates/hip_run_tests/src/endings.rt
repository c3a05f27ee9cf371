//! How runs end, and after how many turns: each kind of trap, cuts and the steps that take no turn.

use crate::machines::{checked, input, machine};
use hip_examples::AMPLE;
use hip_sound::Checked;
use hip_step::{Ending, Event, Input, Machine, TrapKind};
use std::alloc::Global;
use std::process::Abort;

/// An upper bound of the steps of these programs' runs.
const MOST_STEPS: u64 = 40_000;

/// A program without numbers, with its limit, how its run ends, and how many turns it takes.
struct Ended {
    program: &'static str,
    limit: u64,
    ending: Ending,
    turns: u64,
}

/// Takes steps until the run has ended.
fn run_to_end(rt: &impl Abort, machine: &mut Machine<'_>) -> Option<Ending> {
    for _ in 0..MOST_STEPS {
        if let Event::End(ending) = machine.step().expect(rt, AMPLE) {
            return Some(ending);
        }
    }
    None
}

fn assert_ends(rt: &impl Abort, machine: &mut Machine<'_>, case: &Ended) {
    let ending = run_to_end(rt, machine);
    assert!(rt; ending == Some(case.ending), "{}", case.program);
    assert!(rt; machine.ending() == ending, "{}", case.program);
    assert!(rt; machine.turns() == case.turns, "{}", case.program);
}

fn assert_run(rt: &impl Abort, alloc: Global, checked: &Checked, input: &Input, case: &Ended) {
    let mut machine = machine(rt, alloc, checked, input);
    assert_ends(rt, &mut machine, case);
}

fn assert_ended(rt: &impl Abort, alloc: Global, case: &Ended) {
    let checked = checked(rt, alloc, case.program);
    let input = input(rt, alloc, &checked, &[], case.limit);
    assert_run(rt, alloc, &checked, &input, case);
}

fn assert_all(rt: &impl Abort, alloc: Global, cases: &[Ended]) {
    for case in cases {
        assert_ended(rt, alloc, case);
    }
}

const OF_ARITHMETIC: &[Ended] = &[
    Ended {
        program: "define i32 @main() {
entry:
  %d = udiv i64 1, 0
  ret i32 0
}
",
        limit: 100,
        ending: Ending::Trap(TrapKind::DivZero),
        turns: 1,
    },
    Ended {
        program: "define i32 @main() {
entry:
  %d = urem i8 1, 0
  ret i32 0
}
",
        limit: 100,
        ending: Ending::Trap(TrapKind::DivZero),
        turns: 1,
    },
    Ended {
        program: "define i32 @main() {
entry:
  %a = add i32 1, 2
  %d = sdiv i32 -5, 0
  ret i32 0
}
",
        limit: 100,
        ending: Ending::Trap(TrapKind::DivZero),
        turns: 2,
    },
    Ended {
        program: "define i32 @main() {
entry:
  %d = srem i16 5, 0
  ret i32 0
}
",
        limit: 100,
        ending: Ending::Trap(TrapKind::DivZero),
        turns: 1,
    },
    Ended {
        program: "define i32 @main() {
entry:
  %d = sdiv i64 -9223372036854775808, -1
  ret i32 0
}
",
        limit: 100,
        ending: Ending::Trap(TrapKind::DivOverflow),
        turns: 1,
    },
    Ended {
        program: "define i32 @main() {
entry:
  %d = srem i8 -128, -1
  ret i32 0
}
",
        limit: 100,
        ending: Ending::Trap(TrapKind::DivOverflow),
        turns: 1,
    },
    Ended {
        program: "define i32 @main() {
entry:
  %d = shl i64 1, 64
  ret i32 0
}
",
        limit: 100,
        ending: Ending::Trap(TrapKind::ShiftRange),
        turns: 1,
    },
    Ended {
        program: "define i32 @main() {
entry:
  %d = lshr i32 1, 32
  ret i32 0
}
",
        limit: 100,
        ending: Ending::Trap(TrapKind::ShiftRange),
        turns: 1,
    },
    Ended {
        program: "define i32 @main() {
entry:
  %d = ashr i8 1, -1
  ret i32 0
}
",
        limit: 100,
        ending: Ending::Trap(TrapKind::ShiftRange),
        turns: 1,
    },
    Ended {
        program: "define i32 @main() {
entry:
  %d = ashr i1 1, 0
  %e = shl i1 1, 1
  ret i32 0
}
",
        limit: 100,
        ending: Ending::Trap(TrapKind::ShiftRange),
        turns: 2,
    },
];

const OF_ADDRESSES: &[Ended] = &[
    Ended {
        program: "define i32 @main() {
entry:
  store i8 1, ptr null
  ret i32 0
}
",
        limit: 100,
        ending: Ending::Trap(TrapKind::Address),
        turns: 1,
    },
    Ended {
        program: "@x = global i64 0, section \".pm\"
define i32 @main() {
entry:
  %q = getelementptr i8, ptr @x, i64 64
  %v = load i8, ptr %q
  ret i32 0
}
",
        limit: 100,
        ending: Ending::Trap(TrapKind::Address),
        turns: 2,
    },
    Ended {
        program: "@x = global i64 0, section \".pm\"
define i32 @main() {
entry:
  %q = getelementptr i8, ptr @x, i64 56
  store i64 1, ptr %q
  ret i32 7
}
",
        limit: 100,
        ending: Ending::Stop(7),
        turns: 3,
    },
    Ended {
        program: "@x = global i64 0, section \".pm\"
define i32 @main() {
entry:
  %q = getelementptr i8, ptr @x, i64 60
  store i64 1, ptr %q
  ret i32 0
}
",
        limit: 100,
        ending: Ending::Trap(TrapKind::Misaligned),
        turns: 2,
    },
    Ended {
        program: "define i32 @main() {
entry:
  %q = inttoptr i64 1 to ptr
  %v = load i16, ptr %q
  ret i32 0
}
",
        limit: 100,
        ending: Ending::Trap(TrapKind::Misaligned),
        turns: 2,
    },
    Ended {
        program: "define i32 @main() {
entry:
  %t = alloca i32
  %v = load i32, ptr %t
  %q = getelementptr i32, ptr %t, i64 1
  %w = load i32, ptr %q
  ret i32 0
}
",
        limit: 100,
        ending: Ending::Trap(TrapKind::Address),
        turns: 4,
    },
    Ended {
        program: "@x = global i64 0, section \".pm\"
declare void @pm_assert(ptr, i64)
define i32 @main() {
entry:
  call void @pm_assert(ptr @x, i64 65)
  ret i32 0
}
",
        limit: 100,
        ending: Ending::Trap(TrapKind::Address),
        turns: 1,
    },
    Ended {
        program: "declare void @pm_assert(ptr, i64)
define i32 @main() {
entry:
  %t = alloca i64
  call void @pm_assert(ptr %t, i64 8)
  ret i32 0
}
",
        limit: 100,
        ending: Ending::Trap(TrapKind::Address),
        turns: 2,
    },
];

const OF_FLUSHES: &[Ended] = &[
    Ended {
        program: "declare void @llvm.x86.clwb(ptr)
define i32 @main() {
entry:
  call void @llvm.x86.clwb(ptr null)
  ret i32 0
}
",
        limit: 100,
        ending: Ending::Trap(TrapKind::Address),
        turns: 0,
    },
    Ended {
        program: "@x = global i64 0, section \".pm\"
declare void @pmem_persist(ptr, i64)
define i32 @main() {
entry:
  call void @pmem_persist(ptr @x, i64 65)
  ret i32 0
}
",
        limit: 100,
        ending: Ending::Trap(TrapKind::Address),
        turns: 0,
    },
    Ended {
        program: "@x = global i64 0, section \".pm\"
declare void @llvm.x86.clwb(ptr)
declare void @llvm.x86.sse.sfence()
define i32 @main() {
entry:
  store i64 1, ptr @x
  call void @llvm.x86.clwb(ptr @x)
  call void @llvm.x86.sse.sfence()
  ret i32 0
}
",
        limit: 1,
        ending: Ending::Cut,
        turns: 1,
    },
    Ended {
        program: "@x = global i64 0, section \".pm\"
declare void @llvm.x86.clwb(ptr)
declare void @llvm.x86.sse.sfence()
define i32 @main() {
entry:
  store i64 1, ptr @x
  call void @llvm.x86.clwb(ptr @x)
  call void @llvm.x86.sse.sfence()
  ret i32 0
}
",
        limit: 2,
        ending: Ending::Stop(0),
        turns: 2,
    },
    Ended {
        program: "declare void @llvm.x86.clwb(ptr)
declare void @llvm.x86.sse.sfence()
define i32 @main() {
entry:
  call void @llvm.x86.sse.sfence()
  call void @llvm.x86.clwb(ptr null)
  ret i32 0
}
",
        limit: 0,
        ending: Ending::Trap(TrapKind::Address),
        turns: 0,
    },
    Ended {
        program: "define i32 @main() {
entry:
  ret i32 0
}
",
        limit: 0,
        ending: Ending::Cut,
        turns: 0,
    },
];

const OF_ROOM: &[Ended] = &[
    Ended {
        program: "define i32 @main() {
entry:
  %a = alloca [16777216 x i8]
  %b = alloca i8
  ret i32 0
}
",
        limit: 100,
        ending: Ending::Trap(TrapKind::Stack),
        turns: 2,
    },
    Ended {
        program: "define i32 @main() {
entry:
  %a = alloca [16777209 x i8]
  %b = alloca i64
  ret i32 0
}
",
        limit: 100,
        ending: Ending::Trap(TrapKind::Stack),
        turns: 2,
    },
    Ended {
        program: "define i32 @main() {
entry:
  %a = alloca [16777208 x i8]
  %b = alloca i64
  ret i32 0
}
",
        limit: 100,
        ending: Ending::Stop(0),
        turns: 3,
    },
    Ended {
        program: "define void @f() {
entry:
  call void @f()
  ret void
}
define i32 @main() {
entry:
  call void @f()
  ret i32 0
}
",
        limit: 20000,
        ending: Ending::Trap(TrapKind::Depth),
        turns: 16384,
    },
    Ended {
        program: "define void @f() {
entry:
  call void @f()
  ret void
}
define i32 @main() {
entry:
  call void @f()
  ret i32 0
}
",
        limit: 16383,
        ending: Ending::Cut,
        turns: 16383,
    },
    Ended {
        program: "declare i64 @read_i64()
define i32 @main() {
entry:
  %n = call i64 @read_i64()
  ret i32 0
}
",
        limit: 100,
        ending: Ending::Trap(TrapKind::InputEnd),
        turns: 1,
    },
    Ended {
        program: "define i32 @main() {
entry:
  %n = add i8 1, 1
  unreachable
}
",
        limit: 100,
        ending: Ending::Trap(TrapKind::Unreachable),
        turns: 2,
    },
];

#[test]
fn traps_of_arithmetic(rt: HostRuntime) {
    assert_all(&rt, rt.alloc(), OF_ARITHMETIC);
}

#[test]
fn traps_of_addresses(rt: HostRuntime) {
    assert_all(&rt, rt.alloc(), OF_ADDRESSES);
}

#[test]
fn flushes_take_no_turns(rt: HostRuntime) {
    assert_all(&rt, rt.alloc(), OF_FLUSHES);
}

#[test]
fn room_that_is_full(rt: HostRuntime) {
    assert_all(&rt, rt.alloc(), OF_ROOM);
}
