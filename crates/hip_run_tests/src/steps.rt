//! What a machine shows before each step, and the events of the steps.

use crate::machines::{BASE, checked, input, machine};
use hip_examples::AMPLE;
use hip_sound::Checked;
use hip_step::{Ending, Event, Input, Machine, Object};
use hip_tree::Site;
use std::alloc::Global;
use std::process::Abort;

/// Where the stack begins.
const STACK: u64 = 268_435_456;

/// Where the volatile globals begin.
const VOLATILE: u64 = 65_536;

/// A function, a block and a place in the block, by their numbers.
type Place = (usize, usize, usize);

/// The site of the next instruction, the number of frames, the turns, the call that made the top frame, the first
/// pointer operand of the next instruction, and the event of the step.
#[derive(Clone, Copy, PartialEq, Eq)]
struct Step {
    site: Option<Place>,
    depth: usize,
    turns: u64,
    call: Option<Place>,
    pointer: Option<u64>,
    event: Event,
}

fn place(site: Site) -> Place {
    (site.function, site.block, site.index)
}

/// Takes a step, and gives what the machine showed before it.
fn taken(rt: &impl Abort, machine: &mut Machine<'_>) -> Step {
    let site = machine.site().map(place);
    let depth = machine.depth();
    let turns = machine.turns();
    let call = machine.call_site(0).map(place);
    let pointer = machine.pointer(0);
    Step {
        site,
        depth,
        turns,
        call,
        pointer,
        event: machine.step().expect(rt, AMPLE),
    }
}

/// Asserts what is shown of each step of a run that reads 7.
fn assert_run(rt: &impl Abort, alloc: Global, text: &str, steps: &[Step]) {
    let checked = checked(rt, alloc, text);
    let input = input(rt, alloc, &checked, &[7], 100);
    let mut machine = machine(rt, alloc, &checked, &input);
    for (number, step) in steps.iter().enumerate() {
        assert!(rt; taken(rt, &mut machine) == *step, "step {number}");
    }
}

const EVERY_EVENT: &str = "@x = global i64 0, section \".pm\"
@v = global i64 0
declare void @llvm.x86.clwb(ptr)
declare void @llvm.x86.sse.sfence()
declare void @pm_assert(ptr, i64)
declare void @pmem_persist(ptr, i64)
declare i64 @read_i64()
declare void @print_i64(i64)
define i32 @main() {
entry:
  %n = call i64 @read_i64()
  store i64 %n, ptr @x
  store i64 %n, ptr @v
  call void @llvm.x86.clwb(ptr @x)
  call void @llvm.x86.clwb(ptr @v)
  call void @llvm.x86.sse.sfence()
  call void @pm_assert(ptr @x, i64 8)
  call void @print_i64(i64 %n)
  call void @pmem_persist(ptr @x, i64 8)
  ret i32 4
}
";

const OF_EVERY_EVENT: &[Step] = &[
    Step {
        site: Some((0, 0, 0)),
        depth: 1,
        turns: 0,
        call: None,
        pointer: None,
        event: Event::Quiet,
    },
    Step {
        site: Some((0, 0, 1)),
        depth: 1,
        turns: 1,
        call: None,
        pointer: Some(BASE),
        event: Event::Store {
            addr: BASE,
            value: 7,
            size: 8,
        },
    },
    Step {
        site: Some((0, 0, 2)),
        depth: 1,
        turns: 2,
        call: None,
        pointer: Some(VOLATILE),
        event: Event::Quiet,
    },
    Step {
        site: Some((0, 0, 3)),
        depth: 1,
        turns: 3,
        call: None,
        pointer: None,
        event: Event::Flush {
            line: BASE,
            size: 64,
        },
    },
    Step {
        site: Some((0, 0, 4)),
        depth: 1,
        turns: 3,
        call: None,
        pointer: None,
        event: Event::Quiet,
    },
    Step {
        site: Some((0, 0, 5)),
        depth: 1,
        turns: 3,
        call: None,
        pointer: None,
        event: Event::Fence,
    },
    Step {
        site: Some((0, 0, 6)),
        depth: 1,
        turns: 3,
        call: None,
        pointer: None,
        event: Event::Assert {
            addr: BASE,
            size: 8,
        },
    },
    Step {
        site: Some((0, 0, 7)),
        depth: 1,
        turns: 4,
        call: None,
        pointer: None,
        event: Event::Print(7),
    },
    Step {
        site: Some((0, 0, 8)),
        depth: 1,
        turns: 5,
        call: None,
        pointer: None,
        event: Event::Persist {
            line: BASE,
            size: 64,
        },
    },
    Step {
        site: None,
        depth: 1,
        turns: 5,
        call: None,
        pointer: None,
        event: Event::End(Ending::Stop(4)),
    },
    Step {
        site: None,
        depth: 1,
        turns: 6,
        call: None,
        pointer: None,
        event: Event::End(Ending::Stop(4)),
    },
];

const TWO_CALLS: &str = "@p = global i64 0, section \".pm\"
define i64 @put(ptr %d, i64 %n) {
entry:
  store i64 %n, ptr %d
  ret i64 %n
}
define i32 @main() {
entry:
  %t = alloca i64
  %a = call i64 @put(ptr %t, i64 3)
  %b = call i64 @put(ptr @p, i64 4)
  ret i32 0
}
";

const OF_TWO_CALLS: &[Step] = &[
    Step {
        site: Some((1, 0, 0)),
        depth: 1,
        turns: 0,
        call: None,
        pointer: None,
        event: Event::Quiet,
    },
    Step {
        site: Some((1, 0, 1)),
        depth: 1,
        turns: 1,
        call: None,
        pointer: Some(STACK),
        event: Event::Quiet,
    },
    Step {
        site: Some((0, 0, 0)),
        depth: 2,
        turns: 2,
        call: Some((1, 0, 1)),
        pointer: Some(STACK),
        event: Event::Quiet,
    },
    Step {
        site: None,
        depth: 2,
        turns: 3,
        call: Some((1, 0, 1)),
        pointer: None,
        event: Event::Quiet,
    },
    Step {
        site: Some((1, 0, 2)),
        depth: 1,
        turns: 4,
        call: None,
        pointer: Some(BASE),
        event: Event::Quiet,
    },
    Step {
        site: Some((0, 0, 0)),
        depth: 2,
        turns: 5,
        call: Some((1, 0, 2)),
        pointer: Some(BASE),
        event: Event::Store {
            addr: BASE,
            value: 4,
            size: 8,
        },
    },
    Step {
        site: None,
        depth: 2,
        turns: 6,
        call: Some((1, 0, 2)),
        pointer: None,
        event: Event::Quiet,
    },
    Step {
        site: None,
        depth: 1,
        turns: 7,
        call: None,
        pointer: None,
        event: Event::End(Ending::Stop(0)),
    },
    Step {
        site: None,
        depth: 1,
        turns: 8,
        call: None,
        pointer: None,
        event: Event::End(Ending::Stop(0)),
    },
];

#[test]
fn events_and_turns(rt: HostRuntime) {
    assert_run(&rt, rt.alloc(), EVERY_EVENT, OF_EVERY_EVENT);
}

#[test]
fn frames_of_calls(rt: HostRuntime) {
    assert_run(&rt, rt.alloc(), TWO_CALLS, OF_TWO_CALLS);
}

/// What an address points into after a number of steps.
struct Pointed {
    steps: usize,
    addr: u64,
    object: Option<Object>,
}

const BLOCKS: &str = "@v = global i16 1
@w = global { i8, i64 } zeroinitializer
@p = global i32 0, section \".pm\"
define void @f() {
entry:
  %a = alloca i16
  %b = alloca i64
  ret void
}
define i32 @main() {
entry:
  %t = alloca i8
  call void @f()
  ret i32 0
}
";

const OF_GLOBALS: &[Pointed] = &[
    Pointed {
        steps: 0,
        addr: VOLATILE,
        object: Some(Object::Global(0)),
    },
    Pointed {
        steps: 0,
        addr: VOLATILE + 1,
        object: Some(Object::Global(0)),
    },
    Pointed {
        steps: 0,
        addr: VOLATILE + 2,
        object: None,
    },
    Pointed {
        steps: 0,
        addr: VOLATILE + 7,
        object: None,
    },
    Pointed {
        steps: 0,
        addr: VOLATILE + 8,
        object: Some(Object::Global(1)),
    },
    Pointed {
        steps: 0,
        addr: VOLATILE + 23,
        object: Some(Object::Global(1)),
    },
    Pointed {
        steps: 0,
        addr: VOLATILE + 24,
        object: None,
    },
    Pointed {
        steps: 0,
        addr: BASE,
        object: Some(Object::Global(2)),
    },
    Pointed {
        steps: 0,
        addr: BASE + 3,
        object: Some(Object::Global(2)),
    },
    Pointed {
        steps: 0,
        addr: BASE + 4,
        object: None,
    },
    Pointed {
        steps: 0,
        addr: BASE - 1,
        object: None,
    },
    Pointed {
        steps: 0,
        addr: 0,
        object: None,
    },
    Pointed {
        steps: 0,
        addr: STACK,
        object: None,
    },
];

const OF_BLOCKS: &[Pointed] = &[
    Pointed {
        steps: 1,
        addr: STACK,
        object: Some(Object::Slot(Site {
            function: 1,
            block: 0,
            index: 0,
        })),
    },
    Pointed {
        steps: 1,
        addr: STACK + 1,
        object: None,
    },
    Pointed {
        steps: 4,
        addr: STACK,
        object: Some(Object::Slot(Site {
            function: 1,
            block: 0,
            index: 0,
        })),
    },
    Pointed {
        steps: 4,
        addr: STACK + 1,
        object: None,
    },
    Pointed {
        steps: 4,
        addr: STACK + 2,
        object: Some(Object::Slot(Site {
            function: 0,
            block: 0,
            index: 0,
        })),
    },
    Pointed {
        steps: 4,
        addr: STACK + 3,
        object: Some(Object::Slot(Site {
            function: 0,
            block: 0,
            index: 0,
        })),
    },
    Pointed {
        steps: 4,
        addr: STACK + 4,
        object: None,
    },
    Pointed {
        steps: 4,
        addr: STACK + 8,
        object: Some(Object::Slot(Site {
            function: 0,
            block: 0,
            index: 1,
        })),
    },
    Pointed {
        steps: 4,
        addr: STACK + 15,
        object: Some(Object::Slot(Site {
            function: 0,
            block: 0,
            index: 1,
        })),
    },
    Pointed {
        steps: 4,
        addr: STACK + 16,
        object: None,
    },
    Pointed {
        steps: 5,
        addr: STACK + 2,
        object: None,
    },
    Pointed {
        steps: 5,
        addr: STACK + 8,
        object: None,
    },
    Pointed {
        steps: 5,
        addr: STACK,
        object: Some(Object::Slot(Site {
            function: 1,
            block: 0,
            index: 0,
        })),
    },
];

const EMPTY_BLOCKS: &str = "define void @f() {
entry:
  %a = alloca {}
  %b = alloca i16
  %c = alloca [0 x i64]
  ret void
}
define i32 @main() {
entry:
  %t = alloca {}
  %u = alloca i8
  %v = alloca {}
  call void @f()
  %w = alloca i8
  ret i32 0
}
";

const BESIDE_EMPTY_BLOCKS: &[Pointed] = &[
    Pointed {
        steps: 1,
        addr: STACK,
        object: None,
    },
    Pointed {
        steps: 2,
        addr: STACK,
        object: Some(Object::Slot(Site {
            function: 1,
            block: 0,
            index: 1,
        })),
    },
    Pointed {
        steps: 2,
        addr: STACK + 1,
        object: None,
    },
    Pointed {
        steps: 7,
        addr: STACK,
        object: Some(Object::Slot(Site {
            function: 1,
            block: 0,
            index: 1,
        })),
    },
    Pointed {
        steps: 7,
        addr: STACK + 1,
        object: None,
    },
    Pointed {
        steps: 7,
        addr: STACK + 2,
        object: Some(Object::Slot(Site {
            function: 0,
            block: 0,
            index: 1,
        })),
    },
    Pointed {
        steps: 7,
        addr: STACK + 3,
        object: Some(Object::Slot(Site {
            function: 0,
            block: 0,
            index: 1,
        })),
    },
    Pointed {
        steps: 7,
        addr: STACK + 4,
        object: None,
    },
    Pointed {
        steps: 7,
        addr: STACK + 8,
        object: None,
    },
    Pointed {
        steps: 8,
        addr: STACK,
        object: Some(Object::Slot(Site {
            function: 1,
            block: 0,
            index: 1,
        })),
    },
    Pointed {
        steps: 8,
        addr: STACK + 2,
        object: None,
    },
    Pointed {
        steps: 9,
        addr: STACK,
        object: Some(Object::Slot(Site {
            function: 1,
            block: 0,
            index: 1,
        })),
    },
    Pointed {
        steps: 9,
        addr: STACK + 1,
        object: Some(Object::Slot(Site {
            function: 1,
            block: 0,
            index: 4,
        })),
    },
    Pointed {
        steps: 9,
        addr: STACK + 2,
        object: None,
    },
];

/// Asserts what the addresses point into, by the number of steps.
fn assert_pointed(rt: &impl Abort, machine: &mut Machine<'_>, cases: &[Pointed]) {
    let mut steps = 0;
    for case in cases {
        take_steps(rt, machine, steps, case.steps);
        steps = case.steps;
        let object = machine.object_at(case.addr);
        assert!(rt; object == case.object, "{} after {}", case.addr, case.steps);
    }
}

fn assert_objects_in(
    rt: &impl Abort,
    alloc: Global,
    checked: &Checked,
    input: &Input,
    cases: &[Pointed],
) {
    let mut machine = machine(rt, alloc, checked, input);
    assert_pointed(rt, &mut machine, cases);
}

fn assert_objects(rt: &impl Abort, alloc: Global, program: &str, cases: &[Pointed]) {
    let checked = checked(rt, alloc, program);
    let input = input(rt, alloc, &checked, &[7], 100);
    assert_objects_in(rt, alloc, &checked, &input, cases);
}

fn take_steps(rt: &impl Abort, machine: &mut Machine<'_>, from: usize, to: usize) {
    for _ in from..to {
        let _event = machine.step().expect(rt, AMPLE);
    }
}

#[test]
fn addresses_of_globals(rt: HostRuntime) {
    assert_objects(&rt, rt.alloc(), BLOCKS, OF_GLOBALS);
}

#[test]
fn addresses_of_blocks(rt: HostRuntime) {
    assert_objects(&rt, rt.alloc(), BLOCKS, OF_BLOCKS);
}

#[test]
fn addresses_beside_empty_blocks(rt: HostRuntime) {
    assert_objects(&rt, rt.alloc(), EMPTY_BLOCKS, BESIDE_EMPTY_BLOCKS);
}
