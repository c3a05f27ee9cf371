//! The storage of a run: its memory, and what it shows of stores and flushes.

use crate::machines::{BASE, checked, input};
use hip_examples::AMPLE;
use hip_runs::{Event, TrapKind};
use hip_step::why_not;
use hip_storage::{Storage, StorageRefusal};
use std::alloc::Global;
use std::process::Abort;

/// Where the stack begins.
const STACK: u64 = 0x1000_0000;

/// Where the volatile globals begin.
const VOLATILE: u64 = 65_536;

/// A volatile number, and a region of two cache lines.
const PROGRAM: &str = "@v = global i16 258
@a = global [16 x i64] zeroinitializer, section \".pm\"
define i32 @main() {
entry:
  ret i32 0
}
";

/// One call on a storage, and what it answers.
#[derive(Clone, Copy)]
enum Call {
    Load {
        addr: u64,
        size: u32,
        align: u32,
        answer: Result<u64, TrapKind>,
    },
    Store {
        addr: u64,
        size: u32,
        align: u32,
        value: u64,
        answer: Result<Event, StorageRefusal>,
    },
    Push {
        size: u64,
        align: u64,
        answer: Result<u64, StorageRefusal>,
    },
    Pop {
        mark: u64,
    },
    Mark {
        answer: u64,
    },
    Flush {
        addr: u64,
        answer: Result<Event, TrapKind>,
    },
    FlushRange {
        addr: u64,
        size: u64,
        answer: Result<Event, TrapKind>,
    },
    Persist {
        addr: u64,
        size: u64,
        answer: Result<Event, TrapKind>,
    },
    InRegion {
        addr: u64,
        size: u64,
        answer: bool,
    },
}

fn assert_access(rt: &impl Abort, storage: &mut Storage, call: Call) {
    match call {
        Call::Load {
            addr,
            size,
            align,
            answer,
        } => {
            assert!(rt; 0 < size && size <= 8 && 0 < align);
            assert!(rt; storage.load(addr, size, align) == answer, "load at {addr}");
        }
        Call::Store {
            addr,
            size,
            align,
            value,
            answer,
        } => {
            assert!(rt; 0 < size && size <= 8 && 0 < align);
            assert!(rt;
                storage.store(addr, size, align, value) == answer,
                "store at {addr}"
            );
        }
        Call::Push {
            size,
            align,
            answer,
        } => {
            assert!(rt; 0 < align);
            assert!(rt; storage.push(size, align) == answer, "block of {size}");
        }
        Call::Pop { mark } => {
            assert!(rt; STACK <= mark && mark <= storage.mark());
            storage.pop(mark);
        }
        Call::Mark { answer } => assert!(rt; storage.mark() == answer),
        _ => {}
    }
}

fn assert_call(rt: &impl Abort, storage: &mut Storage, call: Call) {
    match call {
        Call::Flush { addr, answer } => assert!(rt;
            storage.flush(addr) == answer,
            "line of {addr}"
        ),
        Call::FlushRange { addr, size, answer } => {
            assert!(rt;
                storage.flush_range(addr, size) == answer,
                "lines of {size} from {addr}"
            );
        }
        Call::Persist { addr, size, answer } => {
            assert!(rt; storage.persist(addr, size) == answer, "{size} from {addr}");
        }
        Call::InRegion { addr, size, answer } => {
            assert!(rt;
                storage.is_in_region(addr, size) == answer,
                "{size} from {addr}"
            );
        }
        access => assert_access(rt, storage, access),
    }
}

/// The calls in turn, before the first step of a run.
fn assert_calls_in(rt: &impl Abort, storage: &mut Storage, calls: &[Call]) {
    for call in calls {
        assert_call(rt, storage, *call);
    }
}

fn assert_calls(rt: &impl Abort, alloc: Global, calls: &[Call]) {
    let checked = checked(rt, alloc, PROGRAM);
    let input = input(rt, alloc, &checked, &[], 1);
    assert!(rt; why_not(&checked, &input).is_none(), "the input is valid");
    let mut storage = Storage::new(alloc, &checked, &input).expect(rt, AMPLE);
    assert_calls_in(rt, &mut storage, calls);
}

/// A store that lies in two cache lines, and flushes of these.
const TORN: &[Call] = &[
    Call::Store {
        addr: BASE + 60,
        size: 8,
        align: 8,
        value: 5,
        answer: Err(StorageRefusal::Trap(TrapKind::Misaligned)),
    },
    Call::Store {
        addr: BASE + 60,
        size: 8,
        align: 4,
        value: 5,
        answer: Ok(Event::Store {
            addr: BASE + 60,
            value: 5,
            size: 8,
        }),
    },
    Call::Load {
        addr: BASE + 60,
        size: 8,
        align: 4,
        answer: Ok(5),
    },
    Call::Flush {
        addr: BASE,
        answer: Ok(Event::Flush {
            line: BASE,
            size: 64,
        }),
    },
    Call::FlushRange {
        addr: BASE + 60,
        size: 8,
        answer: Ok(Event::Flush {
            line: BASE,
            size: 128,
        }),
    },
];

/// Ranges at the end of the region, empty ones, and persists in the region and outside it.
const RANGES: &[Call] = &[
    Call::FlushRange {
        addr: BASE + 120,
        size: 8,
        answer: Ok(Event::Flush {
            line: BASE + 64,
            size: 64,
        }),
    },
    Call::FlushRange {
        addr: BASE + 120,
        size: 9,
        answer: Err(TrapKind::Address),
    },
    Call::FlushRange {
        addr: 7,
        size: 0,
        answer: Ok(Event::Quiet),
    },
    Call::InRegion {
        addr: BASE + 120,
        size: 8,
        answer: true,
    },
    Call::InRegion {
        addr: BASE + 120,
        size: 9,
        answer: false,
    },
    Call::InRegion {
        addr: BASE + 128,
        size: 0,
        answer: true,
    },
    Call::Store {
        addr: BASE,
        size: 1,
        align: 1,
        value: 0x101,
        answer: Ok(Event::Store {
            addr: BASE,
            value: 1,
            size: 1,
        }),
    },
    Call::Flush {
        addr: BASE + 63,
        answer: Ok(Event::Flush {
            line: BASE,
            size: 64,
        }),
    },
    Call::Persist {
        addr: VOLATILE,
        size: 2,
        answer: Ok(Event::Fence),
    },
    Call::Persist {
        addr: VOLATILE,
        size: 3,
        answer: Err(TrapKind::Address),
    },
    Call::Persist {
        addr: BASE + 63,
        size: 2,
        answer: Ok(Event::Persist {
            line: BASE,
            size: 128,
        }),
    },
    Call::Flush {
        addr: VOLATILE,
        answer: Ok(Event::Quiet),
    },
    Call::Flush {
        addr: STACK,
        answer: Err(TrapKind::Address),
    },
];

/// Volatile numbers, and blocks of the stack.
const VOLATILE_CALLS: &[Call] = &[
    Call::Load {
        addr: VOLATILE,
        size: 2,
        align: 2,
        answer: Ok(258),
    },
    Call::Load {
        addr: VOLATILE + 1,
        size: 1,
        align: 1,
        answer: Ok(1),
    },
    Call::Load {
        addr: STACK,
        size: 1,
        align: 1,
        answer: Err(TrapKind::Address),
    },
    Call::Push {
        size: 8,
        align: 8,
        answer: Ok(STACK),
    },
    Call::Mark { answer: STACK + 8 },
    Call::Store {
        addr: STACK,
        size: 8,
        align: 8,
        value: 9,
        answer: Ok(Event::Quiet),
    },
    Call::Load {
        addr: STACK,
        size: 8,
        align: 8,
        answer: Ok(9),
    },
    Call::Pop { mark: STACK },
    Call::Store {
        addr: STACK,
        size: 8,
        align: 8,
        value: 9,
        answer: Err(StorageRefusal::Trap(TrapKind::Address)),
    },
    Call::Push {
        size: 16_777_217,
        align: 1,
        answer: Err(StorageRefusal::Trap(TrapKind::Stack)),
    },
];

#[test]
fn store_in_two_lines(rt: HostRuntime) {
    assert_calls(&rt, rt.alloc(), TORN);
}

#[test]
fn ranges_and_persists(rt: HostRuntime) {
    assert_calls(&rt, rt.alloc(), RANGES);
}

#[test]
fn volatile_numbers_and_blocks(rt: HostRuntime) {
    assert_calls(&rt, rt.alloc(), VOLATILE_CALLS);
}
