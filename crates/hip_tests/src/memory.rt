//! Memory: loads, stores, and blocks of the stack.

ghost use Rattle.std.specs.Prelude.{◌≡◌, length};

use hip_examples::AMPLE;
use hip_image::Image;
use hip_mem::{MemTrap, PushRefusal, Ram, StoreRefusal};
use std::alloc::Global;
use std::process::Abort;

/// Where the region begins.
const BASE: u64 = 0x1_0000_0000;

/// Where the stack begins.
const STACK: u64 = 0x1000_0000;

/// One call on a memory, and what it answers.
#[derive(Clone, Copy)]
enum Call {
    Load {
        addr: u64,
        size: u32,
        align: u32,
        answer: Result<u64, MemTrap>,
    },
    Store {
        addr: u64,
        size: u32,
        align: u32,
        value: u64,
        answer: Result<(), StoreRefusal>,
    },
    Push {
        size: u64,
        align: u64,
        answer: Result<u64, PushRefusal>,
    },
    Pop {
        mark: u64,
    },
    Mark {
        answer: u64,
    },
    Valid {
        addr: u64,
        answer: bool,
    },
    ValidRange {
        addr: u64,
        len: u64,
        answer: bool,
    },
}

/// Removes the blocks of the stack down to a mark, if they reach that far.
fn has_popped(ram: &mut Ram, mark: u64) -> bool {
    let reaches = STACK <= mark && mark <= ram.mark();
    if reaches {
        ram.pop_stack(mark);
    }
    reaches
}

/// Makes a call, and answers whether it gave what is expected.
fn has_answered(ram: &mut Ram, call: Call) -> bool {
    match call {
        Call::Load {
            addr,
            size,
            align,
            answer,
        } => 0 < size && size <= 8 && 0 < align && ram.load(addr, size, align) == answer,
        Call::Store {
            addr,
            size,
            align,
            value,
            answer,
        } => 0 < size && size <= 8 && 0 < align && ram.store(addr, size, align, value) == answer,
        Call::Push {
            size,
            align,
            answer,
        } => 0 < align && ram.push_stack(size, align) == answer,
        Call::Pop { mark } => has_popped(ram, mark),
        Call::Mark { answer } => ram.mark() == answer,
        Call::Valid { addr, answer } => ram.valid(addr) == answer,
        Call::ValidRange { addr, len, answer } => ram.valid_range(addr, len) == answer,
    }
}

fn assert_calls(rt: &impl Abort, ram: &mut Ram, calls: &[Call]) {
    for (number, call) in calls.iter().enumerate() {
        assert!(rt; has_answered(ram, *call), "call {number}");
    }
}

/// The image of bytes.
fn image(rt: &impl Abort, alloc: Global, bytes: &[u8]) -> Image
    ensures { length result ≡ length bytes.now }
{
    let mut image = Image::new(alloc);
    image.extend_from_slice(bytes).expect(rt, AMPLE);
    image
}

/// A memory with no volatile bytes and no region.
fn empty_ram(rt: &impl Abort, alloc: Global) -> Ram {
    let none = image(rt, alloc, &[]);
    Ram::new(alloc, BASE, &none, &none).expect(rt, AMPLE)
}

/// Three volatile bytes, no region, and a block that fills the stack.
const FRESH: &[Call] = &[
    Call::Load {
        addr: STACK,
        size: 8,
        align: 8,
        answer: Err(MemTrap::BadAddress),
    },
    Call::Load {
        addr: 65_537,
        size: 2,
        align: 2,
        answer: Err(MemTrap::Misaligned),
    },
    Call::Load {
        addr: 65_537,
        size: 2,
        align: 1,
        answer: Ok(0x0302),
    },
    Call::Load {
        addr: 65_538,
        size: 2,
        align: 2,
        answer: Err(MemTrap::BadAddress),
    },
    Call::Push {
        size: 16_777_216,
        align: 1,
        answer: Ok(STACK),
    },
    Call::Push {
        size: 1,
        align: 1,
        answer: Err(PushRefusal::StackFull),
    },
    Call::Load {
        addr: STACK,
        size: 8,
        align: 8,
        answer: Ok(0),
    },
    Call::Mark {
        answer: 285_212_672,
    },
];

#[test]
fn fresh_memory(rt: HostRuntime) {
    let volatile = image(&rt, rt.alloc(), &[1, 2, 3]);
    let region = image(&rt, rt.alloc(), &[]);
    let mut ram = Ram::new(rt.alloc(), BASE, &volatile, &region).expect(&rt, AMPLE);
    assert_calls(&rt, &mut ram, FRESH);
}

/// A region of two pages: a store over their border, one of low bytes, and refusals that change nothing.
const TWO_PAGES: &[Call] = &[
    Call::Load {
        addr: BASE + 4092,
        size: 8,
        align: 4,
        answer: Ok(0xabab_abab_abab_abab),
    },
    Call::Store {
        addr: BASE + 4092,
        size: 8,
        align: 4,
        value: 0x0102_0304_0506_0708,
        answer: Ok(()),
    },
    Call::Load {
        addr: BASE + 4092,
        size: 8,
        align: 4,
        answer: Ok(0x0102_0304_0506_0708),
    },
    Call::Load {
        addr: BASE + 4096,
        size: 4,
        align: 4,
        answer: Ok(0x0102_0304),
    },
    Call::Load {
        addr: BASE + 4100,
        size: 1,
        align: 1,
        answer: Ok(0xab),
    },
    Call::Store {
        addr: BASE,
        size: 2,
        align: 2,
        value: 0x0005_1122,
        answer: Ok(()),
    },
    Call::Load {
        addr: BASE,
        size: 4,
        align: 4,
        answer: Ok(0xabab_1122),
    },
    Call::Store {
        addr: BASE + 1,
        size: 2,
        align: 2,
        value: 0,
        answer: Err(StoreRefusal::Misaligned),
    },
    Call::Store {
        addr: BASE + 8188,
        size: 8,
        align: 4,
        value: 0,
        answer: Err(StoreRefusal::BadAddress),
    },
    Call::Load {
        addr: BASE + 8188,
        size: 4,
        align: 4,
        answer: Ok(0xabab_abab),
    },
    Call::Valid {
        addr: BASE + 8191,
        answer: true,
    },
    Call::ValidRange {
        addr: BASE + 1,
        len: 8191,
        answer: true,
    },
    Call::ValidRange {
        addr: BASE + 1,
        len: 8192,
        answer: false,
    },
    // The last bytes that have addresses, and beyond.
    Call::ValidRange {
        addr: BASE,
        len: u64::MAX,
        answer: false,
    },
    Call::ValidRange {
        addr: u64::MAX,
        len: 0,
        answer: true,
    },
    Call::Valid {
        addr: BASE + 8192,
        answer: false,
    },
];

#[test]
fn stores_are_read(rt: HostRuntime) {
    let bytes = vec![in rt.alloc(); 0xabu8; 8192].expect(&rt, AMPLE);
    let volatile = image(&rt, rt.alloc(), &[]);
    let region = image(&rt, rt.alloc(), bytes.as_slice());
    let mut ram = Ram::new(rt.alloc(), BASE, &volatile, &region).expect(&rt, AMPLE);
    assert_calls(&rt, &mut ram, TWO_PAGES);
}

/// A block over bytes that an earlier frame wrote reads as zeros again.
const TWO_FRAMES: &[Call] = &[
    Call::Push {
        size: 3,
        align: 1,
        answer: Ok(STACK),
    },
    Call::Push {
        size: 20_000,
        align: 8,
        answer: Ok(STACK + 8),
    },
    Call::Store {
        addr: STACK + 4100,
        size: 8,
        align: 4,
        value: 77,
        answer: Ok(()),
    },
    Call::Store {
        addr: STACK + 20_000,
        size: 8,
        align: 8,
        value: 78,
        answer: Ok(()),
    },
    Call::Store {
        addr: STACK,
        size: 1,
        align: 1,
        value: 9,
        answer: Ok(()),
    },
    Call::Pop { mark: STACK + 3 },
    Call::Load {
        addr: STACK + 8,
        size: 8,
        align: 8,
        answer: Err(MemTrap::BadAddress),
    },
    Call::Push {
        size: 20_000,
        align: 8,
        answer: Ok(STACK + 8),
    },
    Call::Load {
        addr: STACK + 4100,
        size: 8,
        align: 4,
        answer: Ok(0),
    },
    Call::Load {
        addr: STACK + 20_000,
        size: 8,
        align: 8,
        answer: Ok(0),
    },
    Call::Load {
        addr: STACK,
        size: 1,
        align: 1,
        answer: Ok(9),
    },
];

#[test]
fn block_is_zeros_again(rt: HostRuntime) {
    let mut ram = empty_ram(&rt, rt.alloc());
    assert_calls(&rt, &mut ram, TWO_FRAMES);
}

/// A block that fills the stack, and a store at its end.
const FULL_STACK: &[Call] = &[
    Call::Push {
        size: 16_777_216,
        align: 1,
        answer: Ok(STACK),
    },
    Call::Store {
        addr: 285_212_664,
        size: 8,
        align: 8,
        value: 1,
        answer: Ok(()),
    },
];

/// Loads from the full stack: the stored value, and zeros elsewhere.
const LEFT: &[Call] = &[
    Call::Load {
        addr: 285_212_664,
        size: 8,
        align: 8,
        answer: Ok(1),
    },
    Call::Load {
        addr: STACK,
        size: 8,
        align: 8,
        answer: Ok(0),
    },
];

/// A memory whose stack is full.
fn full_ram(rt: &impl Abort, alloc: Global) -> Ram {
    let mut ram = empty_ram(rt, alloc);
    assert_calls(rt, &mut ram, FULL_STACK);
    ram
}

fn full_rams(rt: &impl Abort, alloc: Global, count: u32) -> Vec<Ram> {
    let mut rams = Vec::new(alloc);
    for _ in 0..count {
        rams.push(full_ram(rt, alloc)).expect(rt, AMPLE);
    }
    rams
}

#[test]
fn pages_on_demand(rt: HostRuntime) {
    let mut rams = full_rams(&rt, rt.alloc(), 4000);
    assert!(rt; rams.len() == 4000);
    for ram in &mut rams {
        assert_calls(&rt, ram, LEFT);
    }
}
