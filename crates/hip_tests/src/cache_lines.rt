//! Cache lines: which bytes are not durable after stores, flushes and fences.

ghost use Rattle.std.specs.Prelude.{◌≡◌, ◌≤◌, ◌*◌, length};

use hip_examples::AMPLE;
use hip_lines::{Lines, LooseByte};
use std::alloc::Global;
use std::process::Abort;

/// Consecutive bytes that are not durable, all of one store.
struct Bytes {
    from: u64,
    count: u64,
    tag: u128,
    is_flushed: bool,
}

/// One call on the lines of a region.
#[derive(Clone, Copy)]
enum Call {
    Store { offset: u64, size: u32, tag: u128 },
    Flush { offset: u64 },
    FlushRange { offset: u64, count: u64 },
    Fence,
    /// What is not durable among the first bytes.
    NotDurable { among: u64, bytes: &'static [Bytes] },
}

/// Asserts that the loose bytes are these, and no more.
fn assert_bytes(rt: &impl Abort, found: &[LooseByte], bytes: &[Bytes]) {
    let mut at = 0usize;
    for wanted in bytes {
        for offset in wanted.from..wanted.from.wrapping_add(wanted.count) {
            let byte = LooseByte {
                offset,
                tag: wanted.tag,
                flushed: wanted.is_flushed,
            };
            assert!(rt; found.get(at).copied() == Some(byte), "byte {offset}");
            at = at.wrapping_add(1);
        }
    }
    assert!(rt; found.len() == at);
}

/// One call on this many lines.
fn make_call(rt: &impl Abort, alloc: Global, lines: &mut Lines, count: u64, call: Call)
    requires count { length lines.old.lines ≡ count }
    requires few { count ≤ 1048576 }
    ensures { length lines.new.lines ≡ count }
{
    let size_of_region = count * 64;
    match call {
        Call::Store { offset, size, tag } => {
            assert!(rt; 0 < size && size <= 8 && offset < size_of_region);
            assert!(rt; offset + u64::from(size) <= size_of_region);
            lines.note_store(offset, size, tag).expect(rt, AMPLE);
        }
        Call::Flush { offset } => {
            assert!(rt; offset < size_of_region);
            lines.flush(offset);
        }
        Call::FlushRange { offset, count } => {
            assert!(rt; 0 < count && count <= size_of_region && offset <= size_of_region - count);
            lines.flush_range(offset, count);
        }
        Call::Fence => lines.fence(),
        Call::NotDurable { among, bytes } => {
            assert!(rt; among <= size_of_region);
            let found: Vec<LooseByte> = lines
                .not_durable(0, among)
                .collect(alloc)
                .expect(rt, AMPLE);
            assert_bytes(rt, found.as_slice(), bytes);
        }
    }
}

/// The calls in turn, on this many lines.
fn make_calls(rt: &impl Abort, alloc: Global, count: u64, calls: &[Call])
    requires { count ≤ 1048576 }
{
    let mut lines = Lines::new(alloc, count * 64).expect(rt, AMPLE);
    'calls: for call in calls {
        make_call(rt, alloc, &mut lines, count, *call);
    }
}

const TWO_STORES_AND_ONE: &[Call] = &[
    Call::Store {
        offset: 0,
        size: 8,
        tag: 1,
    },
    Call::Store {
        offset: 8,
        size: 8,
        tag: 2,
    },
    Call::Flush { offset: 0 },
    Call::Store {
        offset: 4,
        size: 4,
        tag: 3,
    },
    Call::NotDurable {
        among: 16,
        bytes: &[
            Bytes {
                from: 0,
                count: 4,
                tag: 1,
                is_flushed: true,
            },
            Bytes {
                from: 4,
                count: 4,
                tag: 3,
                is_flushed: false,
            },
            Bytes {
                from: 8,
                count: 8,
                tag: 2,
                is_flushed: true,
            },
        ],
    },
    Call::Fence,
    Call::NotDurable {
        among: 16,
        bytes: &[Bytes {
            from: 4,
            count: 4,
            tag: 3,
            is_flushed: false,
        }],
    },
];

#[test]
fn loose_bytes(rt: HostRuntime) {
    make_calls(&rt, rt.alloc(), 1, TWO_STORES_AND_ONE)
}

const STORE_OVER_A_BORDER: &[Call] = &[
    Call::Store {
        offset: 60,
        size: 8,
        tag: 7,
    },
    Call::Flush { offset: 60 },
    Call::NotDurable {
        among: 128,
        bytes: &[
            Bytes {
                from: 60,
                count: 4,
                tag: 7,
                is_flushed: true,
            },
            Bytes {
                from: 64,
                count: 4,
                tag: 7,
                is_flushed: false,
            },
        ],
    },
    Call::Fence,
    Call::NotDurable {
        among: 128,
        bytes: &[Bytes {
            from: 64,
            count: 4,
            tag: 7,
            is_flushed: false,
        }],
    },
    Call::Flush { offset: 127 },
    Call::Fence,
    Call::NotDurable {
        among: 128,
        bytes: &[],
    },
];

#[test]
fn store_in_two_lines(rt: HostRuntime) {
    make_calls(&rt, rt.alloc(), 2, STORE_OVER_A_BORDER)
}

const FLUSH_OVER_A_BORDER: &[Call] = &[
    Call::Store {
        offset: 56,
        size: 8,
        tag: 1,
    },
    Call::Store {
        offset: 64,
        size: 8,
        tag: 2,
    },
    Call::Store {
        offset: 128,
        size: 8,
        tag: 3,
    },
    Call::FlushRange {
        offset: 63,
        count: 2,
    },
    Call::Fence,
    Call::NotDurable {
        among: 256,
        bytes: &[Bytes {
            from: 128,
            count: 8,
            tag: 3,
            is_flushed: false,
        }],
    },
];

#[test]
fn flush_of_a_range(rt: HostRuntime) {
    make_calls(&rt, rt.alloc(), 4, FLUSH_OVER_A_BORDER)
}

const LAST_STORE: &[Bytes] = &[Bytes {
    from: 67_108_856,
    count: 8,
    tag: 1,
    is_flushed: false,
}];

/// A region of a million lines: each of 50,000 fences takes time for one line, and each check takes time only for the
/// lines that hold something.
#[test]
fn many_lines(rt: HostRuntime) {
    let mut lines = Lines::new(rt.alloc(), 67_108_864).expect(&rt, AMPLE);
    lines.note_store(67_108_856, 8, 1).expect(&rt, AMPLE);
    'turns: for turn in 0..50_000u32 {
        let offset = u64::from(turn) * 64;
        lines.make_room(offset, 4).expect(&rt, AMPLE);
        lines.note_store(offset, 4, 2).expect(&rt, AMPLE);
        lines.flush(offset);
        lines.fence();
    }
    let found: Vec<LooseByte> = lines
        .not_durable(0, 67_108_864)
        .collect(rt.alloc())
        .expect(&rt, AMPLE);
    assert_bytes(&rt, found.as_slice(), LAST_STORE);
}
