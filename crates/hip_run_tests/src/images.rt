//! Images that are picked and found at entries of traces.

ghost use Rattle.std.specs.Prelude.{◌≡◌};

use crate::machines::{checked, input};
use hip_crash::{Bounds, CrashLog, Pick, PickRefusal};
use hip_examples::{AMPLE, OVERWRITTEN};
use hip_image::Image;
use hip_sound::Checked;
use hip_step::{Begin, Input, Machine, why_not};
use std::alloc::Global;
use std::process::Abort;

/// An upper bound of the steps of these programs' runs.
const MOST_STEPS: u64 = 40;

/// A store in two lines; then the second of these is made durable.
const TWO_LINES: &str = "@a = global [16 x i64] zeroinitializer, section \".pm\"
declare void @llvm.x86.clwb(ptr)
declare void @llvm.x86.sse.sfence()
define i32 @main() {
entry:
  %p = getelementptr i8, ptr @a, i64 60
  store i64 578437695752307201, ptr %p, align 1
  %q = getelementptr i8, ptr @a, i64 64
  call void @llvm.x86.clwb(ptr %q)
  call void @llvm.x86.sse.sfence()
  ret i32 0
}
";

/// Stores whose first one is flushed, and stores of another line that one call persists.
const FLUSHED: &str =
    "@a = global [16 x i64] [i64 1, i64 0, i64 0, i64 0, i64 0, i64 0, i64 0, i64 0, i64 0, i64 0, i64 0, i64 0, i64 0, i64 0, i64 0, i64 0], section \".pm\"
declare void @llvm.x86.clwb(ptr)
declare void @llvm.x86.sse.sfence()
declare void @pmem_persist(ptr, i64)
define i32 @main() {
entry:
  %q = getelementptr i64, ptr @a, i64 8
  store i64 5, ptr @a
  call void @llvm.x86.clwb(ptr @a)
  store i64 6, ptr @a
  store i64 7, ptr %q
  store i64 8, ptr %q
  call void @llvm.x86.sse.sfence()
  call void @pmem_persist(ptr %q, i64 8)
  ret i32 0
}
";

/// The picks of an image at an entry of a run's trace, and its bytes other than 0 or how the picks fail.
struct Picked {
    name: &'static str,
    program: &'static str,
    entry: u128,
    picks: &'static [Pick],
    answer: Result<&'static [(usize, u8)], PickRefusal>,
}

/// The bounds of a line at an entry of a run's trace.
struct Bounded {
    name: &'static str,
    program: &'static str,
    entry: u128,
    line: u64,
    bounds: Bounds,
}

const PICKED: &[Picked] = &[
    Picked {
        name: "nothing of two stores",
        program: OVERWRITTEN,
        entry: 4,
        picks: &[],
        answer: Ok(&[]),
    },
    Picked {
        name: "the first of two stores",
        program: OVERWRITTEN,
        entry: 4,
        picks: &[Pick { line: 0, upto: 1 }],
        answer: Ok(&[(0, 5)]),
    },
    Picked {
        name: "both stores",
        program: OVERWRITTEN,
        entry: 4,
        picks: &[Pick { line: 0, upto: 2 }],
        answer: Ok(&[(0, 6)]),
    },
    Picked {
        name: "both stores at the last entry",
        program: OVERWRITTEN,
        entry: 5,
        picks: &[Pick { line: 0, upto: 2 }],
        answer: Ok(&[(0, 6)]),
    },
    Picked {
        name: "an entry of the header",
        program: OVERWRITTEN,
        entry: 1,
        picks: &[Pick { line: 0, upto: 0 }],
        answer: Ok(&[]),
    },
    Picked {
        name: "a number above the bounds",
        program: OVERWRITTEN,
        entry: 3,
        picks: &[Pick { line: 0, upto: 2 }],
        answer: Err(PickRefusal::OutOfRange {
            at: 1,
            least: 0,
            most: 1,
        }),
    },
    Picked {
        name: "a line that is named twice, before its number",
        program: OVERWRITTEN,
        entry: 4,
        picks: &[Pick { line: 0, upto: 2 }, Pick { line: 0, upto: 9 }],
        answer: Err(PickRefusal::Repeated { at: 2 }),
    },
    Picked {
        name: "a line outside the region",
        program: OVERWRITTEN,
        entry: 4,
        picks: &[Pick { line: 1, upto: 0 }],
        answer: Err(PickRefusal::NoLine { at: 1 }),
    },
    Picked {
        name: "the first pick that fails",
        program: OVERWRITTEN,
        entry: 4,
        picks: &[Pick { line: 0, upto: 3 }, Pick { line: 1, upto: 0 }],
        answer: Err(PickRefusal::OutOfRange {
            at: 1,
            least: 0,
            most: 2,
        }),
    },
    Picked {
        name: "the first part of a store in two lines",
        program: TWO_LINES,
        entry: 3,
        picks: &[Pick { line: 0, upto: 1 }],
        answer: Ok(&[(60, 1), (61, 2), (62, 3), (63, 4)]),
    },
    Picked {
        name: "the second part of a store in two lines",
        program: TWO_LINES,
        entry: 3,
        picks: &[Pick { line: 1, upto: 1 }, Pick { line: 0, upto: 0 }],
        answer: Ok(&[(64, 5), (65, 6), (66, 7), (67, 8)]),
    },
    Picked {
        name: "a part that is durable",
        program: TWO_LINES,
        entry: 5,
        picks: &[],
        answer: Ok(&[(64, 5), (65, 6), (66, 7), (67, 8)]),
    },
    Picked {
        name: "a part that is durable, left out",
        program: TWO_LINES,
        entry: 5,
        picks: &[Pick { line: 0, upto: 1 }, Pick { line: 1, upto: 0 }],
        answer: Err(PickRefusal::OutOfRange {
            at: 2,
            least: 1,
            most: 1,
        }),
    },
    Picked {
        name: "initial bytes under a store in another line",
        program: FLUSHED,
        entry: 7,
        picks: &[Pick { line: 1, upto: 1 }],
        answer: Ok(&[(0, 1), (64, 7)]),
    },
    Picked {
        name: "a durable store and those of another line",
        program: FLUSHED,
        entry: 9,
        picks: &[Pick { line: 1, upto: 2 }],
        answer: Ok(&[(0, 5), (64, 8)]),
    },
    Picked {
        name: "stores that are persisted",
        program: FLUSHED,
        entry: 10,
        picks: &[Pick { line: 0, upto: 2 }],
        answer: Ok(&[(0, 6), (64, 8)]),
    },
];

const BOUNDED: &[Bounded] = &[
    Bounded {
        name: "the first state",
        program: FLUSHED,
        entry: 3,
        line: 0,
        bounds: Bounds { least: 0, most: 0 },
    },
    Bounded {
        name: "a flush leaves the bounds",
        program: FLUSHED,
        entry: 5,
        line: 0,
        bounds: Bounds { least: 0, most: 1 },
    },
    Bounded {
        name: "stores that wait",
        program: FLUSHED,
        entry: 8,
        line: 1,
        bounds: Bounds { least: 0, most: 2 },
    },
    Bounded {
        name: "a fence makes flushed stores durable",
        program: FLUSHED,
        entry: 9,
        line: 0,
        bounds: Bounds { least: 1, most: 2 },
    },
    Bounded {
        name: "a flush with a fence after it",
        program: FLUSHED,
        entry: 10,
        line: 1,
        bounds: Bounds { least: 2, most: 2 },
    },
];

/// A log that has noted the run up to an entry of its trace.
fn log_at<'a>(
    rt: &impl Abort,
    alloc: Global,
    checked: &'a Checked,
    input: &'a Input,
    entry: u128,
) -> CrashLog<'a>
    ensures { result.input ≡ input.now }
{
    assert!(rt; why_not(checked, input).is_none(), "the input is valid");
    let mut log = CrashLog::new(alloc, checked, input).expect(rt, AMPLE);
    let mut machine = Machine::new(alloc, checked, input).expect(rt, AMPLE);
    'steps: for _step in 0..MOST_STEPS {
        if log.entries() < entry {
            log.advance(&mut machine).expect(rt, AMPLE);
        }
    }
    log
}

/// Asserts that an image has these bytes, and zeros elsewhere.
fn assert_bytes(rt: &impl Abort, image: &Image, bytes: &[(usize, u8)], name: &str) {
    let stored = image.stored();
    let count = stored.iter().filter(|byte| **byte != 0).count();
    assert!(rt; count == bytes.len(), "{name}");
    for (place, byte) in bytes {
        assert!(rt; stored.get(*place) == Some(byte), "{name}");
    }
}

/// Asserts that an image is found, by picks that give it.
fn assert_found(
    rt: &impl Abort,
    alloc: Global,
    log: &CrashLog,
    input: &Input,
    image: &Image,
    name: &str,
)
    requires { log.now.input ≡ input.now }
{
    assert!(rt; image.len() == input.image.len(), "{name}");
    let found = log.find_picks(alloc, image).expect(rt, AMPLE);
    let picks = found.expect(rt, "the image is found");
    assert!(rt; picks.len() == image.len() / 64, "{name}");
    match log.pick_image(alloc, picks.as_slice()) {
        Ok(again) => assert!(rt; again.stored() == image.stored(), "{name}"),
        Err(_) => assert!(rt; false, "{name}"),
    }
}

fn assert_answer(rt: &impl Abort, alloc: Global, log: &CrashLog, input: &Input, picked: &Picked)
    requires { log.now.input ≡ input.now }
{
    match (log.pick_image(alloc, picked.picks), picked.answer) {
        (Ok(image), Ok(bytes)) => {
            assert_bytes(rt, &image, bytes, picked.name);
            assert_found(rt, alloc, log, input, &image, picked.name);
        }
        (Err(refusal), Err(wanted)) => assert!(rt; refusal == wanted, "{}", picked.name),
        _ => assert!(rt; false, "{}", picked.name),
    }
}

fn assert_picked(rt: &impl Abort, alloc: Global, picked: &Picked) {
    let checked = checked(rt, alloc, picked.program);
    let input = input(rt, alloc, &checked, &[], 100);
    let log = log_at(rt, alloc, &checked, &input, picked.entry);
    assert_answer(rt, alloc, &log, &input, picked);
}

fn assert_bounds(rt: &impl Abort, log: &CrashLog, input: &Input, bounded: &Bounded)
    requires { log.now.input ≡ input.now }
{
    assert!(rt;
        bounded.line < input.image.len() as u64 / 64,
        "{}",
        bounded.name
    );
    assert!(rt;
        log.bounds(bounded.line) == bounded.bounds,
        "{}",
        bounded.name
    );
}

fn assert_bounded(rt: &impl Abort, alloc: Global, bounded: &Bounded) {
    let checked = checked(rt, alloc, bounded.program);
    let input = input(rt, alloc, &checked, &[], 100);
    let log = log_at(rt, alloc, &checked, &input, bounded.entry);
    assert_bounds(rt, &log, &input, bounded);
}

#[test]
fn images_are_picked_and_found_again(rt: HostRuntime) {
    for picked in PICKED {
        assert_picked(&rt, rt.alloc(), picked);
    }
}

#[test]
fn lines_have_bounds(rt: HostRuntime) {
    for bounded in BOUNDED {
        assert_bounded(&rt, rt.alloc(), bounded);
    }
}

/// An image of the region that begins with a 7 and has zeros elsewhere.
fn seven_in_front(rt: &impl Abort, alloc: Global, len: usize) -> Image {
    let mut image = Image::new(alloc);
    image.push(7).expect(rt, AMPLE);
    for _place in 1..len {
        image.push(0).expect(rt, AMPLE);
    }
    image
}

fn assert_not_found(rt: &impl Abort, alloc: Global, log: &CrashLog, input: &Input, image: &Image)
    requires { log.now.input ≡ input.now }
{
    assert!(rt; image.len() == input.image.len());
    let found = log.find_picks(alloc, image).expect(rt, AMPLE);
    assert!(rt; found.is_none());
}

#[test]
fn what_no_crash_leaves_is_not_found(rt: HostRuntime) {
    let checked = checked(&rt, rt.alloc(), OVERWRITTEN);
    let input = input(&rt, rt.alloc(), &checked, &[], 100);
    let log = log_at(&rt, rt.alloc(), &checked, &input, 4);
    let image = seven_in_front(&rt, rt.alloc(), input.image.len());
    assert_not_found(&rt, rt.alloc(), &log, &input, &image);
}
