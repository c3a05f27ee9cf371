//! What a sound program gives: its functions, its addresses and its initial bytes.

use hip_examples::AMPLE;
use hip_ir::same;
use hip_parse::parse;
use hip_sound::Checked;
use hip_typing::check;
use std::alloc::Global;
use std::process::Abort;

/// Where the region begins.
const BASE: u64 = 0x1_0000_0000;

/// A sound program: volatile and persistent globals in turn, and a block that no path reaches.
const SOUND: &str = "@v = global i8 7
@x = global i8 0, section \".pm\"
@w = global i64 9
@y = global i64 0, section \".pm\"
@z = global i32 0, section \".pm\", align 256
declare i64 @read_i64()
define i32 @f(i1 %n) {
entry:
  br i1 %n, label %a, label %b
unreached:
  %q = add i32 %s, 1
  br label %b
a:
  br label %b
b:
  %p = phi i32 [ 1, %a ], [ 0, %entry ], [ %q, %unreached ]
  %s = add i32 %p, 1
  ret i32 %s
}
define i32 @main() {
entry:
  %r = call i32 @f(i1 true)
  ret i32 %r
}
";

/// The sound program of a text.
fn checked(rt: &impl Abort, alloc: Global, text: &str) -> Checked {
    let program = parse(alloc, text.as_bytes()).expect(rt, "the text is read");
    check(alloc, program).expect(rt, "the program is sound")
}

/// Names, and the number of the function of each name that is a function's.
const NUMBERS: &[(&str, Option<usize>)] = &[
    ("f", Some(0)),
    ("main", Some(1)),
    ("read_i64", None),
    ("v", None),
];

#[test]
fn functions_by_name(rt: HostRuntime) {
    let checked = checked(&rt, rt.alloc(), SOUND);
    for (name, number) in NUMBERS {
        assert!(rt;
            checked.function_number(name.as_bytes()) == *number,
            "{name}"
        );
    }
}

#[test]
fn sound_program(rt: HostRuntime) {
    let checked = checked(&rt, rt.alloc(), SOUND);
    assert!(rt; checked.region_size() == 320);
    let program = parse(rt.alloc(), SOUND.as_bytes()).expect(&rt, "the text is read");
    assert!(rt; same(checked.program(), &program));
}

/// Asserts where the first globals lie.
fn assert_addresses(rt: &impl Abort, checked: &Checked, addresses: &[u64]) {
    for (number, address) in addresses.iter().enumerate() {
        assert!(rt; number < checked.program().globals.len());
        assert_eq!(rt; checked.address(BASE, number), *address, "global {number}");
    }
}

#[test]
fn addresses_of_globals(rt: HostRuntime) {
    let checked = checked(&rt, rt.alloc(), SOUND);
    let addresses = [0x1_0000, BASE, 0x1_0008, BASE + 8, BASE + 256];
    assert_addresses(&rt, &checked, addresses.as_slice());
}

/// Two volatile globals with numbers and an address in them.
const VOLATILE: &str = "@a = global { i8, i16 } { i8 1, i16 513 }
@b = global ptr @a
define i32 @main() {
entry:
  ret i32 0
}
";

/// The same with two persistent globals between them.
const PERSISTENT: &str = "@a = global { i8, i16 } { i8 1, i16 513 }
@p = global [2 x i16] [i16 -1, i16 2], section \".pm\"
@b = global ptr @a
@q = global ptr getelementptr ({ i8, i32 }, ptr @p, i64 1, i32 1), section \".pm\"
define i32 @main() {
entry:
  ret i32 0
}
";

const VOLATILE_BYTES: [u8; 16] = [1, 0, 1, 2, 0, 0, 0, 0, 0, 0, 1, 0, 0, 0, 0, 0];

fn assert_volatile(rt: &impl Abort, alloc: Global, checked: &Checked) {
    let volatile = checked.volatile_bytes(alloc, BASE).expect(rt, AMPLE);
    let bytes = volatile.stored();
    assert!(rt; volatile.len() == 16 && VOLATILE_BYTES.as_slice().starts_with(bytes));
    assert!(rt; bytes.iter().filter(|byte| **byte != 0).count() == 4);
}

#[test]
fn initial_bytes(rt: HostRuntime) {
    let checked = checked(&rt, rt.alloc(), VOLATILE);
    assert_volatile(&rt, rt.alloc(), &checked);
    assert_addresses(&rt, &checked, [65_536, 65_544].as_slice());
}

/// The first bytes of the region; the others are 0.
const REGION_BYTES: [u8; 16] = [255, 255, 2, 0, 0, 0, 0, 0, 12, 0, 0, 0, 1, 0, 0, 0];

fn assert_region(rt: &impl Abort, alloc: Global, checked: &Checked) {
    let region = checked.region_bytes(alloc, BASE).expect(rt, AMPLE);
    let bytes = region.stored();
    assert!(rt; region.len() == 64 && REGION_BYTES.as_slice().starts_with(bytes));
    assert!(rt; bytes.iter().filter(|byte| **byte != 0).count() == 5);
}

#[test]
fn initial_bytes_of_a_region(rt: HostRuntime) {
    let checked = checked(&rt, rt.alloc(), PERSISTENT);
    assert_volatile(&rt, rt.alloc(), &checked);
    assert_region(&rt, rt.alloc(), &checked);
}
