//! Generated programs: their texts, and that each reads as a sound program.

use hip_gen::{LARGEST_SIZE, SEED_END, generate};
use hip_parse::parse;
use hip_types::Row;
use hip_typing::check;
use std::alloc::Global;
use std::process::Abort;

/// The text for seed 1 and size 8.
const SMALL_DEMO: &str = "@data = global [8 x i64] zeroinitializer, section \".pm\"
@temp = global [8 x i64] zeroinitializer
declare void @llvm.x86.clwb(ptr)
define void @put(ptr %p, i64 %v) {
entry:
  store i64 %v, ptr %p
  ret void
}
define i32 @main() {
entry:
  call void @put(ptr getelementptr ([8 x i64], ptr @data, i64 0, i64 0), i64 1)
  call void @put(ptr getelementptr ([8 x i64], ptr @data, i64 0, i64 1), i64 2)
  store i64 3, ptr getelementptr ([8 x i64], ptr @data, i64 0, i64 2)
  call void @llvm.x86.clwb(ptr getelementptr ([8 x i64], ptr @data, i64 0, i64 2))
  call void @put(ptr getelementptr ([8 x i64], ptr @temp, i64 0, i64 3), i64 4)
  call void @put(ptr getelementptr ([8 x i64], ptr @temp, i64 0, i64 4), i64 5)
  call void @put(ptr getelementptr ([8 x i64], ptr @temp, i64 0, i64 5), i64 6)
  call void @put(ptr getelementptr ([8 x i64], ptr @data, i64 0, i64 6), i64 7)
  call void @put(ptr getelementptr ([8 x i64], ptr @temp, i64 0, i64 7), i64 8)
  ret i32 0
}
";

/// The text of a program with a known length and checksum.
struct Text {
    seed: u64,
    size: u64,
    length: usize,
    checksum: u32,
}

/// Computed by a program in another language, from the lines of each kind of group.
const TEXTS: &[Text] = &[
    Text {
        seed: 0,
        size: 1,
        length: 320,
        checksum: 2_832_950_321,
    },
    Text {
        seed: 1,
        size: 1,
        length: 330,
        checksum: 3_981_666_140,
    },
    Text {
        seed: 2_147_483_647,
        size: 1,
        length: 403,
        checksum: 4_136_795_540,
    },
    Text {
        seed: 2_147_483_647,
        size: 12,
        length: 1_579,
        checksum: 331_995_166,
    },
    Text {
        seed: 7,
        size: 9,
        length: 1_096,
        checksum: 1_462_127_245,
    },
    Text {
        seed: 1,
        size: 50_000,
        length: 5_381_536,
        checksum: 192_813_033,
    },
    Text {
        seed: 2_147_483_647,
        size: 50_000,
        length: 5_365_498,
        checksum: 3_189_484_960,
    },
];

/// The Adler-32 checksum.
fn checksum(bytes: &[u8]) -> u32 {
    let mut sum: u32 = 1;
    let mut sum_of_sums: u32 = 0;
    for byte in bytes {
        sum = sum.wrapping_add(u32::from(*byte)) % 65_521;
        sum_of_sums = sum_of_sums.wrapping_add(sum) % 65_521;
    }
    sum_of_sums.wrapping_mul(65_536).wrapping_add(sum)
}

fn generated(rt: &impl Abort, alloc: Global, seed: u64, size: u64) -> Row<u8> {
    assert!(rt;
        seed < SEED_END && size > 0 && size <= LARGEST_SIZE,
        "{seed} {size}"
    );
    generate(alloc, seed, size).expect(rt, "there is memory")
}

/// Whether the text is read as a sound program.
fn is_sound(alloc: Global, text: &[u8]) -> bool {
    match parse(alloc, text) {
        Ok(program) => check(alloc, program).is_ok(),
        Err(_) => false,
    }
}

#[test]
fn small_demo(rt: HostRuntime) {
    let text = generated(&rt, rt.alloc(), 1, 8);
    assert!(rt; text.as_slice() == SMALL_DEMO.as_bytes());
}

#[test]
fn texts_of_other_seeds_and_sizes(rt: HostRuntime) {
    for case in TEXTS {
        let text = generated(&rt, rt.alloc(), case.seed, case.size);
        assert!(rt; text.len() == case.length, "{} {}", case.seed, case.size);
        assert!(rt;
            checksum(text.as_slice()) == case.checksum,
            "{} {}",
            case.seed,
            case.size
        );
    }
}

#[test]
fn generated_texts_are_read_and_sound(rt: HostRuntime) {
    for case in TEXTS {
        let text = generated(&rt, rt.alloc(), case.seed, case.size);
        assert!(rt;
            is_sound(rt.alloc(), text.as_slice()),
            "{} {}",
            case.seed,
            case.size
        );
    }
}
