//! Programs that `repair` refuses, with the line that says why: their text, their globals and externs, and which of two
//! faults comes first.

use crate::commands::{assert_outcome, outcome_in_chunks};
use hip_examples::{AMPLE, ONE_STORE_TRACE};
use std::alloc::Global;
use std::process::Abort;

/// A program that is refused, and why: the fault and its place, as the line of notes has them.
pub struct RefusedProgram {
    pub program: &'static str,
    pub why: &'static str,
}

/// A `main` that does nothing.
const EMPTY_MAIN: &str = "define i32 @main() {
entry:
  ret i32 0
}
";

/// Asserts that `repair` refuses this program for this reason, given from the colon or the number of the line on, and
/// writes nothing else.
pub fn assert_refused(rt: &impl Abort, alloc: Global, program: &str, why: &str) {
    let files = &[("a", program), ("b", ONE_STORE_TRACE)];
    let outcome = outcome_in_chunks(rt, alloc, &["repair", "a", "b"], files, 7);
    let notes = format!(in alloc; "hippo: program{why}\n").expect(rt, AMPLE);
    assert_outcome(rt, &outcome, 5, "", notes.as_str(), program);
}

/// Asserts the refusal of each program, with these items before it and a `main` that does nothing after it.
pub fn assert_refused_before_main(
    rt: &impl Abort,
    alloc: Global,
    items: &str,
    cases: &[RefusedProgram],
) {
    for case in cases {
        let program = format!(in alloc; "{items}{}{EMPTY_MAIN}", case.program).expect(rt, AMPLE);
        let why = format!(in alloc; ": {}", case.why).expect(rt, AMPLE);
        assert_refused(rt, alloc, program.as_str(), why.as_str());
    }
}

/// Programs that stand alone, each with its line of notes after `hippo: program`.
const WHOLE_PROGRAMS: &[RefusedProgram] = &[
    RefusedProgram {
        program: "",
        why: ": no main at program",
    },
    RefusedProgram {
        program: "define i64 @main() {\nentry:\n  ret i64 0\n}\n",
        why: ": no main at program",
    },
    RefusedProgram {
        program: "define i32 @main(i32 %n) {\nentry:\n  ret i32 %n\n}\n",
        why: ": no main at program",
    },
    RefusedProgram {
        program: "define i32 @start() {\nentry:\n  ret i32 0\n}\n",
        why: ": no main at program",
    },
    RefusedProgram {
        program: "@x = global i64 0, section \".pm\"\n\
            define i32 @main() {\nentry:\n  store i64 5, ptr @y\n  ret i32 0\n}\n",
        why: ": unknown at function 0 block 0 index 0",
    },
    RefusedProgram {
        program: "@x = global float 0",
        why: " line 1: unsupported",
    },
    RefusedProgram {
        program: "@x = global i8 256",
        why: " line 1: range",
    },
    RefusedProgram {
        program: "@x = global [1 x [1 x [1 x [1 x [1 x [1 x [1 x [1 x [1 x [1 x [1 x [1 x [1 x [1 x [1 x [1 x \
            [1 x [1 x [1 x [1 x [1 x [1 x [1 x [1 x [1 x [1 x [1 x [1 x [1 x [1 x [1 x [1 x [1 x i8",
        why: " line 1: depth",
    },
    RefusedProgram {
        program: "@x = global i64 0, section \".pm\"\n\ndefine i32 @main() {\n",
        why: " line 3: syntax",
    },
];

#[test]
fn refused_programs(rt: HostRuntime) {
    for case in WHOLE_PROGRAMS {
        assert_refused(&rt, rt.alloc(), case.program, case.why);
    }
}

const NAMES_OF_PROGRAMS: &[RefusedProgram] = &[
    RefusedProgram {
        program: "@x = global i64 0\n@y = global i64 0\n@x = global i8 1\n",
        why: "duplicate at global 2",
    },
    RefusedProgram {
        program: "@read_i64 = global i64 0\ndeclare i64 @read_i64()\n",
        why: "duplicate at extern 0",
    },
    RefusedProgram {
        program: "declare i64 @read_i64()\ndeclare i64 @read_i64()\n",
        why: "duplicate at extern 1",
    },
    RefusedProgram {
        program: "@f = global i64 0\ndefine void @f() {\nentry:\n  ret void\n}\n",
        why: "duplicate at function 0",
    },
];

#[test]
fn names_of_a_program(rt: HostRuntime) {
    assert_refused_before_main(&rt, rt.alloc(), "", NAMES_OF_PROGRAMS);
}

const TWICE: &[RefusedProgram] = &[
    RefusedProgram {
        program: "define void @f() {\nentry:\n  ret void\n}\ndefine void @f() {\nentry:\n  ret void\n}\n",
        why: "duplicate at function 1",
    },
    RefusedProgram {
        program: EMPTY_MAIN,
        why: "duplicate at function 1",
    },
];

#[test]
fn function_named_twice(rt: HostRuntime) {
    assert_refused_before_main(&rt, rt.alloc(), "", TWICE);
}

const NAMED_AS_EXTERNS: &[RefusedProgram] = &[
    RefusedProgram {
        program: "@llvm.x86.clwb = global i64 0\n",
        why: "bad extern at global 0",
    },
    RefusedProgram {
        program: "@read_i64 = global i64 0\n",
        why: "bad extern at global 0",
    },
];

#[test]
fn extern_name_as_global(rt: HostRuntime) {
    assert_refused_before_main(&rt, rt.alloc(), "", NAMED_AS_EXTERNS);
}

const GLOBALS_AND_EXTERNS: &[RefusedProgram] = &[
    RefusedProgram {
        program: "@x = global [2 x [67108864 x i8]] zeroinitializer\n",
        why: "too large at global 0",
    },
    RefusedProgram {
        program: "@y = global i8 0\n\
            @x = global ptr getelementptr ([2 x [67108864 x i8]], ptr @x, i64 0)\n",
        why: "too large at global 1",
    },
    RefusedProgram {
        program: "@x = global [2 x i8] [i8 1]\n",
        why: "bad global at global 0",
    },
    RefusedProgram {
        program: "@x = global ptr getelementptr (i8, ptr @x, i64 0, i64 0)\n",
        why: "bad global at global 0",
    },
    RefusedProgram {
        program: "@x = global ptr @y\n",
        why: "unknown at global 0",
    },
    RefusedProgram {
        program: "@x = global ptr @read_i64\ndeclare i64 @read_i64()\n",
        why: "unknown at global 0",
    },
    RefusedProgram {
        program: "declare i32 @read_i64()\n",
        why: "bad extern at extern 0",
    },
    RefusedProgram {
        program: "declare void @print_i64(ptr)\n",
        why: "bad extern at extern 0",
    },
    RefusedProgram {
        program: "declare void @write_i64(i64)\n",
        why: "bad extern at extern 0",
    },
    RefusedProgram {
        program: "define void @pmem_drain() {\nentry:\n  ret void\n}\n",
        why: "bad extern at function 0",
    },
    RefusedProgram {
        program: "@x = global [67108864 x i8] zeroinitializer, section \".pm\"\n\
            @y = global i8 0, section \".pm\"\n",
        why: "too large at program",
    },
    RefusedProgram {
        program: "@x = global [16777217 x i8] zeroinitializer\n",
        why: "too large at program",
    },
];

#[test]
fn globals_and_externs(rt: HostRuntime) {
    assert_refused_before_main(&rt, rt.alloc(), "", GLOBALS_AND_EXTERNS);
}

const TWO_FAULTS: &[RefusedProgram] = &[
    // The check of initialisers comes before that of externs, and that of externs before that of sizes.
    RefusedProgram {
        program: "@x = global ptr @y\ndeclare void @f()\n",
        why: "unknown at global 0",
    },
    RefusedProgram {
        program: "@x = global [16777217 x i8] zeroinitializer\ndeclare void @f()\n",
        why: "bad extern at extern 0",
    },
    // Names in all functions come before types in any.
    RefusedProgram {
        program: "define void @f() {\nentry:\n  ret i32 0\n}\n\
            define void @g(i32 %a, i32 %a) {\nentry:\n  ret void\n}\n",
        why: "duplicate at function 1",
    },
    // Types in all functions come before paths in any.
    RefusedProgram {
        program: "define void @f(i1 %n) {\nentry:\n  br i1 %n, label %a, label %b\n\
            a:\n  %r = add i32 1, 1\n  br label %b\nb:\n  %s = add i32 %r, 1\n  ret void\n}\n\
            define void @g() {\nentry:\n  ret i32 0\n}\n",
        why: "mismatch at function 1 block 0 end",
    },
    // Of two faults of the same kind, the first place is answered.
    RefusedProgram {
        program: "@x = global i64 0\n\
            define void @f() {\nentry:\n  store i8 0, ptr @y\n  br label %b\n}\n",
        why: "unknown at function 0 block 0 index 0",
    },
    // At one place names come before types.
    RefusedProgram {
        program: "define void @f(i32 %n) {\nentry:\n  store i64 %n, ptr @y\n  ret void\n}\n",
        why: "unknown at function 0 block 0 index 0",
    },
    // The phis of a block come before its body and its end.
    RefusedProgram {
        program: "define void @f() {\nentry:\n  br label %b\n\
            b:\n  %p = phi i32 [ 0, %b ]\n  %q = zext i8 0 to i8\n  br label %entry\n}\n",
        why: "bad edge at function 0 block 1 phi 0",
    },
];

#[test]
fn first_of_two_faults(rt: HostRuntime) {
    assert_refused_before_main(&rt, rt.alloc(), "", TWO_FAULTS);
}
