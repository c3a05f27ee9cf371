//! Functions that make a program unsound: names, types, edges and paths inside them.

use crate::refused_programs::{RefusedProgram, assert_refused, assert_refused_before_main};
use hip_parse::parse;
use hip_sound::{Place, TypeFault, TypeRefusal};
use hip_tree::Site;
use hip_types::Row;
use hip_typing::check;
use std::alloc::Global;
use std::process::Abort;

/// What comes before each function.
const CALLEES: &str = "@x = global i64 0
declare i64 @read_i64()
declare void @print_i64(i64)
define void @g(i32 %n) {
entry:
  ret void
}
";

const NAMES_IN_FUNCTIONS: &[RefusedProgram] = &[
    RefusedProgram {
        program: "define void @f(i32 %a, i32 %a) {\nentry:\n  ret void\n}\n",
        why: "duplicate at function 1",
    },
    RefusedProgram {
        program: "define void @f(i32 %a) {\na:\n  ret void\n}\n",
        why: "duplicate at function 1",
    },
    RefusedProgram {
        program: "define void @f() {\nentry:\n  br label %b\nb:\n  br label %b\nb:\n  ret void\n}\n",
        why: "duplicate at function 1",
    },
    RefusedProgram {
        program: "define void @f(i32 %a) {\nentry:\n  br label %b\n\
            b:\n  %a = phi i32 [ 0, %entry ]\n  ret void\n}\n",
        why: "duplicate at function 1 block 1 phi 0",
    },
    RefusedProgram {
        program: "define void @f(i32 %a) {\n\
            entry:\n  %b = add i32 %a, 1\n  %b = add i32 %a, 1\n  ret void\n}\n",
        why: "duplicate at function 1 block 0 index 1",
    },
];

#[test]
fn names_inside_functions(rt: HostRuntime) {
    assert_refused_before_main(&rt, rt.alloc(), CALLEES, NAMES_IN_FUNCTIONS);
}

const NAMES_AT_PLACES: &[RefusedProgram] = &[
    RefusedProgram {
        program: "define void @f() {\nentry:\n  store i64 %a, ptr @x\n  ret void\n}\n",
        why: "unknown at function 1 block 0 index 0",
    },
    RefusedProgram {
        program: "define void @f() {\nentry:\n  store i64 0, ptr @y\n  ret void\n}\n",
        why: "unknown at function 1 block 0 index 0",
    },
    RefusedProgram {
        program: "define void @f() {\nentry:\n  store i64 0, ptr @g\n  ret void\n}\n",
        why: "unknown at function 1 block 0 index 0",
    },
    RefusedProgram {
        program: "define void @f() {\nentry:\n  call void @x()\n  ret void\n}\n",
        why: "unknown at function 1 block 0 index 0",
    },
    RefusedProgram {
        program: "define void @f() {\nentry:\n  br label %b\n}\n",
        why: "unknown at function 1 block 0 end",
    },
    RefusedProgram {
        program: "define i32 @f() {\nentry:\n  ret i32 %a\n}\n",
        why: "unknown at function 1 block 0 end",
    },
    RefusedProgram {
        program: "define void @f() {\nentry:\n  br label %b\n\
            b:\n  %a = phi i32 [ 0, %entry ], [ 1, %c ]\n  ret void\n}\n",
        why: "unknown at function 1 block 1 phi 0",
    },
    RefusedProgram {
        program: "define void @f() {\nentry:\n  %a = alloca [2 x [67108864 x i8]]\n  ret void\n}\n",
        why: "too large at function 1 block 0 index 0",
    },
    RefusedProgram {
        program: "define void @f() {\nentry:\n  br label %b\n\
            b:\n  %a = phi ptr [ getelementptr ([2 x [67108864 x i8]], ptr @x, i64 0), %entry ]\n  ret void\n\
            }\n",
        why: "too large at function 1 block 1 phi 0",
    },
    RefusedProgram {
        program: "define ptr @f() {\n\
            entry:\n  ret ptr getelementptr ([2 x [67108864 x i8]], ptr @x, i64 0)\n}\n",
        why: "too large at function 1 block 0 end",
    },
];

#[test]
fn names_at_places(rt: HostRuntime) {
    assert_refused_before_main(&rt, rt.alloc(), CALLEES, NAMES_AT_PLACES);
}

const TYPES_AT_PLACES: &[RefusedProgram] = &[
    RefusedProgram {
        program: "define void @f(i32 %a) {\nentry:\n  store i64 %a, ptr @x\n  ret void\n}\n",
        why: "mismatch at function 1 block 0 index 0",
    },
    RefusedProgram {
        program: "define void @f(i32 %a) {\nentry:\n  %b = zext i32 %a to i32\n  ret void\n}\n",
        why: "mismatch at function 1 block 0 index 0",
    },
    RefusedProgram {
        program: "define void @f(i32 %a) {\nentry:\n  %b = trunc i32 %a to i64\n  ret void\n}\n",
        why: "mismatch at function 1 block 0 index 0",
    },
    RefusedProgram {
        program: "define void @f() {\nentry:\n  %a = call i32 @read_i64()\n  ret void\n}\n",
        why: "mismatch at function 1 block 0 index 0",
    },
    RefusedProgram {
        program: "define void @f() {\nentry:\n  call void @print_i64()\n  ret void\n}\n",
        why: "mismatch at function 1 block 0 index 0",
    },
    RefusedProgram {
        program: "define void @f() {\nentry:\n  call void @g(i64 0)\n  ret void\n}\n",
        why: "mismatch at function 1 block 0 index 0",
    },
    RefusedProgram {
        program: "define void @f(i32 %n) {\n\
            entry:\n  %a = getelementptr { i8, i8 }, ptr @x, i32 0, i32 %n\n  ret void\n}\n",
        why: "mismatch at function 1 block 0 index 0",
    },
    RefusedProgram {
        program: "define void @f() {\n\
            entry:\n  %a = getelementptr { i8, i8 }, ptr @x, i32 0, i32 2\n  ret void\n}\n",
        why: "mismatch at function 1 block 0 index 0",
    },
    RefusedProgram {
        program: "define void @f() {\nentry:\n  ret i32 0\n}\n",
        why: "mismatch at function 1 block 0 end",
    },
    RefusedProgram {
        program: "define i32 @f() {\nentry:\n  ret void\n}\n",
        why: "mismatch at function 1 block 0 end",
    },
    RefusedProgram {
        program: "define void @f(i32 %n) {\nentry:\n  br i1 %n, label %b, label %b\nb:\n  ret void\n\
            }\n",
        why: "mismatch at function 1 block 0 end",
    },
    RefusedProgram {
        program: "define void @f(i32 %n) {\nentry:\n  br label %b\n\
            b:\n  %a = phi i64 [ %n, %entry ]\n  ret void\n}\n",
        why: "mismatch at function 1 block 1 phi 0",
    },
    RefusedProgram {
        program: "define void @f(i32 %n) {\n\
            entry:\n  switch i32 %n, label %b [ i32 1, label %b i32 2, label %b i32 1, label %c ]\n\
            b:\n  ret void\nc:\n  ret void\n}\n",
        why: "duplicate at function 1 block 0 end",
    },
    RefusedProgram {
        program: "define void @f() {\nentry:\n  br label %b\nb:\n  br label %entry\n}\n",
        why: "bad edge at function 1 block 1 end",
    },
    RefusedProgram {
        program: "define void @f() {\nentry:\n  br label %b\n\
            b:\n  %a = phi i32 [ 0, %entry ], [ 0, %b ]\n  ret void\n}\n",
        why: "bad edge at function 1 block 1 phi 0",
    },
    RefusedProgram {
        program: "define void @f(i1 %n) {\nentry:\n  br i1 %n, label %b, label %b\n\
            b:\n  %a = phi i32 [ 0, %entry ], [ 1, %entry ]\n  ret void\n}\n",
        why: "bad edge at function 1 block 1 phi 0",
    },
];

#[test]
fn types_at_places(rt: HostRuntime) {
    assert_refused_before_main(&rt, rt.alloc(), CALLEES, TYPES_AT_PLACES);
}

const PHIS: &[RefusedProgram] = &[
    RefusedProgram {
        program: "define void @f() {\nentry:\n  br label %loop\n\
            loop:\n  %i = phi i64 [ 0, %entry ]\n  br label %loop\n}\n",
        why: "bad edge at function 0 block 1 phi 0",
    },
    RefusedProgram {
        program: "define void @f(i1 %n) {\nentry:\n  br i1 %n, label %a, label %b\n\
            a:\n  br label %b\n\
            b:\n  %p = phi i32 [ 0, %a ]\n  ret void\n}\n",
        why: "bad edge at function 0 block 2 phi 0",
    },
];

#[test]
fn phi_without_predecessor(rt: HostRuntime) {
    assert_refused_before_main(&rt, rt.alloc(), "", PHIS);
}

const USES_ON_PATHS: &[RefusedProgram] = &[
    RefusedProgram {
        program: "define i32 @f() {\n\
            entry:\n  %a = add i32 %b, 1\n  %b = add i32 %a, 1\n  ret i32 %b\n}\n",
        why: "unassigned at function 1 block 0 index 0",
    },
    RefusedProgram {
        program: "define i32 @f(i1 %n) {\nentry:\n  br i1 %n, label %a, label %b\n\
            a:\n  %r = add i32 1, 1\n  br label %b\nb:\n  ret i32 %r\n}\n",
        why: "unassigned at function 1 block 2 end",
    },
    // The use in a phi is at the end of the predecessor.
    RefusedProgram {
        program: "define i32 @f(i1 %n) {\nentry:\n  br i1 %n, label %a, label %b\n\
            a:\n  %r = add i32 1, 1\n  br label %b\n\
            b:\n  %p = phi i32 [ %r, %a ], [ %r, %entry ]\n  ret i32 %p\n}\n",
        why: "unassigned at function 1 block 2 phi 0",
    },
];

#[test]
fn uses_on_paths(rt: HostRuntime) {
    assert_refused_before_main(&rt, rt.alloc(), CALLEES, USES_ON_PATHS);
}

/// `%x` is assigned on one of two branches, and used where they meet, in block 2.
const ONE_BRANCH: &str = "declare void @print_i64(i64)
define i32 @main() {
entry:
  br i1 true, label %a, label %b
a:
  %x = add i64 1, 2
  br label %b
b:
  call void @print_i64(i64 %x)
  ret i32 0
}
";

/// The same, with the branches as blocks of their own that meet in block 3.
const TWO_BRANCHES: &str = "define i32 @main() {
entry:
  br i1 true, label %a, label %b
a:
  %r = add i32 1, 1
  br label %c
b:
  br label %c
c:
  %s = add i32 %r, 1
  ret i32 %s
}
";

/// Asserts that a program is refused because it uses a register that is not assigned on this path.
fn assert_unassigned(rt: &impl Abort, alloc: Global, text: &str, at: Place, on: &[usize]) {
    let program = parse(alloc, text.as_bytes()).expect(rt, "the text is read");
    match check(alloc, program) {
        Err(TypeRefusal { fault, place }) => {
            assert_eq!(rt; place, at);
            match fault {
                TypeFault::Unassigned { path } => assert_eq!(rt; path.as_slice(), on),
                _ => assert!(rt; false, "refused for another fault"),
            }
        }
        Ok(_) => assert!(rt; false, "not refused"),
    }
}

/// The first instruction of a block of the first function.
fn first_in(block: usize) -> Place {
    Place::Body(Site {
        function: 0,
        block,
        index: 0,
    })
}

#[test]
fn unassigned_on_one_branch(rt: HostRuntime) {
    assert_unassigned(&rt, rt.alloc(), ONE_BRANCH, first_in(2), &[0, 2]);
    assert_refused(
        &rt,
        rt.alloc(),
        ONE_BRANCH,
        ": unassigned at function 0 block 2 index 0",
    );
    assert_unassigned(&rt, rt.alloc(), TWO_BRANCHES, first_in(3), &[0, 2, 3]);
}
