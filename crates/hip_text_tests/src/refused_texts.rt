//! Texts that read as no program, with the line of the first token that leaves the language.

use hip_parse::{ParseRefusal, parse};
use std::alloc::Global;
use std::process::Abort;

/// A text, and why no program is read from it.
struct RefusedText {
    text: &'static str,
    why: ParseRefusal,
}

fn assert_refused(rt: &impl Abort, alloc: Global, text: &str, why: &ParseRefusal) {
    match parse(alloc, text.as_bytes()) {
        Ok(_program) => assert!(rt; false, "read: {text}"),
        Err(refusal) => assert!(rt; refusal == *why, "another refusal: {text}"),
    }
}

fn assert_all_refused(rt: &impl Abort, alloc: Global, cases: &[RefusedText]) {
    for case in cases {
        assert_refused(rt, alloc, case.text, &case.why);
    }
}

const TEXTS_CUT_SHORT: &[RefusedText] = &[
    RefusedText {
        text: "@x = global i64",
        why: ParseRefusal::Syntax { line: 1 },
    },
    RefusedText {
        text: "@x = global i64\n",
        why: ParseRefusal::Syntax { line: 1 },
    },
    RefusedText {
        text: "\n@x = global\n\n",
        why: ParseRefusal::Syntax { line: 3 },
    },
    RefusedText {
        text: "define void @f() {\n",
        why: ParseRefusal::Syntax { line: 1 },
    },
    RefusedText {
        text: "define void @f() {\na:\n",
        why: ParseRefusal::Syntax { line: 2 },
    },
    RefusedText {
        text: "declare",
        why: ParseRefusal::Syntax { line: 1 },
    },
    RefusedText {
        text: "\n@x",
        why: ParseRefusal::Syntax { line: 2 },
    },
];

#[test]
fn ends_of_texts(rt: HostRuntime) {
    assert_all_refused(&rt, rt.alloc(), TEXTS_CUT_SHORT);
}

const MISPLACED: &[RefusedText] = &[
    RefusedText {
        text: "@x = global ptr 5",
        why: ParseRefusal::Syntax { line: 1 },
    },
    RefusedText {
        text: "define i32 @main( 5",
        why: ParseRefusal::Syntax { line: 1 },
    },
    RefusedText {
        text: "\n%T = type",
        why: ParseRefusal::Syntax { line: 2 },
    },
    RefusedText {
        text: "@x = global i8 true",
        why: ParseRefusal::Syntax { line: 1 },
    },
    RefusedText {
        text: "@x = global [1 x i8] { i8 1 }",
        why: ParseRefusal::Syntax { line: 1 },
    },
    RefusedText {
        text: "store",
        why: ParseRefusal::Syntax { line: 1 },
    },
    RefusedText {
        text: "ptr",
        why: ParseRefusal::Syntax { line: 1 },
    },
    RefusedText {
        text: "void",
        why: ParseRefusal::Syntax { line: 1 },
    },
    RefusedText {
        text: "\"abc",
        why: ParseRefusal::Syntax { line: 1 },
    },
    RefusedText {
        text: "%x:",
        why: ParseRefusal::Syntax { line: 1 },
    },
    RefusedText {
        text: "@x = global i8 0, align 8, section \".pm\"",
        why: ParseRefusal::Syntax { line: 1 },
    },
    RefusedText {
        text: "@x = global i8 1\nunnamed_addr",
        why: ParseRefusal::Syntax { line: 2 },
    },
    RefusedText {
        text: "@x = global i8 - 1",
        why: ParseRefusal::Syntax { line: 1 },
    },
    RefusedText {
        text: "declare void @f(ptr, ...)",
        why: ParseRefusal::Syntax { line: 1 },
    },
];

#[test]
fn misplaced_tokens(rt: HostRuntime) {
    assert_all_refused(&rt, rt.alloc(), MISPLACED);
}

const BODIES: &[RefusedText] = &[
    RefusedText {
        text: "define i32 @main( 5",
        why: ParseRefusal::Syntax { line: 1 },
    },
    RefusedText {
        text: "define i32 @main() {",
        why: ParseRefusal::Syntax { line: 1 },
    },
    RefusedText {
        text: "define i32 @main() {\nentry:\n  %1 = add i64 1, 2",
        why: ParseRefusal::Unsupported { line: 3 },
    },
    RefusedText {
        text: "define i32 @main() {\nentry:\n  %q = shl i8 %a, 300",
        why: ParseRefusal::Range { line: 3 },
    },
    RefusedText {
        text: "define void @f() {\n}",
        why: ParseRefusal::Syntax { line: 2 },
    },
    RefusedText {
        text: "define void @f() {\na:\n  store i8 1, ptr @x\n  %p = phi i8 [ 0, %a ]",
        why: ParseRefusal::Syntax { line: 4 },
    },
    RefusedText {
        text: "define void @f() {\na:\n  ret ptr void",
        why: ParseRefusal::Syntax { line: 3 },
    },
    RefusedText {
        text: "define void @f() {\na:\n  %x = add exact i8 1, 2",
        why: ParseRefusal::Syntax { line: 3 },
    },
    RefusedText {
        text: "define void @f() {\na:\n  %x = udiv nuw i8 1, 2",
        why: ParseRefusal::Syntax { line: 3 },
    },
    RefusedText {
        text: "define void @f() {\na:\n  br i8 1",
        why: ParseRefusal::Unsupported { line: 3 },
    },
    RefusedText {
        text: "define void @f() {\na:\n  br label a",
        why: ParseRefusal::Syntax { line: 3 },
    },
    RefusedText {
        text: "define void @f() {\na:\n  %x = select i1 true, i8 1, i16 2",
        why: ParseRefusal::Unsupported { line: 3 },
    },
    RefusedText {
        text: "define void @f() {\na:\n  %x = select i1 true, ptr @x, void",
        why: ParseRefusal::Syntax { line: 3 },
    },
    RefusedText {
        text: "define void @f() {\na:\n  switch i64 1, label %a [\n i32",
        why: ParseRefusal::Unsupported { line: 4 },
    },
    RefusedText {
        text: "define void @f() {\na:\n  %x = phi i8",
        why: ParseRefusal::Syntax { line: 3 },
    },
    RefusedText {
        text: "define void @f() {\na:\n  ret void\n  ret void",
        why: ParseRefusal::Syntax { line: 4 },
    },
    RefusedText {
        text: "define void @f() {\na:\n  %x = fadd",
        why: ParseRefusal::Unsupported { line: 3 },
    },
    RefusedText {
        text: "define void @f() {\na:\n  %x = store",
        why: ParseRefusal::Syntax { line: 3 },
    },
];

#[test]
fn body_refusals(rt: HostRuntime) {
    assert_all_refused(&rt, rt.alloc(), BODIES);
}

const OUT_OF_RANGE: &[RefusedText] = &[
    RefusedText {
        text: "@y = global i1 2",
        why: ParseRefusal::Range { line: 1 },
    },
    RefusedText {
        text: "@x = global i8 256",
        why: ParseRefusal::Range { line: 1 },
    },
    RefusedText {
        text: "@x = global i8 -129",
        why: ParseRefusal::Range { line: 1 },
    },
    RefusedText {
        text: "@x = global [-1 x i8]",
        why: ParseRefusal::Range { line: 1 },
    },
    RefusedText {
        text: "@x = global [67108865 x i8]",
        why: ParseRefusal::Range { line: 1 },
    },
    RefusedText {
        text: "@x = global i8 0, align 3",
        why: ParseRefusal::Range { line: 1 },
    },
    RefusedText {
        text: "@x = global i8 0, align 8192",
        why: ParseRefusal::Range { line: 1 },
    },
    RefusedText {
        text: "@x = global i8 0, align 0",
        why: ParseRefusal::Range { line: 1 },
    },
    RefusedText {
        text: "@x = global i1 2",
        why: ParseRefusal::Range { line: 1 },
    },
    RefusedText {
        text: "@x = global i1 -2",
        why: ParseRefusal::Range { line: 1 },
    },
    RefusedText {
        text: "@x = global i64 18446744073709551616",
        why: ParseRefusal::Range { line: 1 },
    },
    RefusedText {
        text: "@x = global i64 -9223372036854775809",
        why: ParseRefusal::Range { line: 1 },
    },
    RefusedText {
        text: "@x = global ptr getelementptr (i8, ptr @x,\n i1 2",
        why: ParseRefusal::Range { line: 2 },
    },
    RefusedText {
        text: "define void @f() {\na:\n  switch i8 1, label %a [ i8 300",
        why: ParseRefusal::Range { line: 3 },
    },
];

#[test]
fn numbers_out_of_range(rt: HostRuntime) {
    assert_all_refused(&rt, rt.alloc(), OUT_OF_RANGE);
}

const UNSUPPORTED: &[RefusedText] = &[
    RefusedText {
        text: "@x = global float 0",
        why: ParseRefusal::Unsupported { line: 1 },
    },
    RefusedText {
        text: "@x = global i128 0",
        why: ParseRefusal::Unsupported { line: 1 },
    },
    RefusedText {
        text: "@x = global i64 5, section\n\".data\"",
        why: ParseRefusal::Unsupported { line: 2 },
    },
    RefusedText {
        text: "!",
        why: ParseRefusal::Unsupported { line: 1 },
    },
    RefusedText {
        text: "#",
        why: ParseRefusal::Unsupported { line: 1 },
    },
    RefusedText {
        text: "<",
        why: ParseRefusal::Unsupported { line: 1 },
    },
    RefusedText {
        text: "*",
        why: ParseRefusal::Unsupported { line: 1 },
    },
    RefusedText {
        text: "@1 = global",
        why: ParseRefusal::Unsupported { line: 1 },
    },
    RefusedText {
        text: "%1",
        why: ParseRefusal::Unsupported { line: 1 },
    },
    RefusedText {
        text: "define i32 i32",
        why: ParseRefusal::Unsupported { line: 1 },
    },
    RefusedText {
        text: "@x = global i8 undef",
        why: ParseRefusal::Unsupported { line: 1 },
    },
    RefusedText {
        text: "@x = global i64 0 ; c\n@y = external global i64",
        why: ParseRefusal::Unsupported { line: 2 },
    },
    RefusedText {
        text: "@\"a b\"",
        why: ParseRefusal::Unsupported { line: 1 },
    },
];

#[test]
fn unsupported_forms(rt: HostRuntime) {
    assert_all_refused(&rt, rt.alloc(), UNSUPPORTED);
}

/// Words of LLVM's text that are not in the language.
const UNSUPPORTED_WORDS: &str =
    "half bfloat float double fp128 x86_fp80 ppc_fp128 metadata label token vector undef poison \
    freeze c none fadd fsub fmul fdiv frem fneg fcmp fptoui fptosi uitofp sitofp fpext fptrunc \
    bitcast addrspacecast extractelement insertelement shufflevector extractvalue insertvalue \
    atomicrmw cmpxchg fence atomic volatile invoke resume landingpad catchswitch cleanupret callbr \
    indirectbr va_arg asm musttail notail attributes module type opaque comdat alias ifunc external \
    extern_weak weak linkonce common thread_local addrspace disjoint nneg samesign nusw noundef \
    nonnull nocapture readonly writeonly nounwind noinline alwaysinline optnone uselistorder";

#[test]
fn unsupported_words(rt: HostRuntime) {
    for word in UNSUPPORTED_WORDS.as_bytes().split(|byte| *byte == b' ') {
        match parse(rt.alloc(), word) {
            Ok(_program) => assert!(rt; false),
            Err(refusal) => assert!(rt; refusal == ParseRefusal::Unsupported { line: 1 }),
        }
    }
}
