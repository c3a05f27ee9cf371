//! Texts that are read though they are close to the limits of the language.

use hip_parse::parse;

/// Empty texts, dropped items, words without an effect, and numbers at the ends of their ranges.
const TEXTS: &[&str] = &[
    "",
    "; only a comment",
    "source_filename = \"a.c\"\ntarget triple = \"x\"\ntarget datalayout = \"\"\n",
    "@x = private unnamed_addr constant i1 -1, align 4096",
    "@x = dso_local local_unnamed_addr global i8 255",
    "@x = global i8 -128, section \".pm\", align 1",
    "@x = global i64 -9223372036854775808",
    "@x = global [67108864 x i8] zeroinitializer",
    "@x = global {{{{{{{{{{{{{{{{{{{{{{{{{{{{{{{{}}}}}}}}}}}}}}}}}}}}}}}}}}}}}}}} zeroinitializer",
    "@x = global [1 x [1 x [1 x [1 x [1 x [1 x [1 x [1 x [1 x [1 x [1 x [1 x [1 x [1 x [1 x [1 x \
     [1 x [1 x [1 x [1 x [1 x [1 x [1 x [1 x [1 x [1 x [1 x [1 x [1 x [1 x [1 x [1 x i8\
     ]]]]]]]]]]]]]]]]]]]]]]]]]]]]]]]] zeroinitializer",
    "declare i64 @f(ptr, i1) unnamed_addr",
    "define internal dso_local i32 @f(ptr %a, i64 %b) local_unnamed_addr { a: unreachable b: ret i32 -00 }",
];

#[test]
fn texts_at_the_limits(rt: HostRuntime) {
    for text in TEXTS {
        assert!(rt; parse(rt.alloc(), text.as_bytes()).is_ok(), "{text}");
    }
}
