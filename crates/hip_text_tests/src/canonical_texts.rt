//! Programs that are read, and written in their canonical text.

use hip_examples::{
    AMPLE, COPY, ENDLESS_LOOP, EVEN_AND_ODD, KEY_VALUE_LOG, ONE_STORE, ONE_STORE_REPAIRED, REACH,
};
use hip_io::MemSink;
use hip_ir::{same, spelled};
use hip_parse::parse;
use hip_tree::Program;
use hip_types::Row;
use hip_write::write;
use std::alloc::Global;
use std::process::Abort;

/// Asserts that the program is written as this text.
fn assert_written(rt: &impl Abort, alloc: Global, program: &Program, text: &str) {
    let mut sink = MemSink::new(alloc, 10_000).expect(rt, AMPLE);
    assert!(rt; write(program, &mut sink).is_ok(), "{text}");
    assert_eq!(rt; sink.bytes(), text.as_bytes());
}

/// Asserts that this text is read as the same program.
fn assert_read(rt: &impl Abort, alloc: Global, text: &str, program: &Program) {
    let again = parse(alloc, text.as_bytes()).expect(rt, "the canonical text is read");
    assert!(rt; same(program, &again), "{text}");
}

/// Asserts that a text is read, that its program is spelled and written as the canonical text, and that this text is
/// read as the same program.
fn assert_written_as(rt: &impl Abort, alloc: Global, text: &str, canonical: &str) {
    let program = parse(alloc, text.as_bytes()).expect(rt, "the text is read");
    assert!(rt; spelled(&program), "{text}");
    assert_written(rt, alloc, &program, canonical);
    assert_read(rt, alloc, canonical, &program);
}

const TABLE: &str = "@t = private constant [2 x { i8, ptr }] [ { i8, ptr } { i8 255, ptr @t },
  { i8, ptr } zeroinitializer ], align 16 ; table
";

const TABLE_WRITTEN: &str =
    "@t = constant [2 x { i8, ptr }] [{ i8, ptr } { i8 -1, ptr @t }, { i8, ptr } zeroinitializer], align 16\n";

#[test]
fn canonical_table(rt: HostRuntime) {
    assert_written_as(&rt, rt.alloc(), TABLE, TABLE_WRITTEN);
}

const FLAGS: &str = "define i64 @f(i64 %a, i64 %x) {
entry:
  %r = add nsw nuw i64 %a, 1
  switch i64 %x, label %d [ ]
d:
  ret i64 %r
}
";

const FLAGS_WRITTEN: &str = "define i64 @f(i64 %a, i64 %x) {
entry:
  %r = add nuw nsw i64 %a, 1
  switch i64 %x, label %d [ ]
d:
  ret i64 %r
}
";

#[test]
fn canonical_flags(rt: HostRuntime) {
    assert_written_as(&rt, rt.alloc(), FLAGS, FLAGS_WRITTEN);
}

const CANONICAL: &[&str] = &[
    ONE_STORE,
    ONE_STORE_REPAIRED,
    COPY,
    EVEN_AND_ODD,
    ENDLESS_LOOP,
    REACH,
    KEY_VALUE_LOG,
];

#[test]
fn canonical_texts_stay(rt: HostRuntime) {
    for text in CANONICAL {
        assert_written_as(&rt, rt.alloc(), text, text);
    }
}

#[test]
fn no_name_is_not_spelled(rt: HostRuntime) {
    let alloc = rt.alloc();
    let mut program = parse(alloc, ONE_STORE.as_bytes()).expect(&rt, "the text is read");
    let mut nameless = program.globals.pop().expect(&rt, "it has a global");
    nameless.name = Row::new(alloc);
    program.globals.push(nameless).expect(&rt, AMPLE);
    assert!(rt; !spelled(&program));
}
