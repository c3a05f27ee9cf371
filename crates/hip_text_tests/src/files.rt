//! Files and sinks in memory.

ghost use Rattle.std.specs.Prelude.{◌<◌, ◌≤◌, ◌^◌};

use hip_examples::AMPLE;
use hip_io::{
    Cabinet, FailAt, FailingCabinet, Fetched, MemCabinet, MemSink, NamedFile, Put, ReadRefusal,
    Sink, read_all,
};
use hip_types::Row;
use std::alloc::Global;
use std::process::Abort;

fn bytes_of(rt: &impl Abort, alloc: Global, bytes: &[u8]) -> Row<u8> {
    Row::from_slice(alloc, bytes).expect(rt, AMPLE)
}

fn cabinet_of(rt: &impl Abort, alloc: Global, name: &[u8], bytes: &[u8], chunk: usize) -> MemCabinet
    requires { 1 ≤ chunk }
{
    let mut files = Row::new(alloc);
    let file = NamedFile {
        name: bytes_of(rt, alloc, name),
        bytes: bytes_of(rt, alloc, bytes),
    };
    files.push(file).expect(rt, AMPLE);
    MemCabinet::new(files, chunk)
}

/// Asserts that the file `a` has the bytes `seven b`.
fn assert_seven_read(rt: &impl Abort, alloc: Global, cabinet: &mut MemCabinet) {
    let bytes = read_all(alloc, cabinet, "a", 7).expect(rt, "the file is read");
    assert!(rt; bytes.as_slice() == b"seven b".as_slice());
}

#[test]
fn reads_in_chunks_of_any_size(rt: HostRuntime) {
    for chunk in [1, 2, 7, 5000] {
        let mut cabinet = cabinet_of(&rt, rt.alloc(), b"a", b"seven b", chunk);
        assert_seven_read(&rt, rt.alloc(), &mut cabinet);
    }
}

/// Asserts why a file is not read when n bytes are allowed.
fn assert_refused<C: Cabinet>(
    rt: &impl Abort,
    alloc: Global,
    cabinet: &mut C,
    name: &str,
    most: u64,
    refusal: ReadRefusal,
)
    requires { most < 2 ^ 63 }
{
    let found = read_all(alloc, cabinet, name, most).err();
    assert!(rt; found == Some(refusal), "{name}");
}

#[test]
fn refuses_by_name(rt: HostRuntime) {
    let mut cabinet = cabinet_of(&rt, rt.alloc(), b"a", b"seven b", 3);
    assert_refused(&rt, rt.alloc(), &mut cabinet, "a", 6, ReadRefusal::TooLarge);
    assert_refused(&rt, rt.alloc(), &mut cabinet, "b", 6, ReadRefusal::Missing);
}

/// A cabinet whose file `a` fails at this point.
fn failing(rt: &impl Abort, alloc: Global, at: FailAt) -> FailingCabinet {
    let inner = cabinet_of(rt, alloc, b"a", b"seven b", 3);
    FailingCabinet::new(inner, bytes_of(rt, alloc, b"a"), at)
}

const FAULTS: &[FailAt] = &[
    FailAt::Fetch,
    FailAt::Byte(0),
    FailAt::Byte(4),
    FailAt::Byte(7),
];

#[test]
fn fails_where_it_is_stated(rt: HostRuntime) {
    for at in FAULTS {
        let mut cabinet = failing(&rt, rt.alloc(), *at);
        assert_refused(
            &rt,
            rt.alloc(),
            &mut cabinet,
            "a",
            100,
            ReadRefusal::ReadFault,
        );
        assert!(rt; cabinet.fetch("b") == Fetched::Missing);
    }
}

#[test]
fn keeps_the_bytes_that_fit(rt: HostRuntime) {
    let mut sink = MemSink::new(rt.alloc(), 5).expect(&rt, AMPLE);
    assert!(rt; sink.put(b"abc") == Put::Done);
    assert!(rt; sink.put(b"def") == Put::Failed);
    assert!(rt; sink.bytes() == b"abcde".as_slice());
}
