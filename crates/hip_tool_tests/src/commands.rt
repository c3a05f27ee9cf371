//! Calls of `hippo` over files and sinks in memory.

ghost use Rattle.std.specs.Prelude.{◌≤◌};

use hip_examples::AMPLE;
use hip_io::{Cabinet, FailAt, FailingCabinet, MemCabinet, MemSink, NamedFile};
use hip_tool::hippo;
use hip_types::Row;
use std::alloc::Global;
use std::process::Abort;

/// The room of the output and of the notes in bytes, unless a test says otherwise.
const ROOM: u64 = 100_000;

/// The words and the files of a command, and the result that is expected.
pub struct Case {
    pub words: &'static [&'static str],
    pub files: &'static [(&'static str, &'static str)],
    pub code: u8,
    pub out: &'static str,
    pub notes: &'static str,
}

/// What a call left: its exit code and what was written.
#[derive(Drop)]
pub struct Outcome {
    pub code: u8,
    pub out: MemSink,
    pub notes: MemSink,
}

/// These files, given in chunks of this number of bytes.
pub fn cabinet_of(
    rt: &impl Abort,
    alloc: Global,
    texts: &[(&str, &str)],
    chunk: usize,
) -> MemCabinet
    requires { 1 ≤ chunk }
{
    let mut files = Row::new(alloc);
    for (name, text) in texts {
        files
            .push(NamedFile {
                name: Row::from_slice(alloc, name.as_bytes()).expect(rt, AMPLE),
                bytes: Row::from_slice(alloc, text.as_bytes()).expect(rt, AMPLE),
            })
            .expect(rt, AMPLE);
    }
    MemCabinet::new(files, chunk)
}

/// These files, given in chunks of 7 bytes.
fn cabinet_of_bytes(rt: &impl Abort, alloc: Global, given: &[(&str, &[u8])]) -> MemCabinet {
    let mut files = Row::new(alloc);
    for (name, bytes) in given {
        files
            .push(NamedFile {
                name: Row::from_slice(alloc, name.as_bytes()).expect(rt, AMPLE),
                bytes: Row::from_slice(alloc, *bytes).expect(rt, AMPLE),
            })
            .expect(rt, AMPLE);
    }
    MemCabinet::new(files, 7)
}

pub fn owned_words(rt: &impl Abort, alloc: Global, words: &[&str]) -> Vec<String> {
    let mut owned = Vec::new(alloc);
    for word in words {
        owned
            .push(String::from_str(alloc, word).expect(rt, AMPLE))
            .expect(rt, AMPLE);
    }
    owned
}

/// `hippo` with these words, and with room for this number of bytes in the output and in the notes.
fn call<C: Cabinet>(
    rt: &impl Abort,
    alloc: Global,
    words: &[&str],
    cabinet: &mut C,
    room: u64,
    notes_room: u64,
) -> Outcome {
    let words = owned_words(rt, alloc, words);
    let mut out = MemSink::new(alloc, room).expect(rt, AMPLE);
    let mut notes = MemSink::new(alloc, notes_room).expect(rt, AMPLE);
    let status = hippo(alloc, words.as_slice(), cabinet, &mut out, &mut notes);
    Outcome {
        code: status.code(),
        out,
        notes,
    }
}

/// What a command leaves over these files, given in chunks of this number of bytes.
pub fn outcome_in_chunks(
    rt: &impl Abort,
    alloc: Global,
    words: &[&str],
    texts: &[(&str, &str)],
    chunk: usize,
) -> Outcome
    requires { 1 ≤ chunk }
{
    let mut cabinet = cabinet_of(rt, alloc, texts, chunk);
    call(rt, alloc, words, &mut cabinet, ROOM, ROOM)
}

/// What a command leaves over files of any bytes.
pub fn outcome_of_bytes(
    rt: &impl Abort,
    alloc: Global,
    words: &[&str],
    files: &[(&str, &[u8])],
) -> Outcome {
    let mut cabinet = cabinet_of_bytes(rt, alloc, files);
    call(rt, alloc, words, &mut cabinet, ROOM, ROOM)
}

/// What a command leaves if the output and the notes have this much room.
pub fn outcome_in_room(
    rt: &impl Abort,
    alloc: Global,
    words: &[&str],
    texts: &[(&str, &str)],
    room: u64,
    notes_room: u64,
) -> Outcome {
    let mut cabinet = cabinet_of(rt, alloc, texts, 7);
    call(rt, alloc, words, &mut cabinet, room, notes_room)
}

/// What a command leaves if one of the files fails.
pub fn outcome_of_fault(
    rt: &impl Abort,
    alloc: Global,
    words: &[&str],
    texts: &[(&str, &str)],
    name: &str,
    at: FailAt,
) -> Outcome {
    let inner = cabinet_of(rt, alloc, texts, 7);
    let name = Row::from_slice(alloc, name.as_bytes()).expect(rt, AMPLE);
    let mut cabinet = FailingCabinet::new(inner, name, at);
    call(rt, alloc, words, &mut cabinet, ROOM, ROOM)
}

/// Asserts the exit code and both texts. A failed assertion shows `about`.
pub fn assert_outcome(
    rt: &impl Abort,
    outcome: &Outcome,
    code: u8,
    out: &str,
    notes: &str,
    about: &str,
) {
    assert_eq!(rt; outcome.code, code, "{about}");
    assert_eq!(rt; outcome.out.bytes(), out.as_bytes(), "{about}");
    assert_eq!(rt; outcome.notes.bytes(), notes.as_bytes(), "{about}");
}

fn assert_case(rt: &impl Abort, alloc: Global, case: &Case) {
    let outcome = outcome_in_chunks(rt, alloc, case.words, case.files, 7);
    assert_outcome(rt, &outcome, case.code, case.out, case.notes, case.notes);
}

/// Asserts the result of each command.
pub fn assert_cases(rt: &impl Abort, alloc: Global, cases: &[Case]) {
    for case in cases {
        assert_case(rt, alloc, case);
    }
}
