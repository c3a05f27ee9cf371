//! Commands whose output is held back: each delivers it, and answers a write fault if that fails.

ghost use Rattle.std.specs.Prelude.{◌≡◌, ◌≤◌};
ghost use Rattle.hip_io.specs.Counts.{Rose};

use crate::commands::{cabinet_of, owned_words};
use crate::every_byte::COPY_TRACE;
use hip_examples::{AMPLE, COPY};
use hip_io::{MemSink, Put, Sink};
use hip_tool::hippo;
use std::alloc::Global;
use std::process::Abort;

/// A sink that holds all bytes back until they are delivered. The delivery may fail.
#[derive(Drop)]
struct Holding {
    held: u64,
    fails: bool,
    faults: u64,
}

impl Holding {
    fn fail(&mut self) -> Put
        ensures fails { result ≡ Put.Failed }
        ensures later { self.old.faults ≤ self.new.faults }
        ensures rose { Rose self.old.faults self.new.faults }
    {
        self.faults = self.faults.saturating_add(1);
        Put::Failed
    }
}

impl Sink for Holding {
    ghost use Rattle.std.specs.Prelude.{None};

    ghost state = { λ s. record { bytes = None; faults = s.faults } };

    ghost held = { λ s. s.held };

    fn put(&mut self, bytes: &[u8]) -> Put {
        self.held = self.held.saturating_add(bytes.len() as u64);
        Put::Done
    }

    fn deliver(&mut self) -> Put {
        if self.fails {
            return self.fail();
        }
        self.held = 0;
        Put::Done
    }
}

const PRINTS: &str = "declare void @print_i64(i64)
define i32 @main() {
entry:
  call void @print_i64(i64 7)
  ret i32 0
}
";

const FILES: &[(&str, &str)] = &[("a", COPY), ("b", COPY_TRACE), ("p", PRINTS)];

/// Each command, with words by which it writes something.
const COMMANDS: &[&[&str]] = &[
    &["run", "p"],
    &["record", "a"],
    &["check", "a", "b"],
    &["repair", "a", "b"],
    &["rerun", "a", "b"],
    &["thin", "a", "b"],
    &["many", "a", "b"],
    &["crash", "a", "b", "1"],
    &["demo", "1", "8"],
];

/// What a command leaves: its exit code, how many bytes are held back, and its notes.
#[derive(Drop)]
struct Left {
    code: u8,
    held: u64,
    notes: MemSink,
}

fn left_by(rt: &impl Abort, alloc: Global, words: &[&str], fails: bool) -> Left {
    let words = owned_words(rt, alloc, words);
    let mut cabinet = cabinet_of(rt, alloc, FILES, 7);
    let mut out = Holding {
        held: 0,
        fails,
        faults: 0,
    };
    let mut notes = MemSink::new(alloc, 1_000).expect(rt, AMPLE);
    let status = hippo(alloc, words.as_slice(), &mut cabinet, &mut out, &mut notes);
    Left {
        code: status.code(),
        held: out.held,
        notes,
    }
}

#[test]
fn everything_is_delivered(rt: HostRuntime) {
    for words in COMMANDS {
        let left = left_by(&rt, rt.alloc(), *words, false);
        assert_eq!(&rt; (left.code, left.held), (0, 0), "{}", words[0]);
    }
}

#[test]
fn the_last_write_fails(rt: HostRuntime) {
    for words in COMMANDS {
        let left = left_by(&rt, rt.alloc(), *words, true);
        assert_eq!(&rt; left.code, 4, "{}", words[0]);
        assert!(&rt; left.notes.bytes() == b"hippo: write fault\n".as_slice());
    }
}
