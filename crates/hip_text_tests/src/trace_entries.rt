//! Entries of traces, written, and read in chunks of any size.

ghost use Rattle.std.specs.Prelude.{◌≤◌};

use hip_examples::AMPLE;
use hip_io::{Cabinet, FailAt, FailingCabinet, Fetched, MemCabinet, MemSink, NamedFile};
use hip_trace::{Entry, Reader, TraceRefusal, TrapWord, write_entry};
use hip_types::Row;
use std::alloc::Global;
use std::process::Abort;

/// The only file, by the name `t`.
fn file(rt: &impl Abort, alloc: Global, text: &[u8], chunk: usize) -> MemCabinet
    requires { 1 ≤ chunk }
{
    let mut files = Row::new(alloc);
    let file = NamedFile {
        name: Row::from_slice(alloc, b"t").expect(rt, AMPLE),
        bytes: Row::from_slice(alloc, text).expect(rt, AMPLE),
    };
    files.push(file).expect(rt, AMPLE);
    MemCabinet::new(files, chunk)
}

/// What a reader answers.
type Answer = Result<Option<Entry>, TraceRefusal>;

fn assert_answer(rt: &impl Abort, found: Answer, expected: Answer, case: &str) {
    assert!(rt; found == expected, "{case}");
}

/// The entries that a text has, what comes after them, and what the text is called.
#[derive(Clone, Copy)]
struct Expected<'a> {
    entries: &'a [Entry],
    end: Answer,
    case: &'a str,
}

/// Reads the entries of the file `t`, and twice what comes after them.
fn assert_reads<C: Cabinet>(rt: &impl Abort, cabinet: &mut C, expected: Expected<'_>) {
    let Expected { entries, end, case } = expected;
    let fetched = cabinet.fetch("t");
    assert!(rt; matches!(fetched, Fetched::Ready), "{case}");
    let mut reader = Reader::new();
    for entry in entries {
        assert_answer(rt, reader.next(cabinet), Ok(Some(*entry)), case);
    }
    assert_answer(rt, reader.next(cabinet), end, case);
    assert_answer(rt, reader.next(cabinet), end, case);
}

/// Reads the entries of a text that is given in chunks, and twice what comes after them.
fn assert_text(rt: &impl Abort, alloc: Global, text: &[u8], chunk: usize, expected: Expected<'_>)
    requires { 1 ≤ chunk }
{
    let mut cabinet = file(rt, alloc, text, chunk);
    assert_reads(rt, &mut cabinet, expected);
}

const NO_MORE: Answer = Ok(None);

const MALFORMED: Answer = Err(TraceRefusal::Malformed);

/// A text that spells an entry, and the entry's canonical text.
struct Spelling {
    text: &'static [u8],
    entry: Entry,
    canonical: &'static str,
}

const SPELLINGS: &[Spelling] = &[
    Spelling {
        text: b"START;00",
        entry: Entry::Start { limit: 0 },
        canonical: "START;0\n",
    },
    Spelling {
        text: b"START;18446744073709551615",
        entry: Entry::Start {
            limit: 18_446_744_073_709_551_615,
        },
        canonical: "START;18446744073709551615\n",
    },
    Spelling {
        text: b"REGISTER;0x100000000;0x0040",
        entry: Entry::Register {
            base: 4_294_967_296,
            size: 64,
        },
        canonical: "REGISTER;0x100000000;0x40\n",
    },
    Spelling {
        text: b"INPUT;-0",
        entry: Entry::Input { number: 0 },
        canonical: "INPUT;0\n",
    },
    Spelling {
        text: b"INPUT;-9223372036854775808",
        entry: Entry::Input {
            number: -9_223_372_036_854_775_808,
        },
        canonical: "INPUT;-9223372036854775808\n",
    },
    Spelling {
        text: b"INPUT;9223372036854775807",
        entry: Entry::Input {
            number: 9_223_372_036_854_775_807,
        },
        canonical: "INPUT;9223372036854775807\n",
    },
    Spelling {
        text: b"STORE;0xABcdEF;0xff;0x1",
        entry: Entry::Store {
            addr: 11_259_375,
            value: 255,
            size: 1,
        },
        canonical: "STORE;0xabcdef;0xff;0x1\n",
    },
    Spelling {
        text: b"STORE;0xffffffffffffffff;0xffffffffffffffff;0x8",
        entry: Entry::Store {
            addr: 18_446_744_073_709_551_615,
            value: 18_446_744_073_709_551_615,
            size: 8,
        },
        canonical: "STORE;0xffffffffffffffff;0xffffffffffffffff;0x8\n",
    },
    Spelling {
        text: b"FLUSH;0xffffffffffffffc0;0x40",
        entry: Entry::Flush {
            addr: 18_446_744_073_709_551_552,
            size: 64,
        },
        canonical: "FLUSH;0xffffffffffffffc0;0x40\n",
    },
    Spelling {
        text: b"FENCE",
        entry: Entry::Fence,
        canonical: "FENCE\n",
    },
    Spelling {
        text: b"PERSIST;0x80;0x80",
        entry: Entry::Persist {
            addr: 128,
            size: 128,
        },
        canonical: "PERSIST;0x80;0x80\n",
    },
    Spelling {
        text: b"ASSERT;0x1;0x0",
        entry: Entry::Assert { addr: 1, size: 0 },
        canonical: "ASSERT;0x1;0x0\n",
    },
    Spelling {
        text: b"STOP;-2147483648",
        entry: Entry::Stop {
            code: -2_147_483_648,
        },
        canonical: "STOP;-2147483648\n",
    },
    Spelling {
        text: b"TRAP;divoverflow",
        entry: Entry::Trap {
            kind: TrapWord::DivOverflow,
        },
        canonical: "TRAP;divoverflow\n",
    },
    Spelling {
        text: b"TRAP;input",
        entry: Entry::Trap {
            kind: TrapWord::InputEnd,
        },
        canonical: "TRAP;input\n",
    },
    Spelling {
        text: b"CUT",
        entry: Entry::Cut,
        canonical: "CUT\n",
    },
];

fn assert_written(rt: &impl Abort, alloc: Global, entry: &Entry, text: &str) {
    let mut sink = MemSink::new(alloc, 200).expect(rt, AMPLE);
    assert!(rt; write_entry(entry, &mut sink).is_ok(), "{text}");
    assert_eq!(rt; sink.bytes(), text.as_bytes());
}

#[test]
fn read_and_written(rt: HostRuntime) {
    for case in SPELLINGS {
        let entries = &[case.entry];
        let alloc = rt.alloc();
        let expected = Expected {
            entries,
            end: NO_MORE,
            case: case.canonical,
        };
        assert_text(&rt, alloc, case.text, 7, expected);
        assert_written(&rt, alloc, &case.entry, case.canonical);
    }
}

const MALFORMED_TEXTS: &[&str] = &[
    "",
    "start;1",
    "START",
    "START;",
    "START;+5",
    "START;-1",
    "START;1;2",
    "START;18446744073709551616",
    "REGISTER;0x1",
    "REGISTER;1;0x1",
    "REGISTER;0X1;0x1",
    "INPUT;-",
    "INPUT;9223372036854775808",
    "INPUT;-9223372036854775809",
    "STORE;0x0;0x100;0x1",
    "STORE;0x0;0x10000;0x2",
    "STORE;0x0;0x100000000;0x4",
    "STORE;0x0;0x0;0x3",
    "STORE;0x0;0x0;0x0",
    "STORE;0x0;0x0",
    "STORE;0x0;0x10000000000000000;0x8",
    "FLUSH;0x1;0x40",
    "FLUSH;0x40;0x0",
    "FLUSH;0x40;0x41",
    "FLUSH;0xffffffffffffffc0;0x80",
    "FENCE;",
    "PERSIST;0x20;0x40",
    "ASSERT;0x0",
    "STOP;2147483648",
    "STOP;-2147483649",
    "TRAP;Stack",
    "TRAP;",
    "CUT\r",
    "IMAGE;0x40;00",
];

/// An entry, then a text, then a separator.
fn after_an_entry(rt: &impl Abort, alloc: Global, text: &str) -> Vec<u8> {
    let mut bytes = Vec::new(alloc);
    bytes.extend_from_slice(b"CUT|").expect(rt, AMPLE);
    bytes.extend_from_slice(text.as_bytes()).expect(rt, AMPLE);
    bytes.push(b'\n').expect(rt, AMPLE);
    bytes
}

#[test]
fn malformed(rt: HostRuntime) {
    for text in MALFORMED_TEXTS {
        let alloc = rt.alloc();
        let bytes = after_an_entry(&rt, alloc, *text);
        let entries = &[Entry::Cut];
        let expected = Expected {
            entries,
            end: MALFORMED,
            case: *text,
        };
        assert_text(&rt, alloc, bytes.as_slice(), 4096, expected);
    }
}

const TWO_STORES: &[u8] = b"START;7|STORE;0x40;0x1;0x8\nSTORE;0x48;0x2;0x8|CUT";

const TWO_STORES_ENTRIES: &[Entry] = &[
    Entry::Start { limit: 7 },
    Entry::Store {
        addr: 64,
        value: 1,
        size: 8,
    },
    Entry::Store {
        addr: 72,
        value: 2,
        size: 8,
    },
    Entry::Cut,
];

/// The last piece has no separator. Its end is the file's.
#[test]
fn cut_anywhere(rt: HostRuntime) {
    for chunk in 1..60 {
        let expected = Expected {
            entries: TWO_STORES_ENTRIES,
            end: NO_MORE,
            case: "two stores",
        };
        assert_text(&rt, rt.alloc(), TWO_STORES, chunk, expected);
    }
    let nothing = Expected {
        entries: &[],
        end: NO_MORE,
        case: "no byte",
    };
    assert_text(&rt, rt.alloc(), b"", 1, nothing);
}

/// A store whose address has enough leading zeros to make the text that long.
fn long_store(rt: &impl Abort, alloc: Global, len: usize) -> Vec<u8>
    requires { len ≤ 1000 }
{
    let mut text = Vec::new(alloc);
    text.extend_from_slice(b"STORE;0x").expect(rt, AMPLE);
    for _ in 17..len {
        text.push(b'0').expect(rt, AMPLE);
    }
    text.extend_from_slice(b"1;0x2;0x8").expect(rt, AMPLE);
    text
}

/// Asserts what is read of a store whose text is that long.
fn assert_long_store(
    rt: &impl Abort,
    alloc: Global,
    len: usize,
    chunk: usize,
    entries: &[Entry],
    end: Answer,
)
    requires long { len ≤ 1000 }
    requires some { 1 ≤ chunk }
{
    let text = long_store(rt, alloc, len);
    assert!(rt; text.len() == len);
    let expected = Expected {
        entries,
        end,
        case: "long store",
    };
    assert_text(rt, alloc, text.as_slice(), chunk, expected);
}

#[test]
fn longest_entry(rt: HostRuntime) {
    let store = Entry::Store {
        addr: 1,
        value: 2,
        size: 8,
    };
    for chunk in [1, 7, 4096] {
        assert_long_store(&rt, rt.alloc(), 256, chunk, &[store], NO_MORE);
        assert_long_store(&rt, rt.alloc(), 257, chunk, &[], MALFORMED);
    }
}

/// The text of a line with the one byte, 62 zeros and the other, and of an image that begins within a line.
fn two_images(rt: &impl Abort, alloc: Global) -> Vec<u8> {
    let mut text = Vec::new(alloc);
    text.extend_from_slice(b"IMAGE;0x40;AB").expect(rt, AMPLE);
    for _ in 0..62 {
        text.extend_from_slice(b"00").expect(rt, AMPLE);
    }
    text.extend_from_slice(b"05|IMAGE;0x41;00")
        .expect(rt, AMPLE);
    text
}

fn assert_image_written(rt: &impl Abort, alloc: Global, image: &Entry) {
    let mut sink = MemSink::new(alloc, 200).expect(rt, AMPLE);
    assert!(rt; write_entry(image, &mut sink).is_ok());
    let bytes = sink.bytes();
    assert!(rt; bytes.len() == 140);
    assert!(rt; bytes.starts_with(b"IMAGE;0x40;ab00"));
    assert!(rt; bytes.ends_with(b"005\n"));
}

/// A line whose first byte is 171 and whose last is 5; the text has upper case and then lower case.
#[test]
fn images(rt: HostRuntime) {
    let mut bytes = [0; 64];
    bytes[0] = 171;
    bytes[63] = 5;
    let image = Entry::Image { addr: 64, bytes };
    let text = two_images(&rt, rt.alloc());
    let entries = &[image];
    let expected = Expected {
        entries,
        end: MALFORMED,
        case: "image",
    };
    assert_text(&rt, rt.alloc(), text.as_slice(), 100, expected);
    assert_image_written(&rt, rt.alloc(), &image);
}

/// The two stores in a file that fails after its ninth byte.
fn failing_file(rt: &impl Abort, alloc: Global) -> FailingCabinet {
    let inner = file(rt, alloc, TWO_STORES, 4);
    let name = Row::from_slice(alloc, b"t").expect(rt, AMPLE);
    FailingCabinet::new(inner, name, FailAt::Byte(9))
}

/// The first entry is read before the fault.
#[test]
fn fault_in_the_middle(rt: HostRuntime) {
    let mut cabinet = failing_file(&rt, rt.alloc());
    let first = Entry::Start { limit: 7 };
    let fault = Err(TraceRefusal::ReadFault);
    let expected = Expected {
        entries: &[first],
        end: fault,
        case: "fault",
    };
    assert_reads(&rt, &mut cabinet, expected);
}

#[test]
fn texts_are_counted(rt: HostRuntime) {
    let mut cabinet = file(&rt, rt.alloc(), b"CUT|CUT||CUT", 5);
    let fetched = cabinet.fetch("t");
    assert!(rt; matches!(fetched, Fetched::Ready));
    let mut reader = Reader::new();
    assert!(rt; reader.count() == 0);
    let cut = Ok(Some(Entry::Cut));
    assert_answer(&rt, reader.next(&mut cabinet), cut, "first");
    assert_answer(&rt, reader.next(&mut cabinet), cut, "second");
    assert!(rt; reader.count() == 2);
    assert_answer(&rt, reader.next(&mut cabinet), MALFORMED, "empty");
    assert_answer(&rt, reader.next(&mut cabinet), MALFORMED, "empty again");
    assert!(rt; reader.count() == 3);
}

#[test]
fn equal_entries(rt: HostRuntime) {
    let flush = Entry::Flush { addr: 64, size: 64 };
    let longer = Entry::Flush {
        addr: 64,
        size: 128,
    };
    assert!(rt; flush.same(&flush));
    assert!(rt; !flush.same(&longer));
    assert!(rt; !flush.same(&Entry::Fence));
}

#[test]
fn no_room(rt: HostRuntime) {
    let mut sink = MemSink::new(rt.alloc(), 3).expect(&rt, AMPLE);
    assert!(rt; write_entry(&Entry::Cut, &mut sink).is_err());
    assert_eq!(rt; sink.bytes(), b"CUT".as_slice());
}
