//! Types and constants nested as deep as the language allows, and one level deeper.

use hip_examples::AMPLE;
use hip_parse::{ParseRefusal, parse};
use std::alloc::Global;
use std::process::Abort;

/// A global whose type or constant opens a level n times, and closes it as often if it is to be read.
struct NestedText {
    open: &'static str,
    levels: u32,
    middle: &'static str,
    close: &'static str,
    /// None if the text is read.
    why: Option<ParseRefusal>,
}

fn text_of(rt: &impl Abort, alloc: Global, nested: &NestedText) -> String {
    let mut text = String::from_str(alloc, "@x = global ").expect(rt, AMPLE);
    for _ in 0..nested.levels {
        text.push_str(nested.open).expect(rt, AMPLE);
    }
    text.push_str(nested.middle).expect(rt, AMPLE);
    for _ in 0..nested.levels {
        text.push_str(nested.close).expect(rt, AMPLE);
    }
    text
}

fn assert_limits(rt: &impl Abort, alloc: Global, cases: &[NestedText]) {
    for case in cases {
        let text = text_of(rt, alloc, case);
        let refusal = parse(alloc, text.as_bytes()).err();
        assert!(rt; refusal == case.why, "{text}");
    }
}

const TYPES: &[NestedText] = &[
    NestedText {
        open: "[1 x ",
        levels: 32,
        middle: "\n[",
        close: "",
        why: Some(ParseRefusal::TooDeep { line: 2 }),
    },
    NestedText {
        open: "{",
        levels: 32,
        middle: "\n{",
        close: "",
        why: Some(ParseRefusal::TooDeep { line: 2 }),
    },
    NestedText {
        open: "{",
        levels: 32,
        middle: "\n}",
        close: "",
        why: Some(ParseRefusal::Syntax { line: 2 }),
    },
];

const LISTS: &[NestedText] = &[
    NestedText {
        open: "[1 x i8] [",
        levels: 33,
        middle: "",
        close: "",
        why: Some(ParseRefusal::TooDeep { line: 1 }),
    },
    NestedText {
        open: "[0 x i8] [ ",
        levels: 32,
        middle: "[0 x i8] \n[",
        close: "",
        why: Some(ParseRefusal::TooDeep { line: 2 }),
    },
    NestedText {
        open: "{} { ",
        levels: 32,
        middle: "{} \n{",
        close: "",
        why: Some(ParseRefusal::TooDeep { line: 2 }),
    },
    NestedText {
        open: "{} { ",
        levels: 31,
        middle: "{} {}",
        close: " }",
        why: None,
    },
];

const ADDRESSES: &[NestedText] = &[
    NestedText {
        open: "ptr getelementptr (i8, ",
        levels: 32,
        middle: "ptr getelementptr\n(",
        close: "",
        why: Some(ParseRefusal::TooDeep { line: 2 }),
    },
    NestedText {
        open: "ptr getelementptr (i8, ",
        levels: 32,
        middle: "ptr getelementptr\ninbounds\n(",
        close: "",
        why: Some(ParseRefusal::TooDeep { line: 3 }),
    },
    NestedText {
        open: "ptr getelementptr (i8, ",
        levels: 32,
        middle: "ptr getelementptr\n{",
        close: "",
        why: Some(ParseRefusal::Syntax { line: 2 }),
    },
    NestedText {
        open: "ptr getelementptr (i8, ",
        levels: 32,
        middle: "ptr null",
        close: ", i64 0)",
        why: None,
    },
];

#[test]
fn nested_limits(rt: HostRuntime) {
    assert_limits(&rt, rt.alloc(), TYPES);
    assert_limits(&rt, rt.alloc(), LISTS);
    assert_limits(&rt, rt.alloc(), ADDRESSES)
}
