//! `crash`: the trace of the run from a picked crash image.

use crate::commands::{Case, assert_cases};
use hip_examples::OVERWRITTEN;

/// The trace of the run of `OVERWRITTEN`.
const TRACE: &str =
    "START;1000000000|REGISTER;0x100000000;0x40|STORE;0x100000000;0x5;0x8|STORE;0x100000000;0x6;0x8|STOP;0";

const PICKS: &[Case] = &[
    Case {
        words: &["crash", "f", "t", "4"],
        files: &[("f", OVERWRITTEN), ("t", TRACE)],
        code: 0,
        out: "START;1000000000\nREGISTER;0x100000000;0x40\nSTORE;0x100000000;0x5;0x8\nSTORE;0x100000000;0x6;0x8\nSTOP;0\n",
        notes: "stop 0\n",
    },
    Case {
        words: &["crash", "f", "t", "4", "0:1"],
        files: &[("f", OVERWRITTEN), ("t", TRACE)],
        code: 0,
        out: "START;1000000000\nREGISTER;0x100000000;0x40\nIMAGE;0x100000000;05000000000000000000000000000000000000000000000000000000000000000000000000000000000000000000000000000000000000000000000000000000\nSTORE;0x100000000;0x5;0x8\nSTORE;0x100000000;0x6;0x8\nSTOP;0\n",
        notes: "stop 0\n",
    },
];

#[test]
fn picked_image(rt: HostRuntime) {
    assert_cases(&rt, rt.alloc(), PICKS);
}

const BAD_PICKS: &[Case] = &[
    Case {
        words: &["crash", "f", "t", "3", "0:2"],
        files: &[("f", OVERWRITTEN), ("t", TRACE)],
        code: 13,
        out: "",
        notes: "hippo: pick 1: range 0 to 1\n",
    },
    Case {
        words: &["crash", "f", "t", "4", "0:2", "0:1"],
        files: &[("f", OVERWRITTEN), ("t", TRACE)],
        code: 13,
        out: "",
        notes: "hippo: pick 2: repeated\n",
    },
    Case {
        words: &["crash", "f", "t", "4", "1:0"],
        files: &[("f", OVERWRITTEN), ("t", TRACE)],
        code: 13,
        out: "",
        notes: "hippo: pick 1: line\n",
    },
    Case {
        words: &["crash", "f", "t", "6"],
        files: &[("f", OVERWRITTEN), ("t", TRACE)],
        code: 12,
        out: "",
        notes: "hippo: no entry: 5 entries\n",
    },
];

#[test]
fn bad_picks(rt: HostRuntime) {
    assert_cases(&rt, rt.alloc(), BAD_PICKS);
}
