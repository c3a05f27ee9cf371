//! A tracker that notes a run step by step, and what it has found at the end of the run.

ghost use Rattle.std.specs.Prelude.{◌≡◌, ◌+◌, ◌<◌, ◌≤◌, ◌^◌, true};
ghost use Rattle.hip_report.specs.TrackerView.{HasNoted};
ghost use Rattle.hip_runs.specs.Seen.{state_of};
ghost use Rattle.hip_runs.specs.Step.{has_ended, header_entries};
ghost use Rattle.hip_runs.specs.Validity.{IsValid};

use crate::runs::{BASE, assert_reports, checked, input};
use hip_examples::{AMPLE, COPY};
use hip_invariants::runs_are_bounded;
use hip_io::MemSink;
use hip_lockstep::put_header;
use hip_report::{Mark, SharedFindings, Sought, Tracker};
use hip_run_traces::traces_follow_the_run;
use hip_sound::Checked;
use hip_step::{Begin, Ending, Event, Input, Machine, Object, why_not};
use hip_tree::Site;
use std::alloc::Global;
use std::process::Abort;

/// A program, the events of its run, what its pointers point into and the numbers of the globals that it stores into,
/// each in the order of first meeting, and the lines of its reports.
struct Noted {
    name: &'static str,
    program: &'static str,
    events: &'static [Event],
    pointed: &'static [Mark],
    hit: &'static [usize],
    reports: &'static str,
}

const STOPS: Event = Event::End(Ending::Stop(0));

// The sites of `COPY`.
const STORE_IN_COPY: Site = Site {
    function: 0,
    block: 0,
    index: 1,
};

const BLOCK_A: Site = Site {
    function: 1,
    block: 0,
    index: 0,
};

const BLOCK_B: Site = Site {
    function: 1,
    block: 0,
    index: 1,
};

const STORE_TO_A: Site = Site {
    function: 1,
    block: 0,
    index: 2,
};

const COPY_TO_B: Site = Site {
    function: 1,
    block: 0,
    index: 3,
};

const COPY_TO_P: Site = Site {
    function: 1,
    block: 0,
    index: 4,
};

/// A function stores into two persistent globals, the later one first, into a volatile global and into the stack.
const FOUR_TARGETS: &str = "@p = global i64 0, section \".pm\"
@v = global i64 0
@q = global i64 0, section \".pm\"
define void @put(ptr %d, i64 %n) {
entry:
  store i64 %n, ptr %d
  ret void
}
define i32 @main() {
entry:
  %s = alloca i64
  call void @put(ptr @q, i64 1)
  call void @put(ptr %s, i64 2)
  call void @put(ptr @v, i64 3)
  call void @put(ptr @p, i64 4)
  store i64 5, ptr @q
  ret i32 0
}
";

// The sites of `FOUR_TARGETS`.
const STORE_IN_PUT: Site = Site {
    function: 0,
    block: 0,
    index: 0,
};

const BLOCK_S: Site = Site {
    function: 1,
    block: 0,
    index: 0,
};

const PUT_TO_Q: Site = Site {
    function: 1,
    block: 0,
    index: 1,
};

const PUT_TO_S: Site = Site {
    function: 1,
    block: 0,
    index: 2,
};

const PUT_TO_V: Site = Site {
    function: 1,
    block: 0,
    index: 3,
};

const PUT_TO_P: Site = Site {
    function: 1,
    block: 0,
    index: 4,
};

const STORE_TO_Q: Site = Site {
    function: 1,
    block: 0,
    index: 5,
};

/// Two calls of a function, each with a block of the same `alloca`.
const TWO_BLOCKS: &str = "define void @keep() {
entry:
  %t = alloca i64
  store i64 1, ptr %t
  ret void
}
define i32 @main() {
entry:
  call void @keep()
  call void @keep()
  ret i32 0
}
";

// The sites of `TWO_BLOCKS`.
const BLOCK_T: Site = Site {
    function: 0,
    block: 0,
    index: 0,
};

const STORE_TO_T: Site = Site {
    function: 0,
    block: 0,
    index: 1,
};

const CASES: &[Noted] = &[
    Noted {
        name: "a function that stores to the stack and to the region",
        program: COPY,
        events: &[
            Event::Quiet,
            Event::Quiet,
            Event::Quiet,
            Event::Quiet,
            Event::Quiet,
            Event::Quiet,
            Event::Quiet,
            Event::Quiet,
            Event::Quiet,
            Event::Store {
                addr: BASE,
                value: 9,
                size: 8,
            },
            Event::Quiet,
            STOPS,
        ],
        pointed: &[
            Mark {
                site: STORE_TO_A,
                operand: 0,
                object: Object::Slot(BLOCK_A),
            },
            Mark {
                site: COPY_TO_B,
                operand: 0,
                object: Object::Slot(BLOCK_B),
            },
            Mark {
                site: COPY_TO_B,
                operand: 1,
                object: Object::Slot(BLOCK_A),
            },
            Mark {
                site: STORE_IN_COPY,
                operand: 0,
                object: Object::Slot(BLOCK_B),
            },
            Mark {
                site: COPY_TO_P,
                operand: 0,
                object: Object::Global(0),
            },
            Mark {
                site: COPY_TO_P,
                operand: 1,
                object: Object::Slot(BLOCK_B),
            },
            Mark {
                site: STORE_IN_COPY,
                operand: 0,
                object: Object::Global(0),
            },
        ],
        hit: &[0],
        reports: "report both entry 3 check 4 closed 1 path @copy:entry:1 @main:entry:4\n",
    },
    Noted {
        name: "persistent and volatile globals and the stack",
        program: FOUR_TARGETS,
        events: &[
            Event::Quiet,
            Event::Quiet,
            Event::Store {
                addr: BASE + 8,
                value: 1,
                size: 8,
            },
            Event::Quiet,
            Event::Quiet,
            Event::Quiet,
            Event::Quiet,
            Event::Quiet,
            Event::Quiet,
            Event::Quiet,
            Event::Quiet,
            Event::Store {
                addr: BASE,
                value: 4,
                size: 8,
            },
            Event::Quiet,
            Event::Store {
                addr: BASE + 8,
                value: 5,
                size: 8,
            },
            STOPS,
        ],
        pointed: &[
            Mark {
                site: PUT_TO_Q,
                operand: 0,
                object: Object::Global(2),
            },
            Mark {
                site: STORE_IN_PUT,
                operand: 0,
                object: Object::Global(2),
            },
            Mark {
                site: PUT_TO_S,
                operand: 0,
                object: Object::Slot(BLOCK_S),
            },
            Mark {
                site: STORE_IN_PUT,
                operand: 0,
                object: Object::Slot(BLOCK_S),
            },
            Mark {
                site: PUT_TO_V,
                operand: 0,
                object: Object::Global(1),
            },
            Mark {
                site: STORE_IN_PUT,
                operand: 0,
                object: Object::Global(1),
            },
            Mark {
                site: PUT_TO_P,
                operand: 0,
                object: Object::Global(0),
            },
            Mark {
                site: STORE_IN_PUT,
                operand: 0,
                object: Object::Global(0),
            },
            Mark {
                site: STORE_TO_Q,
                operand: 0,
                object: Object::Global(2),
            },
        ],
        hit: &[2, 0],
        reports: "report both entry 4 check 6 closed 1 path @put:entry:0 @main:entry:4
report both entry 5 check 6 closed 0 path @main:entry:5
",
    },
    Noted {
        name: "the blocks of one alloca are one object",
        program: TWO_BLOCKS,
        events: &[
            Event::Quiet,
            Event::Quiet,
            Event::Quiet,
            Event::Quiet,
            Event::Quiet,
            Event::Quiet,
            Event::Quiet,
            Event::Quiet,
            STOPS,
        ],
        pointed: &[Mark {
            site: STORE_TO_T,
            operand: 0,
            object: Object::Slot(BLOCK_T),
        }],
        hit: &[],
        reports: "",
    },
];

/// The number of entries in the trace of a run before its first step.
fn entries_before(rt: &impl Abort, alloc: Global, checked: &Checked, input: &Input) -> u128
    requires { IsValid checked.now input.now }
    ensures count { result ≡ header_entries input.now }
    ensures bound { result ≤ 2 ^ 64 }
{
    // Lemmas: the entries are counted, and the count is bounded.
    traces_follow_the_run();
    runs_are_bounded();
    let _program = checked.program();
    let mut out = MemSink::new(alloc, 1_000).expect(rt, AMPLE);
    put_header(input, &mut out).expect(rt, "the header is written")
}

/// Notes all steps of a run, and asserts the event of each.
fn note_steps<'a>(
    rt: &impl Abort,
    tracker: &mut Tracker<'a>,
    machine: &mut Machine<'a>,
    case: &Noted,
)
    requires { HasNoted tracker.old machine.old }
    ensures noted { HasNoted tracker.new machine.new }
    ensures header { tracker.new.header ≡ tracker.old.header }
    ensures input { machine.new.input ≡ machine.old.input }
    ensures ended { has_ended (state_of machine.new) ≡ true }
{
    'steps: for event in case.events {
        let taken = tracker.advance(machine).expect(rt, AMPLE);
        assert!(rt; taken == *event, "{}", case.name);
    }
    assert!(rt; machine.ending().is_some(), "{}", case.name);
}

/// What a tracker that notes a run from its first step to its end finds of what is sought.
fn found(
    rt: &impl Abort,
    alloc: Global,
    checked: &Checked,
    input: &Input,
    sought: Sought,
    case: &Noted,
) -> SharedFindings {
    assert!(rt; why_not(checked, input).is_none(), "the input is valid");
    let header = entries_before(rt, alloc, checked, input);
    let mut machine = Machine::new(alloc, checked, input).expect(rt, AMPLE);
    let mut tracker = Tracker::new(alloc, header, sought).expect(rt, AMPLE);
    note_steps(rt, &mut tracker, &mut machine, case);
    tracker.close(&machine).expect(rt, AMPLE)
}

fn assert_found(
    rt: &impl Abort,
    alloc: Global,
    checked: &Checked,
    found: &SharedFindings,
    case: &Noted,
) {
    assert!(rt;
        found.marks().pointed.as_slice() == case.pointed,
        "{}",
        case.name
    );
    assert!(rt; found.marks().hit.as_slice() == case.hit, "{}", case.name);
    assert_reports(rt, alloc, checked, found.reports(), case.reports);
}

#[test]
fn marks_and_hits(rt: HostRuntime) {
    for case in CASES {
        let checked = checked(&rt, rt.alloc(), case.program);
        let input = input(&rt, rt.alloc(), &checked, &[], 1_000);
        let found = found(&rt, rt.alloc(), &checked, &input, Sought::Findings, case);
        assert_found(&rt, rt.alloc(), &checked, &found, case);
    }
}

#[test]
fn reports_alone(rt: HostRuntime) {
    for case in CASES {
        let checked = checked(&rt, rt.alloc(), case.program);
        let input = input(&rt, rt.alloc(), &checked, &[], 1_000);
        let found = found(&rt, rt.alloc(), &checked, &input, Sought::Reports, case);
        let marks = found.marks();
        assert!(rt;
            marks.pointed.is_empty() && marks.hit.is_empty(),
            "{}",
            case.name
        );
        assert_reports(&rt, rt.alloc(), &checked, found.reports(), case.reports);
    }
}
