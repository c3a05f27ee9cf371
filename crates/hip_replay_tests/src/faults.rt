//! Reads that fail in the middle of a trace, and sinks that are full in the middle of one.

use crate::runs::{checked, in_chunks, input, replayed};
use hip_examples::{AMPLE, ONE_STORE, OVERWRITTEN};
use hip_io::{FailAt, FailingCabinet, MemSink};
use hip_replay::{MisfitKind, RecordRefusal, ReplayRefusal, record_run};
use hip_sound::Checked;
use hip_step::{Input, why_not};
use hip_types::Row;
use std::alloc::Global;
use std::process::Abort;

/// A trace whose reader fails after `at` bytes, and the refusal.
struct Fault {
    trace: &'static str,
    at: u64,
    refusal: ReplayRefusal,
}

const FAULTS: &[Fault] = &[
    Fault {
        trace: "START;1000000000|REGISTER;0x100000000;0x40|STORE;0x100000000;0x5;0x8|STOP;0",
        at: 0,
        refusal: ReplayRefusal::ReadFault,
    },
    Fault {
        trace: "START;1000000000|REGISTER;0x100000000;0x40|STORE;0x100000000;0x5;0x8|STOP;0",
        at: 20,
        refusal: ReplayRefusal::ReadFault,
    },
    Fault {
        trace: "START;1000000000|REGISTER;0x100000000;0x40|STORE;0x100000000;0x5;0x8|STOP;0",
        at: 75,
        refusal: ReplayRefusal::ReadFault,
    },
    Fault {
        trace: "START;1000000000|REGISTER;0x100000000;0x40|STORE;0x100000000;0x6;0x8|STOP;0",
        at: 60,
        refusal: ReplayRefusal::ReadFault,
    },
    Fault {
        trace: "START;1000000000|REGISTER;0x100000000;0x40|STORE;0x100000000;0x6;0x8|STOP;0",
        at: 69,
        refusal: ReplayRefusal::Misfit {
            entry: 3,
            kind: MisfitKind::Differs,
        },
    },
    Fault {
        trace: "FENCE|START;5|REGISTER;0x100000000;0x40",
        at: 6,
        refusal: ReplayRefusal::Misfit {
            entry: 1,
            kind: MisfitKind::Differs,
        },
    },
];

/// The refusal of a trace with the program of one store, if a read fails.
fn refused(
    rt: &impl Abort,
    alloc: Global,
    checked: &Checked,
    case: &Fault,
) -> Option<ReplayRefusal> {
    let files = in_chunks(rt, alloc, case.trace.as_bytes(), 10);
    let name = Row::from_slice(alloc, b"trace").expect(rt, AMPLE);
    let mut cabinet = FailingCabinet::new(files, name, FailAt::Byte(case.at));
    replayed(alloc, checked, &mut cabinet).err()
}

#[test]
fn read_faults(rt: HostRuntime) {
    let checked = checked(&rt, rt.alloc(), ONE_STORE);
    for case in FAULTS {
        let refusal = refused(&rt, rt.alloc(), &checked, case);
        assert!(rt; refusal == Some(case.refusal), "{} {}", case.trace, case.at);
    }
}

const TRACE: &str = "START;9
REGISTER;0x100000000;0x40
STORE;0x100000000;0x5;0x8
STORE;0x100000000;0x6;0x8
STOP;0
";

/// Whether the run is recorded up to what a sink with this room can hold.
fn is_cut_of(rt: &impl Abort, alloc: Global, checked: &Checked, input: &Input, room: u64) -> bool {
    assert!(rt; why_not(checked, input).is_none(), "the input is valid");
    let mut out = MemSink::new(alloc, room).expect(rt, AMPLE);
    let refused = match record_run(alloc, checked, input, &mut out) {
        Err(refusal) => refusal == RecordRefusal::WriteFault,
        Ok(_) => false,
    };
    refused && TRACE.as_bytes().starts_with(out.bytes()) && out.bytes().len() as u64 == room
}

/// The same for the program of two stores.
fn is_cut(rt: &impl Abort, alloc: Global, room: u64) -> bool {
    let checked = checked(rt, alloc, OVERWRITTEN);
    let input = input(rt, alloc, &checked, &[], 9);
    is_cut_of(rt, alloc, &checked, &input, room)
}

#[test]
fn write_faults(rt: HostRuntime) {
    for room in [0, 1, 8, 20, 60, 92] {
        assert!(rt; is_cut(&rt, rt.alloc(), room), "{room}");
    }
}
