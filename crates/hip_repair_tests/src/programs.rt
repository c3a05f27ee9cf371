//! Programs from texts, sites in them, and how they are written.

use hip_examples::AMPLE;
use hip_findings::{CallPath, SharedPath};
use hip_io::MemSink;
use hip_parse::parse;
use hip_sound::Checked;
use hip_tree::{Program, Site};
use hip_types::Row;
use hip_typing::check;
use hip_write::write;
use std::alloc::Global;
use std::process::Abort;
use std::rc::Rc;

/// The sound program of a text.
pub fn checked(rt: &impl Abort, alloc: Global, text: &str) -> Checked {
    let program = parse(alloc, text.as_bytes()).expect(rt, "the text is read");
    check(alloc, program).expect(rt, "the program is sound")
}

/// A function, a block and a place in the block, by their numbers.
pub type Place = (usize, usize, usize);

pub fn site(place: Place) -> Site {
    Site {
        function: place.0,
        block: place.1,
        index: place.2,
    }
}

pub fn sites(rt: &impl Abort, alloc: Global, places: &[Place]) -> Row<Site> {
    let mut sites = Row::new(alloc);
    for place in places {
        sites.push(site(*place)).expect(rt, AMPLE);
    }
    sites
}

/// The calls at these places, at most two, the innermost one first.
fn calls(rt: &impl Abort, alloc: Global, places: &[Place]) -> Rc<CallPath> {
    let none = CallPath::none(alloc).expect(rt, AMPLE);
    match places {
        [] => none,
        [call] => CallPath::inside(alloc, site(*call), 0, 1, none).expect(rt, AMPLE),
        [inner, outer, ..] => {
            let outer = CallPath::inside(alloc, site(*outer), 0, 1, none).expect(rt, AMPLE);
            CallPath::inside(alloc, site(*inner), 1, 2, outer).expect(rt, AMPLE)
        }
    }
}

/// The path of a store, made in the calls at these places, at most two.
pub fn path(rt: &impl Abort, alloc: Global, store: Place, places: &[Place]) -> SharedPath {
    let calls = calls(rt, alloc, places);
    SharedPath::new(site(store), &calls).expect(rt, AMPLE)
}

/// Asserts that the program is written as this text.
pub fn assert_written(rt: &impl Abort, alloc: Global, program: &Program, text: &str) {
    let mut sink = MemSink::new(alloc, 10_000).expect(rt, AMPLE);
    assert!(rt; write(program, &mut sink).is_ok());
    assert_eq!(rt; sink.bytes(), text.as_bytes());
}
