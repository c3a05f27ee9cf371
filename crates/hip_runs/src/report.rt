use crate::event::Object;
use hip_tree::Site;
use hip_types::Row;

/// What a store lacks to be durable, as the Hippocrates paper distinguishes it. A store over a line boundary has a part
/// in each of two cache lines. A part is loose if it is the last one over a checked byte and is not durable.
#[derive(Clone, Copy, PartialEq, Eq)]
pub enum Kind {
    /// A loose part is not flushed, and a fence came after the store.
    MissingFlush,
    /// Each loose part is flushed, and no fence came after its flush.
    MissingFence,
    /// A loose part is not flushed, and no fence came after the store.
    MissingBoth,
}

/// A store that a check found not durable.
#[derive(Drop)]
pub struct Report {
    /// The number of the store's entry in the trace, from 1.
    pub entry: u128,
    /// The number of the check's entry in the trace, from 1.
    pub check_entry: u128,
    pub kind: Kind,
    /// The site of the flush that lacks a fence. It is given exactly for `MissingFence`.
    pub flush_site: Option<Site>,
    /// The store's site, then the site of the call that made its frame, and so on outward.
    pub path: Row<Site>,
    /// How many of the path's calls had returned before the check; they are the innermost ones.
    pub closed: usize,
}

/// A mark: a pointer operand of an instruction pointed into an object.
#[derive(Clone, Copy, PartialEq, Eq, Hash)]
pub struct Mark {
    pub site: Site,
    /// The number of the operand among the pointer operands of the instruction, counted from 0.
    pub operand: usize,
    pub object: Object,
}

/// What the pointers of a run pointed into, without repeats, in the order in which they first occur.
#[derive(Drop)]
pub struct Marks {
    pub pointed: Row<Mark>,
    /// The numbers of the persistent globals that were stored into.
    pub hit: Row<usize>,
}

/// What a run found.
pub struct Findings {
    pub reports: Row<Report>,
    pub marks: Marks,
}

impl Drop for Findings {
    fn drop(self) {
        let Findings {
            reports: _,
            marks: _,
        } = self;
    }
}
