use hip_tree::Site;
use hip_types::Row;

/// Where a program is repaired. In a plan that suits a program, each list is strictly ascending.
#[derive(Drop)]
pub struct Plan {
    /// The stores after which a flush is put.
    pub flush_after: Row<Site>,
    /// The flushes after which a fence is put: flush calls, and stores after which a flush is put.
    pub fence_after: Row<Site>,
    /// The calls of defined functions that go to clones, with a fence after each.
    pub hoist: Row<Site>,
}

/// A clone: the number of its original and its own number.
#[derive(Clone, Copy, PartialEq, Eq)]
pub struct CloneOf {
    pub original: usize,
    pub copy: usize,
}
