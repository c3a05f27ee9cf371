//! All parts that are pending on a line by the rules; a queue keeps only those that can still be seen. This exists only
//! in proofs: it takes no memory, and its methods do nothing when they run.

ghost use Rattle.std.specs.Prelude.{◌≡◌};
ghost use Rattle.std.specs.Borrow.{ftrue};
ghost use Rattle.hip_lines.specs.declared.part.Part.{Part};
ghost use Rattle.hip_lines.specs.Pending.{Pending, none_pending};

use crate::part::Part;
use std::marker::Model;

/// All pending parts of a line.
#[derive(Drop)]
pub struct History {
    pub ghost pending: { Pending Part },
}

impl Model for History {
    ghost also_owns = { λ _. ftrue };
}

/// What changes the pending parts of a line.
#[derive(Clone, Copy, Drop)]
pub enum Change {
    Store(Part),
    Flush,
    Fence,
}

impl History {
    ghost use Rattle.hip_lines.specs.Changes.{changed};

    pub fn new() -> History
        ensures { result.pending ≡ none_pending }
    {
        History {}
    }

    #[inline(always)]
    pub fn then(&self, _change: &Change) -> History
        ensures { result.pending ≡ changed self.now.pending _change.now }
    {
        History {}
    }
}
