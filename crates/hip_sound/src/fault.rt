use hip_tree::Site;
use hip_types::Row;

/// The rule of soundness that a program breaks.
#[derive(Debug, Drop)]
pub enum TypeFault {
    BadShape,
    Duplicate,
    Unknown,
    Mismatch,
    NoMain,
    /// The path is a list of block numbers from the entry block to the block of the use. Nothing on it assigns the
    /// register before the use.
    Unassigned { path: Row<usize> },
    BadExtern,
    BadGlobal,
    BadEdge,
    TooLarge,
    NoMemory,
}

/// Where a program breaks a rule, by numbers from 0. In `Phi` the index is the number of the phi in its block.
#[derive(Clone, Copy, Debug, PartialEq, Eq)]
pub enum Place {
    Whole,
    Global(usize),
    Extern(usize),
    Head(usize),
    Phi(Site),
    Body(Site),
    End { function: usize, block: usize },
}

/// The first rule that a program breaks, at the first place.
#[derive(Debug, Drop)]
pub struct TypeRefusal {
    pub fault: TypeFault,
    pub place: Place,
}

/// The faults that the requirements find: all except those of paths and of spelling.
#[derive(Clone, Copy)]
pub enum Fault {
    Duplicate,
    Unknown,
    Mismatch,
    NoMain,
    BadExtern,
    BadGlobal,
    BadEdge,
    TooLarge,
}

/// A fault and its place.
#[derive(Clone, Copy)]
pub struct Finding {
    pub fault: Fault,
    pub place: Place,
}
