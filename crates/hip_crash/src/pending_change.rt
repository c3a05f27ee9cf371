use crate::values::StoredValue;

/// The last store or flush, which is not taken up into the kept lines yet, since that takes memory.
#[derive(Clone, Copy, Drop)]
pub enum Waiting {
    Nothing,
    /// The parts of a store in its lines from this one on.
    Store { stored: StoredValue, from: u64 },
    /// A flush of the lines that have a byte of a range.
    Flush { offset: u64, len: u64 },
}
