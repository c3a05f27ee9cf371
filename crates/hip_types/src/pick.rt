/// How many parts of its stores, counted from the first, a cache line has in a crash image.
#[derive(Debug, Clone, Copy, PartialEq, Eq, Drop)]
pub struct Pick {
    /// The line's number in the region, counted from 0.
    pub line: u64,
    pub upto: u64,
}

/// The bounds of a cache line: the least and the greatest number of parts, counted from the first, that a crash may
/// leave in it.
#[derive(Clone, Copy, PartialEq, Eq, Drop)]
pub struct Bounds {
    /// The number of durable parts.
    pub least: u64,
    /// The number of all parts.
    pub most: u64,
}

/// Why an image was not picked. The first pick that fails is named, counted from 1.
#[derive(Debug, Clone, Copy, PartialEq, Eq)]
pub enum PickRefusal {
    /// The line is not in the region.
    NoLine { at: usize },
    /// An earlier pick names the line.
    Repeated { at: usize },
    /// The number is outside the line's bounds.
    OutOfRange { at: usize, least: u64, most: u64 },
    NoMemory,
}
