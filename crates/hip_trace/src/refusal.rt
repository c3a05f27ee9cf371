/// Why there is no next entry.
#[derive(Clone, Copy, Debug, PartialEq, Eq)]
pub enum TraceRefusal {
    /// The piece spells no entry, or has more than 256 bytes.
    Malformed,
    /// A read of the file failed.
    ReadFault,
}

/// Whether a reader reads on, or always answers the same from now on.
#[derive(Clone, Copy, PartialEq, Eq)]
pub enum Progress {
    Reading,
    /// The file has ended.
    Ended,
    Refused(TraceRefusal),
}
