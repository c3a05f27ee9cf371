/// The largest number of traces for one repair.
pub const MOST_TRACES: u64 = 1_024;
