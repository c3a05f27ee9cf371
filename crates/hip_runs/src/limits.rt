/// How many frames there may be at once, with the frame of `main`.
pub const MOST_FRAMES: u64 = 16_384;

/// How many turns an input may allow.
pub const MOST_TURNS: u64 = 1_099_511_627_776;

/// How many numbers an input may have.
pub const MOST_NUMBERS: u64 = 1_048_576;

/// How many turns a run has if no limit is given.
pub const DEFAULT_LIMIT: u64 = 1_000_000_000;
