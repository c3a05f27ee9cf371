/// How many picks may be given for one image.
pub const MOST_PICKS: u64 = 1_048_576;
