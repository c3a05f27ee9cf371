/// The most bytes that a program's text may have.
pub const TEXT_LIMIT: u64 = 16_777_216;
