/// The first number that is no seed, 2^31.
pub const SEED_END: u64 = 2_147_483_648;

/// The largest size of a generated program.
pub const LARGEST_SIZE: u64 = 50_000;

/// The number of elements of the volatile array of a generated program.
pub const VOLATILE_LENGTH: u64 = 8;
