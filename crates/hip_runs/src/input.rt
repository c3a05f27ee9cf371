use hip_image::Image;
use hip_types::Row;

/// What a run is given: where the persistent region begins and what it contains, the numbers to read, and a limit.
#[derive(Drop)]
pub struct Input {
    /// The address of the region's first byte: a multiple of 4,096 from 2^32 to 2^46.
    pub base: u64,
    /// The initial bytes of the region, as many as the program's region has.
    pub image: Image,
    /// The numbers that `read_i64` gives, in order; at most 1,048,576.
    pub numbers: Row<i64>,
    /// How many turns the run has; at most 2^40.
    pub limit: u64,
}

/// Why an input is not valid for a program.
#[derive(Debug, Clone, Copy, PartialEq, Eq)]
pub enum InputFault {
    /// The base is not a multiple of 4,096, or is not in the range from 2^32 to 2^46.
    BadBase,
    /// There are not as many initial bytes as the program's region has.
    BadImage,
    /// There are more than 1,048,576 numbers.
    TooManyNumbers,
    /// The limit is above 2^40.
    BadLimit,
}
