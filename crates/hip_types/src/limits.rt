/// How many bytes a type and each type inside it may have.
pub const LARGEST_TYPE: u64 = 67_108_864;

/// How deep types, lists of constants and constant `getelementptr`s may be nested, a scalar being 0 deep.
pub const DEEPEST_NESTING: u64 = 32;

/// How many elements an array may have.
pub const LARGEST_COUNT: u64 = 67_108_864;

/// How many bytes the persistent region may have.
pub const LARGEST_REGION: u64 = 67_108_864;

/// How many bytes the volatile globals may take, from their start to the end of the last one.
pub const LARGEST_VOLATILE: u64 = 16_777_216;

/// The largest alignment. The alignments are the powers of two from 1 on that divide it.
pub const LARGEST_ALIGNMENT: u64 = 4_096;

/// The number of which the base of the persistent region is a multiple, so that every alignment divides it.
pub const BASE_ALIGNMENT: u64 = 4_096;

/// The lowest base of the persistent region, 2^32.
pub const LOWEST_BASE: u64 = 0x1_0000_0000;

/// The highest base of the persistent region, 2^46.
pub const HIGHEST_BASE: u64 = 0x4000_0000_0000;
