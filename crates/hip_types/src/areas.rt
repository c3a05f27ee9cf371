/// The first address of the volatile globals.
pub const VOLATILE_START: u64 = 65_536;

/// The first address of the stack.
pub const STACK_START: u64 = 268_435_456;

/// The most bytes that the stack may have.
pub const STACK_SIZE: u64 = 16_777_216;

/// The address after the stack's last byte.
pub const STACK_END: u64 = STACK_START + STACK_SIZE;

/// The number of bytes of a cache line. Each line begins at a multiple of it (Intel's manual).
pub const LINE_SIZE: u64 = 64;
