use hip_tree::Site;

/// Why a run stopped short.
#[derive(Clone, Copy, PartialEq, Eq)]
pub enum TrapKind {
    /// A division by 0.
    DivZero,
    /// The least number divided by -1.
    DivOverflow,
    /// A shift by as many bits as the number has, or more.
    ShiftRange,
    /// An access to bytes that are not all valid.
    Address,
    /// An access at an address that is not a multiple of its alignment.
    Misaligned,
    /// No room on the stack.
    Stack,
    /// A call past 16,384 frames.
    Depth,
    /// A read past the last input number.
    InputEnd,
    /// An `unreachable` that was reached.
    Unreachable,
}

/// How a run ended.
#[derive(Clone, Copy, PartialEq, Eq)]
pub enum Ending {
    /// `main` returned this number.
    Stop(i32),
    Trap(TrapKind),
    /// The limit of turns was reached.
    Cut,
}

/// What a step did that can be seen from outside. Stores, flushes and asserts are of the persistent region.
#[derive(Clone, Copy, PartialEq, Eq)]
pub enum Event {
    /// None of the following.
    Quiet,
    /// A number was printed.
    Print(i64),
    /// A store of `size` bytes.
    Store { addr: u64, value: u64, size: u32 },
    /// A flush of cache lines: the first one's address, and 64 times their number.
    Flush { line: u64, size: u64 },
    /// A flush of cache lines with a fence after it. The fields are those of `Flush`.
    Persist { line: u64, size: u64 },
    Fence,
    /// `pm_assert` of a range.
    Assert { addr: u64, size: u64 },
    /// The run ended in this step, or had ended before.
    End(Ending),
}

/// What an address may point into.
#[derive(Clone, Copy, PartialEq, Eq, Hash)]
pub enum Object {
    /// The global of that number.
    Global(usize),
    /// A live block of the `alloca` at that site.
    Slot(Site),
}
