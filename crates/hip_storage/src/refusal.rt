use hip_runs::TrapKind;

/// Why a store or a block on the stack was refused.
#[derive(Clone, Copy, PartialEq, Eq)]
pub enum StorageRefusal {
    /// The run ends here with this trap.
    Trap(TrapKind),
    /// Out of memory.
    NoMemory,
}
