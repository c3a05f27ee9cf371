/// Why a load was refused.
#[derive(Clone, Copy, Debug, PartialEq, Eq)]
pub enum MemTrap {
    /// The address is not a multiple of the alignment of the access.
    Misaligned,
    /// Some byte of the access is not valid.
    BadAddress,
}

/// Why a store was refused.
#[derive(Clone, Copy, Debug, PartialEq, Eq)]
pub enum StoreRefusal {
    /// The address is not a multiple of the alignment of the access.
    Misaligned,
    /// Some byte of the access is not valid.
    BadAddress,
    /// There was no memory for a page.
    NoMemory,
}

/// Why a stack block was refused.
#[derive(Clone, Copy, Debug, PartialEq, Eq)]
pub enum PushRefusal {
    /// The new mark would pass the stack's end.
    StackFull,
    /// Memory ran out.
    NoMemory,
}
