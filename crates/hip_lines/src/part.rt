/// A store's bytes in one line: their offset in the region, their number, and the store's tag.
#[derive(Clone, Copy, PartialEq, Eq, Drop)]
pub struct Part {
    pub offset: u64,
    pub size: u32,
    pub tag: u128,
}

/// A byte of the region that is not durable, by the last part over it.
#[derive(Clone, Copy, PartialEq, Eq, Drop)]
pub struct LooseByte {
    /// The byte's offset in the region.
    pub offset: u64,
    /// The tag of the part's store.
    pub tag: u128,
    /// Whether the part is flushed.
    pub flushed: bool,
}
