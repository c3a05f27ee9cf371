ghost use Rattle.std.specs.Prelude.{◌≡◌, ◌↔◌, IsTrue};
ghost use Rattle.hip_trace.specs.Entries.{trap_text};

/// The word for the kind of a trap.
#[derive(Clone, Copy, PartialEq, Eq)]
pub enum TrapWord {
    DivZero,
    DivOverflow,
    ShiftRange,
    Address,
    Misaligned,
    Stack,
    Depth,
    InputEnd,
    Unreachable,
}

/// An entry of a trace. Addresses and sizes are in bytes.
#[derive(Clone, Copy, PartialEq, Eq)]
pub enum Entry {
    /// The limit of turns.
    Start { limit: u64 },
    /// Where the persistent region begins, and how many bytes it has.
    Register { base: u64, size: u64 },
    /// A number that the run reads.
    Input { number: i64 },
    /// The initial bytes of a cache line of the region.
    Image { addr: u64, bytes: [u8; 64] },
    /// A store into the region, of 1, 2, 4 or 8 bytes. The value is the number in its bytes, the lowest byte first.
    Store { addr: u64, value: u64, size: u32 },
    /// A flush of cache lines: the first one's address, and 64 times their number.
    Flush { addr: u64, size: u64 },
    Fence,
    /// A flush of cache lines with a fence after it.
    Persist { addr: u64, size: u64 },
    /// A range that was checked.
    Assert { addr: u64, size: u64 },
    /// `main` returned this number.
    Stop { code: i32 },
    Trap { kind: TrapWord },
    /// The limit of turns was reached.
    Cut,
}

impl TrapWord {
    /// The word as a trace has it.
    pub(crate) fn text(self) -> &'static [u8]
        ensures { result.now ≡ trap_text self }
    {
        match self {
            TrapWord::DivZero => b"divzero",
            TrapWord::DivOverflow => b"divoverflow",
            TrapWord::ShiftRange => b"shift",
            TrapWord::Address => b"address",
            TrapWord::Misaligned => b"misaligned",
            TrapWord::Stack => b"stack",
            TrapWord::Depth => b"depth",
            TrapWord::InputEnd => b"input",
            TrapWord::Unreachable => b"unreachable",
        }
    }
}

impl Entry {
    /// Whether two entries are equal in kind and in all values.
    pub fn same(&self, other: &Entry) -> bool
        ensures { IsTrue result ↔ (self.now ≡ other.now) }
    {
        self == other
    }
}
