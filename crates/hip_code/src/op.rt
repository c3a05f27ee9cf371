use hip_types::Width;

/// The place from which an op takes a value: a register's slot in its frame, or a place in the table of constants.
#[derive(Clone, Copy)]
pub enum OpOperand {
    Register(u32),
    Constant(u32),
}

/// Consecutive entries of a table: the place of the first one, and how many there are.
#[derive(Clone, Copy)]
pub struct Span {
    pub from: u32,
    pub count: u32,
}

/// Sums, differences and products.
#[derive(Clone, Copy)]
pub enum SumOp {
    Add,
    Sub,
    Mul,
}

/// Operations bit by bit.
#[derive(Clone, Copy)]
pub enum BitOp {
    And,
    Or,
    Xor,
}

#[derive(Clone, Copy)]
pub enum ShiftOp {
    Shl,
    Lshr,
    Ashr,
}

/// An operation on two integers other than a division.
#[derive(Clone, Copy)]
pub enum IntegerOp {
    Sum(SumOp),
    Bit(BitOp),
    Shift(ShiftOp),
}

/// A division: of integers with a sign or without one, for the rest or for the quotient.
#[derive(Clone, Copy)]
pub struct DivisionOp {
    pub signed: bool,
    pub rest: bool,
}

/// A test of two integers: whether they are equal, or the first one is less, without a sign or with one.
#[derive(Clone, Copy)]
pub enum Comparison {
    Equal,
    Less,
    SignedLess,
}

/// An address that is computed from a base, modulo 2^64. Scales and offsets are in bytes, and an index is sign-extended
/// to 64 bits from its width.
#[derive(Clone, Copy)]
pub enum Gep {
    /// The base and an offset.
    Fixed {
        base: OpOperand,
        offset: u64,
    },
    /// The base, an offset, and an index times a scale.
    Scaled {
        base: OpOperand,
        index: OpOperand,
        width: Width,
        scale: u32,
        offset: u32,
    },
    /// The base, an offset, and entries of the table of terms.
    Terms {
        base: OpOperand,
        offset: u64,
        terms: Span,
    },
}

/// An index times a scale.
#[derive(Clone, Copy)]
pub struct Term {
    pub index: OpOperand,
    pub width: Width,
    pub scale: u32,
}

/// An op that gives a value.
#[derive(Clone, Copy)]
pub enum Value {
    Integer {
        op: IntegerOp,
        width: Width,
        a: OpOperand,
        b: OpOperand,
    },
    Gep(Gep),
    Rest(Rest),
}

#[derive(Clone, Copy)]
pub enum Rest {
    /// 1 if the comparison holds, or, where it is negated, if it does not hold.
    Compare {
        test: Comparison,
        negated: bool,
        width: Width,
        a: OpOperand,
        b: OpOperand,
    },
    /// The value cut to the width `to`; if the cast is signed, the value is first sign-extended from the width `from`.
    Cast {
        signed: bool,
        from: Width,
        to: Width,
        a: OpOperand,
    },
    Other(Other),
}

#[derive(Clone, Copy)]
pub enum Other {
    Select {
        test: OpOperand,
        a: OpOperand,
        b: OpOperand,
    },
    Divide {
        op: DivisionOp,
        width: Width,
        a: OpOperand,
        b: OpOperand,
    },
}

/// An op on memory, on cache lines or on the outside. Sizes and alignments are in bytes; `dest` is the slot of a
/// result.
#[derive(Clone, Copy)]
pub enum Memory {
    Load {
        dest: u32,
        width: Width,
        align: u32,
        addr: OpOperand,
    },
    Store {
        size: u32,
        align: u32,
        value: OpOperand,
        addr: OpOperand,
    },
    Effect(Effect),
}

#[derive(Clone, Copy)]
pub enum Effect {
    /// A new block on the stack.
    Alloca { dest: u32, size: u32, align: u32 },
    Persistence(Persistence),
    Outside(Outside),
}

#[derive(Clone, Copy)]
pub enum Persistence {
    /// The flush of the line of an address.
    Flush(OpOperand),
    Fence,
    /// The flush of the lines of a range, which a fence may follow.
    Range {
        addr: OpOperand,
        size: OpOperand,
        fence: bool,
    },
}

#[derive(Clone, Copy)]
pub enum Outside {
    /// The check of a range of the region.
    Assert { addr: OpOperand, size: OpOperand },
    Print(OpOperand),
    /// The next input number.
    Read(Option<u32>),
}

/// What an edge or a call moves into a slot: a phi's operand for the block that control comes from, or the argument for
/// a parameter.
#[derive(Clone, Copy)]
pub struct Move {
    pub dest: u32,
    pub value: OpOperand,
}

/// An edge to a block of the same function: the place of its first op, its number, and the moves.
#[derive(Clone, Copy)]
pub struct OpEdge {
    pub target: u32,
    pub block: u32,
    pub moves: Span,
}

/// A value of a switch, and the number of the edge that it takes.
#[derive(Clone, Copy)]
pub struct EdgeCase {
    pub value: u64,
    pub edge: u32,
}

/// An op after which control goes elsewhere.
#[derive(Clone, Copy)]
pub enum Control {
    Go(Go),
    Call(Call),
    Exit(Exit),
}

/// A branch along edges, which are named by their numbers.
#[derive(Clone, Copy)]
pub enum Go {
    Cond {
        test: OpOperand,
        yes: u32,
        no: u32,
    },
    Br(u32),
    Switch {
        value: OpOperand,
        cases: Span,
        other: u32,
    },
}

/// A call of the function of that number, which begins at a place and has that number of registers; `frame` is how many
/// slots the caller keeps, the arguments are moves into the slots of the callee, and `pointed` says whether one of them
/// is a pointer.
#[derive(Clone, Copy)]
pub struct Call {
    pub target: u32,
    pub function: u32,
    pub size: u32,
    pub frame: u32,
    pub arguments: Span,
    pub dest: Option<u32>,
    pub pointed: bool,
}

/// A return with a value or without one, or a place that control never reaches.
#[derive(Clone, Copy)]
pub enum Exit {
    Value(OpOperand),
    Nothing,
    Unreachable,
}

/// The op at a place of the code.
#[derive(Clone, Copy)]
pub enum Op {
    /// A value that goes into a slot.
    Value { dest: u32, value: Value },
    Memory(Memory),
    Control(Control),
}
