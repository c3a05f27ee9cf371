use crate::instr::{Arg, Instr, Operand};
use hip_types::{Bits, Link, Name, Row, Scalar, Width};

/// What a phi instruction takes if control comes from one block.
#[derive(Drop)]
pub struct Edge {
    pub value: Operand,
    /// The predecessor's label.
    pub label: Name,
}

/// A phi instruction, which chooses a value by the block that control comes from.
#[derive(Drop)]
pub struct Phi {
    pub dest: Name,
    pub ty: Scalar,
    pub edges: Row<Edge>,
}

/// A case of a switch: where it goes for one value.
#[derive(Drop)]
pub struct Case {
    pub value: Bits,
    pub label: Name,
}

/// The instruction that ends a basic block.
pub enum End {
    /// A branch to a block.
    Br {
        label: Name,
    },
    /// A branch to one of two blocks, by a value of type i1.
    CondBr {
        cond: Link<Operand>,
        yes: Name,
        no: Name,
    },
    /// A branch to the block of the case with the value, else to `other`.
    Switch {
        width: Width,
        value: Link<Operand>,
        other: Name,
        cases: Row<Case>,
    },
    /// The return from the function, with its result.
    Ret(Option<Arg>),
    /// A place that control never reaches.
    Unreachable,
}

impl Drop for End {
    fn drop(self) {
        match self {
            End::Br { label: _ } => {}
            End::CondBr {
                cond: _,
                yes: _,
                no: _,
            } => {}
            End::Switch {
                width: _,
                value: _,
                other: _,
                cases: _,
            } => {}
            End::Ret(_) => {}
            End::Unreachable => {}
        }
    }
}

/// A basic block: its phi instructions, then its other instructions, then its end.
pub struct Block {
    pub label: Name,
    pub phis: Row<Phi>,
    pub body: Row<Instr>,
    pub end: End,
}

impl Drop for Block {
    fn drop(self) {
        let Block {
            label: _,
            phis: _,
            body: _,
            end: _,
        } = self;
    }
}
