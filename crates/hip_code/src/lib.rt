//! The resolved program: operands as slots or constants, labels and callees as places, and what its ops give.
#![tactic(auto)]

mod calculate;
mod code;
mod integers;
mod op;

pub use calculate::{read, result_of};
pub use code::Code;
pub use integers::extend;
pub use op::{
    BitOp, Call, Comparison, Control, DivisionOp, EdgeCase, Effect, Exit, Gep, Go, IntegerOp,
    Memory, Move, Op, OpEdge, OpOperand, Other, Outside, Persistence, Rest, ShiftOp, Span, SumOp,
    Term, Value,
};
