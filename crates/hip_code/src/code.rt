use crate::op::{EdgeCase, Move, Op, OpEdge, Term};

/// A resolved program: the ops of all functions, each block's end after its body, the tables whose entries ops name,
/// and for each function the place of its first op and the number of its registers.
#[derive(Drop)]
pub struct Code {
    pub ops: Vec<Op>,
    pub constants: Vec<u64>,
    pub terms: Vec<Term>,
    pub moves: Vec<Move>,
    pub edges: Vec<OpEdge>,
    pub cases: Vec<EdgeCase>,
    pub starts: Vec<u32>,
    pub sizes: Vec<u32>,
}
