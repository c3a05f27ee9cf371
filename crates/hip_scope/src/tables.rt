ghost use Rattle.std.specs.Prelude.{◌≡◌, ◌<◌, Some, length, slice_get, IfOk, OnOk};
ghost use Rattle.hip_scope.specs.Grown.{grown};
ghost use Rattle.hip_scope.specs.Growth.{Makes, OnlyConstants};
ghost use Rattle.hip_scope.specs.Known.{IsConstant};

use hip_code::{EdgeCase, Move, OpEdge, OpOperand, Term};
use hip_types::{NoMemory, Row};
use std::alloc::Global;

/// The tables of a resolved program while it is made. Each of them only grows, at its end.
#[derive(Drop)]
pub struct Growing {
    pub constants: Row<u64>,
    pub terms: Row<Term>,
    pub moves: Row<Move>,
    pub edges: Row<OpEdge>,
    pub cases: Row<EdgeCase>,
}

impl Growing {
    pub fn new(alloc: Global) -> Growing {
        Growing {
            constants: Row::new(alloc),
            terms: Row::new(alloc),
            moves: Row::new(alloc),
            edges: Row::new(alloc),
            cases: Row::new(alloc),
        }
    }

    /// Adds a number to the table of constants.
    pub fn constant(&mut self, value: u64) -> Result<OpOperand, NoMemory>
        ensures stands { IfOk result (λ o. Makes (grown self.old) (grown self.new)
            (λ t. IsConstant t.constants o value)) }
        ensures others { OnOk result (OnlyConstants (grown self.old) (grown self.new)) }
    {
        let place = place(self.constants.len())?;
        self.constants.push(value)?;
        Ok(OpOperand::Constant(place))
    }
}

/// A place in a table; a table with 2^32 entries or more is out of memory.
pub fn place(len: usize) -> Result<u32, NoMemory>
    ensures { IfOk result (λ place. place ≡ len) }
{
    match u32::try_from(len) {
        Ok(place) => Ok(place),
        Err(_) => Err(NoMemory),
    }
}

pub fn number_at(numbers: &[u32], index: usize) -> u32
    requires { index < length numbers.now }
    ensures { slice_get numbers.now index ≡ Some result }
{
    numbers[index]
}
