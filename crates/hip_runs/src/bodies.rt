//! The lengths of bodies.

ghost use Rattle.std.specs.Prelude.{◌≡◌};
ghost use Rattle.hip_runs.specs.Ends.{longest, longest_body};

use hip_tree::{Block, Program};

/// The length of the longest body of these blocks.
fn longest_body(blocks: &[Block]) -> usize
    ensures { result ≡ longest_body blocks.now }
{
    let mut most = 0;
    'each: for block in blocks {
        most = block.body.len().max(most);
    }
    most
}

/// The length of the longest body of a program's blocks, which bounds the steps of its runs. It takes time linear in
/// the number of blocks.
pub fn longest(program: &Program) -> usize
    ensures { result ≡ longest program.now }
{
    let mut most = 0;
    'functions: for function in program.functions.as_slice() {
        most = longest_body(function.blocks.as_slice()).max(most);
    }
    most
}
