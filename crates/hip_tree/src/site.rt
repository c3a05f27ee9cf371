ghost use Rattle.std.specs.Prelude.{◌≡◌};
ghost use Rattle.std.specs.Option.{option_copied};
ghost use Rattle.hip_tree.specs.Sites.{instr_of};

use crate::instr::Instr;
use crate::program::Program;

/// The place of an instruction: its function, its block, and its place in the block's body, each
/// numbered from 0 in the program's order.
#[derive(Clone, Copy, Debug, PartialEq, Eq, PartialOrd, Ord, Hash)]
pub struct Site {
    pub function: usize,
    pub block: usize,
    pub index: usize,
}

/// The instruction at a site. None exactly if the site does not exist.
pub fn instr_at(program: &Program, site: Site) -> Option<&Instr>
    ensures { option_copied result ≡ instr_of program.now site }
{
    let function = program.functions.as_slice().get(site.function)?;
    let block = function.blocks.as_slice().get(site.block)?;
    block.body.as_slice().get(site.index)
}
