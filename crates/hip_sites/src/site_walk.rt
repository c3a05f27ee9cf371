ghost use Rattle.std.specs.Prelude.{◌≡◌, ◌++◌, All, Bool, IfOk, OnOk};
ghost use Rattle.hip_tree.specs.declared.instr.Instr.{Instr};
ghost use Rattle.hip_sites.specs.SiteWalk.{passing_in_blocks, passing_in_body};

use hip_tree::{Block, Instr, Site};
use hip_types::{NoMemory, Row};

/// A test of the instructions of one function.
pub trait InstrTest {
    ghost test: { Self → Instr → Bool };

    ghost takes: { Self → Instr → Type 0 };

    /// Whether an instruction passes.
    fn passes(&self, instr: &Instr) -> Result<bool, NoMemory>
        requires { takes self.now instr.now }
        ensures { IfOk result (λ passes. passes ≡ test self.now instr.now) };
}

/// Adds the sites of the instructions of a body that pass a test.
fn add_in_body<T: InstrTest>(
    sites: &mut Row<Site>,
    test: &T,
    function: usize,
    block: usize,
    body: &[Instr],
) -> Result<(), NoMemory>
    requires { All (T.takes test.now) body.now }
    ensures { OnOk result (sites.new
        ≡ sites.old ++ passing_in_body (T.test test.now) function block 0 body.now) }
{
    'each: for index in 0..body.len() {
        if test.passes(&body[index])? {
            sites.push(Site {
                function,
                block,
                index,
            })?;
        }
    }
    Ok(())
}

/// Adds the sites of the instructions of a function's blocks that pass a test, in their order.
pub fn add_passing<T: InstrTest>(
    sites: &mut Row<Site>,
    test: &T,
    function: usize,
    blocks: &[Block],
) -> Result<(), NoMemory>
    requires { All (λ b. All (T.takes test.now) b.body) blocks.now }
    ensures { OnOk result (sites.new
        ≡ sites.old ++ passing_in_blocks (T.test test.now) function 0 blocks.now) }
{
    'each: for block in 0..blocks.len() {
        add_in_body(sites, test, function, block, blocks[block].body.as_slice())?;
    }
    Ok(())
}
