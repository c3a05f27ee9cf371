ghost use Rattle.std.specs.Prelude.{◌≡◌, ◌≤◌, ◌+◌, [], ◌∷◌, ◌++◌, cond, length, take, nat_le, nat_lt, OnOk, OnErr, Some, None};
ghost use Rattle.hip_objects.specs.Blocks.{AreStacked, IsPast, object_in, sited, slots_of};
ghost use Rattle.hip_objects.specs.Order.{AreSplit};

use hip_tree::Site;
use hip_types::NoMemory;
use std::alloc::Global;
use std::marker::Model;

/// A block on the stack: its address and its size in bytes, and the site of the `alloca` that made it.
#[derive(Clone, Copy)]
pub struct StackBlock {
    pub addr: u64,
    pub size: u64,
    pub site: Site,
}

/// The blocks on the stack that have at least one byte, the oldest first, each after the ones before it. An empty block
/// has no byte at any address, so the list does not keep it.
#[derive(Drop)]
pub struct StackBlocks {
    blocks: Vec<StackBlock>,
}

impl Model for StackBlocks {
    ghost use Rattle.std.specs.Prelude.{List};
    ghost use Rattle.hip_runs.specs.State.{Slot};

    ghost Value = { List Slot };

    ghost use Rattle.hip_objects.specs.Blocks.{slots_of, AreStacked};

    ghost view = { λ b. slots_of b.blocks.items };

    ghost invariant = { λ b. AreStacked b.blocks.items };
}

impl StackBlocks {
    ghost use Rattle.hip_objects.specs.Blocks.{slot_of, nonempty};

    pub fn new(alloc: Global) -> StackBlocks
        ensures { result ≡ [] }
    {
        StackBlocks {
            blocks: Vec::new(alloc),
        }
    }

    /// How many blocks there are.
    pub fn len(&self) -> usize
        ensures { result ≡ length self.now }
    {
        self.blocks.len()
    }

    /// A new block, which begins at the end of the newest one or after it. It is kept if it has a byte.
    pub fn push(&mut self, block: StackBlock) -> Result<(), NoMemory>
        requires { IsPast block.addr self.old }
        ensures ok { OnOk result (self.new ≡ self.old ++ nonempty (slot_of block ∷ [])) }
        ensures err { OnErr result (self.new ≡ self.old) }
    {
        if block.size == 0 {
            return Ok(());
        }
        self.keep(block)
    }

    // Puts a block after the others.
    fn keep(&mut self, block: StackBlock) -> Result<(), NoMemory>
        requires { IsPast block.addr self.old }
        ensures ok { OnOk result (self.new ≡ self.old ++ slot_of block ∷ []) }
        ensures err { OnErr result (self.new ≡ self.old) }
    {
        match self.blocks.push(block) {
            Ok(()) => Ok(()),
            Err(_) => Err(NoMemory),
        }
    }

    /// Keeps the oldest `count` blocks.
    pub fn truncate(&mut self, count: usize)
        ensures { self.new ≡ take count self.old }
    {
        self.blocks.truncate(count);
    }

    /// The site of the `alloca` whose block has the byte at the address.
    pub fn site_at(&self, addr: u64) -> Option<Site>
        ensures { sited result ≡ object_in self.now addr }
    {
        site_in(self.blocks.as_slice(), addr)
    }
}

// The site of the block that has the byte at the address. Of the blocks that begin at or before it, only the newest one
// can have it.
fn site_in(blocks: &[StackBlock], addr: u64) -> Option<Site>
    requires { AreStacked blocks.now }
    ensures { sited result ≡ object_in (slots_of blocks.now) addr }
{
    let count = count_upto(blocks, addr);
    if count == 0 {
        return None;
    }
    site_of(&blocks[count - 1], addr)
}

// The site of the block, if it has the byte at the address.
fn site_of(block: &StackBlock, addr: u64) -> Option<Site>
    requires { block.now.addr ≤ addr }
    ensures { result ≡ cond (nat_lt addr (block.now.addr + block.now.size)) (Some block.now.site) None }
{
    if addr - block.addr < block.size {
        Some(block.site)
    } else {
        None
    }
}

// How many blocks begin at or before the address.
fn count_upto(blocks: &[StackBlock], addr: u64) -> usize
    requires { AreStacked blocks.now }
    ensures few { result ≤ length blocks.now }
    ensures split { AreSplit (λ b. b.addr) blocks.now addr result }
{
    blocks.partition_point(
        |block: &StackBlock| -> bool
            ensures { result ≡ nat_le block.now.addr addr }
        { block.addr <= addr },
    )
}
