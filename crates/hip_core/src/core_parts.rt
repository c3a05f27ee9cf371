ghost use Rattle.std.specs.Prelude.{◌≡◌, ◌+◌, ◌-◌, ◌<◌, ◌≤◌, ◌^◌, length, slice_set, Some};
ghost use Rattle.hip_core.specs.Room.{HasRoom, HasTurn};

use hip_code::OpEdge;
use hip_objects::StackBlocks;
use hip_runs::Ending;
use hip_storage::Storage;
use hip_tree::Site;

/// A frame of a call: the place of its next op, and that of the first op of its block; the place of its first slot; the
/// stack's mark at its call, and the number of blocks on the stack at that time; the numbers of its function and of its
/// block; the slot of its caller that its result goes to; and, while it waits for a call that it made, the number of
/// steps taken before that call.
#[derive(Clone, Copy, Drop)]
pub struct Activation {
    pub place: usize,
    pub entry: usize,
    pub base: usize,
    pub mark: u64,
    pub blocks: usize,
    pub function: u32,
    pub block: u32,
    pub dest: Option<u32>,
    pub left: u128,
}

/// The state of a machine: the frame on top, and those below it from the bottom one up; the slots of all frames; the
/// blocks of all frames, the oldest first; room for the values of moves; memory; how many input numbers were read, and
/// the counts.
#[derive(Drop)]
pub struct Core {
    pub top: Activation,
    pub turns: u64,
    pub limit: u64,
    pub taken: u128,
    pub ending: Option<Ending>,
    pub slots: Vec<u64>,
    pub values: Vec<u64>,
    pub saved: Vec<Activation>,
    pub blocks: StackBlocks,
    pub read: usize,
    pub storage: Storage,
}

impl Core {
    /// The run ends here, before the op.
    #[inline(always)]
    pub fn cut(&mut self, ending: Ending)
        requires { self.old.taken + 1 < 2 ^ 128 }
        ensures { self.new ≡ record self.old { ending = Some ending; taken = self.old.taken + 1 } }
    {
        self.ending = Some(ending);
        self.taken += 1;
    }

    /// The run ends here, in a turn.
    #[inline(always)]
    pub fn stop(&mut self, ending: Ending)
        requires taken { self.old.taken + 1 < 2 ^ 128 }
        requires turns { self.old.turns + 1 < 2 ^ 64 }
        ensures { self.new ≡ record self.old {
          ending = Some ending;
          taken = self.old.taken + 1;
          turns = self.old.turns + 1;
        } }
    {
        self.ending = Some(ending);
        self.taken += 1;
        self.turns += 1;
    }

    /// A turn is taken, and control goes along an edge.
    #[inline(always)]
    pub fn go(&mut self, edge: OpEdge)
        requires taken { self.old.taken + 1 < 2 ^ 128 }
        requires turns { self.old.turns + 1 < 2 ^ 64 }
        ensures { self.new ≡ record self.old {
          top = record self.old.top {
            place = edge.target;
            entry = edge.target;
            block = edge.block;
          };
          taken = self.old.taken + 1;
          turns = self.old.turns + 1;
        } }
    {
        self.top.place = edge.target as usize;
        self.top.entry = edge.target as usize;
        self.top.block = edge.block;
        self.taken += 1;
        self.turns += 1;
    }

    /// Goes to the next op, in a turn.
    #[inline(always)]
    pub fn pass(&mut self)
        requires room { HasTurn self.old }
        ensures { self.new ≡ record self.old {
          top = record self.old.top { place = self.old.top.place + 1 };
          taken = self.old.taken + 1;
          turns = self.old.turns + 1;
        } }
    {
        self.top.place += 1;
        self.taken += 1;
        self.turns += 1;
    }

    /// Goes to the next op, without a turn.
    #[inline(always)]
    pub fn move_on(&mut self)
        requires room { HasRoom self.old }
        ensures { self.new ≡ record self.old {
          top = record self.old.top { place = self.old.top.place + 1 };
          taken = self.old.taken + 1;
        } }
    {
        self.top.place += 1;
        self.taken += 1;
    }

    /// The site of the top frame's place.
    #[inline(always)]
    pub fn site(&self) -> Site
        requires { self.now.top.entry ≤ self.now.top.place }
        ensures { result ≡ record {
          function = self.now.top.function;
          block = self.now.top.block;
          index = self.now.top.place - self.now.top.entry;
        } }
    {
        Site {
            function: self.top.function as usize,
            block: self.top.block as usize,
            index: self.top.place - self.top.entry,
        }
    }

    /// A slot takes a value, in a turn.
    #[inline(always)]
    pub fn assign(&mut self, slot: u32, value: u64)
        requires room { HasTurn self.old }
        requires slot { self.old.top.base + slot < length self.old.slots.items }
        ensures others { self.new ≡ record self.old {
          slots = self.new.slots;
          top = record self.old.top
              { place = self.old.top.place + 1 };
          taken = self.old.taken + 1;
          turns = self.old.turns + 1;
        } }
        ensures slots { self.new.slots.items ≡ slice_set self.old.slots.items (self.old.top.base + slot) value }
    {
        self.slots[self.top.base + slot as usize] = value;
        self.top.place += 1;
        self.taken += 1;
        self.turns += 1;
    }
}
