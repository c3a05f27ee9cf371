ghost use Rattle.std.specs.Prelude.{◌≡◌, ◌<◌, ◌≤◌, IfSome, Some, slice_get};
ghost use Rattle.hip_code.specs.Ops.{OpWithin, is_end};
ghost use Rattle.hip_core.specs.Acts.{IsReady, numbers_of};
ghost use Rattle.hip_runner.specs.OpsAhead.{may_point, site_by};
ghost use Rattle.hip_runner.specs.StoresAhead.{store_in};

use hip_code::{Code, Control, Memory, Op, read};
use hip_core::Core;
use hip_tree::Site;

/// The bytes that a store writes: the address of the first one, and their number, from 1 to 8.
#[derive(Clone, Copy)]
pub struct StoreAhead {
    pub addr: u64,
    pub size: u32,
}

// The store that an op makes in the top frame. None for any other op.
#[inline(always)]
fn store_of(core: &Core, code: &Code, op: &Op) -> Option<StoreAhead>
    requires { OpWithin (numbers_of code.now core.now) op.now }
    ensures store { result ≡ store_in (numbers_of code.now core.now) op.now }
    ensures sizes { IfSome result (λ store. (0 < store.size) × (store.size ≤ 8)) }
{
    match op {
        Op::Memory(Memory::Store { size, addr, .. }) => Some(StoreAhead {
            addr: read(code, core.slots.as_slice(), core.top.base, *addr),
            size: *size,
        }),
        _ => None,
    }
}

/// The store that the op at the core's place makes. None for any other op.
#[inline(always)]
pub fn store_here(core: &Core, code: &Code) -> Option<StoreAhead>
    requires { IsReady code.now core.now }
    ensures store { (op : Op) → slice_get code.now.ops.items core.now.top.place ≡ Some op →
        result ≡ store_in (numbers_of code.now core.now) op }
    ensures sizes { IfSome result (λ store. (0 < store.size) × (store.size ≤ 8)) }
{
    let op = &code.ops[core.top.place];
    store_of(core, code, op)
}

// Whether an op is the end of a block.
#[inline(always)]
fn is_end(op: &Op) -> bool
    ensures { result ≡ is_end op.now }
{
    match op {
        Op::Value { .. } => false,
        Op::Memory(_) => false,
        Op::Control(control) => !matches!(control, Control::Call(_)),
    }
}

/// The site of the core's place, if the op there is an instruction's.
#[inline(always)]
pub fn site_here(core: &Core, code: &Code) -> Option<Site>
    requires { IsReady code.now core.now }
    ensures { (op : Op) → slice_get code.now.ops.items core.now.top.place ≡ Some op → result ≡ site_by core.now op }
{
    let op = &code.ops[core.top.place];
    if is_end(op) {
        return None;
    }
    Some(core.site())
}

#[inline(always)]
fn may_point(op: &Op) -> bool
    ensures { result ≡ may_point op.now }
{
    match op {
        Op::Value { .. } => false,
        Op::Memory(memory) => matches!(memory, Memory::Store { .. }),
        Op::Control(control) => matches!(control, Control::Call(_)),
    }
}

/// Whether the op at the core's place may have pointer operands: a store, or a call of a function of the program.
#[inline(always)]
pub fn may_point_here(core: &Core, code: &Code) -> bool
    requires { IsReady code.now core.now }
    ensures { (op : Op) → slice_get code.now.ops.items core.now.top.place ≡ Some op → result ≡ may_point op }
{
    let op = &code.ops[core.top.place];
    may_point(op)
}
