//! How many slots a frame keeps during a call, for each block of its function.

ghost use Rattle.std.specs.Prelude.{◌≡◌, ◌+◌, ◌≤◌, [], ◌∷◌, nat_lt, length, map, if◌then◌else◌, IfOk, OnOk};
ghost use Rattle.hip_resolve.specs.Extents.{AreExtents, LeadsNoLower};
ghost use Rattle.hip_sound.specs.Registers.{assigned_by, block_registers, body_registers, end_labels};
ghost use Rattle.hip_sound.specs.Sound.{register_names};

use hip_names::NameSet;
use hip_scope::place;
use hip_tree::{Block, Case, End, Function, Instr};
use hip_types::{Name, NoMemory, Row};
use std::alloc::Global;

// ---- registers

/// How many registers an instruction assigns.
fn assigns(instr: &Instr) -> usize
    ensures { result ≡ length (assigned_by instr.now) }
{
    match instr {
        Instr::Store { .. } => 0,
        Instr::Call { dest: None, .. } => 0,
        _ => 1,
    }
}

/// How many registers the instructions of a body assign.
fn assigned(body: &[Instr]) -> usize
    ensures { result ≡ length (body_registers body.now) }
{
    let mut count = 0;
    'each: for instr in body {
        count += assigns(instr);
    }
    count
}

// ---- labels

/// The lower of a number and the number of the block with a label.
fn lower(labels: &NameSet<'_>, label: &Name, low: usize) -> usize
    ensures below { result ≤ low }
    ensures label { LeadsNoLower labels.now (label.now ∷ []) result }
{
    match labels.number_of(label.as_slice()) {
        Some(number) => number.min(low),
        None => low,
    }
}

/// The lowest of a number and the numbers of the blocks to which cases lead.
fn lowest_case(labels: &NameSet<'_>, cases: &[Case], low: usize) -> usize
    ensures below { result ≤ low }
    ensures labels { LeadsNoLower labels.now (map (λ c. c.label) cases.now) result }
{
    let mut lowest = low;
    'each: for index in 0..cases.len() {
        lowest = lower(labels, &cases[index].label, lowest);
    }
    lowest
}

/// The lowest of a number and the numbers of the blocks to which an end leads.
fn lowest(labels: &NameSet<'_>, end: &End, low: usize) -> usize
    ensures below { result ≤ low }
    ensures labels { LeadsNoLower labels.now (end_labels end.now) result }
{
    match end {
        End::Br { label } => lower(labels, label, low),
        End::CondBr { yes, no, .. } => {
            let yes = lower(labels, yes, low);
            lower(labels, no, yes)
        }
        End::Switch { other, cases, .. } => {
            let other = lower(labels, other, low);
            lowest_case(labels, cases.as_slice(), other)
        }
        End::Ret(_) => low,
        End::Unreachable => low,
    }
}

// ---- extents

/// A walk over the blocks of a function from the last one to the first: how many slots the parameters and the registers
/// of the blocks that are left take; the lowest block to which a passed block leads; and the extent of the block passed
/// last.
#[derive(Drop)]
struct ExtentWalk {
    slots: usize,
    lowest: usize,
    extent: u32,
}

/// Passes a block. If a passed block leads to this block or to an earlier one, its extent is that of the block passed
/// last; otherwise its extent is the number of slots up to its end.
fn pass(
    walk: &mut ExtentWalk,
    labels: &NameSet<'_>,
    block: &Block,
    number: usize,
) -> Result<(), NoMemory>
    requires { length (block_registers block.now) ≤ walk.old.slots }
    ensures extent { OnOk result (walk.new.extent
        ≡ (if nat_lt number walk.old.lowest then walk.old.slots else walk.old.extent)) }
    ensures lowest { OnOk result (walk.new.lowest ≤ walk.old.lowest) }
    ensures labels { OnOk result (LeadsNoLower labels.now (end_labels block.now.«end») walk.new.lowest) }
    ensures slots { OnOk result (walk.new.slots + length (block_registers block.now) ≡ walk.old.slots) }
{
    if number < walk.lowest {
        walk.extent = place(walk.slots)?;
    }
    walk.lowest = lowest(labels, &block.end, walk.lowest);
    walk.slots -= block.phis.len();
    walk.slots -= assigned(block.body.as_slice());
    Ok(())
}

/// For each block of a function how many slots the frame keeps during a call: those of all registers that may have a
/// value there. It takes time linear in the function's text. A function with 2^32 registers or more is out of memory.
pub fn extents(
    alloc: Global,
    labels: &NameSet<'_>,
    registers: usize,
    function: &Function,
) -> Result<Row<u32>, NoMemory>
    requires labels { labels.now ≡ map (λ b. b.label) function.now.blocks }
    requires registers { registers ≡ length (register_names function.now) }
    ensures { IfOk result (λ extents. AreExtents function.now extents) }
{
    let blocks = function.blocks.as_slice();
    let mut extents = Row::from_vec(vec![in alloc; 0u32; blocks.len()]?);
    let mut walk = ExtentWalk {
        slots: registers,
        lowest: blocks.len(),
        extent: 0,
    };
    let mut at = blocks.len();
    'passing: while at > 0 {
        at -= 1;
        pass(&mut walk, labels, &blocks[at], at)?;
        extents.set(at, walk.extent);
    }
    Ok(extents)
}
