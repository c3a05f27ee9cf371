ghost use Rattle.std.specs.Prelude.{◌≡◌, ◌<◌, [], ◌∷◌, length, map};
ghost use Rattle.hip_typing.specs.Seen.AssignedSeen as spec;
ghost use Rattle.hip_typing.specs.Seen.AssignedSeen.{DescribesPaths, AnswersUses};
ghost use Rattle.hip_sound.specs.Registers.{arg_uses, operand_registers, used_registers};
ghost use Rattle.hip_sound.specs.Rules.{use_at};
ghost use Rattle.hip_typing.specs.Seen.UsesSeen.{use_seen, uses_seen};

pub mod functions;
pub mod graph;

use crate::places::uses::{OperandUse, Uses};
use crate::tables::inner_table::{Inner, InnerTable};
use hip_paths::Paths;
use hip_sound::{Place, Point};
use hip_tree::{Arg, Function, Operand};
use hip_types::{Name, NoMemory, Row};
use std::alloc::Global;

/// A use of a register that some path reaches before it is assigned, with such a path.
#[derive(Drop)]
pub enum NotAssigned {
    Use { place: Place, path: Row<usize> },
    NoMemory,
}

impl From<NoMemory> for NotAssigned {
    ghost use Rattle.std.specs.Prelude.{◌≡◌};
    ghost use Rattle.hip_typing.specs.declared.assigned.NotAssigned.TheVariants as unassigned;

    ghost from_gives = { λ _ e. e ≡ unassigned.NoMemory };

    fn from(_cause: NoMemory) -> NotAssigned {
        NotAssigned::NoMemory
    }
}

/// Whether a register that can be used after n instructions of its block can be used at a point of it.
fn is_there(point: Point, after: usize) -> bool
    ensures { result ≡ spec.is_there point after }
{
    match point {
        Point::Before(index) => after <= index,
        Point::AtEnd => true,
    }
}

/// A function with the names in it and the paths through it.
#[derive(Clone, Copy)]
pub struct NamedBody<'a, 'n> {
    pub function: &'a Function,
    pub names: &'a InnerTable<'n>,
    pub paths: &'a Paths<'a>,
    pub alloc: Global,
}

/// The block that each path to the point has to pass: the one that assigns what the name denotes. None if the block of
/// the point assigns it before the point, or if it is a parameter.
fn to_pass(count: usize, block: usize, point: Point, inner: Option<Inner>) -> Option<usize>
    ensures { result ≡ spec.to_pass count block point inner }
{
    match inner {
        Some(Inner::Parameter) => None,
        Some(
            Inner::Assigned {
                block: assigned,
                after,
            },
        ) => {
            if assigned == block && is_there(point, after) {
                None
            } else {
                Some(assigned)
            }
        }
        Some(Inner::Label(_)) => Some(count),
        None => Some(count),
    }
}

/// Verifies that the use of a register at a point of a block is assigned on every path.
fn verify_use(
    body: &NamedBody<'_, '_>,
    place: Place,
    block: usize,
    point: Point,
    name: &Name,
) -> Result<(), NotAssigned>
    requires body { DescribesPaths body.now.function.now
        body.now.names.now.names body.now.names.now.values body.now.paths.now }
    requires block { block < length body.now.function.now.blocks }
    ensures { AnswersUses body.now.function.now result (use_at place block point name.now ∷ []) }
{
    let inner = body.names.get(name.as_slice());
    let Some(passed) = to_pass(body.function.blocks.len(), block, point, inner) else {
        return Ok(());
    };
    match body.paths.path_around(body.alloc, passed, block)? {
        Some(path) => Err(NotAssigned::Use { place, path }),
        None => Ok(()),
    }
}

/// Verifies that the register of an operand is assigned on every path to the point.
pub fn verify_operand(
    body: &NamedBody<'_, '_>,
    place: Place,
    block: usize,
    point: Point,
    operand: &Operand,
) -> Result<(), NotAssigned>
    requires body { DescribesPaths body.now.function.now
        body.now.names.now.names body.now.names.now.values body.now.paths.now }
    requires block { block < length body.now.function.now.blocks }
    ensures { AnswersUses body.now.function.now result
        (map (use_at place block point) (operand_registers operand.now)) }
{
    match operand {
        Operand::Reg(name) => verify_use(body, place, block, point, name),
        Operand::Fixed(_) => Ok(()),
    }
}

/// Verifies the operand at a place, if the place has one.
fn verify_one(
    body: &NamedBody<'_, '_>,
    place: Place,
    block: usize,
    point: Point,
    used: Option<OperandUse<'_>>,
) -> Result<(), NotAssigned>
    requires body { DescribesPaths body.now.function.now
        body.now.names.now.names body.now.names.now.values body.now.paths.now }
    requires block { block < length body.now.function.now.blocks }
    ensures { AnswersUses body.now.function.now result
        (map (use_at place block point) (used_registers (use_seen used.entry))) }
{
    match used {
        Some(used) => verify_operand(body, place, block, point, used.operand),
        None => Ok(()),
    }
}

/// Verifies the arguments at a place.
fn verify_args(
    body: &NamedBody<'_, '_>,
    place: Place,
    block: usize,
    point: Point,
    args: &[Arg],
) -> Result<(), NotAssigned>
    requires body { DescribesPaths body.now.function.now
        body.now.names.now.names body.now.names.now.values body.now.paths.now }
    requires block { block < length body.now.function.now.blocks }
    ensures { AnswersUses body.now.function.now result
        (map (use_at place block point) (used_registers (arg_uses args.now))) }
{
    'each: for index in 0..args.len() {
        let arg = &args[index];
        if let Err(refused) = verify_operand(body, place, block, point, &arg.value) {
            return Err(refused);
        }
    }
    Ok(())
}

/// Verifies all that a place uses.
pub fn verify_uses(
    body: &NamedBody<'_, '_>,
    place: Place,
    block: usize,
    point: Point,
    uses: &Uses<'_>,
) -> Result<(), NotAssigned>
    requires body { DescribesPaths body.now.function.now
        body.now.names.now.names body.now.names.now.values body.now.paths.now }
    requires block { block < length body.now.function.now.blocks }
    ensures { AnswersUses body.now.function.now result
        (map (use_at place block point) (used_registers (uses_seen uses.now))) }
{
    if let Err(refused) = verify_one(body, place, block, point, uses.first) {
        return Err(refused);
    }
    if let Err(refused) = verify_one(body, place, block, point, uses.second) {
        return Err(refused);
    }
    if let Err(refused) = verify_one(body, place, block, point, uses.third) {
        return Err(refused);
    }
    verify_args(body, place, block, point, uses.args)
}
