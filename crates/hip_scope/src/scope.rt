ghost use Rattle.std.specs.Prelude.{◌≡◌, Some, IfOk, OnOk};
ghost use Rattle.hip_names.specs.Names.{IsAmong, number_of};
ghost use Rattle.hip_scope.specs.Grown.{grown};
ghost use Rattle.hip_scope.specs.Growth.{Makes, OnlyConstants};
ghost use Rattle.hip_scope.specs.Known.{OperandKnown};
ghost use Rattle.hip_scope.specs.Scopes.{DescribesScope, OperandStandsFor, names_of};

use crate::tables::{Growing, place};
use hip_code::OpOperand;
use hip_globals::GlobalAddresses;
use hip_names::{NameSet, NameTable};
use hip_tree::{Function, Program};
use hip_types::{Name, NoMemory, Row};
use std::alloc::Global;

/// The numbers of a phi's edges by their labels.
pub type EdgeNumbers<'a> = NameTable<'a, u32>;

/// A program whose addresses are known, the names of its functions, the places where they begin, and how many registers
/// they have.
#[derive(Clone, Copy)]
pub struct Known<'p, 'a> {
    pub alloc: Global,
    pub program: &'p Program,
    pub base: u64,
    pub addresses: &'a GlobalAddresses<'p>,
    pub functions: &'a NameSet<'p>,
    pub starts: &'a [u32],
    pub sizes: &'a [u32],
}

/// What the instructions of a function name.
#[derive(Drop)]
pub struct Scope<'p, 'a> {
    pub alloc: Global,
    pub program: &'p Program,
    pub base: u64,
    pub addresses: &'a GlobalAddresses<'p>,
    /// The names of the functions, the places where they begin, and how many registers they have.
    pub functions: &'a NameSet<'p>,
    pub starts: &'a [u32],
    pub sizes: &'a [u32],
    /// The function's number, its registers, the labels of its blocks, and the places where these begin.
    pub number: usize,
    pub function: &'p Function,
    pub registers: NameSet<'p>,
    pub labels: NameSet<'p>,
    pub places: Row<u32>,
    /// For each phi of each block the numbers of its edges.
    pub sources: Row<Row<EdgeNumbers<'p>>>,
    /// For each block how many slots the frame keeps during a call.
    pub extents: Row<u32>,
}

/// The slot of a register.
pub fn slot(scope: &Scope<'_, '_>, name: &Name) -> Result<u32, NoMemory>
    requires scope { DescribesScope scope.now }
    requires known { IsAmong (names_of scope.now) name.now }
    ensures { IfOk result (λ slot. number_of (names_of scope.now) name.now ≡ Some slot) }
{
    match scope.registers.number_of(name.as_slice()) {
        Some(number) => place(number),
        None => unreachable!(),
    }
}

/// The place of an operand's value: a register's slot, or a place in the table of constants.
pub fn operand(
    scope: &Scope<'_, '_>,
    tables: &mut Growing,
    operand: &hip_tree::Operand,
) -> Result<OpOperand, NoMemory>
    requires scope { DescribesScope scope.now }
    requires known { OperandKnown (names_of scope.now) operand.now }
    ensures stands { IfOk result (λ o. Makes (grown tables.old) (grown tables.new)
        (λ t. OperandStandsFor scope.now t o operand.now)) }
    ensures others { OnOk result (OnlyConstants (grown tables.old) (grown tables.new)) }
{
    match operand {
        hip_tree::Operand::Reg(name) => Ok(OpOperand::Register(slot(scope, name)?)),
        hip_tree::Operand::Fixed(value) => {
            let number = scope.addresses.value(scope.alloc, value)?;
            let constant = tables.constant(number)?;
            Ok(constant)
        }
    }
}
