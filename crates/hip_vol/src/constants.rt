ghost use Rattle.std.specs.Prelude.{◌≡◌, ◌≤◌, map, unwrap_or, IfOk};
ghost use Rattle.hip_types.specs.Layout.{Fits, gep_of};
ghost use Rattle.hip_globals.specs.Constants.{gep_types, index_of, types_in};
ghost use Rattle.hip_globals.specs.InitialSeen.{AllFit};
ghost use Rattle.hip_invariants.specs.PointerLevels.{global_level, known_index, known_path};
ghost use Rattle.hip_vol.specs.Gathered.{element_with, level_beside, level_with};
ghost use Rattle.hip_vol.specs.Tables.{level_of};

use crate::numbered::{FREE, at_offset};
use hip_globals::index;
use hip_names::NameTable;
use hip_tree::{Arg, Const, ConstGep, GlobalVar, Operand};
use hip_types::{Bits, Name, NoMemory, Row, Ty, gep_offset};
use std::alloc::Global;

/// Which globals are persistent, by their names.
pub fn persistence_table(
    alloc: Global,
    globals: &[GlobalVar],
) -> Result<NameTable<'_, bool>, NoMemory>
    ensures { IfOk result (λ table. level_beside table ≡ global_level globals.now) }
{
    let mut table = NameTable::new(alloc);
    'each: for global in globals {
        table.add(global.name.as_slice(), global.persistent)?;
    }
    Ok(table)
}

/// The level of a global.
fn named_level(table: &NameTable<'_, bool>, name: &Name) -> u8
    ensures level { level_of result ≡ level_beside table.now name.now }
    ensures small { result ≤ 33 }
{
    match table.get(name.as_slice()) {
        Some(true) => FREE,
        _ => 0,
    }
}

/// The offset of an element; 0 if there is none.
pub fn offset_of(ty: &Ty, path: &[u64]) -> u64
    requires { Fits ty.now }
    ensures { result ≡ unwrap_or (gep_of ty.now path.now) 0 }
{
    if path.is_empty() {
        return 0;
    }
    match gep_offset(ty, path) {
        Some(offset) => offset,
        None => 0,
    }
}

fn indices_of(alloc: Global, indices: &[Bits]) -> Result<Row<u64>, NoMemory>
    ensures { IfOk result (λ path. path ≡ map index_of indices.now) }
{
    let mut path = Row::new(alloc);
    'each: for bits in indices {
        path.push(index(*bits))?;
    }
    Ok(path)
}

/// The level of a constant.
#[cycle(level)]
pub fn constant_level(
    alloc: Global,
    table: &NameTable<'_, bool>,
    value: &Const,
) -> Result<u8, NoMemory>
    requires { AllFit (types_in value.now) }
    ensures level { IfOk result (λ level. level_of level ≡ level_with (level_beside table.now) value.now) }
    ensures small { IfOk result (λ level. level ≤ 33) }
{
    match value {
        Const::Int(_) => Ok(FREE),
        Const::Null => Ok(0),
        Const::Zero => Ok(0),
        Const::Address(name) => Ok(named_level(table, name)),
        Const::Gep(gep) => element_level(alloc, table, gep.get()),
        Const::Array(_) => Ok(FREE),
        Const::Struct(_) => Ok(FREE),
    }
}

/// The level of an element of a constant.
#[cycle(level)]
fn element_level(alloc: Global, table: &NameTable<'_, bool>, gep: &ConstGep) -> Result<u8, NoMemory>
    requires { AllFit (gep_types gep.now) }
    ensures level { IfOk result (λ level. level_of level ≡ element_with (level_beside table.now) gep.now) }
    ensures small { IfOk result (λ level. level ≤ 33) }
{
    let base = constant_level(alloc, table, &gep.base)?;
    let path = indices_of(alloc, gep.indices.as_slice())?;
    Ok(at_offset(base, offset_of(&gep.ty, path.as_slice())))
}

/// The value of an index that is a constant.
fn known_index(arg: &Arg) -> Option<u64>
    ensures { result ≡ known_index arg.now.ty arg.now.value }
{
    match &arg.value {
        Operand::Fixed(Const::Int(bits)) => Some(index(Bits::new(arg.ty.width(), bits.value))),
        Operand::Fixed(Const::Zero) => Some(index(Bits::new(arg.ty.width(), 0))),
        Operand::Fixed(_) => None,
        Operand::Reg(_) => None,
    }
}

/// The values of indices that are all constants. None if one is a register.
pub fn known_path(alloc: Global, indices: &[Arg]) -> Result<Option<Row<u64>>, NoMemory>
    ensures { IfOk result (λ path. path ≡ known_path indices.now) }
{
    let mut path = Row::new(alloc);
    'each: for arg in indices {
        match known_index(arg) {
            Some(number) => path.push(number)?,
            None => return Ok(None),
        }
    }
    Ok(Some(path))
}
