ghost use Rattle.std.specs.Prelude.{[], ◌∷◌, ◌≡◌, map, IfOk, OnOk};
ghost use Rattle.std.specs.List.{flat_map};
ghost use Rattle.hip_sound.specs.Registers.{assigned_by, phi_registers, body_registers, block_registers, registers_of};
ghost use Rattle.hip_typing.specs.Seen.RegistersSeen.{register_seen};
ghost use Rattle.hip_typing.specs.Seen.Tables.{Adds, Finds};

use hip_names::NameTable;
use hip_tree::{Block, Function, Instr, Param, Phi};
use hip_types::{Name, NoMemory, Scalar, Width};
use std::alloc::Global;

/// A register with its type; the register of a void call has none.
#[derive(Clone, Copy)]
pub struct Register<'a> {
    pub name: &'a Name,
    pub ty: Option<Scalar>,
}

/// The types of a function's registers.
pub type RegisterTable<'a> = NameTable<'a, Option<Scalar>>;

fn add_register<'a>(
    table: &mut RegisterTable<'a>,
    name: &'a Name,
    ty: Option<Scalar>,
) -> Result<(), NoMemory>
    ensures { OnOk result
        (Adds table.old.names table.old.values table.new.names table.new.values
        (record { name = name.now; ty = ty } ∷ [])) }
{
    table.add(name.as_slice(), ty)?;
    Ok(())
}

fn add_params<'a>(table: &mut RegisterTable<'a>, params: &'a [Param]) -> Result<(), NoMemory>
    ensures { OnOk result
        (Adds table.old.names table.old.values table.new.names table.new.values
        (map (λ p. record { name = p.name; ty = Some p.ty }) params.now)) }
{
    table.reserve(params.len())?;
    'params: for param in params {
        add_register(table, &param.name, Some(param.ty))?;
    }
    Ok(())
}

fn add_phis<'a>(table: &mut RegisterTable<'a>, phis: &'a [Phi]) -> Result<(), NoMemory>
    ensures { OnOk result
        (Adds table.old.names table.old.values table.new.names table.new.values (phi_registers phis.now)) }
{
    'phis: for phi in phis {
        add_register(table, &phi.dest, Some(phi.ty))?;
    }
    Ok(())
}

/// The register that an instruction assigns, if it assigns one.
pub fn assigned_by(instr: &Instr) -> Option<Register<'_>>
    ensures { register_seen result ≡ assigned_by instr.now }
{
    let (name, ty) = match instr {
        Instr::Binary { dest, width, .. } => (dest, Some(Scalar::Int(*width))),
        Instr::Compare { dest, .. } => (dest, Some(Scalar::Int(Width::W1))),
        Instr::Select { dest, ty, .. } => (dest, Some(*ty)),
        Instr::Cast { dest, to, .. } => (dest, Some(*to)),
        Instr::Alloca { dest, .. } => (dest, Some(Scalar::Ptr)),
        Instr::Load { dest, ty, .. } => (dest, Some(*ty)),
        Instr::Gep { dest, .. } => (dest, Some(Scalar::Ptr)),
        Instr::Call {
            dest: Some(dest),
            ret,
            ..
        } => (dest, *ret),
        Instr::Call { dest: None, .. } => return None,
        Instr::Store { .. } => return None,
    };
    Some(Register { name, ty })
}

fn add_assigned<'a>(table: &mut RegisterTable<'a>, instr: &'a Instr) -> Result<(), NoMemory>
    ensures { OnOk result
        (Adds table.old.names table.old.values table.new.names table.new.values (assigned_by instr.now)) }
{
    match assigned_by(instr) {
        Some(register) => add_register(table, register.name, register.ty),
        None => Ok(()),
    }
}

fn add_body<'a>(table: &mut RegisterTable<'a>, body: &'a [Instr]) -> Result<(), NoMemory>
    ensures { OnOk result
        (Adds table.old.names table.old.values table.new.names table.new.values (body_registers body.now)) }
{
    'body: for instr in body {
        add_assigned(table, instr)?;
    }
    Ok(())
}

fn add_block<'a>(table: &mut RegisterTable<'a>, block: &'a Block) -> Result<(), NoMemory>
    ensures { OnOk result
        (Adds table.old.names table.old.values table.new.names table.new.values (block_registers block.now)) }
{
    add_phis(table, block.phis.as_slice())?;
    add_body(table, block.body.as_slice())?;
    Ok(())
}

fn add_blocks<'a>(table: &mut RegisterTable<'a>, blocks: &'a [Block]) -> Result<(), NoMemory>
    ensures { OnOk result
        (Adds table.old.names table.old.values table.new.names table.new.values (flat_map block_registers blocks.now)) }
{
    'each: for block in blocks {
        add_block(table, block)?;
    }
    Ok(())
}

/// The registers of a function with their types.
pub fn registers_of(alloc: Global, function: &Function) -> Result<RegisterTable<'_>, NoMemory>
    ensures { IfOk result (λ table. Finds table.names table.values (registers_of function.now)) }
{
    let mut table = NameTable::new(alloc);
    add_params(&mut table, function.params.as_slice())?;
    add_blocks(&mut table, function.blocks.as_slice())?;
    Ok(table)
}
