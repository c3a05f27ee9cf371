ghost use Rattle.std.specs.Prelude.{◌≡◌, map, IfOk, OnOk};
ghost use Rattle.std.specs.List.{flat_map};
ghost use Rattle.std.specs.Str.{bytes_eq};
ghost use Rattle.hip_types.specs.Distinct.{met};
ghost use Rattle.hip_globals.specs.Addresses.{IsBase};
ghost use Rattle.hip_globals.specs.AddressesSeen.{address_beside};
ghost use Rattle.hip_globals.specs.Values.{global_address};
ghost use Rattle.hip_names.specs.Names.{AllDiffer};
ghost use Rattle.hip_sound.specs.NumberedNames.{function_names};
ghost use Rattle.hip_sound.specs.Paths.{names_of};
ghost use Rattle.hip_sound.specs.Registers.{assigned_by, block_registers};
ghost use Rattle.hip_sound.specs.Sound.{IsSound, register_names};

use hip_globals::GlobalAddresses;
use hip_names::NameSet;
use hip_tree::{Block, Function, Instr, Param, Phi, Program};
use hip_types::NoMemory;
use std::alloc::Global;

/// The addresses of a program's globals by their names, where the region begins at a base.
pub fn global_addresses(
    alloc: Global,
    program: &Program,
    base: u64,
) -> Result<GlobalAddresses<'_>, NoMemory>
    requires base { IsBase base }
    requires sound { IsSound program.now }
    ensures { IfOk result (λ addresses. address_beside addresses ≡ global_address program.now.globals base) }
{
    GlobalAddresses::new(alloc, program.globals.as_slice(), base)
}

fn add_functions<'a>(names: &mut NameSet<'a>, functions: &'a [Function]) -> Result<(), NoMemory>
    ensures { OnOk result (names.new ≡ met bytes_eq names.old (function_names functions.now)) }
{
    'each: for function in functions {
        let _is_new = names.insert(function.name.as_slice())?;
    }
    Ok(())
}

/// The names of a program's functions, by their numbers.
pub fn function_names(alloc: Global, program: &Program) -> Result<NameSet<'_>, NoMemory>
    requires { IsSound program.now }
    ensures { IfOk result (λ names. names ≡ function_names program.now.functions) }
{
    let mut names = NameSet::new(alloc);
    add_functions(&mut names, program.functions.as_slice())?;
    Ok(names)
}

fn add_labels<'a>(names: &mut NameSet<'a>, blocks: &'a [Block]) -> Result<(), NoMemory>
    ensures { OnOk result (names.new ≡ met bytes_eq names.old (map (λ b. b.label) blocks.now)) }
{
    'each: for block in blocks {
        let _is_new = names.insert(block.label.as_slice())?;
    }
    Ok(())
}

/// The labels of a function's blocks, by the blocks' numbers.
pub fn label_names(alloc: Global, function: &Function) -> Result<NameSet<'_>, NoMemory>
    requires differ { AllDiffer (map (λ b. b.label) function.now.blocks) }
    ensures { IfOk result (λ names. names ≡ map (λ b. b.label) function.now.blocks) }
{
    let mut names = NameSet::new(alloc);
    add_labels(&mut names, function.blocks.as_slice())?;
    Ok(names)
}

fn add_params<'a>(names: &mut NameSet<'a>, params: &'a [Param]) -> Result<(), NoMemory>
    ensures { OnOk result (names.new ≡ met bytes_eq names.old (map (λ p. p.name) params.now)) }
{
    'each: for param in params {
        let _is_new = names.insert(param.name.as_slice())?;
    }
    Ok(())
}

fn add_phis<'a>(names: &mut NameSet<'a>, phis: &'a [Phi]) -> Result<(), NoMemory>
    ensures { OnOk result (names.new ≡ met bytes_eq names.old (map (λ p. p.dest) phis.now)) }
{
    'each: for phi in phis {
        let _is_new = names.insert(phi.dest.as_slice())?;
    }
    Ok(())
}

/// Adds the register that an instruction assigns.
fn add_assigned<'a>(names: &mut NameSet<'a>, instr: &'a Instr) -> Result<(), NoMemory>
    ensures { OnOk result (names.new ≡ met bytes_eq names.old (names_of (assigned_by instr.now))) }
{
    let name = match instr {
        Instr::Binary { dest, .. } => dest,
        Instr::Compare { dest, .. } => dest,
        Instr::Select { dest, .. } => dest,
        Instr::Cast { dest, .. } => dest,
        Instr::Alloca { dest, .. } => dest,
        Instr::Load { dest, .. } => dest,
        Instr::Gep { dest, .. } => dest,
        Instr::Call {
            dest: Some(dest),
            ..
        } => dest,
        Instr::Call { dest: None, .. } => return Ok(()),
        Instr::Store { .. } => return Ok(()),
    };
    let _is_new = names.insert(name.as_slice())?;
    Ok(())
}

fn add_body<'a>(names: &mut NameSet<'a>, body: &'a [Instr]) -> Result<(), NoMemory>
    ensures { OnOk result
        (names.new ≡ met bytes_eq names.old (flat_map (λ i. names_of (assigned_by i)) body.now)) }
{
    'each: for instr in body {
        add_assigned(names, instr)?;
    }
    Ok(())
}

fn add_block<'a>(names: &mut NameSet<'a>, block: &'a Block) -> Result<(), NoMemory>
    ensures { OnOk result (names.new ≡ met bytes_eq names.old (names_of (block_registers block.now))) }
{
    add_phis(names, block.phis.as_slice())?;
    add_body(names, block.body.as_slice())?;
    Ok(())
}

fn add_blocks<'a>(names: &mut NameSet<'a>, blocks: &'a [Block]) -> Result<(), NoMemory>
    ensures { OnOk result
        (names.new ≡ met bytes_eq names.old (flat_map (λ b. names_of (block_registers b)) blocks.now)) }
{
    'each: for block in blocks {
        add_block(names, block)?;
    }
    Ok(())
}

/// The names of a function's registers, by their slots.
pub fn register_names(alloc: Global, function: &Function) -> Result<NameSet<'_>, NoMemory>
    requires differ { AllDiffer (register_names function.now) }
    ensures { IfOk result (λ names. names ≡ register_names function.now) }
{
    let mut names = NameSet::new(alloc);
    add_params(&mut names, function.params.as_slice())?;
    add_blocks(&mut names, function.blocks.as_slice())?;
    Ok(names)
}
