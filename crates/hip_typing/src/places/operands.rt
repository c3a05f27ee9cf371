ghost use Rattle.std.specs.Prelude.{◌≡◌};
ghost use Rattle.hip_sound.specs.Places as places;
ghost use Rattle.hip_grammar.specs.Words.{type_of};
ghost use Rattle.hip_sound.specs.Registers.{arg_uses, phi_uses};
ghost use Rattle.hip_typing.specs.Seen.UsesSeen as spec;
ghost use Rattle.hip_typing.specs.Seen.UsesSeen.{use_seen, uses_seen, operands_known, operands_agree, operands_fit};

use crate::constants::shape::const_has_shape;
use crate::constants::{names_known, types_fit};
use crate::places::uses::{OperandUse, Uses};
use crate::rules::externs::is_same_scalar;
use crate::tables::registers::RegisterTable;
use hip_grammar::type_of;
use hip_names::NameSet;
use hip_tree::{Arg, Operand, Phi};
use hip_types::Scalar;

// ---- registers and globals that are named, exist

fn operand_known(registers: &RegisterTable<'_>, globals: &NameSet<'_>, operand: &Operand) -> bool
    ensures { result ≡ spec.operand_known registers.now.names registers.now.values globals.now operand.now }
{
    match operand {
        Operand::Reg(name) => registers.get(name.as_slice()).is_some(),
        Operand::Fixed(value) => names_known(value, globals),
    }
}

fn use_known(
    registers: &RegisterTable<'_>,
    globals: &NameSet<'_>,
    used: Option<OperandUse<'_>>,
) -> bool
    ensures { result ≡ operands_known registers.now.names registers.now.values globals.now (use_seen used.entry) }
{
    match used {
        Some(used) => operand_known(registers, globals, used.operand),
        None => true,
    }
}

fn args_known(registers: &RegisterTable<'_>, globals: &NameSet<'_>, args: &[Arg]) -> bool
    ensures { result ≡ operands_known registers.now.names registers.now.values globals.now (arg_uses args.now) }
{
    'each: for arg in args {
        if !operand_known(registers, globals, &arg.value) {
            return false;
        }
    }
    true
}

/// Whether all registers and globals that are used exist.
pub fn uses_known(registers: &RegisterTable<'_>, globals: &NameSet<'_>, uses: &Uses<'_>) -> bool
    ensures { result ≡ operands_known registers.now.names registers.now.values globals.now (uses_seen uses.now) }
{
    use_known(registers, globals, uses.first)
        && use_known(registers, globals, uses.second)
        && use_known(registers, globals, uses.third)
        && args_known(registers, globals, uses.args)
}

// ---- types that are written in constants fit

fn operand_fits(operand: &Operand) -> bool
    ensures { result ≡ spec.operand_fits operand.now }
{
    match operand {
        Operand::Reg(_) => true,
        Operand::Fixed(value) => types_fit(value),
    }
}

fn use_fits(used: Option<OperandUse<'_>>) -> bool
    ensures { result ≡ operands_fit (use_seen used.entry) }
{
    match used {
        Some(used) => operand_fits(used.operand),
        None => true,
    }
}

fn args_fit(args: &[Arg]) -> bool
    ensures { result ≡ operands_fit (arg_uses args.now) }
{
    'each: for arg in args {
        if !operand_fits(&arg.value) {
            return false;
        }
    }
    true
}

/// Whether all types that are written in the constants fit.
pub fn uses_fit(uses: &Uses<'_>) -> bool
    ensures { result ≡ operands_fit (uses_seen uses.now) }
{
    use_fits(uses.first) && use_fits(uses.second) && use_fits(uses.third) && args_fit(uses.args)
}

// ---- registers have the type that their use states, constants its shape

fn has_type(ty: Scalar, found: Option<Option<Scalar>>) -> bool
    ensures { result ≡ places.has_type ty found }
{
    match found {
        Some(Some(found)) => is_same_scalar(found, ty),
        _ => false,
    }
}

fn operand_agrees(registers: &RegisterTable<'_>, operand: &Operand, ty: Scalar) -> bool
    ensures { result ≡ spec.operand_agrees registers.now.names registers.now.values operand.now ty }
{
    match operand {
        Operand::Reg(name) => has_type(ty, registers.get(name.as_slice())),
        Operand::Fixed(value) => const_has_shape(value, &type_of(ty)),
    }
}

fn use_agrees(registers: &RegisterTable<'_>, used: Option<OperandUse<'_>>) -> bool
    ensures { result ≡ operands_agree registers.now.names registers.now.values (use_seen used.entry) }
{
    match used {
        Some(used) => operand_agrees(registers, used.operand, used.ty),
        None => true,
    }
}

fn args_agree(registers: &RegisterTable<'_>, args: &[Arg]) -> bool
    ensures { result ≡ operands_agree registers.now.names registers.now.values (arg_uses args.now) }
{
    'each: for arg in args {
        if !operand_agrees(registers, &arg.value, arg.ty) {
            return false;
        }
    }
    true
}

/// Whether each operand has the type that its place states.
pub fn uses_agree(registers: &RegisterTable<'_>, uses: &Uses<'_>) -> bool
    ensures { result ≡ operands_agree registers.now.names registers.now.values (uses_seen uses.now) }
{
    use_agrees(registers, uses.first)
        && use_agrees(registers, uses.second)
        && use_agrees(registers, uses.third)
        && args_agree(registers, uses.args)
}

// ---- operands of a phi

/// Whether all registers and globals that a phi takes exist.
pub fn edges_known(registers: &RegisterTable<'_>, globals: &NameSet<'_>, phi: &Phi) -> bool
    ensures { result ≡ operands_known registers.now.names registers.now.values globals.now (phi_uses phi.now) }
{
    'each: for edge in phi.edges.as_slice() {
        if !operand_known(registers, globals, &edge.value) {
            return false;
        }
    }
    true
}

/// Whether all types that are written in a phi's constants fit.
pub fn edges_fit(phi: &Phi) -> bool
    ensures { result ≡ operands_fit (phi_uses phi.now) }
{
    'each: for edge in phi.edges.as_slice() {
        if !operand_fits(&edge.value) {
            return false;
        }
    }
    true
}

/// Whether all operands of a phi have its type.
pub fn edges_have_type(registers: &RegisterTable<'_>, phi: &Phi) -> bool
    ensures { result ≡ operands_agree registers.now.names registers.now.values (phi_uses phi.now) }
{
    'each: for edge in phi.edges.as_slice() {
        if !operand_agrees(registers, &edge.value, phi.ty) {
            return false;
        }
    }
    true
}
