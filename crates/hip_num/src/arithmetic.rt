ghost use Rattle.std.specs.Prelude.{◌≡◌, ◌<◌};
ghost use Rattle.std.specs.Option.{SomeIff};
ghost use Rattle.hip_types.specs.Widths.{bits_of};
ghost use Rattle.hip_num.specs.Arithmetic.{binary_of, division_fault};

use crate::sign::{from_signed, signed_value};
use hip_types::{BinaryOp, Bits};

/// Why an operation on two integers has no result.
#[derive(Clone, Copy, Debug, PartialEq, Eq)]
pub enum NumTrap {
    /// The divisor is 0.
    DivZero,
    /// The quotient of the least integer with a sign by -1 is too large for the width.
    DivOverflow,
    /// The amount of a shift is the width or more.
    ShiftRange,
}

/// The result of an operation on two integers of the same width, or why it has none.
pub fn binary(op: BinaryOp, a: Bits, b: Bits) -> Result<Bits, NumTrap>
    requires { a.width ≡ b.width }
    ensures { result ≡ binary_of op a b }
{
    match op {
        BinaryOp::Add => Ok(Bits::new(a.width, a.value.wrapping_add(b.value))),
        BinaryOp::Sub => Ok(Bits::new(a.width, a.value.wrapping_sub(b.value))),
        BinaryOp::Mul => Ok(Bits::new(a.width, a.value.wrapping_mul(b.value))),
        BinaryOp::Udiv => quotient(a, b),
        BinaryOp::Sdiv => signed_quotient(a, b),
        BinaryOp::Urem => rest(a, b),
        BinaryOp::Srem => signed_rest(a, b),
        BinaryOp::And => Ok(Bits::new(a.width, a.value & b.value)),
        BinaryOp::Or => Ok(Bits::new(a.width, a.value | b.value)),
        BinaryOp::Xor => Ok(Bits::new(a.width, a.value ^ b.value)),
        BinaryOp::Shl => shift_left(a, b),
        BinaryOp::Lshr => shift_right(a, b),
        BinaryOp::Ashr => shift_right_signed(a, b),
    }
}

fn quotient(a: Bits, b: Bits) -> Result<Bits, NumTrap>
    ensures { result ≡ binary_of BinaryOp.Udiv a b }
{
    if b.value == 0 {
        return Err(NumTrap::DivZero);
    }
    Ok(Bits::new(a.width, a.value / b.value))
}

fn rest(a: Bits, b: Bits) -> Result<Bits, NumTrap>
    ensures { result ≡ binary_of BinaryOp.Urem a b }
{
    if b.value == 0 {
        return Err(NumTrap::DivZero);
    }
    Ok(Bits::new(a.width, a.value % b.value))
}

/// Why an integer may not be divided by another one, both with a sign; none if it may.
fn divisor_fault(a: Bits, b: Bits) -> Option<NumTrap>
    requires { a.width ≡ b.width }
    ensures { result ≡ division_fault a.width a.value b.value }
{
    if b.value == 0 {
        Some(NumTrap::DivZero)
    } else if a.value == a.width.sign_bit() && b.value == a.width.all_bits() {
        Some(NumTrap::DivOverflow)
    } else {
        None
    }
}

fn signed_quotient(a: Bits, b: Bits) -> Result<Bits, NumTrap>
    requires { a.width ≡ b.width }
    ensures { result ≡ binary_of BinaryOp.Sdiv a b }
{
    match divisor_fault(a, b) {
        Some(trap) => Err(trap),
        None => {
            let quotient = signed_value(a) / signed_value(b);
            Ok(from_signed(a.width, quotient))
        }
    }
}

fn signed_rest(a: Bits, b: Bits) -> Result<Bits, NumTrap>
    requires { a.width ≡ b.width }
    ensures { result ≡ binary_of BinaryOp.Srem a b }
{
    match divisor_fault(a, b) {
        Some(trap) => Err(trap),
        None => {
            let rest = signed_value(a) % signed_value(b);
            Ok(from_signed(a.width, rest))
        }
    }
}

/// The amount of a shift, if it is below the width.
fn shift_amount(a: Bits, b: Bits) -> Option<u32>
    ensures { SomeIff result (b.value < bits_of a.width) b.value }
{
    if b.value < u64::from(a.width.bits()) {
        Some(b.value as u32)
    } else {
        None
    }
}

fn shift_left(a: Bits, b: Bits) -> Result<Bits, NumTrap>
    ensures { result ≡ binary_of BinaryOp.Shl a b }
{
    match shift_amount(a, b) {
        Some(amount) => Ok(Bits::new(a.width, a.value << amount)),
        None => Err(NumTrap::ShiftRange),
    }
}

fn shift_right(a: Bits, b: Bits) -> Result<Bits, NumTrap>
    ensures { result ≡ binary_of BinaryOp.Lshr a b }
{
    match shift_amount(a, b) {
        Some(amount) => Ok(Bits::new(a.width, a.value >> amount)),
        None => Err(NumTrap::ShiftRange),
    }
}

fn shift_right_signed(a: Bits, b: Bits) -> Result<Bits, NumTrap>
    ensures { result ≡ binary_of BinaryOp.Ashr a b }
{
    match shift_amount(a, b) {
        Some(amount) => {
            let shifted = signed_value(a) >> amount;
            Ok(from_signed(a.width, shifted))
        }
        None => Err(NumTrap::ShiftRange),
    }
}
