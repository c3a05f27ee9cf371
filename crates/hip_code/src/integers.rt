ghost use Rattle.std.specs.Prelude.{◌≡◌, ◌<◌};
ghost use Rattle.hip_types.specs.Widths.{bits_of};
ghost use Rattle.hip_num.specs.Arithmetic.{binary_of};
ghost use Rattle.hip_num.specs.Comparisons.{holds};
ghost use Rattle.hip_code.specs.Values.{operation_of, division_of, predicate_of, extended, compared, number_in, operated};

use crate::op::{BitOp, Comparison, DivisionOp, IntegerOp, ShiftOp, SumOp};
use hip_num::{NumTrap, binary, compare, widen};
use hip_types::{BinaryOp, Bits, Pred, Width};

// The result of an operation on two integers of the same width, or why there is none.
#[inline(always)]
fn operate(op: IntegerOp, a: Bits, b: Bits) -> Result<Bits, NumTrap>
    requires { a.width ≡ b.width }
    ensures { result ≡ binary_of (operation_of op) a b }
{
    match op {
        IntegerOp::Sum(op) => match op {
            SumOp::Add => binary(BinaryOp::Add, a, b),
            SumOp::Sub => binary(BinaryOp::Sub, a, b),
            SumOp::Mul => binary(BinaryOp::Mul, a, b),
        },
        IntegerOp::Bit(op) => match op {
            BitOp::And => binary(BinaryOp::And, a, b),
            BitOp::Or => binary(BinaryOp::Or, a, b),
            BitOp::Xor => binary(BinaryOp::Xor, a, b),
        },
        IntegerOp::Shift(op) => match op {
            ShiftOp::Shl => binary(BinaryOp::Shl, a, b),
            ShiftOp::Lshr => binary(BinaryOp::Lshr, a, b),
            ShiftOp::Ashr => binary(BinaryOp::Ashr, a, b),
        },
    }
}

// The number that an operation gives on two numbers, each cut to a width, or why it traps.
#[inline(always)]
fn cut_and_operated(op: IntegerOp, width: Width, left: u64, right: u64) -> Result<u64, NumTrap>
    ensures { result ≡ number_in (operated (operation_of op) width left right) }
{
    match operate(op, Bits::new(width, left), Bits::new(width, right)) {
        Ok(bits) => Ok(bits.value),
        Err(trap) => Err(trap),
    }
}

#[inline(never)]
fn operated_narrow(op: IntegerOp, width: Width, left: u64, right: u64) -> Result<u64, NumTrap>
    ensures { result ≡ number_in (operated (operation_of op) width left right) }
{
    cut_and_operated(op, width, left, right)
}

/// The number that an operation gives on two numbers, each cut to a width, or why it traps. Numbers of 64 bits, which
/// need no cut, are a case of their own.
#[inline(always)]
pub fn operated(op: IntegerOp, width: Width, left: u64, right: u64) -> Result<u64, NumTrap>
    ensures { result ≡ number_in (operated (operation_of op) width left right) }
{
    match width {
        Width::W64 => cut_and_operated(op, Width::W64, left, right),
        _ => operated_narrow(op, width, left, right),
    }
}

/// The result of a division, or why there is none.
pub fn divide(op: DivisionOp, a: Bits, b: Bits) -> Result<Bits, NumTrap>
    requires { a.width ≡ b.width }
    ensures { result ≡ binary_of (division_of op) a b }
{
    match (op.signed, op.rest) {
        (true, true) => binary(BinaryOp::Srem, a, b),
        (true, false) => binary(BinaryOp::Sdiv, a, b),
        (false, true) => binary(BinaryOp::Urem, a, b),
        (false, false) => binary(BinaryOp::Udiv, a, b),
    }
}

// Whether a comparison holds of two integers of the same width.
#[inline(always)]
fn holds_of(test: Comparison, a: Bits, b: Bits) -> bool
    requires { a.width ≡ b.width }
    ensures { result ≡ holds (predicate_of test) a.width a.value b.value }
{
    match test {
        Comparison::Equal => compare(Pred::Eq, a, b),
        Comparison::Less => compare(Pred::Ult, a, b),
        Comparison::SignedLess => compare(Pred::Slt, a, b),
    }
}

#[inline(never)]
fn compared_narrow(test: Comparison, width: Width, left: u64, right: u64) -> bool
    ensures { result ≡ compared (predicate_of test) width left right }
{
    holds_of(test, Bits::new(width, left), Bits::new(width, right))
}

/// Whether a comparison holds of two numbers, each cut to a width. Numbers of 64 bits need no cut and are compared as
/// they are.
#[inline(always)]
pub fn compared(test: Comparison, width: Width, left: u64, right: u64) -> bool
    ensures { result ≡ compared (predicate_of test) width left right }
{
    match width {
        Width::W64 => holds_of(
            test,
            Bits::new(Width::W64, left),
            Bits::new(Width::W64, right),
        ),
        _ => compared_narrow(test, width, left, right),
    }
}

#[inline(never)]
fn extend_narrow(width: Width, value: u64) -> u64
    requires { bits_of width < 64 }
    ensures { result ≡ extended width value }
{
    widen(Bits::new(width, value), Width::W64, true).value
}

/// A number that is cut to a width, and then sign-extended to 64 bits.
#[inline(always)]
pub fn extend(width: Width, value: u64) -> u64
    ensures { result ≡ extended width value }
{
    match width {
        Width::W64 => value,
        _ => extend_narrow(width, value),
    }
}
