ghost use Rattle.std.specs.Prelude.{◌≡◌, IfOk};
ghost use Rattle.hip_tree.specs.declared.instr.Flags.{Flags};
ghost use Rattle.hip_tree.specs.declared.instr.Instr.TheVariants as instrs;
ghost use Rattle.hip_names.specs.Names.{IsAmong};
ghost use Rattle.hip_types.specs.Scalars.{width_of as the_width};
ghost use Rattle.hip_code.specs.Translated as ops;
ghost use Rattle.hip_scope.specs.Grown.{grown};
ghost use Rattle.hip_scope.specs.Growth.{Makes};
ghost use Rattle.hip_scope.specs.Known.{OperandKnown};
ghost use Rattle.hip_scope.specs.Scopes.{DescribesScope, DoesHere, names_of};

use hip_code::{
    BitOp, Comparison, DivisionOp, IntegerOp, Op, OpOperand, Other, Rest, ShiftOp, SumOp, Value,
};
use hip_scope::{Growing, Scope, operand, slot};
use hip_types::{BinaryOp, CastOp, Name, NoMemory, Pred, Scalar, Width};

/// The two operands of an instruction.
#[derive(Clone, Copy)]
pub struct Operands<'a> {
    pub a: &'a hip_tree::Operand,
    pub b: &'a hip_tree::Operand,
}

/// The types from which and to which a cast converts.
#[derive(Clone, Copy)]
pub struct CastTypes {
    pub from: Scalar,
    pub to: Scalar,
}

/// The width of the number that a value of the type is; a pointer is a number of 64 bits.
pub fn width_of(ty: Scalar) -> Width
    ensures { result ≡ the_width ty }
{
    match ty {
        Scalar::Int(width) => width,
        Scalar::Ptr => Width::W64,
    }
}

fn division(signed: bool, rest: bool, width: Width, a: OpOperand, b: OpOperand) -> Value
    ensures { result ≡ ops.division_value signed rest width a b }
{
    let op = DivisionOp { signed, rest };
    Value::Rest(Rest::Other(Other::Divide { op, width, a, b }))
}

fn integer(op: IntegerOp, width: Width, a: OpOperand, b: OpOperand) -> Value
    ensures { result ≡ ops.integer_value op width a b }
{
    Value::Integer { op, width, a, b }
}

fn binary_value(op: BinaryOp, width: Width, a: OpOperand, b: OpOperand) -> Value
    ensures { result ≡ ops.binary_value op width a b }
{
    match op {
        BinaryOp::Add => integer(IntegerOp::Sum(SumOp::Add), width, a, b),
        BinaryOp::Sub => integer(IntegerOp::Sum(SumOp::Sub), width, a, b),
        BinaryOp::Mul => integer(IntegerOp::Sum(SumOp::Mul), width, a, b),
        BinaryOp::Udiv => division(false, false, width, a, b),
        BinaryOp::Sdiv => division(true, false, width, a, b),
        BinaryOp::Urem => division(false, true, width, a, b),
        BinaryOp::Srem => division(true, true, width, a, b),
        BinaryOp::And => integer(IntegerOp::Bit(BitOp::And), width, a, b),
        BinaryOp::Or => integer(IntegerOp::Bit(BitOp::Or), width, a, b),
        BinaryOp::Xor => integer(IntegerOp::Bit(BitOp::Xor), width, a, b),
        BinaryOp::Shl => integer(IntegerOp::Shift(ShiftOp::Shl), width, a, b),
        BinaryOp::Lshr => integer(IntegerOp::Shift(ShiftOp::Lshr), width, a, b),
        BinaryOp::Ashr => integer(IntegerOp::Shift(ShiftOp::Ashr), width, a, b),
    }
}

fn compares(test: Comparison, negated: bool, width: Width, a: OpOperand, b: OpOperand) -> Rest
    ensures { result ≡ ops.compares test negated width a b }
{
    Rest::Compare {
        test,
        negated,
        width,
        a,
        b,
    }
}

/// The comparison for a predicate. "Greater" is "less" with the operands exchanged, "at least" is "less" negated, and
/// "at most" is "less" with the operands exchanged and negated.
fn comparison(pred: Pred, width: Width, a: OpOperand, b: OpOperand) -> Rest
    ensures { result ≡ ops.compare_op pred width a b }
{
    match pred {
        Pred::Eq => compares(Comparison::Equal, false, width, a, b),
        Pred::Ne => compares(Comparison::Equal, true, width, a, b),
        Pred::Ugt => compares(Comparison::Less, false, width, b, a),
        Pred::Uge => compares(Comparison::Less, true, width, a, b),
        Pred::Ult => compares(Comparison::Less, false, width, a, b),
        Pred::Ule => compares(Comparison::Less, true, width, b, a),
        Pred::Sgt => compares(Comparison::SignedLess, false, width, b, a),
        Pred::Sge => compares(Comparison::SignedLess, true, width, a, b),
        Pred::Slt => compares(Comparison::SignedLess, false, width, a, b),
        Pred::Sle => compares(Comparison::SignedLess, true, width, b, a),
    }
}

fn conversion(op: CastOp, from: Width, to: Width, a: OpOperand) -> Rest
    ensures { result ≡ ops.cast_op op from to a }
{
    let signed = match op {
        CastOp::Sext => true,
        CastOp::Zext => false,
        CastOp::Trunc => false,
        CastOp::Ptrtoint => false,
        CastOp::Inttoptr => false,
    };
    Rest::Cast {
        signed,
        from,
        to,
        a,
    }
}

pub fn binary(
    scope: &Scope<'_, '_>,
    tables: &mut Growing,
    dest: &Name,
    op: BinaryOp,
    width: Width,
    operands: &Operands<'_>,
) -> Result<Op, NoMemory>
    requires scope { DescribesScope scope.now }
    requires dest { IsAmong (names_of scope.now) dest.now }
    requires a { OperandKnown (names_of scope.now) operands.now.a.now }
    requires b { OperandKnown (names_of scope.now) operands.now.b.now }
    ensures { IfOk result (λ o. Makes (grown tables.old) (grown tables.new) (λ t. (flags : Flags)
        → DoesHere scope.now t o (instrs.Binary dest.now op flags width operands.now.a.now operands.now.b.now))) }
{
    let dest = slot(scope, dest)?;
    let a = operand(scope, tables, operands.a)?;
    let b = operand(scope, tables, operands.b)?;
    let value = binary_value(op, width, a, b);
    Ok(Op::Value { dest, value })
}

pub fn compare(
    scope: &Scope<'_, '_>,
    tables: &mut Growing,
    dest: &Name,
    pred: Pred,
    ty: Scalar,
    operands: &Operands<'_>,
) -> Result<Op, NoMemory>
    requires scope { DescribesScope scope.now }
    requires dest { IsAmong (names_of scope.now) dest.now }
    requires a { OperandKnown (names_of scope.now) operands.now.a.now }
    requires b { OperandKnown (names_of scope.now) operands.now.b.now }
    ensures { IfOk result (λ o. Makes (grown tables.old) (grown tables.new)
        (λ t. DoesHere scope.now t o (instrs.Compare dest.now pred ty operands.now.a.now operands.now.b.now))) }
{
    let dest = slot(scope, dest)?;
    let a = operand(scope, tables, operands.a)?;
    let b = operand(scope, tables, operands.b)?;
    let value = Value::Rest(comparison(pred, width_of(ty), a, b));
    Ok(Op::Value { dest, value })
}

pub fn select(
    scope: &Scope<'_, '_>,
    tables: &mut Growing,
    dest: &Name,
    test: &hip_tree::Operand,
    operands: &Operands<'_>,
) -> Result<Op, NoMemory>
    requires scope { DescribesScope scope.now }
    requires dest { IsAmong (names_of scope.now) dest.now }
    requires test { OperandKnown (names_of scope.now) test.now }
    requires a { OperandKnown (names_of scope.now) operands.now.a.now }
    requires b { OperandKnown (names_of scope.now) operands.now.b.now }
    ensures { IfOk result (λ o. Makes (grown tables.old) (grown tables.new) (λ t. (ty : Scalar)
        → DoesHere scope.now t o (instrs.Select dest.now test.now ty operands.now.a.now operands.now.b.now))) }
{
    let dest = slot(scope, dest)?;
    let test = operand(scope, tables, test)?;
    let a = operand(scope, tables, operands.a)?;
    let b = operand(scope, tables, operands.b)?;
    let value = Value::Rest(Rest::Other(Other::Select { test, a, b }));
    Ok(Op::Value { dest, value })
}

pub fn cast(
    scope: &Scope<'_, '_>,
    tables: &mut Growing,
    dest: &Name,
    op: CastOp,
    a: &hip_tree::Operand,
    types: CastTypes,
) -> Result<Op, NoMemory>
    requires scope { DescribesScope scope.now }
    requires dest { IsAmong (names_of scope.now) dest.now }
    requires a { OperandKnown (names_of scope.now) a.now }
    ensures { IfOk result (λ o. Makes (grown tables.old) (grown tables.new)
        (λ t. DoesHere scope.now t o (instrs.Cast dest.now op types.from a.now types.to))) }
{
    let dest = slot(scope, dest)?;
    let a = operand(scope, tables, a)?;
    let value = Value::Rest(conversion(op, width_of(types.from), width_of(types.to), a));
    Ok(Op::Value { dest, value })
}
