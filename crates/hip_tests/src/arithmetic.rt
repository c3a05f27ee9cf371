//! Operations, comparisons and changes of width at the edges.

ghost use Rattle.std.specs.Prelude.{◌≡◌};
ghost use Rattle.hip_types.specs.declared.number.Width.TheVariants.{W8};

mod comparisons;
mod operations;

use comparisons::COMPARISONS;
use hip_num::{NumTrap, binary, compare, narrow, widen};
use hip_types::{BinaryOp, Bits, Pred, Width};
use operations::OPERATIONS;
use std::process::Abort;

fn assert_result(rt: &impl Abort, outcome: Result<Bits, NumTrap>, expected: Result<u64, NumTrap>) {
    let is_expected = match (outcome, expected) {
        (Ok(result), Ok(value)) => result.value == value,
        (Err(trap), Err(expected)) => trap == expected,
        _ => false,
    };
    assert!(rt; is_expected);
}

fn assert_value(rt: &impl Abort, number: Bits, value: u64) {
    assert_eq!(rt; number.value, value);
}

#[test]
fn operations_at_the_edges(rt: HostRuntime) {
    for (op, width, a, b, expected) in &OPERATIONS {
        let result = binary(*op, Bits::new(*width, *a), Bits::new(*width, *b));
        assert_result(&rt, result, *expected);
    }
}

#[test]
fn comparisons_at_the_edges(rt: HostRuntime) {
    for (pred, width, a, b, expected) in &COMPARISONS {
        let holds = compare(*pred, Bits::new(*width, *a), Bits::new(*width, *b));
        assert!(rt; holds == *expected);
    }
}

fn byte(value: u64) -> Bits
    ensures { result.width ≡ W8 }
{
    Bits::new(Width::W8, value)
}

/// An operation on two numbers of eight bits.
struct ByteOperation {
    op: BinaryOp,
    a: u64,
    b: u64,
    result: Result<u64, NumTrap>,
}

const BYTE_OPERATIONS: &[ByteOperation] = &[
    ByteOperation {
        op: BinaryOp::Add,
        a: 127,
        b: 1,
        result: Ok(128),
    },
    ByteOperation {
        op: BinaryOp::Sdiv,
        a: 128,
        b: 255,
        result: Err(NumTrap::DivOverflow),
    },
    ByteOperation {
        op: BinaryOp::Shl,
        a: 1,
        b: 8,
        result: Err(NumTrap::ShiftRange),
    },
    ByteOperation {
        op: BinaryOp::Urem,
        a: 1,
        b: 0,
        result: Err(NumTrap::DivZero),
    },
];

#[test]
fn number_edges(rt: HostRuntime) {
    for case in BYTE_OPERATIONS {
        assert_result(
            &rt,
            binary(case.op, byte(case.a), byte(case.b)),
            case.result,
        );
    }
    assert!(rt; compare(Pred::Slt, byte(255), byte(1)));
    assert!(rt; !compare(Pred::Ult, byte(255), byte(1)));
}

#[test]
fn changes_of_width(rt: HostRuntime) {
    let lowest = byte(0x80);
    assert_value(&rt, widen(lowest, Width::W16, true), 0xff80);
    assert_value(&rt, widen(lowest, Width::W16, false), 0x80);
    assert_value(
        &rt,
        widen(Bits::new(Width::W1, 1), Width::W64, true),
        u64::MAX,
    );
    assert_value(&rt, narrow(Bits::new(Width::W64, 0x1ff), Width::W8), 0xff);
    assert_value(&rt, narrow(Bits::new(Width::W8, 2), Width::W1), 0);
}
