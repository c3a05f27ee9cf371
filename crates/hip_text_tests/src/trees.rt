//! Programs that are built as trees: copies, comparisons, and instructions at sites.

use hip_examples::AMPLE;
use hip_ir::{copy, copy_const, same, same_const};
use hip_tree::{
    Arg, Block, Const, ConstGep, End, Function, GlobalVar, Instr, Operand, Phi, Program, Site,
    instr_at,
};
use hip_types::{Bits, Link, Name, Row, Scalar, Ty, Width};
use std::alloc::Global;
use std::process::Abort;

/// A name of these bytes.
pub fn name(rt: &impl Abort, alloc: Global, text: &str) -> Name {
    Row::from_slice(alloc, text.as_bytes()).expect(rt, AMPLE)
}

/// A row of one item.
pub fn one<T: Drop>(rt: &impl Abort, alloc: Global, item: T) -> Row<T> {
    let mut row = Row::new(alloc);
    row.push(item).expect(rt, AMPLE);
    row
}

/// The number 1 of this width.
pub fn number(width: Width) -> Operand {
    Operand::Fixed(Const::Int(Bits::new(width, 1)))
}

/// A global like `@x = global i64 0, section ".pm"`, with an alignment if one is given.
pub fn global(rt: &impl Abort, alloc: Global, text: &str, align: Option<u64>) -> GlobalVar {
    GlobalVar {
        name: name(rt, alloc, text),
        fixed: false,
        ty: Ty::Int(Width::W64),
        init: Const::Int(Bits::new(Width::W64, 0)),
        persistent: true,
        align,
    }
}

/// A program of one function `main`, which has one block.
pub fn program_of(
    rt: &impl Abort,
    alloc: Global,
    label: &str,
    phis: Row<Phi>,
    body: Row<Instr>,
    end: End,
) -> Program {
    let block = Block {
        label: name(rt, alloc, label),
        phis,
        body,
        end,
    };
    let function = Function {
        ret: Some(Scalar::Int(Width::W32)),
        name: name(rt, alloc, "main"),
        params: Row::new(alloc),
        blocks: one(rt, alloc, block),
    };
    Program {
        globals: Row::new(alloc),
        externs: Row::new(alloc),
        functions: one(rt, alloc, function),
    }
}

/// A store of 1 into `@x`.
fn store(rt: &impl Abort, alloc: Global) -> Instr {
    Instr::Store {
        ty: Scalar::Int(Width::W64),
        value: number(Width::W64),
        addr: Operand::Fixed(Const::Address(name(rt, alloc, "x"))),
        align: None,
    }
}

/// `ret i32 1`
fn return_one() -> End {
    End::Ret(Some(Arg {
        ty: Scalar::Int(Width::W32),
        value: number(Width::W32),
    }))
}

/// A global `@x`, and a `main` that stores into it once and returns 1.
pub fn one_store(rt: &impl Abort, alloc: Global, align: Option<u64>) -> Program {
    let body = one(rt, alloc, store(rt, alloc));
    let mut program = program_of(rt, alloc, "entry", Row::new(alloc), body, return_one());
    program.globals = one(rt, alloc, global(rt, alloc, "x", align));
    program
}

fn assert_copied(rt: &impl Abort, alloc: Global, program: &Program) {
    let other = copy(alloc, program).expect(rt, AMPLE);
    assert!(rt; same(program, &other));
}

#[test]
fn copied_program(rt: HostRuntime) {
    let program = one_store(&rt, rt.alloc(), Some(64));
    assert_copied(&rt, rt.alloc(), &program);
    let unaligned = one_store(&rt, rt.alloc(), None);
    assert!(rt; !same(&program, &unaligned));
}

/// `getelementptr (ptr, ptr @x, i64 1)`, inside an object or not.
fn address(rt: &impl Abort, alloc: Global, inbounds: bool) -> Const {
    let gep = ConstGep {
        inbounds,
        ty: Ty::Ptr,
        base: Const::Address(name(rt, alloc, "x")),
        indices: one(rt, alloc, Bits::new(Width::W64, 1)),
    };
    Const::Gep(Link::new(alloc, gep).expect(rt, AMPLE))
}

fn assert_constant_copied(rt: &impl Abort, alloc: Global, value: &Const) {
    let other = copy_const(alloc, value).expect(rt, AMPLE);
    assert!(rt; same_const(value, &other));
}

#[test]
fn copied_constant(rt: HostRuntime) {
    let value = address(&rt, rt.alloc(), true);
    assert_constant_copied(&rt, rt.alloc(), &value);
    let outside = address(&rt, rt.alloc(), false);
    assert!(rt; !same_const(&value, &outside));
}

/// A place in the block of `main`.
fn site(index: usize) -> Site {
    Site {
        function: 0,
        block: 0,
        index,
    }
}

#[test]
fn instruction_at_a_site(rt: HostRuntime) {
    let program = one_store(&rt, rt.alloc(), None);
    assert!(rt; matches!(instr_at(&program, site(0)), Some(Instr::Store { .. })));
    assert!(rt; instr_at(&program, site(1)).is_none());
}
