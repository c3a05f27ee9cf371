//! Which programs some text reads as.

use crate::trees::{global, name, number, one, one_store, program_of};
use hip_examples::AMPLE;
use hip_ir::spelled;
use hip_tree::{Case, Const, End, Flags, Instr, Operand, Phi, Program};
use hip_types::{BinaryOp, Bits, CastOp, Link, Row, Scalar, Ty, Width};
use std::alloc::Global;
use std::process::Abort;

fn is_spelled_instr(rt: &impl Abort, alloc: Global, instr: Instr) -> bool {
    let body = one(rt, alloc, instr);
    let program = program_of(rt, alloc, "entry", Row::new(alloc), body, End::Unreachable);
    spelled(&program)
}

fn is_spelled_end(rt: &impl Abort, alloc: Global, label: &str, end: End) -> bool {
    let program = program_of(rt, alloc, label, Row::new(alloc), Row::new(alloc), end);
    spelled(&program)
}

/// Whether a program that also has a global of this name is spelled.
fn is_spelled_global(rt: &impl Abort, alloc: Global, text: &str) -> bool {
    let mut program = one_store(rt, alloc, Some(64));
    program
        .globals
        .push(global(rt, alloc, text, None))
        .expect(rt, AMPLE);
    spelled(&program)
}

#[test]
fn names_are_spelled(rt: HostRuntime) {
    let alloc = rt.alloc();
    let program = one_store(&rt, alloc, Some(64));
    assert!(rt; spelled(&program));
    assert!(rt; !is_spelled_global(&rt, alloc, ""));
    for label in ["", "1st", "a b"] {
        assert!(rt;
            !is_spelled_end(&rt, alloc, label, End::Unreachable),
            "{label}"
        );
    }
    let label = name(&rt, alloc, "%entry");
    assert!(rt; !is_spelled_end(&rt, alloc, "entry", End::Br { label }));
}

/// `add i64 1, 1` with these flags, and a second operand of this width.
struct Addition {
    flags: Flags,
    second: Width,
    is_spelled: bool,
}

const WRAPS: Flags = Flags {
    nuw: true,
    nsw: true,
    exact: false,
};

const EXACT: Flags = Flags {
    nuw: false,
    nsw: false,
    exact: true,
};

const ADDITIONS: &[Addition] = &[
    Addition {
        flags: WRAPS,
        second: Width::W64,
        is_spelled: true,
    },
    Addition {
        flags: EXACT,
        second: Width::W64,
        is_spelled: false,
    },
    Addition {
        flags: WRAPS,
        second: Width::W32,
        is_spelled: false,
    },
];

#[test]
fn additions_are_spelled(rt: HostRuntime) {
    let alloc = rt.alloc();
    for case in ADDITIONS {
        let add = Instr::Binary {
            dest: name(&rt, alloc, "r"),
            op: BinaryOp::Add,
            flags: case.flags,
            width: Width::W64,
            a: number(Width::W64),
            b: number(case.second),
        };
        assert!(rt; is_spelled_instr(&rt, alloc, add) == case.is_spelled);
    }
}

/// `ptrtoint` of a number of 64 bits to one of 32.
fn narrowed(rt: &impl Abort, alloc: Global) -> Instr {
    Instr::Cast {
        dest: name(rt, alloc, "r"),
        op: CastOp::Ptrtoint,
        from: Scalar::Int(Width::W64),
        a: number(Width::W64),
        to: Scalar::Int(Width::W32),
    }
}

/// `getelementptr` without an index.
fn without_index(rt: &impl Abort, alloc: Global) -> Instr {
    Instr::Gep {
        dest: name(rt, alloc, "r"),
        inbounds: true,
        ty: Ty::Ptr,
        base: Operand::Fixed(Const::Null),
        indices: Row::new(alloc),
    }
}

#[test]
fn pointers_are_spelled(rt: HostRuntime) {
    let alloc = rt.alloc();
    assert!(rt; !is_spelled_instr(&rt, alloc, narrowed(&rt, alloc)));
    assert!(rt; !is_spelled_instr(&rt, alloc, without_index(&rt, alloc)));
}

/// An `alloca` of arrays of one element, n deep, at this alignment.
struct Block {
    depth: u32,
    align: u64,
    is_spelled: bool,
}

const BLOCKS: &[Block] = &[
    Block {
        depth: 32,
        align: 4096,
        is_spelled: true,
    },
    Block {
        depth: 33,
        align: 4096,
        is_spelled: false,
    },
    Block {
        depth: 1,
        align: 0,
        is_spelled: false,
    },
    Block {
        depth: 1,
        align: 24,
        is_spelled: false,
    },
    Block {
        depth: 1,
        align: 8192,
        is_spelled: false,
    },
];

/// Arrays of one element, n deep.
fn nested(rt: &impl Abort, alloc: Global, depth: u32) -> Ty {
    let mut ty = Ty::Ptr;
    for _level in 0..depth {
        ty = Ty::Array(1, Link::new(alloc, ty).expect(rt, AMPLE));
    }
    ty
}

fn alloca(rt: &impl Abort, alloc: Global, case: &Block) -> Instr {
    Instr::Alloca {
        dest: name(rt, alloc, "r"),
        ty: nested(rt, alloc, case.depth),
        align: Some(case.align),
    }
}

#[test]
fn limits_of_spelling(rt: HostRuntime) {
    let alloc = rt.alloc();
    for case in BLOCKS {
        let alloca = alloca(&rt, alloc, case);
        assert!(rt; is_spelled_instr(&rt, alloc, alloca) == case.is_spelled);
    }
}

/// `switch i64 1, label %entry [ .. ]` with one case of this width.
fn switch(rt: &impl Abort, alloc: Global, width: Width) -> End {
    let case = Case {
        value: Bits::new(width, 1),
        label: name(rt, alloc, "entry"),
    };
    End::Switch {
        width: Width::W64,
        value: Link::new(alloc, number(Width::W64)).expect(rt, AMPLE),
        other: name(rt, alloc, "entry"),
        cases: one(rt, alloc, case),
    }
}

/// A program with a phi that has no edges.
fn without_edges(rt: &impl Abort, alloc: Global) -> Program {
    let phi = Phi {
        dest: name(rt, alloc, "p"),
        ty: Scalar::Ptr,
        edges: Row::new(alloc),
    };
    let phis = one(rt, alloc, phi);
    program_of(rt, alloc, "entry", phis, Row::new(alloc), End::Unreachable)
}

fn is_spelled_switch(rt: &impl Abort, alloc: Global, width: Width) -> bool {
    is_spelled_end(rt, alloc, "entry", switch(rt, alloc, width))
}

#[test]
fn blocks_are_spelled(rt: HostRuntime) {
    let alloc = rt.alloc();
    assert!(rt; is_spelled_switch(&rt, alloc, Width::W64));
    assert!(rt; !is_spelled_switch(&rt, alloc, Width::W8));
    let without_edges = without_edges(&rt, alloc);
    assert!(rt; !spelled(&without_edges));
}
