//! Which functions calls reach, in large programs.

use crate::programs::site;
use hip_calls::{callees, fresh_names};
use hip_examples::AMPLE;
use hip_num::natural_into;
use hip_tree::{Block, End, Function, Instr, Program, Site};
use hip_types::{Name, Row};
use std::alloc::Global;
use std::process::Abort;

const MANY: usize = 100_000;

/// `f` and a number.
fn name_of(rt: &impl Abort, alloc: Global, number: usize) -> Name {
    let mut digits = [0; 40];
    let len = natural_into(&mut digits, number as u128);
    let mut name = Row::from_slice(alloc, b"f").expect(rt, AMPLE);
    name.extend_from_slice(&digits[..len]).expect(rt, AMPLE);
    name
}

/// A function that takes and gives nothing.
fn function(rt: &impl Abort, alloc: Global, name: Name, body: Row<Instr>) -> Function {
    let mut blocks = Row::new(alloc);
    blocks
        .push(Block {
            label: Row::from_slice(alloc, b"entry").expect(rt, AMPLE),
            phis: Row::new(alloc),
            body,
            end: End::Ret(None),
        })
        .expect(rt, AMPLE);
    Function {
        ret: None,
        name,
        params: Row::new(alloc),
        blocks,
    }
}

/// Calls of the function of a number.
fn calls(rt: &impl Abort, alloc: Global, callee: usize, count: usize) -> Row<Instr> {
    let mut body = Row::new(alloc);
    for _ in 0..count {
        body.push(Instr::Call {
            dest: None,
            ret: None,
            callee: name_of(rt, alloc, callee),
            args: Row::new(alloc),
        })
        .expect(rt, AMPLE);
    }
    body
}

fn program_of(alloc: Global, functions: Row<Function>) -> Program {
    Program {
        globals: Row::new(alloc),
        externs: Row::new(alloc),
        functions,
    }
}

/// Functions of which each calls the next.
fn chain(rt: &impl Abort, alloc: Global) -> Program {
    let mut functions = Row::new(alloc);
    for number in 0..MANY {
        let body = calls(rt, alloc, number + 1, 1);
        functions
            .push(function(rt, alloc, name_of(rt, alloc, number), body))
            .expect(rt, AMPLE);
    }
    program_of(alloc, functions)
}

#[test]
fn many_functions_in_a_chain(rt: HostRuntime) {
    let program = chain(&rt, rt.alloc());
    let found = callees(rt.alloc(), &program, &[site((0, 0, 0))]).expect(&rt, AMPLE);
    assert_eq!(rt; found.len(), MANY - 1);
    assert_eq!(rt; found.get(0).copied(), Some(1));
    assert_eq!(rt; found.get(MANY - 2).copied(), Some(MANY - 1));
    let names = fresh_names(rt.alloc(), &program, found.as_slice()).expect(&rt, AMPLE);
    assert_eq!(rt; names.len(), MANY - 1);
}

/// A function that calls another this many times, and the other one.
fn two_functions(rt: &impl Abort, alloc: Global) -> Program {
    let mut functions = Row::new(alloc);
    functions
        .push(function(rt, alloc, name_of(rt, alloc, 0), calls(rt, alloc, 1, MANY)))
        .expect(rt, AMPLE);
    functions
        .push(function(rt, alloc, name_of(rt, alloc, 1), Row::new(alloc)))
        .expect(rt, AMPLE);
    program_of(alloc, functions)
}

fn first_places(rt: &impl Abort, alloc: Global) -> Row<Site> {
    let mut sites = Row::new(alloc);
    for index in 0..MANY {
        sites.push(site((0, 0, index))).expect(rt, AMPLE);
    }
    sites
}

#[test]
fn many_calls_of_one_function(rt: HostRuntime) {
    let program = two_functions(&rt, rt.alloc());
    let sites = first_places(&rt, rt.alloc());
    let found = callees(rt.alloc(), &program, sites.as_slice()).expect(&rt, AMPLE);
    assert_eq!(rt; found.as_slice(), [1].as_slice());
}
