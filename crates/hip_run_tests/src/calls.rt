//! The standing calls of a machine, and the plain steps that it takes.

use crate::machines::{checked, input, machine};
use hip_examples::AMPLE;
use hip_step::Machine;
use std::alloc::Global;
use std::process::Abort;

const CALLS: &str = "@v = global i64 5
define i64 @twice(i64 %a) {
entry:
  %b = add i64 %a, %a
  ret i64 %b
}
define i64 @next(i64 %a) {
entry:
  %b = call i64 @twice(i64 %a)
  %c = add i64 %b, 1
  ret i64 %c
}
define i64 @at(ptr %p) {
entry:
  %x = load i64, ptr %p
  ret i64 %x
}
define i32 @main() {
entry:
  %a = call i64 @next(i64 3)
  %b = call i64 @at(ptr @v)
  ret i32 0
}
";

/// The function, the block and the place of a call, and how many steps were taken before it.
type Standing = (usize, usize, usize, u128);

fn standing(machine: &Machine<'_>, level: usize) -> Option<Standing> {
    let call = machine.standing_call(level)?;
    Some((
        call.site.function,
        call.site.block,
        call.site.index,
        call.birth,
    ))
}

fn take_steps(rt: &impl Abort, machine: &mut Machine<'_>, count: usize) {
    for _ in 0..count {
        let _event = machine.step().expect(rt, AMPLE);
    }
}

/// Asserts that after two steps the standing calls are those of `twice` and `next`, each with the number of steps
/// before it.
fn assert_standing(rt: &impl Abort, alloc: Global) {
    let checked = checked(rt, alloc, CALLS);
    let input = input(rt, alloc, &checked, &[], 100);
    let mut machine = machine(rt, alloc, &checked, &input);
    assert!(rt; standing(&machine, 0).is_none());
    take_steps(rt, &mut machine, 2);
    assert!(rt; standing(&machine, 0) == Some((1, 0, 0, 1)));
    assert!(rt; standing(&machine, 1) == Some((3, 0, 0, 0)));
    assert!(rt; standing(&machine, 2).is_none());
}

/// From inside of both calls the plain steps lead to the call with a pointer, and not past it.
fn assert_plain(rt: &impl Abort, alloc: Global) {
    let checked = checked(rt, alloc, CALLS);
    let input = input(rt, alloc, &checked, &[], 100);
    let mut machine = machine(rt, alloc, &checked, &input);
    take_steps(rt, &mut machine, 2);
    assert!(rt; machine.pass_plain_steps() == 4);
    assert!(rt; machine.depth() == 1 && machine.pointer(0).is_some());
    assert!(rt; machine.pass_plain_steps() == 0);
    take_steps(rt, &mut machine, 1);
    assert!(rt; standing(&machine, 0) == Some((3, 0, 1, 6)));
}

#[test]
fn calls_stand_with_their_births(rt: HostRuntime) {
    assert_standing(&rt, rt.alloc());
}

#[test]
fn plain_steps_stop_at_a_pointer(rt: HostRuntime) {
    assert_plain(&rt, rt.alloc());
}
