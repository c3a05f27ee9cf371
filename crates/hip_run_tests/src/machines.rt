//! Programs of texts, their inputs, and machines at the start of their runs.

use hip_examples::AMPLE;
use hip_parse::parse;
use hip_sound::Checked;
use hip_step::{Begin, Input, Machine, why_not};
use hip_types::Row;
use hip_typing::check;
use std::alloc::Global;
use std::process::Abort;

/// Where the region begins.
pub const BASE: u64 = 4_294_967_296;

/// The sound program of a text.
pub fn checked(rt: &impl Abort, alloc: Global, text: &str) -> Checked {
    let program = parse(alloc, text.as_bytes()).expect(rt, "the text is read");
    check(alloc, program).expect(rt, "the program is sound")
}

/// The input of a run from the program's initial bytes.
pub fn input(
    rt: &impl Abort,
    alloc: Global,
    checked: &Checked,
    numbers: &[i64],
    limit: u64,
) -> Input {
    Input {
        base: BASE,
        image: checked.region_bytes(alloc, BASE).expect(rt, AMPLE),
        numbers: Row::from_slice(alloc, numbers).expect(rt, AMPLE),
        limit,
    }
}

/// A machine at the start of a run on a valid input.
pub fn machine<'a>(
    rt: &impl Abort,
    alloc: Global,
    checked: &'a Checked,
    input: &'a Input,
) -> Machine<'a> {
    assert!(rt; why_not(checked, input).is_none(), "the input is valid");
    Machine::new(alloc, checked, input).expect(rt, AMPLE)
}
