ghost use Rattle.std.specs.Prelude.{◌≡◌, IfOk};
ghost use Rattle.hip_typing.specs.Seen.Answers.{Answers};
ghost use Rattle.hip_typing.specs.Seen.EndSeen.{end_found};
ghost use Rattle.hip_sound.specs.Places as places;

use crate::places::operands::{uses_agree, uses_fit, uses_known};
use crate::places::targets::{EndLabels, targets_known, targets_name_entry};
use crate::places::uses::Uses;
use crate::refused::{Refused, ask};
use crate::rules::externs::is_same_scalar;
use crate::tables::{FunctionTables, ProgramTables};
use hip_sound::{Fault, Place};
use hip_tree::{Arg, Case, End};
use hip_types::{NoMemory, Scalar};
use indexmap::IndexSet;
use std::alloc::Global;

fn returned_agrees(arg: &Option<Arg>, ret: Option<Scalar>) -> bool
    ensures { result ≡ places.returned_agrees arg.now ret }
{
    match (arg, ret) {
        (Some(arg), Some(ret)) => is_same_scalar(arg.ty, ret),
        (None, None) => true,
        _ => false,
    }
}

/// Whether what a function's block returns has the type of the function's result.
fn end_agrees(ret: Option<Scalar>, end: &End) -> bool
    ensures { result ≡ places.returns ret end.now }
{
    match end {
        End::Ret(arg) => returned_agrees(arg, ret),
        _ => true,
    }
}

/// Whether the values of cases differ, in number or in width.
fn cases_differ(alloc: Global, cases: &[Case]) -> Result<bool, NoMemory>
    ensures { IfOk result (λ differ. differ ≡ places.cases_differ cases.now) }
{
    let mut earlier = IndexSet::new(alloc);
    'each: for case in cases {
        let is_new = earlier.insert((case.value.width.bits(), case.value.value))?;
        if !is_new {
            return Ok(false);
        }
    }
    Ok(true)
}

fn end_cases_differ(alloc: Global, end: &End) -> Result<bool, NoMemory>
    ensures { IfOk result (λ differ. differ ≡ places.cases_differ (places.end_cases end.now)) }
{
    match end {
        End::Switch { cases, .. } => cases_differ(alloc, cases.as_slice()),
        _ => Ok(true),
    }
}

/// Verifies the end of a block: names exist, types that are written there fit, types agree, the values of cases differ,
/// and no branch goes to the entry block.
pub fn verify_end(
    alloc: Global,
    program: &ProgramTables<'_>,
    function: &FunctionTables<'_>,
    end: &End,
    place: Place,
) -> Result<(), Refused>
    ensures { Answers result
        (end_found function.now.registers.names function.now.registers.values program.now.globals function.now.labels
        function.now.function.now end.now place) }
{
    let uses = Uses::of_end(end);
    let targets = EndLabels::of_end(end);
    let registers = &function.registers;
    ask(
        uses_known(registers, &program.globals, &uses) && targets_known(&function.labels, &targets),
        Fault::Unknown,
        place,
    )?;
    ask(uses_fit(&uses), Fault::TooLarge, place)?;
    ask(
        uses_agree(registers, &uses) && end_agrees(function.function.ret, end),
        Fault::Mismatch,
        place,
    )?;
    ask(end_cases_differ(alloc, end)?, Fault::Duplicate, place)?;
    ask(
        !targets_name_entry(function.function.blocks.as_slice(), &targets),
        Fault::BadEdge,
        place,
    )
}
