ghost use Rattle.std.specs.Prelude.{◌≡◌, Some, IfOk};
ghost use Rattle.hip_tree.specs.declared.block.End.TheVariants as ends;
ghost use Rattle.hip_types.specs.declared.number.Width.{Width};
ghost use Rattle.hip_end_ops.specs.Edged.{IsSource, LeadFrom};
ghost use Rattle.hip_scope.specs.Grown.{grown};
ghost use Rattle.hip_scope.specs.Known.{OperandKnown};
ghost use Rattle.hip_scope.specs.Scopes.{DescribesScope, names_of};
ghost use Rattle.hip_end_ops.specs.Switched.{CasesNamed, EndsHere, HasCases, IsSorted, PutsCases};

use crate::edges::{EdgeSource, edge};
use hip_code::{Control, EdgeCase, Exit, Go, Op, Span};
use hip_scope::{Growing, Scope, operand, place};
use hip_tree::{Arg, End, Operand};
use hip_types::{Name, NoMemory, Row};

/// The labels of a branch on a condition.
#[derive(Clone, Copy)]
pub struct Labels<'a> {
    yes: &'a Name,
    no: &'a Name,
}

/// The cases of a switch, and the label that it takes if no case fits.
#[derive(Clone, Copy)]
pub struct SwitchTargets<'a> {
    cases: &'a [hip_tree::Case],
    other: &'a Name,
}

pub fn branch(
    scope: &Scope<'_, '_>,
    tables: &mut Growing,
    made: &mut Row<u32>,
    source: &EdgeSource<'_>,
    label: &Name,
) -> Result<Op, NoMemory>
    requires scope { DescribesScope scope.now }
    requires source { IsSource scope.now source.now }
    requires lead { LeadFrom scope.now source.now.number source.now.first (grown tables.old) }
    requires last { source.now.block.now.«end» ≡ ends.Br label.now }
    ensures { IfOk result (λ o. EndsHere scope.now (grown tables.old) (grown tables.new) source.now o) }
{
    let number = edge(scope, tables, made, source, label)?;
    Ok(Op::Control(Control::Go(Go::Br(number))))
}

pub fn branch_on(
    scope: &Scope<'_, '_>,
    tables: &mut Growing,
    made: &mut Row<u32>,
    source: &EdgeSource<'_>,
    test: &Operand,
    labels: &Labels<'_>,
) -> Result<Op, NoMemory>
    requires scope { DescribesScope scope.now }
    requires source { IsSource scope.now source.now }
    requires lead { LeadFrom scope.now source.now.number source.now.first (grown tables.old) }
    requires test { OperandKnown (names_of scope.now) test.now }
    requires last { source.now.block.now.«end» ≡ ends.CondBr test.now labels.now.yes.now labels.now.no.now }
    ensures { IfOk result (λ o. EndsHere scope.now (grown tables.old) (grown tables.new) source.now o) }
{
    let test = operand(scope, tables, test)?;
    let yes = edge(scope, tables, made, source, labels.yes)?;
    let no = edge(scope, tables, made, source, labels.no)?;
    Ok(Op::Control(Control::Go(Go::Cond { test, yes, no })))
}

// The cases in the order of the program, with the numbers of their edges.
fn cases_of(
    scope: &Scope<'_, '_>,
    tables: &mut Growing,
    made: &mut Row<u32>,
    source: &EdgeSource<'_>,
    cases: &[hip_tree::Case],
) -> Result<Row<EdgeCase>, NoMemory>
    requires scope { DescribesScope scope.now }
    requires source { IsSource scope.now source.now }
    requires lead { LeadFrom scope.now source.now.number source.now.first (grown tables.old) }
    requires named { CasesNamed source.now cases.now }
    ensures { IfOk result (λ cs. HasCases scope.now (grown tables.old) (grown tables.new) source.now cs cases.now) }
{
    let mut found = Row::new(scope.alloc);
    'switching: for index in 0..cases.len() {
        let case = &cases[index];
        let edge = edge(scope, tables, made, source, &case.label)?;
        let value = case.value.value;
        found.push(EdgeCase { value, edge })?;
    }
    Ok(found)
}

// The cases in ascending order of value. Cases with the same value stay in their order.
fn sorted(cases: Row<EdgeCase>) -> Result<Row<EdgeCase>, NoMemory>
    ensures { IfOk result (λ sorted. IsSorted cases sorted) }
{
    let mut cases = cases.into_vec();
    match cases.sort_by_key(|case| case.value) {
        Ok(()) => Ok(Row::from_vec(cases)),
        Err(_) => Err(NoMemory),
    }
}

// Puts the cases of a switch into the table in ascending order of value, so that a run finds a case by binary search.
fn put_cases(tables: &mut Growing, cases: Row<EdgeCase>) -> Result<Span, NoMemory>
    ensures { IfOk result (λ span. PutsCases (grown tables.old) (grown tables.new) cases span) }
{
    let from = place(tables.cases.len())?;
    let count = place(cases.len())?;
    let cases = sorted(cases)?;
    tables.cases.append(cases)?;
    Ok(Span { from, count })
}

pub fn switch(
    scope: &Scope<'_, '_>,
    tables: &mut Growing,
    made: &mut Row<u32>,
    source: &EdgeSource<'_>,
    value: &Operand,
    targets: &SwitchTargets<'_>,
) -> Result<Op, NoMemory>
    requires scope { DescribesScope scope.now }
    requires source { IsSource scope.now source.now }
    requires lead { LeadFrom scope.now source.now.number source.now.first (grown tables.old) }
    requires value { OperandKnown (names_of scope.now) value.now }
    requires last { (width : Width) × (source.now.block.now.«end»
        ≡ ends.Switch width value.now targets.now.other.now targets.now.cases.now) }
    ensures { IfOk result (λ o. EndsHere scope.now (grown tables.old) (grown tables.new) source.now o) }
{
    let value = operand(scope, tables, value)?;
    let cases = cases_of(scope, tables, made, source, targets.cases)?;
    let cases = put_cases(tables, cases)?;
    let other = edge(scope, tables, made, source, targets.other)?;
    Ok(Op::Control(Control::Go(Go::Switch {
        value,
        cases,
        other,
    })))
}

pub fn give_back(
    scope: &Scope<'_, '_>,
    tables: &mut Growing,
    source: &EdgeSource<'_>,
    arg: &Arg,
) -> Result<Op, NoMemory>
    requires scope { DescribesScope scope.now }
    requires value { OperandKnown (names_of scope.now) arg.now.value }
    requires last { source.now.block.now.«end» ≡ ends.Ret (Some arg.now) }
    ensures { IfOk result (λ o. EndsHere scope.now (grown tables.old) (grown tables.new) source.now o) }
{
    let value = operand(scope, tables, &arg.value)?;
    Ok(Op::Control(Control::Exit(Exit::Value(value))))
}

fn return_op(
    scope: &Scope<'_, '_>,
    tables: &mut Growing,
    source: &EdgeSource<'_>,
    value: &Option<Arg>,
) -> Result<Op, NoMemory>
    requires scope { DescribesScope scope.now }
    requires source { IsSource scope.now source.now }
    requires last { source.now.block.now.«end» ≡ ends.Ret value.now }
    ensures { IfOk result (λ o. EndsHere scope.now (grown tables.old) (grown tables.new) source.now o) }
{
    match value {
        Some(arg) => {
            let op = give_back(scope, tables, source, arg)?;
            Ok(op)
        }
        None => Ok(Op::Control(Control::Exit(Exit::Nothing))),
    }
}

/// The op of the end of a block.
pub fn end_op(
    scope: &Scope<'_, '_>,
    tables: &mut Growing,
    made: &mut Row<u32>,
    source: &EdgeSource<'_>,
) -> Result<Op, NoMemory>
    requires scope { DescribesScope scope.now }
    requires source { IsSource scope.now source.now }
    requires lead { LeadFrom scope.now source.now.number source.now.first (grown tables.old) }
    ensures { IfOk result (λ o. EndsHere scope.now (grown tables.old) (grown tables.new) source.now o) }
{
    match &source.block.end {
        End::Br { label } => {
            let op = branch(scope, tables, made, source, label)?;
            Ok(op)
        }
        End::CondBr { cond, yes, no } => {
            let op = branch_on(scope, tables, made, source, cond.get(), &Labels { yes, no })?;
            Ok(op)
        }
        End::Switch {
            value,
            other,
            cases,
            ..
        } => {
            let cases = cases.as_slice();
            let targets = SwitchTargets { cases, other };
            let op = switch(scope, tables, made, source, value.get(), &targets)?;
            Ok(op)
        }
        End::Ret(value) => {
            let op = return_op(scope, tables, source, value)?;
            Ok(op)
        }
        End::Unreachable => Ok(Op::Control(Control::Exit(Exit::Unreachable))),
    }
}
