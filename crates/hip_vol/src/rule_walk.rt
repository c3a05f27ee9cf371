ghost use Rattle.std.specs.Prelude.{◌≡◌, ◌∷◌, [], ◌++◌, All, Some, IfOk, OnOk};
ghost use Rattle.std.specs.List.{flat_map};
ghost use Rattle.hip_types.specs.Layout.{Fits};
ghost use Rattle.hip_externs.specs.Externs.{call_of};
ghost use Rattle.hip_invariants.specs.PointerLevels as levels;
ghost use Rattle.hip_vol.specs.Bounds.{Register};
ghost use Rattle.hip_vol.specs.ScopeTables.{DescribesRuleScope};
ghost use Rattle.hip_vol.specs.Gathered.{BlockFits, EndFits, FunctionFits, InstrFits, OperandFits, PhiFits};
ghost use Rattle.hip_vol.specs.Rules as spec;
ghost use Rattle.hip_vol.specs.Tables.{IsSmall, bound_of};

use crate::constants::{constant_level, known_path, offset_of, persistence_table};
use crate::numbered::{FREE, at_offset};
use crate::table::RuleTable;
use crate::variables::{Bound, Variable};
use hip_calls::FunctionTable;
use hip_externs::ExternCall;
use hip_names::NameTable;
use hip_tree::{Arg, Block, Edge, End, Function, Instr, Operand, Param, Phi, Program};
use hip_types::{Name, NoMemory, Ty};
use std::alloc::Global;

/// A program, with tables by names for the gathering of its rules: which globals are persistent, and the numbers of
/// functions.
#[derive(Drop)]
pub struct RuleScope<'p> {
    pub alloc: Global,
    pub program: &'p Program,
    pub persistence: NameTable<'p, bool>,
    pub functions: FunctionTable<'p>,
}

impl<'p> RuleScope<'p> {
    /// A scope of a program. The time is linear in the globals and functions.
    pub fn new(alloc: Global, program: &'p Program) -> Result<RuleScope<'p>, NoMemory>
        ensures describes { IfOk result (λ scope. DescribesRuleScope scope) }
        ensures program { IfOk result (λ scope. scope.program.now ≡ program.now) }
    {
        let persistence = persistence_table(alloc, program.globals.as_slice())?;
        let functions = FunctionTable::new(alloc, program)?;
        Ok(RuleScope {
            alloc,
            program,
            persistence,
            functions,
        })
    }
}

/// The least level of the address at an offset from an operand.
fn operand_at_offset<'p>(
    scope: &RuleScope<'p>,
    function: usize,
    operand: &'p Operand,
    offset: u64,
) -> Result<Bound<'p>, NoMemory>
    requires scope { DescribesRuleScope scope.now }
    requires fits { OperandFits operand.now }
    ensures bound { IfOk result (λ bound. bound_of bound
        ≡ spec.offset_bound scope.now.program.now function operand.now offset) }
    ensures small { IfOk result IsSmall }
{
    match operand {
        Operand::Reg(name) => Ok(Bound::AtOffset(
            offset,
            Variable::Register(function, name.as_slice()),
        )),
        Operand::Fixed(value) => {
            let level = constant_level(scope.alloc, &scope.persistence, value)?;
            Ok(Bound::Known(at_offset(level, offset)))
        }
    }
}

/// The least level of an operand.
pub fn operand_bound<'p>(
    scope: &RuleScope<'p>,
    function: usize,
    operand: &'p Operand,
) -> Result<Bound<'p>, NoMemory>
    requires scope { DescribesRuleScope scope.now }
    requires fits { OperandFits operand.now }
    ensures bound { IfOk result (λ bound. bound_of bound
        ≡ spec.operand_bound scope.now.program.now function operand.now) }
    ensures small { IfOk result IsSmall }
{
    operand_at_offset(scope, function, operand, 0)
}

/// The least level of an element.
fn element_bound<'p>(
    scope: &RuleScope<'p>,
    function: usize,
    base: &'p Operand,
    ty: &Ty,
    indices: &[Arg],
) -> Result<Bound<'p>, NoMemory>
    requires scope { DescribesRuleScope scope.now }
    requires base { OperandFits base.now }
    requires ty { Fits ty.now }
    ensures bound { IfOk result (λ bound. bound_of bound
        ≡ spec.element_bound scope.now.program.now function base.now ty.now (levels.known_path indices.now)) }
    ensures small { IfOk result IsSmall }
{
    match known_path(scope.alloc, indices)? {
        Some(path) => operand_at_offset(scope, function, base, offset_of(ty, path.as_slice())),
        None => Ok(Bound::Known(FREE)),
    }
}

/// Adds a rule for a register.
fn add_register<'p>(
    rules: &mut RuleTable<'p>,
    function: usize,
    name: &'p Name,
    least: Bound<'p>,
) -> Result<(), NoMemory>
    requires { IsSmall least }
    ensures { OnOk result (rules.new
        ≡ rules.old ++ record { variable = Register function name.now; least = bound_of least.entry } ∷ []) }
{
    rules.add(Variable::Register(function, name.as_slice()), least)
}

/// Adds a rule for the register that a call's result goes into, if there is one.
fn add_result<'p>(
    program: &Program,
    rules: &mut RuleTable<'p>,
    function: usize,
    dest: &'p Option<Name>,
    least: Bound<'p>,
) -> Result<(), NoMemory>
    requires { IsSmall least }
    ensures { OnOk result (rules.new
        ≡ rules.old ++ spec.rule_for_result program.now function dest.now (bound_of least.entry)) }
{
    match dest {
        Some(name) => add_register(rules, function, name, least),
        None => Ok(()),
    }
}

/// Adds the rule of a parameter for an argument.
fn add_argument<'p>(
    scope: &RuleScope<'p>,
    rules: &mut RuleTable<'p>,
    function: usize,
    callee: usize,
    param: &'p Param,
    arg: &'p Arg,
) -> Result<(), NoMemory>
    requires scope { DescribesRuleScope scope.now }
    requires fits { OperandFits arg.now.value }
    ensures { OnOk result (rules.new ≡ rules.old ++ record {
      variable = Register callee param.now.name;
      least = spec.operand_bound scope.now.program.now function arg.now.value;
    } ∷ []) }
{
    let least = operand_bound(scope, function, &arg.value)?;
    add_register(rules, callee, &param.name, least)
}

/// Adds the rules of parameters for the arguments of a call.
fn add_arguments<'p>(
    scope: &RuleScope<'p>,
    rules: &mut RuleTable<'p>,
    function: usize,
    callee: usize,
    params: &'p [Param],
    args: &'p [Arg],
) -> Result<(), NoMemory>
    requires scope { DescribesRuleScope scope.now }
    requires fits { All (λ a. OperandFits a.value) args.now }
    ensures { OnOk result (rules.new
        ≡ rules.old ++ spec.argument_rules scope.now.program.now function callee params.now args.now) }
{
    let count = params.len().min(args.len());
    'each: for place in 0..count {
        add_argument(scope, rules, function, callee, &params[place], &args[place])?;
    }
    Ok(())
}

/// Adds the rules of a call of the function of a number.
fn add_entry<'p>(
    scope: &RuleScope<'p>,
    rules: &mut RuleTable<'p>,
    function: usize,
    dest: &'p Option<Name>,
    callee: usize,
    args: &'p [Arg],
) -> Result<(), NoMemory>
    requires scope { DescribesRuleScope scope.now }
    requires fits { All (λ a. OperandFits a.value) args.now }
    ensures { OnOk result (rules.new ≡ rules.old
        ++ spec.entry_rules scope.now.program.now function dest.now args.now (Some callee)) }
{
    match scope.program.functions.get(callee) {
        Some(entered) => {
            let least = Bound::AtOffset(0, Variable::Result(callee));
            add_result(scope.program, rules, function, dest, least)?;
            add_arguments(
                scope,
                rules,
                function,
                callee,
                entered.params.as_slice(),
                args,
            )
        }
        None => Ok(()),
    }
}

/// Adds the rules of a call.
fn add_call<'p>(
    scope: &RuleScope<'p>,
    rules: &mut RuleTable<'p>,
    function: usize,
    dest: &'p Option<Name>,
    callee: &'p Name,
    args: &'p [Arg],
) -> Result<(), NoMemory>
    requires scope { DescribesRuleScope scope.now }
    requires fits { All (λ a. OperandFits a.value) args.now }
    ensures { OnOk result (rules.new ≡ rules.old
        ++ spec.call_rules scope.now.program.now function dest.now callee.now args.now (call_of callee.now)) }
{
    match ExternCall::named(callee.as_slice()) {
        Some(_) => add_result(scope.program, rules, function, dest, Bound::Known(FREE)),
        None => match scope.functions.number_of(callee.as_slice()) {
            Some(number) => add_entry(scope, rules, function, dest, number, args),
            None => Ok(()),
        },
    }
}

/// Adds the rules of an instruction.
fn add_instr<'p>(
    scope: &RuleScope<'p>,
    rules: &mut RuleTable<'p>,
    function: usize,
    instr: &'p Instr,
) -> Result<(), NoMemory>
    requires scope { DescribesRuleScope scope.now }
    requires fits { InstrFits instr.now }
    ensures { OnOk result (rules.new
        ≡ rules.old ++ spec.instr_rules scope.now.program.now function instr.now) }
{
    match instr {
        Instr::Alloca { dest, .. } => add_register(rules, function, dest, Bound::Known(0)),
        Instr::Load { dest, .. } => add_register(rules, function, dest, Bound::Known(FREE)),
        Instr::Cast { dest, .. } => add_register(rules, function, dest, Bound::Known(FREE)),
        Instr::Binary { dest, .. } => add_register(rules, function, dest, Bound::Known(FREE)),
        Instr::Compare { dest, .. } => add_register(rules, function, dest, Bound::Known(FREE)),
        Instr::Gep {
            dest,
            ty,
            base,
            indices,
            ..
        } => {
            let least = element_bound(scope, function, base, ty, indices.as_slice())?;
            add_register(rules, function, dest, least)
        }
        Instr::Select { dest, a, b, .. } => {
            let first = operand_bound(scope, function, a)?;
            let second = operand_bound(scope, function, b)?;
            add_register(rules, function, dest, first)?;
            add_register(rules, function, dest, second)
        }
        Instr::Call {
            dest,
            callee,
            args,
            ..
        } => add_call(scope, rules, function, dest, callee, args.as_slice()),
        Instr::Store { .. } => Ok(()),
    }
}

/// Adds the rule of a phi for the value of an edge.
fn add_edge<'p>(
    scope: &RuleScope<'p>,
    rules: &mut RuleTable<'p>,
    function: usize,
    dest: &'p Name,
    edge: &'p Edge,
) -> Result<(), NoMemory>
    requires scope { DescribesRuleScope scope.now }
    requires fits { OperandFits edge.now.value }
    ensures { OnOk result (rules.new ≡ rules.old ++ spec.rule scope.now.program.now function dest.now
        (spec.operand_bound scope.now.program.now function edge.now.value) ∷ []) }
{
    let least = operand_bound(scope, function, &edge.value)?;
    add_register(rules, function, dest, least)
}

/// Adds the rules of a phi.
fn add_phi<'p>(
    scope: &RuleScope<'p>,
    rules: &mut RuleTable<'p>,
    function: usize,
    phi: &'p Phi,
) -> Result<(), NoMemory>
    requires scope { DescribesRuleScope scope.now }
    requires fits { PhiFits phi.now }
    ensures { OnOk result (rules.new
        ≡ rules.old ++ spec.phi_rules scope.now.program.now function phi.now) }
{
    let edges = phi.edges.as_slice();
    'each: for edge in edges {
        add_edge(scope, rules, function, &phi.dest, edge)?;
    }
    Ok(())
}

/// Adds the rule of what a block returns, if it returns a value.
fn add_end<'p>(
    scope: &RuleScope<'p>,
    rules: &mut RuleTable<'p>,
    function: usize,
    end: &'p End,
) -> Result<(), NoMemory>
    requires scope { DescribesRuleScope scope.now }
    requires fits { EndFits end.now }
    ensures { OnOk result (rules.new
        ≡ rules.old ++ spec.end_rules scope.now.program.now function end.now) }
{
    match end {
        End::Ret(Some(arg)) => {
            let least = operand_bound(scope, function, &arg.value)?;
            rules.add(Variable::Result(function), least)
        }
        _ => Ok(()),
    }
}

fn add_phis<'p>(
    scope: &RuleScope<'p>,
    rules: &mut RuleTable<'p>,
    function: usize,
    phis: &'p [Phi],
) -> Result<(), NoMemory>
    requires scope { DescribesRuleScope scope.now }
    requires fits { All PhiFits phis.now }
    ensures { OnOk result (rules.new
        ≡ rules.old ++ flat_map (spec.phi_rules scope.now.program.now function) phis.now) }
{
    'each: for phi in phis {
        add_phi(scope, rules, function, phi)?;
    }
    Ok(())
}

fn add_body<'p>(
    scope: &RuleScope<'p>,
    rules: &mut RuleTable<'p>,
    function: usize,
    body: &'p [Instr],
) -> Result<(), NoMemory>
    requires scope { DescribesRuleScope scope.now }
    requires fits { All InstrFits body.now }
    ensures { OnOk result (rules.new
        ≡ rules.old ++ flat_map (spec.instr_rules scope.now.program.now function) body.now) }
{
    'each: for instr in body {
        add_instr(scope, rules, function, instr)?;
    }
    Ok(())
}

/// Adds the rules of a block.
fn add_block<'p>(
    scope: &RuleScope<'p>,
    rules: &mut RuleTable<'p>,
    function: usize,
    block: &'p Block,
) -> Result<(), NoMemory>
    requires scope { DescribesRuleScope scope.now }
    requires fits { BlockFits block.now }
    ensures { OnOk result (rules.new
        ≡ rules.old ++ spec.block_rules scope.now.program.now function block.now) }
{
    add_phis(scope, rules, function, block.phis.as_slice())?;
    add_body(scope, rules, function, block.body.as_slice())?;
    add_end(scope, rules, function, &block.end)
}

/// Adds the rules of a function.
fn add_function<'p>(
    scope: &RuleScope<'p>,
    rules: &mut RuleTable<'p>,
    number: usize,
    function: &'p Function,
) -> Result<(), NoMemory>
    requires scope { DescribesRuleScope scope.now }
    requires fits { FunctionFits function.now }
    ensures { OnOk result (rules.new
        ≡ rules.old ++ spec.function_rules scope.now.program.now number function.now) }
{
    let blocks = function.blocks.as_slice();
    'each: for block in blocks {
        add_block(scope, rules, number, block)?;
    }
    Ok(())
}

/// Adds the rules of all functions.
fn add_functions<'p>(
    scope: &RuleScope<'p>,
    rules: &mut RuleTable<'p>,
    functions: &'p [Function],
) -> Result<(), NoMemory>
    requires scope { DescribesRuleScope scope.now }
    requires fits { All FunctionFits functions.now }
    ensures { OnOk result (rules.new
        ≡ rules.old ++ spec.rules_from scope.now.program.now 0 functions.now) }
{
    'each: for number in 0..functions.len() {
        add_function(scope, rules, number, &functions[number])?;
    }
    Ok(())
}

/// The rules of a program.
pub fn rules_of<'p>(scope: &RuleScope<'p>, program: &'p Program) -> Result<RuleTable<'p>, NoMemory>
    requires scope { DescribesRuleScope scope.now }
    requires program { scope.now.program.now ≡ program.now }
    requires fits { All FunctionFits program.now.functions }
    ensures { IfOk result (λ rules. rules ≡ spec.level_rules program.now) }
{
    let mut rules = RuleTable::new(scope.alloc);
    add_functions(scope, &mut rules, program.functions.as_slice())?;
    Ok(rules)
}
