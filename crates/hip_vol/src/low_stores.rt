ghost use Rattle.std.specs.Prelude.{◌≡◌, ◌++◌, All, is_some, IfOk, OnOk, Some};
ghost use Rattle.std.specs.List.{filter};
ghost use Rattle.hip_tree.specs.Sites.{has_site, sites_of};
ghost use Rattle.hip_repairs.specs.StayOutside.{StayOutside};
ghost use Rattle.hip_sites.specs.SiteWalk.{passing_in_functions};
ghost use Rattle.hip_vol.specs.Bounds.{bound_in};
ghost use Rattle.hip_vol.specs.Closed.{IsLeast};
ghost use Rattle.hip_vol.specs.ScopeTables.{DescribesRuleScope};
ghost use Rattle.hip_vol.specs.Gathered.{FunctionFits, InstrFits, OperandFits};
ghost use Rattle.hip_vol.specs.LowStores.{low_stores, stores_low};
ghost use Rattle.hip_vol.specs.Rules as spec;
ghost use Rattle.hip_vol.specs.Tables.{level_among};

use crate::constants::constant_level;
use crate::numbered::FREE;
use crate::rule_walk::{RuleScope, rules_of};
use crate::table::LevelTable;
use crate::variables::Variable;
use hip_sites::{InstrTest, add_passing};
use hip_sound::Checked;
use hip_tree::{Function, Instr, Operand, Program, Site};
use hip_types::{NoMemory, Row};
use std::alloc::Global;

/// Whether the level of an operand is not Free.
fn is_low(
    scope: &RuleScope<'_>,
    levels: &LevelTable<'_>,
    function: usize,
    operand: &Operand,
) -> Result<bool, NoMemory>
    requires scope { DescribesRuleScope scope.now }
    requires fits { OperandFits operand.now }
    ensures { IfOk result (λ low. low ≡ is_some (bound_in (level_among levels.now)
        (spec.operand_bound scope.now.program.now function operand.now))) }
{
    match operand {
        Operand::Reg(name) => Ok(levels.is_low(Variable::Register(function, name.as_slice()))),
        Operand::Fixed(value) => {
            let level = constant_level(scope.alloc, &scope.persistence, value)?;
            Ok(level < FREE)
        }
    }
}

/// Whether an instruction is a store whose address has another level than Free.
fn stores_low(
    scope: &RuleScope<'_>,
    levels: &LevelTable<'_>,
    function: usize,
    instr: &Instr,
) -> Result<bool, NoMemory>
    requires scope { DescribesRuleScope scope.now }
    requires fits { InstrFits instr.now }
    ensures { IfOk result (λ low. low
        ≡ stores_low scope.now.program.now (level_among levels.now) function (Some instr.now)) }
{
    match instr {
        Instr::Store { addr, .. } => is_low(scope, levels, function, addr),
        _ => Ok(false),
    }
}

/// The test for low stores of a function.
#[derive(Clone, Copy)]
struct LowTest<'a, 'b, 'p, 'q> {
    scope: &'a RuleScope<'p>,
    levels: &'b LevelTable<'q>,
    function: usize,
}

impl InstrTest for LowTest<'_, '_, '_, '_> {
    ghost test = { λ t i. stores_low t.scope.now.program.now (level_among t.levels.now) t.function (Some i) };

    ghost takes = { λ t i. DescribesRuleScope t.scope.now × InstrFits i };

    fn passes(&self, instr: &Instr) -> Result<bool, NoMemory> {
        stores_low(self.scope, self.levels, self.function, instr)
    }
}

/// Adds the sites of the low stores of functions.
fn add_functions(
    scope: &RuleScope<'_>,
    levels: &LevelTable<'_>,
    sites: &mut Row<Site>,
    functions: &[Function],
) -> Result<(), NoMemory>
    requires scope { DescribesRuleScope scope.now }
    requires fits { All FunctionFits functions.now }
    ensures { OnOk result (sites.new ≡ sites.old ++ passing_in_functions
        (λ f i. stores_low scope.now.program.now (level_among levels.now) f (Some i)) 0 functions.now) }
{
    'each: for function in 0..functions.len() {
        let test = LowTest {
            scope,
            levels,
            function,
        };
        add_passing(
            sites,
            &test,
            function,
            functions[function].blocks.as_slice(),
        )?;
    }
    Ok(())
}

/// The sites of the stores whose address has another level than Free, in the program's order.
fn low_sites(
    scope: &RuleScope<'_>,
    levels: &LevelTable<'_>,
    program: &Program,
) -> Result<Row<Site>, NoMemory>
    requires scope { DescribesRuleScope scope.now }
    requires program { scope.now.program.now ≡ program.now }
    requires fits { All FunctionFits program.now.functions }
    requires least { IsLeast (spec.level_rules program.now) (level_among levels.now) }
    ensures { IfOk result (λ sites. sites ≡ filter (low_stores program.now) (sites_of program.now)) }
{
    let mut sites = Row::new(scope.alloc);
    add_functions(scope, levels, &mut sites, program.functions.as_slice())?;
    Ok(sites)
}

/// The least levels of a program.
fn levels_of<'p>(scope: &RuleScope<'p>, program: &'p Program) -> Result<LevelTable<'p>, NoMemory>
    requires scope { DescribesRuleScope scope.now }
    requires program { scope.now.program.now ≡ program.now }
    requires fits { All FunctionFits program.now.functions }
    ensures { IfOk result (λ levels. IsLeast (spec.level_rules program.now) (level_among levels)) }
{
    let rules = rules_of(scope, program)?;
    rules.solve(scope.alloc)
}

/// The sites of the low stores of a program, by its least levels.
fn sites_in<'p>(scope: &RuleScope<'p>, program: &'p Program) -> Result<Row<Site>, NoMemory>
    requires scope { DescribesRuleScope scope.now }
    requires program { scope.now.program.now ≡ program.now }
    requires fits { All FunctionFits program.now.functions }
    ensures { IfOk result (λ sites. sites ≡ filter (low_stores program.now) (sites_of program.now)) }
{
    let levels = levels_of(scope, program)?;
    low_sites(scope, &levels, program)
}

/// The sites of the stores whose address has another level than Free in the least assignment of levels, in the
/// program's order. They never lie in the region, in any run.
///
/// The time is linear in operands and calls, times the 33 levels at most; the memory is linear in them.
pub fn quiet_stores(alloc: Global, checked: &Checked) -> Result<Row<Site>, NoMemory>
    ensures sites { IfOk result (λ sites. sites ≡ filter (low_stores checked.now) (sites_of checked.now)) }
    ensures quiet { IfOk result (λ sites. StayOutside checked.now (has_site sites)) }
{
    let program = checked.program();
    let scope = RuleScope::new(alloc, program)?;
    sites_in(&scope, program)
}
