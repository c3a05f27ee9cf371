ghost use Rattle.std.specs.Prelude.{◌≡◌, [], ◌++◌, IfOk, OnOk};
ghost use Rattle.std.specs.List.{filter};
ghost use Rattle.std.specs.Str.{bytes_eq};
ghost use Rattle.hip_types.specs.Distinct.{met};
ghost use Rattle.hip_tree.specs.Sites.{sites_of};
ghost use Rattle.hip_repairs.specs.Direct.{direct};
ghost use Rattle.hip_fix.specs.DirectWalk as spec;
ghost use Rattle.hip_fix.specs.DirectWalk.{alloca_names, body_allocas, direct_in_function, direct_in_functions, stores_by, volatile_names};

use hip_names::NameSet;
use hip_sites::{InstrTest, add_passing};
use hip_tree::{Block, Const, Function, GlobalVar, Instr, Operand, Program, Site};
use hip_types::{NoMemory, Row};
use std::alloc::Global;

/// The names of the volatile globals.
fn volatile_names(alloc: Global, globals: &[GlobalVar]) -> Result<NameSet<'_>, NoMemory>
    ensures { IfOk result (λ names. names ≡ met bytes_eq [] (volatile_names globals.now)) }
{
    let mut names = NameSet::new(alloc);
    'each: for global in globals {
        if !global.persistent {
            let _is_new = names.insert(global.name.as_slice())?;
        }
    }
    Ok(names)
}

/// Adds the register that an `alloca` assigns.
fn add_alloca<'a>(names: &mut NameSet<'a>, instr: &'a Instr) -> Result<(), NoMemory>
    ensures { OnOk result (names.new ≡ met bytes_eq names.old (spec.allocated instr.now)) }
{
    if let Instr::Alloca { dest, .. } = instr {
        let _is_new = names.insert(dest.as_slice())?;
    }
    Ok(())
}

/// Adds the registers that the `alloca` instructions of a body assign.
fn add_body_allocas<'a>(names: &mut NameSet<'a>, body: &'a [Instr]) -> Result<(), NoMemory>
    ensures { OnOk result (names.new ≡ met bytes_eq names.old (body_allocas body.now)) }
{
    'each: for instr in body {
        add_alloca(names, instr)?;
    }
    Ok(())
}

/// The registers that the `alloca` instructions of blocks assign.
fn alloca_names(alloc: Global, blocks: &[Block]) -> Result<NameSet<'_>, NoMemory>
    ensures { IfOk result (λ names. names ≡ met bytes_eq [] (alloca_names blocks.now)) }
{
    let mut names = NameSet::new(alloc);
    'each: for block in blocks {
        add_body_allocas(&mut names, block.body.as_slice())?;
    }
    Ok(names)
}

/// Whether an instruction is a store whose address is one of these registers, or the name of one of these globals.
fn stores_by(volatile: &NameSet<'_>, allocated: &NameSet<'_>, instr: &Instr) -> bool
    ensures { result ≡ stores_by volatile.now allocated.now instr.now }
{
    match instr {
        Instr::Store { addr, .. } => match addr {
            Operand::Reg(name) => allocated.contains(name.as_slice()),
            Operand::Fixed(Const::Address(name)) => volatile.contains(name.as_slice()),
            Operand::Fixed(_) => false,
        },
        _ => false,
    }
}

/// The test for direct stores: the volatile globals, and the registers that the `alloca` instructions of one function
/// assign.
#[derive(Clone, Copy)]
struct DirectTest<'a, 'g, 'r> {
    volatile: &'a NameSet<'g>,
    allocated: &'a NameSet<'r>,
}

impl InstrTest for DirectTest<'_, '_, '_> {
    ghost test = { λ t i. stores_by t.volatile.now t.allocated.now i };

    ghost takes = { λ t i. Unit {0} };

    fn passes(&self, instr: &Instr) -> Result<bool, NoMemory> {
        Ok(stores_by(self.volatile, self.allocated, instr))
    }
}

/// Adds the sites of the stores of a function whose address is a register that an `alloca` assigns, or the name of one
/// of these globals.
fn add_function(
    alloc: Global,
    sites: &mut Row<Site>,
    volatile: &NameSet<'_>,
    number: usize,
    function: &Function,
) -> Result<(), NoMemory>
    ensures { OnOk result (sites.new ≡ sites.old ++ direct_in_function volatile.now number function.now) }
{
    let blocks = function.blocks.as_slice();
    let allocated = alloca_names(alloc, blocks)?;
    let test = DirectTest {
        volatile,
        allocated: &allocated,
    };
    add_passing(sites, &test, number, blocks)
}

/// The same for all functions.
fn add_functions(
    alloc: Global,
    sites: &mut Row<Site>,
    volatile: &NameSet<'_>,
    functions: &[Function],
) -> Result<(), NoMemory>
    ensures { OnOk result (sites.new ≡ sites.old ++ direct_in_functions volatile.now 0 functions.now) }
{
    'each: for number in 0..functions.len() {
        add_function(alloc, sites, volatile, number, &functions[number])?;
    }
    Ok(())
}

/// The sites of the stores whose address is a register that an `alloca` assigns, or the name of a volatile global, in
/// the program's order.
pub fn direct_stores(alloc: Global, program: &Program) -> Result<Row<Site>, NoMemory>
    ensures { IfOk result (λ sites. sites ≡ filter (direct program.now) (sites_of program.now)) }
{
    let volatile = volatile_names(alloc, program.globals.as_slice())?;
    let mut sites = Row::new(alloc);
    add_functions(alloc, &mut sites, &volatile, program.functions.as_slice())?;
    Ok(sites)
}
