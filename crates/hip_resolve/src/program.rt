ghost use Rattle.std.specs.Prelude.{◌≡◌, ◌+◌, Some, length, suc, IfOk};
ghost use Rattle.hip_code.specs.Entries.{entry};
ghost use Rattle.hip_runs.specs.Places.{block_at};
ghost use Rattle.hip_scope.specs.Grown.{grown};
ghost use Rattle.hip_resolve.specs.Extents.{with_frame};
ghost use Rattle.hip_resolve.specs.Made.{IsFront};
ghost use Rattle.hip_scope.specs.Scopes.{DescribesScope};

use hip_code::{Call, Control, Op};
use hip_end_ops::{EdgeSource, end_op};
use hip_instr_ops::instr_op;
use hip_scope::{Growing, Scope, number_at};
use hip_tree::Block;
use hip_types::{NoMemory, Row};

/// The op with that number of slots that a call keeps of its caller. An op of another kind stays as it is.
fn keeping(op: Op, frame: u32) -> Op
    ensures { result ≡ with_frame frame op }
{
    match op {
        Op::Control(Control::Call(call)) => Op::Control(Control::Call(Call { frame, ..call })),
        _ => op,
    }
}

/// Puts the ops of a block's instructions after the others.
fn body_ops(
    scope: &Scope<'_, '_>,
    tables: &mut Growing,
    ops: &mut Row<Op>,
    number: usize,
    block: &Block,
) -> Result<(), NoMemory>
    requires scope { DescribesScope scope.now }
    requires block { block_at scope.now.program.now scope.now.number number ≡ Some block.now }
    requires front { IsFront scope.now.program.now scope.now.base ops.old (grown tables.old) }
    requires place { length ops.old ≡ entry scope.now.program.now scope.now.number number }
    ensures front { IfOk result (λ _. IsFront scope.now.program.now scope.now.base ops.new (grown tables.new)) }
    ensures place { IfOk result (λ _.
        length ops.new ≡ entry scope.now.program.now scope.now.number number + length block.now.body) }
{
    let body = block.body.as_slice();
    let extent = number_at(scope.extents.as_slice(), number);
    'translating: for index in 0..body.len() {
        let instr = &body[index];
        let op = instr_op(scope, tables, instr)?;
        ops.push(keeping(op, extent))?;
    }
    Ok(())
}

/// Puts the ops of a block after the others.
fn block_ops(
    scope: &Scope<'_, '_>,
    tables: &mut Growing,
    ops: &mut Row<Op>,
    made: &mut Row<u32>,
    number: usize,
    block: &Block,
) -> Result<(), NoMemory>
    requires scope { DescribesScope scope.now }
    requires block { block_at scope.now.program.now scope.now.number number ≡ Some block.now }
    requires front { IsFront scope.now.program.now scope.now.base ops.old (grown tables.old) }
    requires place { length ops.old ≡ entry scope.now.program.now scope.now.number number }
    ensures front { IfOk result (λ _. IsFront scope.now.program.now scope.now.base ops.new (grown tables.new)) }
    ensures place { IfOk result (λ _. length ops.new ≡ entry scope.now.program.now scope.now.number (number + 1)) }
{
    body_ops(scope, tables, ops, number, block)?;
    let source = EdgeSource {
        block,
        number,
        first: tables.edges.len(),
    };
    let op = end_op(scope, tables, made, &source)?;
    ops.push(op)?;
    Ok(())
}

/// Puts the ops of a function after those of the functions before it.
pub fn resolve_function(
    scope: &Scope<'_, '_>,
    tables: &mut Growing,
    ops: &mut Row<Op>,
) -> Result<(), NoMemory>
    requires scope { DescribesScope scope.now }
    requires front { IsFront scope.now.program.now scope.now.base ops.old (grown tables.old) }
    requires place { length ops.old ≡ entry scope.now.program.now scope.now.number 0 }
    ensures front { IfOk result (λ _. IsFront scope.now.program.now scope.now.base ops.new (grown tables.new)) }
    ensures place { IfOk result (λ _. length ops.new ≡ entry scope.now.program.now (suc scope.now.number) 0) }
{
    let blocks = scope.function.blocks.as_slice();
    let mut made = Row::from_vec(vec![in scope.alloc; 0u32; blocks.len()]?);
    'resolving: for number in 0..blocks.len() {
        let block = &blocks[number];
        block_ops(scope, tables, ops, &mut made, number, block)?;
    }
    Ok(())
}
