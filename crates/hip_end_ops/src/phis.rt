ghost use Rattle.std.specs.Prelude.{map, IfOk, OnOk};
ghost use Rattle.hip_names.specs.Numbered.{NumbersNames};
ghost use Rattle.hip_code.specs.Edges.{IsMove};
ghost use Rattle.hip_end_ops.specs.Edged.{PutsMoves};
ghost use Rattle.hip_scope.specs.Known.{PhiKnown, PhisKnown};
ghost use Rattle.hip_scope.specs.PhiNumbers.{NumbersPhis};
ghost use Rattle.hip_scope.specs.Grown.{grown};
ghost use Rattle.hip_scope.specs.Growth.{Makes, OnlyConstants};
ghost use Rattle.hip_scope.specs.Scopes.{DescribesScope, names_of};

use hip_code::Move;
use hip_scope::{EdgeNumbers, Growing, Scope, operand, slot};
use hip_tree::Phi;
use hip_types::{Name, NoMemory, Row};

/// What a phi moves if control comes from the block with a label.
fn phi_move(
    scope: &Scope<'_, '_>,
    tables: &mut Growing,
    from: &Name,
    phi: &Phi,
    numbers: &EdgeNumbers<'_>,
) -> Result<Move, NoMemory>
    requires scope { DescribesScope scope.now }
    requires known { PhiKnown (names_of scope.now) from.now phi.now }
    requires numbers { NumbersNames numbers.now.names numbers.now.values (map (λ e. e.label) phi.now.edges) }
    ensures moves { IfOk result (λ m. Makes (grown tables.old) (grown tables.new)
        (λ t. IsMove scope.now.program.now.globals scope.now.base
        (names_of scope.now) t.constants from.now m phi.now)) }
    ensures others { OnOk result (OnlyConstants (grown tables.old) (grown tables.new)) }
{
    let number = match numbers.get(from.as_slice()) {
        Some(number) => number as usize,
        None => unreachable!(),
    };
    let dest = slot(scope, &phi.dest)?;
    match phi.edges.get(number) {
        Some(edge) => {
            let value = operand(scope, tables, &edge.value)?;
            Ok(Move { dest, value })
        }
        None => unreachable!(),
    }
}

/// What the phis of a block move if control comes from the block with a label.
pub fn phi_moves(
    scope: &Scope<'_, '_>,
    tables: &mut Growing,
    from: &Name,
    phis: &[Phi],
    numbers: &Row<EdgeNumbers<'_>>,
) -> Result<(), NoMemory>
    requires scope { DescribesScope scope.now }
    requires known { PhisKnown (names_of scope.now) from.now phis.now }
    requires numbers { NumbersPhis numbers.now phis.now }
    ensures { IfOk result (λ _. PutsMoves scope.now (grown tables.old) (grown tables.new) from.now phis.now) }
{
    'moving: for index in 0..phis.len() {
        let phi = &phis[index];
        match numbers.get(index) {
            Some(numbers) => {
                let moved = phi_move(scope, tables, from, phi, numbers)?;
                tables.moves.push(moved)?;
            }
            None => unreachable!(),
        }
    }
    Ok(())
}
