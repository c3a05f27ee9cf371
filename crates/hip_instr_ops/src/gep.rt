ghost use Rattle.std.specs.Prelude.{◌≡◌, ◌<◌, ◌^◌, Bool, true, IfOk};
ghost use Rattle.std.specs.List.{list_all};
ghost use Rattle.hip_types.specs.Layout.{Fits};
ghost use Rattle.hip_grammar.specs.Spelling.{spelled_index};
ghost use Rattle.hip_tree.specs.declared.instr.Instr.TheVariants as instrs;
ghost use Rattle.hip_names.specs.Names.{IsAmong};
ghost use Rattle.hip_sound.specs.Places.{gep_agrees};
ghost use Rattle.hip_instr_ops.specs.Far.{IsAddress};
ghost use Rattle.hip_scope.specs.Grown.{grown};
ghost use Rattle.hip_scope.specs.Growth.{Makes};
ghost use Rattle.hip_scope.specs.Known.{ArgsKnown, OperandKnown};
ghost use Rattle.hip_scope.specs.Scopes.{DescribesScope, DoesHere, names_of};

use crate::path::path_of;
use hip_code::{Gep, Op, OpOperand, Span, Term, Value};
use hip_scope::{Growing, Scope, operand, place, slot};
use hip_tree::Arg;
use hip_types::{Name, NoMemory, Ty};

/// An address with terms, which are put into the table.
fn with_terms(
    tables: &mut Growing,
    base: OpOperand,
    offset: u64,
    terms: &[Term],
) -> Result<Gep, NoMemory>
    ensures { IfOk result (λ gep. Makes (grown tables.old) (grown tables.new)
        (λ t. IsAddress t base offset terms.now gep)) }
{
    let from = place(tables.terms.len())?;
    let count = place(terms.len())?;
    tables.terms.extend_from_slice(terms)?;
    Ok(Gep::Terms {
        base,
        offset,
        terms: Span { from, count },
    })
}

/// An address: a base, and how far indices lead from it.
fn address(
    tables: &mut Growing,
    base: OpOperand,
    offset: u64,
    terms: &[Term],
) -> Result<Gep, NoMemory>
    ensures address { IfOk result (λ gep. Makes (grown tables.old) (grown tables.new)
        (λ t. IsAddress t base offset terms.now gep)) }
    ensures small { offset < 2 ^ 64 }
{
    if terms.is_empty() {
        return Ok(Gep::Fixed { base, offset });
    }
    if terms.len() == 1 && offset <= u64::from(u32::MAX) {
        let term = terms[0];
        return Ok(Gep::Scaled {
            base,
            index: term.index,
            width: term.width,
            scale: term.scale,
            offset: offset as u32,
        });
    }
    let gep = with_terms(tables, base, offset, terms)?;
    Ok(gep)
}

pub fn gep(
    scope: &Scope<'_, '_>,
    tables: &mut Growing,
    dest: &Name,
    ty: &Ty,
    base: &hip_tree::Operand,
    indices: &[Arg],
) -> Result<Op, NoMemory>
    requires scope { DescribesScope scope.now }
    requires dest { IsAmong (names_of scope.now) dest.now }
    requires base { OperandKnown (names_of scope.now) base.now }
    requires known { ArgsKnown (names_of scope.now) indices.now }
    requires spelled { list_all spelled_index indices.now ≡ true }
    requires fits { Fits ty.now }
    requires agrees { gep_agrees indices.now ty.now ≡ true }
    ensures { IfOk result (λ o. Makes (grown tables.old) (grown tables.new)
        (λ t. (inbounds : Bool) → DoesHere scope.now t o
        (instrs.Gep dest.now inbounds ty.now base.now indices.now))) }
{
    let dest = slot(scope, dest)?;
    let base = operand(scope, tables, base)?;
    let path = path_of(scope, ty, indices)?;
    let gep = address(tables, base, path.offset, path.terms.as_slice())?;
    Ok(Op::Value {
        dest,
        value: Value::Gep(gep),
    })
}
