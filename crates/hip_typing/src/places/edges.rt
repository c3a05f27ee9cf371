ghost use Rattle.std.specs.Prelude.{◌≡◌, IfOk};
ghost use Rattle.hip_typing.specs.Seen.Carried.{CarriesWhere, carries_again};
ghost use Rattle.hip_sound.specs.Equal as equal;
ghost use Rattle.hip_sound.specs.Places as places;
ghost use Rattle.hip_sound.specs.Places.{are_among, edge_labels};

use hip_ir::Structural;
use hip_names::{NameSet, NameTable};
use hip_tree::{Edge, Operand};
use hip_types::NoMemory;
use std::alloc::Global;

/// The operands that a phi has for the labels of its edges.
pub type OperandTable<'a> = NameTable<'a, &'a Operand>;

fn is_same_operand(a: &Operand, b: &Operand) -> bool
    ensures { result ≡ equal.same_operand a.now b.now }
{
    a.same(b)
}

/// Whether the operand is the one that the table has, or the table has none.
fn carries(first: Option<&Operand>, operand: &Operand) -> bool
    ensures { result ≡ carries_again first.entry operand.now }
{
    match first {
        Some(first) => is_same_operand(first, operand),
        None => true,
    }
}

/// The operand of each label; none if two edges with the same label carry different ones.
fn operands_by_label(alloc: Global, edges: &[Edge]) -> Result<Option<OperandTable<'_>>, NoMemory>
    ensures { IfOk result (λ found. CarriesWhere edges.now found) }
{
    let mut table = NameTable::new(alloc);
    'each: for edge in edges {
        if !carries(table.get(edge.label.as_slice()), &edge.value) {
            return Ok(None);
        }
        table.add(edge.label.as_slice(), &edge.value)?;
    }
    Ok(Some(table))
}

/// Whether the labels of edges are among these.
pub fn edge_labels_known(known: &NameSet<'_>, edges: &[Edge]) -> bool
    ensures { result ≡ are_among known.now (edge_labels edges.now) }
{
    'each: for edge in edges {
        if !known.contains(edge.label.as_slice()) {
            return false;
        }
    }
    true
}

/// Whether the edges name exactly the predecessors, and edges with the same label carry the same operand.
pub fn edges_agree(alloc: Global, before: &NameSet<'_>, edges: &[Edge]) -> Result<bool, NoMemory>
    ensures { IfOk result (λ agree. agree ≡ places.edges_agree before.now edges.now) }
{
    if !edge_labels_known(before, edges) {
        return Ok(false);
    }
    match operands_by_label(alloc, edges)? {
        Some(table) => Ok(before.is_within(&table.names)),
        None => Ok(false),
    }
}
