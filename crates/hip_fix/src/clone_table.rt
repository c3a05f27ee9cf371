ghost use Rattle.std.specs.Prelude.{◌≡◌, IfOk, map, unwrap_or, slice_get};
ghost use Rattle.hip_calls.specs.Fresh.{name_of};
ghost use Rattle.hip_names.specs.Numbered.{NumbersNames};
ghost use Rattle.hip_repairs.specs.Repaired.{clone_name, clones_from};

use hip_calls::name_of;
use hip_names::NameTable;
use hip_tree::Program;
use hip_types::{Name, NoMemory};
use std::alloc::Global;
use std::marker::Model;

/// The functions that have clones, found by their names. Contracts see a list with both names of each.
#[derive(Drop)]
pub struct CloneTable<'a> {
    program: &'a Program,
    originals: &'a [usize],
    names: &'a [Name],
    places: NameTable<'a, usize>,
}

impl<'a> Model for CloneTable<'a> {
    ghost use Rattle.std.specs.Prelude.{List, map};
    ghost use Rattle.hip_calls.specs.Fresh.{name_of};
    ghost use Rattle.hip_names.specs.Numbered.{NumbersNames};
    ghost use Rattle.hip_repairs.specs.Repaired.{Clone, clones_from};

    ghost Value = { List Clone };

    ghost view = { λ t. clones_from t.program.now t.originals.now t.names.now };

    ghost invariant = { λ t. NumbersNames t.places.names t.places.values (map (name_of t.program.now) t.originals.now) };
}

/// The places of the originals by their names.
fn places_of<'a>(
    alloc: Global,
    program: &'a Program,
    originals: &[usize],
) -> Result<NameTable<'a, usize>, NoMemory>
    ensures { IfOk result (λ table. NumbersNames table.names table.values (map (name_of program.now) originals.now)) }
{
    let mut places = NameTable::new(alloc);
    'each: for place in 0..originals.len() {
        places.add(name_of(program, originals[place]), place)?;
    }
    Ok(places)
}

impl<'a> CloneTable<'a> {
    /// A table by which the functions of these numbers have clones of these names.
    pub fn new(
        alloc: Global,
        program: &'a Program,
        originals: &'a [usize],
        names: &'a [Name],
    ) -> Result<CloneTable<'a>, NoMemory>
        ensures { IfOk result (λ table. table ≡ clones_from program.now originals.now names.now) }
    {
        let places = places_of(alloc, program, originals)?;
        Ok(CloneTable {
            program,
            originals,
            names,
            places,
        })
    }

    /// The name of a function's clone, or the function's own name if it has no clone.
    pub fn clone_name<'b>(&'b self, name: &'b [u8]) -> &'b [u8]
        ensures { result.now ≡ clone_name self.now name.now }
    {
        match self.places.get(name) {
            Some(place) => name_at(self.names, place, name),
            None => name,
        }
    }
}

/// The name at a place, or another one if there is none.
fn name_at<'b>(names: &'b [Name], place: usize, other: &'b [u8]) -> &'b [u8]
    ensures { result.now ≡ unwrap_or (slice_get names.now place) other.now }
{
    match names.get(place) {
        Some(name) => name.as_slice(),
        None => other,
    }
}
