ghost use Rattle.std.specs.Prelude.{[], ◌∷◌, ◌≡◌, ◌<◌, ◌+◌, ◌^◌, true, false, IfOk, OnOk};
ghost use Rattle.hip_types.specs.Layout.{Fits, size_of};
ghost use Rattle.hip_globals.specs.Addresses as spec;
ghost use Rattle.hip_types.specs.Areas.{volatile_start};
ghost use Rattle.hip_globals.specs.Addresses.{OwnTypesFit, global_start};
ghost use Rattle.hip_globals.specs.AddressesSeen.{address_entry, address_beside, laid_entries};
ghost use Rattle.hip_names.specs.Tables.{Gains};
ghost use Rattle.hip_names.specs.Tables.{TableStandsFor};

use crate::addresses::alignment;
use hip_names::NameTable;
use hip_tree::GlobalVar;
use hip_types::{Name, NoMemory, VOLATILE_START, size};
use std::alloc::Global;

/// The addresses of globals by their names.
pub type AddressTable<'a> = NameTable<'a, u64>;

/// The address of the first global of that name, 0 if no global has it.
pub fn address_of(table: &AddressTable<'_>, name: &Name) -> u64
    ensures { result ≡ address_beside table.now name.now }
{
    match table.get(name.as_slice()) {
        Some(address) => address,
        None => 0,
    }
}

/// Lays a global from a place on, and answers where it ends.
fn lay<'a>(table: &mut AddressTable<'a>, at: u64, global: &'a GlobalVar) -> Result<u64, NoMemory>
    requires fits { Fits global.now.ty }
    requires end { global_start at global.now + size_of global.now.ty < 2 ^ 64 }
    ensures end { IfOk result (λ end. end ≡ global_start at global.now + size_of global.now.ty) }
    ensures table { OnOk result
        (Gains table.old.names table.old.values table.new.names table.new.values
        (address_entry global.now.name (global_start at global.now) ∷ [])) }
{
    let start = match at.checked_next_multiple_of(alignment(global)) {
        Some(start) => start,
        None => unreachable!(),
    };
    table.add(global.name.as_slice(), start)?;
    Ok(start + size(&global.ty))
}

/// The addresses of globals, where the region begins at a base.
pub fn address_table(
    alloc: Global,
    globals: &[GlobalVar],
    base: u64,
) -> Result<AddressTable<'_>, NoMemory>
    requires fit { OwnTypesFit globals.now }
    requires persistent { spec.end_of true base globals.now < 2 ^ 64 }
    requires volatile { spec.end_of false volatile_start globals.now < 2 ^ 64 }
    ensures { IfOk result (λ table. TableStandsFor table.names table.values
        (laid_entries base volatile_start globals.now)) }
{
    let mut table = NameTable::new(alloc);
    let mut persistent = base;
    let mut volatile = VOLATILE_START;
    'globals: for index in 0..globals.len() {
        let global = &globals[index];
        if global.persistent {
            persistent = lay(&mut table, persistent, global)?;
        } else {
            volatile = lay(&mut table, volatile, global)?;
        }
    }
    Ok(table)
}
