ghost use Rattle.std.specs.Prelude.{◌≡◌, ◌<◌, ◌^◌, All, IfOk, true, false};
ghost use Rattle.hip_types.specs.Layout.{Fits};
ghost use Rattle.hip_types.specs.Areas.{volatile_start};
ghost use Rattle.hip_globals.specs.Addresses.{OwnTypesFit, end_of};
ghost use Rattle.hip_globals.specs.AddressesSeen.{address_beside};
ghost use Rattle.hip_globals.specs.Constants.{types_in};
ghost use Rattle.hip_globals.specs.Values.{global_address, written};

use crate::initial::value_of;
use crate::table::{AddressTable, address_of, address_table};
use hip_tree::{Const, GlobalVar};
use hip_types::{Name, NoMemory};
use std::alloc::Global;
use std::marker::Model;

/// The addresses of a program's globals by their names, if its region begins at a base. They are computed once; a later
/// look-up does not search a list of globals.
#[derive(Drop)]
pub struct GlobalAddresses<'a> {
    table: AddressTable<'a>,
}

impl<'a> Model for GlobalAddresses<'a> {
    ghost use Rattle.std.specs.Prelude.{ℕ};
    ghost use Rattle.hip_names.specs.declared.table.NameTable.{NameTable};

    ghost Value = { NameTable ℕ };

    ghost view = { λ a. a.table };
}

impl<'a> GlobalAddresses<'a> {
    /// The addresses from a base on. The time is linear in the globals and their names.
    pub fn new(
        alloc: Global,
        globals: &'a [GlobalVar],
        base: u64,
    ) -> Result<GlobalAddresses<'a>, NoMemory>
        requires fit { OwnTypesFit globals.now }
        requires persistent { end_of true base globals.now < 2 ^ 64 }
        requires volatile { end_of false volatile_start globals.now < 2 ^ 64 }
        ensures { IfOk result (λ addresses. address_beside addresses ≡ global_address globals.now base) }
    {
        let table = address_table(alloc, globals, base)?;
        Ok(GlobalAddresses { table })
    }

    /// The address of the first global of that name, 0 if no global has it.
    pub fn address(&self, name: &Name) -> u64
        ensures { result ≡ address_beside self.now name.now }
    {
        address_of(&self.table, name)
    }

    /// The value of a constant under an integer type or `ptr`: an integer's number, a pointer's address, 0 for any
    /// other. The memory is for the indices of a `getelementptr`.
    pub fn value(&self, alloc: Global, constant: &Const) -> Result<u64, NoMemory>
        requires { All Fits (types_in constant.now) }
        ensures { IfOk result (λ number. number ≡ (written (address_beside self.now) constant.now).value) }
    {
        value_of(alloc, &self.table, constant)
    }
}
