ghost use Rattle.std.specs.Prelude.{◌≡◌, map};
ghost use Rattle.std.specs.List.{list_all};
ghost use Rattle.hip_globals.specs.Constants.{joined, types_in, gep_types, item_types};
ghost use Rattle.hip_sound.specs.Constants.{names_in, item_names};
ghost use Rattle.hip_names.specs.Names.{is_among};
ghost use Rattle.hip_sound.specs.Places.{fits_test};

pub mod shape;

use hip_names::NameSet;
use hip_tree::{Const, ConstGep, TypedConst};
use hip_types::{Ty, fits};

pub fn type_fits(ty: &Ty) -> bool
    ensures { result ≡ fits_test ty.now }
{
    fits(ty)
}

/// Whether every type that is written in the constant fits.
#[cycle(fit)]
pub fn types_fit(value: &Const) -> bool
    ensures { result ≡ list_all fits_test (types_in value.now) }
{
    match value {
        Const::Int(_) | Const::Null | Const::Zero | Const::Address(_) => true,
        Const::Gep(gep) => gep_types_fit(gep.get()),
        Const::Array(items) => item_types_fit(items.as_slice()),
        Const::Struct(items) => item_types_fit(items.as_slice()),
    }
}

#[cycle(fit)]
fn gep_types_fit(gep: &ConstGep) -> bool
    ensures { result ≡ list_all fits_test (gep_types gep.now) }
{
    type_fits(&gep.ty) && types_fit(&gep.base)
}

#[cycle(fit)]
fn one_item_fits(item: &TypedConst) -> bool
    ensures { result ≡ list_all fits_test (item_types item.now) }
{
    type_fits(&item.ty) && types_fit(&item.value)
}

#[cycle(fit)]
fn item_types_fit(items: &[TypedConst]) -> bool
    ensures { result ≡ list_all fits_test (joined (map item_types items.now)) }
{
    'items: for item in items {
        if !one_item_fits(item) {
            return false;
        }
    }
    true
}

/// Whether every global that is named in the constant is known.
#[cycle(known)]
pub fn names_known(value: &Const, known: &NameSet<'_>) -> bool
    ensures { result ≡ list_all (is_among known.now) (names_in value.now) }
{
    match value {
        Const::Int(_) | Const::Null | Const::Zero => true,
        Const::Address(name) => known.contains(name.as_slice()),
        Const::Gep(gep) => names_known(&gep.get().base, known),
        Const::Array(items) => item_names_known(items.as_slice(), known),
        Const::Struct(items) => item_names_known(items.as_slice(), known),
    }
}

#[cycle(known)]
fn item_names_known(items: &[TypedConst], known: &NameSet<'_>) -> bool
    ensures { result ≡ list_all (is_among known.now) (joined (map item_names items.now)) }
{
    'items: for item in items {
        if !names_known(&item.value, known) {
            return false;
        }
    }
    true
}
