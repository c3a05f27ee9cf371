ghost use Rattle.std.specs.Prelude.{◌≡◌, map};
ghost use Rattle.hip_types.specs.declared.ty.Ty.{out-Ty};
ghost use Rattle.hip_sound.specs.Constants.{entered, path_exists, has_shape, gep_is_sound, item_has_shape, all_have};
ghost use Rattle.hip_sound.specs.Types.{all_pass, same_type};
ghost use Rattle.std.specs.Option.{option_copied};

use hip_globals::index;
use hip_tree::{Const, ConstGep, TypedConst};
use hip_types::{Bits, Ty, Width, same_ty};

/// Whether two types are equal.
pub fn is_same_type(a: &Ty, b: &Ty) -> bool
    ensures { result ≡ same_type a.now b.now }
{
    same_ty(a, b)
}

/// The type that an index enters.
fn entered_at(ty: &Ty, index: u64) -> Option<&Ty>
    ensures { option_copied result ≡ entered index (out-Ty ty.now) }
{
    match ty {
        Ty::Array(_, item) => Some(item.get()),
        Ty::Struct(fields) => fields.get(index as usize),
        _ => None,
    }
}

/// Whether each index after the first enters an aggregate.
fn indices_enter(ty: &Ty, indices: &[Bits]) -> bool
    ensures { result ≡ path_exists indices.now ty.now }
{
    if indices.is_empty() {
        return false;
    }
    let mut ty = ty;
    'indices: for index_bits in &indices[1..] {
        match entered_at(ty, index(*index_bits)) {
            Some(inner) => ty = inner,
            None => return false,
        }
    }
    true
}

/// Whether the lists of the constant have the type's lengths and member types, and its paths exist.
#[cycle(shape)]
pub fn const_has_shape(value: &Const, ty: &Ty) -> bool
    ensures { result ≡ has_shape value.now ty.now }
{
    match value {
        Const::Int(bits) => match ty {
            Ty::Int(width) => bits.width == *width,
            _ => false,
        },
        Const::Null | Const::Address(_) => matches!(ty, Ty::Ptr),
        Const::Zero => true,
        Const::Gep(gep) => matches!(ty, Ty::Ptr) && gep_has_shape(gep.get()),
        Const::Array(items) => match ty {
            Ty::Array(count, item) => {
                items.len() as u64 == *count && items_have(items.as_slice(), item.get())
            }
            _ => false,
        },
        Const::Struct(items) => match ty {
            Ty::Struct(fields) => items_match(items.as_slice(), fields.as_slice()),
            _ => false,
        },
    }
}

#[cycle(shape)]
fn gep_has_shape(gep: &ConstGep) -> bool
    ensures { result ≡ gep_is_sound gep.now }
{
    const_has_shape(&gep.base, &Ty::Ptr) && indices_enter(&gep.ty, gep.indices.as_slice())
}

#[cycle(shape)]
fn item_matches(item: &TypedConst, ty: &Ty) -> bool
    ensures { result ≡ item_has_shape item.now ty.now }
{
    is_same_type(&item.ty, ty) && const_has_shape(&item.value, ty)
}

#[cycle(shape)]
fn items_have(items: &[TypedConst], ty: &Ty) -> bool
    ensures { result ≡ all_have (map item_has_shape items.now) ty.now }
{
    'items: for item in items {
        if !item_matches(item, ty) {
            return false;
        }
    }
    true
}

#[cycle(shape)]
fn items_match(items: &[TypedConst], types: &[Ty]) -> bool
    ensures { result ≡ all_pass (map item_has_shape items.now) types.now }
{
    if items.len() != types.len() {
        return false;
    }
    'items: for at in 0..items.len() {
        if !item_matches(&items[at], &types[at]) {
            return false;
        }
    }
    true
}
