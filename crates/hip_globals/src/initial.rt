ghost use Rattle.std.specs.Prelude.{◌≡◌, ◌<◌, ◌≤◌, ◌++◌, ◌+◌, [], length, take, drop, map, IfOk, OnOk, unwrap_or};
ghost use Rattle.hip_types.specs.Layout.{Fits, gep_of};
ghost use Rattle.hip_types.specs.Bytes.{bytes_of};
ghost use Rattle.hip_globals.specs.AddressesSeen.{address_beside};
ghost use Rattle.hip_globals.specs.Constants.{index_of, joined, types_in, gep_types, item_types};
ghost use Rattle.hip_globals.specs.InitialSeen.{AllFit, item_piece};
ghost use Rattle.hip_globals.specs.Values.{aligned, sized, placed, written, gep_address};

use crate::indices::index;
use crate::table::{AddressTable, address_of};
use hip_image::Image;
use hip_tree::{Const, ConstGep, TypedConst};
use hip_types::{Bits, NoMemory, Row, Ty, align, gep_offset, size};
use std::alloc::Global;

/// Adds the low bytes of a number, the lowest first.
fn push_number(bytes: &mut Image, count: u64, number: u64) -> Result<(), NoMemory>
    ensures { OnOk result (bytes.new ≡ bytes.old ++ bytes_of count number) }
{
    let mut rest = number;
    'each: for _byte in 0..count {
        bytes.push((rest % 256) as u8)?;
        rest /= 256;
    }
    Ok(())
}

/// Cuts what comes after a place to a size, or fills it up with zeros.
pub fn set_size(bytes: &mut Image, start: usize, size: u64) -> Result<(), NoMemory>
    requires { start ≤ length bytes.old }
    ensures { OnOk result (bytes.new ≡ take start bytes.old ++ sized size (drop start bytes.old)) }
{
    let len = bytes.len() - start;
    let size = size as usize;
    if size <= len {
        bytes.truncate(start + size);
        return Ok(());
    }
    bytes.push_zeros(size - len)
}

/// Fills up with zeros to the next multiple of an alignment; the byte at `start` has this address.
pub fn set_align(bytes: &mut Image, start: usize, address: u64, align: u64) -> Result<(), NoMemory>
    requires { start ≤ length bytes.old }
    ensures { OnOk result (bytes.new ≡ take start bytes.old ++ aligned address align (drop start bytes.old)) }
{
    let Some(at) = address.checked_add((bytes.len() - start) as u64) else {
        return Err(NoMemory);
    };
    match at.checked_next_multiple_of(align) {
        Some(next) => bytes.push_zeros((next - at) as usize),
        None => Err(NoMemory),
    }
}

/// The offset of a path, 0 if the path does not exist.
fn offset_of(alloc: Global, ty: &Ty, indices: &[Bits]) -> Result<u64, NoMemory>
    requires { Fits ty.now }
    ensures { IfOk result (λ offset. offset ≡ unwrap_or (gep_of ty.now (map index_of indices.now)) 0) }
{
    if indices.is_empty() {
        return Ok(0);
    }
    let mut numbers = Row::new(alloc);
    'each: for bits in indices {
        numbers.push(index(*bits))?;
    }
    match gep_offset(ty, numbers.as_slice()) {
        Some(offset) => Ok(offset),
        None => Ok(0),
    }
}

/// The value of a constant: an integer's number, a pointer's address, 0 for any other.
#[cycle(value)]
pub fn value_of(alloc: Global, addresses: &AddressTable<'_>, value: &Const) -> Result<u64, NoMemory>
    requires { AllFit (types_in value.now) }
    ensures { IfOk result (λ number. number ≡ (written (address_beside addresses.now) value.now).value) }
{
    match value {
        Const::Int(bits) => Ok(bits.value),
        Const::Address(name) => Ok(address_of(addresses, name)),
        Const::Gep(gep) => element_of(alloc, addresses, gep.get()),
        Const::Null => Ok(0),
        Const::Zero => Ok(0),
        Const::Array(_) => Ok(0),
        Const::Struct(_) => Ok(0),
    }
}

/// The address of an element.
#[cycle(value)]
fn element_of(alloc: Global, addresses: &AddressTable<'_>, gep: &ConstGep) -> Result<u64, NoMemory>
    requires { AllFit (gep_types gep.now) }
    ensures { IfOk result (λ address. address ≡ gep_address (address_beside addresses.now) gep.now) }
{
    let base = value_of(alloc, addresses, &gep.base)?;
    let offset = offset_of(alloc, &gep.ty, gep.indices.as_slice())?;
    Ok(base.wrapping_add(offset))
}

/// Adds the bytes that a constant writes.
#[cycle(bytes)]
pub fn push_constant(
    alloc: Global,
    bytes: &mut Image,
    addresses: &AddressTable<'_>,
    value: &Const,
) -> Result<(), NoMemory>
    requires { AllFit (types_in value.now) }
    ensures { OnOk result (bytes.new ≡ bytes.old ++ (written (address_beside addresses.now) value.now).bytes) }
{
    match value {
        Const::Array(items) => push_items(alloc, bytes, addresses, items.as_slice()),
        Const::Struct(items) => push_fields(alloc, bytes, addresses, items.as_slice()),
        _ => {
            let number = value_of(alloc, addresses, value)?;
            push_number(bytes, 8, number)
        }
    }
}

/// Adds a member of an aggregate: exactly the bytes of its type.
#[cycle(bytes)]
fn push_item(
    alloc: Global,
    bytes: &mut Image,
    addresses: &AddressTable<'_>,
    item: &TypedConst,
) -> Result<(), NoMemory>
    requires { AllFit (item_types item.now) }
    ensures { OnOk result (bytes.new ≡ bytes.old ++ (item_piece (address_beside addresses.now) item.now).bytes) }
{
    let start = bytes.len();
    push_constant(alloc, bytes, addresses, &item.value)?;
    set_size(bytes, start, size(&item.ty))
}

/// Adds the items of an array.
#[cycle(bytes)]
fn push_items(
    alloc: Global,
    bytes: &mut Image,
    addresses: &AddressTable<'_>,
    items: &[TypedConst],
) -> Result<(), NoMemory>
    requires { AllFit (joined (map item_types items.now)) }
    ensures { OnOk result
        (bytes.new ≡ bytes.old
        ++ joined (map (λ p. p.bytes) (map (item_piece (address_beside addresses.now)) items.now))) }
{
    'items: for item in items {
        push_item(alloc, bytes, addresses, item)?;
    }
    Ok(())
}

/// Adds the fields of a struct, each at a multiple of its alignment.
#[cycle(bytes)]
fn push_fields(
    alloc: Global,
    bytes: &mut Image,
    addresses: &AddressTable<'_>,
    items: &[TypedConst],
) -> Result<(), NoMemory>
    requires { AllFit (joined (map item_types items.now)) }
    ensures { OnOk result
        (bytes.new ≡ bytes.old ++ placed [] (map (item_piece (address_beside addresses.now)) items.now)) }
{
    let start = bytes.len();
    'fields: for item in items {
        set_align(bytes, start, 0, align(&item.ty))?;
        push_item(alloc, bytes, addresses, item)?;
    }
    Ok(())
}
