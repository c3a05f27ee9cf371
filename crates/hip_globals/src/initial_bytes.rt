ghost use Rattle.std.specs.Prelude.{◌≡◌, ◌<◌, ◌+◌, ◌^◌, ◌++◌, ◌∷◌, [], true, false, length, All, IfOk, OnOk};
ghost use Rattle.hip_types.specs.Areas.{volatile_start};
ghost use Rattle.hip_globals.specs.Addresses.{end_of, global_align, region_size, volatile_end};
ghost use Rattle.hip_globals.specs.AddressesSeen.{address_beside};
ghost use Rattle.hip_globals.specs.Constants.{types_in};
ghost use Rattle.hip_globals.specs.Held.{HoldsGlobals};
ghost use Rattle.hip_globals.specs.Initial as spec;
ghost use Rattle.hip_globals.specs.InitialSeen.{AllFit, GlobalsFit};
ghost use Rattle.hip_globals.specs.Addresses.{TypesFitIn};
ghost use Rattle.hip_globals.specs.Values.{aligned, constant_bytes};

use crate::addresses::alignment;
use crate::initial::{push_constant, set_align, set_size};
use crate::table::{AddressTable, address_table};
use hip_image::Image;
use hip_tree::{GlobalVar, Program};
use hip_types::{LINE_SIZE, NoMemory, VOLATILE_START, size};
use std::alloc::Global;

/// Adds the bytes of a global after those of the globals before it. The first byte of all is at `start`.
fn add_global(
    alloc: Global,
    bytes: &mut Image,
    addresses: &AddressTable<'_>,
    start: u64,
    global: &GlobalVar,
) -> Result<(), NoMemory>
    requires { AllFit (global.now.ty ∷ types_in global.now.init) }
    ensures { OnOk result
        (bytes.new ≡ aligned start (global_align global.now) bytes.old
        ++ constant_bytes (address_beside addresses.now) global.now.init global.now.ty) }
{
    set_align(bytes, 0, start, alignment(global))?;
    let len = bytes.len();
    push_constant(alloc, bytes, addresses, &global.init)?;
    set_size(bytes, len, size(&global.ty))
}

/// The bytes of the globals of one kind, persistent or volatile. The first byte is at `start`.
fn laid_bytes(
    alloc: Global,
    addresses: &AddressTable<'_>,
    globals: &[GlobalVar],
    persistent: bool,
    start: u64,
) -> Result<Image, NoMemory>
    requires { GlobalsFit globals.now }
    ensures { IfOk result
        (λ bytes. bytes ≡ spec.laid_bytes (address_beside addresses.now) persistent start [] globals.now) }
{
    let mut bytes = Image::new(alloc);
    'globals: for index in 0..globals.len() {
        let global = &globals[index];
        if global.persistent == persistent {
            add_global(alloc, &mut bytes, addresses, start, global)?;
        }
    }
    Ok(bytes)
}

/// The bytes of the volatile globals before a run, from the first one's place on, if the region begins at a base. The
/// time is linear in the bytes and in the program's constants.
pub fn volatile_bytes(alloc: Global, program: &Program, base: u64) -> Result<Image, NoMemory>
    requires globals { All TypesFitIn program.now.globals }
    requires persistent { end_of true base program.now.globals < 2 ^ 64 }
    requires volatile { volatile_end program.now < 2 ^ 64 }
    ensures bytes { IfOk result (λ bytes. bytes ≡ spec.volatile_bytes program.now base) }
    ensures length { IfOk result (λ bytes. volatile_start + length bytes ≡ volatile_end program.now) }
    ensures held { IfOk result (λ bytes. HoldsGlobals program.now base false volatile_start bytes) }
{
    let globals = program.globals.as_slice();
    let addresses = address_table(alloc, globals, base)?;
    laid_bytes(alloc, &addresses, globals, false, VOLATILE_START)
}

/// The bytes of the region before a run, if it begins at a base: the persistent globals, and zeros between and after
/// them. The time is linear in the bytes and in the program's constants.
pub fn region_bytes(alloc: Global, program: &Program, base: u64) -> Result<Image, NoMemory>
    requires globals { All TypesFitIn program.now.globals }
    requires persistent { end_of true base program.now.globals < 2 ^ 64 }
    requires volatile { volatile_end program.now < 2 ^ 64 }
    ensures bytes { IfOk result (λ bytes. bytes ≡ spec.region_bytes program.now base) }
    ensures length { IfOk result (λ bytes. length bytes ≡ region_size program.now) }
    ensures held { IfOk result (λ bytes. HoldsGlobals program.now base true 0 bytes) }
{
    let globals = program.globals.as_slice();
    let addresses = address_table(alloc, globals, base)?;
    let mut bytes = laid_bytes(alloc, &addresses, globals, true, 0)?;
    set_align(&mut bytes, 0, 0, LINE_SIZE)?;
    Ok(bytes)
}
