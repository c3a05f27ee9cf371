ghost use Rattle.std.specs.Prelude.{ℕ, ◌≡◌, ◌≤◌, ◌+◌, ◌<◌, ◌^◌, [], ◌∷◌, ◌++◌, OnOk, cond, length, nat_le, nat_lt, true, false, IfOk, Some, None};
ghost use Rattle.hip_types.specs.Layout.{Fits, size_of};
ghost use Rattle.hip_globals.specs.Addresses.{OwnTypesFit, IsBase, end_of, global_start};
ghost use Rattle.hip_runs.specs.Found.Objects.{global_at};
ghost use Rattle.hip_objects.specs.Globals.{AreLaid, number_at, place_of, places_from};
ghost use Rattle.hip_objects.specs.Order.{AreSplit};

use hip_globals::alignment;
use hip_sound::Checked;
use hip_tree::GlobalVar;
use hip_types::{NoMemory, VOLATILE_START, size};
use std::alloc::Global;
use std::marker::Model;

/// The place of a global: its address and its size in bytes, and its number.
#[derive(Clone, Copy)]
pub struct GlobalRange {
    pub start: u64,
    pub size: u64,
    pub number: usize,
}

/// The globals of a program by their addresses, if the region begins at a base. The table is made once, in time linear
/// in the globals; a later look-up searches no list of globals.
#[derive(Drop)]
pub struct GlobalTable {
    base: u64,
    volatile: Vec<GlobalRange>,
    persistent: Vec<GlobalRange>,
}

impl Model for GlobalTable {
    ghost use Rattle.hip_objects.specs.Globals.{Laid};

    ghost Value = { Laid };

    ghost use Rattle.hip_objects.specs.Globals.{laid_of, IsGlobalTable};

    ghost view = { laid_of };

    ghost invariant = { IsGlobalTable };
}

impl GlobalTable {
    ghost use Rattle.hip_objects.specs.Globals.{global_in};

    pub fn new(alloc: Global, checked: &Checked, base: u64) -> Result<GlobalTable, NoMemory>
        requires { IsBase base }
        ensures { IfOk result (λ table. (addr : ℕ) → global_in table addr ≡ global_at checked.now base addr) }
    {
        let globals = checked.program().globals.as_slice();
        let volatile = places(alloc, globals, false, VOLATILE_START)?;
        let persistent = places(alloc, globals, true, base)?;
        Ok(GlobalTable {
            base,
            volatile,
            persistent,
        })
    }

    /// The number of the global that has the byte at the address.
    pub fn number_at(&self, addr: u64) -> Option<usize>
        ensures { result ≡ global_in self.now addr }
    {
        if addr < self.base {
            number_in(self.volatile.as_slice(), addr)
        } else {
            number_in(self.persistent.as_slice(), addr)
        }
    }
}

// The places of the persistent globals, or of the volatile ones, if they are laid from an address on.
fn places(
    alloc: Global,
    globals: &[GlobalVar],
    persistent: bool,
    start: u64,
) -> Result<Vec<GlobalRange>, NoMemory>
    requires fit { OwnTypesFit globals.now }
    requires end { end_of persistent start globals.now < 2 ^ 64 }
    ensures { IfOk result (λ places. places.items ≡ places_from persistent start 0 globals.now) }
{
    let mut places = Vec::new(alloc);
    let mut at = start;
    'globals: for number in 0..globals.len() {
        let global = &globals[number];
        if global.persistent == persistent {
            at = lay(&mut places, at, global, number)?;
        }
    }
    Ok(places)
}

// Lays a global from an address on, and returns the address where it ends.
fn lay(
    places: &mut Vec<GlobalRange>,
    at: u64,
    global: &GlobalVar,
    number: usize,
) -> Result<u64, NoMemory>
    requires fits { Fits global.now.ty }
    requires end { global_start at global.now + size_of global.now.ty < 2 ^ 64 }
    ensures end { IfOk result (λ end. end ≡ global_start at global.now + size_of global.now.ty) }
    ensures places { OnOk result (places.new.items ≡ places.old.items ++ place_of at global.now number ∷ []) }
{
    let start = match at.checked_next_multiple_of(alignment(global)) {
        Some(start) => start,
        None => unreachable!(),
    };
    let size = size(&global.ty);
    match places.push(GlobalRange {
        start,
        size,
        number,
    }) {
        Ok(()) => Ok(start + size),
        Err(_) => Err(NoMemory),
    }
}

// The number of the global that has the byte at the address. Of the globals that begin at or before it, only the last
// one can have it.
fn number_in(places: &[GlobalRange], addr: u64) -> Option<usize>
    requires { AreLaid places.now }
    ensures { result ≡ number_at addr places.now }
{
    let count = count_upto(places, addr);
    if count == 0 {
        return None;
    }
    number_of(&places[count - 1], addr)
}

// The number of the global, if it has the byte at the address.
fn number_of(place: &GlobalRange, addr: u64) -> Option<usize>
    requires { place.now.start ≤ addr }
    ensures { result ≡ cond (nat_lt addr (place.now.start + place.now.size)) (Some place.now.number) None }
{
    if addr - place.start < place.size {
        Some(place.number)
    } else {
        None
    }
}

// How many globals begin at or before the address.
fn count_upto(places: &[GlobalRange], addr: u64) -> usize
    requires { AreLaid places.now }
    ensures few { result ≤ length places.now }
    ensures split { AreSplit (λ p. p.start) places.now addr result }
{
    places.partition_point(
        |place: &GlobalRange| -> bool
            ensures { result ≡ nat_le place.now.start addr }
        { place.start <= addr },
    )
}
