ghost use Rattle.std.specs.Prelude.{◌≡◌, ◌+◌, ◌%◌, ◌<◌, ◌≤◌, ◌^◌, nat_le, true, length};
ghost use Rattle.std.specs.Option.{SomeIff};
ghost use Rattle.hip_types.specs.Layout.{Fits, size_of};
ghost use Rattle.hip_globals.specs.Addresses as spec;
ghost use Rattle.hip_globals.specs.Addresses.{AllDivide, OwnTypesFit, global_align, global_start};

use hip_tree::{GlobalVar, Program};
use hip_types::{
    BASE_ALIGNMENT, HIGHEST_BASE, LARGEST_REGION, LARGEST_VOLATILE, LINE_SIZE, LOWEST_BASE,
    VOLATILE_START, align, size,
};

/// Where the last volatile global may end.
const VOLATILE_LIMIT: u64 = VOLATILE_START + LARGEST_VOLATILE;

/// Whether the region may begin at the address: a multiple of 4,096 from 2^32 to 2^46.
pub fn is_base(base: u64) -> bool
    ensures { result ≡ spec.is_base base }
{
    base % BASE_ALIGNMENT == 0 && base >= LOWEST_BASE && base <= HIGHEST_BASE
}

/// The greater of the type's alignment and the written one.
pub fn alignment(global: &GlobalVar) -> u64
    requires { Fits global.now.ty }
    ensures value { result ≡ global_align global.now }
    ensures some { 0 < result }
{
    let natural = align(&global.ty);
    match global.align {
        Some(written) => written.max(natural),
        None => natural,
    }
}

/// Where a global ends that is laid from a place on; none if the end is 2^64 or more.
fn end_after(at: u64, global: &GlobalVar) -> Option<u64>
    requires { Fits global.now.ty }
    ensures { SomeIff result (global_start at global.now + size_of global.now.ty < 2 ^ 64)
        (global_start at global.now + size_of global.now.ty) }
{
    match at.checked_next_multiple_of(alignment(global)) {
        Some(start) => start.checked_add(size(&global.ty)),
        None => None,
    }
}

/// Where the globals of one kind, persistent or volatile, end; none if the end is 2^64 or more.
fn end_of(globals: &[GlobalVar], persistent: bool, start: u64) -> Option<u64>
    requires { OwnTypesFit globals.now }
    ensures { SomeIff result (spec.end_of persistent start globals.now < 2 ^ 64)
        (spec.end_of persistent start globals.now) }
{
    let mut at = start;
    'globals: for global in globals {
        if global.persistent == persistent {
            at = match end_after(at, global) {
                Some(end) => end,
                None => return None,
            };
        }
    }
    Some(at)
}

/// Whether the globals of one kind, persistent or volatile, end at the limit or before it.
fn end_within(globals: &[GlobalVar], persistent: bool, start: u64, limit: u64) -> bool
    requires { OwnTypesFit globals.now }
    ensures { result ≡ nat_le (spec.end_of persistent start globals.now) limit }
{
    match end_of(globals, persistent, start) {
        Some(end) => end <= limit,
        None => false,
    }
}

/// Whether the region and the volatile globals are within the limits of their sizes.
pub fn are_within_limits(globals: &[GlobalVar]) -> bool
    requires { OwnTypesFit globals.now }
    ensures { result ≡ spec.are_within_limits globals.now }
{
    end_within(globals, true, 0, LARGEST_REGION)
        && end_within(globals, false, VOLATILE_START, VOLATILE_LIMIT)
}

/// The number of bytes that the persistent globals take, rounded up to whole cache lines.
pub fn region_size(program: &Program) -> u64
    requires fit { OwnTypesFit program.now.globals }
    requires small { spec.region_size program.now ≤ LARGEST_REGION }
    ensures { result ≡ spec.region_size program.now }
{
    match end_of(program.globals.as_slice(), true, 0) {
        Some(end) => end.next_multiple_of(LINE_SIZE),
        None => unreachable!(),
    }
}

/// Where the global of that number begins, if the globals of its kind, persistent or not, are laid from a place on.
fn start_of(globals: &[GlobalVar], persistent: bool, start: u64, number: usize) -> u64
    requires fit { OwnTypesFit globals.now }
    requires there { number < length globals.now }
    requires one { persistent ≡ spec.is_persistent globals.now number }
    requires end { spec.end_of persistent start globals.now < 2 ^ 64 }
    ensures { result ≡ spec.start_of persistent start globals.now number }
{
    let mut at = start;
    'each: for index in 0..number {
        let earlier = &globals[index];
        if earlier.persistent == persistent {
            at = match end_after(at, earlier) {
                Some(end) => end,
                None => unreachable!(),
            };
        }
    }
    match at.checked_next_multiple_of(alignment(&globals[number])) {
        Some(start) => start,
        None => unreachable!(),
    }
}

/// The address of the global of that number, where the region begins at a base.
pub fn address(program: &Program, base: u64, number: usize) -> u64
    requires aligned { AllDivide program.now.globals }
    requires fit { OwnTypesFit program.now.globals }
    requires base { base % BASE_ALIGNMENT ≡ 0 }
    requires persistent { spec.end_of true base program.now.globals < 2 ^ 64 }
    requires volatile { spec.volatile_end program.now < 2 ^ 64 }
    requires there { number < length program.now.globals }
    ensures { result ≡ spec.address program.now base number }
{
    let globals = program.globals.as_slice();
    if globals[number].persistent {
        base + start_of(globals, true, 0, number)
    } else {
        start_of(globals, false, VOLATILE_START, number)
    }
}
