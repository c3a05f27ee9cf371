ghost use Rattle.std.specs.Prelude.{◌≤◌, length, IfOk, ◌≡◌};
ghost use Rattle.hip_globals.specs.Addresses.{IsBase};
ghost use Rattle.hip_runs.specs.FirstInput.{first_input};
ghost use Rattle.hip_runs.specs.Validity.{IsValid};

use crate::input::Input;
use crate::limits::{MOST_NUMBERS, MOST_TURNS};
use hip_sound::Checked;
use hip_types::{NoMemory, Row};
use std::alloc::Global;

/// The input of a run that begins with the initialisers' bytes.
pub fn first_input(
    alloc: Global,
    checked: &Checked,
    base: u64,
    limit: u64,
    numbers: Row<i64>,
) -> Result<Input, NoMemory>
    requires base { IsBase base }
    requires limit { limit ≤ MOST_TURNS }
    requires numbers { length numbers ≤ MOST_NUMBERS }
    ensures is { IfOk result (λ input. input ≡ first_input checked.now base limit numbers) }
    ensures valid { IfOk result (λ input. IsValid checked.now input) }
{
    Ok(Input {
        base,
        image: checked.region_bytes(alloc, base)?,
        numbers,
        limit,
    })
}
