ghost use Rattle.std.specs.Prelude.{◌≡◌, ◌↔◌, None};
ghost use Rattle.hip_runs.specs.Validity.{IsValid};
ghost use Rattle.hip_step.specs.Faults.{first_fault};

use hip_globals::is_base;
use hip_runs::{Input, InputFault, MOST_NUMBERS, MOST_TURNS};
use hip_sound::Checked;

/// Why the input is not valid for the program, if it is not: the first of these faults that it has, in their order.
pub fn why_not(checked: &Checked, input: &Input) -> Option<InputFault>
    ensures fault { result ≡ first_fault checked.now input.now }
    ensures valid { (result ≡ None) ↔ IsValid checked.now input.now }
{
    if !is_base(input.base) {
        return Some(InputFault::BadBase);
    }
    if input.image.len() as u64 != checked.region_size() {
        return Some(InputFault::BadImage);
    }
    if input.numbers.len() as u64 > MOST_NUMBERS {
        return Some(InputFault::TooManyNumbers);
    }
    if input.limit > MOST_TURNS {
        return Some(InputFault::BadLimit);
    }
    None
}
