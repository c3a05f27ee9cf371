//! The number of entries of a run's trace: those of its header, and of each step.

ghost use Rattle.std.specs.Prelude.{◌≡◌, ◌/◌, length, is_some};
ghost use Rattle.hip_types.specs.declared.areas.TheConstants.{LINE_SIZE};
ghost use Rattle.hip_runs.specs.Outputs.{ending_by};
ghost use Rattle.hip_runs.specs.Step.{has_entry, header_entries, image_lines, some_byte};

use hip_image::Image;
use hip_runs::{Event, Input};
use hip_types::LINE_SIZE;

/// The number of entries before a run's first step, in time linear in the initial bytes.
pub fn count_header(input: &Input) -> u128
    ensures { result ≡ header_entries input.now }
{
    let lines = count_lines(&input.image);
    2 + input.numbers.len() as u128 + lines as u128
}

// The number of lines with an initial byte other than 0.
fn count_lines(image: &Image) -> u64
    ensures { result ≡ image_lines (length image.now / LINE_SIZE) image.now }
{
    let mut count = 0;
    'lines: for line in 0..image.len() as u64 / LINE_SIZE {
        if has_byte(&image.line(line)) {
            count += 1;
        }
    }
    count
}

// Whether a byte is not 0.
fn has_byte(bytes: &[u8]) -> bool
    ensures { result ≡ some_byte bytes.now }
{
    for byte in bytes {
        if *byte != 0 {
            return true;
        }
    }
    false
}

/// Whether a step with this event has an entry.
#[inline(always)]
pub fn is_counted(event: Event) -> bool
    ensures { result ≡ has_entry event }
{
    match event {
        Event::Quiet | Event::Print(_) => false,
        _ => true,
    }
}

/// Whether a run ends in a step with this event.
#[inline(always)]
pub fn is_end(event: Event) -> bool
    ensures { result ≡ is_some (ending_by event) }
{
    match event {
        Event::End(_) => true,
        _ => false,
    }
}
