//! What a trace has before the first step of its run.

ghost use Rattle.std.specs.Prelude.{◌≡◌, [], ◌∷◌, ◌+◌, ◌*◌, ◌/◌, ◌<◌, ◌^◌, FitsSigned, IfOk, length, map, pos, slice_index_or};
ghost use Rattle.std.specs.Int.{w64};
ghost use Rattle.hip_io.specs.Sinks.{Wrote};
ghost use Rattle.hip_run_traces.specs.Traces.{header_of, image_entries};
ghost use Rattle.hip_runs.specs.Step.{some_byte};
ghost use Rattle.hip_trace.specs.Texts.{line_of, lines_of};
ghost use Rattle.hip_trace.specs.declared.entry.Entry.TheVariants as entries;

use hip_image::Image;
use hip_io::{Sink, WriteFault};
use hip_runs::Input;
use hip_trace::{Entry, write_entry};
use hip_types::LINE_SIZE;

/// Writes START and REGISTER, an INPUT for each number, and an IMAGE for each cache line of the initial region that has
/// a byte other than 0, and answers how many entries these are.
pub fn put_header<S: Sink>(input: &Input, out: &mut S) -> Result<u128, WriteFault>
    requires { input.now.base + length input.now.image < 2 ^ 64 }
    ensures wrote { Wrote (S.state out.old) (S.state out.new) (lines_of (header_of input.now)) result }
    ensures count { IfOk result (λ n. n ≡ length (header_of input.now)) }
{
    put_start(input, out)?;
    put_numbers(input.numbers.as_slice(), out)?;
    let lines = put_image(input.base, &input.image, out)?;
    Ok(2 + input.numbers.len() as u128 + u128::from(lines))
}

fn put_start<S: Sink>(input: &Input, out: &mut S) -> Result<(), WriteFault>
    ensures { Wrote (S.state out.old) (S.state out.new)
        (lines_of (entries.Start input.now.limit ∷ entries.Register input.now.base (length input.now.image) ∷ []))
        result }
{
    write_entry(&Entry::Start { limit: input.limit }, out)?;
    let size = input.image.len() as u64;
    write_entry(
        &Entry::Register {
            base: input.base,
            size,
        },
        out,
    )
}

fn put_numbers<S: Sink>(numbers: &[i64], out: &mut S) -> Result<(), WriteFault>
    ensures { Wrote (S.state out.old) (S.state out.new) (lines_of (map (λ z. entries.Input z) numbers.now)) result }
{
    'numbers: for place in 0..numbers.len() {
        let number = number_at(numbers, place);
        put_number(number, out)?;
    }
    Ok(())
}

fn number_at(numbers: &[i64], place: usize) -> i64
    requires { place < length numbers.now }
    ensures value { result ≡ slice_index_or numbers.now place (pos 0) }
    ensures fits { FitsSigned w64 result }
{
    numbers[place]
}

fn put_number<S: Sink>(number: i64, out: &mut S) -> Result<(), WriteFault>
    ensures { Wrote (S.state out.old) (S.state out.new) (line_of (entries.Input number)) result }
{
    write_entry(&Entry::Input { number }, out)
}

// Writes an IMAGE for each whole cache line that has a byte other than 0, and answers how many.
fn put_image<S: Sink>(base: u64, image: &Image, out: &mut S) -> Result<u64, WriteFault>
    requires { base + length image.now < 2 ^ 64 }
    ensures wrote { Wrote (S.state out.old) (S.state out.new)
        (lines_of (image_entries (length image.now / 64) base image.now)) result }
    ensures count { IfOk result (λ n. n ≡ length (image_entries (length image.now / 64) base image.now)) }
{
    let mut count = 0;
    'lines: for line in 0..image.len() as u64 / LINE_SIZE {
        count += put_line(base + LINE_SIZE * line, &image.line(line), out)?;
    }
    Ok(count)
}

// Writes an IMAGE of a cache line if it has a byte other than 0, and answers how many entries that is.
fn put_line<S: Sink>(addr: u64, line: &[u8], out: &mut S) -> Result<u64, WriteFault>
    requires { length line.now ≡ 64 }
    ensures wrote { Wrote (S.state out.old) (S.state out.new) (lines_of (image_entries 1 addr line.now)) result }
    ensures count { IfOk result (λ n. n ≡ length (image_entries 1 addr line.now)) }
{
    if !some_byte(line) {
        return Ok(0);
    }
    let mut bytes = [0; 64];
    bytes.copy_from_slice(line);
    write_entry(&Entry::Image { addr, bytes }, out)?;
    Ok(1)
}

pub(crate) fn some_byte(line: &[u8]) -> bool
    ensures { result ≡ some_byte line.now }
{
    'bytes: for byte in line {
        if *byte != 0 {
            return true;
        }
    }
    false
}
