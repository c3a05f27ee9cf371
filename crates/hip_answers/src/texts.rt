ghost use Rattle.std.specs.Fmt.{decimal};
ghost use Rattle.hip_io.specs.Sinks.{Writes};

use hip_io::{Put, Sink, put_after};
use itoa::Buffer;

/// A number in decimal digits.
pub fn put_number<S: Sink>(before: Put, out: &mut S, n: u128) -> Put
    ensures { Writes before result (S.state out.old) (S.state out.new) (decimal n) }
{
    let mut digits = Buffer::new();
    put_after(before, out, digits.format(n).as_bytes())
}
