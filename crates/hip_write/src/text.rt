//! Names and numbers.

ghost use Rattle.std.specs.Prelude.{◌++◌, codes};
ghost use Rattle.std.specs.Fmt.{decimal};
ghost use Rattle.hip_io.specs.Sinks.{Writes};
ghost use Rattle.hip_grammar.specs.Show.{assigned_text};

use hip_io::{Put, Sink, put_after};
use hip_num::natural_into;
use hip_types::Name;

pub fn put_name<S: Sink>(before: Put, out: &mut S, name: &Name) -> Put
    ensures { Writes before result (S.state out.old) (S.state out.new) name.now }
{
    put_after(before, out, name.as_slice())
}

pub fn put_natural<S: Sink>(before: Put, out: &mut S, n: u64) -> Put
    ensures { Writes before result (S.state out.old) (S.state out.new) (decimal n) }
{
    let mut digits = [0; 40];
    let len = natural_into(&mut digits, u128::from(n));
    put_after(before, out, &digits[..len])
}

pub fn put_register<S: Sink>(before: Put, out: &mut S, name: &Name) -> Put
    ensures { Writes before result (S.state out.old) (S.state out.new) (codes "%" ++ name.now) }
{
    let put = put_after(before, out, b"%");
    put_name(put, out, name)
}

pub fn put_address<S: Sink>(before: Put, out: &mut S, name: &Name) -> Put
    ensures { Writes before result (S.state out.old) (S.state out.new) (codes "@" ++ name.now) }
{
    let put = put_after(before, out, b"@");
    put_name(put, out, name)
}

pub fn put_assigned<S: Sink>(before: Put, out: &mut S, dest: &Name) -> Put
    ensures { Writes before result (S.state out.old) (S.state out.new) (assigned_text dest.now) }
{
    let put = put_after(before, out, b"%");
    let put = put_name(put, out, dest);
    put_after(put, out, b" = ")
}
