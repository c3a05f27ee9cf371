//! Types.

ghost use Rattle.std.specs.Prelude.{◌++◌, codes, map};
ghost use Rattle.std.specs.Fmt.{decimal};
ghost use Rattle.hip_io.specs.Sinks.{Writes};
ghost use Rattle.hip_grammar.specs.Show.{type_text, commas, braced};
ghost use Rattle.hip_grammar.specs.Words.{ret_text};

use crate::text::put_natural;
use crate::words::put_keyword;
use hip_grammar::ret_text;
use hip_io::{Put, Sink, put_after};
use hip_types::{Scalar, Ty};

pub fn put_ret<S: Sink>(before: Put, out: &mut S, ret: Option<Scalar>) -> Put
    ensures { Writes before result (S.state out.old) (S.state out.new) (ret_text ret) }
{
    put_after(before, out, ret_text(ret))
}

#[cycle(kind)]
pub fn put_type<S: Sink>(before: Put, out: &mut S, ty: &Ty) -> Put
    ensures { Writes before result (S.state out.old) (S.state out.new) (type_text ty.now) }
{
    match ty {
        Ty::Int(width) => put_keyword(before, out, *width),
        Ty::Ptr => put_after(before, out, b"ptr"),
        Ty::Array(count, item) => put_array(before, out, *count, item.get()),
        Ty::Struct(fields) => put_struct(before, out, fields.as_slice()),
    }
}

#[cycle(kind)]
fn put_array<S: Sink>(before: Put, out: &mut S, count: u64, item: &Ty) -> Put
    ensures { Writes before result (S.state out.old) (S.state out.new)
        (codes "[" ++ (decimal count ++ (codes " x " ++ (type_text item.now ++ codes "]")))) }
{
    let put = put_after(before, out, b"[");
    let put = put_natural(put, out, count);
    let put = put_after(put, out, b" x ");
    let put = put_type(put, out, item);
    put_after(put, out, b"]")
}

#[cycle(kind)]
fn put_struct<S: Sink>(before: Put, out: &mut S, fields: &[Ty]) -> Put
    ensures { Writes before result (S.state out.old) (S.state out.new) (braced (map type_text fields.now)) }
{
    if fields.is_empty() {
        return put_after(before, out, b"{}");
    }
    let put = put_after(before, out, b"{ ");
    let put = put_fields(put, out, fields);
    put_after(put, out, b" }")
}

#[cycle(kind)]
fn put_fields<S: Sink>(before: Put, out: &mut S, fields: &[Ty]) -> Put
    ensures { Writes before result (S.state out.old) (S.state out.new) (commas (map type_text fields.now)) }
{
    let mut put = before;
    let mut separator = b"".as_slice();
    'each_field: for field in fields {
        put = put_after(put, out, separator);
        put = put_type(put, out, field);
        separator = b", ".as_slice();
    }
    put
}
