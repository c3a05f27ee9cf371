//! Constants.

ghost use Rattle.std.specs.Prelude.{◌++◌, ◌+◌, ◌-◌, ◌≤◌, ◌<◌, nat_lt, if◌then◌else◌, codes, map};
ghost use Rattle.std.specs.Fmt.{decimal};
ghost use Rattle.hip_io.specs.Sinks.{Writes};
ghost use Rattle.hip_grammar.specs.Show.{truth_text, literal_text, index_text, inbounds_text, const_text, gep_text, item_text, bracketed, braced, commas};

use crate::lists::{Written, put_more};
use crate::text::{put_address, put_natural};
use crate::types::put_type;
use crate::words::put_keyword;
use hip_io::{Put, Sink, put_after};
use hip_tree::{Const, ConstGep, TypedConst};
use hip_types::{Bits, Row, Width};

fn put_truth<S: Sink>(before: Put, out: &mut S, n: u64) -> Put
    ensures { Writes before result (S.state out.old) (S.state out.new) (truth_text n) }
{
    if n == 0 {
        put_after(before, out, b"false")
    } else {
        put_after(before, out, b"true")
    }
}

fn put_negative<S: Sink>(before: Put, out: &mut S, magnitude: u64) -> Put
    ensures { Writes before result (S.state out.old) (S.state out.new) (codes "-" ++ decimal magnitude) }
{
    let put = put_after(before, out, b"-");
    put_natural(put, out, magnitude)
}

/// Puts the signed value of a number up to `last`, where the numbers from `half` on are negative.
fn put_signed<S: Sink>(before: Put, out: &mut S, n: u64, half: u64, last: u64) -> Put
    requires below { n ≤ last }
    requires half { 0 < half }
    ensures { Writes before result (S.state out.old) (S.state out.new)
        (if nat_lt n half then decimal n else codes "-" ++ decimal (last + 1 - n)) }
{
    if n < half {
        put_natural(before, out, n)
    } else {
        put_negative(before, out, last - n + 1)
    }
}

fn put_literal<S: Sink>(before: Put, out: &mut S, bits: Bits) -> Put
    ensures { Writes before result (S.state out.old) (S.state out.new) (literal_text bits) }
{
    match bits.width {
        Width::W1 => put_truth(before, out, bits.value),
        Width::W8 => put_signed(before, out, bits.value, 0x80, 0xff),
        Width::W16 => put_signed(before, out, bits.value, 0x8000, 0xffff),
        Width::W32 => put_signed(before, out, bits.value, 0x8000_0000, 0xffff_ffff),
        Width::W64 => put_signed(before, out, bits.value, 0x8000_0000_0000_0000, u64::MAX),
    }
}

impl Written for Bits {
    ghost text = { index_text };

    fn put<S: Sink>(&self, before: Put, out: &mut S) -> Put {
        let put = put_keyword(before, out, self.width);
        let put = put_after(put, out, b" ");
        put_literal(put, out, *self)
    }
}

pub fn put_inbounds<S: Sink>(before: Put, out: &mut S, inbounds: bool) -> Put
    ensures { Writes before result (S.state out.old) (S.state out.new) (inbounds_text inbounds) }
{
    let word = if inbounds {
        b"inbounds ".as_slice()
    } else {
        b"".as_slice()
    };
    put_after(before, out, word)
}

fn put_zero<S: Sink>(before: Put, out: &mut S) -> Put
    ensures { Writes before result (S.state out.old) (S.state out.new) (codes "zeroinitializer") }
{
    put_after(before, out, b"zeroinitializer")
}

#[cycle(value)]
pub fn put_const<S: Sink>(before: Put, out: &mut S, value: &Const) -> Put
    ensures { Writes before result (S.state out.old) (S.state out.new) (const_text value.now) }
{
    match value {
        Const::Int(bits) => put_literal(before, out, *bits),
        Const::Null => put_after(before, out, b"null"),
        Const::Zero => put_zero(before, out),
        Const::Address(name) => put_address(before, out, name),
        Const::Gep(gep) => put_const_gep(before, out, gep.get()),
        Const::Array(items) => put_bracketed(before, out, items.as_slice()),
        Const::Struct(items) => put_braced(before, out, items.as_slice()),
    }
}

#[cycle(value)]
fn put_const_gep<S: Sink>(before: Put, out: &mut S, gep: &ConstGep) -> Put
    ensures { Writes before result (S.state out.old) (S.state out.new) (gep_text gep.now) }
{
    let put = put_after(before, out, b"getelementptr ");
    let put = put_inbounds(put, out, gep.inbounds);
    let put = put_after(put, out, b"(");
    let put = put_type(put, out, &gep.ty);
    let put = put_after(put, out, b", ptr ");
    let put = put_const(put, out, &gep.base);
    let put = put_more(put, out, &gep.indices);
    put_after(put, out, b")")
}

#[cycle(value)]
fn put_item<S: Sink>(before: Put, out: &mut S, item: &TypedConst) -> Put
    ensures { Writes before result (S.state out.old) (S.state out.new) (item_text item.now) }
{
    let put = put_type(before, out, &item.ty);
    let put = put_after(put, out, b" ");
    put_const(put, out, &item.value)
}

#[cycle(value)]
fn put_bracketed<S: Sink>(before: Put, out: &mut S, items: &[TypedConst]) -> Put
    ensures { Writes before result (S.state out.old) (S.state out.new) (bracketed (map item_text items.now)) }
{
    let put = put_after(before, out, b"[");
    let put = put_items(put, out, items);
    put_after(put, out, b"]")
}

#[cycle(value)]
fn put_braced<S: Sink>(before: Put, out: &mut S, items: &[TypedConst]) -> Put
    ensures { Writes before result (S.state out.old) (S.state out.new) (braced (map item_text items.now)) }
{
    if items.is_empty() {
        return put_after(before, out, b"{}");
    }
    let put = put_after(before, out, b"{ ");
    let put = put_items(put, out, items);
    put_after(put, out, b" }")
}

#[cycle(value)]
fn put_items<S: Sink>(before: Put, out: &mut S, items: &[TypedConst]) -> Put
    ensures { Writes before result (S.state out.old) (S.state out.new) (commas (map item_text items.now)) }
{
    let mut put = before;
    let mut separator = b"".as_slice();
    'each_item: for item in items {
        put = put_after(put, out, separator);
        put = put_item(put, out, item);
        separator = b", ".as_slice();
    }
    put
}
