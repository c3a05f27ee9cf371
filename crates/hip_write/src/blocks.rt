//! Phis, ends and basic blocks.

ghost use Rattle.std.specs.Prelude.{◌++◌, codes};
ghost use Rattle.hip_io.specs.Sinks.{Writes};
ghost use Rattle.hip_grammar.specs.Show.{arg_text, edge_text, phi_text, case_text, end_text, line_of, phi_line, instr_line, block_text};

use crate::instructions::{put_instr, put_operand};
use crate::lists::{Written, put_all, put_joined};
use crate::text::{put_assigned, put_name};
use crate::words::put_keyword;
use hip_io::{Put, Sink, put_after};
use hip_tree::{Arg, Block, Case, Edge, End, Instr, Operand, Phi};
use hip_types::{Name, Row, Width};

impl Written for Edge {
    ghost text = { edge_text };

    fn put<S: Sink>(&self, before: Put, out: &mut S) -> Put {
        let put = put_after(before, out, b"[ ");
        let put = put_operand(put, out, &self.value);
        let put = put_after(put, out, b", %");
        let put = put_name(put, out, &self.label);
        put_after(put, out, b" ]")
    }
}

fn put_phi<S: Sink>(before: Put, out: &mut S, phi: &Phi) -> Put
    ensures { Writes before result (S.state out.old) (S.state out.new) (phi_text phi.now) }
{
    let put = put_assigned(before, out, &phi.dest);
    let put = put_after(put, out, b"phi ");
    let put = put_keyword(put, out, phi.ty);
    let put = put_after(put, out, b" ");
    put_joined(put, out, &phi.edges)
}

impl Written for Case {
    ghost text = { case_text };

    fn put<S: Sink>(&self, before: Put, out: &mut S) -> Put {
        let put = self.value.put(before, out);
        let put = put_after(put, out, b", label %");
        let put = put_name(put, out, &self.label);
        put_after(put, out, b" ")
    }
}

fn put_branch<S: Sink>(before: Put, out: &mut S, label: &Name) -> Put
    ensures { Writes before result (S.state out.old) (S.state out.new) (end_text (End.Br label.now)) }
{
    let put = put_after(before, out, b"br label %");
    put_name(put, out, label)
}

fn put_cond_branch<S: Sink>(
    before: Put,
    out: &mut S,
    cond: &Operand,
    first: &Name,
    second: &Name,
) -> Put
    ensures { Writes before result (S.state out.old) (S.state out.new)
        (end_text (End.CondBr cond.now first.now second.now)) }
{
    let put = put_after(before, out, b"br i1 ");
    let put = put_operand(put, out, cond);
    let put = put_after(put, out, b", label %");
    let put = put_name(put, out, first);
    let put = put_after(put, out, b", label %");
    put_name(put, out, second)
}

fn put_switch<S: Sink>(
    before: Put,
    out: &mut S,
    width: Width,
    value: &Operand,
    other: &Name,
    cases: &Row<Case>,
) -> Put
    ensures { Writes before result (S.state out.old) (S.state out.new)
        (end_text (End.Switch width value.now other.now cases.now)) }
{
    let put = put_after(before, out, b"switch ");
    let put = put_keyword(put, out, width);
    let put = put_after(put, out, b" ");
    let put = put_operand(put, out, value);
    let put = put_after(put, out, b", label %");
    let put = put_name(put, out, other);
    let put = put_after(put, out, b" [ ");
    let put = put_all(put, out, cases);
    put_after(put, out, b"]")
}

fn put_returned<S: Sink>(before: Put, out: &mut S, arg: &Arg) -> Put
    ensures { Writes before result (S.state out.old) (S.state out.new) (codes "ret " ++ arg_text arg.now) }
{
    let put = put_after(before, out, b"ret ");
    arg.put(put, out)
}

fn put_end<S: Sink>(before: Put, out: &mut S, end: &End) -> Put
    ensures { Writes before result (S.state out.old) (S.state out.new) (end_text end.now) }
{
    match end {
        End::Br { label } => put_branch(before, out, label),
        End::CondBr { cond, yes, no } => put_cond_branch(before, out, cond.get(), yes, no),
        End::Switch {
            width,
            value,
            other,
            cases,
        } => put_switch(before, out, *width, value.get(), other, cases),
        End::Ret(None) => put_after(before, out, b"ret void"),
        End::Ret(Some(arg)) => put_returned(before, out, arg),
        End::Unreachable => put_after(before, out, b"unreachable"),
    }
}

impl Written for Phi {
    ghost text = { phi_line };

    fn put<S: Sink>(&self, before: Put, out: &mut S) -> Put {
        let put = put_after(before, out, b"  ");
        let put = put_phi(put, out, self);
        put_after(put, out, b"\n")
    }
}

impl Written for Instr {
    ghost text = { instr_line };

    fn put<S: Sink>(&self, before: Put, out: &mut S) -> Put {
        let put = put_after(before, out, b"  ");
        let put = put_instr(put, out, self);
        put_after(put, out, b"\n")
    }
}

fn put_end_line<S: Sink>(before: Put, out: &mut S, end: &End) -> Put
    ensures { Writes before result (S.state out.old) (S.state out.new) (line_of (end_text end.now)) }
{
    let put = put_after(before, out, b"  ");
    let put = put_end(put, out, end);
    put_after(put, out, b"\n")
}

impl Written for Block {
    ghost text = { block_text };

    fn put<S: Sink>(&self, before: Put, out: &mut S) -> Put {
        let put = put_name(before, out, &self.label);
        let put = put_after(put, out, b":\n");
        let put = put_all(put, out, &self.phis);
        let put = put_all(put, out, &self.body);
        put_end_line(put, out, &self.end)
    }
}
