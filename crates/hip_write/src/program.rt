//! Globals, externs, functions and whole programs.

ghost use Rattle.std.specs.Prelude.{◌≡◌, OnOk};
ghost use Rattle.hip_io.specs.Sinks.{Writes, Wrote};
ghost use Rattle.hip_grammar.specs.Show.{fixed_text, section_text, global_text, extern_text, param_text, function_text, show};
ghost use Rattle.hip_grammar.specs.Words.{scalar_text};

use crate::constants::put_const;
use crate::instructions::put_align;
use crate::lists::{Written, put_all, put_parenthesized};
use crate::text::put_name;
use crate::types::{put_ret, put_type};
use crate::words::put_keyword;
use hip_io::{Put, Sink, WriteFault, deliver_after, put_after};
use hip_tree::{Extern, Function, GlobalVar, Param, Program};
use hip_types::Scalar;

fn put_kind<S: Sink>(before: Put, out: &mut S, fixed: bool) -> Put
    ensures { Writes before result (S.state out.old) (S.state out.new) (fixed_text fixed) }
{
    let word = if fixed {
        b"constant ".as_slice()
    } else {
        b"global ".as_slice()
    };
    put_after(before, out, word)
}

fn put_section<S: Sink>(before: Put, out: &mut S, persistent: bool) -> Put
    ensures { Writes before result (S.state out.old) (S.state out.new) (section_text persistent) }
{
    let word = if persistent {
        b", section \".pm\"".as_slice()
    } else {
        b"".as_slice()
    };
    put_after(before, out, word)
}

impl Written for GlobalVar {
    ghost text = { global_text };

    fn put<S: Sink>(&self, before: Put, out: &mut S) -> Put {
        let put = put_after(before, out, b"@");
        let put = put_name(put, out, &self.name);
        let put = put_after(put, out, b" = ");
        let put = put_kind(put, out, self.fixed);
        let put = put_type(put, out, &self.ty);
        let put = put_after(put, out, b" ");
        let put = put_const(put, out, &self.init);
        let put = put_section(put, out, self.persistent);
        let put = put_align(put, out, self.align);
        put_after(put, out, b"\n")
    }
}

impl Written for Scalar {
    ghost text = { scalar_text };

    fn put<S: Sink>(&self, before: Put, out: &mut S) -> Put {
        put_keyword(before, out, *self)
    }
}

impl Written for Extern {
    ghost text = { extern_text };

    fn put<S: Sink>(&self, before: Put, out: &mut S) -> Put {
        let put = put_after(before, out, b"declare ");
        let put = put_ret(put, out, self.ret);
        let put = put_after(put, out, b" @");
        let put = put_name(put, out, &self.name);
        let put = put_parenthesized(put, out, &self.params);
        put_after(put, out, b"\n")
    }
}

impl Written for Param {
    ghost text = { param_text };

    fn put<S: Sink>(&self, before: Put, out: &mut S) -> Put {
        let put = put_keyword(before, out, self.ty);
        let put = put_after(put, out, b" %");
        put_name(put, out, &self.name)
    }
}

impl Written for Function {
    ghost text = { function_text };

    fn put<S: Sink>(&self, before: Put, out: &mut S) -> Put {
        let put = put_after(before, out, b"define ");
        let put = put_ret(put, out, self.ret);
        let put = put_after(put, out, b" @");
        let put = put_name(put, out, &self.name);
        let put = put_parenthesized(put, out, &self.params);
        let put = put_after(put, out, b" {\n");
        let put = put_all(put, out, &self.blocks);
        put_after(put, out, b"}\n")
    }
}

fn put_program<S: Sink>(before: Put, out: &mut S, program: &Program) -> Put
    ensures { Writes before result (S.state out.old) (S.state out.new) (show program.now) }
{
    let put = put_all(before, out, &program.globals);
    let put = put_all(put, out, &program.externs);
    put_all(put, out, &program.functions)
}

/// Appends the canonical text of a program and delivers it. After a fault the sink has a prefix of it. It takes no
/// memory.
pub fn write<S: Sink>(program: &Program, out: &mut S) -> Result<(), WriteFault>
    ensures wrote { Wrote (S.state out.old) (S.state out.new) (show program.now) result }
    ensures delivered { OnOk result (S.held out.new ≡ 0) }
{
    let put = put_program(Put::Done, out, program);
    match deliver_after(put, out) {
        Put::Done => Ok(()),
        Put::Failed => Err(WriteFault),
    }
}
