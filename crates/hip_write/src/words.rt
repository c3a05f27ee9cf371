//! Words, and the flags of operations.

ghost use Rattle.std.specs.Prelude.{◌++◌, codes};
ghost use Rattle.hip_io.specs.Sinks.{Writes};
ghost use Rattle.hip_grammar.specs.Show.{flag_if, flags_text};
ghost use Rattle.hip_grammar.specs.Words.{flag_text};

use hip_grammar::Keyword;
use hip_io::{Put, Sink, put_after};
use hip_tree::{Flag, Flags};

pub fn put_keyword<S: Sink, K: Keyword>(before: Put, out: &mut S, value: K) -> Put
    ensures { Writes before result (S.state out.old) (S.state out.new) (K.text value) }
{
    put_after(before, out, value.keyword())
}

fn put_set_flag<S: Sink>(before: Put, out: &mut S, flag: Flag) -> Put
    ensures { Writes before result (S.state out.old) (S.state out.new) (flag_text flag ++ codes " ") }
{
    let put = put_keyword(before, out, flag);
    put_after(put, out, b" ")
}

fn put_flag<S: Sink>(before: Put, out: &mut S, flag: Flag, there: bool) -> Put
    ensures { Writes before result (S.state out.old) (S.state out.new) (flag_if flag there) }
{
    if there {
        put_set_flag(before, out, flag)
    } else {
        put_after(before, out, b"")
    }
}

pub fn put_flags<S: Sink>(before: Put, out: &mut S, flags: Flags) -> Put
    ensures { Writes before result (S.state out.old) (S.state out.new) (flags_text flags) }
{
    let put = put_flag(before, out, Flag::Nuw, flags.nuw);
    let put = put_flag(put, out, Flag::Nsw, flags.nsw);
    put_flag(put, out, Flag::Exact, flags.exact)
}
