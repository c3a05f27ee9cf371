//! How a run has ended, as a status and on a line.

ghost use Rattle.std.specs.Prelude.{◌≡◌, ◌++◌, codes};
ghost use Rattle.std.specs.Fmt.{signed_decimal};
ghost use Rattle.hip_io.specs.Sinks.{Writes};
ghost use Rattle.hip_answers.specs.Endings.{ending_line, status_of_ending, trap_text_of};

use crate::status::Status;
use hip_io::{Put, Sink, put_after};
use hip_runs::{Ending, TrapKind};
use itoa::Buffer;

/// The status of a command that runs a program.
pub fn status_of_ending(ending: Ending) -> Status
    ensures { result ≡ status_of_ending ending }
{
    match ending {
        Ending::Stop(_) => Status::Done,
        Ending::Trap(kind) => Status::Trapped { kind },
        Ending::Cut => Status::Cut,
    }
}

fn trap_word(kind: TrapKind) -> &'static [u8]
    ensures { result.now ≡ trap_text_of kind }
{
    match kind {
        TrapKind::DivZero => b"divzero",
        TrapKind::DivOverflow => b"divoverflow",
        TrapKind::ShiftRange => b"shift",
        TrapKind::Address => b"address",
        TrapKind::Misaligned => b"misaligned",
        TrapKind::Stack => b"stack",
        TrapKind::Depth => b"depth",
        TrapKind::InputEnd => b"input",
        TrapKind::Unreachable => b"unreachable",
    }
}

fn put_signed<S: Sink>(before: Put, out: &mut S, n: i32) -> Put
    ensures { Writes before result (S.state out.old) (S.state out.new) (signed_decimal n) }
{
    let mut digits = Buffer::new();
    put_after(before, out, digits.format(n).as_bytes())
}

fn put_stop<S: Sink>(out: &mut S, code: i32) -> Put
    ensures { Writes Put.Done result (S.state out.old) (S.state out.new)
        (codes "stop " ++ signed_decimal code ++ codes "\n") }
{
    let put = put_after(Put::Done, out, b"stop ");
    let put = put_signed(put, out, code);
    put_after(put, out, b"\n")
}

fn put_trap<S: Sink>(out: &mut S, word: &[u8]) -> Put
    ensures { Writes Put.Done result (S.state out.old) (S.state out.new)
        (codes "trap " ++ word.now ++ codes "\n") }
{
    let put = put_after(Put::Done, out, b"trap ");
    let put = put_after(put, out, word);
    put_after(put, out, b"\n")
}

/// How a run has ended, on a line.
pub fn put_ending<S: Sink>(out: &mut S, ending: Ending) -> Put
    ensures { Writes Put.Done result (S.state out.old) (S.state out.new) (ending_line ending) }
{
    match ending {
        Ending::Stop(code) => put_stop(out, code),
        Ending::Trap(kind) => put_trap(out, trap_word(kind)),
        Ending::Cut => put_after(Put::Done, out, b"cut\n"),
    }
}
