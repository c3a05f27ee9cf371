//! The line that a status writes to the notes.

ghost use Rattle.std.specs.Prelude.{◌≡◌, ◌++◌, codes};
ghost use Rattle.std.specs.Fmt.{decimal};
ghost use Rattle.hip_io.specs.Sinks.{Writes};
ghost use Rattle.hip_answers.specs.Lines.{line_of, usage_text, missing_text, misfit_in_text, no_entry_text, pick_number, pick_words, kind_word, fault_words, block_text, place_text, parse_word, parse_line, text_refusal, form_refusal, program_refusal, misfit_text};

use crate::status::{FileRole, Status};
use crate::texts::put_number;
use hip_grammar::ParseRefusal;
use hip_io::{Put, Sink, put_after};
use hip_program_files::ProgramRefusal;
use hip_run_traces::MisfitKind;
use hip_sound::{Place, TypeFault};
use hip_types::PickRefusal;

fn kind_word(kind: MisfitKind) -> &'static [u8]
    ensures { result.now ≡ kind_word kind }
{
    match kind {
        MisfitKind::Malformed => b"malformed".as_slice(),
        MisfitKind::Differs => b"differs".as_slice(),
        MisfitKind::Early => b"early".as_slice(),
        MisfitKind::Extra => b"extra".as_slice(),
    }
}

fn fault_words(fault: &TypeFault) -> &'static [u8]
    ensures { result.now ≡ fault_words fault.now }
{
    match fault {
        TypeFault::BadShape => b"shape".as_slice(),
        TypeFault::Duplicate => b"duplicate".as_slice(),
        TypeFault::Unknown => b"unknown".as_slice(),
        TypeFault::Mismatch => b"mismatch".as_slice(),
        TypeFault::NoMain => b"no main".as_slice(),
        TypeFault::Unassigned { .. } => b"unassigned".as_slice(),
        TypeFault::BadExtern => b"bad extern".as_slice(),
        TypeFault::BadGlobal => b"bad global".as_slice(),
        TypeFault::BadEdge => b"bad edge".as_slice(),
        TypeFault::TooLarge => b"too large".as_slice(),
        TypeFault::NoMemory => b"out of memory".as_slice(),
    }
}

fn parse_word(refusal: &ParseRefusal) -> &'static [u8]
    ensures { result.now ≡ parse_word refusal.now }
{
    match refusal {
        ParseRefusal::Syntax { .. } => b"syntax".as_slice(),
        ParseRefusal::Unsupported { .. } => b"unsupported".as_slice(),
        ParseRefusal::Range { .. } => b"range".as_slice(),
        ParseRefusal::TooDeep { .. } => b"depth".as_slice(),
        ParseRefusal::NoMemory => b"out of memory".as_slice(),
    }
}

fn parse_line(refusal: &ParseRefusal) -> u64
    ensures { result ≡ parse_line refusal.now }
{
    match refusal {
        ParseRefusal::Syntax { line }
        | ParseRefusal::Unsupported { line }
        | ParseRefusal::Range { line }
        | ParseRefusal::TooDeep { line } => *line,
        ParseRefusal::NoMemory => 0,
    }
}

/// A word and a number.
fn put_numbered<S: Sink>(before: Put, out: &mut S, word: &[u8], n: usize) -> Put
    ensures { Writes before result (S.state out.old) (S.state out.new) (word.now ++ decimal n) }
{
    let put = put_after(before, out, word);
    put_number(put, out, n as u128)
}

fn put_block<S: Sink>(before: Put, out: &mut S, function: usize, block: usize) -> Put
    ensures { Writes before result (S.state out.old) (S.state out.new) (block_text function block) }
{
    let put = put_after(before, out, b"function ");
    let put = put_number(put, out, function as u128);
    let put = put_after(put, out, b" block ");
    put_number(put, out, block as u128)
}

/// A place in a block, by a word for what is counted there.
fn put_in_block<S: Sink>(
    before: Put,
    out: &mut S,
    function: usize,
    block: usize,
    word: &[u8],
    index: usize,
) -> Put
    ensures { Writes before result (S.state out.old) (S.state out.new)
        (block_text function block ++ word.now ++ decimal index) }
{
    let put = put_block(before, out, function, block);
    let put = put_after(put, out, word);
    put_number(put, out, index as u128)
}

fn put_block_end<S: Sink>(before: Put, out: &mut S, function: usize, block: usize) -> Put
    ensures { Writes before result (S.state out.old) (S.state out.new) (block_text function block ++ codes " end") }
{
    let put = put_block(before, out, function, block);
    put_after(put, out, b" end")
}

fn put_place<S: Sink>(before: Put, out: &mut S, place: Place) -> Put
    ensures { Writes before result (S.state out.old) (S.state out.new) (place_text place) }
{
    match place {
        Place::Whole => put_after(before, out, b"program"),
        Place::Global(n) => put_numbered(before, out, b"global ", n),
        Place::Extern(n) => put_numbered(before, out, b"extern ", n),
        Place::Head(n) => put_numbered(before, out, b"function ", n),
        Place::Phi(site) => put_in_block(
            before,
            out,
            site.function,
            site.block,
            b" phi ",
            site.index,
        ),
        Place::Body(site) => put_in_block(
            before,
            out,
            site.function,
            site.block,
            b" index ",
            site.index,
        ),
        Place::End { function, block } => put_block_end(before, out, function, block),
    }
}

fn put_text_refusal<S: Sink>(out: &mut S, word: &[u8], line: u64) -> Put
    ensures { Writes Put.Done result (S.state out.old) (S.state out.new) (text_refusal word.now line) }
{
    let put = put_after(Put::Done, out, b"hippo: program line ");
    let put = put_number(put, out, u128::from(line));
    let put = put_after(put, out, b": ");
    let put = put_after(put, out, word);
    put_after(put, out, b"\n")
}

fn put_form_refusal<S: Sink>(out: &mut S, words: &[u8], place: Place) -> Put
    ensures { Writes Put.Done result (S.state out.old) (S.state out.new) (form_refusal words.now place) }
{
    let put = put_after(Put::Done, out, b"hippo: program: ");
    let put = put_after(put, out, words);
    let put = put_after(put, out, b" at ");
    let put = put_place(put, out, place);
    put_after(put, out, b"\n")
}

fn put_program_refusal<S: Sink>(out: &mut S, refusal: &ProgramRefusal) -> Put
    ensures { Writes Put.Done result (S.state out.old) (S.state out.new) (program_refusal refusal.now) }
{
    match refusal {
        ProgramRefusal::Text(refusal) => put_text_refusal(
            out,
            parse_word(refusal),
            parse_line(refusal),
        ),
        ProgramRefusal::Form(refusal) => put_form_refusal(
            out,
            fault_words(&refusal.fault),
            refusal.place,
        ),
    }
}

fn put_misfit<S: Sink>(out: &mut S, entry: u128, word: &[u8]) -> Put
    ensures { Writes Put.Done result (S.state out.old) (S.state out.new) (misfit_text entry word.now) }
{
    let put = put_after(Put::Done, out, b"hippo: trace entry ");
    let put = put_number(put, out, entry);
    let put = put_after(put, out, b": ");
    let put = put_after(put, out, word);
    put_after(put, out, b"\n")
}

fn put_misfit_in<S: Sink>(out: &mut S, trace: u64, entry: u128, word: &[u8]) -> Put
    ensures { Writes Put.Done result (S.state out.old) (S.state out.new)
        (misfit_in_text trace entry word.now) }
{
    let put = put_after(Put::Done, out, b"hippo: trace ");
    let put = put_number(put, out, u128::from(trace));
    let put = put_after(put, out, b" entry ");
    let put = put_number(put, out, entry);
    let put = put_after(put, out, b": ");
    let put = put_after(put, out, word);
    put_after(put, out, b"\n")
}

fn put_no_entry<S: Sink>(out: &mut S, entries: u128) -> Put
    ensures { Writes Put.Done result (S.state out.old) (S.state out.new) (no_entry_text entries) }
{
    let put = put_after(Put::Done, out, b"hippo: no entry: ");
    let put = put_number(put, out, entries);
    put_after(put, out, b" entries\n")
}

fn pick_number(refusal: PickRefusal) -> usize
    ensures { result ≡ pick_number refusal }
{
    match refusal {
        PickRefusal::NoLine { at }
        | PickRefusal::Repeated { at }
        | PickRefusal::OutOfRange { at, .. } => at,
        PickRefusal::NoMemory => 0,
    }
}

fn put_range<S: Sink>(before: Put, out: &mut S, least: u64, most: u64) -> Put
    ensures { Writes before result (S.state out.old) (S.state out.new)
        (codes "range " ++ decimal least ++ codes " to " ++ decimal most) }
{
    let put = put_after(before, out, b"range ");
    let put = put_number(put, out, least as u128);
    let put = put_after(put, out, b" to ");
    put_number(put, out, most as u128)
}

fn put_pick_words<S: Sink>(before: Put, out: &mut S, refusal: PickRefusal) -> Put
    ensures { Writes before result (S.state out.old) (S.state out.new) (pick_words refusal) }
{
    match refusal {
        PickRefusal::NoLine { .. } => put_after(before, out, b"line"),
        PickRefusal::Repeated { .. } => put_after(before, out, b"repeated"),
        PickRefusal::OutOfRange { least, most, .. } => put_range(before, out, least, most),
        PickRefusal::NoMemory => put_after(before, out, b"out of memory"),
    }
}

fn put_bad_pick<S: Sink>(out: &mut S, number: usize, refusal: PickRefusal) -> Put
    ensures { Writes Put.Done result (S.state out.old) (S.state out.new)
        (codes "hippo: pick " ++ decimal number ++ codes ": " ++ pick_words refusal ++ codes "\n") }
{
    let put = put_after(Put::Done, out, b"hippo: pick ");
    let put = put_number(put, out, number as u128);
    let put = put_after(put, out, b": ");
    let put = put_pick_words(put, out, refusal);
    put_after(put, out, b"\n")
}

fn put_missing_number<S: Sink>(out: &mut S, number: u64) -> Put
    ensures { Writes Put.Done result (S.state out.old) (S.state out.new)
        (codes "hippo: no file: trace " ++ decimal number ++ codes "\n") }
{
    let put = put_after(Put::Done, out, b"hippo: no file: trace ");
    let put = put_number(put, out, u128::from(number));
    put_after(put, out, b"\n")
}

fn put_missing<S: Sink>(out: &mut S, file: FileRole) -> Put
    ensures { Writes Put.Done result (S.state out.old) (S.state out.new) (missing_text file) }
{
    match file {
        FileRole::Program => put_after(Put::Done, out, b"hippo: no file: program\n"),
        FileRole::Trace => put_after(Put::Done, out, b"hippo: no file: trace\n"),
        FileRole::Number(number) => put_missing_number(out, number),
    }
}

fn put_usage<S: Sink>(out: &mut S) -> Put
    ensures { Writes Put.Done result (S.state out.old) (S.state out.new) usage_text }
{
    let put = put_after(Put::Done, out, b"hippo: usage\n");
    let put = put_after(
        put,
        out,
        b"usage: hippo run PROGRAM [--limit N] [NUMBERS...]\n",
    );
    let put = put_after(
        put,
        out,
        b"       hippo record PROGRAM [--base N] [--limit N] [NUMBERS...]\n",
    );
    let put = put_after(put, out, b"       hippo check PROGRAM TRACE\n");
    let put = put_after(put, out, b"       hippo repair PROGRAM TRACE\n");
    let put = put_after(put, out, b"       hippo rerun PROGRAM TRACE\n");
    let put = put_after(put, out, b"       hippo demo SEED SIZE\n");
    let put = put_after(put, out, b"       hippo many PROGRAM TRACES...\n");
    let put = put_after(
        put,
        out,
        b"       hippo crash PROGRAM TRACE ENTRY [PICKS...]\n",
    );
    put_after(put, out, b"       hippo thin PROGRAM TRACE\n")
}

/// The line of a status.
#[tactic(auto, unfolding(crate::specs::Lines::line_of))]
pub fn put_line<S: Sink>(out: &mut S, status: &Status) -> Put
    ensures { Writes Put.Done result (S.state out.old) (S.state out.new) (line_of status.now) }
{
    match status {
        Status::Done | Status::Trapped { .. } | Status::Cut => put_after(Put::Done, out, b""),
        Status::Usage => put_usage(out),
        Status::Missing { file } => put_missing(out, *file),
        Status::ReadFault => put_after(Put::Done, out, b"hippo: read fault\n"),
        Status::WriteFault => put_after(Put::Done, out, b"hippo: write fault\n"),
        Status::BadProgram { refusal } => put_program_refusal(out, refusal),
        Status::Misfit { entry, kind } => put_misfit(out, *entry, kind_word(*kind)),
        Status::NoMemory => put_after(Put::Done, out, b"hippo: out of memory\n"),
        Status::TooLarge => put_after(Put::Done, out, b"hippo: program too large\n"),
        Status::MisfitIn { trace, entry, kind } => put_misfit_in(
            out,
            *trace,
            *entry,
            kind_word(*kind),
        ),
        Status::NoEntry { entries } => put_no_entry(out, *entries),
        Status::BadPick { refusal } => put_bad_pick(out, pick_number(*refusal), *refusal),
    }
}
