//! A program in a file.

ghost use Rattle.hip_program_files.specs.LoadedPrograms.{Loads, ReadsProgram};
ghost use Rattle.hip_program_files.specs.Outside.{CountsFetches};

use hip_io::{Cabinet, read_all};
use hip_parse::parse;
use hip_program_files::{Failure, LoadRefusal, ProgramRefusal, TEXT_LIMIT};
use hip_sound::Checked;
use hip_typing::check;
use std::alloc::Global;

/// The sound program that a text reads as. It never answers a read fault.
pub fn read_program(alloc: Global, text: &[u8]) -> Result<Checked, Failure<ProgramRefusal>>
    ensures { ReadsProgram text.now result }
{
    let program = parse(alloc, text)?;
    let checked = check(alloc, program)?;
    Ok(checked)
}

/// The sound program in the file of that name. At most one byte more than the limit is taken from the file.
pub fn load_program<C: Cabinet>(
    alloc: Global,
    cabinet: &mut C,
    name: &str,
) -> Result<Checked, Failure<LoadRefusal>>
    ensures loads { Loads name.now (C.state cabinet.old) (C.state cabinet.new) result }
    ensures fetches { CountsFetches 1 (C.state cabinet.old) (C.state cabinet.new) }
{
    let text = read_all(alloc, cabinet, name, TEXT_LIMIT)?;
    let checked = read_program(alloc, text.as_slice())?;
    Ok(checked)
}
