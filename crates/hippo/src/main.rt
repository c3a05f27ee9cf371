//! `hippo`: repairs durability bugs in programs that use persistent memory.
#![tactic(auto)]

use hip_files::HostFiles;
use hip_process::process;
use hip_tool::Status;
use std::io::{ErrorKind, IsTerminal};
use std::process::ExitCode;
use std::{env, io};

/// The words after the program's name. There are none if one of them is not text.
#[inline(never)]
fn words(rt: &HostRuntime) -> Result<Vec<String>, io::Error> {
    let mut words = Vec::new(rt.alloc());
    let mut all = match env::args(rt) {
        Ok(all) => all,
        Err(error) if error.kind() == ErrorKind::InvalidData => return Ok(words),
        Err(error) => return Err(error),
    };
    let _program = all.next();
    for word in all {
        words.push(word)?;
    }
    Ok(words)
}

fn main(rt: HostRuntime) -> ExitCode {
    let words = match words(&rt) {
        Ok(words) => words,
        Err(_) => return ExitCode::from(Status::NoMemory.code()),
    };
    let lines = rt.stdout().is_terminal();
    let files = HostFiles::new(&rt);
    let ended = process(
        rt.alloc(),
        words.as_slice(),
        files,
        rt.stdout(),
        rt.stderr(),
        lines,
    );
    ExitCode::from(ended.status.code())
}
