//! A cabinet over files that are opened by their names.

ghost use Rattle.std.specs.Prelude.{◌≡◌, ◌<◌, length, true, None, IsTrue, is_some};
ghost use Rattle.hip_files.specs.Openers.{TookNext, opened_state, remaining_of};

use crate::opener::Opener;
use hip_io::{Cabinet, Fetched, Taken};
use std::io::{ErrorKind, Read};

/// Files that are opened by their names.
#[derive(Drop)]
pub struct FileCabinet<O, F> {
    opener: O,
    file: Option<F>,
    misses: u64,
    faults: u64,
}

impl<O: Opener + Drop> FileCabinet<O, O::File> {
    /// No file is current yet.
    pub fn new(opener: O) -> FileCabinet<O, O::File>
        ensures { ⟦<FileCabinet<O, O::File> as Cabinet>⟧.state result ≡ opened_state O.reveals O.File.remaining
            (O.files opener) (O.last opener) (O.opens opener) None 0 0 }
    {
        FileCabinet {
            opener,
            file: None,
            misses: 0,
            faults: 0,
        }
    }
}

impl<O: Opener + Drop> Cabinet for FileCabinet<O, O::File> {
    ghost use Rattle.hip_files.specs.Openers.{are_stated, opened_state};

    ghost state = { λ c. opened_state O.reveals O.File.remaining (O.files c.opener) (O.last c.opener) (O.opens c.opener) c.file
        c.misses c.faults };

    ghost stated = { λ c. are_stated O.reveals O.File.remaining (O.files c.opener) (O.last c.opener) (O.opens c.opener) c.file
        c.misses c.faults O.revealed };

    /// A file that the open call reports as absent is missing; every other failure is a fault.
    #[inline(never)]
    fn fetch(&mut self, name: &str) -> Fetched {
        self.file = None;
        match self.opener.open(name) {
            Ok(file) => {
                self.file = Some(file);
                Fetched::Ready
            }
            Err(error) if error.kind() == ErrorKind::NotFound => {
                self.misses = self.misses.saturating_add(1);
                Fetched::Missing
            }
            Err(_) => {
                self.faults = self.faults.saturating_add(1);
                Fetched::Failed
            }
        }
    }

    fn take(&mut self, buf: &mut [u8]) -> Taken {
        match take_next(&mut self.file, buf) {
            Taken::Got(count) => Taken::Got(count),
            Taken::End => Taken::End,
            Taken::Failed => {
                self.faults = self.faults.saturating_add(1);
                Taken::Failed
            }
        }
    }
}

/// Reads the next bytes of the current file.
fn take_next<F: Read>(file: &mut Option<F>, buf: &mut [u8]) -> Taken
    requires room { 0 < length buf.old }
    requires current { IsTrue (is_some file.old) }
    ensures next { TookNext (remaining_of F.remaining file.old) (remaining_of F.remaining file.new) buf.new result }
    ensures current { is_some file.new ≡ true }
{
    match file {
        Some(file) => read_some(file, buf),
        // The clause `current` says that there is a file.
        None => unreachable!(),
    }
}

/// Reads the next bytes of a file. A read that a signal interrupts is tried again.
fn read_some<F: Read>(file: &mut F, buf: &mut [u8]) -> Taken
    requires { 0 < length buf.old }
    ensures { TookNext (F.remaining file.old) (F.remaining file.new) buf.new result }
{
    'tries: for _ in 0..u64::MAX {
        match file.read(buf) {
            Ok(count) => {
                if count == 0 {
                    return Taken::End;
                }
                return Taken::Got(count);
            }
            Err(error) if error.kind() == ErrorKind::Interrupted => {}
            Err(_) => return Taken::Failed,
        }
    }
    Taken::Failed
}
