//! Files in memory, opened by their names.

ghost use Rattle.std.specs.Prelude.{◌≡◌, ◌<◌, length, IfSome, IsNone, MatchOption, None};
ghost use Rattle.hip_io.specs.Cabinets.{file_of};
ghost use Rattle.hip_files.specs.Openers.{IsFirstNamed};

use crate::opener::Opener;
use hip_io::NamedFile;
use std::io::{Error, ErrorKind, Result};

/// Files in memory. Contracts see them.
#[derive(Drop)]
pub struct HeldFiles<'a> {
    files: &'a [NamedFile],
    last: usize,
    opens: u64,
}

impl<'a> HeldFiles<'a> {
    pub fn new(files: &'a [NamedFile]) -> HeldFiles<'a>
        ensures files { ⟦<HeldFiles<'a> as Opener>⟧.files result ≡ files.now }
        ensures opens { ⟦<HeldFiles<'a> as Opener>⟧.opens result ≡ 0 }
    {
        HeldFiles {
            files,
            last: 0,
            opens: 0,
        }
    }
}

/// The number of the first file of that name.
fn number_of(files: &[NamedFile], name: &[u8]) -> Option<usize>
    ensures { MatchOption result (file_of files.now name.now ≡ None) (λ at. IsFirstNamed files.now name.now at) }
{
    'each: for at in 0..files.len() {
        if files[at].name.as_slice() == name {
            return Some(at);
        }
    }
    None
}

impl<'a> Opener for HeldFiles<'a> {
    ghost use Rattle.std.specs.Prelude.{true, refl};
    ghost use Rattle.hip_files.specs.Openers.{name_at};

    type File = &'a [u8];

    ghost reveals = { true };

    ghost files = { λ h. h.files.now };

    ghost last = { λ h. name_at h.files.now h.last };

    ghost opens = { λ h. h.opens };

    ghost revealed = { λ _ _. refl };

    fn open(&mut self, name: &str) -> Result<&'a [u8]> {
        self.opens = self.opens.saturating_add(1);
        match number_of(self.files, name.as_bytes()) {
            Some(at) => {
                self.last = at;
                Ok(self.files[at].bytes.as_slice())
            }
            None => Err(Error::from(ErrorKind::NotFound)),
        }
    }
}
