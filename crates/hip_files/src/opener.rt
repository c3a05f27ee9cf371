//! What opens a file by its name.

ghost use Rattle.std.specs.Prelude.{◌≡◌, List, [], false};

use std::fs::File;
use std::io::{ErrorKind, Read, Result};

/// Opens files by their names.
pub trait Opener {
    ghost use Rattle.std.specs.Prelude.{◌≡◌, ℕ, Bool, true, List, Option, None, is_some, MatchResult};
    ghost use Rattle.std.specs.IoError.{error_kind};
    ghost use Rattle.hip_io.specs.Cabinets.{file_of};
    ghost use Rattle.hip_io.specs.Counts.{counted};
    ghost use Rattle.hip_io.specs.declared.cabinet.NamedFile.{NamedFile};
    ghost use Rattle.hip_files.specs.Openers.{IsOpened};

    type File: Read + Drop;

    // Whether contracts see which files there are and what they have: one answer for the whole type.
    ghost reveals: { Bool };

    // The files that there are. Of two files with the same name the first counts.
    ghost files: { Self → List NamedFile };

    // The name of the file that was opened last.
    ghost last: { Self → List ℕ };

    // How often a file was asked for.
    ghost opens: { Self → ℕ };

    /// Opens the first file of that name, and no other. An error of the kind `NotFound` says that there is none.
    fn open(&mut self, name: &str) -> Result<Self::File>
        ensures files { files self.new ≡ files self.old }
        ensures opens { opens self.new ≡ counted (opens self.old) }
        ensures opened { reveals ≡ true → MatchResult result
            (λ file. IsOpened (files self.old) name.now (last self.new) (Self.File.remaining file))
            (λ e. error_kind e ≡ ErrorKind.NotFound → file_of (files self.old) name.now ≡ None) };

    // If they do, each open file reveals the bytes that remain of it, at any time.
    ghost revealed: { (file : Self.File) → reveals ≡ true → is_some (Self.File.remaining file) ≡ true };
}

/// The files of the machine. They reveal nothing.
#[derive(Drop)]
pub struct HostFiles<'a> {
    rt: &'a HostRuntime,
    opens: u64,
}

impl<'a> HostFiles<'a> {
    pub fn new(rt: &'a HostRuntime) -> HostFiles<'a> {
        HostFiles { rt, opens: 0 }
    }
}

impl Opener for HostFiles<'_> {
    type File = File;

    ghost reveals = { false };

    ghost files = { λ _. [] };

    ghost last = { λ _. [] };

    ghost opens = { λ h. h.opens };

    ghost revealed = { λ _ is. absurd (let z : ⊥ = cc in z) };

    fn open(&mut self, name: &str) -> Result<File> {
        self.opens = self.opens.saturating_add(1);
        File::open(self.rt, name)
    }
}
