ghost use Rattle.std.specs.Prelude.{◌<◌, length, IsTrue};
ghost use Rattle.hip_io.specs.Cabinets.{HasFetched, HasTaken};

use hip_types::{Name, Row};

/// A file with its name, both as bytes.
#[derive(Drop)]
pub struct NamedFile {
    pub name: Name,
    pub bytes: Row<u8>,
}

/// The answer to a fetch.
#[derive(Clone, Copy, Debug, PartialEq, Eq)]
pub enum Fetched {
    Ready,
    Missing,
    Failed,
}

/// The answer to a read of the current file. `Got` has how many bytes were taken, at least one.
#[derive(Clone, Copy, PartialEq, Eq)]
pub enum Taken {
    Got(usize),
    End,
    Failed,
}

/// Named files, of which one at a time is current.
pub trait Cabinet {
    ghost use Rattle.hip_io.specs.Cabinets.{CabinetState, IsStated};

    ghost state: { Self → CabinetState };

    /// Makes the named file the current one, at its first byte. After `Missing` or `Failed` no file is current.
    fn fetch(&mut self, name: &str) -> Fetched
        ensures { HasFetched (state self.old) (state self.new) name.now result };

    /// Takes the next bytes of the current file. After `End` and `Failed` nothing was taken.
    fn take(&mut self, buf: &mut [u8]) -> Taken
        requires room { 0 < length buf.old }
        requires current { IsTrue (state self.old).is_current }
        ensures { HasTaken (state self.old) (state self.new) buf.new result };

    ghost stated: { (cabinet : Self) → IsStated (state cabinet) };
}
