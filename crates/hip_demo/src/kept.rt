//! A text in memory, which grows as it is written.

ghost use Rattle.std.specs.Prelude.{◌≡◌, [], Some};
ghost use Rattle.hip_io.specs.Sinks.{HasPut};

use hip_io::{Put, Sink};
use hip_types::Row;
use std::alloc::Global;
use std::marker::Model;

/// A sink that keeps its bytes. It does not write a piece for which there is no memory.
#[derive(Drop)]
pub(crate) struct KeptText {
    text: Row<u8>,
    faults: u64,
}

impl Model for KeptText {
    ghost use Rattle.std.specs.Prelude.{Some};
    ghost use Rattle.hip_io.specs.Sinks.{SinkState};

    ghost Value = { SinkState };

    ghost view = { λ k. record { bytes = Some k.text; faults = k.faults } };
}

impl KeptText {
    pub(crate) fn new(alloc: Global) -> KeptText
        ensures { result ≡ record { bytes = Some []; faults = 0 } }
    {
        KeptText {
            text: Row::new(alloc),
            faults: 0,
        }
    }

    /// The bytes that it was given.
    pub(crate) fn into_text(self) -> Row<u8>
        ensures { self.bytes ≡ Some result }
    {
        let KeptText { text, faults: _ } = self;
        text
    }
}

impl Sink for KeptText {
    ghost state = { λ s. s };

    ghost held = { λ s. 0 };

    fn put(&mut self, bytes: &[u8]) -> Put
        ensures { HasPut self.old self.new bytes.now result }
    {
        match self.text.extend_from_slice(bytes) {
            Ok(()) => Put::Done,
            Err(_) => {
                self.faults = self.faults.saturating_add(1);
                Put::Failed
            }
        }
    }
    /// Holds nothing back.
    fn deliver(&mut self) -> Put {
        Put::Done
    }
}
