ghost use Rattle.std.specs.Prelude.{◌≡◌, ◌≤◌, ◌-◌, ◌++◌, [], ◌↔◌, length, take, IfOk};
ghost use Rattle.hip_io.specs.Sinks.{HasPut};
ghost use Rattle.hip_io.specs.Fakes.{mem_sink_state};

use crate::sink::{Put, Sink};
use hip_types::NoMemory;
use std::alloc::Global;
use std::marker::Model;

/// A sink in memory with room for a fixed number of bytes.
#[derive(Drop)]
pub struct MemSink {
    bytes: Vec<u8>,
    room: usize,
    faults: u64,
}

impl Model for MemSink {
    ghost use Rattle.std.specs.Prelude.{◌-◌, ◌+◌, ◌≡◌, ◌≤◌, length, vec_capacity};
    ghost use Rattle.hip_io.specs.Fakes.{MemBytes};

    ghost Value = { MemBytes };

    ghost view = { λ s. record { bytes = s.bytes.items; room = s.room; faults = s.faults } };

    ghost invariant = { λ s. length s.bytes.items + s.room ≤ vec_capacity s.bytes };
}

impl MemSink {
    /// An empty sink with room for that many bytes. It takes all its memory at once.
    pub fn new(alloc: Global, room: u64) -> Result<MemSink, NoMemory>
        ensures { IfOk result (λ s. s ≡ record { bytes = []; room = room; faults = 0 }) }
    {
        let room = room as usize;
        match Vec::with_capacity(alloc, room) {
            Ok(bytes) => Ok(MemSink {
                bytes,
                room,
                faults: 0,
            }),
            Err(_) => Err(NoMemory),
        }
    }

    /// The bytes that it was given.
    pub fn bytes(&self) -> &[u8]
        ensures { result.now ≡ self.now.bytes }
    {
        self.bytes.as_slice()
    }

    /// Appends a piece that fits.
    fn append(&mut self, piece: &[u8])
        requires { length piece.now ≤ self.old.room }
        ensures bytes { self.new.bytes ≡ self.old.bytes ++ piece.now }
        ensures room { self.new.room ≡ self.old.room - length piece.now }
        ensures faults { self.new.faults ≡ self.old.faults }
    {
        match self.bytes.extend_from_slice(piece) {
            Ok(()) => self.room -= piece.len(),
            Err(_) => unreachable!(),
        }
    }
}

impl Sink for MemSink {
    ghost state = { mem_sink_state };

    ghost held = { λ s. 0 };

    /// Appends the bytes that fit. It takes no memory.
    fn put(&mut self, bytes: &[u8]) -> Put
        ensures put { HasPut (mem_sink_state self.old) (mem_sink_state self.new) bytes.now result }
        ensures fits { (result ≡ Put.Done) ↔ (length bytes.now ≤ self.old.room) }
        ensures room { self.new.room ≡ self.old.room - length bytes.now }
        ensures kept { self.new.bytes ≡ self.old.bytes ++ take self.old.room bytes.now }
    {
        if bytes.len() <= self.room {
            self.append(bytes);
            return Put::Done;
        }
        let room = self.room;
        self.append(&bytes[..room]);
        self.faults = self.faults.saturating_add(1);
        Put::Failed
    }
    /// Does nothing, since this sink holds nothing back.
    fn deliver(&mut self) -> Put
        ensures nothing { HasPut (mem_sink_state self.old) (mem_sink_state self.new) [] result }
        ensures works { result ≡ Put.Done }
        ensures kept { self.new ≡ self.old }
    {
        Put::Done
    }
}
