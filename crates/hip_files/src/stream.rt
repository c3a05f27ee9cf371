//! A sink over a device, which holds the last bytes back.

ghost use Rattle.std.specs.Prelude.{◌≡◌, ◌≤◌, [], true, length, take};
ghost use Rattle.std.specs.Io.KnownBytes.{Appends, Keeps, append_known};
ghost use Rattle.hip_io.specs.Counts.{Rose};
ghost use Rattle.hip_files.specs.Streams.{Counts, Took, given};

use crate::device::Device;
use crate::held_bytes::HeldBytes;
use hip_io::{Put, Sink};
use std::alloc::Global;
use std::io::ErrorKind;

/// A stream of bytes to a device. What it was given is what the device holds, and then what it holds back. It holds
/// bytes back until they are delivered, until they are many, or, if lines go out at once, until a piece ends in a line
/// feed.
#[derive(Drop)]
pub struct Stream<W> {
    out: W,
    held: HeldBytes,
    lines: bool,
    faults: u64,
}

impl<W: Device + Drop> Stream<W> {
    /// A stream that holds nothing back yet.
    pub fn new(alloc: Global, out: W, lines: bool) -> Stream<W>
        ensures held { ⟦<Stream<W> as Sink>⟧.held result ≡ 0 }
        ensures given { ⟦<Stream<W> as Sink>⟧.state result ≡ record { bytes = given W.reveals (W.contents out) []; faults = 0 } }
    {
        Stream {
            out,
            held: HeldBytes::new(alloc),
            lines,
            faults: 0,
        }
    }

    /// The device. What it holds is a front of what the stream was given, and all of it if nothing is held back.
    pub fn device(&self) -> &W
        ensures front { W.reveals ≡ true → ⟦<Stream<W> as Sink>⟧.state self.now
            ≡ record { bytes = append_known (W.contents result.now) self.now.held; faults = self.now.faults } }
        ensures all { W.reveals ≡ true → ⟦<Stream<W> as Sink>⟧.held self.now ≡ 0
            → (⟦<Stream<W> as Sink>⟧.state self.now).bytes ≡ W.contents result.now }
    {
        &self.out
    }

    /// Counts a fault.
    fn fail(&mut self) -> Put
        ensures fails { result ≡ Put.Failed }
        ensures counts { Counts self.old.faults self.new.faults Put.Failed }
        ensures held { self.new.held ≡ self.old.held }
        ensures out { self.new.out ≡ self.old.out }
    {
        self.faults = self.faults.saturating_add(1);
        Put::Failed
    }

    /// Writes what is held back. What could not be written stays held.
    fn send(&mut self) -> Put
        ensures all { result ≡ Put.Done → self.new.held ≡ [] }
        ensures bytes { Keeps (append_known (W.contents self.old.out) self.old.held)
            (append_known (W.contents self.new.out) self.new.held) }
        ensures counts { Counts self.old.faults self.new.faults result }
    {
        let count = write_front(&mut self.out, self.held.as_slice());
        let all = self.held.len();
        self.held.skip(count);
        if count == all {
            return Put::Done;
        }
        self.fail()
    }

    /// Writes a piece while nothing is held back.
    fn send_piece(&mut self, piece: &[u8]) -> Put
        requires { self.old.held ≡ [] }
        ensures bytes { Took (append_known (W.contents self.old.out) self.old.held)
            (append_known (W.contents self.new.out) self.new.held) piece.now result }
        ensures counts { Counts self.old.faults self.new.faults result }
    {
        if write_front(&mut self.out, piece) == piece.len() {
            return Put::Done;
        }
        self.fail()
    }

    /// Holds a piece back while nothing is held, or writes it if there is no room for it.
    fn hold_first(&mut self, piece: &[u8]) -> Put
        requires { self.old.held ≡ [] }
        ensures bytes { Took (append_known (W.contents self.old.out) self.old.held)
            (append_known (W.contents self.new.out) self.new.held) piece.now result }
        ensures counts { Counts self.old.faults self.new.faults result }
    {
        if self.held.put(piece) {
            return Put::Done;
        }
        self.send_piece(piece)
    }

    /// Holds a piece back, after it has written what is held if the piece does not fit behind it.
    #[inline(always)]
    fn hold(&mut self, piece: &[u8]) -> Put
        ensures bytes { Took (append_known (W.contents self.old.out) self.old.held)
            (append_known (W.contents self.new.out) self.new.held) piece.now result }
        ensures counts { Counts self.old.faults self.new.faults result }
    {
        if self.held.put(piece) {
            return Put::Done;
        }
        match self.send() {
            Put::Done => self.hold_first(piece),
            Put::Failed => Put::Failed,
        }
    }

    /// Writes what is held back if lines go out at once and the piece that came last ended one.
    #[inline(always)]
    fn send_line(&mut self, piece: &[u8]) -> Put
        ensures bytes { Keeps (append_known (W.contents self.old.out) self.old.held)
            (append_known (W.contents self.new.out) self.new.held) }
        ensures counts { Counts self.old.faults self.new.faults result }
    {
        if self.lines && piece.ends_with(b"\n") {
            return self.send();
        }
        Put::Done
    }

    /// Takes a piece.
    #[inline(always)]
    fn take_piece(&mut self, piece: &[u8]) -> Put
        ensures bytes { Took (append_known (W.contents self.old.out) self.old.held)
            (append_known (W.contents self.new.out) self.new.held) piece.now result }
        ensures counts { Counts self.old.faults self.new.faults result }
    {
        match self.hold(piece) {
            Put::Done => self.send_line(piece),
            Put::Failed => Put::Failed,
        }
    }
}

/// Writes bytes, and answers how many were written: fewer than all if a write failed.
fn write_front<W: Device>(out: &mut W, bytes: &[u8]) -> usize
    ensures count { result ≤ length bytes.now }
    ensures bytes { Appends (W.contents out.old) (W.contents out.new) (take result bytes.now) }
{
    let mut written = 0;
    'sending: for _ in 0..u64::MAX {
        if written == bytes.len() {
            break;
        }
        match out.write(&bytes[written..]) {
            Ok(count) => {
                written += count;
                if count == 0 {
                    break;
                }
            }
            Err(error) if error.kind() == ErrorKind::Interrupted => {}
            Err(_) => break,
        }
    }
    written
}

impl<W: Device + Drop> Sink for Stream<W> {
    ghost use Rattle.std.specs.Prelude.{length};
    ghost use Rattle.hip_files.specs.Streams.{given};

    ghost state = { λ s. record { bytes = given W.reveals (W.contents s.out) s.held; faults = s.faults } };

    ghost held = { λ s. length s.held };

    fn put(&mut self, bytes: &[u8]) -> Put {
        self.take_piece(bytes)
    }

    fn deliver(&mut self) -> Put {
        self.send()
    }
}
