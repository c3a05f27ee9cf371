//! Streams that hold bytes back, and what their devices see.

use hip_examples::AMPLE;
use hip_files::{Device, Stream};
use hip_io::{Put, Sink};
use std::alloc::Global;
use std::io::{Result, Write};
use std::process::Abort;

/// A device that takes some bytes, then refuses some writes, and then takes all. It counts the bytes and the writes.
#[derive(Drop)]
struct Counted {
    room: usize,
    refusals: u64,
    taken: usize,
    writes: u64,
}

impl Write for Counted {
    fn write(&mut self, buf: &[u8]) -> Result<usize> {
        self.writes = self.writes.saturating_add(1);
        if self.room == 0 && self.refusals > 0 {
            self.refusals -= 1;
            self.room = usize::MAX;
            return Ok(0);
        }
        let count = buf.len().min(self.room);
        self.room -= count;
        self.taken = self.taken.saturating_add(count);
        Ok(count)
    }

    fn flush(&mut self) -> Result<()> {
        Ok(())
    }
}

impl Device for Counted {
    ghost use Rattle.std.specs.Prelude.{false};

    ghost reveals = { false };

    ghost revealed = { λ _ is. absurd (let z : ⊥ = cc in z) };
}

/// A device that refuses one write after `room` bytes.
fn device_with(room: usize) -> Counted {
    Counted {
        room,
        refusals: 1,
        taken: 0,
        writes: 0,
    }
}

/// Puts pieces into a stream of a device, and delivers nothing.
fn put_pieces(rt: &impl Abort, alloc: Global, device: &mut Counted, lines: bool, pieces: &[&[u8]]) {
    let mut stream = Stream::new(alloc, device, lines);
    for piece in pieces {
        assert!(rt; stream.put(piece) == Put::Done);
    }
}

/// Puts 10,000 lines into a stream of a device, and delivers them.
fn put_many(rt: &impl Abort, alloc: Global, device: &mut Counted) {
    let mut stream = Stream::new(alloc, device, false);
    for _ in 0..10_000 {
        assert!(rt; stream.put(b"12345\n") == Put::Done);
    }
    assert!(rt; stream.deliver() == Put::Done);
}

#[test]
fn pieces_are_written_together(rt: HostRuntime) {
    let mut device = device_with(100_000);
    put_many(&rt, rt.alloc(), &mut device);
    assert_eq!(&rt; device.taken, 60_000);
    assert_eq!(&rt; device.writes, 8);
}

#[test]
fn lines_are_written_at_once(rt: HostRuntime) {
    let mut held = device_with(100);
    put_pieces(&rt, rt.alloc(), &mut held, true, &[b"1"]);
    assert_eq!(&rt; held.writes, 0);
    let mut device = device_with(100);
    put_pieces(&rt, rt.alloc(), &mut device, true, &[b"1", b"2\n"]);
    assert_eq!(&rt; (device.taken, device.writes), (3, 1));
}

/// Delivers a piece twice, to a device that has no room for all of it the first time.
fn deliver_twice(rt: &impl Abort, alloc: Global, device: &mut Counted) {
    let mut stream = Stream::new(alloc, device, false);
    assert!(rt; stream.put(b"1234567") == Put::Done);
    assert!(rt; stream.deliver() == Put::Failed);
    assert!(rt; stream.deliver() == Put::Done);
}

#[test]
fn a_failed_write_shows_at_the_delivery(rt: HostRuntime) {
    let mut device = device_with(5);
    deliver_twice(&rt, rt.alloc(), &mut device);
    assert_eq!(&rt; (device.taken, device.writes), (7, 3));
}

#[test]
fn a_long_piece_follows_what_is_held(rt: HostRuntime) {
    let mut long = Vec::new(rt.alloc());
    long.resize(9_000, b'x').expect(&rt, AMPLE);
    let mut device = device_with(10_000);
    let pieces = [b"1234567".as_slice(), long.as_slice()];
    put_pieces(&rt, rt.alloc(), &mut device, false, &pieces);
    assert_eq!(&rt; (device.taken, device.writes), (9_007, 2));
}
