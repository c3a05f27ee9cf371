//! What is kept of the cache lines into which something was stored, by their numbers.

ghost use Rattle.std.specs.Prelude.{◌≡◌, ℕ, ◌+◌, ◌-◌, ◌<◌, ◌^◌, [], ◌∷◌, ◌++◌, length, Option, Some, None, IsSome, slice_get, IfOk, OnOk, OnErr};
ghost use Rattle.std.specs.Option.{option_copied};
ghost use Rattle.hip_crash.specs.Kept.{with_store, with_flush, with_fence};
ghost use Rattle.hip_crash.specs.Places.{KeptLinesArePlaced, ChangesKeptPlace};
ghost use Rattle.hip_crash.specs.declared.kept_line.KeptLine.{KeptLine};
ghost use Rattle.hip_types.specs.declared.areas.TheConstants.{LINE_SIZE};

use crate::kept_line::KeptLine;
use crate::values::StoredValue;
use hip_directory::Directory;
use hip_types::{LINE_SIZE, NoMemory};
use std::alloc::Global;

/// The kept lines, by the numbers of cache lines.
#[derive(Drop)]
pub struct KeptLines {
    alloc: Global,
    // For each cache line that is kept, its place, counted from 1.
    directory: Directory,
    lines: Vec<KeptLine>,
    ghost placed: { KeptLinesArePlaced directory lines.items },
}

#[tactic(auto, unfolding(crate::specs::KeptLines::line_at))]
impl KeptLines {
    ghost use Rattle.hip_crash.specs.KeptLines.{line_at, kept_at, ChangesKeptLine, GivesLine, IsFirstKept};

    /// Nothing is kept.
    pub fn new(alloc: Global) -> Result<KeptLines, NoMemory>
        ensures { IfOk result (λ lines. (j : ℕ) → line_at lines j ≡ None) }
    {
        let directory = Directory::new(alloc)?;
        Ok(KeptLines {
            alloc,
            directory,
            lines: Vec::new(alloc),
        })
    }

    /// What is kept of a cache line, if something is.
    #[inline]
    pub fn get(&self, line: u64) -> Option<&KeptLine>
        ensures { option_copied result ≡ line_at self.now line }
    {
        let place = self.directory.get(line) as usize;
        if place == 0 {
            return None;
        }
        self.lines.get(place - 1)
    }

    /// What is kept of the first kept line of a range of cache lines, if there is one.
    pub fn first_from(&self, from: u64, to: u64) -> Option<&KeptLine>
        requires { to < 2 ^ 63 }
        ensures { IsFirstKept self.now from to (option_copied result) }
    {
        match self.directory.first_set(from, to) {
            Some(line) => self.get(line),
            None => None,
        }
    }

    /// Keeps the bytes of a cache line into which nothing was stored so far.
    #[inline(never)]
    pub fn add(&mut self, line: u64, bytes: [u8; LINE_SIZE as usize]) -> Result<(), NoMemory>
        requires none { line_at self.old line ≡ None }
        requires low { line < 2 ^ 32 }
        ensures ok { OnOk result (GivesLine (record { bytes = bytes; least = 0; later = []; flushed = 0 }) line self.old
            self.new) }
        ensures err { OnErr result ((j : ℕ) → line_at self.new j ≡ line_at self.old j) }
    {
        self.directory.make_room(line)?;
        let place = self.lines.len() + 1;
        if place > u32::MAX as usize {
            return Err(NoMemory);
        }
        append(&mut self.lines, KeptLine::new(self.alloc, line, bytes))?;
        self.directory.set(line, place as u32);
        Ok(())
    }

    /// Takes up a store into a line of which something is kept.
    #[inline]
    pub fn push(&mut self, line: u64, stored: StoredValue) -> Result<(), NoMemory>
        requires there { IsSome (line_at self.old line) }
        requires few { (x : KeptLine) → line_at self.old line ≡ Some x
            → x.least + length x.later.items + 1 < 2 ^ 63 }
        ensures ok { OnOk result (ChangesKeptLine (with_store stored) line self.old self.new) }
        ensures err { OnErr result ((j : ℕ) → kept_at self.new j ≡ kept_at self.old j) }
    {
        let place = self.directory.get(line) as usize - 1;
        push_at(&mut self.lines, place, stored)
    }

    /// Flushes a line of which something is kept.
    #[inline]
    pub fn flush(&mut self, line: u64)
        requires { IsSome (line_at self.old line) }
        ensures { ChangesKeptLine with_flush line self.old self.new }
    {
        let place = self.directory.get(line) as usize - 1;
        flush_at(&mut self.lines, place);
    }

    /// Makes the flushed stores of a line durable.
    #[inline]
    pub fn fence(&mut self, line: u64)
        ensures { ChangesKeptLine (with_fence line) line self.old self.new }
    {
        let place = self.directory.get(line) as usize;
        if place != 0 {
            fence_at(&mut self.lines, place - 1, line);
        }
    }
}

fn append(lines: &mut Vec<KeptLine>, line: KeptLine) -> Result<(), NoMemory>
    ensures ok { OnOk result (lines.new.items ≡ lines.old.items ++ line ∷ []) }
    ensures err { OnErr result (lines.new.items ≡ lines.old.items) }
{
    match lines.push(line) {
        Ok(()) => Ok(()),
        Err(_) => Err(NoMemory),
    }
}

fn push_at(lines: &mut Vec<KeptLine>, place: usize, stored: StoredValue) -> Result<(), NoMemory>
    requires within { place < length lines.old.items }
    requires few { (x : KeptLine) → slice_get lines.old.items place ≡ Some x
        → x.least + length x.later.items + 1 < 2 ^ 63 }
    ensures ok { OnOk result (ChangesKeptPlace (with_store stored) place lines.old.items lines.new.items) }
    ensures err { OnErr result (ChangesKeptPlace (λ k. k) place lines.old.items lines.new.items) }
{
    let line = &mut lines[place];
    line.push(stored)
}

fn flush_at(lines: &mut Vec<KeptLine>, place: usize)
    requires { place < length lines.old.items }
    ensures { ChangesKeptPlace with_flush place lines.old.items lines.new.items }
{
    let line = &mut lines[place];
    line.flush();
}

fn fence_at(lines: &mut Vec<KeptLine>, place: usize, number: u64)
    requires within { place < length lines.old.items }
    requires line { (x : KeptLine) → slice_get lines.old.items place ≡ Some x → x.line ≡ number }
    ensures { ChangesKeptPlace (with_fence number) place lines.old.items lines.new.items }
{
    let line = &mut lines[place];
    line.fence();
}
