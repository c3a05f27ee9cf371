//! What stores, flushes and fences do to the kept lines.

ghost use Rattle.std.specs.Prelude.{◌≡◌, ℕ, ◌+◌, ◌*◌, ◌/◌, ◌^◌, ◌<◌, ◌≤◌, ◌==◌, ◌&&◌, cond, nat_le, nat_lt, nat_eq, true, length, option_map, IsSome, OnErr, OnOk};
ghost use Rattle.std.specs.List.{list_any};
ghost use Rattle.hip_lines.specs.Line.{has_bytes};
ghost use Rattle.hip_types.specs.declared.areas.TheConstants.{LINE_SIZE};
ghost use Rattle.hip_crash.specs.Kept.{with_fence, with_flush, with_store};
ghost use Rattle.hip_crash.specs.KeptLines.{AreListed, ChangesKeptLine, is_unflushed, kept_at, line_at};
ghost use Rattle.hip_crash.specs.Now.{now_at};

use crate::kept_lines::KeptLines;
use crate::values::StoredValue;
use hip_image::Image;
use hip_types::{LINE_SIZE, NoMemory};

/// One more than the last line that has a byte of a range; 0 if the range has no bytes.
pub fn end_line(offset: u64, len: u64) -> u64
    requires { offset + len < 2 ^ 40 }
    ensures lines { (j : ℕ) → has_bytes j offset len ≡ (nat_le (offset / LINE_SIZE) j && nat_lt j result) }
    ensures within { (n : ℕ) → offset + len ≤ LINE_SIZE * n → result ≤ n }
    ensures small { result < 2 ^ 40 }
{
    if len == 0 {
        return 0;
    }
    (offset + len - 1) / LINE_SIZE + 1
}

/// Takes up the part of a store in one line. Keeps the line's initial bytes if nothing was stored into it so far.
pub fn push_in(
    lines: &mut KeptLines,
    image: &Image,
    line: u64,
    stored: StoredValue,
) -> Result<(), NoMemory>
    requires low { line < 2 ^ 32 }
    requires within { LINE_SIZE * line + LINE_SIZE ≤ length image.now }
    requires few { (now_at lines.old image.now line).least + length (now_at lines.old image.now line).later + 1 < 2
        ^ 63 }
    ensures ok { OnOk result ((j : ℕ) → now_at lines.new image.now j
        ≡ cond (j == line) (with_store stored (now_at lines.old image.now j)) (now_at lines.old image.now j)) }
    ensures err { OnErr result ((j : ℕ) → now_at lines.new image.now j ≡ now_at lines.old image.now j) }
{
    ensure_line(lines, image, line)?;
    lines.push(line, stored)
}

// Keeps the initial bytes of a line if nothing was stored into it so far.
fn ensure_line(lines: &mut KeptLines, image: &Image, line: u64) -> Result<(), NoMemory>
    requires low { line < 2 ^ 32 }
    requires within { LINE_SIZE * line + LINE_SIZE ≤ length image.now }
    ensures same { (j : ℕ) → now_at lines.new image.now j ≡ now_at lines.old image.now j }
    ensures ok { OnOk result (IsSome (line_at lines.new line)) }
{
    match lines.get(line) {
        Some(_) => Ok(()),
        None => lines.add(line, image.line(line)),
    }
}

/// Flushes the lines that have a byte of a range, in time linear in the kept ones, and lists those that hold flushed
/// stores after that.
pub fn flush_in(
    lines: &mut KeptLines,
    flushed: &mut Vec<u64>,
    offset: u64,
    len: u64,
) -> Result<(), NoMemory>
    requires fits { offset + len < 2 ^ 40 }
    requires listed { AreListed flushed.old.items lines.old }
    ensures listed { AreListed flushed.new.items lines.new }
    ensures same { (j : ℕ) → option_map (λ k. cond (has_bytes j offset len) (with_flush k) k) (kept_at lines.new j)
        ≡ option_map (λ k. cond (has_bytes j offset len) (with_flush k) k) (kept_at lines.old j) }
    ensures ok { OnOk result ((j : ℕ) → kept_at lines.new j
        ≡ option_map (λ k. cond (has_bytes j offset len) (with_flush k) k) (kept_at lines.old j)) }
{
    let end = end_line(offset, len);
    let mut next = offset / LINE_SIZE;
    'flushes: while let Some(kept) = lines.first_from(next, end) {
        let line = kept.line;
        flush_line(lines, flushed, line)?;
        next = line + 1;
    }
    Ok(())
}

// Flushes a line, and lists it if it holds flushed stores now and held none before.
fn flush_line(lines: &mut KeptLines, flushed: &mut Vec<u64>, line: u64) -> Result<(), NoMemory>
    requires there { IsSome (line_at lines.old line) }
    requires listed { AreListed flushed.old.items lines.old }
    ensures listed { AreListed flushed.new.items lines.new }
    ensures ok { OnOk result (ChangesKeptLine with_flush line lines.old lines.new) }
    ensures err { OnErr result (lines.new ≡ lines.old) }
{
    if is_to_be_listed(lines, line) {
        list(flushed, line)?;
    }
    lines.flush(line);
    Ok(())
}

// Whether a line has stores of which none is flushed.
fn is_to_be_listed(lines: &KeptLines, line: u64) -> bool
    ensures { result ≡ is_unflushed (kept_at lines.now line) }
{
    match lines.get(line) {
        Some(kept) => kept.flushed == 0 && kept.later.len() != 0,
        None => false,
    }
}

// Adds a line to the list.
fn list(flushed: &mut Vec<u64>, line: u64) -> Result<(), NoMemory>
    ensures kept { (j : ℕ) → list_any (nat_eq j) flushed.old.items ≡ true
        → list_any (nat_eq j) flushed.new.items ≡ true }
    ensures ok { OnOk result (list_any (nat_eq line) flushed.new.items ≡ true) }
{
    match flushed.push(line) {
        Ok(()) => Ok(()),
        Err(_) => Err(NoMemory),
    }
}

/// Makes the flushed stores of all lines durable.
pub fn fence_in(lines: &mut KeptLines, flushed: &[u64])
    requires { AreListed flushed.now lines.old }
    ensures { (j : ℕ) → kept_at lines.new j ≡ option_map (with_fence j) (kept_at lines.old j) }
{
    for line in flushed {
        lines.fence(*line);
    }
}

/// Makes all stores of the lines that have a byte of a range durable, in time linear in the kept ones.
pub fn persist_in(lines: &mut KeptLines, offset: u64, len: u64)
    requires { offset + len < 2 ^ 40 }
    ensures { (j : ℕ) → kept_at lines.new j
        ≡ option_map (λ k. cond (has_bytes j offset len) (with_fence j (with_flush k)) k) (kept_at lines.old j) }
{
    let end = end_line(offset, len);
    let mut next = offset / LINE_SIZE;
    'persists: while let Some(kept) = lines.first_from(next, end) {
        let line = kept.line;
        lines.flush(line);
        lines.fence(line);
        next = line + 1;
    }
}
