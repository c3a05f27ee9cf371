//! The numbers of kept tags, by the bytes of a line.

ghost use Rattle.std.specs.Prelude.{◌≡◌, ℕ, ◌+◌, ◌-◌, ◌<◌, ◌≤◌, ◌&&◌, cond, nat_le, nat_lt, drop, take, length, slice_index};
ghost use Rattle.hip_lines.specs.Shown.{AreNumbers, IsRenumbered};
ghost use Rattle.hip_directory.specs.Tables.{count_set};
ghost use Rattle.hip_lines.specs.Uses.{AreBlank, NumbersAreNoted, AreUses};

use hip_types::LINE_SIZE;

/// Gives a number to `size` bytes from `from` on. The usual sizes have arms of their own, since a fill of a fixed size
/// is one move.
#[inline(always)]
pub fn number_bytes(numbers: &mut [u8], from: usize, size: usize, number: u8)
    requires { from + size ≤ length numbers.old }
    ensures len { length numbers.new ≡ length numbers.old }
    ensures numbers { (i : ℕ) → slice_index numbers.new i
        ≡ cond (nat_le from i && nat_lt i (from + size)) number (slice_index numbers.old i) }
{
    match size {
        8 => fill_bytes(numbers, from, 8, number),
        4 => fill_bytes(numbers, from, 4, number),
        _ => fill_bytes(numbers, from, size, number),
    }
}

#[inline(always)]
fn fill_bytes(numbers: &mut [u8], from: usize, size: usize, number: u8)
    requires { from + size ≤ length numbers.old }
    ensures len { length numbers.new ≡ length numbers.old }
    ensures numbers { (i : ℕ) → slice_index numbers.new i
        ≡ cond (nat_le from i && nat_lt i (from + size)) number (slice_index numbers.old i) }
{
    numbers[from..from + size].fill(number);
}

/// Removes the first `count` tags. The number of each byte becomes lower by `count`; a number of a removed tag becomes
/// 0.
#[inline(always)]
pub fn let_go(tags: &mut Vec<u128>, numbers: &mut [u8; LINE_SIZE as usize], count: usize)
    requires count { count ≤ length tags.old.items }
    requires few { length tags.old.items < 256 }
    requires numbered { AreNumbers (length tags.old.items) numbers.old }
    ensures tags { tags.new.items ≡ drop count tags.old.items }
    ensures numbers { (i : ℕ) → slice_index numbers.new i ≡ slice_index numbers.old i - count }
{
    if count == tags.len() {
        tags.clear();
        *numbers = [0; 64];
    } else {
        drop_front(tags, count);
        lower(numbers, count as u8);
    }
}

// Removes the first `count` tags.
fn drop_front(tags: &mut Vec<u128>, count: usize)
    requires { count ≤ length tags.old.items }
    ensures { tags.new.items ≡ drop count tags.old.items }
{
    let kept = tags.len() - count;
    tags.rotate_left(count);
    tags.truncate(kept);
}

// Lowers each number by `by`, down to 0.
fn lower(numbers: &mut [u8], by: u8)
    ensures len { length numbers.new ≡ length numbers.old }
    ensures numbers { (i : ℕ) → slice_index numbers.new i ≡ slice_index numbers.old i - by }
{
    for number in numbers.iter_mut() {
        *number = number.saturating_sub(by);
    }
}

/// Notes which numbers have a use: 0, those of the bytes of a line, and two others.
pub fn note_uses(uses: &mut [u8], numbers: &[u8], flushed: usize, last: usize)
    requires blank { AreBlank uses.old }
    requires line { length numbers.now ≡ LINE_SIZE }
    requires last { last < 256 }
    requires flushed { flushed ≤ last }
    requires numbered { AreNumbers last numbers.now }
    ensures { AreUses numbers.now flushed last uses.new }
{
    note_bytes(uses, numbers);
    uses[0] = 1;
    uses[flushed] = 1;
    uses[last] = 1;
}

// Notes the numbers of the bytes.
fn note_bytes(uses: &mut [u8], numbers: &[u8])
    requires { (i : ℕ) → slice_index numbers.now i < length uses.old }
    ensures { NumbersAreNoted numbers.now (length numbers.now) uses.old uses.new }
{
    for i in 0..numbers.len() {
        uses[numbers[i] as usize] = 1;
    }
}

/// Removes the tags that have no use, and gives each of the others its new number.
pub fn keep_used(news: &mut [u8], tags: &mut Vec<u128>)
    requires size { length news.old ≡ 256 }
    requires few { length tags.old.items < 256 }
    ensures renumbered { IsRenumbered news.old news.new tags.old.items tags.new.items }
    ensures size { length news.new ≡ 256 }
    ensures count { length tags.new.items ≤ count_set news.old }
{
    let kept = renumber(news, tags.as_mut_slice());
    tags.truncate(kept);
}

// Moves the tags that have a use to the front, in their order, gives each its new number, and returns how many there
// are.
fn renumber(news: &mut [u8], tags: &mut [u128]) -> usize
    requires size { length news.old ≡ 256 }
    requires few { length tags.old < 256 }
    ensures renumbered { IsRenumbered news.old news.new tags.old (take result tags.new) }
    ensures size { length news.new ≡ 256 }
    ensures len { length tags.new ≡ length tags.old }
    ensures count { result ≤ count_set news.old }
{
    let mut kept = 0;
    for k in 0..tags.len() {
        if news[k + 1] != 0 {
            tags[kept] = tags[k];
            kept += 1;
            news[k + 1] = kept as u8;
        }
    }
    news[0] = 0;
    kept
}

/// Replaces the number of each byte by the new one.
pub fn renumber_bytes(numbers: &mut [u8], news: &[u8])
    requires { length news.now ≡ 256 }
    ensures len { length numbers.new ≡ length numbers.old }
    ensures numbers { (i : ℕ) → i < length numbers.old
        → slice_index numbers.new i ≡ slice_index news.now (slice_index numbers.old i) }
{
    for number in numbers.iter_mut() {
        *number = news[*number as usize];
    }
}
