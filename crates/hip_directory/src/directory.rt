ghost use Rattle.std.specs.Prelude.{◌≡◌, ◌≢◌, ℕ, ◌+◌, ◌-◌, ◌*◌, ◌/◌, ◌%◌, ◌^◌, ◌<◌, ◌≤◌, ◌==◌, cond, length, slice_index, IfOk, OnOk, OnErr};
ghost use Rattle.hip_directory.specs.declared.TheConstants.{GROUP_SIZE};
ghost use Rattle.hip_directory.specs.Tables.{number_in, IsDirectoryTable, set_once, count_set};

use crate::GROUP_SIZE;
use hip_types::NoMemory;
use std::alloc::Global;

/// A number for each key, which is 0 until one is set. It takes memory for the groups of keys that room was made for,
/// and four bytes for each group below the last of them.
#[derive(Drop)]
pub struct Directory {
    // For each group of keys the place of its entries, counted in groups; 0 if none were made.
    groups: Vec<u32>,
    // The entries, group by group. The first group is zeros.
    entries: Vec<u32>,
    // How many entries are not 0.
    held: usize,
    ghost table: { IsDirectoryTable groups.items entries.items },
    ghost counted: { held ≡ count_set entries.items },
}

#[tactic(auto, unfolding(crate::specs::Directories::number_at, crate::specs::Directories::group_of, crate::specs::Tables::number_in))]
impl Directory {
    ghost use Rattle.hip_directory.specs.Directories.{group_of, number_at, HasRoom, IsFirstSet};

    /// A directory that has 0 at each key.
    pub fn new(alloc: Global) -> Result<Directory, NoMemory>
        ensures { IfOk result (λ directory. (key : ℕ) → number_at directory key ≡ 0) }
    {
        let entries = zeros(alloc)?;
        Ok(Directory {
            groups: Vec::new(alloc),
            entries,
            held: 0,
        })
    }

    /// The number at a key.
    #[inline(always)]
    pub fn get(&self, key: u64) -> u32
        ensures number { result ≡ number_at self.now key }
        ensures room { result ≢ 0 → HasRoom self.now key }
    {
        self.entries[self.place(key)]
    }

    /// Makes room for a number at the key, so that `set` takes no memory. All numbers stay as they are, also if it
    /// fails.
    pub fn make_room(&mut self, key: u64) -> Result<(), NoMemory>
        ensures same { (j : ℕ) → number_at self.new j ≡ number_at self.old j }
        ensures kept { (j : ℕ) → HasRoom self.old j → HasRoom self.new j }
        ensures ok { OnOk result (HasRoom self.new key) }
    {
        if self.group(key) != 0 {
            return Ok(());
        }
        add_group(
            &mut self.groups,
            &mut self.entries,
            (key / GROUP_SIZE) as usize,
        )
    }

    /// Sets the number at a key that room was made for.
    #[inline(always)]
    pub fn set(&mut self, key: u64, number: u32)
        requires { HasRoom self.old key }
        ensures numbers { (j : ℕ) → number_at self.new j ≡ cond (j == key) number (number_at self.old j) }
        ensures room { (j : ℕ) → group_of self.new j ≡ group_of self.old j }
    {
        let place = self.place(key);
        let held = held_after(self.held, self.entries[place], number);
        self.held = held;
        self.entries[place] = number;
    }

    /// The first key of a range that has a number other than 0. The time is linear in the groups of the range, and
    /// constant if no key at all has such a number.
    pub fn first_set(&self, from: u64, to: u64) -> Option<u64>
        requires { to < 2 ^ 63 }
        ensures { IsFirstSet self.now from to result }
    {
        if self.held == 0 {
            return None;
        }
        self.first_set_within(from, to)
    }

    fn first_set_within(&self, from: u64, to: u64) -> Option<u64>
        requires { to < 2 ^ 63 }
        ensures { IsFirstSet self.now from to result }
    {
        let mut key = from;
        while key < to {
            if self.group(key) == 0 {
                key = (key / GROUP_SIZE + 1) * GROUP_SIZE;
            } else if self.get(key) != 0 {
                return Some(key);
            } else {
                key += 1;
            }
        }
        None
    }

    #[inline(always)]
    fn group(&self, key: u64) -> usize
        ensures { result ≡ group_of self.now key }
    {
        match self.groups.get((key / GROUP_SIZE) as usize) {
            Some(group) => *group as usize,
            None => 0,
        }
    }

    // Where the entry of a key is.
    #[inline(always)]
    fn place(&self, key: u64) -> usize
        ensures value { result ≡ GROUP_SIZE * group_of self.now key + key % GROUP_SIZE }
        ensures within { result < length self.now.entries.items }
    {
        self.group(key) * GROUP_SIZE as usize + (key % GROUP_SIZE) as usize
    }
}

// How many entries are not 0 after an entry changes from `old` to `number`.
#[inline(always)]
fn held_after(held: usize, old: u32, number: u32) -> usize
    requires there { 0 < old → 0 < held }
    requires small { held < 2 ^ 63 }
    ensures { result + set_once old ≡ held + set_once number }
{
    match (old, number) {
        (0, 0) => held,
        (0, _) => held + 1,
        (_, 0) => held - 1,
        (_, _) => held,
    }
}

// A group of zeros.
fn zeros(alloc: Global) -> Result<Vec<u32>, NoMemory>
    ensures length { IfOk result (λ v. length v.items ≡ GROUP_SIZE) }
    ensures zero { IfOk result (λ v. (i : ℕ) → slice_index v.items i ≡ 0) }
{
    let mut entries = Vec::new(alloc);
    append_group(&mut entries)?;
    Ok(entries)
}

// Makes the entries of a group of keys.
fn add_group(groups: &mut Vec<u32>, entries: &mut Vec<u32>, at: usize) -> Result<(), NoMemory>
    requires table { IsDirectoryTable groups.old.items entries.old.items }
    requires none { slice_index groups.old.items at ≡ 0 }
    ensures table { IsDirectoryTable groups.new.items entries.new.items }
    ensures same { (j : ℕ) → number_in groups.new.items entries.new.items j
        ≡ number_in groups.old.items entries.old.items j }
    ensures kept { (j : ℕ) → 0 < slice_index groups.old.items j → 0 < slice_index groups.new.items j }
    ensures counted { count_set entries.new.items ≡ count_set entries.old.items }
    ensures ok { OnOk result (0 < slice_index groups.new.items at) }
{
    let count = entries.len() / GROUP_SIZE as usize;
    if count > u32::MAX as usize || at == usize::MAX {
        return Err(NoMemory);
    }
    extend_to(groups, at + 1)?;
    append_group(entries)?;
    groups[at] = count as u32;
    Ok(())
}

// Appends a group of zeros.
fn append_group(entries: &mut Vec<u32>) -> Result<(), NoMemory>
    ensures same { (i : ℕ) → slice_index entries.new.items i ≡ slice_index entries.old.items i }
    ensures ok { OnOk result (length entries.new.items ≡ length entries.old.items + GROUP_SIZE) }
    ensures err { OnErr result (entries.new.items ≡ entries.old.items) }
{
    let len = entries.len() + GROUP_SIZE as usize;
    match entries.resize(len, 0) {
        Ok(()) => Ok(()),
        Err(_) => Err(NoMemory),
    }
}

// Appends zeros up to a length.
fn extend_to(numbers: &mut Vec<u32>, len: usize) -> Result<(), NoMemory>
    ensures same { (i : ℕ) → slice_index numbers.new.items i ≡ slice_index numbers.old.items i }
    ensures kept { length numbers.old.items ≤ length numbers.new.items }
    ensures ok { OnOk result (len ≤ length numbers.new.items) }
    ensures err { OnErr result (numbers.new.items ≡ numbers.old.items) }
{
    if len <= numbers.len() {
        return Ok(());
    }
    match numbers.resize(len, 0) {
        Ok(()) => Ok(()),
        Err(_) => Err(NoMemory),
    }
}
