ghost use Rattle.std.specs.Prelude.{◌≡◌, ◌≢◌, ◌≤◌, ◌<◌, ◌+◌, ◌^◌, ◌⊎◌, [], min, take, length, option_map, IsTrue, IsSome, MatchOption};
ghost use Rattle.hip_io.specs.Cabinets.{HasFetched, HasTaken, file_of};
ghost use Rattle.hip_io.specs.Fakes.{mem_cabinet_state, open_file, IsFirstAt, GotAtMost};

use crate::cabinet::{Cabinet, Fetched, NamedFile, Taken};
use hip_types::Row;
use std::marker::Model;

/// The place of a reader: the number of its file, and how many bytes of the file were taken.
#[derive(Clone, Copy)]
pub struct ReadPlace {
    pub file: usize,
    pub taken: usize,
}

/// Files in memory. Of two files with the same name the first counts.
#[derive(Drop)]
pub struct MemCabinet {
    files: Row<NamedFile>,
    chunk: usize,
    place: Option<ReadPlace>,
    fetches: u64,
    misses: u64,
}

impl Model for MemCabinet {
    ghost use Rattle.std.specs.Prelude.{◌≤◌};
    ghost use Rattle.hip_io.specs.Fakes.{MemFiles, open_file};

    ghost Value = { MemFiles };

    ghost view = { λ c. record {
      files = c.files;
      chunk = c.chunk;
      current = open_file c.files c.place;
      fetches = c.fetches;
      misses = c.misses;
    } };

    ghost invariant = { λ c. 1 ≤ c.chunk };
}

impl MemCabinet {
    /// A cabinet of these files that gives at most `chunk` bytes at a time.
    pub fn new(files: Row<NamedFile>, chunk: usize) -> MemCabinet
        requires { 1 ≤ chunk }
        ensures { result ≡ record { files = files; chunk = chunk; current = None; fetches = 0; misses = 0 } }
    {
        MemCabinet {
            files,
            chunk,
            place: None,
            fetches: 0,
            misses: 0,
        }
    }

    /// Leaves no file current.
    pub(crate) fn close(&mut self)
        ensures { self.new ≡ record self.old { current = None } }
    {
        self.place = None;
    }
}

fn position_of(files: &[NamedFile], name: &[u8]) -> Option<usize>
    ensures { MatchOption result (file_of files.now name.now ≡ None) (λ at. IsFirstAt files.now name.now at) }
{
    for at in 0..files.len() {
        if files[at].name.as_slice() == name {
            return Some(at);
        }
    }
    None
}

impl Cabinet for MemCabinet {
    ghost use Rattle.hip_io.specs.Fakes.{memory_stated};

    ghost state = { mem_cabinet_state };

    ghost stated = { memory_stated };

    fn fetch(&mut self, name: &str) -> Fetched
        ensures fetch { HasFetched (mem_cabinet_state self.old) (mem_cabinet_state self.new) name.now result }
        ensures works { result ≢ Fetched.Failed }
        ensures chunk { self.new.chunk ≡ self.old.chunk }
    {
        self.fetches = self.fetches.saturating_add(1);
        match position_of(self.files.as_slice(), name.as_bytes()) {
            Some(file) => {
                self.place = Some(ReadPlace { file, taken: 0 });
                Fetched::Ready
            }
            None => {
                self.place = None;
                self.misses = self.misses.saturating_add(1);
                Fetched::Missing
            }
        }
    }

    fn take(&mut self, buf: &mut [u8]) -> Taken
        requires room { 0 < length buf.old }
        requires current { IsTrue (mem_cabinet_state self.old).is_current }
        ensures take { HasTaken (mem_cabinet_state self.old) (mem_cabinet_state self.new) buf.new result }
        ensures works { result ≢ Taken.Failed }
        ensures few { GotAtMost self.old.chunk result }
        ensures chunk { self.new.chunk ≡ self.old.chunk }
    {
        let place = match self.place {
            Some(place) => place,
            None => unreachable!(),
        };
        let rest = rest_of(&self.files, place);
        if rest.is_empty() {
            return Taken::End;
        }
        let count = copy_some(rest, self.chunk, buf);
        self.place = Some(ReadPlace {
            file: place.file,
            taken: place.taken + count,
        });
        Taken::Got(count)
    }
}

/// The bytes that are not taken yet.
fn rest_of(files: &Row<NamedFile>, place: ReadPlace) -> &[u8]
    requires { IsSome (open_file files.now (Some place)) }
    ensures rest { option_map (λ file. file.rest) (open_file files.now (Some place)) ≡ Some result.now }
    ensures within { place.taken + length result.now < 2 ^ 64 ⊎ (result.now ≡ []) }
{
    match files.get(place.file) {
        Some(file) => {
            let bytes = file.bytes.as_slice();
            let taken = place.taken.min(bytes.len());
            &bytes[taken..]
        }
        None => unreachable!(),
    }
}

/// Copies as many of the first bytes into the buffer as it can hold, but at most `most`, and answers how many.
fn copy_some(bytes: &[u8], most: usize, buf: &mut [u8]) -> usize
    ensures count { result ≡ min most (min (length bytes.now) (length buf.old)) }
    ensures length { length buf.new ≡ length buf.old }
    ensures bytes { take result buf.new ≡ take result bytes.now }
{
    let count = most.min(bytes.len()).min(buf.len());
    buf[..count].copy_from_slice(&bytes[..count]);
    count
}
