//! The usual entries, in a form that takes less room than any `Entry`, which may be an image.

ghost use Rattle.std.specs.Prelude.{◌≡◌, ◌↔◌, IsTrue};
ghost use Rattle.hip_trace.specs.Usuals.{usual_entry};

use crate::entry::Entry;
use std::marker::Model;

/// An entry of a step that does not end its run.
#[derive(Clone, Copy, PartialEq, Eq)]
pub enum Usual {
    Store { addr: u64, value: u64, size: u32 },
    Flush { addr: u64, size: u64 },
    Fence,
    Persist { addr: u64, size: u64 },
    Assert { addr: u64, size: u64 },
}

impl Usual {
    #[inline(always)]
    pub fn entry(self) -> Entry
        ensures { result ≡ usual_entry self }
    {
        match self {
            Usual::Store { addr, value, size } => Entry::Store { addr, value, size },
            Usual::Flush { addr, size } => Entry::Flush { addr, size },
            Usual::Fence => Entry::Fence,
            Usual::Persist { addr, size } => Entry::Persist { addr, size },
            Usual::Assert { addr, size } => Entry::Assert { addr, size },
        }
    }
}

/// An entry that is kept to be compared. To keep a usual entry copies fewer bytes than an image has.
#[derive(Drop)]
pub struct KeptEntry {
    usual: Option<Usual>,
    other: Entry,
}

impl Model for KeptEntry {
    ghost use Rattle.hip_trace.specs.declared.entry.Entry.{Entry};
    ghost use Rattle.hip_trace.specs.Usuals.{kept};

    ghost Value = { Entry };

    ghost view = { λ k. kept k.usual k.other };
}

impl KeptEntry {
    pub fn new(entry: Entry) -> KeptEntry
        ensures { result ≡ entry }
    {
        KeptEntry {
            usual: None,
            other: entry,
        }
    }

    pub fn set(&mut self, entry: Entry)
        ensures { self.new ≡ entry }
    {
        self.usual = None;
        self.other = entry;
    }

    #[inline(always)]
    pub fn set_usual(&mut self, usual: Usual)
        ensures { self.new ≡ usual_entry usual }
    {
        self.usual = Some(usual);
    }

    /// Whether the entry is this one.
    pub fn is(&self, entry: &Entry) -> bool
        ensures { IsTrue result ↔ (entry.now ≡ self.now) }
    {
        match self.usual {
            Some(usual) => entry.same(&usual.entry()),
            None => entry.same(&self.other),
        }
    }

    /// Whether the entry is this usual one.
    #[inline(always)]
    pub fn is_usual(&self, usual: Usual) -> bool
        ensures { IsTrue result ↔ (usual_entry usual ≡ self.now) }
    {
        match self.usual {
            Some(here) => usual == here,
            None => usual.entry().same(&self.other),
        }
    }
}
