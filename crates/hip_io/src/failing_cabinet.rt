ghost use Rattle.std.specs.Prelude.{◌≡◌, ◌<◌, ◌≤◌, ◌↔◌, None, Some, length, IfSome, IsTrue};
ghost use Rattle.hip_io.specs.Counts.{counted};
ghost use Rattle.hip_io.specs.Cabinets.{HasFetched, HasTaken};
ghost use Rattle.hip_io.specs.Fakes.{failing_cabinet_state, left_of, left_after, FailsAlike, GotAtMost};

use crate::cabinet::{Cabinet, Fetched, Taken};
use crate::mem_cabinet::MemCabinet;
use hip_types::Name;
use std::marker::Model;

/// Where a file fails: at each fetch, or at each read after that many of its bytes were taken.
#[derive(Clone, Copy)]
pub enum FailAt {
    Fetch,
    Byte(u64),
}

/// Files in memory of which one fails. It gives no byte past the place where it fails.
#[derive(Drop)]
pub struct FailingCabinet {
    inner: MemCabinet,
    name: Name,
    at: FailAt,
    left: Option<u64>,
    fetches: u64,
    faults: u64,
}

impl Model for FailingCabinet {
    ghost use Rattle.hip_io.specs.Fakes.{FailingFiles};

    ghost Value = { FailingFiles };

    ghost view = { λ c. record {
      inner = c.inner;
      name = c.name;
      at = c.at;
      left = c.left;
      fetches = c.fetches;
      faults = c.faults;
    } };
}

impl FailingCabinet {
    /// A cabinet of the files of `inner`. No file is current, even if one is current in `inner`.
    pub fn new(inner: MemCabinet, name: Name, at: FailAt) -> FailingCabinet
        ensures { result ≡ record {
          inner = record inner { current = None };
          name = name;
          at = at;
          left = None;
          fetches = 0;
          faults = 0;
        } }
    {
        let mut inner = inner;
        inner.close();
        FailingCabinet {
            inner,
            name,
            at,
            left: None,
            fetches: 0,
            faults: 0,
        }
    }

    fn count_fault(&mut self)
        ensures count { self.new ≡ record self.old { faults = counted self.old.faults } }
        ensures later { self.old.faults ≤ self.new.faults }
    {
        self.faults = self.faults.saturating_add(1);
    }
}

impl Cabinet for FailingCabinet {
    ghost use Rattle.hip_io.specs.Fakes.{failing_stated};

    ghost state = { failing_cabinet_state };

    ghost stated = { failing_stated };

    fn fetch(&mut self, name: &str) -> Fetched
        ensures fetch { HasFetched (failing_cabinet_state self.old) (failing_cabinet_state self.new) name.now result }
        ensures fails { (result ≡ Fetched.Failed)
            ↔ ((self.old.at ≡ FailAt.Fetch) × (self.old.name ≡ name.now)) }
        ensures left { self.new.left ≡ left_of self.old name.now }
        ensures alike { FailsAlike self.old self.new }
    {
        self.fetches = self.fetches.saturating_add(1);
        let watched = self.name.as_slice() == name.as_bytes();
        match self.at {
            FailAt::Fetch => {
                self.left = None;
                if watched {
                    self.inner.close();
                    self.count_fault();
                    return Fetched::Failed;
                }
            }
            FailAt::Byte(limit) => self.left = if watched { Some(limit) } else { None },
        }
        self.inner.fetch(name)
    }

    fn take(&mut self, buf: &mut [u8]) -> Taken
        requires room { 0 < length buf.old }
        requires current { IsTrue (failing_cabinet_state self.old).is_current }
        ensures take { HasTaken (failing_cabinet_state self.old) (failing_cabinet_state self.new) buf.new result }
        ensures fails { (result ≡ Taken.Failed) ↔ (self.old.left ≡ Some 0) }
        ensures left { self.new.left ≡ left_after self.old.left result }
        ensures within { IfSome self.old.left (λ left. GotAtMost left result) }
        ensures few { GotAtMost self.old.inner.chunk result }
        ensures alike { FailsAlike self.old self.new }
    {
        match self.left {
            None => self.inner.take(buf),
            Some(0) => {
                self.count_fault();
                Taken::Failed
            }
            Some(left) => {
                let most = buf.len().min(left as usize);
                let taken = self.inner.take(&mut buf[..most]);
                if let Taken::Got(count) = taken {
                    self.left = Some(left - count as u64);
                }
                taken
            }
        }
    }
}
