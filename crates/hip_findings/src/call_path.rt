ghost use Rattle.std.specs.Prelude.{◌≡◌, ◌+◌, [], ◌∷◌, drop, length, slice_get, IfOk};
ghost use Rattle.std.specs.Iterator.{YieldsFirst, item_count};
ghost use Rattle.hip_findings.specs.CallPaths.{call_sites, closed_by, is_birth};

use hip_tree::Site;
use hip_types::NoMemory;
use std::alloc::Global;
use std::marker::Model;
use std::rc::Rc;

/// The calls that a frame is in, from its own call outward; contracts see the list of them. The frames of the stack,
/// and the stores that were made in them, share the nodes of the calls that they have in common.
#[cycle(call_path)]
pub struct CallPath {
    link: CallLink,
}

#[cycle(call_path)]
enum CallLink {
    End,
    // A call: its site, how many steps were taken before it, the number of calls from it outward, and the calls outside
    // of it.
    Call {
        site: Site,
        birth: u128,
        count: usize,
        outer: Rc<CallPath>,
    },
}

impl Model for CallPath {
    ghost use Rattle.std.specs.Prelude.{List, length};
    ghost use Rattle.hip_runs.specs.State.{Level};

    ghost Value = { List Level };

    ghost use Rattle.hip_findings.specs.CallPaths.{levels_in, HasCount};

    ghost view = { λ p. levels_in p.link };

    ghost invariant = { λ p. HasCount p.link };

    ghost size = { length };

    ghost use Rattle.std.proofs.Common.{arith};

    ghost size_decreases = { λ a h. Prim.grind arith };
}

// A loop, since a path may have 16,383 calls.
impl Drop for CallPath {
    fn drop(mut self) {
        loop {
            match self {
                CallPath {
                    link: CallLink::End,
                } => return,
                CallPath {
                    link: CallLink::Call {
                        site: _,
                        birth: _,
                        count: _,
                        outer,
                    },
                } => match Rc::into_inner(outer) {
                    None => return,
                    Some(path) => self = path,
                },
            }
        }
    }
}

impl CallPath {
    /// No calls.
    pub fn none(alloc: Global) -> Result<Rc<CallPath>, NoMemory>
        ensures { IfOk result (λ path. path.value ≡ []) }
    {
        match Rc::new(
            alloc,
            CallPath {
                link: CallLink::End,
            },
        ) {
            Ok(path) => Ok(path),
            Err(_) => Err(NoMemory),
        }
    }

    /// The calls of a path, and one more call inside of them; `count` calls in all.
    pub fn inside(
        alloc: Global,
        site: Site,
        birth: u128,
        count: usize,
        outer: Rc<CallPath>,
    ) -> Result<Rc<CallPath>, NoMemory>
        requires { count ≡ length outer.value + 1 }
        ensures { IfOk result (λ path. path.value ≡ record { call = site; birth = birth } ∷ outer.value) }
    {
        let link = CallLink::Call {
            site,
            birth,
            count,
            outer,
        };
        match Rc::new(alloc, CallPath { link }) {
            Ok(path) => Ok(path),
            Err(_) => Err(NoMemory),
        }
    }

    /// The same calls, in the same nodes.
    pub fn shared(path: &Rc<CallPath>) -> Result<Rc<CallPath>, NoMemory>
        ensures { IfOk result (λ copy. copy.value ≡ path.now.value) }
    {
        match path.clone() {
            Ok(path) => Ok(path),
            Err(_) => Err(NoMemory),
        }
    }

    /// The calls without the innermost one.
    pub fn outside(path: &Rc<CallPath>) -> Result<Rc<CallPath>, NoMemory>
        ensures { IfOk result (λ rest. rest.value ≡ drop 1 path.now.value) }
    {
        match &path.link {
            CallLink::End => CallPath::shared(path),
            CallLink::Call { outer, .. } => CallPath::shared(outer),
        }
    }

    /// The number of calls.
    pub fn len(&self) -> usize
        ensures { result ≡ length self.now }
    {
        match &self.link {
            CallLink::End => 0,
            CallLink::Call { count, .. } => *count,
        }
    }

    /// How many of the calls have returned; these are the innermost ones. The births are those of the standing calls,
    /// the outermost one first. If there are standing calls, the time is linear in the number of returned calls.
    #[tactic(auto, using(crate::proofs::Returned::all_returned))]
    pub fn closed(&self, births: &[u128]) -> usize
        ensures { result ≡ closed_by births.now self.now }
    {
        let count = self.len();
        if births.is_empty() {
            return count;
        }
        let mut closed = 0;
        let mut rest = self;
        'calls: while let CallLink::Call {
            site: _,
            birth,
            count,
            outer,
        } = &rest.link
        {
            if is_standing(births, *count - 1, *birth) {
                return closed;
            }
            closed += 1;
            rest = outer;
        }
        closed
    }

    /// The sites of the calls, the innermost one first.
    pub fn sites(&self) -> CallSites<'_>
        ensures { result ≡ call_sites self.now }
    {
        CallSites { calls: self }
    }
}

// Whether the standing call at a depth has this birth.
fn is_standing(births: &[u128], depth: usize, birth: u128) -> bool
    ensures { result ≡ is_birth birth (slice_get births.now depth) }
{
    match births.get(depth) {
        Some(born) => *born == birth,
        None => false,
    }
}

/// The sites of calls, the innermost one first. Contracts see the list of those that are left.
#[derive(Drop)]
pub struct CallSites<'a> {
    calls: &'a CallPath,
}

impl<'a> Model for CallSites<'a> {
    ghost use Rattle.std.specs.Prelude.{List};
    ghost use Rattle.hip_tree.specs.declared.site.Site.{Site};

    ghost Value = { List Site };

    ghost use Rattle.hip_findings.specs.CallPaths.{call_sites};

    ghost view = { λ s. call_sites s.calls.now };
}

impl<'a> Iterator for CallSites<'a> {
    type Item = Site;

    ghost next_gives = { YieldsFirst (λ s. s) };

    ghost remaining = { item_count (λ s. s) };

    fn next(&mut self) -> Option<Site> {
        let calls: &'a CallPath = self.calls;
        match &calls.link {
            CallLink::End => None,
            CallLink::Call { site, outer, .. } => {
                self.calls = outer;
                Some(*site)
            }
        }
    }
}
