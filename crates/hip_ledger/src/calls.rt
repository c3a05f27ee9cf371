ghost use Rattle.std.specs.Prelude.{◌≡◌, ◌+◌, [], ◌∷◌, drop, length, option_map, slice_get, IfOk, OnOk};
ghost use Rattle.hip_ledger.specs.CallPaths.{births_of};

use hip_findings::CallPath;
use hip_tree::Site;
use hip_types::NoMemory;
use std::alloc::Global;
use std::marker::Model;
use std::rc::Rc;

/// Calls that were on the stack together; contracts see the list of them, the innermost one first. Stores share the
/// nodes of the calls that they have in common.
#[derive(Drop)]
pub struct Calls {
    path: Rc<CallPath>,
    // How many steps were taken before each of them, the outermost one first.
    births: Vec<u128>,
}

impl Model for Calls {
    ghost use Rattle.std.specs.Prelude.{List};
    ghost use Rattle.hip_runs.specs.State.{Level};
    ghost use Rattle.hip_ledger.specs.CallPaths.{HaveBirths};

    ghost Value = { List Level };

    ghost view = { λ c. c.path.value };

    ghost invariant = { HaveBirths };
}

impl Calls {
    /// No calls.
    pub fn none(alloc: Global) -> Result<Calls, NoMemory>
        ensures { IfOk result (λ calls. calls ≡ []) }
    {
        let path = CallPath::none(alloc)?;
        Ok(Calls {
            path,
            births: Vec::new(alloc),
        })
    }

    /// The number of calls.
    #[inline(always)]
    #[tactic(auto, using(crate::proofs::CallBirths::length_births))]
    pub fn count(&self) -> usize
        ensures { result ≡ length self.now }
    {
        self.births.len()
    }

    /// How many steps were taken before the innermost one. None exactly if there is no call.
    #[inline(always)]
    #[tactic(auto, using(crate::proofs::CallBirths::last_birth))]
    pub fn last_birth(&self) -> Option<u128>
        ensures { result ≡ option_map (λ l. l.birth) (slice_get self.now 0) }
    {
        self.births.last().copied()
    }

    /// How many steps were taken before each of them, the outermost one first.
    #[inline(always)]
    pub fn births(&self) -> &[u128]
        ensures { result.now ≡ births_of self.now }
    {
        self.births.as_slice()
    }

    /// The same calls, in nodes.
    #[inline(always)]
    pub fn path(&self) -> Result<Rc<CallPath>, NoMemory>
        ensures { IfOk result (λ path. path.value ≡ self.now) }
    {
        CallPath::shared(&self.path)
    }

    /// One more call, inside of the others.
    #[tactic(auto, using(crate::proofs::CallBirths::length_births))]
    pub fn enter(&mut self, alloc: Global, site: Site, birth: u128) -> Result<(), NoMemory>
        ensures { OnOk result (self.new ≡ record { call = site; birth = birth } ∷ self.old) }
    {
        let standing = self.births.len() + 1;
        let outer = CallPath::shared(&self.path)?;
        let inner = CallPath::inside(alloc, site, birth, standing, outer)?;
        self.births.push(birth)?;
        self.path = inner;
        Ok(())
    }

    /// The calls without the innermost one.
    #[tactic(auto, using(crate::proofs::CallBirths::births_drop))]
    pub fn leave(&mut self) -> Result<(), NoMemory>
        ensures { OnOk result (self.new ≡ drop 1 self.old) }
    {
        let outer = CallPath::outside(&self.path)?;
        let count = self.births.len().saturating_sub(1);
        self.births.truncate(count);
        self.path = outer;
        Ok(())
    }
}
