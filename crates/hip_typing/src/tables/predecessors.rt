ghost use Rattle.std.specs.Prelude.{◌≡◌, [], ◌∷◌, None, OnOk, IfOk};
ghost use Rattle.std.specs.Option.{option_copied};
ghost use Rattle.hip_typing.specs.Seen.Arrivals.{names_at, found_at, Arrives, FindsPredecessors};
ghost use Rattle.hip_sound.specs.Registers.{end_labels};
ghost use Rattle.hip_typing.specs.Seen.TargetsSeen.{label_seen, case_labels};

use crate::places::targets::EndLabels;
use hip_names::NameSet;
use hip_tree::{Block, Case};
use hip_types::{Name, NoMemory};
use indexmap::IndexMap;
use std::alloc::Global;

/// The predecessors of each block of a function, by its label.
#[derive(Drop)]
pub struct Predecessors<'a> {
    pub sets: IndexMap<&'a [u8], NameSet<'a>>,
}

impl<'a> Predecessors<'a> {
    /// The labels of the blocks whose end names the label; none if no end names it.
    fn get(&self, label: &[u8]) -> Option<&NameSet<'a>>
        ensures { option_copied result ≡ found_at self.now.sets label.now }
    {
        self.sets.get(label)
    }

    /// The labels of the blocks whose end names the label; if there are none, the empty set that is passed.
    pub fn at<'b>(&'b self, label: &[u8], nobody: &'b NameSet<'a>) -> &'b NameSet<'a>
        requires { nobody.now ≡ [] }
        ensures { result.now ≡ names_at self.now.sets label.now }
    {
        self.get(label).unwrap_or(nobody)
    }

    /// Adds the first block that leads to the label.
    fn add_first(&mut self, alloc: Global, label: &'a [u8], from: &'a [u8]) -> Result<(), NoMemory>
        requires { found_at self.old.sets label.now ≡ None }
        ensures { OnOk result (Arrives self.old.sets self.new.sets (label.now ∷ []) from.now) }
    {
        let mut set = NameSet::new(alloc);
        let _is_new = set.insert(from)?;
        let _replaced = self.sets.insert(label, set)?;
        Ok(())
    }

    /// Adds a block whose end names a label.
    fn add(&mut self, alloc: Global, label: &'a [u8], from: &'a [u8]) -> Result<(), NoMemory>
        ensures { OnOk result (Arrives self.old.sets self.new.sets (label.now ∷ []) from.now) }
    {
        match self.sets.get_mut(label) {
            Some(set) => {
                let _is_new = set.insert(from)?;
                Ok(())
            }
            None => self.add_first(alloc, label, from),
        }
    }

    fn add_target(
        &mut self,
        alloc: Global,
        target: Option<&'a Name>,
        from: &'a [u8],
    ) -> Result<(), NoMemory>
        ensures { OnOk result (Arrives self.old.sets self.new.sets (label_seen target.entry) from.now) }
    {
        match target {
            Some(label) => self.add(alloc, label.as_slice(), from),
            None => Ok(()),
        }
    }

    fn add_cases(
        &mut self,
        alloc: Global,
        cases: &'a [Case],
        from: &'a [u8],
    ) -> Result<(), NoMemory>
        ensures { OnOk result (Arrives self.old.sets self.new.sets (case_labels cases.now) from.now) }
    {
        'each: for case in cases {
            self.add(alloc, case.label.as_slice(), from)?;
        }
        Ok(())
    }

    /// Adds a block to the predecessors of each block that its end names.
    fn add_block(&mut self, alloc: Global, block: &'a Block) -> Result<(), NoMemory>
        ensures { OnOk result (Arrives self.old.sets self.new.sets (end_labels block.now.end) block.now.label) }
    {
        let targets = EndLabels::of_end(&block.end);
        let from = block.label.as_slice();
        self.add_target(alloc, targets.first, from)?;
        self.add_target(alloc, targets.second, from)?;
        self.add_cases(alloc, targets.cases, from)?;
        Ok(())
    }
}

/// The predecessors of each block: the blocks whose end names it.
pub fn predecessors_of(alloc: Global, blocks: &[Block]) -> Result<Predecessors<'_>, NoMemory>
    ensures { IfOk result (λ found. FindsPredecessors found.sets blocks.now) }
{
    let mut found = Predecessors {
        sets: IndexMap::new(alloc),
    };
    'each: for block in blocks {
        found.add_block(alloc, block)?;
    }
    Ok(found)
}
