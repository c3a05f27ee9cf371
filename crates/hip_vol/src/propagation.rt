ghost use Rattle.std.specs.Prelude.{◌≡◌, ◌<◌, ◌≤◌, length, IfOk, OnOk};
ghost use Rattle.hip_runs.specs.StoredParts.Parts.{In};
ghost use Rattle.hip_vol.specs.Numbered.{AreMetBy, AreWithin, HasRisen, IsBelowAll, at, room, swept, tried};

use crate::numbered::{Least, LevelRule, raise};
use hip_types::{NoMemory, Row};
use std::alloc::Global;

/// For each variable the last rule that depends on it, and for each rule the rule before it that depends on the same
/// variable. The first rule of a chain names itself.
#[derive(Drop)]
struct Chains {
    last: Vec<usize>,
    before: Vec<usize>,
}

impl Chains {
    /// Empty chains for `count` variables.
    fn new(alloc: Global, count: usize) -> Result<Chains, NoMemory> {
        Ok(Chains {
            last: vec![in alloc; usize::MAX; count]?,
            before: Vec::new(alloc),
        })
    }

    /// Appends the next rule to its chain.
    fn add(&mut self, rule: LevelRule) -> Result<(), NoMemory> {
        let number = self.before.len();
        let mut earlier = number;
        if let Least::AtOffset { variable, .. } = rule.least {
            if let Some(last) = self.last.get_mut(variable) {
                earlier = number.min(*last);
                *last = number;
            }
        }
        self.before.push(earlier)?;
        Ok(())
    }

    /// The last rule that depends on a variable.
    fn last(&self, variable: usize) -> usize {
        self.last.get(variable).copied().unwrap_or(usize::MAX)
    }

    /// The rule before another that depends on the same variable.
    fn before(&self, rule: usize) -> usize {
        self.before.get(rule).copied().unwrap_or(usize::MAX)
    }
}

fn chains_of(alloc: Global, rules: &[LevelRule], count: usize) -> Result<Chains, NoMemory> {
    let mut chains = Chains::new(alloc, count)?;
    for rule in rules {
        chains.add(*rule)?;
    }
    Ok(chains)
}

/// Raises the variable of a rule, and puts it into the queue if it rose.
fn raise_and_note(
    levels: &mut [u8],
    all: &[LevelRule],
    rule: LevelRule,
    queue: &mut Row<usize>,
) -> Result<bool, NoMemory>
    requires within { AreWithin (length levels.old) all.now }
    requires one { In rule all.now }
    requires below { IsBelowAll all.now levels.old }
    ensures below { OnOk result (IsBelowAll all.now levels.new) }
    ensures tried { IfOk result (λ rose. tried rose levels.old levels.new rule) }
    ensures risen { OnOk result (HasRisen queue.old levels.old queue.new levels.new) }
{
    let rose = raise(levels, rule);
    if rose {
        queue.push(rule.variable)?;
    }
    Ok(rose)
}

/// Applies each rule once, and answers whether any variable rose.
fn sweep(levels: &mut [u8], rules: &[LevelRule], queue: &mut Row<usize>) -> Result<bool, NoMemory>
    requires within { AreWithin (length levels.old) rules.now }
    requires below { IsBelowAll rules.now levels.old }
    ensures below { OnOk result (IsBelowAll rules.now levels.new) }
    ensures swept { IfOk result (λ rose. swept rose levels.old levels.new rules.now) }
{
    let mut rose = false;
    'each: for rule in rules {
        if raise_and_note(levels, rules, *rule, queue)? {
            rose = true;
        }
    }
    Ok(rose)
}

/// Applies the rules that depend on a variable again.
fn follow(
    levels: &mut [u8],
    rules: &[LevelRule],
    chains: &Chains,
    variable: usize,
    queue: &mut Row<usize>,
) -> Result<(), NoMemory>
    requires within { AreWithin (length levels.old) rules.now }
    requires below { IsBelowAll rules.now levels.old }
    ensures below { OnOk result (IsBelowAll rules.now levels.new) }
    ensures risen { OnOk result (HasRisen queue.old levels.old queue.new levels.new) }
{
    let mut next = chains.last(variable);
    'chain: while next < rules.len() {
        let _rose = raise_and_note(levels, rules, rules[next], queue)?;
        let before = chains.before(next);
        if before >= next {
            return Ok(());
        }
        next = before;
    }
    Ok(())
}

/// Applies the rules that depend on a variable in the queue again, until the queue is empty.
fn propagate(
    levels: &mut [u8],
    rules: &[LevelRule],
    chains: &Chains,
    queue: &mut Row<usize>,
) -> Result<(), NoMemory>
    requires within { AreWithin (length levels.old) rules.now }
    requires below { IsBelowAll rules.now levels.old }
    ensures below { OnOk result (IsBelowAll rules.now levels.new) }
    ensures less { OnOk result (room levels.new ≤ room levels.old) }
{
    'queued: while let Some(variable) = queue.pop() {
        follow(levels, rules, chains, variable, queue)?;
    }
    Ok(())
}

/// Raises the variables until each rule is met.
fn settle(
    levels: &mut [u8],
    rules: &[LevelRule],
    chains: &Chains,
    queue: &mut Row<usize>,
) -> Result<(), NoMemory>
    requires within { AreWithin (length levels.old) rules.now }
    requires below { IsBelowAll rules.now levels.old }
    ensures below { OnOk result (IsBelowAll rules.now levels.new) }
    ensures met { OnOk result (AreMetBy (at levels.new) rules.now) }
{
    'sweeps: while sweep(levels, rules, queue)? {
        propagate(levels, rules, chains, queue)?;
    }
    Ok(())
}

/// The least levels of `count` variables that meet the rules.
///
/// A variable that rises is put into a queue, and the rules that depend on it are applied again. It rises at most 33
/// times, so the time is linear in the rules times 33 at most. A last sweep over all rules finds each of them met.
pub fn solve(alloc: Global, rules: &[LevelRule], count: usize) -> Result<Row<u8>, NoMemory>
    requires { AreWithin count rules.now }
    ensures count { IfOk result (λ levels. length levels ≡ count) }
    ensures below { IfOk result (λ levels. IsBelowAll rules.now levels) }
    ensures met { IfOk result (λ levels. AreMetBy (at levels) rules.now) }
{
    let chains = chains_of(alloc, rules, count)?;
    let mut levels = vec![in alloc; 0; count]?;
    let mut queue = Row::new(alloc);
    settle(levels.as_mut_slice(), rules, &chains, &mut queue)?;
    Ok(Row::from_vec(levels))
}
