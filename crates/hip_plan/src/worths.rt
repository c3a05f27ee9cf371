ghost use Rattle.std.specs.List.{list_any};
ghost use Rattle.std.specs.Prelude.{◌≡◌, nat_eq, pos};
ghost use Rattle.hip_runs.specs.Found.Scores as spec;
ghost use Rattle.hip_runs.specs.Found.Scores.{worth, worth_in};
ghost use Rattle.hip_plan.specs.Worths.{IsLimit, added_by};
ghost use Rattle.hip_runs.specs.declared.report.Findings.{Findings};

use hip_findings::SharedFindings;
use hip_runs::{Mark, Object};
use hip_tree::Site;

/// What a run found, as a source of the worths of operands.
pub trait Worths {
    ghost found: { Self → Findings };

    /// The worth of a pointer operand of a site, by its number: how many marked objects it pointed into, less how many
    /// other objects.
    fn worth(&self, site: Site, operand: usize) -> i128
        ensures { result ≡ worth (found self.now).marks site operand };

    /// A number that no worth exceeds.
    fn limit(&self) -> i128
        ensures { IsLimit (found self.now).marks result };
}

/// Findings go through all their marks for each operand, and take no memory.
impl Worths for SharedFindings {
    ghost found = { λ f. f };

    fn worth(&self, site: Site, operand: usize) -> i128 {
        worth_by(
            self.marks().hit.as_slice(),
            self.marks().pointed.as_slice(),
            site,
            operand,
        )
    }

    fn limit(&self) -> i128 {
        self.marks().pointed.len() as i128
    }
}

fn is_hit(hit: &[usize], global: usize) -> bool
    ensures { result ≡ list_any (nat_eq global) hit.now }
{
    hit.contains(&global)
}

/// Whether the object is a persistent global that was stored into.
fn is_marked(hit: &[usize], object: Object) -> bool
    ensures { result ≡ spec.is_marked hit.now object }
{
    match object {
        Object::Global(global) => is_hit(hit, global),
        Object::Slot(_) => false,
    }
}

/// What an object adds to a worth.
pub fn worth_of(is_marked: bool) -> i128
    ensures { result ≡ spec.worth_of is_marked }
{
    if is_marked { 1 } else { -1 }
}

/// What a mark adds to the worth of an operand; 0 if it is of another operand.
fn added_by(hit: &[usize], mark: &Mark, site: Site, operand: usize) -> i128
    ensures { result ≡ added_by hit.now mark.now site operand }
{
    if mark.site == site && mark.operand == operand {
        worth_of(is_marked(hit, mark.object))
    } else {
        0
    }
}

fn worth_by(hit: &[usize], pointed: &[Mark], site: Site, operand: usize) -> i128
    ensures { result ≡ worth_in hit.now site operand pointed.now (pos 0) }
{
    let mut sum = 0i128;
    'each: for mark in pointed {
        sum += added_by(hit, mark, site, operand);
    }
    sum
}
