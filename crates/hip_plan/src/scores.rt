ghost use Rattle.std.specs.Prelude.{◌≡◌, ◌↔◌, IsNone, [], cond, is_none, length, count_by};
ghost use Rattle.hip_externs.specs.Externs.{call_of};
ghost use Rattle.hip_tree.specs.Sites.{instr_of};
ghost use Rattle.hip_runs.specs.Found.Scores as spec;
ghost use Rattle.hip_runs.specs.Found.Scores.{operands_at};
ghost use Rattle.hip_plan.specs.Worths.{greatest, is_pointer};

use crate::worths::Worths;
use hip_externs::ExternCall;
use hip_findings::SharedFindings;
use hip_sound::Checked;
use hip_tree::{Arg, Instr, Site, instr_at};
use hip_types::Scalar;

fn is_pointer(arg: &Arg) -> bool
    ensures { result ≡ is_pointer arg.now }
{
    match arg.ty {
        Scalar::Ptr => true,
        Scalar::Int(_) => false,
    }
}

fn pointer_count(args: &[Arg]) -> usize
    ensures { result ≡ count_by is_pointer args.now }
{
    args.iter().filter(|arg| is_pointer(arg)).count()
}

/// How many pointer operands a call has; a call of an external function has none.
fn call_operand_count(callee: &[u8], args: &[Arg]) -> usize
    ensures { result ≡ cond (is_none (call_of callee.now)) (count_by is_pointer args.now) 0 }
{
    match ExternCall::named(callee) {
        Some(_) => 0,
        None => pointer_count(args),
    }
}

/// How many pointer operands the instruction at a site has.
fn operand_count(checked: &Checked, site: Site) -> usize
    ensures { result ≡ length (operands_at checked.now (instr_of checked.now site)) }
{
    match instr_at(checked.program(), site) {
        Some(Instr::Store { .. }) => 1,
        Some(Instr::Call { callee, args, .. }) => {
            call_operand_count(callee.as_slice(), args.as_slice())
        }
        _ => 0,
    }
}

/// The greater of a worth and the greatest worth so far.
fn greatest(so_far: Option<i128>, worth: i128) -> Option<i128>
    ensures { result ≡ greatest so_far worth }
{
    match so_far {
        Some(best) if best >= worth => so_far,
        _ => Some(worth),
    }
}

/// The score of a site, by the worths of its operands.
pub fn score_by<W: Worths>(checked: &Checked, worths: &W, site: Site) -> Option<i128>
    ensures { result ≡ spec.score checked.now (W.found worths.now) site }
{
    let mut score = None;
    'each: for operand in 0..operand_count(checked, site) {
        score = greatest(score, worths.worth(site, operand));
    }
    score
}

/// The score of a site: the greatest worth of its pointer operands. None exactly if it has no pointer operand.
///
/// It takes no memory, and goes through all marks once for each pointer operand of the site.
pub fn score(checked: &Checked, findings: &SharedFindings, site: Site) -> Option<i128>
    ensures is { result ≡ spec.score checked.now findings.now site }
    ensures none { IsNone result ↔ (operands_at checked.now (instr_of checked.now site) ≡ []) }
{
    score_by(checked, findings, site)
}
