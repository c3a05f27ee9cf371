ghost use Rattle.std.specs.Prelude.{◌≡◌, ◌↔◌, IsTrue};
ghost use Rattle.std.specs.List.{list_all};
ghost use Rattle.hip_tree.specs.Sites.{instr_of};
ghost use Rattle.hip_externs.specs.Externs.{call_of};
ghost use Rattle.hip_runs.specs.Sites.{is_flush_call, is_store, only_flushes};
ghost use Rattle.hip_repairs.specs.Suits as spec;
ghost use Rattle.hip_repairs.specs.Suits.{IsSuiting, site_before};
ghost use Rattle.hip_fix.specs.SuitsTest as test;
ghost use Rattle.hip_fix.specs.SuitsTest.{begins_with, calls_defined, fences_pass};

use hip_externs::ExternCall;
use hip_repairs::Plan;
use hip_sound::Checked;
use hip_tree::{Instr, Program, Site, instr_at};

fn is_before(a: Site, b: Site) -> bool
    ensures { result ≡ site_before a b }
{
    a < b
}

/// Whether a site is before the first of the others. True if there are none.
fn is_before_first(site: Site, others: &[Site]) -> bool
    ensures { result ≡ test.is_before_first site others.now }
{
    match others {
        [] => true,
        [first, ..] => is_before(site, *first),
    }
}

/// Whether each site is before the next.
fn is_ascending(sites: &[Site]) -> bool
    ensures { result ≡ spec.is_ascending sites.now }
{
    let mut rest = sites;
    'each: while let [first, others @ ..] = rest {
        if !is_before_first(*first, others) {
            return false;
        }
        rest = others;
    }
    true
}

/// The rest of a list of sites, without the first ones that are before a site.
fn not_before(sites: &[Site], site: Site) -> &[Site]
    ensures { result.now ≡ test.not_before site sites.now }
{
    let mut rest = sites;
    'each: while let [first, others @ ..] = rest {
        if !is_before(*first, site) {
            return rest;
        }
        rest = others;
    }
    rest
}

fn begins_with(sites: &[Site], site: Site) -> bool
    ensures { result ≡ begins_with sites.now site }
{
    match sites {
        [] => false,
        [first, ..] => site == *first,
    }
}

fn is_store_at(program: &Program, site: Site) -> bool
    ensures { result ≡ is_store (instr_of program.now site) }
{
    match instr_at(program, site) {
        Some(Instr::Store { .. }) => true,
        _ => false,
    }
}

fn only_flushes(name: &[u8]) -> bool
    ensures { result ≡ only_flushes (call_of name.now) }
{
    match ExternCall::named(name) {
        Some(call) => call.is_flush() && !call.is_fence(),
        None => false,
    }
}

fn is_flush_at(program: &Program, site: Site) -> bool
    ensures { result ≡ is_flush_call (instr_of program.now site) }
{
    match instr_at(program, site) {
        Some(Instr::Call { callee, .. }) => only_flushes(callee.as_slice()),
        _ => false,
    }
}

/// Whether the instruction at the site is a call of a function that is not external.
fn is_call_at(program: &Program, site: Site) -> bool
    ensures { result ≡ calls_defined (instr_of program.now site) }
{
    match instr_at(program, site) {
        Some(Instr::Call { callee, .. }) => ExternCall::named(callee.as_slice()).is_none(),
        _ => false,
    }
}

fn are_stores(program: &Program, sites: &[Site]) -> bool
    ensures { result ≡ list_all (λ s. is_store (instr_of program.now s)) sites.now }
{
    sites.iter().all(|site| is_store_at(program, *site))
}

fn are_calls(program: &Program, sites: &[Site]) -> bool
    ensures { result ≡ list_all (λ s. calls_defined (instr_of program.now s)) sites.now }
{
    sites.iter().all(|site| is_call_at(program, *site))
}

/// Whether each fenced site is a flush call or a flushed site. Both lists ascend.
fn are_flushes(program: &Program, flush_after: &[Site], fence_after: &[Site]) -> bool
    ensures { result ≡ fences_pass program.now flush_after.now fence_after.now }
{
    let mut rest = flush_after;
    'each: for site in fence_after {
        rest = not_before(rest, *site);
        if !is_flush_at(program, *site) && !begins_with(rest, *site) {
            return false;
        }
    }
    true
}

fn ascend(plan: &Plan) -> bool
    ensures { result ≡ test.ascend plan.now }
{
    is_ascending(plan.flush_after.as_slice())
        && is_ascending(plan.fence_after.as_slice())
        && is_ascending(plan.hoist.as_slice())
}

fn passes(program: &Program, plan: &Plan) -> bool
    ensures { result ≡ test.passes program.now plan.now }
{
    let flushes = plan.flush_after.as_slice();
    ascend(plan)
        && are_stores(program, flushes)
        && are_flushes(program, flushes, plan.fence_after.as_slice())
        && are_calls(program, plan.hoist.as_slice())
}

/// Whether a plan suits a program: flushes go after stores; fences go after flush calls, and after stores that get a
/// flush; the hoisted calls are calls of defined functions; each list is strictly ascending. It takes no memory, and
/// time linear in the plan.
pub fn suits(checked: &Checked, plan: &Plan) -> bool
    ensures { IsTrue result ↔ IsSuiting checked.now plan.now }
{
    passes(checked.program(), plan)
}
