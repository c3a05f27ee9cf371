ghost use Rattle.std.specs.Prelude.{◌≡◌, ◌+◌, ◌++◌, ◌∷◌, ℕ, [], None, Some, slice_get, IfOk, IfSome, IsTrue, OnOk};
ghost use Rattle.hip_runner.specs.OpsAhead.{PointsTo};
ghost use Rattle.hip_runner.specs.Quiet.{next_event};
ghost use Rattle.hip_runs.specs.Found.Marks.{mark_of};
ghost use Rattle.hip_runs.specs.Found.Objects.{global_at, object_at};
ghost use Rattle.hip_runs.specs.Seen.{next_site, pointer_of, state_of};
ghost use Rattle.hip_ledger.specs.MetMarks.{AreMet};
ghost use Rattle.hip_ledger.specs.Sights.{AddAlike, AddUnlessEnded, mark_by, marks_ahead};
ghost use Rattle.hip_report.specs.BeforeStep.{Sees, TellsGlobal, global_of};

use hip_ledger::{Ledger, Sought, is_recent};
use hip_runs::{Mark, Object};
use hip_step::Machine;
use hip_tree::Site;
use hip_types::{NoMemory, Row};
use std::alloc::Global;

// If a call has more pointers than this, all of them are read at once, in linear time.
const FEW_POINTERS: usize = 8;

/// An address that a pointer operand has, and the object that it points into.
#[derive(Clone, Copy)]
pub struct Target {
    pub addr: u64,
    pub object: Option<Object>,
}

/// What the pointer operands of a step point into.
#[derive(Drop)]
pub struct Pointed {
    // The marks of the step, if it does not trap. Some that are noted are left out.
    pub marks: Row<Mark>,
    // The target of the last operand, if there is one.
    pub last: Option<Target>,
}

/// What is seen of a machine before a step.
#[derive(Drop)]
pub struct Sight {
    pub ended: bool,
    pub site: Option<Site>,
    pub pointed: Pointed,
}

/// Looks at the next step. It allocates only for marks that are sought and may be new.
#[inline(always)]
pub fn look(alloc: Global, ledger: &Ledger, machine: &Machine<'_>) -> Result<Sight, NoMemory>
    requires { AreMet ledger.now.marks.keys ledger.now.recent.items }
    ensures { IfOk result (λ s. Sees machine.now.program machine.now.input (state_of machine.now) ledger.now s) }
{
    let site = machine.site();
    let pointed = pointed_if_sought(alloc, ledger, machine, site)?;
    Ok(Sight {
        ended: machine.ending().is_some(),
        site,
        pointed,
    })
}

/// Looks at a step whose marks are known or not sought: a store, a call with few pointers, or a step without a pointer
/// operand. None if a mark that is sought may be new, if a call has many pointers, or if the run has ended.
#[inline(always)]
pub fn look_quickly(alloc: Global, ledger: &Ledger, machine: &Machine<'_>) -> Option<Sight>
    requires { AreMet ledger.now.marks.keys ledger.now.recent.items }
    ensures { IfSome result (λ s. Sees machine.now.program machine.now.input (state_of machine.now) ledger.now s) }
{
    match ledger.sought {
        Sought::Reports => look_at_site(alloc, ledger, machine),
        Sought::Findings => look_at_known(alloc, ledger, machine),
    }
}

// Looks at a step; no marks are sought. None if the run has ended.
#[inline(always)]
fn look_at_site(alloc: Global, ledger: &Ledger, machine: &Machine<'_>) -> Option<Sight>
    requires { ledger.now.sought ≡ Sought.Reports }
    ensures { IfSome result (λ s. Sees machine.now.program machine.now.input (state_of machine.now) ledger.now s) }
{
    if machine.ending().is_some() {
        return None;
    }
    Some(Sight {
        ended: false,
        site: machine.site(),
        pointed: nothing_pointed(alloc),
    })
}

// Looks at a step whose marks are known. None if a mark may be new, if a call has many pointers, or if the run has
// ended.
#[inline(always)]
fn look_at_known(alloc: Global, ledger: &Ledger, machine: &Machine<'_>) -> Option<Sight>
    requires { AreMet ledger.now.marks.keys ledger.now.recent.items }
    ensures { IfSome result (λ s. Sees machine.now.program machine.now.input (state_of machine.now) ledger.now s) }
{
    match machine.store_ahead() {
        Some(store) => look_at_store(alloc, ledger, machine, store.addr),
        None => look_at_others(alloc, ledger, machine),
    }
}

// Looks at a store to an address, which is the next instruction. None if its mark may be new, or if the run has ended.
#[inline(always)]
fn look_at_store(alloc: Global, ledger: &Ledger, machine: &Machine<'_>, addr: u64) -> Option<Sight>
    requires known { AreMet ledger.now.marks.keys ledger.now.recent.items }
    requires points { PointsTo machine.now addr }
    ensures { IfSome result (λ s. Sees machine.now.program machine.now.input (state_of machine.now) ledger.now s) }
{
    if machine.ending().is_some() {
        return None;
    }
    let site = machine.site()?;
    let pointed = known_at(alloc, ledger, machine, site, addr)?;
    Some(Sight {
        ended: false,
        site: Some(site),
        pointed,
    })
}

// Looks at a step that makes no store. None if a mark of a pointer operand may be new, if the step may have many
// pointer operands, or if the run has ended.
#[inline(always)]
fn look_at_others(alloc: Global, ledger: &Ledger, machine: &Machine<'_>) -> Option<Sight>
    requires { AreMet ledger.now.marks.keys ledger.now.recent.items }
    ensures { IfSome result (λ s. Sees machine.now.program machine.now.input (state_of machine.now) ledger.now s) }
{
    if machine.ending().is_some() {
        return None;
    }
    let site = machine.site();
    if !has_known_marks(ledger, machine, site) {
        return None;
    }
    Some(Sight {
        ended: false,
        site,
        pointed: nothing_pointed(alloc),
    })
}

// Whether the next step, which is at this site, has no new mark, as far as is known.
#[inline(always)]
fn has_known_marks(ledger: &Ledger, machine: &Machine<'_>, site: Option<Site>) -> bool
    requires known { AreMet ledger.now.marks.keys ledger.now.recent.items }
    requires site { site ≡ next_site machine.now.program (state_of machine.now) }
    ensures { IsTrue result → AddAlike ledger.now.marks.keys []
        (marks_ahead machine.now.program machine.now.input (state_of machine.now)) }
{
    if !machine.may_point() {
        return true;
    }
    match site {
        Some(site) => are_known(ledger, machine, site),
        None => true,
    }
}

// Whether the instruction at a site, which is the next one, has few pointer operands, and a known mark for each of
// them.
fn are_known(ledger: &Ledger, machine: &Machine<'_>, site: Site) -> bool
    requires known { AreMet ledger.now.marks.keys ledger.now.recent.items }
    requires site { next_site machine.now.program (state_of machine.now) ≡ Some site }
    ensures { IsTrue result → AddAlike ledger.now.marks.keys []
        (marks_ahead machine.now.program machine.now.input (state_of machine.now)) }
{
    'operands: for operand in 0..FEW_POINTERS {
        match machine.pointer(operand) {
            None => return true,
            Some(addr) => {
                if !is_known(ledger, site, operand, machine.object_at(addr)) {
                    return false;
                }
            }
        }
    }
    false
}

// What one pointer operand of this value points into, without a mark. None if its mark may be new.
#[inline(always)]
fn known_at(
    alloc: Global,
    ledger: &Ledger,
    machine: &Machine<'_>,
    site: Site,
    addr: u64,
) -> Option<Pointed>
    requires { AreMet ledger.now.marks.keys ledger.now.recent.items }
    ensures marks { IfSome result (λ pointed. AddAlike ledger.now.marks.keys pointed.marks
        (mark_by machine.now.program machine.now.input (state_of machine.now) site 0 (Some addr))) }
    ensures last { IfSome result (λ pointed. TellsGlobal machine.now.program machine.now.input pointed.last) }
{
    let target = target_at(machine, addr);
    if !is_known(ledger, site, 0, target.object) {
        return None;
    }
    Some(Pointed {
        marks: Row::new(alloc),
        last: Some(target),
    })
}

// Whether an operand of the instruction at a site points into no object, or has one of the recent marks.
#[inline(always)]
fn is_known(ledger: &Ledger, site: Site, operand: usize, object: Option<Object>) -> bool
    requires { AreMet ledger.now.marks.keys ledger.now.recent.items }
    ensures { IsTrue result → AddAlike ledger.now.marks.keys [] (mark_of site operand object) }
{
    match object {
        None => true,
        Some(object) => is_recent(
            ledger.recent.as_slice(),
            Mark {
                site,
                operand,
                object,
            },
        ),
    }
}

// What the pointer operands of the next step point into, if marks are sought.
#[inline(always)]
fn pointed_if_sought(
    alloc: Global,
    ledger: &Ledger,
    machine: &Machine<'_>,
    site: Option<Site>,
) -> Result<Pointed, NoMemory>
    requires known { AreMet ledger.now.marks.keys ledger.now.recent.items }
    requires site { site ≡ next_site machine.now.program (state_of machine.now) }
    ensures marks { IfOk result (λ pointed. ledger.now.sought ≡ Sought.Findings →
        AddUnlessEnded (next_event machine.now) ledger.now.marks.keys
        pointed.marks (marks_ahead machine.now.program machine.now.input (state_of machine.now))) }
    ensures last { IfOk result (λ pointed. TellsGlobal machine.now.program machine.now.input pointed.last) }
{
    match ledger.sought {
        Sought::Reports => Ok(nothing_pointed(alloc)),
        Sought::Findings => pointed_by(alloc, ledger, machine, site),
    }
}

// What the pointer operands of the next step point into.
#[inline(always)]
fn pointed_by(
    alloc: Global,
    ledger: &Ledger,
    machine: &Machine<'_>,
    site: Option<Site>,
) -> Result<Pointed, NoMemory>
    requires known { AreMet ledger.now.marks.keys ledger.now.recent.items }
    requires site { site ≡ next_site machine.now.program (state_of machine.now) }
    ensures marks { IfOk result (λ pointed. AddUnlessEnded (next_event machine.now) ledger.now.marks.keys
        pointed.marks (marks_ahead machine.now.program machine.now.input (state_of machine.now))) }
    ensures last { IfOk result (λ pointed. TellsGlobal machine.now.program machine.now.input pointed.last) }
{
    match site {
        None => Ok(nothing_pointed(alloc)),
        Some(site) => pointed_from(alloc, ledger, machine, site),
    }
}

// What the pointer operands of the instruction at a site point into. A store has one, which its op gives; for a call
// the tree is read.
#[inline(always)]
fn pointed_from(
    alloc: Global,
    ledger: &Ledger,
    machine: &Machine<'_>,
    site: Site,
) -> Result<Pointed, NoMemory>
    requires known { AreMet ledger.now.marks.keys ledger.now.recent.items }
    requires site { next_site machine.now.program (state_of machine.now) ≡ Some site }
    ensures marks { IfOk result (λ pointed. AddUnlessEnded (next_event machine.now) ledger.now.marks.keys
        pointed.marks (marks_ahead machine.now.program machine.now.input (state_of machine.now))) }
    ensures last { IfOk result (λ pointed. TellsGlobal machine.now.program machine.now.input pointed.last) }
{
    match machine.store_ahead() {
        Some(store) => pointed_at(alloc, ledger, machine, site, store.addr),
        None => all_pointed(alloc, ledger, machine, site),
    }
}

// What a step without a pointer operand points into.
#[inline(always)]
fn nothing_pointed(alloc: Global) -> Pointed
    ensures marks { result.marks ≡ [] }
    ensures last { result.last ≡ None }
{
    Pointed {
        marks: Row::new(alloc),
        last: None,
    }
}

// What one pointer operand of this value points into.
#[inline(always)]
fn pointed_at(
    alloc: Global,
    ledger: &Ledger,
    machine: &Machine<'_>,
    site: Site,
    addr: u64,
) -> Result<Pointed, NoMemory>
    requires { AreMet ledger.now.marks.keys ledger.now.recent.items }
    ensures marks { IfOk result (λ pointed. AddAlike ledger.now.marks.keys pointed.marks
        (mark_by machine.now.program machine.now.input (state_of machine.now) site 0 (Some addr))) }
    ensures last { IfOk result (λ pointed. TellsGlobal machine.now.program machine.now.input pointed.last) }
{
    let mut pointed = nothing_pointed(alloc);
    push_operand(ledger, machine, site, 0, addr, &mut pointed)?;
    Ok(pointed)
}

// What all pointer operands of the next instruction point into; its site is given.
fn all_pointed(
    alloc: Global,
    ledger: &Ledger,
    machine: &Machine<'_>,
    site: Site,
) -> Result<Pointed, NoMemory>
    requires known { AreMet ledger.now.marks.keys ledger.now.recent.items }
    requires site { next_site machine.now.program (state_of machine.now) ≡ Some site }
    ensures marks { IfOk result (λ pointed. AddAlike ledger.now.marks.keys pointed.marks
        (marks_ahead machine.now.program machine.now.input (state_of machine.now))) }
    ensures last { IfOk result (λ pointed. TellsGlobal machine.now.program machine.now.input pointed.last) }
{
    let values = machine.pointers(alloc)?;
    pointed_among(alloc, ledger, machine, site, values.as_slice())
}

// What the pointer operands with these values point into.
fn pointed_among(
    alloc: Global,
    ledger: &Ledger,
    machine: &Machine<'_>,
    site: Site,
    values: &[u64],
) -> Result<Pointed, NoMemory>
    requires known { AreMet ledger.now.marks.keys ledger.now.recent.items }
    requires site { next_site machine.now.program (state_of machine.now) ≡ Some site }
    requires values { (operand : ℕ) → slice_get values.now operand
        ≡ pointer_of machine.now.program machine.now.input (state_of machine.now) operand }
    ensures marks { IfOk result (λ pointed. AddAlike ledger.now.marks.keys pointed.marks
        (marks_ahead machine.now.program machine.now.input (state_of machine.now))) }
    ensures last { IfOk result (λ pointed. TellsGlobal machine.now.program machine.now.input pointed.last) }
{
    let mut pointed = nothing_pointed(alloc);
    let mut operand = 0;
    'operands: loop {
        match value_at(values, operand) {
            None => return Ok(pointed),
            Some(addr) => {
                push_operand(ledger, machine, site, operand, addr, &mut pointed)?;
                let next = next_number(operand)?;
                operand = next;
            }
        }
    }
}

#[inline(always)]
fn value_at(values: &[u64], operand: usize) -> Option<u64>
    ensures { result ≡ slice_get values.now operand }
{
    values.get(operand).copied()
}

// The number after this one; out of memory if there is none.
#[inline(always)]
fn next_number(operand: usize) -> Result<usize, NoMemory>
    ensures { IfOk result (λ next. next ≡ operand + 1) }
{
    match operand.checked_add(1) {
        Some(next) => Ok(next),
        None => Err(NoMemory),
    }
}

// Adds what a pointer operand of this number and value points into.
#[inline(always)]
fn push_operand(
    ledger: &Ledger,
    machine: &Machine<'_>,
    site: Site,
    operand: usize,
    addr: u64,
    pointed: &mut Pointed,
) -> Result<(), NoMemory>
    requires { AreMet ledger.now.marks.keys ledger.now.recent.items }
    ensures marks { OnOk result (AddAlike ledger.now.marks.keys pointed.new.marks
        (pointed.old.marks ++ mark_by machine.now.program machine.now.input (state_of machine.now) site operand
        (Some addr))) }
    ensures last { OnOk result (TellsGlobal machine.now.program machine.now.input pointed.new.last) }
{
    let target = target_at(machine, addr);
    pointed.last = Some(target);
    match target.object {
        None => Ok(()),
        Some(object) => push_mark(
            ledger,
            Mark {
                site,
                operand,
                object,
            },
            &mut pointed.marks,
        ),
    }
}

/// The target of an address.
#[inline(always)]
pub fn target_at(machine: &Machine<'_>, addr: u64) -> Target
    ensures object { result.object ≡ object_at machine.now.program machine.now.input.base
        (state_of machine.now).frames addr }
    ensures last { TellsGlobal machine.now.program machine.now.input (Some result) }
    ensures global { global_of result.object ≡ global_at machine.now.program machine.now.input.base addr }
{
    Target {
        addr,
        object: machine.object_at(addr),
    }
}

// Appends a mark, unless it is among the recent ones.
#[inline(always)]
fn push_mark(ledger: &Ledger, mark: Mark, marks: &mut Row<Mark>) -> Result<(), NoMemory>
    requires { AreMet ledger.now.marks.keys ledger.now.recent.items }
    ensures { OnOk result (AddAlike ledger.now.marks.keys marks.new (marks.old ++ mark ∷ [])) }
{
    if is_recent(ledger.recent.as_slice(), mark) {
        return Ok(());
    }
    marks.push(mark)
}
