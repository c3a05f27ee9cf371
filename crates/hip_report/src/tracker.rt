ghost use Rattle.std.specs.Prelude.{◌≡◌, ◌⊎◌, ◌≤◌, ◌<◌, ◌^◌, Some, None, true, false, IfOk, OnErr, OnOk, IsErr};
ghost use Rattle.hip_runner.specs.Quiet.{ComesTo};
ghost use Rattle.hip_runs.specs.Ends.{longest};
ghost use Rattle.hip_runs.specs.Step.{event, has_ended, header_entries};
ghost use Rattle.hip_runs.specs.Seen.{after_step, state_of};
ghost use Rattle.hip_ledger.specs.Noted.{IsLedger};
ghost use Rattle.hip_ledger.specs.SoughtFindings.{Finds};
ghost use Rattle.hip_report.specs.StepsToEvent.{StopsShort};
ghost use Rattle.hip_report.specs.BeforeStep.{TakesStep};
ghost use Rattle.hip_report.specs.TrackerView.{HasNoted, HasLedger, IsSource, MayAdvance, MayNote};

use crate::plain_steps::{is_quiet, pass_steps};
use crate::single_steps::{step_generally, take_step};
use hip_findings::SharedFindings;
use hip_ledger::{Ledger, Sought, globals_of, marks_of};
use hip_runs::{Event, Input, Marks, longest};
use hip_sound::Checked;
use hip_step::Machine;
use hip_types::NoMemory;
use std::alloc::Global;
use std::marker::Model;

/// The program and the input of the run that is noted.
#[derive(Clone, Copy)]
pub struct NotedRun<'a> {
    pub checked: &'a Checked,
    pub input: &'a Input,
}

/// A tracker of one run; contracts see the machine whose steps it noted, the number of entries before the first step,
/// what is sought, and whether it ran out of memory. It keeps the stores that may still be reported, and shares the calls that they
/// have in common.
#[derive(Drop)]
pub struct Tracker<'a> {
    alloc: Global,
    source: Option<NotedRun<'a>>,
    ledger: Ledger,
    failed: bool,
}

impl<'a> Model for Tracker<'a> {
    ghost use Rattle.hip_tree.specs.contracts.program.Program as programs;
    ghost use Rattle.hip_report.specs.TrackerView.{Tracked};
    ghost use Rattle.std.specs.Coded.{codes};

    ghost Value = { Tracked };

    ghost coded = { Prim.hlevel (codes, programs.the_row.coded) };

    ghost use Rattle.hip_report.specs.TrackerView.{tracked_of, IsTracking};

    ghost view = { tracked_of };

    ghost invariant = { IsTracking };
}

impl<'a> Tracker<'a> {
    /// A tracker that has noted nothing, of a run whose trace has `header` entries before the first step.
    pub fn new(alloc: Global, header: u128, sought: Sought) -> Result<Tracker<'a>, NoMemory>
        requires { header ≤ 2 ^ 64 }
        ensures { IfOk result (λ t. t ≡ record { header = header; sought = sought; noted = None; failed = false }) }
    {
        Ok(Tracker {
            alloc,
            source: None,
            ledger: Ledger::new(alloc, header, sought)?,
            failed: false,
        })
    }

    /// Takes the machine's step and notes it. Out of memory, the machine is as before or has taken the step, and from
    /// then on the tracker returns `NoMemory` and leaves machines as they are.
    #[inline(always)]
    pub fn advance(&mut self, machine: &mut Machine<'a>) -> Result<Event, NoMemory>
        requires { MayAdvance self.old machine.old }
        ensures event { IfOk result (λ e. e ≡ event machine.old.program machine.old.input (state_of machine.old)) }
        ensures machine { OnOk result (machine.new ≡ after_step machine.old) }
        ensures noted { OnOk result (self.new
            ≡ record { header = self.old.header; sought = self.old.sought; noted = Some machine.new; failed = false }) }
        ensures err { OnErr result ((machine.new ≡ machine.old) ⊎ (machine.new ≡ after_step machine.old)) }
        ensures failed { OnErr result (self.new.failed ≡ true) }
        ensures repeats { self.old.failed ≡ true → IsErr result × (machine.new ≡ machine.old) }
    {
        if self.failed {
            return Err(NoMemory);
        }
        match advance_in(self.alloc, &mut self.source, &mut self.ledger, machine) {
            Ok(event) => Ok(event),
            Err(_) => {
                self.failed = true;
                Err(NoMemory)
            }
        }
    }

    /// Takes the machine's steps up to the next event, and notes them. Out of memory, the machine has stopped on the
    /// way there, and from then on the tracker returns `NoMemory` and leaves machines as they are.
    pub fn next_event(&mut self, machine: &mut Machine<'a>) -> Result<Event, NoMemory>
        requires { MayAdvance self.old machine.old }
        ensures machine { IfOk result (λ e. ComesTo machine.old machine.new e) }
        ensures noted { OnOk result (self.new
            ≡ record { header = self.old.header; sought = self.old.sought; noted = Some machine.new; failed = false }) }
        ensures err { OnErr result (StopsShort machine.old machine.new) }
        ensures failed { OnErr result (self.new.failed ≡ true) }
        ensures repeats { self.old.failed ≡ true → IsErr result × (machine.new ≡ machine.old) }
    {
        if self.failed {
            return Err(NoMemory);
        }
        match next_event_in(self.alloc, &mut self.source, &mut self.ledger, machine) {
            Ok(event) => Ok(event),
            Err(_) => {
                self.failed = true;
                Err(NoMemory)
            }
        }
    }

    /// The findings of the run, if every step of the machine was noted, it has ended, and the header's entries are
    /// those of the run's trace. They have no marks if none are sought.
    pub fn close(self, machine: &Machine<'a>) -> Result<SharedFindings, NoMemory>
        requires noted { HasNoted self machine.now }
        requires ended { has_ended (state_of machine.now) ≡ true }
        requires header { self.header ≡ header_entries machine.now.input }
        ensures { IfOk result (λ found. Finds self.entry.sought machine.now.program machine.now.input found) }
    {
        let Tracker {
            alloc,
            mut source,
            ledger,
            ..
        } = self;
        begin(&mut source, &ledger, machine);
        let marks = marks_in(alloc, &ledger)?;
        Ok(SharedFindings::new(ledger.reports, marks))
    }
}

// The marks of the run that is noted.
fn marks_in(alloc: Global, ledger: &Ledger) -> Result<Marks, NoMemory>
    ensures pointed { IfOk result (λ marks. marks.pointed ≡ ledger.now.marks.keys) }
    ensures hit { IfOk result (λ marks. marks.hit ≡ ledger.now.hit.keys) }
{
    let pointed = marks_of(alloc, &ledger.marks)?;
    let hit = globals_of(alloc, &ledger.hit)?;
    Ok(Marks { pointed, hit })
}

// Takes a machine's program and input, if nothing was noted yet.
#[inline(always)]
fn begin<'a>(source: &mut Option<NotedRun<'a>>, ledger: &Ledger, machine: &Machine<'a>)
    requires { MayNote source.old ledger.now machine.now }
    ensures noted { IsLedger machine.now.program machine.now.input machine.now.taken ledger.now }
    ensures short { longest machine.now.program < 2 ^ 64 }
    ensures source { IsSource source.new machine.now }
{
    match source {
        Some(_) => {}
        None => {
            let checked = machine.checked();
            // Lemma: the program's longest block is below 2^64.
            let _most = longest(checked.program());
            *source = Some(NotedRun {
                checked,
                input: machine.input(),
            });
        }
    }
}

// Takes a machine's step and notes it.
#[inline(always)]
fn advance_in<'a>(
    alloc: Global,
    source: &mut Option<NotedRun<'a>>,
    ledger: &mut Ledger,
    machine: &mut Machine<'a>,
) -> Result<Event, NoMemory>
    requires { MayNote source.old ledger.old machine.old }
    ensures ok { IfOk result (λ e. TakesStep machine.old machine.new e) }
    ensures noted { OnOk result (HasLedger source.new ledger.new machine.new) }
    ensures header { OnOk result (ledger.new.header ≡ ledger.old.header) }
    ensures sought { OnOk result (ledger.new.sought ≡ ledger.old.sought) }
    ensures err { OnErr result ((machine.new ≡ machine.old) ⊎ (machine.new ≡ after_step machine.old)) }
{
    begin(source, ledger, machine);
    step_generally(alloc, ledger, machine)
}

// Takes a machine's steps up to the next event and notes them.
fn next_event_in<'a>(
    alloc: Global,
    source: &mut Option<NotedRun<'a>>,
    ledger: &mut Ledger,
    machine: &mut Machine<'a>,
) -> Result<Event, NoMemory>
    requires { MayNote source.old ledger.old machine.old }
    ensures ok { IfOk result (λ e. ComesTo machine.old machine.new e) }
    ensures noted { OnOk result (HasLedger source.new ledger.new machine.new) }
    ensures header { OnOk result (ledger.new.header ≡ ledger.old.header) }
    ensures sought { OnOk result (ledger.new.sought ≡ ledger.old.sought) }
    ensures err { OnErr result (StopsShort machine.old machine.new) }
{
    begin(source, ledger, machine);
    'steps: loop {
        pass_steps(ledger, machine);
        let event = take_step(alloc, ledger, machine)?;
        if !is_quiet(event) {
            return Ok(event);
        }
    }
}
