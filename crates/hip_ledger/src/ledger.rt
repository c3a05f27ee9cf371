ghost use Rattle.std.specs.Prelude.{◌≡◌, ◌+◌, ◌-◌, ◌<◌, ◌^◌, Some, None, cond, true, length, nat_le, IfOk, OnOk};
ghost use Rattle.hip_types.specs.Distinct.{met};
ghost use Rattle.hip_runs.specs.Found.Marks.{same_mark, unless_ended};
ghost use Rattle.hip_runs.specs.Found.Reports.{checked_range};
ghost use Rattle.hip_runs.specs.StoredParts.Since.{fences};
ghost use Rattle.hip_runs.specs.Step.{has_entry};
ghost use Rattle.hip_ledger.specs.MetMarks.{AreMet};
ghost use Rattle.hip_ledger.specs.CallPaths.{births_of};
ghost use Rattle.hip_ledger.specs.Noted.{AreOfNoSteps, EndsBelow, Follows, IsForgotten, Reported};
ghost use Rattle.hip_ledger.specs.Pending.{StepsAscend};
ghost use Rattle.hip_ledger.specs.Regions.{IsWhole};

use crate::calls::Calls;
use crate::checks::{ByteRange, Check, check_range};
use crate::forget::forget_in;
use crate::marks::{none_recent, note_marks};
use crate::pending::{FlushNote, Pending, StoreNote};
use crate::region::Region;
use crate::sought::Sought;
use hip_findings::SharedReports;
use hip_runs::{Ending, Event, Mark};
use hip_tree::Site;
use hip_types::NoMemory;
use indexmap::IndexSet;
use std::alloc::Global;

/// What is known before a step: the site, the number of steps, and the number of the entry that the step may have.
#[derive(Clone, Copy)]
pub struct Moment {
    pub site: Option<Site>,
    pub step: u128,
    pub entry: u128,
}

// The tracker looks for notes to drop when it has at least this many stores.
const ENOUGH_STORES: usize = 4096;

/// What a tracker notes of a run.
#[derive(Drop)]
pub struct Ledger {
    pub sought: Sought,
    // The entries before the first step.
    pub header: u128,
    pub steps: u128,
    pub entries: u128,
    // The step of the last fence.
    pub fence: Option<u128>,
    // The standing calls at the last look at them.
    pub calls: Calls,
    pub pending: Pending,
    // The number of pending stores at which the tracker looks again for notes to drop.
    pub enough: usize,
    // The marks and the globals that were met, if marks are sought, and two small tables that recognise repeats without a
    // look-up.
    pub marks: IndexSet<Mark>,
    pub recent: Vec<Option<Mark>>,
    pub hit: IndexSet<usize>,
    pub flags: Vec<bool>,
    pub reports: SharedReports,
}

impl Ledger {
    /// Notes of no steps, of a run whose trace has `header` entries before the first one.
    pub fn new(alloc: Global, header: u128, sought: Sought) -> Result<Ledger, NoMemory>
        ensures { IfOk result (AreOfNoSteps header sought) }
    {
        let calls = Calls::none(alloc)?;
        let recent = none_recent(alloc)?;
        Ok(Ledger {
            sought,
            header,
            steps: 0,
            entries: header,
            fence: None,
            calls,
            pending: Pending::new(alloc),
            enough: ENOUGH_STORES,
            marks: IndexSet::new(alloc),
            recent,
            hit: IndexSet::new(alloc),
            flags: Vec::new(alloc),
            reports: SharedReports::new(alloc),
        })
    }

    /// Appends the reports of what a step with this event checks, whose entry has this number.
    #[inline(always)]
    pub fn note_check(
        &mut self,
        alloc: Global,
        event: Event,
        entry: u128,
        region: &Region<'_>,
    ) -> Result<(), NoMemory>
        requires region { IsWhole region.now }
        requires order { StepsAscend self.old.pending }
        ensures stated { OnOk result (Reported
            (checked_range region.now.base region.now.size event) (births_of self.old.calls) entry self.old.fence
            self.old.pending region.now.lines.now.lines self.old.reports self.new.reports) }
        ensures rest { OnOk result (self.new ≡ record self.old { reports = self.new.reports }) }
    {
        match event {
            Event::Assert { addr, size } => {
                let offset = addr.saturating_sub(region.base);
                self.check_within(alloc, entry, region, offset, size)
            }
            Event::End(Ending::Stop(_)) => self.check_within(alloc, entry, region, 0, region.size),
            _ => Ok(()),
        }
    }

    // The reports of a check of a range; only the part of the range in the region counts. The code of a caller stays
    // small, since this is a function of its own.
    #[inline(never)]
    fn check_within(
        &mut self,
        alloc: Global,
        entry: u128,
        region: &Region<'_>,
        offset: u64,
        size: u64,
    ) -> Result<(), NoMemory>
        requires region { IsWhole region.now }
        requires order { StepsAscend self.old.pending }
        ensures stated { OnOk result (Reported (Some
            (record { offset = offset; size = size })) (births_of self.old.calls) entry self.old.fence self.old.pending
            region.now.lines.now.lines self.old.reports self.new.reports) }
        ensures rest { OnOk result (self.new ≡ record self.old { reports = self.new.reports }) }
    {
        let from = offset.min(region.size);
        let count = size.min(region.size - from);
        let range = ByteRange {
            offset: from,
            size: count,
        };
        let check = Check {
            births: self.calls.births(),
            entry,
            fence: self.fence,
        };
        check_range(
            alloc,
            &self.pending,
            &check,
            region.lines,
            range,
            &mut self.reports,
        )
    }

    /// Notes what a step with this event does to pending stores.
    #[inline(always)]
    pub fn note_memory(
        &mut self,
        alloc: Global,
        event: Event,
        moment: Moment,
        region: &Region<'_>,
    ) -> Result<(), NoMemory>
        requires ends { EndsBelow region.now.base event }
        ensures follows { OnOk result
            (Follows event moment.site region.now.base moment.step moment.entry self.old.calls self.old.pending
            self.new.pending) }
        ensures rest { OnOk result (self.new ≡ record self.old { pending = self.new.pending }) }
    {
        match (event, moment.site) {
            (Event::Store { addr, size, .. }, Some(site)) => {
                let note = StoreNote {
                    tag: moment.step,
                    entry: moment.entry,
                    site,
                    calls: self.calls.path()?,
                };
                self.pending
                    .note_store(alloc, note, addr.saturating_sub(region.base), size as u64)
            }
            (Event::Flush { line, size }, Some(site)) => {
                let flush = FlushNote {
                    step: moment.step,
                    site,
                };
                self.pending
                    .note_flush(flush, line.saturating_sub(region.base), size)
            }
            _ => Ok(()),
        }
    }

    /// Notes the marks of a step with this event, if marks are sought.
    #[inline(always)]
    pub fn note_marks(&mut self, event: Event, ahead: &[Mark]) -> Result<(), NoMemory>
        requires { AreMet self.old.marks.keys self.old.recent.items }
        ensures marks { OnOk result (self.old.sought ≡ Sought.Findings → self.new.marks.keys
            ≡ met same_mark self.old.marks.keys (unless_ended event ahead.now)) }
        ensures known { OnOk result (AreMet self.new.marks.keys self.new.recent.items) }
        ensures rest { OnOk result (self.new ≡ record self.old { marks = self.new.marks; recent = self.new.recent }) }
    {
        match self.sought {
            Sought::Reports => Ok(()),
            Sought::Findings => match event {
                Event::End(_) => Ok(()),
                _ => note_marks(&mut self.marks, &mut self.recent, ahead),
            },
        }
    }

    /// Counts a step with this event, and notes the fence if it is one.
    #[inline(always)]
    pub fn count(&mut self, event: Event)
        requires steps { self.old.steps + 1 < 2 ^ 128 }
        requires entries { self.old.entries + 1 < 2 ^ 128 }
        ensures { self.new ≡ record self.old {
          steps = self.old.steps + 1;
          entries = cond (has_entry event) (self.old.entries + 1) self.old.entries;
          fence = cond (fences event) (Some self.old.steps) self.old.fence;
        } }
    {
        if fences(event) {
            self.fence = Some(self.steps);
        }
        if has_entry(event) {
            self.entries += 1;
        }
        self.steps += 1;
    }

    /// Whether there are at least twice as many stores as were kept last time, and enough to search for notes to drop.
    #[inline(always)]
    pub fn are_many(&self) -> bool
        ensures { result ≡ nat_le self.now.enough (length self.now.pending.stores.items) }
    {
        self.pending.stores.len() >= self.enough
    }

    /// Drops the ledger that no loose byte needs. If a caller waits until there are many notes, the cost of a search is
    /// spread over many stores, and memory does not grow with the steps.
    pub fn forget(&mut self, alloc: Global, region: &Region<'_>)
        requires region { IsWhole region.now }
        requires order { StepsAscend self.old.pending }
        ensures kept { IsForgotten region.now.lines.now.lines region.now.size self.old.pending self.new.pending }
        ensures rest { self.new ≡ record self.old { pending = self.new.pending; enough = self.new.enough } }
    {
        forget_in(alloc, &mut self.pending, region.lines, region.size);
        self.enough = enough_for(self.pending.stores.len());
    }
}

// The number of stores at which to search again, after this many were kept.
fn enough_for(kept: usize) -> usize {
    kept.saturating_mul(2).max(ENOUGH_STORES)
}

// Whether a step with this event is a fence.
fn fences(event: Event) -> bool
    ensures { result ≡ fences event }
{
    match event {
        Event::Fence => true,
        Event::Persist { .. } => true,
        _ => false,
    }
}

// Whether a step with this event has an entry in the trace.
fn has_entry(event: Event) -> bool
    ensures { result ≡ has_entry event }
{
    match event {
        Event::Quiet => false,
        Event::Print(_) => false,
        _ => true,
    }
}
