//! A log of what a crash may leave in the region.

ghost use Rattle.std.specs.Prelude.{◌≡◌, ◌-◌, ◌*◌, ◌<◌, ◌≤◌, ℕ, List, None, drop, length, take, true, IfErr, IfOk, IsOk, MatchOption, OnErr, OnOk};
ghost use Rattle.hip_runs.specs.Step.{event, has_ended};
ghost use Rattle.hip_runs.specs.Validity.{IsValid};
ghost use Rattle.hip_crash.specs.Numbers.{AreNumbers, IsBetween, IsNumberOf, number_in};
ghost use Rattle.hip_crash.specs.Picks.{ArePicksOf, IsRefusal, bounds_of, failure, first_failure, number_or, picked, range_failure};
ghost use Rattle.hip_types.specs.declared.pick.Pick.{Pick};
ghost use Rattle.hip_types.specs.declared.areas.TheConstants.{LINE_SIZE};
ghost use Rattle.hip_runs.specs.Crash.{IsCrashImage, crash_image};
ghost use Rattle.hip_runs.specs.Seen.{after_step, state_of};

use crate::effects::note;
use crate::entry_counts::{count_header, is_counted, is_end};
use crate::region_log::RegionLog;
use hip_image::Image;
use hip_runs::{Event, Input, longest};
use hip_sound::Checked;
use hip_step::Machine;
use hip_types::{Bounds, LINE_SIZE, NoMemory, Pick, PickRefusal, Row};
use std::alloc::Global;
use std::collections::BTreeMap;
use std::marker::Model;

/// What a crash may leave in the region at each step of a run. Contracts see the program, the input, and the number of
/// steps that were noted. Of each cache line that was stored into, the log keeps the bytes after the durable stores,
/// and the later stores.
#[derive(Drop)]
pub struct CrashLog<'a> {
    checked: &'a Checked,
    input: &'a Input,
    taken: u128,
    entries: u128,
    ended: bool,
    region: RegionLog,
}

impl<'a> Model for CrashLog<'a> {
    ghost use Rattle.hip_tree.specs.contracts.program.Program as programs;
    ghost use Rattle.hip_runs.specs.Seen.{Seen};
    ghost use Rattle.std.specs.Coded.{codes};

    ghost Value = { Seen };

    ghost coded = { Prim.hlevel (codes, programs.the_row.coded) };

    ghost use Rattle.hip_crash.specs.LogState.{view_of, IsLogging};

    ghost view = { view_of };

    ghost invariant = { IsLogging };
}

impl<'a> CrashLog<'a> {
    /// A log of the first state of a run, in time linear in the initial bytes and the program's blocks.
    pub fn new(
        alloc: Global,
        checked: &'a Checked,
        input: &'a Input,
    ) -> Result<CrashLog<'a>, NoMemory>
        requires { IsValid checked.now input.now }
        ensures { IfOk result (λ log. log ≡ record { program = checked.now; input = input.now; taken = 0 }) }
    {
        // Lemma: each block's length is below 2^64, so the counts fit 128 bits.
        let _longest = longest(checked.program());
        let region = RegionLog::new(alloc)?;
        let entries = count_header(input);
        Ok(CrashLog {
            checked,
            input,
            taken: 0,
            entries,
            ended: false,
            region,
        })
    }

    /// Takes the next step of the machine, and notes it; the log has noted each step of the machine so far. Out of
    /// memory, neither changes.
    #[inline(always)]
    pub fn advance(&mut self, machine: &mut Machine<'_>) -> Result<Event, NoMemory>
        requires { self.old ≡ machine.old }
        ensures ok { OnOk result (self.new ≡ after_step self.old) }
        ensures machine { OnOk result (machine.new ≡ after_step machine.old) }
        ensures event { IfOk result (λ e. e ≡ event machine.old.program machine.old.input (state_of machine.old)) }
        ensures err { OnErr result (self.new ≡ self.old) }
        ensures err_machine { OnErr result (machine.new ≡ machine.old) }
        ensures ended { has_ended (state_of self.old) ≡ true → IsOk result }
    {
        if self.ended {
            return machine.step();
        }
        self.region.take_up(&self.input.image)?;
        let event = machine.step()?;
        note(&mut self.region, self.input.base, event);
        self.taken += 1;
        if is_counted(event) {
            self.entries += 1;
        }
        self.ended = is_end(event);
        Ok(event)
    }

    /// The number of entries that the run's trace has so far, including those of its header.
    pub fn entries(&self) -> u128
        ensures { result ≡ (state_of self.now).counts.entries }
    {
        self.entries
    }

    /// The least and the greatest number of first parts of its stores that a crash may leave in a line of the region.
    pub fn bounds(&self, line: u64) -> Bounds
        requires { LINE_SIZE * line < length self.now.input.image }
        ensures { result ≡ bounds_of (state_of self.now) line }
    {
        // Lemma: the program is sound.
        let _ = &self.checked;
        self.line_bounds(line)
    }

    /// The image that picks give, or how the first failing pick fails. A line that no pick names keeps only its durable
    /// stores. It takes memory for the bytes up to the last one that is not 0.
    pub fn pick_image(&self, alloc: Global, picks: &[Pick]) -> Result<Image, PickRefusal>
        ensures image { IfOk result (λ image. image
            ≡ crash_image self.now.input (state_of self.now) (picked (state_of self.now) picks.now)) }
        ensures is { IfOk result (λ image. IsCrashImage self.now.input (state_of self.now) image) }
        ensures valid { IfOk result (λ image. IsValid self.now.program (record self.now.input { image = image })) }
        ensures fit { OnOk result (first_failure (state_of self.now) picks.now ≡ None) }
        ensures refused { IfErr result (λ refusal. IsRefusal (state_of self.now) picks.now refusal) }
    {
        // Lemma: the program is sound.
        let _ = &self.checked;
        let numbers = self.numbers_of(alloc, picks)?;
        let mut image = Image::new(alloc);
        'lines: for line in 0..self.count() {
            let number = number_in(&numbers, line);
            let bytes = self.bytes_at(line, number);
            match image.extend_from_slice(&bytes) {
                Ok(()) => {}
                Err(_) => return Err(PickRefusal::NoMemory),
            }
        }
        Ok(image)
    }

    /// The picks of each line, ascending, that give an image, in one pass over it. None exactly if it is not a crash
    /// image.
    pub fn find_picks(&self, alloc: Global, image: &Image) -> Result<Option<Row<Pick>>, NoMemory>
        requires { length image.now ≡ length self.now.input.image }
        ensures { IfOk result (λ found. MatchOption found
            (¬ IsCrashImage self.now.input (state_of self.now) image.now)
            (λ picks. ArePicksOf self.now.input (state_of self.now) picks image.now)) }
    {
        // Lemma: the program is sound.
        let _ = &self.checked;
        let mut picks = Row::new(alloc);
        'lines: for line in 0..self.count() {
            match self.number_of(line, image) {
                Some(upto) => picks.push(Pick { line, upto })?,
                None => return Ok(None),
            }
        }
        Ok(Some(picks))
    }

    // The bounds of a line.
    fn line_bounds(&self, line: u64) -> Bounds
        requires { line < length (state_of self.now).lines }
        ensures { result ≡ bounds_of (state_of self.now) line }
    {
        let view = self.region.view(&self.input.image, line);
        Bounds {
            least: view.least,
            most: view.most(),
        }
    }

    // The number of lines of the region.
    fn count(&self) -> u64
        ensures { result ≡ length (state_of self.now).lines }
    {
        self.input.image.len() as u64 / LINE_SIZE
    }

    // The numbers that picks give lines, or how the first failing pick fails.
    fn numbers_of(&self, alloc: Global, picks: &[Pick]) -> Result<BTreeMap<u64, u64>, PickRefusal>
        ensures numbers { IfOk result (λ numbers. AreNumbers picks.now numbers.entries) }
        ensures fit { OnOk result (first_failure (state_of self.now) picks.now ≡ None) }
        ensures refused { IfErr result (λ refusal. IsRefusal (state_of self.now) picks.now refusal) }
    {
        let mut numbers = BTreeMap::new(alloc);
        'picks: for place in 0..picks.len() {
            let pick = picks[place];
            match self.failure_of(&numbers, place + 1, pick) {
                Some(refusal) => return Err(refusal),
                None => {}
            }
            match numbers.insert(pick.line, pick.upto) {
                Ok(_) => {}
                Err(_) => return Err(PickRefusal::NoMemory),
            }
        }
        Ok(numbers)
    }

    // How a pick fails after earlier ones, which gave lines these numbers.
    fn failure_of(&self, numbers: &BTreeMap<u64, u64>, at: usize, pick: Pick) -> Option<PickRefusal>
        ensures { (earlier : List Pick) → AreNumbers earlier numbers.now.entries →
            result ≡ failure (state_of self.now) earlier at pick }
    {
        if pick.line >= self.count() {
            Some(PickRefusal::NoLine { at })
        } else if number_in(numbers, pick.line).is_some() {
            Some(PickRefusal::Repeated { at })
        } else {
            range_failure(self.line_bounds(pick.line), at, pick.upto)
        }
    }

    // The bytes that an image has in a line, by the number of its first parts.
    fn bytes_at(&self, line: u64, number: Option<u64>) -> [u8; LINE_SIZE as usize]
        requires line { line < length (state_of self.now).lines }
        requires within { IsBetween (bounds_of (state_of self.now) line)
            (number_or (bounds_of (state_of self.now) line).least number) }
        ensures { (pick : ℕ → ℕ) → pick line ≡ number_or (bounds_of (state_of self.now) line).least number →
            result ≡ take LINE_SIZE (drop (LINE_SIZE * line) (crash_image self.now.input (state_of self.now) pick)) }
    {
        let view = self.region.view(&self.input.image, line);
        view.bytes_after(line * LINE_SIZE, later_count(view.least, number))
    }

    // The number of first parts that an image has of a line, if it is a crash image there.
    fn number_of(&self, line: u64, image: &Image) -> Option<u64>
        requires line { line < length (state_of self.now).lines }
        requires whole { length image.now ≡ length self.now.input.image }
        ensures { IsNumberOf self.now.input (state_of self.now) image.now line result }
    {
        let view = self.region.view(&self.input.image, line);
        match view.find(line * LINE_SIZE, &image.line(line)) {
            Some(count) => Some(view.least + count as u64),
            None => None,
        }
    }
}

// The number for a line, if it has one.
fn number_in(numbers: &BTreeMap<u64, u64>, line: u64) -> Option<u64>
    ensures { result ≡ number_in numbers.now.entries line }
{
    numbers.get(&line).copied()
}

// The number of stores after the durable ones that an image has in a line, by the number that was picked for the line.
fn later_count(least: u64, number: Option<u64>) -> usize
    requires { least ≤ number_or least number }
    ensures { result ≡ number_or least number - least }
{
    match number {
        Some(upto) => (upto - least) as usize,
        None => 0,
    }
}

// How a number for a line fails.
fn range_failure(bounds: Bounds, at: usize, upto: u64) -> Option<PickRefusal>
    ensures { result ≡ range_failure at bounds upto }
{
    if upto < bounds.least || bounds.most < upto {
        return Some(PickRefusal::OutOfRange {
            at,
            least: bounds.least,
            most: bounds.most,
        });
    }
    None
}
