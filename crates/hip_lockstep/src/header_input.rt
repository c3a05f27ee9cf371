//! The header of a trace, which gives the input of its run.

ghost use Rattle.std.specs.Prelude.{◌≡◌, ℕ, [], Some, IsTrue, OnOk};
ghost use Rattle.hip_globals.specs.Addresses.{region_size};
ghost use Rattle.hip_io.specs.Cabinets.{CabinetState};
ghost use Rattle.hip_tree.specs.declared.program.Program.{Program};
ghost use Rattle.hip_run_traces.specs.Headers.{valid_base, valid_limit};
ghost use Rattle.hip_lockstep.specs.GivenInput.{IsEmpty, input_of};
ghost use Rattle.hip_lockstep.specs.HeaderInput.{HasGiven, HasLimit, ReadsBase, ReadsHeader, ReadsLimit, ReadsValues};
ghost use Rattle.hip_trace.specs.declared.refusal.Progress.TheVariants.{Reading};

use crate::given::Given;
use crate::next::next_entry;
use crate::refusal::ReplayRefusal;
use crate::steps::Lockstep;
use hip_globals::is_base;
use hip_image::Image;
use hip_io::Cabinet;
use hip_run_traces::MisfitKind;
use hip_runs::{Input, MOST_TURNS};
use hip_sound::Checked;
use hip_trace::{Entry, KeptEntry, Reader};
use hip_types::Row;
use std::alloc::Global;

/// The input that a header gives, and the first entry after the header.
#[derive(Drop)]
pub struct Begun {
    pub input: Input,
    pub lockstep: Lockstep,
}

fn valid_limit(entry: &Entry) -> Option<u64>
    ensures { result ≡ valid_limit (Some entry.now) }
{
    match entry {
        Entry::Start { limit } => if *limit <= MOST_TURNS {
            Some(*limit)
        } else {
            None
        },
        _ => None,
    }
}

fn valid_base(checked: &Checked, entry: &Entry) -> Option<u64>
    ensures { result ≡ valid_base checked.now (Some entry.now) }
{
    match entry {
        Entry::Register { base, size } => {
            if is_base(*base) && *size == checked.region_size() {
                Some(*base)
            } else {
                None
            }
        }
        _ => None,
    }
}

// The limit of turns, from the first entry.
fn read_limit<C: Cabinet>(reader: &mut Reader, cabinet: &mut C) -> Result<u64, ReplayRefusal>
    requires new { reader.old ≡ record { held = []; count = 0; progress = Reading } }
    requires current { IsTrue (C.state cabinet.old).is_current }
    ensures read { (P : Program) → ReadsLimit P (C.state cabinet.old) reader.new (C.state cabinet.new) result }
    ensures current { IsTrue (C.state cabinet.new).is_current }
    ensures reading { OnOk result (reader.new.progress ≡ Reading) }
{
    let entry = next_entry(0, reader, cabinet)?;
    match valid_limit(&entry) {
        Some(limit) => Ok(limit),
        None => Err(ReplayRefusal::Misfit {
            entry: 1,
            kind: MisfitKind::Differs,
        }),
    }
}

// The base of the region, from the second entry.
fn read_base<C: Cabinet>(
    checked: &Checked,
    reader: &mut Reader,
    cabinet: &mut C,
) -> Result<u64, ReplayRefusal>
    requires reading { reader.old.progress ≡ Reading }
    requires current { IsTrue (C.state cabinet.old).is_current }
    ensures read { (start : CabinetState) → (limit : ℕ)
        → HasLimit start reader.old (C.state cabinet.old) limit →
        ReadsBase checked.now start reader.new (C.state cabinet.new) limit result }
    ensures current { IsTrue (C.state cabinet.new).is_current }
    ensures reading { OnOk result (reader.new.progress ≡ Reading) }
{
    let entry = next_entry(1, reader, cabinet)?;
    match valid_base(checked, &entry) {
        Some(base) => Ok(base),
        None => Err(ReplayRefusal::Misfit {
            entry: 2,
            kind: MisfitKind::Differs,
        }),
    }
}

// Takes what the INPUT and IMAGE entries give, and answers the first entry after them.
fn read_values<C: Cabinet>(
    checked: &Checked,
    given: &mut Given,
    size: u64,
    reader: &mut Reader,
    cabinet: &mut C,
) -> Result<Lockstep, ReplayRefusal>
    requires reading { reader.old.progress ≡ Reading }
    requires current { IsTrue (C.state cabinet.old).is_current }
    requires size { size ≡ region_size checked.now }
    requires empty { IsEmpty given.old }
    ensures read { (start : CabinetState) →
        HasGiven checked.now start reader.old (C.state cabinet.old) (input_of given.old) 2 →
        ReadsValues checked.now start reader.new (C.state cabinet.new) (input_of given.new) result }
    ensures current { IsTrue (C.state cabinet.new).is_current }
{
    let mut entries = 2;
    'entries: loop {
        let next = next_entry(entries, reader, cabinet)?;
        if !given.take(checked, size, &next)? {
            return Ok(Lockstep {
                next: KeptEntry::new(next),
                entries,
            });
        }
        entries += 1;
    }
}

/// Reads the header of the trace that is ahead of a new reader, and the first entry after it. Only the numbers and the
/// initial bytes of the input take memory.
pub fn read_header<C: Cabinet>(
    alloc: Global,
    checked: &Checked,
    reader: &mut Reader,
    cabinet: &mut C,
) -> Result<Begun, ReplayRefusal>
    requires new { reader.old ≡ record { held = []; count = 0; progress = Reading } }
    requires current { IsTrue (C.state cabinet.old).is_current }
    ensures read { ReadsHeader checked.now (C.state cabinet.old) reader.new (C.state cabinet.new) result }
    ensures current { IsTrue (C.state cabinet.new).is_current }
{
    let limit = read_limit(reader, cabinet)?;
    let base = read_base(checked, reader, cabinet)?;
    let mut given = Given {
        base,
        limit,
        numbers: Row::new(alloc),
        image: Image::new(alloc),
    };
    let size = checked.region_size();
    let lockstep = read_values(checked, &mut given, size, reader, cabinet)?;
    let input = given.fill(size)?;
    Ok(Begun { input, lockstep })
}
