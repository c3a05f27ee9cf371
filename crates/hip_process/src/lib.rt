//! One call of the program: the top call over files that are opened by their names, and two devices.
#![tactic(auto)]

ghost use Rattle.std.specs.Prelude.{◌≡◌, [], None, map, string_bytes};
ghost use Rattle.hip_answers.specs.Answers.{HasAnswered, IsDelivered, sinks};
ghost use Rattle.hip_answers.specs.Fetches.{FetchesFiles};
ghost use Rattle.hip_files.specs.Openers.{opened_state};
ghost use Rattle.hip_files.specs.Streams.{given};
ghost use Rattle.hip_tool.specs.Call.{AnswersTo, begins, files_of};
ghost use Rattle.hip_tool.specs.CallEnd.{IsSentOut};
ghost use Rattle.hip_words.specs.Order.{order};

use hip_files::{Device, FileCabinet, Opener, Stream};
use hip_io::{Cabinet, Sink};
use hip_tool::{Status, hippo};
use std::alloc::Global;

/// What is left when a command has ended: its status, and the files and streams that it used.
#[derive(Drop)]
pub struct ProcessEnd<C, D, N> {
    pub status: Status,
    pub cabinet: C,
    pub out: Stream<D>,
    pub notes: Stream<N>,
}

/// Carries out the command that the words give. The words come without the program's name. `lines` says whether `out`
/// writes each line at once; `notes` always does. It opens each file that the words name at most once, and no other.
pub fn process<O: Opener + Drop, D: Device + Drop, N: Device + Drop>(
    alloc: Global,
    words: &[String],
    opener: O,
    out: D,
    notes: N,
    lines: bool,
) -> ProcessEnd<FileCabinet<O, O::File>, D, N>
    ensures answered { HasAnswered
        (AnswersTo (order (map string_bytes words.now))
        (opened_state O.reveals O.File.remaining (O.files opener) (O.last opener) (O.opens opener) None 0 0)
        (⟦<FileCabinet<O, O::File> as Cabinet>⟧.state result.cabinet))
        (begins (order (map string_bytes words.now)))
        (opened_state O.reveals O.File.remaining (O.files opener) (O.last opener) (O.opens opener) None 0 0)
        (⟦<FileCabinet<O, O::File> as Cabinet>⟧.state result.cabinet)
        (sinks (record { bytes = given D.reveals (D.contents out) []; faults = 0 }) (⟦<Stream<D> as Sink>⟧.state result.out)
        (record { bytes = given N.reveals (N.contents notes) []; faults = 0 }) (⟦<Stream<N> as Sink>⟧.state result.notes))
        result.status }
    ensures fetches { FetchesFiles (files_of (order (map string_bytes words.now))) result.status
        (opened_state O.reveals O.File.remaining (O.files opener) (O.last opener) (O.opens opener) None 0 0)
        (⟦<FileCabinet<O, O::File> as Cabinet>⟧.state result.cabinet) }
    ensures delivered { IsDelivered result.status (⟦<Stream<D> as Sink>⟧.held result.out) }
    ensures sent { IsSentOut (record { bytes = given N.reveals (N.contents notes) []; faults = 0 })
        (⟦<Stream<N> as Sink>⟧.state result.notes) (⟦<Stream<N> as Sink>⟧.held result.notes) }
{
    let mut cabinet = FileCabinet::new(opener);
    let mut out = Stream::new(alloc, out, lines);
    let mut notes = Stream::new(alloc, notes, true);
    let status = hippo(alloc, words, &mut cabinet, &mut out, &mut notes);
    ProcessEnd {
        status,
        cabinet,
        out,
        notes,
    }
}
