//! The entries of a file, one after the other.

ghost use Rattle.std.specs.Prelude.{◌≡◌, ◌+◌, ◌≤◌, ◌<◌, [], None, drop, false, length, IfSome, IsTrue};
ghost use Rattle.hip_trace.specs.Fronts.{AnswersFront, AnswersPiece, IsFrontOf};
ghost use Rattle.hip_trace.specs.Reads.{HasNextHeld, ReadsNext, ReadsOn, TakesAtNeed, one_more};
ghost use Rattle.hip_trace.specs.Usuals.{usual_entry};
ghost use Rattle.hip_trace.specs.declared.refusal.Progress.TheVariants.{Reading};

use crate::entry::Entry;
use crate::front::{Front, find_front};
use crate::held::Held;
use crate::line::first_line;
use crate::refusal::{Progress, TraceRefusal};
use crate::spelled::entry_of;
use crate::usual::{KeptEntry, Usual};
use hip_io::Cabinet;
use std::marker::Model;

/// Reads the entries of a cabinet's current file. It holds up to 4,096 bytes of the file inside its value.
#[derive(Drop)]
pub struct Reader {
    held: Held,
    count: u128,
    progress: Progress,
}

impl Model for Reader {
    ghost use Rattle.hip_trace.specs.Reads.{ReaderState};

    ghost Value = { ReaderState };

    ghost view = { λ r. record { held = r.held; count = r.count; progress = r.progress } };
}

impl Reader {
    /// A reader at the first byte of the rest of the current file.
    pub fn new() -> Reader
        ensures { result ≡ record { held = []; count = 0; progress = Reading } }
    {
        Reader {
            held: Held::new(),
            count: 0,
            progress: Progress::Reading,
        }
    }

    /// How many texts of entries the reader has begun; 2^128 - 1 if there are more.
    pub fn count(&self) -> u128
        ensures { result ≡ self.now.count }
    {
        self.count
    }

    /// The entry that the next piece of the file spells, or None at the file's end. After a refusal or None it answers
    /// the same again and does not call the cabinet.
    pub fn next<C: Cabinet>(&mut self, cabinet: &mut C) -> Result<Option<Entry>, TraceRefusal>
        requires { IsTrue (C.state cabinet.old).is_current }
        ensures reads { ReadsNext self.old self.new (C.state cabinet.old) (C.state cabinet.new) result }
        ensures takes { TakesAtNeed self.old.held (C.state cabinet.old) (C.state cabinet.new) }
        ensures current { IsTrue (C.state cabinet.new).is_current }
    {
        match self.progress {
            Progress::Reading => self.read_first(cabinet),
            Progress::Ended => Ok(None),
            Progress::Refused(refusal) => Err(refusal),
        }
    }

    /// Keeps the entry of the first line and returns true, if the reader holds the whole line and some bytes after it,
    /// and the line is the canonical text of a usual entry. Otherwise it returns false. `next` gives the same entry,
    /// and reads all other lines too.
    pub fn keep_usual(&mut self, kept: &mut KeptEntry) -> bool
        requires { self.old.progress ≡ Reading }
        ensures read { IsTrue result → HasNextHeld self.old self.new kept.new }
        ensures left { result ≡ false → self.new ≡ self.old }
    {
        match self.next_usual() {
            Some(usual) => {
                kept.set_usual(usual);
                true
            }
            None => false,
        }
    }

    // The entry of the first line, if it is a usual one that is held.
    #[inline(always)]
    fn next_usual(&mut self) -> Option<Usual>
        requires { self.old.progress ≡ Reading }
        ensures read { IfSome result (λ usual. HasNextHeld self.old self.new (usual_entry usual)) }
        ensures left { result ≡ None → self.new ≡ self.old }
    {
        match first_line(self.held.as_slice()) {
            Some(line) => {
                self.pass(line.len);
                Some(line.usual)
            }
            None => None,
        }
    }

    // Reads a usual line that is already held. `read_on` reads all other lines.
    fn read_first<C: Cabinet>(&mut self, cabinet: &mut C) -> Result<Option<Entry>, TraceRefusal>
        requires current { IsTrue (C.state cabinet.old).is_current }
        requires reading { self.old.progress ≡ Reading }
        ensures reads { ReadsOn self.old self.new (C.state cabinet.old) (C.state cabinet.new) result }
        ensures takes { TakesAtNeed self.old.held (C.state cabinet.old) (C.state cabinet.new) }
        ensures current { IsTrue (C.state cabinet.new).is_current }
    {
        match self.next_usual() {
            Some(usual) => Ok(Some(usual.entry())),
            None => self.read_on(cabinet),
        }
    }

    // Drops a piece and its separator.
    fn pass(&mut self, len: usize)
        requires { len < length self.old.held }
        ensures { self.new ≡ record {
          held = drop (len + 1) self.old.held;
          count = one_more self.old.count;
          progress = self.old.progress;
        } }
    {
        let held = self.held.len();
        prove!(len < held);
        self.begin_text();
        self.held.skip(len + 1);
    }

    fn read_on<C: Cabinet>(&mut self, cabinet: &mut C) -> Result<Option<Entry>, TraceRefusal>
        requires current { IsTrue (C.state cabinet.old).is_current }
        requires reading { self.old.progress ≡ Reading }
        ensures reads { ReadsOn self.old self.new (C.state cabinet.old) (C.state cabinet.new) result }
        ensures takes { TakesAtNeed self.old.held (C.state cabinet.old) (C.state cabinet.new) }
        ensures current { IsTrue (C.state cabinet.new).is_current }
    {
        let front = find_front(&mut self.held, cabinet);
        self.answer(front)
    }

    fn answer(&mut self, front: Front) -> Result<Option<Entry>, TraceRefusal>
        requires front { IsFrontOf self.old.held front }
        requires reading { self.old.progress ≡ Reading }
        ensures { AnswersFront self.old self.new front result }
    {
        match front {
            Front::Piece(len) => {
                let held = self.held.len();
                prove!(len < held);
                self.answer_piece(len, len + 1)
            }
            Front::Rest => self.answer_rest(),
            Front::TooLong => {
                self.begin_text();
                self.progress = Progress::Refused(TraceRefusal::Malformed);
                Err(TraceRefusal::Malformed)
            }
            Front::Failed => {
                if self.held.len() > 0 {
                    self.begin_text();
                }
                self.progress = Progress::Refused(TraceRefusal::ReadFault);
                Err(TraceRefusal::ReadFault)
            }
        }
    }

    fn answer_rest(&mut self) -> Result<Option<Entry>, TraceRefusal>
        requires { self.old.progress ≡ Reading }
        ensures { AnswersFront self.old self.new Front.Rest result }
    {
        let len = self.held.len();
        if len == 0 {
            self.progress = Progress::Ended;
            return Ok(None);
        }
        self.answer_piece(len, len)
    }

    // The entry that the first `len` bytes spell; the first `taken` bytes are dropped.
    fn answer_piece(&mut self, len: usize, taken: usize) -> Result<Option<Entry>, TraceRefusal>
        requires order { len ≤ taken }
        requires held { taken ≤ length self.old.held }
        requires reading { self.old.progress ≡ Reading }
        ensures { AnswersPiece self.old self.new len taken result }
    {
        self.begin_text();
        match entry_of(&self.held.as_slice()[..len]) {
            Some(entry) => {
                self.held.skip(taken);
                Ok(Some(entry))
            }
            None => {
                self.progress = Progress::Refused(TraceRefusal::Malformed);
                Err(TraceRefusal::Malformed)
            }
        }
    }

    fn begin_text(&mut self)
        ensures { self.new ≡ record self.old { count = one_more self.old.count } }
    {
        self.count = self.count.saturating_add(1);
    }
}
