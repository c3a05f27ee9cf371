//! What comes first in the bytes that a reader holds.

ghost use Rattle.std.specs.Prelude.{IsTrue};
ghost use Rattle.hip_trace.specs.Fronts.{FindsFront};

use crate::held::Held;
use hip_io::{Cabinet, Taken};

/// What comes first in the bytes that a reader holds.
#[derive(Clone, Copy)]
pub(crate) enum Front {
    /// A piece of this many bytes, with a separator after it.
    Piece(usize),
    /// All that is left of the file, with no separator.
    Rest,
    /// More than 256 bytes with no separator.
    TooLong,
    /// A part of a piece, after which a read failed.
    Failed,
}

/// Takes bytes of the current file until it is known what comes first. It takes no byte while it holds a separator or
/// more than 256 bytes.
pub(crate) fn find_front<C: Cabinet>(held: &mut Held, cabinet: &mut C) -> Front
    requires { IsTrue (C.state cabinet.old).is_current }
    ensures { FindsFront held.old held.new (C.state cabinet.old) (C.state cabinet.new) result }
{
    'more: loop {
        match held.separator() {
            Some(len) => return Front::Piece(len),
            None => {}
        }
        if held.len() > 256 {
            return Front::TooLong;
        }
        match held.take_more(cabinet) {
            Taken::Got(_) => {}
            Taken::End => return Front::Rest,
            Taken::Failed => return Front::Failed,
        }
    }
}
