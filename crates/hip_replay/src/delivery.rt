ghost use Rattle.hip_replay.specs.Delivery.{EndsOutOfMemory, HoldsNothingAfter};

use crate::refusal::RecordRefusal;
use hip_io::{Put, Sink};

/// Delivers what the sink holds back, and answers the refusal of a run that ends out of memory: a write fault if the
/// delivery fails.
pub(crate) fn out_of_memory<S: Sink>(out: &mut S) -> RecordRefusal
    ensures ends { EndsOutOfMemory (S.state out.old) (S.state out.new) result }
    ensures delivered { HoldsNothingAfter result (S.held out.new) }
{
    match out.deliver() {
        Put::Done => RecordRefusal::NoMemory,
        Put::Failed => RecordRefusal::WriteFault,
    }
}
