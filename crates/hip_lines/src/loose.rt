ghost use Rattle.std.specs.Prelude.{◌≡◌, ◌+◌, ◌≤◌, ◌^◌};
ghost use Rattle.std.specs.Iterator.{YieldsFirst, item_count};
ghost use Rattle.hip_lines.specs.Next.{loose_of, lines_to};

use crate::part::LooseByte;
use crate::queue::Queue;
use crate::queues::Queues;
use hip_types::LINE_SIZE;
use std::marker::Model;

/// The loose bytes of a range, ascending; contracts see the list of those that are left.
#[derive(Drop)]
pub struct NotDurable<'a> {
    queues: &'a Queues,
    // The queue of the line that contains `at`, or of the next line that has one.
    queue: Option<&'a Queue>,
    at: u64,
    end: u64,
}

impl<'a> Model for NotDurable<'a> {
    ghost use Rattle.std.specs.Prelude.{List};
    ghost use Rattle.hip_lines.specs.declared.part.LooseByte.{LooseByte};

    ghost Value = { List LooseByte };

    ghost use Rattle.hip_lines.specs.Rest.{rest_of, IsStanding};

    ghost view = { rest_of };

    ghost invariant = { IsStanding };
}

impl<'a> NotDurable<'a> {
    pub(crate) fn new(queues: &'a Queues, from: u64, len: u64) -> NotDurable<'a>
        requires { from + len ≤ 2 ^ 26 }
        ensures { result ≡ loose_of queues.now from len }
    {
        NotDurable {
            queues,
            queue: queues.first_from(from / LINE_SIZE, lines_to(from + len)),
            at: from,
            end: from + len,
        }
    }
}

impl<'a> Iterator for NotDurable<'a> {
    type Item = LooseByte;

    ghost next_gives = { YieldsFirst (λ s. s) };

    ghost remaining = { item_count (λ s. s) };

    fn next(&mut self) -> Option<LooseByte> {
        while let Some(queue) = self.queue {
            let stop = self.end.min((queue.line + 1) * LINE_SIZE);
            match queue.first_loose(self.at.max(queue.line * LINE_SIZE), stop) {
                Some(byte) => {
                    self.at = byte.offset + 1;
                    return Some(byte);
                }
                None => {
                    if stop == self.end {
                        return None;
                    }
                    self.at = stop;
                    let to = lines_to(self.end);
                    self.queue = self.queues.first_from(queue.line + 1, to);
                }
            }
        }
        None
    }
}

// How many lines have a byte before an offset.
fn lines_to(offset: u64) -> u64
    requires { offset ≤ 2 ^ 26 }
    ensures { result ≡ lines_to offset }
{
    (offset + (LINE_SIZE - 1)) / LINE_SIZE
}
