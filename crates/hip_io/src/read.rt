ghost use Rattle.std.specs.Prelude.{◌<◌, ◌^◌, length, IsTrue};
ghost use Rattle.hip_io.specs.Reads.{HasRead, HasReadRest};

use crate::cabinet::{Cabinet, Fetched, Taken};
use hip_types::Row;
use std::alloc::Global;

/// Why a file was not read.
#[derive(Clone, Copy, Debug, PartialEq, Eq)]
pub enum ReadRefusal {
    Missing,
    ReadFault,
    TooLarge,
    NoMemory,
}

/// All bytes of the file of that name. It takes at most `limit + 1` bytes from the cabinet.
pub fn read_all<C: Cabinet>(
    alloc: Global,
    cabinet: &mut C,
    name: &str,
    limit: u64,
) -> Result<Row<u8>, ReadRefusal>
    requires { limit < 2 ^ 63 }
    ensures { HasRead (C.state cabinet.old) (C.state cabinet.new) name.now limit result }
{
    match cabinet.fetch(name) {
        Fetched::Ready => {
            let mut buf = [0; 4096];
            read_rest(alloc, cabinet, limit, &mut buf)
        }
        Fetched::Missing => Err(ReadRefusal::Missing),
        Fetched::Failed => Err(ReadRefusal::ReadFault),
    }
}

/// The rest of the current file, taken in pieces of at most the buffer's length.
fn read_rest<C: Cabinet>(
    alloc: Global,
    cabinet: &mut C,
    limit: u64,
    buf: &mut [u8],
) -> Result<Row<u8>, ReadRefusal>
    requires limit { limit < 2 ^ 63 }
    requires room { 0 < length buf.old }
    requires current { IsTrue (C.state cabinet.old).is_current }
    ensures { HasReadRest (C.state cabinet.old) (C.state cabinet.new) limit result }
{
    let mut bytes = Vec::new(alloc);
    'more: while bytes.len() as u64 <= limit {
        let most = buf.len().min(limit as usize + 1 - bytes.len());
        match cabinet.take(&mut buf[..most]) {
            Taken::Got(count) => {
                if bytes.extend_from_slice(&buf[..count]).is_err() {
                    return Err(ReadRefusal::NoMemory);
                }
            }
            Taken::End => return Ok(Row::from_vec(bytes)),
            Taken::Failed => return Err(ReadRefusal::ReadFault),
        }
    }
    Err(ReadRefusal::TooLarge)
}
