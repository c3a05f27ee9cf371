//! Where bytes come from and where they go: named files to read, and sinks to write.
#![tactic(auto)]

mod cabinet;
mod failing_cabinet;
mod mem_cabinet;
mod mem_sink;
mod read;
mod sink;

pub use cabinet::{Cabinet, Fetched, NamedFile, Taken};
pub use failing_cabinet::{FailAt, FailingCabinet};
pub use mem_cabinet::MemCabinet;
pub use mem_sink::MemSink;
pub use read::{ReadRefusal, read_all};
pub use sink::{Put, Sink, WriteFault, deliver_after, put_after};
