//! The entries of traces: read from a cabinet however it cuts the bytes, and written to a sink. No call takes memory.
#![tactic(auto)]

mod entry;
mod fields;
mod front;
mod held;
mod laws;
mod line;
mod numbers;
mod reader;
mod refusal;
mod spelled;
mod usual;
mod write;

pub use entry::{Entry, TrapWord};
pub use laws::{
    canonical_texts_are_shortest, canonical_texts_spell, entries_that_fit_are_spelled,
    pieces_are_stated_one_by_one, readers_end, written_entries_are_read_back,
};
pub use reader::Reader;
pub use refusal::TraceRefusal;
pub use usual::{KeptEntry, Usual};
pub use write::{write_entry, write_usual};
