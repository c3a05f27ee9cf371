//! The memory of a run, with one call for each action of a step on it.
#![tactic(auto)]

mod laws;
mod refusal;
mod region;
mod storage;

pub use laws::{
    asserts_are_those_of_the_run, blocks_are_those_of_the_run, flushes_are_those_of_the_run,
    loads_are_those_of_the_run, stores_are_those_of_the_run,
};
pub use refusal::StorageRefusal;
pub use storage::Storage;
