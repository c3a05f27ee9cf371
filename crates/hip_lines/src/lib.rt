//! The store queues of the cache lines of a persistent region.
#![tactic(auto)]

mod history;
mod kept;
mod lines;
mod loose;
mod numbers;
mod part;
mod queue;
mod queues;

pub use lines::Lines;
pub use loose::NotDurable;
pub use part::{LooseByte, Part};
