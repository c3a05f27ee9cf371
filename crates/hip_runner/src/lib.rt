//! The runner of resolved programs over persistent memory: it takes the steps of the definition, and keeps no cache
//! lines.
#![tactic(auto)]

mod actions;
mod ahead;
mod event_loop;
mod here;
mod moves;
mod next;
mod print_loop;
mod quick_calls;
mod quick_effects;
mod quick_loop;
mod quick_steps;
mod quick_stores;
mod reach;
mod runner;
mod standing_call;

pub use ahead::StoreAhead;
pub use runner::Runner;
pub use standing_call::StandingCall;
