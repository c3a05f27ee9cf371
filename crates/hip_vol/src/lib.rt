//! Levels of pointers, which bound the addresses that they hold; the low stores, which by these levels never lie in the
//! region; and thin repairs, whose clones do not flush them.
#![tactic(auto)]

mod constants;
mod level_laws;
mod low_stores;
mod numbered;
mod propagation;
mod rule_walk;
mod table;
mod thin;
mod variables;

pub use level_laws::{direct_stores_are_low, least_levels_are_least, low_stores_stay_outside};
pub use low_stores::quiet_stores;
pub use thin::{ThinRepair, apply_quiet, thin_repair};
