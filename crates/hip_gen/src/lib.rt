//! Texts of sound programs of any size, each made from a seed.
#![tactic(auto)]

mod kinds;
mod laws;
mod limits;
mod lines;
mod texts;

pub use laws::generated_programs_are_sound;
pub use limits::{LARGEST_SIZE, SEED_END};
pub use texts::generate;
