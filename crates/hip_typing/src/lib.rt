//! The verifier of soundness: a function for each rule, which finds the first place that breaks it, and `check`, which
//! accepts exactly the sound programs.
#![tactic(auto)]

mod assigned;
mod constants;
mod places;
mod refusal;
mod refused;
mod rules;
mod tables;
mod verifier;

pub use assigned::NotAssigned;
pub use assigned::functions::verify_assigned;
pub use hip_sound::{Checked, Place, TypeFault, TypeRefusal};
pub use refused::Refused;
pub use rules::verify_rules;
pub use verifier::check;
