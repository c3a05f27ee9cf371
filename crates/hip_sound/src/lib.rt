//! Which programs are sound, and where their data lies.
#![tactic(auto)]

mod checked;
mod fault;
mod point;

pub use checked::Checked;
pub use fault::{Fault, Finding, Place, TypeFault, TypeRefusal};
pub use point::Point;
