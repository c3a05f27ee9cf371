use crate::plan::CloneOf;
use hip_sound::Checked;
use hip_types::Row;

/// A repaired program, with its clones.
#[derive(Drop)]
pub struct Repaired {
    /// The repaired program.
    pub checked: Checked,
    /// The clones in it, in the order in which calls reach their originals.
    pub clones: Row<CloneOf>,
}
