//! What a run is searched for.

/// What is sought in a run.
#[derive(Clone, Copy)]
pub enum Sought {
    /// The reports alone: no mark is noted, and no object is looked up.
    Reports,
    /// The reports and the marks.
    Findings,
}
