use hip_runs::Ending;

/// How a run has ended, and how many entries its trace has.
#[derive(Clone, Copy)]
pub struct Ended {
    pub ending: Ending,
    pub entries: u128,
}
