/// How an entry of a trace differs from the run's.
#[derive(Clone, Copy, Debug, PartialEq, Eq)]
pub enum MisfitKind {
    /// The text spells no entry, or has more than 256 bytes.
    Malformed,
    /// It is not the entry of the run, or it breaks a rule of the header.
    Differs,
    /// The file has ended, and the run's trace has not.
    Early,
    /// The run's trace has ended, and the file has not.
    Extra,
}
