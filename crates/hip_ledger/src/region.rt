use hip_lines::Lines;

/// The persistent region of a run: its first address, its size in bytes, and its cache lines.
#[derive(Clone, Copy)]
pub struct Region<'a> {
    pub base: u64,
    pub size: u64,
    pub lines: &'a Lines,
}
