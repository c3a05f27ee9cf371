use hip_code::Op;
use hip_quick_ops::Quick;

/// The next op, and the quick op that represents it.
#[derive(Clone, Copy)]
pub struct Next<'a> {
    pub op: &'a Op,
    pub quick: &'a Quick,
}
