/// The point of a use of a register in its block.
#[derive(Clone, Copy)]
pub enum Point {
    /// Before the instruction of that number in the body.
    Before(usize),
    AtEnd,
}
