/// What is wrong with the first token that leaves the grammar, or with the end of a text that ends too early.
#[derive(Clone, Copy, Debug, PartialEq, Eq)]
pub enum TextFault {
    /// It is not allowed there, or the text ends too early.
    Syntax,
    /// It belongs to a form of LLVM's text that is not read.
    Unsupported,
    /// It is a number out of the range of its place.
    Range,
    /// It opens one level of nesting too many.
    TooDeep,
}
