/// Why there is no program, and on which line.
///
/// The line is that of the refused token, or of the text's last byte if the text ends too early.
#[derive(Debug, Drop, PartialEq, Eq)]
pub enum ParseRefusal {
    /// The token is not allowed there, or the text ends too early.
    Syntax { line: u64 },
    /// The token belongs to a form of LLVM's text that is not read.
    Unsupported { line: u64 },
    /// The token is a number out of the range of its place.
    Range { line: u64 },
    /// The token opens one level of nesting too many.
    TooDeep { line: u64 },
    /// Memory ran out.
    NoMemory,
}
