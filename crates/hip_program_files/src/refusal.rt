use hip_grammar::ParseRefusal;
use hip_sound::TypeRefusal;

/// Why a program is refused; never out of memory.
#[derive(Debug, Drop)]
pub enum ProgramRefusal {
    /// The text reads as no program.
    Text(ParseRefusal),
    /// The program that it reads as is not sound.
    Form(TypeRefusal),
}

/// Why there is no program in a file.
#[derive(Debug, Drop)]
pub enum LoadRefusal {
    /// There is no such file.
    Missing,
    /// The text has more than 16,777,216 bytes.
    TooLarge,
    Bad(ProgramRefusal),
}
