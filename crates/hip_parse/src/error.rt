//! Why a text is no program.

ghost use Rattle.std.specs.Prelude.{◌≡◌, Option};
ghost use Rattle.hip_parse.specs.declared.error.ReadError.TheVariants.{Memory, Refused};

use hip_grammar::TextFault;
use hip_types::NoMemory;

/// Why a method gave nothing: out of memory, or the parser's next token is refused, perhaps for a reason of its place.
#[derive(Debug, Drop)]
pub(crate) enum ReadError {
    Memory,
    Refused(Option<TextFault>),
}

impl From<NoMemory> for ReadError {
    ghost from_gives = { λ _ e. e ≡ Memory };

    fn from(_e: NoMemory) -> ReadError {
        ReadError::Memory
    }
}

impl From<Option<TextFault>> for ReadError {
    ghost from_gives = { λ why e. e ≡ Refused why };

    fn from(why: Option<TextFault>) -> ReadError {
        ReadError::Refused(why)
    }
}
